//! `replay`: a schema's file is read, and of a schema with the protocol a journal's, whose steps are made and their lines written as they are.
ghost use Rattle.std.specs.Prelude.{◌≡◌, ◌≤◌, IfOk, Some, codes, length};
ghost use Rattle.tl_numbers.specs.Bytes.{AreBytes};
ghost use Rattle.tl_schema.specs.CheckedPrograms.{IsSchema};
ghost use Rattle.wire_profile.specs.Profiles.{IsProfile};
ghost use Rattle.outside.specs.Begun.{DidIn, to_output};
ghost use Rattle.outside.specs.Printing.{Answers};
ghost use Rattle.outside.specs.Runs.{RanIn, answered};
ghost use Rattle.codec_rooms.specs.Typed.{OfText};
ghost use Rattle.update_commands.specs.Replay.{OfJournal};
ghost use Rattle.update_commands.specs.Replaying.{stop_line};
ghost use Rattle.update_replay.specs.Replays.{IsNew, seen_of};
ghost use Rattle.update_commands.specs.Profile.{OfProfile};
ghost use Rattle.update_commands.specs.ReplayWork.{replays, replays_by};
ghost use Rattle.update_commands.specs.inner.Stops.{TellsStop};

use crate::step_fault_line;
use fault_lines::{profile_of, step_line};
use outside::{Host, Status, finish, placed_line, print, print_made, read_file, tell, write_out};
use schema_files::{SCHEMA_BYTES, schema_of};
use std::alloc::{AllocError, Global};
use tl_base::{Out, Slot};
use tl_schema::Schema;
use update_replay::{MAX_JOURNAL_BYTES, Replay, ReplayFault};
use update_world::World;
use wire_profile::Profile;

// The line of why a replay stopped at its journal.
fn stop_line(alloc: Global, fault: ReplayFault) -> Result<Vec<u8>, AllocError>
    ensures { IfOk result (λ line. stop_line fault ≡ Some line.items) }
{
    match fault {
        ReplayFault::Wire { at, fault } => step_line(alloc, at as u64, fault),
        ReplayFault::Step { at, fault } => step_fault_line(alloc, at as u64, fault),
        ReplayFault::TooLong { at } => placed_line(alloc, "journal", at as u64, "TooLong"),
        // A replay in memory stops for want of memory else.
        _ => Err(AllocError),
    }
}

// Tells why a replay stopped.
fn tell_stop<H: Host>(alloc: Global, host: &mut H, fault: ReplayFault) -> Result<Status, AllocError>
    ensures { TellsStop fault (H.state host.old) (H.state host.new) (answered result) }
{
    let line = stop_line(alloc, fault)?;
    Ok(tell(host, &line, Status::Refused))
}

// Makes the steps of a journal in a new world, and writes the lines of each when it is made.
fn write_replay<H: Host>(
    alloc: Global,
    host: &mut H,
    world: &mut World,
    journal: &[u8],
) -> Result<Status, AllocError>
    requires new { IsNew world.old }
    requires sound { IsProfile world.old.profile }
    requires bytes { AreBytes (seen_of journal.now) }
    ensures { DidIn to_output (Answers (OfJournal world.old.profile (length world.old.clients) journal.now)) (H.state host.old) (H.state host.new) (answered result) }
{
    let mut replay = Replay::new(alloc, journal);
    'steps: loop {
        let more = match replay.next(alloc, world) {
            Ok(more) => more,
            Err(fault) => return tell_stop(alloc, host, fault),
        };
        if !more {
            return Ok(print(host, replay.lines()));
        }
        match write_out(host, Out::Output, replay.lines()) {
            Ok(()) => {}
            Err(_) => return Ok(tell(host, b"tlbox: write fault\n", Status::WriteFault)),
        }
    }
}

// What follows of a journal's text.
fn replay_text<H: Host>(
    alloc: Global,
    host: &mut H,
    profile: Profile,
    text: &[u8],
    clients: u32,
) -> Result<Status, AllocError>
    requires some { 1 ≤ clients }
    requires few { clients ≤ 16 }
    requires sound { IsProfile profile }
    requires bytes { AreBytes text.now }
    ensures { DidIn to_output (Answers (OfJournal profile.entry clients text.now)) (H.state host.old) (H.state host.new) (answered result) }
{
    let mut world = World::new(alloc, profile, clients)?;
    write_replay(alloc, host, &mut world, text)
}

// What follows of a profile.
fn replay_file<H: Host>(
    alloc: Global,
    host: &mut H,
    profile: Profile,
    journal: &str,
    clients: u32,
) -> Result<Status, AllocError>
    requires some { 1 ≤ clients }
    requires few { clients ≤ 16 }
    requires sound { IsProfile profile }
    ensures { DidIn to_output (replays_by journal.now clients profile.entry) (H.state host.old) (H.state host.new) (answered result) }
{
    match read_file(alloc, host, Slot::Input, journal, MAX_JOURNAL_BYTES)? {
        Some(text) => replay_text(alloc, host, profile, &text, clients),
        None => Ok(tell(host, b"tlbox: read fault\n", Status::ReadFault)),
    }
}

// What follows of a schema.
fn replay_profiled<H: Host>(
    alloc: Global,
    host: &mut H,
    schema: &Schema,
    journal: &str,
    clients: u32,
) -> Result<Status, AllocError>
    requires good { IsSchema schema.now }
    requires some { 1 ≤ clients }
    requires few { clients ≤ 16 }
    ensures { DidIn to_output (OfProfile (replays_by journal.now clients) schema.now) (H.state host.old) (H.state host.new) (answered result) }
{
    match profile_of(alloc, schema) {
        Ok(profile) => replay_file(alloc, host, profile, journal, clients),
        Err(fault) => print_made(host, Err(fault)),
    }
}

// What follows of the schema's text.
fn replay_schema<H: Host>(
    alloc: Global,
    host: &mut H,
    text: &[u8],
    journal: &str,
    clients: u32,
) -> Result<Status, AllocError>
    requires some { 1 ≤ clients }
    requires few { clients ≤ 16 }
    ensures { DidIn to_output (OfText (codes "schema") (OfProfile (replays_by journal.now clients)) text.now) (H.state host.old) (H.state host.new) (answered result) }
{
    match schema_of(alloc, "schema", text) {
        Ok(schema) => replay_profiled(alloc, host, &schema, journal, clients),
        Err(fault) => print_made(host, Err(fault)),
    }
}

/// Replays a journal with so many clients, 1 to 16, and writes the lines of each step when it is made, and the closing lines.
pub fn replay_journal<H: Host>(
    alloc: Global,
    host: &mut H,
    schema: &str,
    journal: &str,
    clients: u32,
) -> Result<Status, AllocError>
    requires some { 1 ≤ clients }
    requires few { clients ≤ 16 }
    ensures { DidIn to_output (replays schema.now journal.now clients) (H.state host.old) (H.state host.new) (answered result) }
{
    match read_file(alloc, host, Slot::Schema, schema, SCHEMA_BYTES)? {
        Some(text) => replay_schema(alloc, host, &text, journal, clients),
        None => Ok(tell(host, b"tlbox: read fault\n", Status::ReadFault)),
    }
}

/// Likewise, to the end of the run: out of memory is told.
pub fn run_replay<H: Host>(
    alloc: Global,
    host: &mut H,
    schema: &str,
    journal: &str,
    clients: u32,
) -> Status
    requires some { 1 ≤ clients }
    requires few { clients ≤ 16 }
    ensures { RanIn to_output (replays schema.now journal.now clients) (H.state host.old) (H.state host.new) result }
{
    let done = replay_journal(alloc, host, schema, journal, clients);
    finish(host, done)
}
