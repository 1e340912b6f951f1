//! Lines of a world.
ghost use Rattle.std.specs.Prelude.{◌≡◌, ◌++◌, IsErrOf, OnOk, length};
ghost use Rattle.tl_base.specs.Using.{Wrote};
ghost use Rattle.tl_base.specs.Writing.{WritesPiece};
ghost use Rattle.update_replay.specs.StepLines.{packet_lines};
ghost use Rattle.update_replay.specs.Told.{all_own_lines};
ghost use Rattle.update_replay.specs.WorldLines.{Stands, bytes_from, end_lines, first_new, outcome_lines, outcome_text, pushed_text};

use crate::fault::LineFault;
use report_lines::{
    put_again, put_channel_too_long, put_client, put_date, put_heard, put_line_end, put_packet,
    put_posted, put_refused, put_restarted, put_served, put_server, put_step_head, put_ticked,
    put_too_long, put_watched, put_woken,
};
use tl_base::{Memory, Sink, write_all};
use update_world::{Outcome, World};

/// Writes the lines of the step of a number, after which the world is as it is: its own, and one for each packet that it sent. They are put
/// together in `lines`, whatever stands there before.
pub fn write_step<K: Sink>(
    lines: &mut Vec<u8>,
    world: &World,
    number: u32,
    outcome: Outcome,
    to: &mut K,
) -> Result<(), LineFault>
    requires { Stands world.now outcome }
    ensures bytes { WritesPiece (K.state to.old).written (K.state to.new).written (outcome_lines world.now number outcome) result }
    ensures used { Wrote (K.state to.old) (K.state to.new) (length (outcome_lines world.now number outcome)) (IsErrOf result LineFault.WriteFault) }
{
    lines.clear();
    put_step(lines, world, number, outcome)?;
    write_all(to, lines.as_slice())?;
    Ok(())
}

/// Writes the closing lines: where the server is, and what each client has. They are put together in `lines`, whatever stands there before.
pub fn write_end<K: Sink>(lines: &mut Vec<u8>, world: &World, to: &mut K) -> Result<(), LineFault>
    ensures bytes { WritesPiece (K.state to.old).written (K.state to.new).written (end_lines world.now) result }
    ensures used { Wrote (K.state to.old) (K.state to.new) (length (end_lines world.now)) (IsErrOf result LineFault.WriteFault) }
{
    lines.clear();
    put_end(lines, world)?;
    write_all(to, lines.as_slice())?;
    Ok(())
}

/// Puts the lines of the step of a number, after which the world is as it is: its own, and one for each packet that it sent.
pub fn put_step(
    lines: &mut Vec<u8>,
    world: &World,
    number: u32,
    outcome: Outcome,
) -> Result<(), Memory>
    requires { Stands world.now outcome }
    ensures { OnOk result (lines.new.items ≡ lines.old.items ++ outcome_lines world.now number outcome) }
{
    put_step_head(lines, number)?;
    put_outcome(lines, world, outcome)?;
    put_line_end(lines)?;
    put_packets(lines, world, first_new(world, outcome))
}

// Puts what came of a step.
fn put_outcome(lines: &mut Vec<u8>, world: &World, outcome: Outcome) -> Result<(), Memory>
    requires { Stands world.now outcome }
    ensures { OnOk result (lines.new.items ≡ lines.old.items ++ outcome_text world.now outcome) }
{
    match outcome {
        Outcome::Posted { state, packet } => put_posted(lines, state, packet),
        Outcome::Again => put_again(lines),
        Outcome::PostRefused { fault } => put_refused(lines, fault),
        Outcome::Date { date } => put_date(lines, date),
        Outcome::Served { packet } => put_served(lines, packet),
        Outcome::Heard { client, told } => put_heard(lines, client, told, world.client(client)),
        Outcome::Ticked { client, asks, .. } => put_ticked(lines, client, asks),
        Outcome::Woken { client } => put_woken(lines, client),
        Outcome::Watched {
            client,
            id,
            refused,
        } => put_watched(lines, client, id, refused),
        Outcome::Restarted { client } => put_restarted(lines, client, world.client(client)),
        Outcome::Pushed { packet, channel } => put_pushed(lines, packet, channel),
    }
}

fn put_pushed(lines: &mut Vec<u8>, packet: u32, channel: bool) -> Result<(), Memory>
    ensures { OnOk result (lines.new.items ≡ lines.old.items ++ pushed_text packet channel) }
{
    if channel {
        put_channel_too_long(lines, packet)
    } else {
        put_too_long(lines, packet)
    }
}

// From which packet on a step sent them.
fn first_new(world: &World, outcome: Outcome) -> u32
    ensures { result ≡ first_new world.now outcome }
{
    match outcome {
        Outcome::Posted { packet, .. } => packet,
        Outcome::Served { packet } => packet,
        Outcome::Ticked { first, .. } => first,
        Outcome::Pushed { packet, .. } => packet,
        _ => world.packets(),
    }
}

// Puts the lines of the packets from a number on.
fn put_packets(lines: &mut Vec<u8>, world: &World, first: u32) -> Result<(), Memory>
    ensures { OnOk result (lines.new.items ≡ lines.old.items ++ packet_lines first (bytes_from first world.now.pool)) }
{
    for packet in first..world.packets() {
        put_packet(lines, packet, world.packet(packet).bytes.as_slice())?;
    }
    Ok(())
}

/// Puts the closing lines: where the server is, and what each client has.
pub fn put_end(lines: &mut Vec<u8>, world: &World) -> Result<(), Memory>
    ensures { OnOk result (lines.new.items ≡ lines.old.items ++ end_lines world.now) }
{
    put_server(lines, world.state())?;
    put_clients(lines, world)
}

fn put_clients(lines: &mut Vec<u8>, world: &World) -> Result<(), Memory>
    ensures { OnOk result (lines.new.items ≡ lines.old.items ++ all_own_lines 0 world.now.clients) }
{
    for client in 0..world.clients() {
        put_client(lines, client, world.client(client))?;
    }
    Ok(())
}
