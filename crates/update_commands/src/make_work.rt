//! `make`: a schema's file is read, and of a schema with the protocol a run is made of draws and its summary written.
ghost use Rattle.std.specs.Prelude.{codes, ◌≤◌};
ghost use Rattle.outside.specs.Runs.{Ran, answered};
ghost use Rattle.outside.specs.Begun.{Did};
ghost use Rattle.tl_schema.specs.CheckedPrograms.{IsSchema};
ghost use Rattle.codec_rooms.specs.Typed.{OfText};
ghost use Rattle.update_replay.specs.declared.making.TheConstants.{MAX_MADE_STEPS};
ghost use Rattle.update_commands.specs.MakeWork.{makes, makes_by};
ghost use Rattle.update_commands.specs.Profile.{OfProfile};

use crate::run_text;
use fault_lines::profile_of;
use outside::{Host, Status, finish, print_made, read_file, tell};
use schema_files::{SCHEMA_BYTES, schema_of};
use std::alloc::{AllocError, Global};
use tl_base::Slot;
use tl_schema::Schema;

// What follows of a schema.
fn make_profiled<H: Host>(
    alloc: Global,
    host: &mut H,
    schema: &Schema,
    number: u64,
    steps: u32,
) -> Result<Status, AllocError>
    requires good { IsSchema schema.now }
    requires some { 1 ≤ steps }
    requires few { steps ≤ MAX_MADE_STEPS }
    ensures { Did (OfProfile (makes_by number steps) schema.now) (H.state host.old) (H.state host.new) (answered result) }
{
    match profile_of(alloc, schema) {
        Ok(profile) => print_made(host, run_text(alloc, profile, number, steps)),
        Err(fault) => print_made(host, Err(fault)),
    }
}

// What follows of the schema's text.
fn make_text<H: Host>(
    alloc: Global,
    host: &mut H,
    text: &[u8],
    number: u64,
    steps: u32,
) -> Result<Status, AllocError>
    requires some { 1 ≤ steps }
    requires few { steps ≤ MAX_MADE_STEPS }
    ensures { Did (OfText (codes "schema") (OfProfile (makes_by number steps)) text.now) (H.state host.old) (H.state host.new) (answered result) }
{
    match schema_of(alloc, "schema", text) {
        Ok(schema) => make_profiled(alloc, host, &schema, number, steps),
        Err(fault) => print_made(host, Err(fault)),
    }
}

/// Makes a run of so many steps by the draws of a number, and writes its summary.
pub fn make_run<H: Host>(
    alloc: Global,
    host: &mut H,
    schema: &str,
    number: u64,
    steps: u32,
) -> Result<Status, AllocError>
    requires some { 1 ≤ steps }
    requires few { steps ≤ MAX_MADE_STEPS }
    ensures { Did (makes schema.now number steps) (H.state host.old) (H.state host.new) (answered result) }
{
    match read_file(alloc, host, Slot::Schema, schema, SCHEMA_BYTES)? {
        Some(text) => make_text(alloc, host, &text, number, steps),
        None => Ok(tell(host, b"tlbox: read fault\n", Status::ReadFault)),
    }
}

/// Likewise, to the end of the run: out of memory is told.
pub fn run_make<H: Host>(
    alloc: Global,
    host: &mut H,
    schema: &str,
    number: u64,
    steps: u32,
) -> Status
    requires some { 1 ≤ steps }
    requires few { steps ≤ MAX_MADE_STEPS }
    ensures { Ran (makes schema.now number steps) (H.state host.old) (H.state host.new) result }
{
    let done = make_run(alloc, host, schema, number, steps);
    finish(host, done)
}
