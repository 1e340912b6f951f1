//! `check`: a schema's file is read, and the list of its declarations is written.
ghost use Rattle.std.specs.Prelude.{codes};
ghost use Rattle.outside.specs.Runs.{Ran, answered};
ghost use Rattle.outside.specs.Begun.{Did};
ghost use Rattle.codec_rooms.specs.Check.{checks, lists};
ghost use Rattle.codec_rooms.specs.Typed.{OfText};

use codec_commands::listing;
use outside::{Host, Status, finish, print, print_made, read_file, unread};
use schema_files::{SCHEMA_BYTES, schema_of};
use std::alloc::{AllocError, Global};
use tl_base::Slot;
use tl_schema::Schema;

// What follows of a schema.
fn check_listed<H: Host>(alloc: Global, host: &mut H, schema: &Schema) -> Result<Status, AllocError>
    ensures { Did (lists schema.now) (H.state host.old) (H.state host.new) (answered result) }
{
    let list = listing(alloc, schema)?;
    Ok(print(host, &list))
}

// What follows of the schema's text.
fn check_text<H: Host>(alloc: Global, host: &mut H, text: &[u8]) -> Result<Status, AllocError>
    ensures { Did (OfText (codes "schema") lists text.now) (H.state host.old) (H.state host.new) (answered result) }
{
    match schema_of(alloc, "schema", text) {
        Ok(schema) => check_listed(alloc, host, &schema),
        Err(fault) => print_made(host, Err(fault)),
    }
}

/// Checks a schema, and writes the list of its declarations.
pub fn check_schema<H: Host>(
    alloc: Global,
    host: &mut H,
    schema: &str,
) -> Result<Status, AllocError>
    ensures { Did (checks schema.now) (H.state host.old) (H.state host.new) (answered result) }
{
    match read_file(alloc, host, Slot::Schema, schema, SCHEMA_BYTES)? {
        Some(text) => check_text(alloc, host, &text),
        None => Ok(unread(host)),
    }
}

/// Likewise, to the end of the run: out of memory is told.
pub fn run_check<H: Host>(alloc: Global, host: &mut H, schema: &str) -> Status
    ensures { Ran (checks schema.now) (H.state host.old) (H.state host.new) result }
{
    let done = check_schema(alloc, host, schema);
    finish(host, done)
}
