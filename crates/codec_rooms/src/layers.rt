//! `layers`: an old schema's file is read, a type of it is looked for, the new schema's file is read, and it is told what the type reaches or what breaks.
ghost use Rattle.std.specs.Prelude.{codes};
ghost use Rattle.outside.specs.Runs.{Ran, answered};
ghost use Rattle.outside.specs.Begun.{Did};
ghost use Rattle.tl_schema.specs.CheckedPrograms.{IsSchema};
ghost use Rattle.tl_schema.specs.Formed.{IsFormed};
ghost use Rattle.tl_schema.specs.Seen.{shape};
ghost use Rattle.codec_rooms.specs.Layers.{OfNew, compared, compares};
ghost use Rattle.codec_rooms.specs.Typed.{OfText};

use crate::typed::{Purpose, follow_file};
use codec_commands::verdict_line;
use outside::{Host, Status, finish, print_made, read_file, unread};
use schema_files::{SCHEMA_BYTES, schema_of};
use std::alloc::{AllocError, Global};
use tl_base::Slot;
use tl_schema::{Schema, TypeRef};

// What follows of the new schema's text.
fn compare_text<H: Host>(
    alloc: Global,
    host: &mut H,
    old: &Schema,
    of: &TypeRef,
    text: &[u8],
) -> Result<Status, AllocError>
    requires formed { IsFormed old.now (shape of.now) }
    requires good { IsSchema old.now }
    ensures { Did (OfText (codes "new") (compared old.now (shape of.now)) text.now) (H.state host.old) (H.state host.new) (answered result) }
{
    match schema_of(alloc, "new", text) {
        Ok(new) => print_made(host, verdict_line(alloc, old, &new, of)),
        Err(fault) => print_made(host, Err(fault)),
    }
}

/// What follows of a type of the old schema.
pub fn compare_file<H: Host>(
    alloc: Global,
    host: &mut H,
    old: &Schema,
    of: &TypeRef,
    new: &str,
) -> Result<Status, AllocError>
    requires formed { IsFormed old.now (shape of.now) }
    requires good { IsSchema old.now }
    ensures { Did (OfNew new.now old.now (shape of.now)) (H.state host.old) (H.state host.new) (answered result) }
{
    match read_file(alloc, host, Slot::Input, new, SCHEMA_BYTES)? {
        Some(text) => compare_text(alloc, host, old, of, &text),
        None => Ok(unread(host)),
    }
}

/// Compares two schemas by a type of the old one, and writes how many declarations it reaches, or tells what breaks.
pub fn compare_schemas<H: Host>(
    alloc: Global,
    host: &mut H,
    old: &str,
    new: &str,
    of: &str,
) -> Result<Status, AllocError>
    ensures { Did (compares old.now new.now of.now) (H.state host.old) (H.state host.new) (answered result) }
{
    follow_file(alloc, host, Purpose::Compare, old, of, new)
}

/// Likewise, to the end of the run: out of memory is told.
pub fn run_layers<H: Host>(alloc: Global, host: &mut H, old: &str, new: &str, of: &str) -> Status
    ensures { Ran (compares old.now new.now of.now) (H.state host.old) (H.state host.new) result }
{
    let done = compare_schemas(alloc, host, old, new, of);
    finish(host, done)
}
