//! `decode`, `encode` and `layers` up to where they part: a schema's file is read, and a type of it is looked for.
ghost use Rattle.std.specs.Prelude.{codes};
ghost use Rattle.outside.specs.Runs.{answered};
ghost use Rattle.outside.specs.Begun.{Did};
ghost use Rattle.tl_schema.specs.CheckedPrograms.{IsSchema};
ghost use Rattle.tl_schema.specs.Formed.{IsFormed};
ghost use Rattle.tl_schema.specs.Seen.{shape};
ghost use Rattle.codec_rooms.specs.Typed.{OfCommand, OfText};
ghost use Rattle.codec_rooms.specs.inner.Purposes.{asked_by, of_type};

use crate::decode::decode_planned;
use crate::encode::encode_planned;
use crate::layers::compare_file;
use outside::{Host, Status, print_made, read_file, unread};
use schema_files::{SCHEMA_BYTES, schema_of, type_named};
use std::alloc::{AllocError, Global};
use tl_base::Slot;
use tl_schema::{Schema, TypeRef};

/// What a command does with a type: its second file is decoded, or encoded, or is the new schema that is compared.
#[derive(Clone, Copy)]
pub enum Purpose {
    Decode,
    Encode,
    Compare,
}

// What follows of a type.
fn follow_type<H: Host>(
    alloc: Global,
    host: &mut H,
    purpose: Purpose,
    schema: &Schema,
    of: &TypeRef,
    input: &str,
) -> Result<Status, AllocError>
    requires formed { IsFormed schema.now (shape of.now) }
    requires good { IsSchema schema.now }
    ensures { Did (of_type purpose input.now schema.now (shape of.now)) (H.state host.old) (H.state host.new) (answered result) }
{
    match purpose {
        Purpose::Decode => decode_planned(alloc, host, schema, of, input),
        Purpose::Encode => encode_planned(alloc, host, schema, of, input),
        Purpose::Compare => compare_file(alloc, host, schema, of, input),
    }
}

// What follows of a schema.
fn follow_schema<H: Host>(
    alloc: Global,
    host: &mut H,
    purpose: Purpose,
    schema: &Schema,
    of: &str,
    input: &str,
) -> Result<Status, AllocError>
    requires { IsSchema schema.now }
    ensures { Did (asked_by purpose of.now input.now schema.now) (H.state host.old) (H.state host.new) (answered result) }
{
    match type_named(alloc, schema, of) {
        Ok(of) => follow_type(alloc, host, purpose, schema, &of, input),
        Err(fault) => print_made(host, Err(fault)),
    }
}

// What follows of the schema's text.
fn follow_text<H: Host>(
    alloc: Global,
    host: &mut H,
    purpose: Purpose,
    text: &[u8],
    of: &str,
    input: &str,
) -> Result<Status, AllocError>
    ensures { Did (OfText (codes "schema") (asked_by purpose of.now input.now) text.now) (H.state host.old) (H.state host.new) (answered result) }
{
    match schema_of(alloc, "schema", text) {
        Ok(schema) => follow_schema(alloc, host, purpose, &schema, of, input),
        Err(fault) => print_made(host, Err(fault)),
    }
}

/// Reads the schema's file, looks for its type, and does what is to be done with both.
pub fn follow_file<H: Host>(
    alloc: Global,
    host: &mut H,
    purpose: Purpose,
    schema: &str,
    of: &str,
    input: &str,
) -> Result<Status, AllocError>
    ensures { Did (OfCommand (asked_by purpose of.now input.now) schema.now) (H.state host.old) (H.state host.new) (answered result) }
{
    match read_file(alloc, host, Slot::Schema, schema, SCHEMA_BYTES)? {
        Some(text) => follow_text(alloc, host, purpose, &text, of, input),
        None => Ok(unread(host)),
    }
}
