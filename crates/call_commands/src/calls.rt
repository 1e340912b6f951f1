//! `calls`: a schema's file is read, the input's is opened, and its packets are told one by one.
ghost use Rattle.std.specs.Prelude.{codes, ◌≡◌};
ghost use Rattle.outside.specs.Runs.{RanIn, answered};
ghost use Rattle.outside.specs.Begun.{DidIn, to_output};
ghost use Rattle.tl_schema.specs.CheckedPrograms.{IsSchema};
ghost use Rattle.codec_rooms.specs.Typed.{OfText};
ghost use Rattle.call_commands.specs.CallsWork.{OfInput, tells_calls};

use crate::turns::tell_packets;
use outside::{Host, Status, finish, print_made, read_file, unread};
use schema_files::{SCHEMA_BYTES, schema_of};
use std::alloc::{AllocError, Global};
use tl_base::Slot;
use tl_schema::Schema;
use tl_show::JsonPrinter;

// What follows of the schema's printer.
fn tell_input<H: Host>(
    alloc: Global,
    host: &mut H,
    schema: &Schema,
    printer: &JsonPrinter<'_>,
    input: &str,
) -> Result<Status, AllocError>
    requires same { printer.now.schema.now ≡ schema.now }
    requires good { IsSchema schema.now }
    ensures { DidIn to_output (OfInput input.now schema.now) (H.state host.old) (H.state host.new) (answered result) }
{
    match host.open_slot(Slot::Input, input) {
        Ok(()) => tell_packets(alloc, host, schema, printer),
        Err(_) => Ok(unread(host)),
    }
}

// What follows of the schema. Its printer is made once.
fn tell_schema<H: Host>(
    alloc: Global,
    host: &mut H,
    schema: &Schema,
    input: &str,
) -> Result<Status, AllocError>
    requires { IsSchema schema.now }
    ensures { DidIn to_output (OfInput input.now schema.now) (H.state host.old) (H.state host.new) (answered result) }
{
    let printer = JsonPrinter::new(alloc, schema)?;
    tell_input(alloc, host, schema, &printer, input)
}

// What follows of the schema's text.
fn tell_text<H: Host>(
    alloc: Global,
    host: &mut H,
    text: &[u8],
    input: &str,
) -> Result<Status, AllocError>
    ensures { DidIn to_output (OfText (codes "schema") (OfInput input.now) text.now) (H.state host.old) (H.state host.new) (answered result) }
{
    match schema_of(alloc, "schema", text) {
        Ok(schema) => tell_schema(alloc, host, &schema, input),
        Err(fault) => print_made(host, Err(fault)),
    }
}

/// Tells the calls and answers of a file, each when it was taken and before the next is.
pub fn tell_calls<H: Host>(
    alloc: Global,
    host: &mut H,
    schema: &str,
    input: &str,
) -> Result<Status, AllocError>
    ensures { DidIn to_output (tells_calls schema.now input.now) (H.state host.old) (H.state host.new) (answered result) }
{
    match read_file(alloc, host, Slot::Schema, schema, SCHEMA_BYTES)? {
        Some(text) => tell_text(alloc, host, &text, input),
        None => Ok(unread(host)),
    }
}

/// Likewise, to the end of the run: out of memory is told.
pub fn run_calls<H: Host>(alloc: Global, host: &mut H, schema: &str, input: &str) -> Status
    ensures { RanIn to_output (tells_calls schema.now input.now) (H.state host.old) (H.state host.new) result }
{
    let done = tell_calls(alloc, host, schema, input);
    finish(host, done)
}
