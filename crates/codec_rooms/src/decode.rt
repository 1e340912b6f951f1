//! `decode`: a schema's file is read, its type is looked for, the input is read piece by piece, and the line of its value is written while it is made.
ghost use Rattle.std.specs.Prelude.{true};
ghost use Rattle.outside.specs.Runs.{Ran, answered};
ghost use Rattle.outside.specs.Begun.{Did};
ghost use Rattle.tl_schema.specs.Formed.{IsFormed};
ghost use Rattle.tl_schema.specs.Seen.{shape};
ghost use Rattle.tl_types.specs.Seen.{view};
ghost use Rattle.tl_base.specs.declared.host.Out.TheVariants.{Output};
ghost use Rattle.outside.specs.Answer.{done};
ghost use Rattle.outside.specs.Jobs.{of_fault};
ghost use Rattle.outside.specs.Pieces.{Writes};
ghost use Rattle.outside.specs.Printing.{Prints};
ghost use Rattle.schema_files.specs.Lines.{line_text};
ghost use Rattle.codec_rooms.specs.Decode.{OfBytes, after_opening, decodes, verdict};
ghost use Rattle.codec_rooms.specs.Typed.{OfPlan};
ghost use Rattle.codec_rooms.specs.inner.Feeding.{MakesFault, PrintsVerdict};
ghost use Rattle.codec_rooms.specs.inner.Purposes.{IsPlanOf};

use crate::feeding::read_value;
use crate::output::{OutputLine, Piece};
use crate::typed::{Purpose, follow_file};
use outside::{Host, LoadError, Status, finish, print_made, tell, unread};
use schema_files::{cause_error, plan_of, put_line};
use std::alloc::{AllocError, Global};
use tl_base::Slot;
use tl_decode::WholeFault;
use tl_plan::Plan;
use tl_schema::{Schema, TypeRef};
use tl_show::JsonPrinter;
use tl_types::Value;

// What is told of an input that is no value.
fn fault_error(alloc: Global, fault: WholeFault) -> LoadError
    ensures { MakesFault fault (of_fault result) }
{
    match fault {
        WholeFault::Refused { place, cause } => cause_error(alloc, place, cause),
        WholeFault::Trailing { place } => LoadError::placed(alloc, "input", place, "Trailing"),
        WholeFault::ReadFault => LoadError::ReadFault,
        WholeFault::Memory => LoadError::Memory,
    }
}

// Writes the line of a value while it is made. Tells whether that was done. No memory is taken once a piece was written.
fn write_line<H: Host>(
    alloc: Global,
    host: &mut H,
    schema: &Schema,
    of: &TypeRef,
    value: &Value,
) -> Result<bool, AllocError>
    ensures { Did (Writes Output (line_text schema.now.decls (shape of.now) (view value.now))) (H.state host.old) (H.state host.new) (answered result) }
{
    let printer = JsonPrinter::new(alloc, schema)?;
    let mut piece = Piece::new(alloc)?;
    let mut line = OutputLine::new(host, &mut piece);
    put_line(&printer, of, value, &mut line);
    Ok(line.end())
}

// Prints the line of a value.
fn print_value<H: Host>(
    alloc: Global,
    host: &mut H,
    schema: &Schema,
    of: &TypeRef,
    value: &Value,
) -> Result<Status, AllocError>
    ensures { Did (Prints (done (line_text schema.now.decls (shape of.now) (view value.now)))) (H.state host.old) (H.state host.new) (answered result) }
{
    if write_line(alloc, host, schema, of, value)? {
        Ok(Status::Done)
    } else {
        Ok(tell(host, b"tlbox: write fault\n", Status::WriteFault))
    }
}

// Prints the line of a value, or what is told of an input that is none.
fn print_verdict<H: Host>(
    alloc: Global,
    host: &mut H,
    schema: &Schema,
    of: &TypeRef,
    got: Result<Value, WholeFault>,
) -> Result<Status, AllocError>
    ensures { PrintsVerdict schema.now (shape of.now) (verdict got) (H.state host.old) (H.state host.new) (answered result) }
{
    match got {
        Ok(value) => print_value(alloc, host, schema, of, &value),
        Err(fault) => print_made(host, Err(fault_error(alloc, fault))),
    }
}

// What follows of an input that is open.
fn decode_open<H: Host>(
    alloc: Global,
    host: &mut H,
    plan: &Plan,
    of: &TypeRef,
) -> Result<Status, AllocError>
    requires { IsPlanOf plan.now (shape of.now) }
    ensures { Did (after_opening plan.now.schema (shape of.now) true) (H.state host.old) (H.state host.new) (answered result) }
{
    let got = read_value(alloc, host, plan);
    print_verdict(alloc, host, plan.schema(), of, got)
}

// What follows of a type with its plan.
fn decode_file<H: Host>(
    alloc: Global,
    host: &mut H,
    plan: &Plan,
    of: &TypeRef,
    input: &str,
) -> Result<Status, AllocError>
    requires { IsPlanOf plan.now (shape of.now) }
    ensures { Did (OfBytes input.now plan.now.schema (shape of.now)) (H.state host.old) (H.state host.new) (answered result) }
{
    match host.open_slot(Slot::Input, input) {
        Ok(()) => decode_open(alloc, host, plan, of),
        Err(_) => Ok(unread(host)),
    }
}

/// What follows of a type.
pub fn decode_planned<H: Host>(
    alloc: Global,
    host: &mut H,
    schema: &Schema,
    of: &TypeRef,
    input: &str,
) -> Result<Status, AllocError>
    requires { IsFormed schema.now (shape of.now) }
    ensures { Did (OfPlan (OfBytes input.now) (shape of.now) schema.now) (H.state host.old) (H.state host.new) (answered result) }
{
    match plan_of(alloc, schema, of) {
        Ok(plan) => decode_file(alloc, host, &plan, of, input),
        Err(fault) => print_made(host, Err(fault)),
    }
}

/// Decodes the input's one value, and writes its line.
pub fn decode_input<H: Host>(
    alloc: Global,
    host: &mut H,
    schema: &str,
    of: &str,
    input: &str,
) -> Result<Status, AllocError>
    ensures { Did (decodes schema.now of.now input.now) (H.state host.old) (H.state host.new) (answered result) }
{
    follow_file(alloc, host, Purpose::Decode, schema, of, input)
}

/// Likewise, to the end of the run: out of memory is told.
pub fn run_decode<H: Host>(
    alloc: Global,
    host: &mut H,
    schema: &str,
    of: &str,
    input: &str,
) -> Status
    ensures { Ran (decodes schema.now of.now input.now) (H.state host.old) (H.state host.new) result }
{
    let done = decode_input(alloc, host, schema, of, input);
    finish(host, done)
}
