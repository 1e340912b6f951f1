//! `encode`: a schema's file is read, its type is looked for, the input's file is read, and the spelling of its value is written.
ghost use Rattle.outside.specs.Jobs.{making};
ghost use Rattle.outside.specs.Printing.{Makes};
ghost use Rattle.outside.specs.Runs.{Ran, answered};
ghost use Rattle.outside.specs.Begun.{Did};
ghost use Rattle.tl_schema.specs.CheckedPrograms.{IsSchema};
ghost use Rattle.tl_schema.specs.Formed.{IsFormed};
ghost use Rattle.tl_schema.specs.Seen.{shape};
ghost use Rattle.tl_types.specs.Seen.{view};
ghost use Rattle.codec_commands.specs.Encode.{OfJson};
ghost use Rattle.codec_rooms.specs.Encode.{encodes};
ghost use Rattle.codec_rooms.specs.Typed.{OfInput, OfPlan};
ghost use Rattle.codec_rooms.specs.inner.Purposes.{IsPlanOf, MakesForm};

use crate::typed::{Purpose, follow_file};
use outside::{Host, LoadError, Status, finish, print_made, read_file, unread};
use schema_files::{JSON_BYTES, fit_error, formed_value, plan_of};
use std::alloc::{AllocError, Global};
use tl_base::Slot;
use tl_encode::spelling_of;
use tl_plan::Plan;
use tl_schema::{Schema, TypeRef};
use tl_types::Value;

// The spelling of a value of a plan's type, or what is told of one that doesn't fit.
fn spelling_made(
    alloc: Global,
    plan: &Plan,
    of: &TypeRef,
    value: &Value,
) -> Result<Vec<u8>, LoadError>
    requires { IsPlanOf plan.now (shape of.now) }
    ensures { MakesForm plan.now.schema (shape of.now) (view value.now) (making result) }
{
    match spelling_of(alloc, plan, 0, value) {
        Ok(bytes) => Ok(bytes),
        Err(fault) => Err(fit_error(alloc, &fault)),
    }
}

// The spelling of the value that a text is the JSON of, or what is told of one that is none.
fn spelled_text(alloc: Global, plan: &Plan, of: &TypeRef, text: &[u8]) -> Result<Vec<u8>, LoadError>
    requires { IsPlanOf plan.now (shape of.now) }
    ensures { Makes (OfJson plan.now.schema (shape of.now) text.now) (making result) }
{
    match formed_value(alloc, plan.schema(), of, text) {
        Ok(value) => spelling_made(alloc, plan, of, &value),
        Err(fault) => Err(fault),
    }
}

// What follows of a type with its plan.
fn encode_file<H: Host>(
    alloc: Global,
    host: &mut H,
    plan: &Plan,
    of: &TypeRef,
    input: &str,
) -> Result<Status, AllocError>
    requires planned { IsPlanOf plan.now (shape of.now) }
    requires good { IsSchema plan.now.schema }
    ensures { Did (OfInput OfJson input.now JSON_BYTES plan.now.schema (shape of.now)) (H.state host.old) (H.state host.new) (answered result) }
{
    match read_file(alloc, host, Slot::Input, input, JSON_BYTES)? {
        Some(text) => print_made(host, spelled_text(alloc, plan, of, &text)),
        None => Ok(unread(host)),
    }
}

/// What follows of a type.
pub fn encode_planned<H: Host>(
    alloc: Global,
    host: &mut H,
    schema: &Schema,
    of: &TypeRef,
    input: &str,
) -> Result<Status, AllocError>
    requires formed { IsFormed schema.now (shape of.now) }
    requires good { IsSchema schema.now }
    ensures { Did (OfPlan (OfInput OfJson input.now JSON_BYTES) (shape of.now) schema.now) (H.state host.old) (H.state host.new) (answered result) }
{
    match plan_of(alloc, schema, of) {
        Ok(plan) => encode_file(alloc, host, &plan, of, input),
        Err(fault) => print_made(host, Err(fault)),
    }
}

/// Encodes the value that the input's JSON is, and writes its spelling.
pub fn encode_input<H: Host>(
    alloc: Global,
    host: &mut H,
    schema: &str,
    of: &str,
    input: &str,
) -> Result<Status, AllocError>
    ensures { Did (encodes schema.now of.now input.now) (H.state host.old) (H.state host.new) (answered result) }
{
    follow_file(alloc, host, Purpose::Encode, schema, of, input)
}

/// Likewise, to the end of the run: out of memory is told.
pub fn run_encode<H: Host>(
    alloc: Global,
    host: &mut H,
    schema: &str,
    of: &str,
    input: &str,
) -> Status
    ensures { Ran (encodes schema.now of.now input.now) (H.state host.old) (H.state host.new) result }
{
    let done = encode_input(alloc, host, schema, of, input);
    finish(host, done)
}
