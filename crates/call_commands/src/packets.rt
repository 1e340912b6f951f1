//! One packet: a call that is sent, or an answer that came.
ghost use Rattle.std.specs.Prelude.{◌≡◌, ◌≢◌, ◌<◌, ◌≤◌, ◌+◌, ◌++◌, ◌^◌, IfOk, length};
ghost use Rattle.tl_numbers.specs.Numbers.{word};
ghost use Rattle.tl_base.specs.Packets.{IsPacketLength};
ghost use Rattle.tl_schema.specs.Seen.{shape};
ghost use Rattle.tl_calls.specs.Calling.{AreOpenIn};
ghost use Rattle.call_commands.specs.Answering.{AnsweredIn, TellsPacket, IsAnsweredIn};

use crate::lines::{numbered_line, stale_line};
use crate::refusals::{unread, unsent};
use crate::words::first_word;
use outside::LoadError;
use schema_files::printed_line;
use std::alloc::{AllocError, Global};
use tl_calls::{Calls, result_of};
use tl_decode::decode_bytes_as;
use tl_schema::{Schema, TypeRef};
use tl_show::JsonPrinter;

/// Tells a packet of this content at this offset: its line, or why it is refused. The printer is that of the schema.
pub fn tell_packet(
    alloc: Global,
    schema: &Schema,
    printer: &JsonPrinter<'_>,
    calls: &mut Calls,
    at: u64,
    content: &[u8],
) -> Result<Vec<u8>, LoadError>
    requires same { printer.now.schema.now ≡ schema.now }
    requires few { calls.old.next < 2 ^ 31 }
    requires fitting { AreOpenIn schema.now calls.old }
    requires whole { IsPacketLength (length content.now) }
    requires place { at + (8 + length content.now) < 2 ^ 64 }
    ensures tells { TellsPacket schema.now calls.old calls.new at content.now result }
    ensures fitting { AreOpenIn schema.now calls.new }
    ensures some { IfOk result (λ _. 4 ≤ length content.now) }
    ensures few { calls.new.next ≤ calls.old.next + 1 }
{
    let Some((number, rest)) = first_word(content) else {
        return Err(LoadError::placed(alloc, "input", at, "NoNumber"));
    };
    if number == 0 {
        tell_call(alloc, schema, printer, calls, at, rest)
    } else {
        tell_answer(alloc, schema, printer, calls, at, number, rest)
    }
}

// Sends the call that the bytes after the word 0 are.
fn tell_call(
    alloc: Global,
    schema: &Schema,
    printer: &JsonPrinter<'_>,
    calls: &mut Calls,
    at: u64,
    bytes: &[u8],
) -> Result<Vec<u8>, LoadError>
    requires same { printer.now.schema.now ≡ schema.now }
    requires few { calls.old.next < 2 ^ 31 }
    requires fitting { AreOpenIn schema.now calls.old }
    requires place { at + (8 + length bytes.now) < 2 ^ 64 }
    ensures tells { TellsPacket schema.now calls.old calls.new at (word 0 ++ bytes.now) result }
    ensures fitting { AreOpenIn schema.now calls.new }
    ensures few { calls.new.next ≤ calls.old.next + 1 }
{
    let call = match decode_bytes_as(alloc, schema, &TypeRef::Call, bytes) {
        Ok(call) => call,
        Err(fault) => return Err(unread(alloc, at, fault)),
    };
    let line = printed_line(alloc, printer, &TypeRef::Call, &call)?;
    match calls.send(alloc, schema, call) {
        Ok(number) => Ok(numbered_line(alloc, "call", number, &line)?),
        Err(fault) => Err(unsent(alloc, at, fault)),
    }
}

// Takes the bytes after an answer's number.
fn tell_answer(
    alloc: Global,
    schema: &Schema,
    printer: &JsonPrinter<'_>,
    calls: &mut Calls,
    at: u64,
    number: u32,
    bytes: &[u8],
) -> Result<Vec<u8>, LoadError>
    requires same { printer.now.schema.now ≡ schema.now }
    requires some { number ≢ 0 }
    requires fitting { AreOpenIn schema.now calls.old }
    requires place { at + (8 + length bytes.now) < 2 ^ 64 }
    ensures tells { TellsPacket schema.now calls.old calls.new at (word number ++ bytes.now) result }
    ensures fitting { AreOpenIn schema.now calls.new }
    ensures few { calls.new.next ≤ calls.old.next + 1 }
{
    match answered_in(alloc, schema, calls, number)? {
        Some(of) => tell_value(alloc, schema, printer, calls, at, number, &of, bytes),
        None => Ok(stale_line(alloc, number)?),
    }
}

// The type in which the open call with the number is answered.
fn answered_in(
    alloc: Global,
    schema: &Schema,
    calls: &Calls,
    number: u32,
) -> Result<Option<TypeRef>, AllocError>
    ensures { IfOk result (AnsweredIn schema.now calls.now number) }
{
    let Some(call) = calls.call(number) else {
        return Ok(None);
    };
    match result_of(alloc, schema, call) {
        Ok(of) => Ok(Some(of)),
        // An open call has a result: memory alone was refused.
        Err(_) => Err(AllocError),
    }
}

// Takes the bytes as the answer of an open call, which is answered in this type.
fn tell_value(
    alloc: Global,
    schema: &Schema,
    printer: &JsonPrinter<'_>,
    calls: &mut Calls,
    at: u64,
    number: u32,
    of: &TypeRef,
    bytes: &[u8],
) -> Result<Vec<u8>, LoadError>
    requires same { printer.now.schema.now ≡ schema.now }
    requires open { IsAnsweredIn schema.now calls.old number (shape of.now) }
    requires fitting { AreOpenIn schema.now calls.old }
    requires place { at + (8 + length bytes.now) < 2 ^ 64 }
    ensures tells { TellsPacket schema.now calls.old calls.new at (word number ++ bytes.now) result }
    ensures fitting { AreOpenIn schema.now calls.new }
    ensures few { calls.new.next ≤ calls.old.next + 1 }
{
    let given = match calls.answer(alloc, schema, number, bytes) {
        Ok(given) => given,
        Err(fault) => return Err(unread(alloc, at, fault)),
    };
    let Some(value) = given else { unreachable!() };
    let line = printed_line(alloc, printer, of, &value)?;
    Ok(numbered_line(alloc, "answer", number, &line)?)
}
