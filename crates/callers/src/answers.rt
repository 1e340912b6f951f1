//! Open calls and their answers.
ghost use Rattle.std.specs.Prelude.{IfOk, IfSome};
ghost use Rattle.tl_schema.specs.Seen.{shape};
ghost use Rattle.tl_types.specs.Seen.{view};
ghost use Rattle.tl_calls.specs.Calling.{AreOpenIn, open_at};
ghost use Rattle.callers.specs.Answers.{IsAnswer};

use std::alloc::Global;
use thiserror::Error;
use tl_base::Fault;
use tl_calls::{Calls, ResultFault, result_of};
use tl_decode::WholeCause;
use tl_schema::{Schema, TypeRef};
use tl_types::Value;

/// Why an answer isn't taken.
#[derive(Debug, Drop, Error)]
pub enum TakeAnswerFault {
    #[error(transparent)]
    Result(#[from] ResultFault),
    #[error(transparent)]
    Answer(#[from] Fault<WholeCause>),
}

/// What came as the answer of a call, which is closed: its type and its value. None where no open call has the number.
pub fn take_answer(
    alloc: Global,
    schema: &Schema,
    calls: &mut Calls,
    number: u32,
    bytes: &[u8],
) -> Result<Option<(TypeRef, Value)>, TakeAnswerFault>
    requires fitting { AreOpenIn schema.now calls.old }
    ensures fitting { AreOpenIn schema.now calls.new }
    ensures answer { IfOk result (λ found. IfSome found (λ p. IfSome (open_at calls.old number) (λ call. IsAnswer schema.now call bytes.now (shape p.0) (view p.1)))) }
{
    let Some(call) = calls.call(number) else {
        return Ok(None);
    };
    let of = result_of(alloc, schema, call)?;
    let Some(value) = calls.answer(alloc, schema, number, bytes)? else {
        return Ok(None);
    };
    Ok(Some((of, value)))
}
