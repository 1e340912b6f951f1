//! The lines of packets, and the names of causes.
ghost use Rattle.std.specs.Prelude.{◌≡◌, IfOk};
ghost use Rattle.call_commands.specs.CallReports.{result_cause_name, stale_line};
ghost use Rattle.call_commands.specs.inner.Tellings.{numbered_line};

use std::alloc::{AllocError, Global};
use tl_calls::ResultCause;

/// The line of a call or of an answer: a word, the number, and the value's line.
pub fn numbered_line(
    alloc: Global,
    what: &str,
    number: u32,
    value: &[u8],
) -> Result<Vec<u8>, AllocError>
    ensures { IfOk result (λ line. line.items ≡ numbered_line what.now number value.now) }
{
    let mut line = format!(in alloc; "{what} {number} ")?.into_bytes();
    line.extend_from_slice(value)?;
    Ok(line)
}

/// The line of an answer to no open call.
pub fn stale_line(alloc: Global, number: u32) -> Result<Vec<u8>, AllocError>
    ensures { IfOk result (λ line. line.items ≡ stale_line number) }
{
    let line = format!(in alloc; "answer {number} stale\n")?;
    Ok(line.into_bytes())
}

/// The name of why a call has no result.
pub fn result_cause_name(cause: ResultCause) -> &'static str
    ensures { result.now ≡ result_cause_name cause }
{
    match cause {
        ResultCause::TypeTooDeep => "TypeTooDeep",
        ResultCause::EmptyElement => "EmptyElement",
    }
}
