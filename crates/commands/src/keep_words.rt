//! The words of `keep`.
ghost use Rattle.std.specs.Prelude.{map, string_bytes};
ghost use Rattle.commands.specs.KeepWords.{FindsKeep, FindsOperands};

use crate::number::{Range, number_in};
use crate::request::is_operand;

/// `keep SCHEMA ADDRESS SESSIONS FILE`
#[derive(Clone, Copy)]
pub struct KeepRequest<'a> {
    pub schema: &'a str,
    pub address: &'a str,
    pub sessions: u32,
    /// The name of the database. `run_stored` is handed its keeper.
    pub file: &'a str,
}

/// What words ask to keep, if they are those of `keep`.
pub fn keep_in(words: &[String]) -> Option<KeepRequest<'_>>
    ensures { FindsKeep (map string_bytes words.now) result }
{
    match words {
        [command, schema, address, sessions, file] => {
            if command.as_str() != "keep" {
                return None;
            }
            keep_of(
                schema.as_str(),
                address.as_str(),
                sessions.as_str(),
                file.as_str(),
            )
        }
        _ => None,
    }
}

// What the operands of `keep` ask for.
fn keep_of<'a>(
    schema: &'a str,
    address: &'a str,
    sessions: &str,
    file: &'a str,
) -> Option<KeepRequest<'a>>
    ensures { FindsOperands schema.now address.now sessions.now file.now result }
{
    if !is_operand(schema) || !is_operand(address) || !is_operand(file) {
        return None;
    }
    let range = Range {
        digits: 10,
        least: 1,
        most: 1_000_000,
    };
    let sessions = number_in(range, sessions)?;
    Some(KeepRequest {
        schema,
        address,
        sessions: sessions as u32,
        file,
    })
}
