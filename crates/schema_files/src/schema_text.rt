//! Schemas from their texts.
ghost use Rattle.schema_files.specs.Parts.{ReadsSchema};
ghost use Rattle.schema_files.specs.inner.Tellings.{TellsCheck};

use crate::lines::check_name;
use crate::text::{lex_error, syntax_error};
use outside::LoadError;
use std::alloc::Global;
use tl_combinators::parse;
use tl_lexer::{TEXT_LIMIT, lex};
use tl_schema::{CheckFault, Schema, check};

/// The most bytes that a schema's text may have.
pub const SCHEMA_BYTES: u32 = 4_194_304;

const _: () = prove!(SCHEMA_BYTES as usize == TEXT_LIMIT);

// What is told of a program that is no schema.
fn check_error(alloc: Global, what: &str, fault: CheckFault) -> LoadError
    ensures { TellsCheck what.now fault result }
{
    match fault {
        CheckFault::Refused { decl, cause } => {
            LoadError::of_decl(alloc, what, decl, check_name(cause))
        }
        CheckFault::Memory => LoadError::Memory,
    }
}

/// The schema that a text spells. `what` is what lines call the input.
pub fn schema_of(alloc: Global, what: &str, text: &[u8]) -> Result<Schema, LoadError>
    ensures { ReadsSchema what.now text.now result }
{
    let tokens = match lex(alloc, text) {
        Ok(tokens) => tokens,
        Err(fault) => return Err(lex_error(alloc, what, fault)),
    };
    let program = match parse(alloc, text, &tokens) {
        Ok(program) => program,
        Err(fault) => return Err(syntax_error(alloc, what, fault)),
    };
    match check(alloc, &program) {
        Ok(schema) => Ok(schema),
        Err(fault) => Err(check_error(alloc, what, fault)),
    }
}
