//! What is told of a text that is refused, that of a schema or of a type.
ghost use Rattle.outside.specs.Loading.{RefusesAs};
ghost use Rattle.schema_files.specs.Causes.{NotProfile};
ghost use Rattle.schema_files.specs.Lines.{text_line};
ghost use Rattle.schema_files.specs.inner.Tellings.{TellsLex, TellsSyntax};

use crate::lines::form_name;
use outside::LoadError;
use std::alloc::Global;
use tl_combinators::{SyntaxFault, UnsupportedForm};
use tl_lexer::LexFault;

/// What is told of a text without tokens.
pub fn lex_error(alloc: Global, what: &str, fault: LexFault) -> LoadError
    ensures { TellsLex what.now fault result }
{
    match fault {
        LexFault::TextTooLong => LoadError::unplaced(alloc, what, "TextTooLong"),
        LexFault::BadByte { at } => LoadError::placed(alloc, what, at as u64, "BadByte"),
        LexFault::OpenComment { at } => LoadError::placed(alloc, what, at as u64, "OpenComment"),
        LexFault::Memory => LoadError::Memory,
    }
}

/// What is told of tokens that are refused.
pub fn syntax_error(alloc: Global, what: &str, fault: SyntaxFault) -> LoadError
    ensures { TellsSyntax what.now fault result }
{
    match fault {
        SyntaxFault::Unexpected { at } => LoadError::placed(alloc, what, at as u64, "Unexpected"),
        SyntaxFault::NotProfile { at, form } => form_error(alloc, what, at, form),
        SyntaxFault::TooMany { at } => LoadError::placed(alloc, what, at as u64, "TooMany"),
        SyntaxFault::Memory => LoadError::Memory,
    }
}

// What is told of a form that is left out.
fn form_error(alloc: Global, what: &str, at: u32, form: UnsupportedForm) -> LoadError
    ensures { RefusesAs (text_line what.now (NotProfile at form)) result }
{
    let name = form_name(form);
    match format!(in alloc; "NotProfile {name}") {
        Ok(why) => LoadError::placed(alloc, what, at as u64, why.as_str()),
        Err(_) => LoadError::Memory,
    }
}
