//! Schemas, plans and printed programs of texts.
use crate::row::Row;
use std::alloc::{AllocError, Global};
use std::slice::from_ref;
use std::str;
use tl_base::Bytes;
use tl_combinators::parse;
use tl_lexer::lex;
use tl_plan::{Plan, plan};
use tl_print::print;
use tl_schema::{Schema, check, type_of};

/// The schema that a text is; a text that is none is answered as out of memory.
pub fn schema_of(alloc: Global, text: &str) -> Result<Schema, AllocError> {
    let Ok(tokens) = lex(alloc, text.as_bytes()) else {
        return Err(AllocError);
    };
    let Ok(program) = parse(alloc, text.as_bytes(), &tokens) else {
        return Err(AllocError);
    };
    match check(alloc, &program) {
        Ok(schema) => Ok(schema),
        Err(_) => Err(AllocError),
    }
}

/// Puts the schema of the row's text in the place of another one.
pub fn made(schema: &mut Schema, row: &mut Row) {
    match schema_of(row.alloc(), row.text()) {
        Ok(made) => {
            *schema = made;
            row.put("made");
        }
        Err(_) => row.short(),
    }
}

/// The plan of the type that a text is; None where it has none.
pub fn plan_of<'s>(alloc: Global, schema: &'s Schema, text: &str) -> Option<Plan<'s>> {
    let of = type_of(alloc, schema, text.as_bytes()).ok()?;
    plan(alloc, schema, from_ref(&of)).ok()
}

// `print` asks that some text reads as the program, so it stands after `parse`.
fn printed_of(alloc: Global, text: &[u8]) -> Option<Bytes> {
    let tokens = lex(alloc, text).ok()?;
    let program = parse(alloc, text, &tokens).ok()?;
    print(alloc, &program).ok()
}

/// The text that is printed of the program of the row's text.
pub fn print_call(row: &mut Row) {
    let Some(printed) = printed_of(row.alloc(), row.text().as_bytes()) else {
        return row.put("no program");
    };
    match str::from_utf8(printed.as_slice()) {
        Ok(text) => row.show(&text),
        Err(_) => row.unknown(),
    }
}
