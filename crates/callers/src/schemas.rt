//! A schema from its text, and a value of one of its types from bytes.
ghost use Rattle.std.specs.Prelude.{IfOk};
ghost use Rattle.tl_types.specs.Seen.{view};
ghost use Rattle.callers.specs.Schemas.{IsSchemaText, IsValueOf};

use std::alloc::Global;
use thiserror::Error;
use tl_base::Fault;
use tl_combinators::{SyntaxFault, parse};
use tl_decode::{WholeCause, decode_bytes_as};
use tl_lexer::{LexFault, lex};
use tl_schema::{CheckFault, Schema, TypeFault, check, type_of};
use tl_types::Value;

/// Why a text declares no schema.
#[derive(Debug, Drop, Error)]
pub enum SchemaTextFault {
    #[error(transparent)]
    Lex(#[from] LexFault),
    #[error(transparent)]
    Parse(#[from] SyntaxFault),
    #[error(transparent)]
    Check(#[from] CheckFault),
}

/// Why no value is read.
#[derive(Debug, Drop, Error)]
pub enum ValueFault {
    #[error(transparent)]
    Type(#[from] TypeFault),
    #[error(transparent)]
    Input(#[from] Fault<WholeCause>),
}

/// The schema that a text declares.
pub fn schema_of(alloc: Global, text: &[u8]) -> Result<Schema, SchemaTextFault>
    ensures { IfOk result (IsSchemaText text.now) }
{
    let tokens = lex(alloc, text)?;
    let program = parse(alloc, text, &tokens)?;
    let schema = check(alloc, &program)?;
    Ok(schema)
}

/// The value of a type that is all of the bytes. The type is named as a field's is, as in `Vector<int>`.
pub fn value_of(
    alloc: Global,
    schema: &Schema,
    name: &[u8],
    bytes: &[u8],
) -> Result<Value, ValueFault>
    ensures { IfOk result (λ v. IsValueOf schema.now name.now bytes.now (view v)) }
{
    let of = type_of(alloc, schema, name)?;
    let value = decode_bytes_as(alloc, schema, &of, bytes)?;
    Ok(value)
}
