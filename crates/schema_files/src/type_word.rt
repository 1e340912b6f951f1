//! Types from words.
ghost use Rattle.std.specs.Prelude.{IfOk};
ghost use Rattle.tl_schema.specs.Formed.{IsFormed};
ghost use Rattle.tl_schema.specs.Seen.{shape};
ghost use Rattle.schema_files.specs.Parts.{MeansType};
ghost use Rattle.schema_files.specs.inner.Tellings.{TellsNoType};

use crate::lines::type_cause_name;
use crate::text::{lex_error, syntax_error};
use outside::LoadError;
use std::alloc::Global;
use tl_schema::{Schema, TypeFault, TypeRef, type_of};

// What is told of a word that is no type.
fn type_error(alloc: Global, fault: TypeFault) -> LoadError
    ensures { TellsNoType fault result }
{
    match fault {
        TypeFault::Lex(fault) => lex_error(alloc, "type", fault),
        TypeFault::Syntax(fault) => syntax_error(alloc, "type", fault),
        TypeFault::Refused { cause } => LoadError::unplaced(alloc, "type", type_cause_name(cause)),
        TypeFault::Memory => LoadError::Memory,
    }
}

/// The type that a text means.
pub fn type_spelled(alloc: Global, schema: &Schema, text: &[u8]) -> Result<TypeRef, LoadError>
    ensures names { MeansType schema.now text.now result }
    ensures formed { IfOk result (λ of. IsFormed schema.now (shape of)) }
{
    match type_of(alloc, schema, text) {
        Ok(of) => Ok(of),
        Err(fault) => Err(type_error(alloc, fault)),
    }
}

/// The type that a word means.
pub fn type_named(alloc: Global, schema: &Schema, text: &str) -> Result<TypeRef, LoadError>
    ensures names { MeansType schema.now text.now result }
    ensures formed { IfOk result (λ of. IsFormed schema.now (shape of)) }
{
    type_spelled(alloc, schema, text.as_bytes())
}
