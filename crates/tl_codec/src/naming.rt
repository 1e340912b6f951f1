//! Types by their texts.
ghost use Rattle.std.specs.Prelude.{IfOk};
ghost use Rattle.tl_schema.specs.Formed.{IsFormed};
ghost use Rattle.tl_schema.specs.Seen.{shape};
ghost use Rattle.tl_codec.specs.inner.Names.{NamesPlanned, Pushes};

use outside::LoadError;
use schema_files::{plan_of, type_spelled};
use std::alloc::Global;
use tl_schema::{Schema, TypeRef};

/// The most types that a codec keeps.
const MAX_TYPES: usize = 65_536;

/// The type that a text means. That it has a plan is asked for its refusal alone: the program makes one.
pub fn planned_type(alloc: Global, schema: &Schema, name: &[u8]) -> Result<TypeRef, LoadError>
    ensures names { NamesPlanned schema.now name.now result }
    ensures formed { IfOk result (λ of. IsFormed schema.now (shape of)) }
{
    let of = type_spelled(alloc, schema, name)?;
    match plan_of(alloc, schema, &of) {
        Ok(_) => Ok(of),
        Err(fault) => Err(fault),
    }
}

/// Adds a type, and gives its number. One type too many is told as out of memory.
pub fn push_type(types: &mut Vec<TypeRef>, of: TypeRef) -> Result<u32, LoadError>
    ensures { Pushes types.old.items of types.new.items result }
{
    let number = types.len();
    if number >= MAX_TYPES {
        return Err(LoadError::Memory);
    }
    match types.push(of) {
        Ok(()) => Ok(number as u32),
        Err(_) => Err(LoadError::Memory),
    }
}
