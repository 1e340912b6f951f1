//! The bytes of a value.
ghost use Rattle.std.specs.Prelude.{IfOk};
ghost use Rattle.tl_schema.specs.Formed.{IsFormed};
ghost use Rattle.tl_schema.specs.Seen.{shape};
ghost use Rattle.tl_types.specs.Seen.{view};
ghost use Rattle.tl_types.specs.Spelling.{Spells};

use std::alloc::Global;
use tl_encode::spelling_as;
use tl_schema::{Schema, TypeRef};
use tl_types::{FitFault, Value};

/// The bytes that spell a value of a type, or where and why it doesn't fit.
pub fn bytes_of(
    alloc: Global,
    schema: &Schema,
    of: &TypeRef,
    value: &Value,
) -> Result<Vec<u8>, FitFault>
    requires formed { IsFormed schema.now (shape of.now) }
    ensures { IfOk result (λ bytes. Spells schema.now (shape of.now) (view value.now) bytes.items) }
{
    spelling_as(alloc, schema, of, value)
}
