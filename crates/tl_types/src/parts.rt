//! Parts of a value, of its type and of its declaration.
ghost use Rattle.std.specs.Prelude.{◌≡◌, ◌<◌, ◌^◌, length, map, slice_get};
ghost use Rattle.tl_schema.specs.Seen.{shape, slot};
ghost use Rattle.tl_types.specs.Parts.{arguments_of, fields_in, is_absent, item_of};
ghost use Rattle.tl_types.specs.Seen.{view};

use crate::value::Value;
use tl_schema::{Schema, SchemaField, TypeRef};

/// The fields of a declaration; none past the end of the schema.
pub fn slots_of(schema: &Schema, entry: u32) -> &[SchemaField]
    ensures fields { map slot result.now ≡ fields_in (slice_get schema.now.decls entry) }
    ensures few { length result.now < 2 ^ 32 }
{
    if entry < schema.count() {
        &schema.entry(entry).fields
    } else {
        &[]
    }
}

/// The type of the elements of a vector; of another type this type itself.
pub fn item_of(of: &TypeRef) -> &TypeRef
    ensures { shape result.now ≡ item_of (shape of.now) }
{
    match of {
        TypeRef::Vector { item, .. } => item,
        _ => of,
    }
}

/// What a type is applied to.
pub fn arguments_of(of: &TypeRef) -> &[TypeRef]
    ensures { map shape result.now ≡ arguments_of (shape of.now) }
{
    match of {
        TypeRef::Boxed { args, .. } => args,
        TypeRef::Bare { args, .. } => args,
        _ => &[],
    }
}

/// Whether a value stands for a field that isn't there.
pub fn is_absent(value: &Value) -> bool
    ensures { result ≡ is_absent (view value.now) }
{
    match value {
        Value::Absent => true,
        _ => false,
    }
}
