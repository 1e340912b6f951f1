//! Copies of what a schema's declarations hold, for what is kept beside the schema.
ghost use Rattle.std.specs.Prelude.{◌≡◌, IfOk};
ghost use Rattle.tl_schema.specs.Seen.{shape, slot};

use std::alloc::{AllocError, Global};
use tl_schema::{SchemaField, TypeRef};
use tl_types::close;

/// A copy of a type.
pub fn copy_type(alloc: Global, of: &TypeRef) -> Result<TypeRef, AllocError>
    ensures { IfOk result (λ t. shape t ≡ shape of.now) }
{
    close(of, &[], alloc)
}

/// A copy of a field.
pub fn copy_field(alloc: Global, field: &SchemaField) -> Result<SchemaField, AllocError>
    ensures slot { IfOk result (λ f. slot f ≡ slot field.now) }
    ensures name { IfOk result (λ f. f.name ≡ field.now.name) }
{
    let name = field.name.copy()?;
    let of = copy_type(alloc, &field.of)?;
    Ok(SchemaField {
        name,
        cond: field.cond,
        var: field.var,
        of,
    })
}
