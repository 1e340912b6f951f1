//! Lists of ids and of bodies.
ghost use Rattle.std.specs.Prelude.{◌≡◌, IfOk};
ghost use Rattle.tl_types.specs.Seen.{views};
ghost use Rattle.wire_forms.specs.Parts as parts;
ghost use Rattle.wire_forms.specs.Parts.{each, first, rest};
ghost use Rattle.wire_values.specs.Coming.{coming};

use crate::fields::{Fields, next_value, text_of};
use box_events::{Ids, ListOf};
use std::alloc::Global;
use tl_base::{Bytes, Memory};
use tl_types::Value;
use wire_forms::{int_of, parts_of};

// The ids of values, which are read where they stand.
fn ids_of(alloc: Global, values: &[Value]) -> Result<Ids, Memory>
    ensures { IfOk result (λ ids. ids ≡ each parts.int_of (views values.now)) }
{
    let mut ids = Vec::with_capacity(alloc, values.len())?;
    for value in values {
        ids.push_reserved(int_of(value));
    }
    Ids::from_slice(alloc, &ids)
}

/// The ids in the next field's list.
pub fn next_ids(alloc: Global, fields: &mut Fields) -> Result<Ids, Memory>
    ensures ids { IfOk result (λ ids. ids ≡ each parts.int_of (parts.parts_of (first (coming fields.old)))) }
    ensures left { coming fields.new ≡ rest (coming fields.old) }
{
    let list = next_value(fields);
    ids_of(alloc, parts_of(&list))
}

/// The bodies in values.
pub fn bodies_of(alloc: Global, items: Fields) -> Result<ListOf<Bytes>, Memory>
    ensures { IfOk result (λ bodies. bodies ≡ each parts.text_of (coming items)) }
{
    let mut bodies = Vec::new(alloc);
    for item in items {
        bodies.push(text_of(alloc, item))?;
    }
    Ok(ListOf::from_vec(bodies))
}
