//! Lifting values.
ghost use Rattle.std.specs.Prelude.{◌≡◌, IfOk, map, slice_get};
ghost use Rattle.tl_types.specs.Seen.{view, views};
ghost use Rattle.tl_layers.specs.inner.Tables.{entry_by, fields_by, moved_by, moved_each, picked};

use crate::moved::Moved;
use std::alloc::{AllocError, Global};
use tl_types::Value;

/// The value with each record and call moved to its counterpart. One of a declaration that hasn't moved stays, with its parts lifted.
#[cycle(lift)]
pub fn lift_value(
    value: &Value,
    moved: &[Option<Moved>],
    alloc: Global,
) -> Result<Value, AllocError>
    ensures { IfOk result (λ v. view v ≡ moved_by moved.now (view value.now)) }
{
    match value {
        Value::Int(number) => Ok(Value::Int(*number)),
        Value::Long(number) => Ok(Value::Long(*number)),
        Value::Nat(number) => Ok(Value::Nat(*number)),
        Value::Opaque(bytes) => Ok(Value::Opaque(bytes.copy()?)),
        Value::Text(bytes) => Ok(Value::Text(bytes.copy()?)),
        Value::Truth => Ok(Value::Truth),
        Value::Absent => Ok(Value::Absent),
        Value::List(items) => Ok(Value::List(lift_all(items, moved, alloc)?)),
        Value::Node { entry, fields } => Ok(Value::Node {
            entry: entry_by(moved, *entry),
            fields: lift_fields(fields, *entry, moved, alloc)?,
        }),
        Value::Call { entry, fields } => Ok(Value::Call {
            entry: entry_by(moved, *entry),
            fields: lift_fields(fields, *entry, moved, alloc)?,
        }),
    }
}

// The declaration that one has moved to; one that hasn't stays.
fn entry_by(moved: &[Option<Moved>], entry: u32) -> u32
    ensures { result ≡ entry_by (slice_get moved.now entry) entry }
{
    match moved.get(entry as usize) {
        Some(Some(to)) => to.entry,
        _ => entry,
    }
}

// Lifted values, in order.
#[cycle(lift)]
fn lift_all(
    values: &[Value],
    moved: &[Option<Moved>],
    alloc: Global,
) -> Result<Vec<Value>, AllocError>
    ensures { IfOk result (λ vs. map view vs.items ≡ moved_each moved.now (views values.now)) }
{
    let mut lifted = Vec::new(alloc);
    for value in values {
        lifted.push(lift_value(value, moved, alloc)?)?;
    }
    Ok(lifted)
}

// The lifted values of a declaration's fields, each where its field has moved to.
#[cycle(lift)]
fn lift_fields(
    fields: &[Value],
    entry: u32,
    moved: &[Option<Moved>],
    alloc: Global,
) -> Result<Vec<Value>, AllocError>
    ensures { IfOk result (λ vs. map view vs.items ≡ fields_by (slice_get moved.now entry) (moved_each moved.now (views fields.now))) }
{
    match moved.get(entry as usize) {
        Some(Some(to)) => pick_all(fields, &to.from, moved, alloc),
        _ => lift_all(fields, moved, alloc),
    }
}

// The lifted values at these indices, in their order; where there is no index the field isn't there.
#[cycle(lift)]
fn pick_all(
    fields: &[Value],
    from: &[Option<u32>],
    moved: &[Option<Moved>],
    alloc: Global,
) -> Result<Vec<Value>, AllocError>
    ensures { IfOk result (λ vs. map view vs.items ≡ map (picked (moved_each moved.now (views fields.now))) from.now) }
{
    let mut lifted = Vec::new(alloc);
    for origin in from {
        lifted.push(pick(fields, *origin, moved, alloc)?)?;
    }
    Ok(lifted)
}

// The lifted value at an index, where there is one.
#[cycle(lift)]
fn pick(
    fields: &[Value],
    origin: Option<u32>,
    moved: &[Option<Moved>],
    alloc: Global,
) -> Result<Value, AllocError>
    ensures { IfOk result (λ v. view v ≡ picked (moved_each moved.now (views fields.now)) origin) }
{
    match origin {
        Some(k) => match fields.get(k as usize) {
            Some(value) => lift_value(value, moved, alloc),
            None => Ok(Value::Absent),
        },
        None => Ok(Value::Absent),
    }
}
