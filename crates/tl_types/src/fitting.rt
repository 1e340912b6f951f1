//! Whether a value fits a type.
ghost use Rattle.std.specs.Prelude.{◌≡◌, ◌<◌, ◌^◌, [], None, Option, length, map};
ghost use Rattle.tl_schema.specs.Closing.{closed};
ghost use Rattle.tl_schema.specs.Seen.{shape, slot};
ghost use Rattle.tl_types.specs.Fitting.{MisfitView, TellsMisfit, bit_of, each_misfit, field_misfit, inside, misfit, node_misfit};
ghost use Rattle.tl_types.specs.Seen.{view, views};

use crate::closing::close;
use crate::conditions::stands;
use crate::misfit::{FitFault, Misfit, MisfitCause};
use crate::nodes::node_misfit;
use crate::parts::{arguments_of, item_of, slots_of};
use crate::value::{MAX_LEVELS, Value};
use std::alloc::Global;
use tl_schema::{Schema, SchemaField, TypeRef, form_of};

/// Whether the value has a spelling, of this closed type and at most `MAX_LEVELS` levels; where it has none, the first misfit. Memory is taken for
/// the types of parts that are applied, and for the path of a misfit.
pub fn fits(alloc: Global, schema: &Schema, of: &TypeRef, value: &Value) -> Result<(), FitFault>
    ensures fits { TellsMisfit (misfit schema.now.decls MAX_LEVELS None (shape of.now) (view value.now)) result }
{
    value_fits(alloc, value, schema, MAX_LEVELS, None, of)
}

// Whether a value fits a type, with so many levels left, where it stands by this bit or by none.
#[cycle(fits)]
fn value_fits(
    alloc: Global,
    value: &Value,
    schema: &Schema,
    levels: u32,
    bit: Option<bool>,
    of: &TypeRef,
) -> Result<(), FitFault>
    ensures { TellsMisfit (misfit schema.now.decls levels bit (shape of.now) (view value.now)) result }
{
    if let Some(cause) = own_misfit(value, schema, levels, bit, of) {
        let path = Vec::new(alloc);
        return Err(FitFault::Misfit(Misfit { path, cause }));
    }
    let left = levels.saturating_sub(1);
    match value {
        Value::List(items) => each_fits(alloc, items, schema, left, item_of(of)),
        Value::Node { entry, fields } => {
            let slots = slots_of(schema, *entry);
            fields_fit(alloc, fields, schema, left, arguments_of(of), slots)
        }
        Value::Call { entry, fields } => {
            let slots = slots_of(schema, *entry);
            fields_fit(alloc, fields, schema, left, &[], slots)
        }
        _ => Ok(()),
    }
}

// The first cause that the value has, its parts aside.
fn own_misfit(
    value: &Value,
    schema: &Schema,
    levels: u32,
    bit: Option<bool>,
    of: &TypeRef,
) -> Option<MisfitCause>
    ensures { result ≡ node_misfit schema.now.decls levels bit (shape of.now) (view value.now) }
{
    node_misfit(value, schema, levels, bit, form_of(of))
}

// Whether each element fits the type.
#[cycle(fits)]
fn each_fits(
    alloc: Global,
    items: &[Value],
    schema: &Schema,
    levels: u32,
    of: &TypeRef,
) -> Result<(), FitFault>
    requires few { length items.now < 2 ^ 32 }
    ensures { TellsMisfit (each_misfit schema.now.decls levels (shape of.now) 0 (views items.now)) result }
{
    for (i, item) in items.iter().enumerate() {
        let told = value_fits(alloc, item, schema, levels, None, of);
        at_part(i as u32, told)?;
    }
    Ok(())
}

// Whether the values of fields fit their types and conditions.
#[cycle(fits)]
fn fields_fit(
    alloc: Global,
    values: &[Value],
    schema: &Schema,
    levels: u32,
    args: &[TypeRef],
    slots: &[SchemaField],
) -> Result<(), FitFault>
    requires few { length slots.now < 2 ^ 32 }
    ensures { TellsMisfit (field_misfit schema.now.decls levels (map shape args.now) [] 0 (map slot slots.now) (views values.now)) result }
{
    for (i, value) in values.iter().enumerate() {
        let Some(field) = slots.get(i) else {
            return Ok(());
        };
        let bit = bit_of(field.cond, &values[..i]);
        let told = field_fits(alloc, value, schema, levels, bit, args, &field.of);
        at_part(i as u32, told)?;
    }
    Ok(())
}

// Whether a field's value fits. Its type is closed where the declaration has variables.
#[cycle(fits)]
fn field_fits(
    alloc: Global,
    value: &Value,
    schema: &Schema,
    levels: u32,
    bit: Option<bool>,
    args: &[TypeRef],
    of: &TypeRef,
) -> Result<(), FitFault>
    ensures { TellsMisfit (misfit schema.now.decls levels bit (closed (map shape args.now) (shape of.now)) (view value.now)) result }
{
    if args.is_empty() {
        return value_fits(alloc, value, schema, levels, bit, of);
    }
    let closed = close(of, args, alloc)?;
    value_fits(alloc, value, schema, levels, bit, &closed)
}

/// The bit that a field with this condition stands by, after fields with these values.
pub fn bit_of(cond: Option<(u32, u32)>, before: &[Value]) -> Option<bool>
    ensures { result ≡ bit_of cond (map view before.now) }
{
    if cond.is_none() {
        return None;
    }
    Some(stands(cond, before))
}

// What is told of the part at this index, as it is told of the whole.
fn at_part(index: u32, told: Result<(), FitFault>) -> Result<(), FitFault>
    ensures { (m : Option MisfitView) → TellsMisfit m told → TellsMisfit (inside index m) result }
{
    match told {
        Err(FitFault::Misfit(Misfit { mut path, cause })) => {
            path.insert(0, index)?;
            Err(FitFault::Misfit(Misfit { path, cause }))
        }
        told => told,
    }
}
