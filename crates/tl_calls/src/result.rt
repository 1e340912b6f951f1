//! The result of a call.
ghost use Rattle.std.specs.Prelude.{◌≡◌, IfOk, OnOk, List, map, replicate};
ghost use Rattle.tl_schema.specs.Formed.{IsFormed};
ghost use Rattle.tl_schema.specs.Seen.{shape, slot};
ghost use Rattle.tl_schema.specs.Types.{Shape, call, shapes_of};
ghost use Rattle.tl_types.specs.Seen.{view, views};
ghost use Rattle.tl_calls.specs.Results.{HasResult, TellsCause, TellsResult, result_type, results, with_result};
ghost use Rattle.tl_calls.specs.inner.Making.{AgreeOn, name_in, names};

use crate::fault::{ResultCause, ResultFault};
use crate::functions::function_at;
use crate::judging::result_traits;
use crate::places::put;
use std::alloc::{AllocError, Global};
use tl_plan::MAX_LEVELS;
use tl_schema::{Schema, SchemaField, TypeRef};
use tl_types::{Value, close};

/// The type that a call is answered in: the declared result of its function, with the results of the calls in its fields `!X` in place of its variables.
/// It is judged before it is made.
pub fn result_of(alloc: Global, schema: &Schema, call: &Value) -> Result<TypeRef, ResultFault>
    ensures result { TellsResult schema.now (view call.now) result }
    ensures formed { IfOk result (λ t. IsFormed schema.now (shape t)) }
{
    let cause = result_cause(alloc, schema, call)?;
    if let Some(cause) = cause {
        return Err(ResultFault::Refused(cause));
    }
    Ok(made_type(call, alloc, schema)?)
}

/// The first cause that the result has, or none. The result isn't made.
pub fn result_cause(
    alloc: Global,
    schema: &Schema,
    call: &Value,
) -> Result<Option<ResultCause>, AllocError>
    ensures { IfOk result (TellsCause schema.now (result_type schema.now.decls (view call.now))) }
{
    let traits = result_traits(call, alloc, schema)?;
    if traits.levels > MAX_LEVELS as u64 {
        Ok(Some(ResultCause::TypeTooDeep))
    } else if traits.holds_empty {
        Ok(Some(ResultCause::EmptyElement))
    } else {
        Ok(None)
    }
}

/// The result, made. It may be too large for memory where it wasn't judged.
#[cycle(made_type)]
pub fn made_type(call: &Value, alloc: Global, schema: &Schema) -> Result<TypeRef, AllocError>
    ensures made { IfOk result (λ t. shape t ≡ result_type schema.now.decls (view call.now)) }
    ensures formed { HasResult schema.now (view call.now) → IfOk result (λ t. IsFormed schema.now (shape t)) }
{
    match call {
        Value::Call { entry, fields } => {
            let Some(entry) = function_at(schema, *entry) else {
                return Ok(TypeRef::Call);
            };
            let slots = &entry.fields;
            let known = made_types(fields, alloc, schema, entry.vars, slots, &entry.result)?;
            close(&entry.result, &known, alloc)
        }
        _ => Ok(TypeRef::Call),
    }
}

// The variables' results, of so many variables, of these fields with these values; those alone are made that the type names.
#[cycle(made_type)]
fn made_types(
    values: &[Value],
    alloc: Global,
    schema: &Schema,
    vars: u32,
    slots: &[SchemaField],
    of: &TypeRef,
) -> Result<Vec<TypeRef>, AllocError>
    ensures { IfOk result (λ known. AgreeOn (shape of.now) (map shape known.items) (results schema.now.decls (replicate vars call) (map slot slots.now) (views values.now))) }
{
    let mut known = any_calls(alloc, vars)?;
    for (i, value) in values.iter().enumerate() {
        let Some(field) = slots.get(i) else {
            return Ok(known);
        };
        note_type(value, alloc, schema, field, of, &mut known)?;
    }
    Ok(known)
}

// Notes the variable's result, where the field is a call and the type names the variable.
#[cycle(made_type)]
fn note_type(
    value: &Value,
    alloc: Global,
    schema: &Schema,
    field: &SchemaField,
    of: &TypeRef,
    known: &mut Vec<TypeRef>,
) -> Result<(), AllocError>
    ensures { OnOk result ((Ts : List Shape) → AgreeOn (shape of.now) (map shape known.old.items) Ts → AgreeOn (shape of.now) (map shape known.new.items) (with_result field.now.var (result_type schema.now.decls (view value.now)) Ts)) }
{
    if let Some(var) = field.var {
        if names(of, var) {
            let t = made_type(value, alloc, schema)?;
            put(known, var, t);
        }
    }
    Ok(())
}

// So many calls of any function.
fn any_calls(alloc: Global, count: u32) -> Result<Vec<TypeRef>, AllocError>
    ensures { IfOk result (λ ts. map shape ts.items ≡ replicate count call) }
{
    let mut all = Vec::new(alloc);
    for _ in 0..count {
        all.push(TypeRef::Call)?;
    }
    Ok(all)
}

// Whether the type names the variable.
#[cycle(names)]
fn names(of: &TypeRef, var: u32) -> bool
    ensures { result ≡ names var (shape of.now) }
{
    match of {
        TypeRef::Var { index } => *index == var,
        TypeRef::Vector { item, .. } => names(item, var),
        TypeRef::Boxed { args, .. } => name_in(args, var),
        TypeRef::Bare { args, .. } => name_in(args, var),
        _ => false,
    }
}

// Whether one of the types names it.
#[cycle(names)]
fn name_in(args: &Vec<TypeRef>, var: u32) -> bool
    ensures { result ≡ name_in var (shapes_of (map shape args.now.items)) }
{
    for item in args {
        if names(item, var) {
            return true;
        }
    }
    false
}
