//! How deep a call's result is, and what in it takes no bytes, without making it: its parts may be shared so often that memory has no room for it.
ghost use Rattle.std.specs.Prelude.{◌≡◌, ◌∷◌, [], ◌++◌, List, IfOk, OnOk, map, replicate};
ghost use Rattle.tl_schema.specs.Schemas.{Declared};
ghost use Rattle.tl_schema.specs.Seen.{shape, slot};
ghost use Rattle.tl_schema.specs.Types.{Shape, call};
ghost use Rattle.tl_types.specs.Seen.{view, views};
ghost use Rattle.tl_calls.specs.Results.{result_type, results, with_result};
ghost use Rattle.tl_calls.specs.inner.Judging.{AreTraits, AreTraitsAmong, KnowsTraits, TraitsStand, TraitsStandAmong, plain};

use crate::functions::function_at;
use crate::places::put;
use crate::traits::Traits;
use std::alloc::{AllocError, Global};
use tl_schema::{Schema, SchemaField, TypeRef};
use tl_types::Value;

// A type of one level that takes bytes.
const PLAIN: Traits = Traits {
    levels: 1,
    empty: false,
    holds_empty: false,
};

/// The traits of a type, with types of the known traits in place of its variables.
#[cycle(traits)]
pub fn traits_of(of: &TypeRef, schema: &Schema, known: &[Traits]) -> Traits
    ensures { TraitsStand schema.now known.now (shape of.now) result }
{
    match of {
        TypeRef::Var { index } => known.get(*index as usize).copied().unwrap_or(PLAIN),
        TypeRef::Vector { item, .. } => {
            let t = traits_of(item, schema, known);
            Traits {
                levels: t.levels.saturating_add(1),
                empty: false,
                holds_empty: t.has_empty(),
            }
        }
        TypeRef::Boxed { args, .. } => {
            let t = traits_among(args, schema, known);
            Traits {
                levels: t.levels.saturating_add(1),
                empty: false,
                holds_empty: t.holds_empty,
            }
        }
        TypeRef::Bare { entry, args } => {
            let t = traits_among(args, schema, known);
            Traits {
                levels: t.levels.saturating_add(1),
                empty: schema.takes_none(*entry),
                holds_empty: t.holds_empty,
            }
        }
        _ => PLAIN,
    }
}

// Of arguments.
#[cycle(traits)]
fn traits_among(args: &Vec<TypeRef>, schema: &Schema, known: &[Traits]) -> Traits
    ensures { TraitsStandAmong schema.now known.now (map shape args.now.items) result }
{
    let mut among = Traits {
        levels: 0,
        empty: false,
        holds_empty: false,
    };
    for item in args {
        among = joined(among, traits_of(item, schema, known));
    }
    among
}

// Of arguments with one more after them.
fn joined(among: Traits, last: Traits) -> Traits
    ensures { (schema : Declared) (Ts : List Shape) (T : Shape) → AreTraitsAmong schema Ts among → AreTraits schema T last → AreTraitsAmong schema (Ts ++ T ∷ []) result }
{
    Traits {
        levels: among.levels.max(last.levels),
        empty: false,
        holds_empty: among.holds_empty || last.has_empty(),
    }
}

/// The traits of a call's result.
#[cycle(result_traits)]
pub fn result_traits(call: &Value, alloc: Global, schema: &Schema) -> Result<Traits, AllocError>
    ensures { IfOk result (λ t. AreTraits schema.now (result_type schema.now.decls (view call.now)) t) }
{
    match call {
        Value::Call { entry, fields } => {
            let Some(entry) = function_at(schema, *entry) else {
                return Ok(PLAIN);
            };
            let known = called_traits(fields, alloc, schema, entry.vars, &entry.fields)?;
            Ok(traits_of(&entry.result, schema, &known))
        }
        _ => Ok(PLAIN),
    }
}

// The traits of the variables' results: of so many variables, of these fields with these values.
#[cycle(result_traits)]
fn called_traits(
    values: &[Value],
    alloc: Global,
    schema: &Schema,
    vars: u32,
    slots: &[SchemaField],
) -> Result<Vec<Traits>, AllocError>
    ensures { IfOk result (λ known. KnowsTraits schema.now (results schema.now.decls (replicate vars call) (map slot slots.now) (views values.now)) known.items) }
{
    let mut known = plain_traits(alloc, vars)?;
    for (i, value) in values.iter().enumerate() {
        let Some(field) = slots.get(i) else {
            return Ok(known);
        };
        note_traits(value, alloc, schema, field, &mut known)?;
    }
    Ok(known)
}

// Notes the traits of the variable's result, where the field is a call.
#[cycle(result_traits)]
fn note_traits(
    value: &Value,
    alloc: Global,
    schema: &Schema,
    field: &SchemaField,
    known: &mut Vec<Traits>,
) -> Result<(), AllocError>
    ensures { OnOk result ((Ts : List Shape) → KnowsTraits schema.now Ts known.old.items → KnowsTraits schema.now (with_result field.now.var (result_type schema.now.decls (view value.now)) Ts) known.new.items) }
{
    if let Some(var) = field.var {
        let t = result_traits(value, alloc, schema)?;
        put(known, var, t);
    }
    Ok(())
}

// Those of a plain type, so many times.
fn plain_traits(alloc: Global, count: u32) -> Result<Vec<Traits>, AllocError>
    ensures { IfOk result (λ ts. ts.items ≡ replicate count plain) }
{
    let mut all = Vec::new(alloc);
    for _ in 0..count {
        all.push(PLAIN)?;
    }
    Ok(all)
}
