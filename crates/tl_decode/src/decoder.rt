//! Values of every type: one function for each rule of the reading function.
ghost use Rattle.std.specs.Prelude.{◌≡◌, [], IsErrOf, map};
ghost use Rattle.tl_base.specs.Using.{Used};
ghost use Rattle.tl_schema.specs.Seen.{shape, slot};
ghost use Rattle.tl_types.specs.Seen.{view};
ghost use Rattle.tl_types.specs.inner.Reading.{at_field, bare_at, boxed_at, call_at, deep_at, each_at, fields_at, list_at, long_list_at, value_at, wrong_number};
ghost use Rattle.tl_decode.specs.inner.Steps.{ReadsAs};

use crate::fault::DecodeFault;
use crate::items::word_of;
use crate::members::{function, member};
use crate::plain::{has_parts, plain_of};
use std::alloc::Global;
use tl_base::{BOXED_VECTOR, PACKED, Source};
use tl_schema::{Schema, SchemaField, TypeRef};
use tl_types::{Cause, Value, close, stands};

/// What reading goes by: the schema, and how many levels are left for what is read.
#[derive(Clone, Copy)]
pub struct Walk<'s> {
    pub alloc: Global,
    pub schema: &'s Schema,
    pub levels: u32,
}

/// The value of a type.
#[cycle(decode)]
pub fn value_of<S: Source>(
    walk: Walk<'_>,
    of: &TypeRef,
    at: &mut u64,
    from: &mut S,
) -> Result<Value, DecodeFault>
    ensures read { ReadsAs view (S.state from.old).left (S.state from.new).left at.old at.new result (value_at walk.entry.schema.now.decls walk.entry.levels (shape of.now)) }
    ensures used { Used (S.state from.old) (S.state from.new) (IsErrOf result DecodeFault.ReadFault) }
{
    if !has_parts(of) {
        return plain_of(walk.alloc, of, at, from);
    }
    if walk.levels == 0 {
        return Err(DecodeFault::Refused {
            place: *at,
            cause: Cause::TooDeep,
        });
    }
    let inside = Walk {
        alloc: walk.alloc,
        schema: walk.schema,
        levels: walk.levels - 1,
    };
    deep_of(inside, of, at, from)
}

// A list, a record or a call, with the levels that are left for its parts.
#[cycle(decode)]
fn deep_of<S: Source>(
    walk: Walk<'_>,
    of: &TypeRef,
    at: &mut u64,
    from: &mut S,
) -> Result<Value, DecodeFault>
    ensures read { ReadsAs view (S.state from.old).left (S.state from.new).left at.old at.new result (deep_at walk.entry.schema.now.decls (value_at walk.entry.schema.now.decls walk.entry.levels) (shape of.now)) }
    ensures used { Used (S.state from.old) (S.state from.new) (IsErrOf result DecodeFault.ReadFault) }
{
    match of {
        TypeRef::Vector { boxed, item } => {
            if *boxed {
                wide_of(walk, item, at, from)
            } else {
                list_of(walk, item, at, from)
            }
        }
        TypeRef::Boxed { head, args } => boxed_of(walk, *head, args, at, from),
        TypeRef::Bare { entry, args } => bare_of(walk, *entry, args, at, from),
        TypeRef::Call => call_of(walk, at, from),
        _ => plain_of(walk.alloc, of, at, from),
    }
}

// A list, after the number of a boxed vector.
#[cycle(decode)]
fn wide_of<S: Source>(
    walk: Walk<'_>,
    item: &TypeRef,
    at: &mut u64,
    from: &mut S,
) -> Result<Value, DecodeFault>
    ensures read { ReadsAs view (S.state from.old).left (S.state from.new).left at.old at.new result (long_list_at (value_at walk.entry.schema.now.decls walk.entry.levels (shape item.now))) }
    ensures used { Used (S.state from.old) (S.state from.new) (IsErrOf result DecodeFault.ReadFault) }
{
    let place = *at;
    let word = word_of(at, from)?;
    if word != BOXED_VECTOR {
        return Err(DecodeFault::Refused {
            place,
            cause: wrong(word),
        });
    }
    list_of(walk, item, at, from)
}

// A list: its count and its elements.
#[cycle(decode)]
fn list_of<S: Source>(
    walk: Walk<'_>,
    item: &TypeRef,
    at: &mut u64,
    from: &mut S,
) -> Result<Value, DecodeFault>
    ensures read { ReadsAs view (S.state from.old).left (S.state from.new).left at.old at.new result (list_at (value_at walk.entry.schema.now.decls walk.entry.levels (shape item.now))) }
    ensures used { Used (S.state from.old) (S.state from.new) (IsErrOf result DecodeFault.ReadFault) }
{
    let place = *at;
    let count = word_of(at, from)?;
    if count >= 0x8000_0000 {
        return Err(DecodeFault::Refused {
            place,
            cause: Cause::BadCount { word: count },
        });
    }
    let items = elements_of(walk, item, count, at, from)?;
    Ok(Value::List(items))
}

// So many elements. Memory is taken for those that are there.
#[cycle(decode)]
fn elements_of<S: Source>(
    walk: Walk<'_>,
    item: &TypeRef,
    count: u32,
    at: &mut u64,
    from: &mut S,
) -> Result<Vec<Value>, DecodeFault>
    ensures read { ReadsAs (λ v. map view v.items) (S.state from.old).left (S.state from.new).left at.old at.new result (each_at (value_at walk.entry.schema.now.decls walk.entry.levels (shape item.now)) count []) }
    ensures used { Used (S.state from.old) (S.state from.new) (IsErrOf result DecodeFault.ReadFault) }
{
    let mut items = Vec::new(walk.alloc);
    for i in 0..count {
        let value = value_of(walk, item, at, from)?;
        items.push(value)?;
    }
    Ok(items)
}

// A record, after the number of its constructor.
#[cycle(decode)]
fn boxed_of<S: Source>(
    walk: Walk<'_>,
    head: u32,
    args: &[TypeRef],
    at: &mut u64,
    from: &mut S,
) -> Result<Value, DecodeFault>
    ensures read { ReadsAs view (S.state from.old).left (S.state from.new).left at.old at.new result (boxed_at walk.entry.schema.now.decls (fields_at (value_at walk.entry.schema.now.decls walk.entry.levels) (map shape args.now) []) head) }
    ensures used { Used (S.state from.old) (S.state from.new) (IsErrOf result DecodeFault.ReadFault) }
{
    let place = *at;
    let word = word_of(at, from)?;
    match member(walk.schema, head, word) {
        None => Err(DecodeFault::Refused {
            place,
            cause: wrong(word),
        }),
        Some(i) => {
            let slots = &walk.schema.entry(i).fields;
            let fields = fields_of(walk, args, slots, at, from)?;
            Ok(Value::Node { entry: i, fields })
        }
    }
}

// A call, after the number of its function.
#[cycle(decode)]
fn call_of<S: Source>(walk: Walk<'_>, at: &mut u64, from: &mut S) -> Result<Value, DecodeFault>
    ensures read { ReadsAs view (S.state from.old).left (S.state from.new).left at.old at.new result (call_at walk.entry.schema.now.decls (fields_at (value_at walk.entry.schema.now.decls walk.entry.levels) [] [])) }
    ensures used { Used (S.state from.old) (S.state from.new) (IsErrOf result DecodeFault.ReadFault) }
{
    let place = *at;
    let word = word_of(at, from)?;
    match function(walk.schema, word) {
        None => Err(DecodeFault::Refused {
            place,
            cause: wrong(word),
        }),
        Some(i) => {
            let slots = &walk.schema.entry(i).fields;
            let fields = fields_of(walk, &[], slots, at, from)?;
            Ok(Value::Call { entry: i, fields })
        }
    }
}

// A record of one constructor, without its number.
#[cycle(decode)]
fn bare_of<S: Source>(
    walk: Walk<'_>,
    entry: u32,
    args: &[TypeRef],
    at: &mut u64,
    from: &mut S,
) -> Result<Value, DecodeFault>
    ensures read { ReadsAs view (S.state from.old).left (S.state from.new).left at.old at.new result (bare_at walk.entry.schema.now.decls (fields_at (value_at walk.entry.schema.now.decls walk.entry.levels) (map shape args.now) []) entry) }
    ensures used { Used (S.state from.old) (S.state from.new) (IsErrOf result DecodeFault.ReadFault) }
{
    if entry >= walk.schema.count() {
        return Ok(Value::Node {
            entry,
            fields: Vec::new(walk.alloc),
        });
    }
    let slots = &walk.schema.entry(entry).fields;
    let fields = fields_of(walk, args, slots, at, from)?;
    Ok(Value::Node { entry, fields })
}

// The values of fields, one after the other.
#[cycle(decode)]
fn fields_of<S: Source>(
    walk: Walk<'_>,
    args: &[TypeRef],
    slots: &[SchemaField],
    at: &mut u64,
    from: &mut S,
) -> Result<Vec<Value>, DecodeFault>
    ensures read { ReadsAs (λ v. map view v.items) (S.state from.old).left (S.state from.new).left at.old at.new result (fields_at (value_at walk.entry.schema.now.decls walk.entry.levels) (map shape args.now) [] (map slot slots.now)) }
    ensures used { Used (S.state from.old) (S.state from.new) (IsErrOf result DecodeFault.ReadFault) }
{
    let mut fields = Vec::with_capacity(walk.alloc, slots.len())?;
    for field in slots {
        let value = field_of(walk, args, field, &fields, at, from)?;
        fields.push(value)?;
    }
    Ok(fields)
}

// The value of a field, after those before. Its type is closed where the declaration has variables.
#[cycle(decode)]
fn field_of<S: Source>(
    walk: Walk<'_>,
    args: &[TypeRef],
    field: &SchemaField,
    before: &[Value],
    at: &mut u64,
    from: &mut S,
) -> Result<Value, DecodeFault>
    ensures read { ReadsAs view (S.state from.old).left (S.state from.new).left at.old at.new result (at_field (value_at walk.entry.schema.now.decls walk.entry.levels) (map shape args.now) (map view before.now) (slot field.now)) }
    ensures used { Used (S.state from.old) (S.state from.new) (IsErrOf result DecodeFault.ReadFault) }
{
    if !stands(field.cond, before) {
        return Ok(Value::Absent);
    }
    if args.is_empty() {
        return value_of(walk, &field.of, at, from);
    }
    let of = close(&field.of, args, walk.alloc)?;
    value_of(walk, &of, at, from)
}

/// Why a word is no number.
pub fn wrong(word: u32) -> Cause
    ensures { result ≡ wrong_number word }
{
    if word == PACKED {
        Cause::Packed
    } else {
        Cause::UnknownNumber { word }
    }
}
