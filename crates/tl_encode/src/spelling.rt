//! The spelling of a value, one function for each rule.
ghost use Rattle.std.specs.Prelude.{[], List, map};
ghost use Rattle.tl_schema.specs.Closing.{closed};
ghost use Rattle.tl_schema.specs.Seen.{shape, slot};
ghost use Rattle.tl_schema.specs.Types as type;
ghost use Rattle.tl_types.specs.Seen.{view, views};
ghost use Rattle.tl_types.specs.Values as value;
ghost use Rattle.tl_types.specs.Values.{ValueView};
ghost use Rattle.tl_types.specs.Spelling.{SpellEach, SpellFields, Spells, SpellsField};
ghost use Rattle.tl_encode.specs.Puts.{Puts};

use crate::items::{put_double, put_vector_prefix, put_word};
use crate::texts::put_text;
use std::alloc::{AllocError, Global};
use tl_schema::{Schema, SchemaField, TypeRef};
use tl_types::{Value, close};

/// Appends the spelling of a value of this type. Where the value has none, nothing is said of what is appended. It is for a caller that knows already
/// that the value fits, and wants the bytes in memory; others take `encode_walk`.
#[cycle(spell)]
pub fn spell(
    alloc: Global,
    value: &Value,
    schema: &Schema,
    of: &TypeRef,
    out: &mut Vec<u8>,
) -> Result<(), AllocError>
    ensures { Puts (Spells schema.now (shape of.now) (view value.now)) out.old.items out.new.items result }
{
    match value {
        Value::Int(number) => put_word(number.cast_unsigned(), out),
        Value::Long(number) => put_double(number.cast_unsigned(), out),
        Value::Nat(number) => put_word(*number, out),
        Value::Opaque(bytes) => {
            out.extend_from_slice(bytes.as_slice())?;
            Ok(())
        }
        Value::Text(bytes) => put_text(bytes.as_slice(), out),
        Value::Truth | Value::Absent => Ok(()),
        Value::List(items) => spell_list(alloc, items, schema, of, out),
        Value::Node { entry, fields } => spell_node(alloc, fields, schema, of, *entry, out),
        Value::Call { entry, fields } => spell_call(alloc, fields, schema, *entry, out),
    }
}

// A list: the number of a boxed vector, the count and the elements.
#[cycle(spell)]
fn spell_list(
    alloc: Global,
    items: &Vec<Value>,
    schema: &Schema,
    of: &TypeRef,
    out: &mut Vec<u8>,
) -> Result<(), AllocError>
    ensures { Puts (Spells schema.now (shape of.now) (value.list (views items.now.items))) out.old.items out.new.items result }
{
    let count = items.len();
    if count >= 0x8000_0000 {
        return Ok(());
    }
    if let TypeRef::Vector { boxed, item } = of {
        put_vector_prefix(*boxed, out)?;
        put_word(count as u32, out)?;
        return spell_each(alloc, items, schema, item, out);
    }
    Ok(())
}

// The elements of a list, one after the other.
#[cycle(spell)]
fn spell_each(
    alloc: Global,
    items: &Vec<Value>,
    schema: &Schema,
    item: &TypeRef,
    out: &mut Vec<u8>,
) -> Result<(), AllocError>
    ensures { Puts (SpellEach schema.now (shape item.now) (views items.now.items)) out.old.items out.new.items result }
{
    for value in items {
        spell(alloc, value, schema, item, out)?;
    }
    Ok(())
}

// A record: of a boxed type the number of its constructor, and the fields.
#[cycle(spell)]
fn spell_node(
    alloc: Global,
    fields: &Vec<Value>,
    schema: &Schema,
    of: &TypeRef,
    entry: u32,
    out: &mut Vec<u8>,
) -> Result<(), AllocError>
    ensures { Puts (Spells schema.now (shape of.now) (value.node entry (views fields.now.items))) out.old.items out.new.items result }
{
    if entry >= schema.count() {
        return Ok(());
    }
    let declared = schema.entry(entry);
    match of {
        TypeRef::Boxed { args, .. } => {
            put_word(declared.number, out)?;
            spell_fields(alloc, fields, schema, args, &declared.fields, out)
        }
        TypeRef::Bare { args, .. } => {
            spell_fields(alloc, fields, schema, args, &declared.fields, out)
        }
        _ => Ok(()),
    }
}

// A call: the number of its function, and the fields.
#[cycle(spell)]
fn spell_call(
    alloc: Global,
    fields: &Vec<Value>,
    schema: &Schema,
    entry: u32,
    out: &mut Vec<u8>,
) -> Result<(), AllocError>
    ensures { Puts (Spells schema.now type.call (value.call entry (views fields.now.items))) out.old.items out.new.items result }
{
    if entry >= schema.count() {
        return Ok(());
    }
    let declared = schema.entry(entry);
    put_word(declared.number, out)?;
    spell_fields(alloc, fields, schema, &[], &declared.fields, out)
}

// The fields of a declaration, one after the other.
#[cycle(spell)]
fn spell_fields(
    alloc: Global,
    fields: &Vec<Value>,
    schema: &Schema,
    args: &[TypeRef],
    slots: &[SchemaField],
    out: &mut Vec<u8>,
) -> Result<(), AllocError>
    ensures { Puts (SpellFields schema.now (map shape args.now) [] (map slot slots.now) (views fields.now.items)) out.old.items out.new.items result }
{
    for (i, value) in fields.iter().enumerate() {
        let Some(field) = slots.get(i) else {
            return Ok(());
        };
        spell_field(alloc, value, schema, args, field, out)?;
    }
    Ok(())
}

// A field, whatever stands before it. One that isn't there has no bytes.
#[cycle(spell)]
fn spell_field(
    alloc: Global,
    value: &Value,
    schema: &Schema,
    args: &[TypeRef],
    field: &SchemaField,
    out: &mut Vec<u8>,
) -> Result<(), AllocError>
    ensures { (before : List ValueView) → Puts (SpellsField schema.now (map shape args.now) before (slot field.now) (view value.now)) out.old.items out.new.items result }
{
    match value {
        Value::Absent => Ok(()),
        _ => spell_there(alloc, value, schema, args, field, out),
    }
}

// The value of a field that is there. Its type is closed where the declaration has variables.
#[cycle(spell)]
fn spell_there(
    alloc: Global,
    value: &Value,
    schema: &Schema,
    args: &[TypeRef],
    field: &SchemaField,
    out: &mut Vec<u8>,
) -> Result<(), AllocError>
    ensures { Puts (Spells schema.now (closed (map shape args.now) (shape field.now.of)) (view value.now)) out.old.items out.new.items result }
{
    if args.is_empty() {
        return spell(alloc, value, schema, &field.of, out);
    }
    let of = close(&field.of, args, alloc)?;
    spell(alloc, value, schema, &of, out)
}
