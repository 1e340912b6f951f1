//! A value as a tree of JSON.
ghost use Rattle.std.specs.Prelude.{◌≡◌, IfOk, OnOk, codes, map, slice_get};
ghost use Rattle.serde_json.specs.Data.{array, member, no_members, object, put};
ghost use Rattle.serde_json.specs.View.{view as data_of, members_view};
ghost use Rattle.tl_schema.specs.Seen.{shape, slot};
ghost use Rattle.tl_schema.specs.Closing.{closed};
ghost use Rattle.tl_types.specs.Seen.{view, views};
ghost use Rattle.tl_types.specs.Parts.{fields_in, is_absent, name_in};
ghost use Rattle.tl_show.specs.Shown.{hex_data, name_text, named, shown, shown_each, string_data, text_data, with_field, with_fields};

use crate::parts::{is_string, name_of, name_text};
use serde_json::Map;
use std::alloc::{AllocError, Global};
use tl_schema::{Schema, SchemaField, TypeRef};
use tl_types::{Value, arguments_of, close, is_absent, item_of, slots_of};

/// The value, of this type, as JSON.
pub fn show(
    alloc: Global,
    schema: &Schema,
    of: &TypeRef,
    value: &Value,
) -> Result<serde_json::Value, AllocError>
    ensures shows { IfOk result (λ json. data_of json ≡ shown schema.now.decls (shape of.now) (view value.now)) }
{
    json_of(alloc, value, schema, of)
}

// A value as JSON.
#[cycle(show)]
fn json_of(
    alloc: Global,
    value: &Value,
    schema: &Schema,
    of: &TypeRef,
) -> Result<serde_json::Value, AllocError>
    ensures { IfOk result (λ json. data_of json ≡ shown schema.now.decls (shape of.now) (view value.now)) }
{
    match value {
        Value::Int(number) => Ok(serde_json::Value::from(*number)),
        Value::Long(number) => Ok(serde_json::Value::from(*number)),
        Value::Nat(number) => Ok(serde_json::Value::from(*number)),
        Value::Opaque(bytes) => hex_of(alloc, bytes.as_slice()),
        Value::Text(bytes) => text_of(alloc, of, bytes.as_slice()),
        Value::Truth => Ok(serde_json::Value::Bool(true)),
        Value::Absent => Ok(serde_json::Value::Null),
        Value::List(items) => array_of(alloc, items, schema, item_of(of)),
        Value::Node { entry, fields } => {
            record_of(alloc, fields, schema, *entry, arguments_of(of))
        }
        Value::Call { entry, fields } => record_of(alloc, fields, schema, *entry, &[]),
    }
}

// A list as an array, by the type of its elements.
#[cycle(show)]
fn array_of(
    alloc: Global,
    values: &Vec<Value>,
    schema: &Schema,
    of: &TypeRef,
) -> Result<serde_json::Value, AllocError>
    ensures { IfOk result (λ json. data_of json ≡ array (shown_each schema.now.decls (shape of.now) (views values.now.items))) }
{
    let mut items = Vec::new(alloc);
    for value in values {
        items.push(json_of(alloc, value, schema, of)?)?;
    }
    Ok(serde_json::Value::Array(items))
}

// A record or a call as an object, by its declaration and what its type is applied to.
#[cycle(show)]
fn record_of(
    alloc: Global,
    values: &Vec<Value>,
    schema: &Schema,
    entry: u32,
    args: &[TypeRef],
) -> Result<serde_json::Value, AllocError>
    ensures { let d = slice_get schema.now.decls entry in IfOk result
        (λ json. data_of json ≡ object (with_fields schema.now.decls (map shape args.now) (named (name_in d)) (fields_in d) (views values.now.items))) }
{
    let mut members = start_of(alloc, name_of(schema, entry))?;
    let slots = slots_of(schema, entry);
    put_fields(alloc, values, schema, args, slots, &mut members)?;
    Ok(serde_json::Value::Object(members))
}

// Puts the values of fields at their names.
#[cycle(show)]
fn put_fields(
    alloc: Global,
    values: &Vec<Value>,
    schema: &Schema,
    args: &[TypeRef],
    slots: &[SchemaField],
    members: &mut Map<String, serde_json::Value>,
) -> Result<(), AllocError>
    ensures { OnOk result (members_view members.new.entries ≡ with_fields schema.now.decls (map shape args.now) (members_view members.old.entries) (map slot slots.now) (views values.now.items)) }
{
    for (i, value) in values.iter().enumerate() {
        let Some(field) = slots.get(i) else {
            return Ok(());
        };
        put_field(alloc, value, schema, args, field, members)?;
    }
    Ok(())
}

// Puts a field's value at its name, unless the field isn't there.
#[cycle(show)]
fn put_field(
    alloc: Global,
    value: &Value,
    schema: &Schema,
    args: &[TypeRef],
    field: &SchemaField,
    members: &mut Map<String, serde_json::Value>,
) -> Result<(), AllocError>
    ensures { let d = shown schema.now.decls (closed (map shape args.now) (shape field.now.of)) (view value.now) in OnOk result
        (members_view members.new.entries ≡ with_field (is_absent (view value.now)) field.now.name d (members_view members.old.entries)) }
{
    if is_absent(value) {
        return Ok(());
    }
    let json = field_of(alloc, value, schema, args, field)?;
    put_member(alloc, members, field.name.as_slice(), json)
}

// A field's value as JSON. Its type is closed where the declaration has variables.
#[cycle(show)]
fn field_of(
    alloc: Global,
    value: &Value,
    schema: &Schema,
    args: &[TypeRef],
    field: &SchemaField,
) -> Result<serde_json::Value, AllocError>
    ensures { IfOk result (λ json. data_of json ≡ shown schema.now.decls (closed (map shape args.now) (shape field.now.of)) (view value.now)) }
{
    if args.is_empty() {
        return json_of(alloc, value, schema, &field.of);
    }
    let of = close(&field.of, args, alloc)?;
    json_of(alloc, value, schema, &of)
}

// The bytes of a `string` or of `bytes`.
fn text_of(alloc: Global, of: &TypeRef, bytes: &[u8]) -> Result<serde_json::Value, AllocError>
    ensures { IfOk result (λ json. data_of json ≡ text_data (shape of.now) bytes.now) }
{
    if is_string(of) {
        string_of(alloc, bytes)
    } else {
        hex_of(alloc, bytes)
    }
}

// The bytes of a `string`: its text, where they are one.
fn string_of(alloc: Global, bytes: &[u8]) -> Result<serde_json::Value, AllocError>
    ensures { IfOk result (λ json. data_of json ≡ string_data bytes.now) }
{
    match str::from_utf8(bytes) {
        Ok(text) => Ok(serde_json::Value::String(String::from_str(alloc, text)?)),
        Err(_) => hex_object_of(alloc, bytes),
    }
}

// Bytes as an object, whose one member is their hexadecimal digits.
fn hex_object_of(alloc: Global, bytes: &[u8]) -> Result<serde_json::Value, AllocError>
    ensures { IfOk result (λ json. data_of json ≡ object (member (codes "hex") (hex_data bytes.now) no_members)) }
{
    let mut members = Map::new(alloc);
    members.insert(String::from_str(alloc, "hex")?, hex_of(alloc, bytes)?)?;
    Ok(serde_json::Value::Object(members))
}

// Bytes as hexadecimal digits.
fn hex_of(alloc: Global, bytes: &[u8]) -> Result<serde_json::Value, AllocError>
    ensures { IfOk result (λ json. data_of json ≡ hex_data bytes.now) }
{
    Ok(serde_json::Value::String(hex::encode(alloc, bytes)?))
}

// The members of a record before those of its fields.
fn start_of(alloc: Global, name: &[u8]) -> Result<Map<String, serde_json::Value>, AllocError>
    ensures { IfOk result (λ m. members_view m.entries ≡ named name.now) }
{
    let mut members = Map::new(alloc);
    members.insert(
        String::from_str(alloc, "_")?,
        serde_json::Value::String(name_text(alloc, name)?),
    )?;
    Ok(members)
}

// Puts a value at a name.
fn put_member(
    alloc: Global,
    members: &mut Map<String, serde_json::Value>,
    name: &[u8],
    json: serde_json::Value,
) -> Result<(), AllocError>
    ensures { OnOk result (members_view members.new.entries ≡ put (name_text name.now) (data_of json) (members_view members.old.entries)) }
{
    members.insert(name_text(alloc, name)?, json)?;
    Ok(())
}
