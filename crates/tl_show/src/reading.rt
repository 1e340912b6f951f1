//! Values from JSON: one function for each part of a value.
ghost use Rattle.std.specs.Prelude.{◌≡◌, [], bytes_eq, codes, is_some, map, slice_get, true};
ghost use Rattle.std.specs.Map.{lookup};
ghost use Rattle.serde_json.specs.View.{view as data_of, items_view, members_view};
ghost use Rattle.tl_schema.specs.Closing.{closed};
ghost use Rattle.tl_schema.specs.Seen.{shape};
ghost use Rattle.tl_types.specs.Parts.{fields_in};
ghost use Rattle.tl_types.specs.Seen.{view};
ghost use Rattle.tl_show.specs.Shown.{name_text};
ghost use Rattle.tl_show.specs.Reading.{all_fields, each_element, each_field, of_array, of_record, one_field, parts, reader, readers, text_at, TellsRead};
ghost use Rattle.tl_show.specs.Reading as reading;
ghost use Rattle.tl_show.specs.inner.FormTells.{Tells};
ghost use Rattle.tl_show.specs.inner.Keyed.{keyed_slot};

use crate::fault::{FormCause, FormFault, JsonFault, at_part, refused};
use crate::keyed::{KeyedField, KeyedSchema};
use crate::keying::keyed_entries;
use crate::plain::plain_of;
use crate::records::{entry_of, fill_members, has_other, is_record, not_there, record_value};
use serde_json::Map;
use std::alloc::Global;
use tl_schema::{Schema, TypeRef};
use tl_types::{Value, arguments_of, close, fits};

/// The value of a closed type from the JSON that `show` gives of it. A `string` may also be `{"hex":..}` where it is UTF-8, and hexadecimal digits may be of
/// either case. The keys of a declaration's records are prepared once a call.
pub fn read(
    alloc: Global,
    schema: &Schema,
    of: &TypeRef,
    json: &serde_json::Value,
) -> Result<Value, JsonFault>
    ensures reads { TellsRead schema.now.decls (shape of.now) (data_of json.now) result }
{
    let value = read_form(alloc, schema, of, json)?;
    fits(alloc, schema, of, &value)?;
    Ok(value)
}

/// The value that the JSON is the form of.
pub fn read_form(
    alloc: Global,
    schema: &Schema,
    of: &TypeRef,
    json: &serde_json::Value,
) -> Result<Value, FormFault>
    ensures { Tells view (reading.read schema.now.decls (shape of.now) (data_of json.now)) result }
{
    let entries = keyed_entries(alloc, schema)?;
    value_of(alloc, json, &KeyedSchema::over(schema, &entries), of)
}

/// A value of a type.
#[cycle(read)]
pub fn value_of(
    alloc: Global,
    json: &serde_json::Value,
    schema: &KeyedSchema<'_>,
    of: &TypeRef,
) -> Result<Value, FormFault>
    ensures { Tells view (reader schema.now.decls (data_of json.now) (shape of.now)) result }
{
    match json {
        serde_json::Value::Array(items) => list_of(alloc, items, schema, of),
        serde_json::Value::Object(members) => {
            if is_record(of) {
                record_of(alloc, members, schema, of)
            } else {
                plain_of(alloc, json, of)
            }
        }
        _ => plain_of(alloc, json, of),
    }
}

// A list.
#[cycle(read)]
fn list_of(
    alloc: Global,
    items: &Vec<serde_json::Value>,
    schema: &KeyedSchema<'_>,
    of: &TypeRef,
) -> Result<Value, FormFault>
    ensures { Tells view (of_array (readers schema.now.decls (items_view items.now.items)) (shape of.now)) result }
{
    match of {
        TypeRef::Vector { item, .. } => {
            Ok(Value::List(elements_of(alloc, items, schema, item)?))
        }
        _ => Err(refused(alloc, FormCause::WrongJson)),
    }
}

// The elements of a list, by their type.
#[cycle(read)]
fn elements_of(
    alloc: Global,
    items: &Vec<serde_json::Value>,
    schema: &KeyedSchema<'_>,
    of: &TypeRef,
) -> Result<Vec<Value>, FormFault>
    ensures { Tells (λ vs. map view vs.items) (each_element 0 (shape of.now) [] (readers schema.now.decls (items_view items.now.items))) result }
{
    let mut values = Vec::with_capacity(alloc, items.len())?;
    for (i, item) in items.iter().enumerate() {
        let value = at_part(i, value_of(alloc, item, schema, of))?;
        values.push(value)?;
    }
    Ok(values)
}

// A record or a call.
#[cycle(read)]
fn record_of(
    alloc: Global,
    members: &Map<String, serde_json::Value>,
    schema: &KeyedSchema<'_>,
    of: &TypeRef,
) -> Result<Value, FormFault>
    ensures { let ms = members_view members.now.entries in Tells view (of_record schema.now.decls ms (parts schema.now.decls ms) (shape of.now)) result }
{
    match entry_of(members, schema, of) {
        Some(entry) => {
            let values = all_fields(alloc, members, schema, entry, arguments_of(of))?;
            Ok(record_value(of, entry, values))
        }
        None => Err(refused(alloc, FormCause::NoSuchName)),
    }
}

// The values of all fields of a declaration, whose name stands at `_`.
#[cycle(read)]
fn all_fields(
    alloc: Global,
    members: &Map<String, serde_json::Value>,
    schema: &KeyedSchema<'_>,
    entry: u32,
    args: &[TypeRef],
) -> Result<Vec<Value>, FormFault>
    requires { is_some (text_at (codes "_") (members_view members.now.entries)) ≡ true }
    ensures { let ms = members_view members.now.entries in
        Tells (λ vs. map view vs.items) (all_fields (map shape args.now) (fields_in (slice_get schema.now.decls entry)) ms (parts schema.now.decls ms)) result }
{
    let fields = schema.fields(entry);
    let values = fields_of(alloc, members, schema, fields, args);
    if fill_members(&values, members, schema.has_apart_keys(entry)) {
        return values;
    }
    if has_other(members, fields) {
        return Err(refused(alloc, FormCause::ExtraField));
    }
    values
}

// The values of fields.
#[cycle(read)]
fn fields_of(
    alloc: Global,
    members: &Map<String, serde_json::Value>,
    schema: &KeyedSchema<'_>,
    fields: &[KeyedField],
    args: &[TypeRef],
) -> Result<Vec<Value>, FormFault>
    ensures { Tells (λ vs. map view vs.items) (each_field 0 (map shape args.now) [] (map keyed_slot fields.now) (parts schema.now.decls (members_view members.now.entries))) result }
{
    let mut values = Vec::with_capacity(alloc, fields.len())?;
    for (i, field) in fields.iter().enumerate() {
        let value = at_part(i, field_of(alloc, members, schema, field, args))?;
        values.push(value)?;
    }
    Ok(values)
}

// The value of a field.
#[cycle(read)]
fn field_of(
    alloc: Global,
    members: &Map<String, serde_json::Value>,
    schema: &KeyedSchema<'_>,
    field: &KeyedField,
    args: &[TypeRef],
) -> Result<Value, FormFault>
    ensures { let ps = parts schema.now.decls (members_view members.now.entries) in
        Tells view (one_field (map shape args.now) (keyed_slot field.now) (lookup (bytes_eq (name_text (keyed_slot field.now).name)) ps)) result }
{
    match members.get(field.key.as_str()) {
        Some(json) => closed_of(alloc, json, schema, &field.field.of, args),
        None => not_there(alloc, field.field.cond),
    }
}

// A value of a field's type, which is closed where the declaration has variables.
#[cycle(read)]
fn closed_of(
    alloc: Global,
    json: &serde_json::Value,
    schema: &KeyedSchema<'_>,
    of: &TypeRef,
    args: &[TypeRef],
) -> Result<Value, FormFault>
    ensures { Tells view (reader schema.now.decls (data_of json.now) (closed (map shape args.now) (shape of.now))) result }
{
    if args.is_empty() {
        return value_of(alloc, json, schema, of);
    }
    let closed = close(of, args, alloc)?;
    value_of(alloc, json, schema, &closed)
}
