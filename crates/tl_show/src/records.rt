//! Records and calls, from JSON: their declarations, and their keys.
ghost use Rattle.std.specs.Prelude.{◌≡◌, ◌-◌, IsOkAnd, bytes_eq, count_by, length, map, not, string_bytes, true};
ghost use Rattle.std.specs.List.{list_any};
ghost use Rattle.serde_json.specs.View.{members_view};
ghost use Rattle.tl_schema.specs.Seen.{shape};
ghost use Rattle.tl_types.specs.Seen.{view, views};
ghost use Rattle.tl_types.specs.Parts.{is_absent};
ghost use Rattle.tl_show.specs.Reading.{declaration_of, has_other, is_record, not_there, record_keys, record_value};
ghost use Rattle.tl_show.specs.inner.FormTells.{Tells};
ghost use Rattle.tl_show.specs.inner.Keyed.{keyed_slot};

use crate::fault::{FormCause, FormFault, refused};
use crate::keyed::{KeyedField, KeyedSchema};
use crate::plain::text_at;
use serde_json::Map;
use std::alloc::Global;
use tl_schema::TypeRef;
use tl_types::{Value, is_absent};

/// Whether a type's values are records or calls.
pub fn is_record(of: &TypeRef) -> bool
    ensures { result ≡ is_record (shape of.now) }
{
    match of {
        TypeRef::Boxed { .. } => true,
        TypeRef::Bare { .. } => true,
        TypeRef::Call => true,
        _ => false,
    }
}

/// The declaration that `_` names: one that a record of the type has, or a call.
pub fn entry_of(
    members: &Map<String, serde_json::Value>,
    schema: &KeyedSchema<'_>,
    of: &TypeRef,
) -> Option<u32>
    ensures { result ≡ declaration_of schema.now.decls (shape of.now) (members_view members.now.entries) }
{
    match text_at(members, "_") {
        Some(name) => schema.named(of, name),
        None => None,
    }
}

/// A record of the declaration, or a call, with these values of its fields.
pub fn record_value(of: &TypeRef, entry: u32, fields: Vec<Value>) -> Value
    ensures { view result ≡ record_value (shape of.now) entry (views fields.items) }
{
    match of {
        TypeRef::Call => Value::Call { entry, fields },
        _ => Value::Node { entry, fields },
    }
}

/// A field without a key isn't there, if it has a condition.
pub fn not_there(alloc: Global, cond: Option<(u32, u32)>) -> Result<Value, FormFault>
    ensures { Tells view (not_there cond) result }
{
    match cond {
        Some(_) => Ok(Value::Absent),
        None => Err(refused(alloc, FormCause::MissingField)),
    }
}

/// Whether these values have one for each key beside `_`, where the keys of the fields are apart: then no key is another.
pub fn fill_members(
    values: &Result<Vec<Value>, FormFault>,
    members: &Map<String, serde_json::Value>,
    apart: bool,
) -> bool
    ensures apart { result ≡ true → apart ≡ true }
    ensures counts { result ≡ true → IsOkAnd values.now (λ vs. count_by (λ v. not (is_absent (view v))) vs.items ≡ length members.now.entries - 1) }
{
    match values {
        Ok(values) => apart && count_there(values) == members.len().saturating_sub(1),
        Err(_) => false,
    }
}

// How many of the fields with these values are there.
fn count_there(values: &[Value]) -> usize
    ensures { result ≡ count_by (λ v. not (is_absent (view v))) values.now }
{
    values.iter().filter(|value| !is_absent(value)).count()
}

/// Whether a key is neither `_` nor that of a field.
pub fn has_other(members: &Map<String, serde_json::Value>, fields: &[KeyedField]) -> bool
    ensures { result ≡ has_other (record_keys (map keyed_slot fields.now)) (members_view members.now.entries) }
{
    for key in members.keys() {
        if !is_known(key, fields) {
            return true;
        }
    }
    false
}

// Whether a key is `_` or that of a field.
fn is_known(key: &str, fields: &[KeyedField]) -> bool
    ensures { result ≡ list_any (bytes_eq key.now) (record_keys (map keyed_slot fields.now)) }
{
    key == "_" || is_key(key, fields)
}

// Whether a key is that of a field.
fn is_key(key: &str, fields: &[KeyedField]) -> bool
    ensures { result ≡ list_any (λ f. bytes_eq key.now (string_bytes f.key)) fields.now }
{
    fields.iter().any(|field| key == field.key.as_str())
}
