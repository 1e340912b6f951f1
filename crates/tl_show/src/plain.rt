//! Values without parts, from JSON.
ghost use Rattle.std.specs.Prelude.{◌≡◌, option_and_then, option_map};
ghost use Rattle.serde_json.specs.Data.{string};
ghost use Rattle.serde_json.specs.Find.{as_integer, as_number};
ghost use Rattle.serde_json.specs.View.{view as data_of, members_view};
ghost use Rattle.tl_schema.specs.Seen.{shape};
ghost use Rattle.tl_schema.specs.Types as types;
ghost use Rattle.tl_types.specs.Seen.{view};
ghost use Rattle.tl_show.specs.Reading.{bytes_of, digits_of, hex_of, int_of, long_of, nat_of, plain, text_at};
ghost use Rattle.tl_show.specs.inner.FormTells.{Tells};

use crate::fault::{FormCause, FormFault, refused};
use hex::FromHexError;
use serde_json::Map;
use std::alloc::Global;
use tl_numbers::Bytes;
use tl_schema::TypeRef;
use tl_types::Value;

/// A value of a type whose values have no parts.
pub fn plain_of(alloc: Global, json: &serde_json::Value, of: &TypeRef) -> Result<Value, FormFault>
    ensures { Tells view (plain (shape of.now) (data_of json.now)) result }
{
    match of {
        TypeRef::Int => int_of(alloc, json),
        TypeRef::Long => long_of(alloc, json),
        TypeRef::Nat => nat_of(alloc, json),
        TypeRef::Double => opaque_of(alloc, json, 8),
        TypeRef::Int128 => opaque_of(alloc, json, 16),
        TypeRef::Int256 => opaque_of(alloc, json, 32),
        TypeRef::Str => string_of(alloc, json),
        TypeRef::Raw => raw_of(alloc, json),
        TypeRef::Flag => flag_of(alloc, json),
        _ => Err(refused(alloc, FormCause::WrongJson)),
    }
}

// The whole number that the JSON is.
fn whole_of(json: &serde_json::Value) -> Option<i128>
    ensures { result ≡ option_and_then as_integer (as_number (data_of json.now)) }
{
    match json.as_number() {
        Some(number) => number.as_i128(),
        None => None,
    }
}

fn int_of(alloc: Global, json: &serde_json::Value) -> Result<Value, FormFault>
    ensures { Tells view (plain types.int (data_of json.now)) result }
{
    match whole_of(json) {
        Some(number) => int_within(alloc, number),
        None => Err(refused(alloc, FormCause::WrongJson)),
    }
}

// The number, if it is in range.
fn int_within(alloc: Global, number: i128) -> Result<Value, FormFault>
    ensures { Tells view (int_of number) result }
{
    match i32::try_from(number) {
        Ok(number) => Ok(Value::Int(number)),
        Err(_) => Err(refused(alloc, FormCause::OutOfRange)),
    }
}

fn long_of(alloc: Global, json: &serde_json::Value) -> Result<Value, FormFault>
    ensures { Tells view (plain types.long (data_of json.now)) result }
{
    match whole_of(json) {
        Some(number) => long_within(alloc, number),
        None => Err(refused(alloc, FormCause::WrongJson)),
    }
}

// The number, if it is in range.
fn long_within(alloc: Global, number: i128) -> Result<Value, FormFault>
    ensures { Tells view (long_of number) result }
{
    match i64::try_from(number) {
        Ok(number) => Ok(Value::Long(number)),
        Err(_) => Err(refused(alloc, FormCause::OutOfRange)),
    }
}

fn nat_of(alloc: Global, json: &serde_json::Value) -> Result<Value, FormFault>
    ensures { Tells view (plain types.nat (data_of json.now)) result }
{
    match whole_of(json) {
        Some(number) => nat_within(alloc, number),
        None => Err(refused(alloc, FormCause::WrongJson)),
    }
}

// The number, if it is in range.
fn nat_within(alloc: Global, number: i128) -> Result<Value, FormFault>
    ensures { Tells view (nat_of number) result }
{
    match u32::try_from(number) {
        Ok(number) => Ok(Value::Nat(number)),
        Err(_) => Err(refused(alloc, FormCause::OutOfRange)),
    }
}

/// A value of a type from a text.
pub fn text_of(alloc: Global, text: &str, of: &TypeRef) -> Result<Value, FormFault>
    ensures { Tells view (plain (shape of.now) (string text.now)) result }
{
    match of {
        TypeRef::Str => Ok(Value::Text(Bytes::from_slice(alloc, text.as_bytes())?)),
        TypeRef::Raw => Ok(Value::Text(bytes_of(alloc, text)?)),
        TypeRef::Double => opaque_text(alloc, text, 8),
        TypeRef::Int128 => opaque_text(alloc, text, 16),
        TypeRef::Int256 => opaque_text(alloc, text, 32),
        _ => Err(refused(alloc, FormCause::WrongJson)),
    }
}

// So many bytes, from a text.
fn opaque_text(alloc: Global, text: &str, count: usize) -> Result<Value, FormFault>
    ensures { Tells view (plain (types.opaque count) (string text.now)) result }
{
    let bytes = bytes_of(alloc, text)?;
    if bytes.len() == count {
        Ok(Value::Opaque(bytes))
    } else {
        Err(refused(alloc, FormCause::WrongJson))
    }
}

// So many bytes.
fn opaque_of(alloc: Global, json: &serde_json::Value, count: usize) -> Result<Value, FormFault>
    ensures { Tells view (plain (types.opaque count) (data_of json.now)) result }
{
    match json.as_str() {
        Some(text) => opaque_text(alloc, text, count),
        None => Err(refused(alloc, FormCause::WrongJson)),
    }
}

// A `string`.
fn string_of(alloc: Global, json: &serde_json::Value) -> Result<Value, FormFault>
    ensures { Tells view (plain types.str (data_of json.now)) result }
{
    match json {
        serde_json::Value::String(text) => {
            Ok(Value::Text(Bytes::from_slice(alloc, text.as_bytes())?))
        }
        serde_json::Value::Object(members) => Ok(Value::Text(hex_of(alloc, members)?)),
        _ => Err(refused(alloc, FormCause::WrongJson)),
    }
}

// A value of `bytes`.
fn raw_of(alloc: Global, json: &serde_json::Value) -> Result<Value, FormFault>
    ensures { Tells view (plain types.raw (data_of json.now)) result }
{
    Ok(Value::Text(digits_of(alloc, json)?))
}

// A flag that is set.
fn flag_of(alloc: Global, json: &serde_json::Value) -> Result<Value, FormFault>
    ensures { Tells view (plain types.flag (data_of json.now)) result }
{
    match json.as_bool() {
        Some(true) => Ok(Value::Truth),
        _ => Err(refused(alloc, FormCause::WrongJson)),
    }
}

// The bytes of a text of hexadecimal digits.
fn digits_of(alloc: Global, json: &serde_json::Value) -> Result<Bytes, FormFault>
    ensures { Tells (λ b. b) (digits_of (data_of json.now)) result }
{
    match json.as_str() {
        Some(digits) => bytes_of(alloc, digits),
        None => Err(refused(alloc, FormCause::WrongJson)),
    }
}

// The bytes of `{"hex":..}`.
fn hex_of(alloc: Global, members: &Map<String, serde_json::Value>) -> Result<Bytes, FormFault>
    ensures { Tells (λ b. b) (hex_of (members_view members.now.entries)) result }
{
    if members.len() != 1 {
        return Err(refused(alloc, FormCause::WrongJson));
    }
    match text_at(members, "hex") {
        Some(digits) => bytes_of(alloc, digits),
        None => Err(refused(alloc, FormCause::WrongJson)),
    }
}

/// The text at a key.
pub fn text_at<'a>(members: &'a Map<String, serde_json::Value>, key: &str) -> Option<&'a str>
    ensures { option_map (λ s. s.now) result ≡ text_at key.now (members_view members.now.entries) }
{
    members.get(key).and_then(serde_json::Value::as_str)
}

// The bytes of hexadecimal digits.
fn bytes_of(alloc: Global, digits: &str) -> Result<Bytes, FormFault>
    ensures { Tells (λ b. b) (bytes_of digits.now) result }
{
    match hex::decode(alloc, digits) {
        Ok(bytes) => Ok(Bytes::from_vec(bytes)),
        Err(FromHexError::OutOfMemory) => Err(FormFault::Memory),
        Err(_) => Err(refused(alloc, FormCause::WrongJson)),
    }
}
