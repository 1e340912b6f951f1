//! Values straight from the tokens of their JSON, by their types. What isn't common is given up, and left to trees.
ghost use Rattle.std.specs.Prelude.{◌≡◌, ◌<◌, ◌≤◌, ◌∷◌, ℕ, List, [], IfOk, IfSome, IsSomeAnd, OnOk, codes, length, map, option_map, replicate, slice_get, string_bytes, true, Some, Ok};
ghost use Rattle.json.specs.Token as token;
ghost use Rattle.json.specs.Json.{items, value};
ghost use Rattle.serde_json.specs.Data.{Data, Items, Members, Num, member, no_members, number, string};
ghost use Rattle.serde_json.specs.Find.{as_integer};
ghost use Rattle.serde_json.specs.Read.{converted, number_of, of_items};
ghost use Rattle.serde_json.specs.View.{view as data_of};
ghost use Rattle.tl_schema.specs.Closing.{closed};
ghost use Rattle.tl_schema.specs.Seen.{shape};
ghost use Rattle.tl_types.specs.Seen.{view};
ghost use Rattle.tl_types.specs.Values.{absent};
ghost use Rattle.tl_show.specs.Reading.{AreApart, each_element, is_record, plain, readers, record_keys};
ghost use Rattle.tl_show.specs.inner.Direct.{BeginsWith, GoesOnTo, HasFields, HoldsAfter, HoldsRecord, lacks, lacks_any};
ghost use Rattle.tl_show.specs.inner.Keyed.{keyed_slot};

use crate::keyed::{KeyedField, KeyedSchema};
use crate::plain::{plain_of, text_of};
use crate::reading::value_of;
use crate::records::{is_record, record_value};
use crate::tokens::{GivenUp, add_member, add_members, members_of, whole_in};
use json::{Reader, Token};
use serde_json::Map;
use std::alloc::{AllocError, Global};
use tl_schema::TypeRef;
use tl_types::{Value, arguments_of, close, is_absent};

/// A value of a type, with lists and objects nested no deeper than the number.
#[cycle(direct)]
pub fn value_in(
    alloc: Global,
    tokens: &mut Reader<'_>,
    depth: usize,
    schema: &KeyedSchema<'_>,
    of: &TypeRef,
) -> Result<Value, GivenUp>
    ensures value { IfOk result (λ v. BeginsWith schema.now.decls (shape of.now) depth tokens.old tokens.new (view v)) }
    ensures shorter { OnOk result (length tokens.new < length tokens.old) }
{
    let token = tokens.next().ok_or(GivenUp)?;
    match token {
        Token::Number(text) => number_in(text, of),
        Token::String(text) => text_in(alloc, text, of),
        Token::Bool(b) => plain_in(alloc, &serde_json::Value::Bool(b), of),
        Token::BeginArray => list_in(alloc, tokens, depth, schema, of),
        Token::BeginObject => object_in(alloc, tokens, depth, schema, of),
        Token::EndObject | Token::EndArray | Token::Key(_) | Token::Null | Token::Bad => {
            Err(GivenUp)
        }
    }
}

// The value that a number is.
fn number_in(text: &str, of: &TypeRef) -> Result<Value, GivenUp>
    ensures { IfOk result (λ v. (d : Data) × (option_map number (number_of text.now) ≡ Some d) × (plain (shape of.now) d ≡ Ok (view v))) }
{
    let whole = whole_in(text).ok_or(GivenUp)?;
    whole_value(whole, of).ok_or(GivenUp)
}

// The value of a type that a whole number is.
#[inline(always)]
fn whole_value(whole: i64, of: &TypeRef) -> Option<Value>
    ensures { IfSome result (λ v. (m : Num) → as_integer m ≡ Some whole → plain (shape of.now) (number m) ≡ Ok (view v)) }
{
    match of {
        TypeRef::Int => match i32::try_from(whole) {
            Ok(number) => Some(Value::Int(number)),
            Err(_) => None,
        },
        TypeRef::Long => Some(Value::Long(whole)),
        TypeRef::Nat => match u32::try_from(whole) {
            Ok(number) => Some(Value::Nat(number)),
            Err(_) => None,
        },
        _ => None,
    }
}

// The value that a text is.
fn text_in(alloc: Global, text: &str, of: &TypeRef) -> Result<Value, GivenUp>
    ensures { IfOk result (λ v. plain (shape of.now) (string text.now) ≡ Ok (view v)) }
{
    let value = text_of(alloc, text, of)?;
    Ok(value)
}

// The value without parts that the JSON is.
fn plain_in(alloc: Global, json: &serde_json::Value, of: &TypeRef) -> Result<Value, GivenUp>
    ensures { IfOk result (λ v. plain (shape of.now) (data_of json.now) ≡ Ok (view v)) }
{
    let value = plain_of(alloc, json, of)?;
    Ok(value)
}

// A list, after its bracket.
#[cycle(direct)]
fn list_in(
    alloc: Global,
    tokens: &mut Reader<'_>,
    depth: usize,
    schema: &KeyedSchema<'_>,
    of: &TypeRef,
) -> Result<Value, GivenUp>
    ensures value { IfOk result (λ v. BeginsWith schema.now.decls (shape of.now) depth (token.begin_array ∷ tokens.old) tokens.new (view v)) }
    ensures shorter { OnOk result (length tokens.new < length tokens.old) }
{
    let TypeRef::Vector { item, .. } = of else {
        return Err(GivenUp);
    };
    if depth == 0 {
        return Err(GivenUp);
    }
    let values = elements_in(alloc, tokens, depth - 1, schema, item)?;
    Ok(Value::List(values))
}

// The elements of a list, after its bracket.
#[cycle(direct)]
fn elements_in(
    alloc: Global,
    tokens: &mut Reader<'_>,
    depth: usize,
    schema: &KeyedSchema<'_>,
    of: &TypeRef,
) -> Result<Vec<Value>, GivenUp>
    ensures elements { IfOk result (λ vs. (is : Items) × (converted of_items (items (value depth) (length tokens.old) tokens.old) ≡ Some (is, tokens.new))
        × (each_element 0 (shape of.now) [] (readers schema.now.decls is) ≡ Ok (map view vs.items))) }
    ensures shorter { OnOk result (length tokens.new < length tokens.old) }
{
    let mut values = Vec::new(alloc);
    'elements: while !tokens.take_end_array() {
        let value = value_in(alloc, tokens, depth, schema, of)?;
        values.push(value)?;
    }
    Ok(values)
}

// An object, after its brace: a record, a call, or the bytes of a string.
#[cycle(direct)]
fn object_in(
    alloc: Global,
    tokens: &mut Reader<'_>,
    depth: usize,
    schema: &KeyedSchema<'_>,
    of: &TypeRef,
) -> Result<Value, GivenUp>
    ensures value { IfOk result (λ v. BeginsWith schema.now.decls (shape of.now) depth (token.begin_object ∷ tokens.old) tokens.new (view v)) }
    ensures shorter { OnOk result (length tokens.new < length tokens.old) }
{
    if depth == 0 {
        return Err(GivenUp);
    }
    if is_record(of) {
        return record_in(alloc, tokens, depth - 1, schema, of);
    }
    let members = members_of(alloc, tokens, depth - 1)?;
    plain_in(alloc, &serde_json::Value::Object(members), of)
}

// A record or a call, after its brace. Its name comes first in most.
#[cycle(direct)]
fn record_in(
    alloc: Global,
    tokens: &mut Reader<'_>,
    depth: usize,
    schema: &KeyedSchema<'_>,
    of: &TypeRef,
) -> Result<Value, GivenUp>
    requires { is_record (shape of.now) ≡ true }
    ensures record { IfOk result (λ v. HoldsRecord schema.now.decls (shape of.now) depth (length tokens.old) tokens.old tokens.new (view v)) }
    ensures shorter { OnOk result (length tokens.new < length tokens.old) }
{
    match tokens.next_key()? {
        Some(key) => {
            if key == "_" {
                named_in(alloc, tokens, depth, schema, of)
            } else {
                other_in(alloc, tokens, depth, schema, of, key)
            }
        }
        None => Err(GivenUp),
    }
}

// A record or a call, after the key of its name.
#[cycle(direct)]
fn named_in(
    alloc: Global,
    tokens: &mut Reader<'_>,
    depth: usize,
    schema: &KeyedSchema<'_>,
    of: &TypeRef,
) -> Result<Value, GivenUp>
    ensures record { IfOk result (λ v. HoldsAfter schema.now.decls (shape of.now) depth (codes "_") tokens.old tokens.new (view v)) }
    ensures shorter { OnOk result (length tokens.new < length tokens.old) }
{
    let Some(Token::String(name)) = tokens.next() else {
        return Err(GivenUp);
    };
    let Some(entry) = schema.named(of, name) else {
        return Err(GivenUp);
    };
    if !schema.has_apart_keys(entry) {
        return Err(GivenUp);
    }
    let applied = AppliedFields {
        fields: schema.fields(entry),
        args: arguments_of(of),
    };
    let values = fields_in(alloc, tokens, depth, schema, applied)?;
    if lacks_field(applied.fields, &values) {
        return Err(GivenUp);
    }
    Ok(record_value(of, entry, values))
}

// The fields of a record, and what its type is applied to.
#[derive(Clone, Copy)]
struct AppliedFields<'a> {
    fields: &'a [KeyedField],
    args: &'a [TypeRef],
}

// The values of a record's fields, after its name. A field without a key isn't there.
#[cycle(direct)]
fn fields_in(
    alloc: Global,
    tokens: &mut Reader<'_>,
    depth: usize,
    schema: &KeyedSchema<'_>,
    applied: AppliedFields<'_>,
) -> Result<Vec<Value>, GivenUp>
    requires { AreApart (record_keys (map keyed_slot applied.fields.now)) }
    ensures fields { IfOk result (λ vs. (name : List ℕ) (n : ℕ) → length tokens.old ≤ n → (ms : Members) × GoesOnTo depth n tokens.old (member (codes "_") (string name) no_members) tokens.new ms
        × HasFields schema.now.decls (map shape applied.entry.args.now) applied.entry.fields.now name ms vs.items) }
    ensures shorter { OnOk result (length tokens.new < length tokens.old) }
{
    let mut values = none_there(alloc, applied.fields.len())?;
    let mut next = 0usize;
    'fields: while let Some(key) = tokens.next_key()? {
        let Some(i) = field_at(key, applied.fields, next) else {
            return Err(GivenUp);
        };
        let field = &applied.fields[i].field;
        let value = closed_in(alloc, tokens, depth, schema, &field.of, applied.args)?;
        values[i] = value;
        next = i + 1;
    }
    Ok(values)
}

// So many fields that aren't there.
fn none_there(alloc: Global, count: usize) -> Result<Vec<Value>, AllocError>
    ensures { IfOk result (λ vs. map view vs.items ≡ replicate count absent) }
{
    let mut values = Vec::with_capacity(alloc, count)?;
    for i in 0..count {
        values.push(Value::Absent)?;
    }
    Ok(values)
}

// The index of the field with a key. It is looked for at an index and after that, and then before.
#[inline(always)]
fn field_at(key: &str, fields: &[KeyedField], first: usize) -> Option<usize>
    ensures { IfSome result (λ i. IsSomeAnd (slice_get fields.now i) (λ f. string_bytes f.key ≡ key.now)) }
{
    if first < fields.len() && key == fields[first].key.as_str() {
        return Some(first);
    }
    match field_from(key, fields, first) {
        Some(i) => Some(i),
        None => field_from(key, fields, 0),
    }
}

// The first index of the field with a key, from an index on.
fn field_from(key: &str, fields: &[KeyedField], first: usize) -> Option<usize>
    ensures { IfSome result (λ i. IsSomeAnd (slice_get fields.now i) (λ f. string_bytes f.key ≡ key.now)) }
{
    for i in first..fields.len() {
        if key == fields[i].key.as_str() {
            return Some(i);
        }
    }
    None
}

// Whether a field isn't there that has no condition.
fn lacks_field(fields: &[KeyedField], values: &[Value]) -> bool
    ensures { result ≡ lacks_any fields.now values.now }
{
    for (field, value) in fields.iter().zip(values.iter()) {
        if lacks(field, value) {
            return true;
        }
    }
    false
}

fn lacks(field: &KeyedField, value: &Value) -> bool
    ensures { result ≡ lacks field.now value.now }
{
    is_absent(value) && field.field.cond.is_none()
}

// A value of a field's type, which is closed where the declaration has variables.
#[cycle(direct)]
fn closed_in(
    alloc: Global,
    tokens: &mut Reader<'_>,
    depth: usize,
    schema: &KeyedSchema<'_>,
    of: &TypeRef,
    args: &[TypeRef],
) -> Result<Value, GivenUp>
    ensures value { IfOk result (λ v. BeginsWith schema.now.decls (closed (map shape args.now) (shape of.now)) depth tokens.old tokens.new (view v)) }
    ensures shorter { OnOk result (length tokens.new < length tokens.old) }
{
    if args.is_empty() {
        return value_in(alloc, tokens, depth, schema, of);
    }
    let closed = close(of, args, alloc)?;
    value_in(alloc, tokens, depth, schema, &closed)
}

// A record or a call that has another key first: a tree of it is made.
fn other_in(
    alloc: Global,
    tokens: &mut Reader<'_>,
    depth: usize,
    schema: &KeyedSchema<'_>,
    of: &TypeRef,
    key: &str,
) -> Result<Value, GivenUp>
    requires { is_record (shape of.now) ≡ true }
    ensures record { IfOk result (λ v. HoldsAfter schema.now.decls (shape of.now) depth key.now tokens.old tokens.new (view v)) }
    ensures shorter { OnOk result (length tokens.new < length tokens.old) }
{
    let mut members = Map::new(alloc);
    add_member(alloc, tokens, depth, key, &mut members)?;
    add_members(alloc, tokens, depth, &mut members)?;
    let value = value_of(alloc, &serde_json::Value::Object(members), schema, of)?;
    Ok(value)
}
