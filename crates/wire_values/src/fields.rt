//! The fields of records and calls, and the elements of lists, taken from the first on: what stands in them is moved, never copied.
ghost use Rattle.std.specs.Prelude.{◌≡◌};
ghost use Rattle.tl_types.specs.Conditions as conditions;
ghost use Rattle.tl_types.specs.Seen.{view};
ghost use Rattle.wire_forms.specs.Parts as parts;
ghost use Rattle.wire_forms.specs.Parts.{first, rest};
ghost use Rattle.wire_values.specs.Coming.{coming};

use std::alloc::Global;
use std::mem::replace;
use std::vec::IntoIter;
use tl_base::Bytes;
use tl_types::Value;
use wire_forms::int_of;
use wire_forms::numbers::NO_FORM;

/// The fields, or elements, that are still to come.
pub type Fields = IntoIter<Value>;

/// The number of the form of a record or call, and its fields; of a list the elements.
pub fn opened(alloc: Global, mut value: Value) -> (u32, Fields)
    ensures form { result.0 ≡ parts.entry_of (view value) }
    ensures fields { coming result.1 ≡ parts.parts_of (view value) }
{
    let none = Vec::new(alloc);
    match &mut value {
        Value::List(items) => (NO_FORM, replace(items, none).into_iter()),
        Value::Node { entry, fields } => (*entry, replace(fields, none).into_iter()),
        Value::Call { entry, fields } => (*entry, replace(fields, none).into_iter()),
        _ => (NO_FORM, none.into_iter()),
    }
}

/// The next field's value; past the last one nothing is there.
pub fn next_value(fields: &mut Fields) -> Value
    ensures value { view result ≡ first (coming fields.old) }
    ensures left { coming fields.new ≡ rest (coming fields.old) }
{
    match fields.next() {
        Some(value) => value,
        None => Value::Absent,
    }
}

/// Leaves a field out.
pub fn skip(fields: &mut Fields)
    ensures { coming fields.new ≡ rest (coming fields.old) }
{
    next_value(fields);
}

/// The record or call in the next field, or a list.
pub fn next_opened(alloc: Global, fields: &mut Fields) -> (u32, Fields)
    ensures form { result.0 ≡ parts.entry_of (first (coming fields.old)) }
    ensures fields { coming result.1 ≡ parts.parts_of (first (coming fields.old)) }
    ensures left { coming fields.new ≡ rest (coming fields.old) }
{
    opened(alloc, next_value(fields))
}

/// The fields of the record in the next field, or a list's elements.
pub fn next_parts(alloc: Global, fields: &mut Fields) -> Fields
    ensures fields { coming result ≡ parts.parts_of (first (coming fields.old)) }
    ensures left { coming fields.new ≡ rest (coming fields.old) }
{
    next_opened(alloc, fields).1
}

/// The bytes of a string or of bytes.
pub fn text_of(alloc: Global, mut value: Value) -> Bytes
    ensures { result ≡ parts.text_of (view value) }
{
    let none = Bytes::new(alloc);
    match &mut value {
        Value::Text(text) => replace(text, none),
        _ => none,
    }
}

/// The bytes in the next field.
pub fn next_text(alloc: Global, fields: &mut Fields) -> Bytes
    ensures text { result ≡ parts.text_of (first (coming fields.old)) }
    ensures left { coming fields.new ≡ rest (coming fields.old) }
{
    text_of(alloc, next_value(fields))
}

pub fn next_int(fields: &mut Fields) -> i32
    ensures int { result ≡ parts.int_of (first (coming fields.old)) }
    ensures left { coming fields.new ≡ rest (coming fields.old) }
{
    int_of(&next_value(fields))
}

/// An int, read as 32 bits without a sign.
pub fn next_word(fields: &mut Fields) -> u32
    ensures word { result ≡ parts.word_of (first (coming fields.old)) }
    ensures left { coming fields.new ≡ rest (coming fields.old) }
{
    next_int(fields).cast_unsigned()
}

pub fn next_long(fields: &mut Fields) -> i64
    ensures long { result ≡ parts.long_of (first (coming fields.old)) }
    ensures left { coming fields.new ≡ rest (coming fields.old) }
{
    match &next_value(fields) {
        Value::Long(n) => *n,
        _ => 0,
    }
}

/// The bits of a `#` field.
pub fn next_bits(fields: &mut Fields) -> u32
    ensures bits { result ≡ conditions.bits_of (first (coming fields.old)) }
    ensures left { coming fields.new ≡ rest (coming fields.old) }
{
    match &next_value(fields) {
        Value::Nat(bits) => *bits,
        _ => 0,
    }
}
