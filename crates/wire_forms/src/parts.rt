//! What stands in a value of a form, and in its fields.
ghost use Rattle.std.specs.Prelude.{◌≡◌};
ghost use Rattle.tl_types.specs.Seen.{view, views};
ghost use Rattle.tl_types.specs.Values.{count};
ghost use Rattle.wire_forms.specs.Parts as parts;
ghost use Rattle.wire_forms.specs.Parts.{at, word_of};

use crate::numbers::NO_FORM;
use tl_types::Value;

/// The number of the form of a record or call.
pub fn entry_of(value: &Value) -> u32
    ensures { result ≡ parts.entry_of (view value.now) }
{
    match value {
        Value::Node { entry, .. } => *entry,
        Value::Call { entry, .. } => *entry,
        _ => NO_FORM,
    }
}

/// The elements of a list, the fields of a record or call.
pub fn parts_of(value: &Value) -> &[Value]
    ensures { views result.now ≡ parts.parts_of (view value.now) }
{
    match value {
        Value::List(items) => items.as_slice(),
        Value::Node { fields, .. } => fields.as_slice(),
        Value::Call { fields, .. } => fields.as_slice(),
        _ => &[],
    }
}

pub fn int_of(value: &Value) -> i32
    ensures { result ≡ parts.int_of (view value.now) }
{
    match value {
        Value::Int(n) => *n,
        _ => 0,
    }
}

pub fn entry_in(fields: &[Value], index: usize) -> u32
    ensures { result ≡ parts.entry_of (at index (views fields.now)) }
{
    match fields.get(index) {
        Some(value) => entry_of(value),
        None => NO_FORM,
    }
}

pub fn parts_in(fields: &[Value], index: usize) -> &[Value]
    ensures { views result.now ≡ parts.parts_of (at index (views fields.now)) }
{
    match fields.get(index) {
        Some(value) => parts_of(value),
        None => &[],
    }
}

/// How many elements stand in a list.
pub fn count_in(fields: &[Value], index: usize) -> usize
    ensures { result ≡ count (parts.parts_of (at index (views fields.now))) }
{
    parts_in(fields, index).len()
}

pub fn int_in(fields: &[Value], index: usize) -> i32
    ensures { result ≡ parts.int_of (at index (views fields.now)) }
{
    match fields.get(index) {
        Some(value) => int_of(value),
        None => 0,
    }
}

/// An int, read as 32 bits without a sign.
pub fn word_in(fields: &[Value], index: usize) -> u32
    ensures { result ≡ word_of (at index (views fields.now)) }
{
    match fields.get(index) {
        Some(value) => int_of(value).cast_unsigned(),
        None => 0,
    }
}
