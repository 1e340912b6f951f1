//! Whether a value fits a type with this outermost part, its own parts aside.
ghost use Rattle.std.specs.Prelude.{◌≡◌, ◌^◌, IsTrue, nat_lt, slice_get};
ghost use Rattle.tl_schema.specs.Forms.{outermost};
ghost use Rattle.tl_types.specs.Fitting.{constructs, has_constructor, has_count, has_flag, has_kind, has_level, has_width, is_called, is_constructor, is_deep_value, is_in_range, is_kind, is_signed, node_misfit};
ghost use Rattle.tl_types.specs.Seen.{view};
ghost use Rattle.tl_types.specs.inner.Plain.{IsPlain};

use crate::misfit::MisfitCause;
use crate::parts::{is_absent, slots_of};
use crate::value::Value;
use tl_schema::{Schema, TypeForm};

/// The first cause that the value has, its own parts aside: of a type of this form, with so many levels left, where it stands by this bit or by none.
#[inline(always)]
pub fn node_misfit(
    value: &Value,
    schema: &Schema,
    levels: u32,
    bit: Option<bool>,
    form: TypeForm,
) -> Option<MisfitCause>
    ensures { result ≡ node_misfit schema.now.decls levels bit (outermost form) (view value.now) }
{
    if bit.is_none() && is_plain(value, form) && is_in_range(value) {
        return None;
    }
    if !has_kind(value, bit, form) {
        Some(MisfitCause::WrongKind)
    } else if !has_constructor(value, schema, form) {
        Some(MisfitCause::WrongConstructor)
    } else if !has_count(value, schema, form) {
        Some(MisfitCause::WrongCount)
    } else if !has_flag(value, bit) {
        Some(MisfitCause::FlagMismatch)
    } else if !is_in_range(value) {
        Some(MisfitCause::OutOfRange)
    } else if !has_level(value, levels) {
        Some(MisfitCause::TooDeep)
    } else {
        None
    }
}

// Whether the value is a number or a string, as the form is: most are, and fit where they are in range.
#[inline(always)]
fn is_plain(value: &Value, form: TypeForm) -> bool
    ensures { IsTrue result → IsPlain (outermost form) (view value.now) }
{
    match (form, value) {
        (TypeForm::Int, Value::Int(_)) => true,
        (TypeForm::Long, Value::Long(_)) => true,
        (TypeForm::Nat, Value::Nat(_)) => true,
        (TypeForm::Str, Value::Text(_)) => true,
        (TypeForm::Raw, Value::Text(_)) => true,
        _ => false,
    }
}

// Whether the value is of the form's kind, or isn't there and stands by a bit.
fn has_kind(value: &Value, bit: Option<bool>, form: TypeForm) -> bool
    ensures { result ≡ has_kind bit (outermost form) (view value.now) }
{
    is_kind(value, form) || (bit.is_some() && is_absent(value))
}

// Whether the value is of the form's kind.
fn is_kind(value: &Value, form: TypeForm) -> bool
    ensures { result ≡ is_kind (outermost form) (view value.now) }
{
    match form {
        TypeForm::Int => matches!(value, Value::Int(_)),
        TypeForm::Long => matches!(value, Value::Long(_)),
        TypeForm::Nat => matches!(value, Value::Nat(_)),
        TypeForm::Double => matches!(value, Value::Opaque(_)),
        TypeForm::Int128 => matches!(value, Value::Opaque(_)),
        TypeForm::Int256 => matches!(value, Value::Opaque(_)),
        TypeForm::Str => matches!(value, Value::Text(_)),
        TypeForm::Raw => matches!(value, Value::Text(_)),
        TypeForm::Flag => matches!(value, Value::Truth),
        TypeForm::Call => matches!(value, Value::Call { .. }),
        TypeForm::Var { .. } => false,
        TypeForm::Vector { .. } => matches!(value, Value::List(_)),
        TypeForm::Boxed { .. } => matches!(value, Value::Node { .. }),
        TypeForm::Bare { .. } => matches!(value, Value::Node { .. }),
    }
}

// Whether a record is of a constructor of the type, and a call of a function.
fn has_constructor(value: &Value, schema: &Schema, form: TypeForm) -> bool
    ensures { result ≡ has_constructor schema.now.decls (outermost form) (view value.now) }
{
    match value {
        Value::Node { entry, .. } => is_constructor(schema, form, *entry),
        Value::Call { entry, .. } => is_called(schema, *entry),
        _ => true,
    }
}

// Whether the declaration is a constructor of the type, if this has any.
fn is_constructor(schema: &Schema, form: TypeForm, entry: u32) -> bool
    ensures { result ≡ is_constructor schema.now.decls (outermost form) entry }
{
    match form {
        TypeForm::Boxed { head } => constructs(schema, head, entry),
        TypeForm::Bare { entry: own } => entry == own,
        _ => true,
    }
}

// Whether the declaration is there and constructs the type with this number.
fn constructs(schema: &Schema, head: u32, entry: u32) -> bool
    ensures { result ≡ constructs head (slice_get schema.now.decls entry) }
{
    entry < schema.count() && schema.entry(entry).head == head
}

/// Whether the declaration is there and is a function.
pub fn is_called(schema: &Schema, entry: u32) -> bool
    ensures { result ≡ is_called (slice_get schema.now.decls entry) }
{
    entry < schema.count() && schema.entry(entry).function
}

// Whether an opaque value has as many bytes as its type, and a record or call as many values as its declaration has fields.
fn has_count(value: &Value, schema: &Schema, form: TypeForm) -> bool
    ensures { result ≡ has_count schema.now.decls (outermost form) (view value.now) }
{
    match value {
        Value::Opaque(bytes) => has_width(form, bytes.len()),
        Value::Node { entry, fields } => fields.len() == slots_of(schema, *entry).len(),
        Value::Call { entry, fields } => fields.len() == slots_of(schema, *entry).len(),
        _ => true,
    }
}

// Whether the type has so many bytes, if its values are opaque.
fn has_width(form: TypeForm, count: usize) -> bool
    ensures { result ≡ has_width (outermost form) count }
{
    match form {
        TypeForm::Double => count == 8,
        TypeForm::Int128 => count == 16,
        TypeForm::Int256 => count == 32,
        _ => true,
    }
}

// Whether a value that stands by a bit is there exactly where it is set.
fn has_flag(value: &Value, bit: Option<bool>) -> bool
    ensures { result ≡ has_flag bit (view value.now) }
{
    match bit {
        None => true,
        Some(true) => !is_absent(value),
        Some(false) => is_absent(value),
    }
}

// Whether a number is in range, and a string or a list short enough.
fn is_in_range(value: &Value) -> bool
    ensures { result ≡ is_in_range (view value.now) }
{
    match value {
        Value::Int(number) => is_int(*number),
        Value::Long(number) => is_long(*number),
        Value::Nat(number) => is_nat(*number),
        Value::Text(bytes) => bytes.len() < 0x0100_0000,
        Value::List(items) => items.len() < 0x8000_0000,
        _ => true,
    }
}

// Each number of 32 bits is in range.
fn is_int(_number: i32) -> bool
    ensures { result ≡ is_signed (2 ^ 31) _number }
{
    true
}

// Each number of 64 bits is in range.
fn is_long(_number: i64) -> bool
    ensures { result ≡ is_signed (2 ^ 63) _number }
{
    true
}

// Each unsigned number of 32 bits is in range.
fn is_nat(_number: u32) -> bool
    ensures { result ≡ nat_lt _number (2 ^ 32) }
{
    true
}

// Whether there is a level for the value, with so many left.
fn has_level(value: &Value, levels: u32) -> bool
    ensures { result ≡ has_level levels (view value.now) }
{
    levels > 0 || !is_deep(value)
}

// Whether the value is a list, a record or a call.
fn is_deep(value: &Value) -> bool
    ensures { result ≡ is_deep_value (view value.now) }
{
    matches!(
        value,
        Value::List(_) | Value::Node { .. } | Value::Call { .. }
    )
}
