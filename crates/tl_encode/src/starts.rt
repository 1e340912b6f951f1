//! What a value's spelling begins with, before its parts.
ghost use Rattle.std.specs.Prelude.{◌≡◌, ◌++◌, OnOk, length, true, slice_get};
ghost use Rattle.tl_types.specs.Fitting.{is_in_range};
ghost use Rattle.tl_types.specs.Seen.{view};
ghost use Rattle.tl_encode.specs.inner.Bytes.{list_prefix, number_bytes, record_prefix, start};
ghost use Rattle.tl_schema.specs.Forms.{outermost};

use crate::items::{put_double, put_vector_prefix, put_word};
use crate::texts::{put_text, text_len};
use std::alloc::AllocError;
use tl_plan::TypeForm;
use tl_schema::Schema;
use tl_types::Value;

/// Appends what comes before the parts of a value: of a value without parts, its spelling.
#[inline(always)]
pub fn put_start(
    value: &Value,
    schema: &Schema,
    form: TypeForm,
    out: &mut Vec<u8>,
) -> Result<(), AllocError>
    requires in_range { is_in_range (view value.now) ≡ true }
    ensures { OnOk result (out.new.items ≡ out.old.items ++ start schema.now.decls (outermost form) (view value.now)) }
{
    match value {
        Value::Int(number) => put_word(number.cast_unsigned(), out),
        Value::Long(number) => put_double(number.cast_unsigned(), out),
        Value::Nat(number) => put_word(*number, out),
        Value::Opaque(bytes) => {
            out.extend_from_slice(bytes.as_slice())?;
            Ok(())
        }
        Value::Text(bytes) => put_text(bytes.as_slice(), out),
        Value::Truth => Ok(()),
        Value::Absent => Ok(()),
        Value::List(items) => {
            put_list_prefix(form, out)?;
            put_word(items.len() as u32, out)
        }
        Value::Node { entry, .. } => put_record_prefix(schema, form, *entry, out),
        Value::Call { entry, .. } => put_number(schema, *entry, out),
    }
}

// Appends what comes before the count of a list.
fn put_list_prefix(form: TypeForm, out: &mut Vec<u8>) -> Result<(), AllocError>
    ensures { OnOk result (out.new.items ≡ out.old.items ++ list_prefix (outermost form)) }
{
    match form {
        TypeForm::Vector { boxed } => put_vector_prefix(boxed, out),
        _ => Ok(()),
    }
}

// Appends what comes before the fields of a record.
fn put_record_prefix(
    schema: &Schema,
    form: TypeForm,
    entry: u32,
    out: &mut Vec<u8>,
) -> Result<(), AllocError>
    ensures { OnOk result (out.new.items ≡ out.old.items ++ record_prefix schema.now.decls (outermost form) entry) }
{
    match form {
        TypeForm::Boxed { .. } => put_number(schema, entry, out),
        _ => Ok(()),
    }
}

// Appends the number of a declaration.
fn put_number(schema: &Schema, entry: u32, out: &mut Vec<u8>) -> Result<(), AllocError>
    ensures { OnOk result (out.new.items ≡ out.old.items ++ number_bytes (slice_get schema.now.decls entry)) }
{
    if entry >= schema.count() {
        return Ok(());
    }
    put_word(schema.entry(entry).number, out)
}

/// How many bytes come before the parts of a value.
pub fn start_len(value: &Value, schema: &Schema, form: TypeForm) -> u64
    requires in_range { is_in_range (view value.now) ≡ true }
    ensures { result ≡ length (start schema.now.decls (outermost form) (view value.now)) }
{
    match value {
        Value::Int(_) => 4,
        Value::Long(_) => 8,
        Value::Nat(_) => 4,
        Value::Opaque(bytes) => bytes.len() as u64,
        Value::Text(bytes) => text_len(bytes.as_slice()),
        Value::Truth => 0,
        Value::Absent => 0,
        Value::List(_) => list_prefix_len(form) + 4,
        Value::Node { entry, .. } => record_prefix_len(schema, form, *entry),
        Value::Call { entry, .. } => number_len(schema, *entry),
    }
}

// How many bytes come before the count of a list.
fn list_prefix_len(form: TypeForm) -> u64
    ensures { result ≡ length (list_prefix (outermost form)) }
{
    match form {
        TypeForm::Vector { boxed: true } => 4,
        _ => 0,
    }
}

// How many bytes come before the fields of a record.
fn record_prefix_len(schema: &Schema, form: TypeForm, entry: u32) -> u64
    ensures { result ≡ length (record_prefix schema.now.decls (outermost form) entry) }
{
    match form {
        TypeForm::Boxed { .. } => number_len(schema, entry),
        _ => 0,
    }
}

// How many bytes the number of a declaration has.
fn number_len(schema: &Schema, entry: u32) -> u64
    ensures { result ≡ length (number_bytes (slice_get schema.now.decls entry)) }
{
    if entry < schema.count() { 4 } else { 0 }
}
