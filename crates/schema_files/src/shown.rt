//! Lines of values.
ghost use Rattle.std.specs.Prelude.{◌≡◌, IfOk};
ghost use Rattle.tl_schema.specs.Schemas.{Declared};
ghost use Rattle.tl_schema.specs.Seen.{shape};
ghost use Rattle.tl_types.specs.Seen.{view};
ghost use Rattle.tl_show.specs.inner.Kept.{AreFormsOf};
ghost use Rattle.schema_files.specs.Lines.{line_text};

use std::alloc::{AllocError, Global};
use tl_schema::{Schema, TypeRef};
use tl_show::{JsonForms, JsonPrinter, TextSink};
use tl_types::Value;

/// The line of a value of a type by the printer of its schema: its JSON, and a line feed.
pub fn printed_line(
    alloc: Global,
    printer: &JsonPrinter<'_>,
    of: &TypeRef,
    value: &Value,
) -> Result<Vec<u8>, AllocError>
    ensures { IfOk result (λ line. line.items ≡ line_text printer.now.schema.now.decls (shape of.now) (view value.now)) }
{
    let mut line = printer.text(alloc, of, value)?;
    line.push(b'\n')?;
    Ok(line)
}

/// The line of a value of a type by the forms that were made of its schema.
pub fn line_by(
    alloc: Global,
    forms: &JsonForms,
    of: &TypeRef,
    value: &Value,
) -> Result<Vec<u8>, AllocError>
    ensures { (schema : Declared) → AreFormsOf schema forms.now → IfOk result (λ line. line.items ≡ line_text schema.decls (shape of.now) (view value.now)) }
{
    let mut line = forms.text(alloc, of, value)?;
    line.push(b'\n')?;
    Ok(line)
}

/// The line of one value of a type, likewise.
pub fn value_line(
    alloc: Global,
    schema: &Schema,
    of: &TypeRef,
    value: &Value,
) -> Result<Vec<u8>, AllocError>
    ensures { IfOk result (λ line. line.items ≡ line_text schema.now.decls (shape of.now) (view value.now)) }
{
    let printer = JsonPrinter::new(alloc, schema)?;
    printed_line(alloc, &printer, of, value)
}

/// Puts the line of a value of a type by the printer of its schema, piece by piece as it is made. No memory is taken.
pub fn put_line<S: TextSink>(printer: &JsonPrinter<'_>, of: &TypeRef, value: &Value, out: &mut S)
    ensures { S.puts out.old out.new (line_text printer.now.schema.now.decls (shape of.now) (view value.now)) }
{
    printer.write(of, value, out);
    out.put(b"\n");
}
