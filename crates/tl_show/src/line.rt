//! Values as JSON text, written straight.
ghost use Rattle.std.proofs.Props.{props};
ghost use Rattle.std.specs.Prelude.{◌≡◌, IfOk, map};
ghost use Rattle.serde_json.specs.Written.{compact_text};
ghost use Rattle.tl_schema.specs.Seen.{shape};
ghost use Rattle.tl_types.specs.Seen.{view};
ghost use Rattle.tl_show.specs.Shown.{shown};
ghost use Rattle.tl_show.specs.inner.FormViews.{form_view};
ghost use Rattle.tl_show.specs.inner.Lines.{PrintAsShown};

use crate::json_forms::JsonForms;
use crate::sink::TextSink;
use std::alloc::{AllocError, Global};
use tl_schema::{Schema, TypeRef};
use tl_types::Value;

/// Prints values of a schema as JSON. The keys of its declarations are ordered once, so a printer is kept where many values are printed.
pub struct JsonPrinter<'s> {
    schema: &'s Schema,
    forms: JsonForms,
    ghost known: { PrintAsShown schema.now (map form_view forms.forms.items) } by { Prim.hlevel props },
}

// By hand, so that each exit of an owner has one call to prove.
impl Drop for JsonPrinter<'_> {
    fn drop(self) {
        let JsonPrinter {
            schema: _,
            forms: _,
        } = self;
    }
}

impl<'s> JsonPrinter<'s> {
    /// A printer of values of the schema.
    pub fn new(alloc: Global, schema: &'s Schema) -> Result<JsonPrinter<'s>, AllocError>
        ensures { IfOk result (λ printer. printer.schema.now ≡ schema.now) }
    {
        let forms = JsonForms::of(alloc, schema)?;
        Ok(JsonPrinter { schema, forms })
    }

    /// The schema whose values it prints.
    pub fn schema(&self) -> &Schema
        ensures { result.now ≡ self.now.schema.now }
    {
        self.schema
    }

    /// The text of the value's JSON, as `JsonForms::text` gives it.
    pub fn text(&self, alloc: Global, of: &TypeRef, value: &Value) -> Result<Vec<u8>, AllocError>
        ensures text { IfOk result (λ bytes. bytes.items ≡ compact_text (shown self.now.schema.now.decls (shape of.now) (view value.now))) }
    {
        self.forms.text(alloc, of, value)
    }

    /// Puts that text, piece by piece as it is made, as `JsonForms::write` does.
    pub fn write<S: TextSink>(&self, of: &TypeRef, value: &Value, out: &mut S)
        ensures text { S.puts out.old out.new (compact_text (shown self.now.schema.now.decls (shape of.now) (view value.now))) }
    {
        self.forms.write(of, value, out);
    }
}

/// The text of one value's JSON, as `JsonPrinter::text` gives it.
pub fn show_text(
    alloc: Global,
    schema: &Schema,
    of: &TypeRef,
    value: &Value,
) -> Result<Vec<u8>, AllocError>
    ensures text { IfOk result (λ bytes. bytes.items ≡ compact_text (shown schema.now.decls (shape of.now) (view value.now))) }
{
    JsonForms::of(alloc, schema)?.text(alloc, of, value)
}
