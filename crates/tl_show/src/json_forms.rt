//! How the records of a schema are written, made once.
ghost use Rattle.std.specs.Prelude.{◌≡◌, IfOk};
ghost use Rattle.serde_json.specs.Written.{compact_text};
ghost use Rattle.tl_schema.specs.Schemas.{Declared};
ghost use Rattle.tl_schema.specs.Seen.{shape};
ghost use Rattle.tl_types.specs.Seen.{view};
ghost use Rattle.tl_show.specs.Shown.{shown};
ghost use Rattle.tl_show.specs.inner.Kept.{AreFormsOf};

use crate::form::JsonForm;
use crate::forms::forms_of;
use crate::held::HeldText;
use crate::sink::TextSink;
use crate::writing::write_value;
use std::alloc::{AllocError, Global};
use tl_schema::{Schema, TypeRef};
use tl_types::Value;

/// How the records of a schema are written, for what owns this beside the schema. `JsonPrinter` has both.
pub struct JsonForms {
    forms: Vec<JsonForm>,
}

// By hand, so that each exit of an owner has one call to prove.
impl Drop for JsonForms {
    fn drop(self) {
        let JsonForms { forms: _ } = self;
    }
}

impl JsonForms {
    /// The forms of a schema's declarations.
    pub fn of(alloc: Global, schema: &Schema) -> Result<JsonForms, AllocError>
        ensures { IfOk result (λ made. AreFormsOf schema.now made) }
    {
        let forms = forms_of(alloc, schema)?;
        Ok(JsonForms { forms })
    }

    /// The text of the value's JSON, without white space: that of what `show` gives for the schema of the forms. No tree is made.
    pub fn text(&self, alloc: Global, of: &TypeRef, value: &Value) -> Result<Vec<u8>, AllocError>
        ensures text { (schema : Declared) → AreFormsOf schema self.now → IfOk result (λ bytes. bytes.items ≡ compact_text (shown schema.decls (shape of.now) (view value.now))) }
    {
        let mut text = HeldText::new(alloc);
        self.write(of, value, &mut text);
        text.into_bytes()
    }

    /// Puts that text, piece by piece as it is made. No memory is taken.
    pub fn write<S: TextSink>(&self, of: &TypeRef, value: &Value, out: &mut S)
        ensures text { (schema : Declared) → AreFormsOf schema self.now → S.puts out.old out.new (compact_text (shown schema.decls (shape of.now) (view value.now))) }
    {
        write_value(value, of, None, &self.forms, out);
    }
}
