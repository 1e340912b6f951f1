//! Values from the text of their JSON.
ghost use Rattle.tl_schema.specs.Seen.{shape};
ghost use Rattle.tl_show.specs.Texts.{TellsText};

use crate::fault::JsonTextFault;
use crate::json_keys::JsonKeys;
use std::alloc::{AllocError, Global};
use std::marker::Model;
use tl_schema::{Schema, TypeRef};
use tl_types::Value;

/// Reads values of a schema from JSON. The keys of its declarations are made once, so a reader is kept where many values are read.
pub struct JsonReader<'s> {
    schema: &'s Schema,
    keys: JsonKeys,
}

// By hand, so that each exit of an owner has one call to prove.
impl Drop for JsonReader<'_> {
    fn drop(self) {
        let JsonReader { schema: _, keys: _ } = self;
    }
}

impl<'s> Model for JsonReader<'s> {
    ghost use Rattle.tl_schema.specs.Schemas.{Declared};
    ghost use Rattle.tl_schema.specs.inner.SchemaCodes.{declared_code};
    ghost use Rattle.tl_show.specs.inner.Kept.{AreKeysOf};

    ghost Value = { Declared };

    ghost coded = { declared_code };

    ghost view = { λ r. r.schema.now };

    ghost invariant = { λ r. AreKeysOf r.schema.now r.keys };
}

impl<'s> JsonReader<'s> {
    ghost use Rattle.std.specs.Prelude.{◌≡◌, IfOk};
    ghost use Rattle.tl_schema.specs.Seen.{shape};
    ghost use Rattle.tl_show.specs.Texts.{TellsText};

    /// A reader of values of the schema.
    pub fn new(alloc: Global, schema: &'s Schema) -> Result<JsonReader<'s>, AllocError>
        ensures { IfOk result (λ reader. reader ≡ schema.now) }
    {
        let keys = JsonKeys::of(alloc, schema)?;
        Ok(JsonReader { schema, keys })
    }

    /// The schema whose values it reads.
    pub fn schema(&self) -> &Schema
        ensures { result.now ≡ self.now }
    {
        self.schema
    }

    /// The value that the text is the form of, as `JsonKeys::read` gives it.
    pub fn read(&self, alloc: Global, of: &TypeRef, text: &[u8]) -> Result<Value, JsonTextFault>
        ensures reads { TellsText self.now.decls (shape of.now) text.now result }
    {
        self.keys.read(alloc, self.schema, of, text)
    }
}

/// The value that one text is the form of, as `JsonReader::read` gives it.
pub fn read_text(
    alloc: Global,
    schema: &Schema,
    of: &TypeRef,
    text: &[u8],
) -> Result<Value, JsonTextFault>
    ensures reads { TellsText schema.now.decls (shape of.now) text.now result }
{
    match JsonKeys::of(alloc, schema) {
        Ok(keys) => keys.read(alloc, schema, of, text),
        Err(_) => Err(JsonTextFault::Memory),
    }
}
