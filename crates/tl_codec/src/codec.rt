//! A schema that is kept for many values.
use crate::line::line_of;
use crate::naming::{planned_type, push_type};
use crate::spelling::bytes_of;
use codec_commands::listing;
use outside::LoadError;
use schema_files::schema_of;
use std::alloc::{AllocError, Global};
use std::marker::Model;
use tl_schema::{Schema, TypeRef};
use tl_show::{JsonForms, JsonKeys};

/// A schema, what is made of it once, and the types that were asked for, by their numbers. It owns all of this.
pub struct Codec {
    schema: Schema,
    forms: JsonForms,
    keys: JsonKeys,
    types: Vec<TypeRef>,
}

// By hand, so that each exit of an owner has one call to prove.
impl Drop for Codec {
    fn drop(self) {
        let Codec {
            schema: _,
            forms: _,
            keys: _,
            types: _,
        } = self;
    }
}

impl Model for Codec {
    ghost use Rattle.std.specs.Prelude.{List, map};
    ghost use Rattle.std.specs.Coded.{coded×, coded_list};
    ghost use Rattle.tl_schema.specs.Schemas.{Declared};
    ghost use Rattle.tl_schema.specs.Seen.{shape};
    ghost use Rattle.tl_schema.specs.Types.{Shape};
    ghost use Rattle.tl_schema.specs.inner.SchemaCodes.{declared_code};
    ghost use Rattle.tl_plan.specs.inner.PlanCodes.{shape_code};
    ghost use Rattle.tl_codec.specs.inner.Kept.{IsKept};

    ghost Value = { Declared × List Shape };

    ghost coded = { coded× declared_code (coded_list shape_code) };

    ghost view = { λ c. (c.schema, map shape c.types.items) };

    ghost invariant = { λ c. IsKept c.schema c.forms c.keys (map shape c.types.items) };
}

impl Codec {
    ghost use Rattle.std.specs.Prelude.{◌≡◌, ◌<◌, [], IfOk, length};
    ghost use Rattle.codec_commands.specs.Check.{listing};
    ghost use Rattle.tl_codec.specs.Codings.{Decodes, Encodes};
    ghost use Rattle.tl_codec.specs.Typings.{Adds, OfType, Opens};

    /// The codec of the schema that a text spells.
    pub fn open(alloc: Global, text: &[u8]) -> Result<Codec, LoadError>
        ensures { Opens text.now result }
    {
        let schema = schema_of(alloc, "schema", text)?;
        match Codec::of(alloc, schema) {
            Ok(codec) => Ok(codec),
            Err(_) => Err(LoadError::Memory),
        }
    }

    // The codec of a schema, with no types yet.
    fn of(alloc: Global, schema: Schema) -> Result<Codec, AllocError>
        ensures { IfOk result (λ codec. codec ≡ (schema, [])) }
    {
        let forms = JsonForms::of(alloc, &schema)?;
        let keys = JsonKeys::of(alloc, &schema)?;
        Ok(Codec {
            schema,
            forms,
            keys,
            types: Vec::new(alloc),
        })
    }

    /// The list of the schema's declarations: a line for each, with its number and its name, and how many there are.
    pub fn check(&self, alloc: Global) -> Result<Vec<u8>, AllocError>
        ensures { IfOk result (λ text. text.items ≡ listing self.now.0.decls) }
    {
        listing(alloc, &self.schema)
    }

    /// The number of types that were asked for.
    pub fn types(&self) -> usize
        ensures { result ≡ length self.now.1 }
    {
        self.types.len()
    }

    /// Keeps a type, and gives its number: the first is 0. The same type may be asked for again, and has another number then.
    pub fn add_type(&mut self, alloc: Global, name: &[u8]) -> Result<u32, LoadError>
        ensures adds { Adds self.old.0 name.now self.old.1 self.new.1 result }
        ensures schema { self.new.0 ≡ self.old.0 }
    {
        let of = planned_type(alloc, &self.schema, name)?;
        push_type(&mut self.types, of)
    }

    /// The line of the value of a type that all of the bytes spell.
    pub fn decode(&self, alloc: Global, of: u32, bytes: &[u8]) -> Result<Vec<u8>, LoadError>
        requires known { of < length self.now.1 }
        ensures { OfType Decodes self.now.0 self.now.1 of bytes.now result }
    {
        let of = &self.types[of as usize];
        line_of(alloc, &self.schema, &self.forms, of, bytes)
    }

    /// The spelling of the value of a type that the text is the JSON of.
    pub fn encode(&self, alloc: Global, of: u32, text: &[u8]) -> Result<Vec<u8>, LoadError>
        requires known { of < length self.now.1 }
        ensures { OfType Encodes self.now.0 self.now.1 of text.now result }
    {
        let of = &self.types[of as usize];
        bytes_of(alloc, &self.schema, &self.keys, of, text)
    }
}
