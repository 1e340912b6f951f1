//! The keys of a schema's records, made once, and values from texts by them.
ghost use Rattle.std.specs.Prelude.{IfOk};
ghost use Rattle.tl_schema.specs.Seen.{shape};
ghost use Rattle.tl_types.specs.Seen.{view};
ghost use Rattle.tl_show.specs.Texts.{IsFormOf, TellsText};
ghost use Rattle.tl_show.specs.inner.Kept.{AreKeysOf};

use crate::direct::value_in;
use crate::fault::JsonTextFault;
use crate::keyed::{KeyedEntry, KeyedSchema};
use crate::keying::keyed_entries;
use crate::reading::value_of;
use crate::tokens::GivenUp;
use json::{Reader, Scratch};
use simdutf8::compat;
use std::alloc::{AllocError, Global};
use tl_schema::{Schema, TypeRef};
use tl_types::Value;

// How deep lists and objects nest in JSON, at most.
const MAX_LEVELS: usize = 127;

/// The keys of a schema's records, for what owns these beside the schema. `JsonReader` has both.
pub struct JsonKeys {
    entries: Vec<KeyedEntry>,
}

// By hand, so that each exit of an owner has one call to prove.
impl Drop for JsonKeys {
    fn drop(self) {
        let JsonKeys { entries: _ } = self;
    }
}

impl JsonKeys {
    /// The keys of the records of a schema's declarations.
    pub fn of(alloc: Global, schema: &Schema) -> Result<JsonKeys, AllocError>
        ensures { IfOk result (λ made. AreKeysOf schema.now made) }
    {
        let entries = keyed_entries(alloc, schema)?;
        Ok(JsonKeys { entries })
    }

    /// The value that the text is the form of, whether it fits the type or not. A tree of the JSON is made only where no value is read straight from its
    /// tokens: then it tells where and why there is none. The keys are those of the schema.
    pub fn read(
        &self,
        alloc: Global,
        schema: &Schema,
        of: &TypeRef,
        text: &[u8],
    ) -> Result<Value, JsonTextFault>
        requires made { AreKeysOf schema.now self.now }
        ensures reads { TellsText schema.now.decls (shape of.now) text.now result }
    {
        let keyed = KeyedSchema::over(schema, &self.entries);
        match value_in_text(alloc, &keyed, of, text) {
            Ok(value) => Ok(value),
            Err(_) => value_in_tree(alloc, &keyed, of, text),
        }
    }
}

// The value that the text is the form of, straight from its tokens.
fn value_in_text(
    alloc: Global,
    schema: &KeyedSchema<'_>,
    of: &TypeRef,
    text: &[u8],
) -> Result<Value, GivenUp>
    ensures { IfOk result (λ v. IsFormOf schema.now.decls (shape of.now) text.now (view v)) }
{
    let Ok(text) = compat::from_utf8(text) else {
        return Err(GivenUp);
    };
    let mut scratch = Scratch::new(alloc);
    let mut tokens = Reader::new(text, &mut scratch)?;
    let value = value_in(alloc, &mut tokens, MAX_LEVELS, schema, of)?;
    match tokens.next() {
        Some(_) => Err(GivenUp),
        None => Ok(value),
    }
}

// The same by the tree of its JSON, or why there is none.
fn value_in_tree(
    alloc: Global,
    schema: &KeyedSchema<'_>,
    of: &TypeRef,
    text: &[u8],
) -> Result<Value, JsonTextFault>
    ensures { TellsText schema.now.decls (shape of.now) text.now result }
{
    let json = serde_json::Value::from_slice(alloc, text)?;
    let value = value_of(alloc, &json, schema, of)?;
    Ok(value)
}
