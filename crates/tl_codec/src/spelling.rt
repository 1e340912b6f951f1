//! Spellings of values from their JSON.
ghost use Rattle.tl_schema.specs.Formed.{IsFormed};
ghost use Rattle.tl_schema.specs.Seen.{shape};
ghost use Rattle.tl_show.specs.inner.Kept.{AreKeysOf};
ghost use Rattle.tl_codec.specs.Codings.{Encodes};

use outside::LoadError;
use schema_files::{fit_error, form_by};
use std::alloc::Global;
use tl_encode::spelling_as;
use tl_schema::{Schema, TypeRef};
use tl_show::JsonKeys;

/// The spelling of the value that the text is the JSON of.
pub fn bytes_of(
    alloc: Global,
    schema: &Schema,
    keys: &JsonKeys,
    of: &TypeRef,
    text: &[u8],
) -> Result<Vec<u8>, LoadError>
    requires formed { IsFormed schema.now (shape of.now) }
    requires made { AreKeysOf schema.now keys.now }
    ensures { Encodes schema.now (shape of.now) text.now result }
{
    let value = form_by(alloc, keys, schema, of, text)?;
    match spelling_as(alloc, schema, of, &value) {
        Ok(bytes) => Ok(bytes),
        Err(fault) => Err(fit_error(alloc, &fault)),
    }
}
