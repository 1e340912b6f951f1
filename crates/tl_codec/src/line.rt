//! Lines of values from their bytes.
ghost use Rattle.tl_schema.specs.Formed.{IsFormed};
ghost use Rattle.tl_schema.specs.Seen.{shape};
ghost use Rattle.tl_show.specs.inner.Kept.{AreFormsOf};
ghost use Rattle.tl_codec.specs.Codings.{Decodes};

use crate::refusals::input_error;
use outside::LoadError;
use schema_files::line_by;
use std::alloc::Global;
use tl_decode::decode_bytes_as;
use tl_schema::{Schema, TypeRef};
use tl_show::JsonForms;

/// The line of the value that all of the bytes spell.
pub fn line_of(
    alloc: Global,
    schema: &Schema,
    forms: &JsonForms,
    of: &TypeRef,
    bytes: &[u8],
) -> Result<Vec<u8>, LoadError>
    requires formed { IsFormed schema.now (shape of.now) }
    requires made { AreFormsOf schema.now forms.now }
    ensures { Decodes schema.now (shape of.now) bytes.now result }
{
    match decode_bytes_as(alloc, schema, of, bytes) {
        Ok(value) => match line_by(alloc, forms, of, &value) {
            Ok(line) => Ok(line),
            Err(_) => Err(LoadError::Memory),
        },
        Err(fault) => Err(input_error(alloc, fault)),
    }
}
