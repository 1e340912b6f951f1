//! What is told of two schemas.
ghost use Rattle.tl_codec.specs.Comparing.{MakesAnswer, OfTexts, OfTypeText};

use codec_commands::verdict_line;
use outside::LoadError;
use schema_files::{schema_of, type_spelled};
use std::alloc::Global;
use tl_schema::Schema;

// What is told of the old schema, the text of the new one, and a type's text.
fn compared(alloc: Global, old: &Schema, new: &[u8], of: &[u8]) -> Result<Vec<u8>, LoadError>
    ensures { MakesAnswer (OfTypeText old.now new.now of.now) result }
{
    let of = type_spelled(alloc, old, of)?;
    let new = schema_of(alloc, "new", new)?;
    verdict_line(alloc, old, &new, &of)
}

/// The line that tells how many declarations a type of the old schema reaches, where the new schema reads its bytes; a refusal tells what breaks first. `old` and `new` are the texts of the schemas, and a refusal calls the second `new`.
pub fn layers(alloc: Global, old: &[u8], new: &[u8], of: &[u8]) -> Result<Vec<u8>, LoadError>
    ensures { MakesAnswer (OfTexts old.now new.now of.now) result }
{
    let schema = schema_of(alloc, "schema", old)?;
    compared(alloc, &schema, new, of)
}
