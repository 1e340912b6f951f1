//! Names of declarations and fields, and types of strings.
ghost use Rattle.std.specs.Prelude.{◌≡◌, IfOk, slice_get, string_bytes};
ghost use Rattle.tl_schema.specs.Seen.{shape};
ghost use Rattle.tl_types.specs.Parts.{name_in};
ghost use Rattle.tl_show.specs.Shown.{is_string, name_text};

use std::alloc::{AllocError, Global};
use tl_schema::{Schema, TypeRef};

/// The name of a declaration; none past the end of the schema.
pub fn name_of(schema: &Schema, entry: u32) -> &[u8]
    ensures { result.now ≡ name_in (slice_get schema.now.decls entry) }
{
    if entry < schema.count() {
        schema.entry(entry).name.as_slice()
    } else {
        &[]
    }
}

/// Whether a type is `string`.
pub fn is_string(of: &TypeRef) -> bool
    ensures { result ≡ is_string (shape of.now) }
{
    match of {
        TypeRef::Str => true,
        _ => false,
    }
}

/// The text of a name, each byte a character.
pub fn name_text(alloc: Global, name: &[u8]) -> Result<String, AllocError>
    ensures { IfOk result (λ s. string_bytes s ≡ name_text name.now) }
{
    let mut text = String::new(alloc);
    for byte in name {
        text.push(char::from(*byte))?;
    }
    Ok(text)
}
