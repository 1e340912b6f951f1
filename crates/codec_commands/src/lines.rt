//! The words of lines.
ghost use Rattle.std.specs.Prelude.{◌≡◌, IfOk, string_bytes};
ghost use Rattle.codec_commands.specs.Layers.{break_text, yes_line};

use std::alloc::{AllocError, Global};
use tl_layers::Break;

/// A break, and the index of its field.
pub fn break_text(alloc: Global, cause: Break) -> Result<String, AllocError>
    ensures { IfOk result (λ s. string_bytes s ≡ break_text cause) }
{
    match cause {
        Break::Gone => String::from_str(alloc, "Gone"),
        Break::NewNumber => String::from_str(alloc, "NewNumber"),
        Break::NewVars => String::from_str(alloc, "NewVars"),
        Break::TypeSplit => String::from_str(alloc, "TypeSplit"),
        Break::FieldGone { field } => format!(in alloc; "FieldGone {field}"),
        Break::FieldOrder { field } => format!(in alloc; "FieldOrder {field}"),
        Break::FieldChanged { field } => format!(in alloc; "FieldChanged {field}"),
        Break::FieldAdded { field } => format!(in alloc; "FieldAdded {field}"),
    }
}

/// The line of a yes: how many declarations the type reaches.
pub fn yes_line(alloc: Global, count: u32) -> Result<Vec<u8>, AllocError>
    ensures { IfOk result (λ line. line.items ≡ yes_line count) }
{
    let line = format!(in alloc; "yes {count}\n")?;
    Ok(line.into_bytes())
}
