//! Functions by their indices.
ghost use Rattle.std.specs.Prelude.{◌≡◌, IfNone, IfSome, None, Some};
ghost use Rattle.tl_schema.specs.CheckedPrograms.{IsSchema};
ghost use Rattle.tl_schema.specs.Seen.{declaration};
ghost use Rattle.tl_calls.specs.Results.{function_in};

use tl_schema::{Entry, Schema};

/// The function at an index, if there is one.
pub fn function_at(schema: &Schema, index: u32) -> Option<&Entry>
    ensures some { IfSome result (λ e. function_in schema.now.decls index ≡ Some (declaration e.now)) }
    ensures none { IfNone result (function_in schema.now.decls index ≡ None) }
    ensures sound { IsSchema schema.now }
{
    if index >= schema.count() {
        return None;
    }
    let entry = schema.entry(index);
    if entry.function { Some(entry) } else { None }
}
