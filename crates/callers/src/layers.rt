//! A stored value, under a newer schema.
ghost use Rattle.std.specs.Prelude.{ℕ, List, IfOk, OnOk};
ghost use Rattle.tl_schema.specs.Formed.{IsFormed};
ghost use Rattle.tl_schema.specs.Seen.{shape};
ghost use Rattle.tl_types.specs.Seen.{view};
ghost use Rattle.tl_types.specs.Spelling.{Spells};
ghost use Rattle.tl_layers.specs.Breaks.{IsUnbroken};
ghost use Rattle.tl_layers.specs.Counterparts.{image};
ghost use Rattle.tl_layers.specs.Plain.{IsPlain};

use std::alloc::Global;
use tl_layers::{LayerFault, compare};
use tl_schema::{Schema, TypeRef};
use tl_types::Value;

/// A value of a type of the old schema as its bytes are read in the new one, or what breaks first.
pub fn moved_up(
    alloc: Global,
    old: &Schema,
    new: &Schema,
    of: &TypeRef,
    value: &Value,
) -> Result<Value, LayerFault>
    requires formed { IsFormed old.now (shape of.now) }
    ensures unbroken { OnOk result (IsUnbroken old.now new.now (shape of.now)) }
    ensures spelled { (b : List ℕ) → IsPlain old.now (view value.now) → Spells old.now (shape of.now) (view value.now) b → IfOk result (λ v. Spells new.now (image old.now new.now (shape of.now)) (view v) b) }
{
    let layers = compare(alloc, old, new, of)?;
    let lifted = layers.lift(alloc, value)?;
    Ok(lifted)
}
