//! Values without parts.
ghost use Rattle.std.specs.Prelude.{◌≡◌, ◌≤◌, ℕ, List, IsErrOf};
ghost use Rattle.tl_base.specs.Using.{Used};
ghost use Rattle.tl_schema.specs.Seen.{shape};
ghost use Rattle.tl_types.specs.Seen.{view};
ghost use Rattle.tl_types.specs.inner.Reading.{is_deep, plain_at};
ghost use Rattle.tl_decode.specs.inner.Frames.{item_value_at};
ghost use Rattle.tl_decode.specs.inner.Needs.{needs};
ghost use Rattle.tl_decode.specs.inner.Steps.{ReadsAs};

use crate::fault::DecodeFault;
use crate::items::{item_of, word_of};
use crate::stack::{Item, WantedItem};
use std::alloc::Global;
use tl_base::Source;
use tl_schema::TypeRef;
use tl_types::Value;

/// Whether the values of a type have parts.
pub fn has_parts(of: &TypeRef) -> bool
    ensures { result ≡ is_deep (shape of.now) }
{
    match of {
        TypeRef::Vector { .. } | TypeRef::Boxed { .. } | TypeRef::Bare { .. } | TypeRef::Call => {
            true
        }
        _ => false,
    }
}

/// A number, an opaque value, a string or a flag. Of a type with parts, and of a variable, no bytes are read.
pub fn plain_of<S: Source>(
    alloc: Global,
    of: &TypeRef,
    at: &mut u64,
    from: &mut S,
) -> Result<Value, DecodeFault>
    ensures read { ReadsAs view (S.state from.old).left (S.state from.new).left at.old at.new result (plain_at (shape of.now)) }
    ensures used { Used (S.state from.old) (S.state from.new) (IsErrOf result DecodeFault.ReadFault) }
{
    match of {
        TypeRef::Int => {
            let word = word_of(at, from)?;
            Ok(Value::Int(word.cast_signed()))
        }
        TypeRef::Long => value_item(alloc, WantedItem::Long, at, from),
        TypeRef::Nat => value_item(alloc, WantedItem::Nat, at, from),
        TypeRef::Double => value_item(alloc, WantedItem::Opaque { width: 8 }, at, from),
        TypeRef::Int128 => value_item(alloc, WantedItem::Opaque { width: 16 }, at, from),
        TypeRef::Int256 => value_item(alloc, WantedItem::Opaque { width: 32 }, at, from),
        TypeRef::Str => value_item(alloc, WantedItem::Text, at, from),
        TypeRef::Raw => value_item(alloc, WantedItem::Text, at, from),
        TypeRef::Flag => Ok(Value::Truth),
        TypeRef::Var { .. } => Ok(Value::Absent),
        TypeRef::Vector { .. } => Ok(Value::Absent),
        TypeRef::Boxed { .. } => Ok(Value::Absent),
        TypeRef::Bare { .. } => Ok(Value::Absent),
        TypeRef::Call => Ok(Value::Absent),
    }
}

// The value of an item, where that of four bytes is their number.
fn value_item<S: Source>(
    alloc: Global,
    wanted: WantedItem,
    at: &mut u64,
    from: &mut S,
) -> Result<Value, DecodeFault>
    requires { (b : List ℕ) → 4 ≤ needs wanted b }
    ensures read { ReadsAs view (S.state from.old).left (S.state from.new).left at.old at.new result (item_value_at wanted) }
    ensures used { Used (S.state from.old) (S.state from.new) (IsErrOf result DecodeFault.ReadFault) }
{
    match item_of(alloc, wanted, at, from)? {
        Item::Word { word } => Ok(Value::Nat(word)),
        Item::Plain { value } => Ok(value),
    }
}
