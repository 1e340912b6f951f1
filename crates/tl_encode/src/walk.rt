//! Values of closed types.
ghost use Rattle.std.specs.Prelude.{◌≡◌, ◌≤◌, ℕ, List, None, IfOk, IfSome, IsErrOf, length};
ghost use Rattle.tl_base.specs.Using.{WritesOnly, Wrote};
ghost use Rattle.tl_schema.specs.Formed.{IsFormed};
ghost use Rattle.tl_schema.specs.Seen.{shape};
ghost use Rattle.tl_types.specs.Fitting.{misfit};
ghost use Rattle.tl_types.specs.Seen.{view};
ghost use Rattle.tl_types.specs.Spelling.{Spells};
ghost use Rattle.tl_types.specs.Values.{depth};
ghost use Rattle.tl_encode.specs.Encoding.{AnswersMisfit, KeepsSink, TellsFit, WritesSpelling};

use crate::fault::EncodeFault;
use crate::spelling::spell;
use crate::writing::write_bytes;
use std::alloc::Global;
use tl_base::Sink;
use tl_schema::{Schema, TypeRef};
use tl_types::{FitFault, MAX_LEVELS, Value, fits};

/// Writes the spelling of a value of a closed type, and answers its length.
pub fn encode_walk<K: Sink>(
    alloc: Global,
    schema: &Schema,
    of: &TypeRef,
    value: &Value,
    to: &mut K,
) -> Result<u64, EncodeFault>
    // What has a spelling is written as that, whichever one is named.
    ensures spelled { (spelling : List ℕ) → Spells schema.now (shape of.now) (view value.now) spelling → depth (view value.now) ≤ MAX_LEVELS → WritesSpelling (K.state to.old).written (K.state to.new).written spelling result }
    // What has none is refused, where and why it doesn't fit.
    ensures misfit { IfSome (misfit schema.now.decls MAX_LEVELS None (shape of.now) (view value.now)) (λ m. AnswersMisfit m result) }
    ensures kept { KeepsSink to.old to.new result }
    ensures used { WritesOnly (K.state to.old) (K.state to.new) (IsErrOf result EncodeFault.WriteFault) }
    // A sound sink that has room for the spelling doesn't fail.
    ensures room { (spelling : List ℕ) → Spells schema.now (shape of.now) (view value.now) spelling → Wrote (K.state to.old) (K.state to.new) (length spelling) (IsErrOf result EncodeFault.WriteFault) }
{
    let bytes = spelling_as(alloc, schema, of, value)?;
    write_bytes(&bytes, to)
}

/// The spelling of a value of a closed type, for a caller that wants the bytes in memory.
pub fn spelling_as(
    alloc: Global,
    schema: &Schema,
    of: &TypeRef,
    value: &Value,
) -> Result<Vec<u8>, FitFault>
    ensures spelled { (spelling : List ℕ) → Spells schema.now (shape of.now) (view value.now) spelling → IfOk result (λ bytes. bytes.items ≡ spelling) }
    ensures spells { IsFormed schema.now (shape of.now) → IfOk result (λ bytes. Spells schema.now (shape of.now) (view value.now) bytes.items × (depth (view value.now) ≤ MAX_LEVELS)) }
    ensures fits { TellsFit (misfit schema.now.decls MAX_LEVELS None (shape of.now) (view value.now)) result }
{
    // Read for the proof alone: that the schema is sound.
    let _count = schema.count();
    fits(alloc, schema, of, value)?;
    let mut bytes = Vec::new(alloc);
    spell(alloc, value, schema, of, &mut bytes)?;
    Ok(bytes)
}
