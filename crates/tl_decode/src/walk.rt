//! Values of closed types.
ghost use Rattle.std.specs.Prelude.{◌≡◌, ◌≤◌, ◌++◌, ℕ, List, IfSome, IsErrOf};
ghost use Rattle.tl_base.specs.Using.{Used};
ghost use Rattle.tl_schema.specs.Formed.{IsFormed};
ghost use Rattle.tl_schema.specs.CheckedPrograms.{IsSchema};
ghost use Rattle.tl_schema.specs.Seen.{shape};
ghost use Rattle.tl_types.specs.Offsets.{moved};
ghost use Rattle.tl_types.specs.Refusal.{Refused};
ghost use Rattle.tl_types.specs.Spelling.{Spells};
ghost use Rattle.tl_types.specs.Values.{ValueView, depth};
ghost use Rattle.tl_types.specs.declared.cause.Cause.{Cause};
ghost use Rattle.tl_decode.specs.Decoding.{GivesFault, GivesFew, GivesValue};

use crate::decoder::{Walk, value_of};
use crate::fault::DecodeFault;
use std::alloc::Global;
use tl_base::Source;
use tl_schema::{Schema, TypeRef};
use tl_types::{MAX_LEVELS, Value};

/// Reads the value of a closed type, and takes exactly its bytes. `at` rises by their number, up to 2^64 - 1. After a refusal the source isn't read
/// again. Memory is taken for what was read, never for a length or a count that was only announced.
pub fn decode_walk<S: Source>(
    alloc: Global,
    schema: &Schema,
    of: &TypeRef,
    at: &mut u64,
    from: &mut S,
) -> Result<Value, DecodeFault>
    requires formed { IsFormed schema.now (shape of.now) }
    // What is spelled is read, and exactly its bytes are taken.
    ensures spelled { IfSome (S.state from.old).left (λ bytes. (v : ValueView) (x rest : List ℕ) → bytes ≡ x ++ rest → Spells schema.now (shape of.now) v x → depth v ≤ MAX_LEVELS → GivesValue result (S.state from.new).left at.old at.new v x rest) }
    // What is refused is refused at its offset, for its cause.
    ensures refused { IfSome (S.state from.old).left (λ bytes. (offset : ℕ) (cause : Cause) → Refused schema.now MAX_LEVELS (shape of.now) bytes offset cause → GivesFault result (moved at.old offset) cause) }
    // What is given has few nodes for the bytes that were taken.
    ensures bounded { IfSome (S.state from.old).left (λ bytes. GivesFew schema.now (shape of.now) bytes (S.state from.new).left result) }
    ensures sound { IsSchema schema.now }
    ensures used { Used (S.state from.old) (S.state from.new) (IsErrOf result DecodeFault.ReadFault) }
{
    // Read for the proof alone: that the offset fits, and that the schema is sound.
    let _start = *at;
    let _count = schema.count();
    let walk = Walk {
        alloc,
        schema,
        levels: MAX_LEVELS,
    };
    value_of(walk, of, at, from)
}
