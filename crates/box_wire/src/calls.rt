//! Calls of clients as bytes, and back.
ghost use Rattle.std.specs.Prelude.{⊤};
ghost use Rattle.tl_types.specs.Seen.{view};
ghost use Rattle.wire_profile.specs.Causes.{call_cause};
ghost use Rattle.wire_profile.specs.Profiles.{IsProfile};
ghost use Rattle.wire_values.specs.Calls.{call_in as call_by, call_tree};
ghost use Rattle.box_wire.specs.Answers.{Reads, Spelled};
ghost use Rattle.box_wire.specs.Framing.{Framed, Means, WireRefused};
ghost use Rattle.box_wire.specs.Kinds.{calls};
ghost use Rattle.box_wire.specs.inner.Wholes.{AnswersMessage};

use crate::fault::SpellFault;
use crate::wholes::{bytes_of_call, value_of_call, within};
use box_events::Numbered;
use std::alloc::Global;
use tl_base::{Bytes, Fault};
use tl_types::Value;
use wire_profile::{Profile, WireFault, call_cause};
use wire_values::{call_of, call_value};

/// Spells a call. Each of which `FitsCall` has a spelling; another is answered as out of memory.
pub fn spell_call(alloc: Global, profile: &Profile, call: &Numbered) -> Result<Bytes, SpellFault>
    ensures spelled { Spelled (Framed profile.now calls (call_tree call.now)) result }
    ensures sound { IsProfile profile.now }
{
    let schema = profile.schema();
    let mut value = call_value(alloc, call)?;
    profile.put_indexes(&mut value);
    within(bytes_of_call(alloc, schema, &value)?)
}

/// Reads a call. A call of any function of the schema is decoded, so that one that no server answers is told from bytes that are none.
pub fn read_call(
    alloc: Global,
    profile: &Profile,
    bytes: &[u8],
) -> Result<Numbered, Fault<WireFault>>
    ensures { Reads (λ _. ⊤) (λ m. Means profile.now calls (call_tree m) bytes.now) (WireRefused profile.now calls bytes.now) result }
{
    let mut value = value_of_call(alloc, profile.schema(), bytes)?;
    profile.put_forms(&mut value);
    call_in(alloc, value)
}

// The call of a value, or its first cause.
fn call_in(alloc: Global, value: Value) -> Result<Numbered, Fault<WireFault>>
    ensures { AnswersMessage (call_cause (view value)) (call_by (view value)) result }
{
    match call_cause(&value) {
        Some(cause) => Err(Fault::Refused(cause)),
        None => Ok(call_of(alloc, value)?),
    }
}
