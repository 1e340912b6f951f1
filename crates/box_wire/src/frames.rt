//! Frames of a server as bytes, and back.
ghost use Rattle.std.specs.Prelude.{List, ℕ, Err, IfErr, IfOk};
ghost use Rattle.tl_numbers.specs.Bytes.{AreBytes};
ghost use Rattle.tl_types.specs.Seen.{view};
ghost use Rattle.wire_profile.specs.Causes.{cause_of};
ghost use Rattle.wire_profile.specs.Profiles.{IsProfile};
ghost use Rattle.wire_profile.specs.declared.rule.Root.TheVariants as root;
ghost use Rattle.wire_values.specs.CarriedFrames.{IsFrame};
ghost use Rattle.wire_values.specs.Frames.{frame_in, frame_tree};
ghost use Rattle.box_wire.specs.Answers.{Reads, Spelled};
ghost use Rattle.box_wire.specs.Framing.{Framed, Means, SpellsWhole, WireRefused};
ghost use Rattle.box_wire.specs.FramesRead.{IsUnread, ReadsFrame};
ghost use Rattle.box_wire.specs.Kinds.{frames};
ghost use Rattle.box_wire.specs.inner.Wholes.{AnswersMessage};

use crate::fault::SpellFault;
use crate::wholes::{bytes_of, value_in, within};
use box_events::Frame;
use std::alloc::Global;
use tl_base::{Bytes, Fault};
use tl_types::Value;
use wire_profile::{Profile, WireFault, frame_cause};
use wire_values::{frame_of, frame_value};

// The plan's root for frames.
const FRAME_ROOT: u32 = 0;

/// Spells a frame. Each frame of which `FitsFrame` has a spelling; another is answered as out of memory.
pub fn spell_frame(alloc: Global, profile: &Profile, frame: &Frame) -> Result<Bytes, SpellFault>
    ensures spelled { Spelled (Framed profile.now frames (frame_tree frame.now)) result }
    ensures sound { IsProfile profile.now }
{
    let plan = profile.plan();
    let mut value = frame_value(alloc, frame)?;
    profile.put_indexes(&mut value);
    within(bytes_of(alloc, plan, FRAME_ROOT, &value)?)
}

/// Reads a frame. It takes memory for what was read, never for a count that was only announced.
pub fn read_frame(alloc: Global, profile: &Profile, bytes: &[u8]) -> Result<Frame, Fault<WireFault>>
    ensures reads { Reads IsFrame (λ m. Means profile.now frames (frame_tree m) bytes.now) (WireRefused profile.now frames bytes.now) result }
    ensures sound { IsProfile profile.now }
{
    let value = decode_frame(alloc, profile, bytes)?;
    frame_of_value(alloc, profile, value)
}

/// Reads the value of a frame, as the schema has it: the first half of `read_frame`.
pub fn decode_frame(
    alloc: Global,
    profile: &Profile,
    bytes: &[u8],
) -> Result<Value, Fault<WireFault>>
    ensures value { IfOk result (λ value. SpellsWhole profile.now frames (view value) bytes.now) }
    ensures refused { IfErr result (λ fault. ReadsFrame profile.now bytes.now (Err fault)) }
    ensures unread { IfErr result IsUnread }
    ensures bytes { AreBytes bytes.now }
    ensures sound { IsProfile profile.now }
{
    value_in(alloc, profile.plan(), FRAME_ROOT, bytes)
}

/// The frame of a value: the second half. It answers what `read_frame` does of the bytes that spell the value.
pub fn frame_of_value(
    alloc: Global,
    profile: &Profile,
    mut value: Value,
) -> Result<Frame, Fault<WireFault>>
    requires sound { IsProfile profile.now }
    ensures { (bytes : List ℕ) → AreBytes bytes → SpellsWhole profile.now frames (view value) bytes → ReadsFrame profile.now bytes result }
{
    profile.put_forms(&mut value);
    frame_in(alloc, value)
}

// The frame of a value, or its first cause.
fn frame_in(alloc: Global, value: Value) -> Result<Frame, Fault<WireFault>>
    ensures { AnswersMessage (cause_of root.Frame (view value)) (frame_in (view value)) result }
{
    match frame_cause(&value) {
        Some(cause) => Err(Fault::Refused(cause)),
        None => Ok(frame_of(alloc, value)?),
    }
}
