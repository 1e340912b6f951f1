//! Messages that are spelled, and sent.
ghost use Rattle.std.specs.Prelude.{◌≡◌, ◌≤◌, IfOk};
ghost use Rattle.std.specs.List.{All};
ghost use Rattle.box_events.specs.declared.limits.TheConstants.{MAX_FRAME_BYTES};
ghost use Rattle.wire_profile.specs.Profiles.{IsProfile};
ghost use Rattle.wire_values.specs.Calls.{call_tree};
ghost use Rattle.wire_values.specs.Frames.{frame_tree};
ghost use Rattle.box_wire.specs.Framing.{Framed};
ghost use Rattle.box_wire.specs.Kinds.{calls, frames};
ghost use Rattle.box_world.specs.Sizes.{call_size, frame_size};
ghost use Rattle.update_world.specs.inner.Sending.{SendsCalls, SendsFrame};

use crate::pool::Pool;
use crate::sent::{End, SentPacket};
use box_events::{Asks, Frame, Numbered};
use box_wire::{SpellFault, spell_call, spell_frame};
use box_world::StepFault;
use std::alloc::{AllocError, Global};
use tl_base::{Bytes, Fault, Memory};
use wire_profile::Profile;

/// Sends a frame that isn't too long, and answers its number.
pub fn send_frame(
    alloc: Global,
    profile: &Profile,
    pool: &mut Pool,
    frame: Frame,
    to: End,
) -> Result<u32, Fault<StepFault>>
    requires profile { IsProfile profile.now }
    requires short { frame_size frame ≤ MAX_FRAME_BYTES }
    ensures { SendsFrame profile.now frame to pool.old result pool.new }
{
    let bytes = short_frame(alloc, profile, frame)?;
    let mut one = Vec::with_capacity(alloc, 1)?;
    one.push_reserved(SentPacket { bytes, to });
    pool.send(one)
}

/// Sends the requests of a client, all or none of them, and answers the number of the first.
pub fn send_calls(
    alloc: Global,
    profile: &Profile,
    pool: &mut Pool,
    asks: &Asks,
    client: u32,
) -> Result<u32, Fault<StepFault>>
    requires profile { IsProfile profile.now }
    requires short { All (λ n. call_size n ≤ MAX_FRAME_BYTES) asks.now }
    ensures { SendsCalls profile.now client asks.now pool.old result pool.new }
{
    let mut more = Vec::with_capacity(alloc, asks.len() as usize)?;
    for i in 0..asks.len() {
        let bytes = short_call(alloc, profile, &asks.get(i))?;
        let to = End::Server { from: client };
        more.push_reserved(SentPacket { bytes, to });
    }
    pool.send(more)
}

// The spelling of a frame that isn't too long.
fn short_frame(alloc: Global, profile: &Profile, frame: Frame) -> Result<Bytes, Memory>
    requires profile { IsProfile profile.now }
    requires short { frame_size frame ≤ MAX_FRAME_BYTES }
    ensures { IfOk result (λ b. Framed profile.now frames (frame_tree frame) b) }
{
    match spell_frame(alloc, profile, &frame) {
        Ok(bytes) => Ok(bytes),
        Err(SpellFault::TooLong { .. }) => unreachable!(),
        Err(SpellFault::Memory) => Err(AllocError),
    }
}

// The spelling of a call that isn't too long.
fn short_call(alloc: Global, profile: &Profile, call: &Numbered) -> Result<Bytes, Memory>
    requires profile { IsProfile profile.now }
    requires short { call_size call.now ≤ MAX_FRAME_BYTES }
    ensures { IfOk result (λ b. Framed profile.now calls (call_tree call.now) b) }
{
    match spell_call(alloc, profile, call) {
        Ok(bytes) => Ok(bytes),
        Err(SpellFault::TooLong { .. }) => unreachable!(),
        Err(SpellFault::Memory) => Err(AllocError),
    }
}
