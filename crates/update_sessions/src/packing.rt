//! Messages as packets in a buffer.
ghost use Rattle.std.specs.Prelude.{◌≡◌, ◌≤◌, ◌++◌, OnOk, length};
ghost use Rattle.std.specs.List.{All};
ghost use Rattle.tl_base.specs.Packets.{packet};
ghost use Rattle.box_events.specs.declared.limits.TheConstants.{MAX_ASKS};
ghost use Rattle.box_world.specs.Sizes.{call_size, frame_size};
ghost use Rattle.update_sessions.specs.Packed.{Packed, SpellsCall, SpellsFrame};
ghost use Rattle.update_sessions.specs.inner.Steps.{Puts};

use box_events::{Asks, Frame, MAX_FRAME_BYTES, Numbered};
use box_wire::{SpellFault, spell_call, spell_frame};
use std::alloc::{AllocError, Global};
use tl_base::{Bytes, Memory};
use tl_numbers::bytes_of_u32;
use wire_profile::Profile;

// Appends a packet of these bytes.
fn put_packet(bytes: &[u8], out: &mut Bytes) -> Result<(), Memory>
    requires { length bytes.now ≤ MAX_FRAME_BYTES }
    ensures { OnOk result (out.new ≡ out.old ++ packet bytes.now) }
{
    out.append(&bytes_of_u32(bytes.len() as u32))?;
    out.append(bytes)
}

/// Appends the packet of a frame.
pub fn put_frame(
    alloc: Global,
    profile: &Profile,
    frame: &Frame,
    out: &mut Bytes,
) -> Result<(), Memory>
    requires { frame_size frame.now ≤ MAX_FRAME_BYTES }
    ensures { OnOk result (Puts (SpellsFrame profile.now frame.now) out.old out.new) }
{
    match spell_frame(alloc, profile, frame) {
        Ok(bytes) => put_packet(bytes.as_slice(), out),
        Err(SpellFault::TooLong { .. }) => unreachable!(),
        Err(SpellFault::Memory) => Err(AllocError),
    }
}

// Appends the packet of a call.
fn put_call(
    alloc: Global,
    profile: &Profile,
    call: &Numbered,
    out: &mut Bytes,
) -> Result<(), Memory>
    requires { call_size call.now ≤ MAX_FRAME_BYTES }
    ensures { OnOk result (Puts (SpellsCall profile.now call.now) out.old out.new) }
{
    match spell_call(alloc, profile, call) {
        Ok(bytes) => put_packet(bytes.as_slice(), out),
        Err(SpellFault::TooLong { .. }) => unreachable!(),
        Err(SpellFault::Memory) => Err(AllocError),
    }
}

/// Puts the packets of calls in place of what stands in `out`.
pub fn put_calls(
    alloc: Global,
    profile: &Profile,
    asks: &Asks,
    out: &mut Bytes,
) -> Result<(), Memory>
    requires { All (λ call. call_size call ≤ MAX_FRAME_BYTES) asks.now }
    ensures packed { OnOk result (Packed (SpellsCall profile.now) asks.now out.new) }
    ensures most { length asks.now ≤ MAX_ASKS }
{
    out.clear();
    for i in 0..asks.len() {
        put_call(alloc, profile, &asks.get(i), out)?;
    }
    Ok(())
}
