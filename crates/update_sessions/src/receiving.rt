//! Frames from a link.
ghost use Rattle.std.specs.Prelude.{IfOk, IfSome, IsErrOf};
ghost use Rattle.tl_base.specs.Using.{Used};
ghost use Rattle.box_wire.specs.Framing.{WireRefused};
ghost use Rattle.box_wire.specs.Kinds.{frames};
ghost use Rattle.box_world.specs.Fitting.{IsHearable};
ghost use Rattle.update_sessions.specs.Faults.{end_as};
ghost use Rattle.update_sessions.specs.Packed.{MeansFrame};
ghost use Rattle.update_sessions.specs.Receiving.{Receives};

use crate::fault::{SessionFault, of_packet, of_wire};
use box_events::Frame;
use box_wire::read_frame;
use std::alloc::Global;
use tl_base::{Bytes, Fault, Source, read_packet};
use wire_profile::Profile;

/// Reads the next frame; none where the link has ended. Its packet's bytes are read into `packet`.
pub fn receive_frame<S: Source>(
    alloc: Global,
    profile: &Profile,
    from: &mut S,
    packet: &mut Bytes,
) -> Result<Option<Frame>, Fault<SessionFault>>
    ensures receives { IfSome (S.state from.old).left (λ bytes. Receives (MeansFrame profile.now) (WireRefused profile.now frames) bytes (S.state from.new).left (end_as result)) }
    ensures hearable { IfOk result (λ next. IfSome next IsHearable) }
    ensures used { Used (S.state from.old) (S.state from.new) (IsErrOf result (Fault.Refused SessionFault.LinkFault)) }
{
    match read_packet(from, packet) {
        Ok(true) => {}
        Ok(false) => return Ok(None),
        Err(fault) => return Err(of_packet(fault)),
    }
    match read_frame(alloc, profile, packet.as_slice()) {
        Ok(frame) => Ok(Some(frame)),
        Err(fault) => Err(of_wire(fault)),
    }
}
