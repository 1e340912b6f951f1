//! Messages that are read from the bytes of packets.
ghost use Rattle.std.specs.Prelude.{◌≡◌, IfOk};
ghost use Rattle.box_events.specs.declared.replies.Frame.{Frame};
ghost use Rattle.box_events.specs.declared.requests.Numbered.{Numbered};
ghost use Rattle.wire_profile.specs.Profiles.{IsProfile};
ghost use Rattle.box_world.specs.Fitting.{IsHearable};
ghost use Rattle.update_world.specs.inner.Reading.{AsksFrom, CarriesCall, CarriesFrame, FrameFor, HasCall, HasFrame, StandFor, hears};

use crate::pool::Pool;
use crate::sent::End;
use box_events::{Frame, Numbered};
use box_wire::{Fault, read_call, read_frame};
use box_world::StepFault;
use std::alloc::{AllocError, Global};
use tl_base::Memory;
use wire_profile::{Profile, WireFault};

/// The request of a client.
#[derive(Drop)]
pub struct Asked {
    pub from: u32,
    pub call: Numbered,
}

/// What a client hears by a packet.
pub fn frame_for(
    alloc: Global,
    profile: &Profile,
    pool: &Pool,
    client: u32,
    packet: u32,
) -> Result<Frame, Fault<StepFault>>
    requires profile { IsProfile profile.now }
    requires messages { StandFor profile.now pool.now }
    ensures { FrameFor profile.now pool.now client packet result }
{
    let Some(sent) = pool.get(packet) else {
        return Err(Fault::Refused(StepFault::NoPacket { n: packet }));
    };
    if !hears(sent.to, client) {
        return Err(Fault::Refused(StepFault::WrongEnd { n: packet }));
    }
    Ok(sent_frame(alloc, profile, sent.bytes.as_slice())?)
}

/// What the server is asked by a packet.
pub fn asked_by(
    alloc: Global,
    profile: &Profile,
    pool: &Pool,
    packet: u32,
) -> Result<Asked, Fault<StepFault>>
    requires profile { IsProfile profile.now }
    requires messages { StandFor profile.now pool.now }
    ensures { AsksFrom profile.now pool.now packet result }
{
    let Some(sent) = pool.get(packet) else {
        return Err(Fault::Refused(StepFault::NoPacket { n: packet }));
    };
    let End::Server { from } = sent.to else {
        return Err(Fault::Refused(StepFault::WrongEnd { n: packet }));
    };
    let call = sent_call(alloc, profile, sent.bytes.as_slice())?;
    Ok(Asked { from, call })
}

// Whether a packet goes to a client.
fn hears(to: End, client: u32) -> bool
    ensures { result ≡ hears client to }
{
    match to {
        End::Clients => true,
        End::Server { .. } => false,
        End::Client { client: other } => other == client,
    }
}

// The frame that was sent as these bytes. Only memory can be wanting.
fn sent_frame(alloc: Global, profile: &Profile, bytes: &[u8]) -> Result<Frame, Memory>
    requires profile { IsProfile profile.now }
    requires frame { HasFrame profile.now bytes.now }
    ensures each { (f : Frame) → CarriesFrame profile.now bytes.now f → IfOk result (λ g. g ≡ f) }
    ensures hearable { IfOk result IsHearable }
{
    match read_frame(alloc, profile, bytes) {
        Ok(frame) => Ok(frame),
        Err(fault) => Err(as_memory(fault)),
    }
}

// The call that was sent as these bytes. Only memory can be wanting.
fn sent_call(alloc: Global, profile: &Profile, bytes: &[u8]) -> Result<Numbered, Memory>
    requires profile { IsProfile profile.now }
    requires call { HasCall profile.now bytes.now }
    ensures each { (n : Numbered) → CarriesCall profile.now bytes.now n → IfOk result (λ m. m ≡ n) }
{
    match read_call(alloc, profile, bytes) {
        Ok(call) => Ok(call),
        Err(fault) => Err(as_memory(fault)),
    }
}

// Between the ends of a world nothing else comes.
fn as_memory(fault: Fault<WireFault>) -> Memory
    requires { fault ≡ Fault.Memory }
{
    match fault {
        Fault::Refused(_) => unreachable!(),
        Fault::Memory => AllocError,
    }
}
