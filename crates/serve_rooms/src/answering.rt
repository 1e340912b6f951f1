//! A server's session over the link in hand.
ghost use Rattle.std.specs.Prelude.{◌≡◌, List, Some, is_ok};
ghost use Rattle.box_events.specs.declared.replies.Frame.{Frame};
ghost use Rattle.outside.specs.Packets.{packet_view};
ghost use Rattle.outside.specs.Begun.{Did};
ghost use Rattle.session_rooms.specs.Sending.{Sends};
ghost use Rattle.update_sessions.specs.Packed.{Packed, SpellsFrame};
ghost use Rattle.wire_profile.specs.Indexes.{ProfileView};
ghost use Rattle.wire_profile.specs.Profiles.{IsProfile};
ghost use Rattle.serve_rooms.specs.Acts.{beside};
ghost use Rattle.serve_rooms.specs.Answering.{AnswersAll, AnswersBytes, AnswersNext, after_packet};
ghost use Rattle.serve_rooms.specs.Doing.{DidKept};
ghost use Rattle.serve_rooms.specs.inner.Ends.{answered_by, outcome_at, end_at, session_by};

use box_server::{KeepFault, Keeper, Stored};
use outside::{Host, Packet, take_packet, write_out};
use std::alloc::Global;
use tl_base::{Bytes, Failed, Out, Slot};
use update_sessions::{MAX_FRAMES, SessionFault, StoreSession, answer_packet};
use wire_profile::Profile;

/// What became of the next packet.
#[derive(Clone, Copy)]
pub enum Outcome {
    /// Its call was answered.
    Answered,
    /// There was none: the link has ended.
    Ended,
    /// The session fails.
    Failed { fault: SessionFault },
}

// What becomes of what is no packet.
fn no_packet(packet: &Packet) -> Outcome
    ensures { result ≡ outcome_at (packet_view packet.now) }
{
    match packet {
        Packet::Whole(_) => Outcome::Answered,
        Packet::None => Outcome::Ended,
        Packet::Wrong(cause) => Outcome::Failed {
            fault: SessionFault::Packet(*cause),
        },
        Packet::Broken => Outcome::Failed {
            fault: SessionFault::LinkFault,
        },
    }
}

// Sends the packets of frames.
fn send_frames<H: Host>(host: &mut H, out: &Bytes) -> Result<(), Failed>
    ensures { (p : ProfileView) (frames : List Frame) → Packed (SpellsFrame p) frames out.now → Did (Sends (SpellsFrame p) frames) (H.state host.old) (H.state host.new) (Some (is_ok result)) }
{
    write_out(host, Out::Link, out.as_slice())
}

// Answers the call that a packet's bytes mean.
fn answer_bytes<H: Host, K: Keeper>(
    alloc: Global,
    host: &mut H,
    profile: &Profile,
    store: &mut Stored<K>,
    packet: &[u8],
    out: &mut Bytes,
) -> Result<Outcome, KeepFault>
    requires sound { IsProfile profile.now }
    ensures { DidKept (AnswersBytes profile.now store.old.server packet.now) (beside (H.state host.old) (K.state store.old.keeper)) (beside (H.state host.new) (K.state store.new.keeper)) (answered_by store.new.server result) }
{
    match answer_packet(alloc, profile, store, packet, out) {
        Ok(()) => match send_frames(host, out) {
            Ok(()) => Ok(Outcome::Answered),
            Err(_) => Ok(Outcome::Failed {
                fault: SessionFault::LinkFault,
            }),
        },
        Err(StoreSession::Session { fault }) => Ok(Outcome::Failed { fault }),
        Err(StoreSession::Memory) => Err(KeepFault::Memory),
        Err(StoreSession::Failed) => Err(KeepFault::Failed),
    }
}

// Answers the call of what was taken, where that is a packet.
fn answer_taken<H: Host, K: Keeper>(
    alloc: Global,
    host: &mut H,
    profile: &Profile,
    store: &mut Stored<K>,
    packet: Packet,
    out: &mut Bytes,
) -> Result<Outcome, KeepFault>
    requires sound { IsProfile profile.now }
    ensures { DidKept (after_packet profile.now store.old.server (packet_view packet)) (beside (H.state host.old) (K.state store.old.keeper)) (beside (H.state host.new) (K.state store.new.keeper)) (answered_by store.new.server result) }
{
    match packet {
        Packet::Whole(bytes) => answer_bytes(alloc, host, profile, store, &bytes, out),
        other => Ok(no_packet(&other)),
    }
}

// Takes the next packet, and answers its call.
fn answer_next<H: Host, K: Keeper>(
    alloc: Global,
    host: &mut H,
    profile: &Profile,
    store: &mut Stored<K>,
    out: &mut Bytes,
) -> Result<Outcome, KeepFault>
    requires sound { IsProfile profile.now }
    ensures { DidKept (AnswersNext profile.now store.old.server) (beside (H.state host.old) (K.state store.old.keeper)) (beside (H.state host.new) (K.state store.new.keeper)) (answered_by store.new.server result) }
{
    match take_packet(alloc, host, Slot::Link) {
        Ok(packet) => answer_taken(alloc, host, profile, store, packet, out),
        Err(_) => Err(KeepFault::Memory),
    }
}

// How a session ends by what became of a packet, after so many calls; none where it goes on.
fn end_by(outcome: Outcome, calls: u64) -> Option<Result<u64, SessionFault>>
    ensures { result ≡ end_at calls outcome }
{
    match outcome {
        Outcome::Answered => None,
        Outcome::Ended => Some(Ok(calls)),
        Outcome::Failed { fault } => Some(Err(fault)),
    }
}

/// Answers calls until the link ends, and says how many there were.
pub fn serve_link<H: Host, K: Keeper>(
    alloc: Global,
    host: &mut H,
    profile: &Profile,
    store: &mut Stored<K>,
) -> Result<Result<u64, SessionFault>, KeepFault>
    ensures { DidKept (AnswersAll profile.now store.old.server) (beside (H.state host.old) (K.state store.old.keeper)) (beside (H.state host.new) (K.state store.new.keeper)) (session_by store.new.server result) }
{
    // Read for the proof alone: that the profile is sound.
    let _schema = profile.schema();
    let mut out = Bytes::new(alloc);
    for calls in 0..MAX_FRAMES {
        let outcome = match answer_next(alloc, host, profile, store, &mut out) {
            Ok(outcome) => outcome,
            Err(fault) => return Err(fault),
        };
        if let Some(end) = end_by(outcome, calls) {
            return Ok(end);
        }
    }
    Ok(Err(SessionFault::TooManyFrames))
}
