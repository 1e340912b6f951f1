//! A client's session over the link in hand.
ghost use Rattle.std.specs.Prelude.{◌≡◌, ◌≤◌, ◌+◌, ◌<◌, true};
ghost use Rattle.box_client.specs.Asking.{is_one_asking};
ghost use Rattle.box_events.specs.declared.limits.TheConstants.{MAX_ASKS};
ghost use Rattle.outside.specs.Begun.{DidIn, to_link};
ghost use Rattle.outside.specs.Steps.{Loops};
ghost use Rattle.wire_profile.specs.Profiles.{IsProfile};
ghost use Rattle.session_rooms.specs.Conversing.{Converses, HearsBytes, HearsNext, HearsOn, outcome};

use crate::sending::send_calls;
use box_client::Client;
use box_events::Asks;
use outside::{Host, Packet, take_packet};
use std::alloc::Global;
use tl_base::{Bytes, Fault, PacketCause, Slot};
use update_sessions::{MAX_FRAMES, SessionFault, ask_all, hear_packet};
use wire_profile::Profile;

/// Asks for all that is new, and hears frames until the client asks no more.
pub fn converse<H: Host>(
    alloc: Global,
    host: &mut H,
    profile: &Profile,
    client: &mut Client,
) -> Result<(), Fault<SessionFault>>
    requires sound { IsProfile profile.now }
    requires next { client.old.next ≤ 2000000000 }
    ensures { DidIn to_link (Converses profile.now client.old) (H.state host.old) (H.state host.new) (outcome client.new result) }
{
    let mut asks = Asks::new();
    let mut out = Bytes::new(alloc);
    ask_all(alloc, profile, client, &mut asks, &mut out)?;
    match send_calls(host, &out) {
        Ok(()) => hear_all(alloc, host, profile, client, &mut asks, &mut out),
        Err(_) => Err(Fault::Refused(SessionFault::LinkFault)),
    }
}

// Hears frames until the client asks no more.
fn hear_all<H: Host>(
    alloc: Global,
    host: &mut H,
    profile: &Profile,
    client: &mut Client,
    asks: &mut Asks,
    out: &mut Bytes,
) -> Result<(), Fault<SessionFault>>
    requires sound { IsProfile profile.now }
    requires next { client.old.next ≤ 2000000000 + MAX_ASKS }
    ensures { DidIn to_link (Loops (HearsOn profile.now) (client.old, 0)) (H.state host.old) (H.state host.new) (outcome client.new result) }
{
    for frames in 0..MAX_FRAMES {
        if !client.asking() {
            return Ok(());
        }
        hear_next(alloc, host, profile, client, asks, out)?;
    }
    if client.asking() {
        return Err(Fault::Refused(SessionFault::TooManyFrames));
    }
    Ok(())
}

// Takes the next packet, hears its frame, and asks for what is due.
fn hear_next<H: Host>(
    alloc: Global,
    host: &mut H,
    profile: &Profile,
    client: &mut Client,
    asks: &mut Asks,
    out: &mut Bytes,
) -> Result<(), Fault<SessionFault>>
    requires sound { IsProfile profile.now }
    requires next { client.old.next ≤ 2147483582 }
    requires asking { is_one_asking client.old ≡ true }
    ensures hears { DidIn to_link (HearsNext profile.now client.old) (H.state host.old) (H.state host.new) (outcome client.new result) }
    ensures next { client.new.next ≤ client.old.next + MAX_ASKS }
{
    match take_packet(alloc, host, Slot::Link)? {
        Packet::Whole(bytes) => hear_bytes(alloc, host, profile, client, &bytes, asks, out),
        Packet::None => Err(Fault::Refused(SessionFault::Packet(PacketCause::Ended { had: 0 }))),
        Packet::Wrong(cause) => Err(Fault::Refused(SessionFault::Packet(cause))),
        Packet::Broken => Err(Fault::Refused(SessionFault::LinkFault)),
    }
}

// Hears the frame that a packet's bytes mean, and asks for what is due.
fn hear_bytes<H: Host>(
    alloc: Global,
    host: &mut H,
    profile: &Profile,
    client: &mut Client,
    packet: &[u8],
    asks: &mut Asks,
    out: &mut Bytes,
) -> Result<(), Fault<SessionFault>>
    requires sound { IsProfile profile.now }
    requires next { client.old.next ≤ 2147483582 }
    requires asking { is_one_asking client.old ≡ true }
    ensures hears { DidIn to_link (HearsBytes profile.now client.old packet.now) (H.state host.old) (H.state host.new) (outcome client.new result) }
    ensures next { client.new.next ≤ client.old.next + MAX_ASKS }
{
    hear_packet(alloc, profile, client, packet, asks, out)?;
    match send_calls(host, out) {
        Ok(()) => Ok(()),
        Err(_) => Err(Fault::Refused(SessionFault::LinkFault)),
    }
}
