//! Sessions of a client.
ghost use Rattle.std.specs.Prelude.{◌≡◌, ◌≤◌, ◌+◌, ◌*◌, List, IsErrOf, true};
ghost use Rattle.box_events.specs.declared.limits.TheConstants.{MAX_ASKS};
ghost use Rattle.box_events.specs.declared.replies.Frame.{Frame};
ghost use Rattle.box_client.specs.Asking.{is_one_asking};
ghost use Rattle.update_sessions.specs.Exchanges.{MaySend, MaySendFor};
ghost use Rattle.update_sessions.specs.Faults.{end_as};
ghost use Rattle.update_sessions.specs.Heard.{HearsOn, MayAsk};
ghost use Rattle.update_sessions.specs.Hearing.{client_side};
ghost use Rattle.update_sessions.specs.Honest.{HearsHonestly};
ghost use Rattle.update_sessions.specs.Links.{LinkNeverFails, OverLink, UsesLink};
ghost use Rattle.update_sessions.specs.inner.Steps.{HearsNext};

use crate::asking::{hear_frame, put_asks};
use crate::fault::{MAX_FRAMES, SessionFault, of_client};
use crate::receiving::receive_frame;
use box_client::Client;
use box_events::Asks;
use std::alloc::Global;
use tl_base::{Bytes, Fault, Link, PacketCause, write_all};
use wire_profile::Profile;

/// Asks for all that is new, and hears frames until it asks no more. It says how many there were.
pub fn client_session<L: Link>(
    alloc: Global,
    profile: &Profile,
    client: &mut Client,
    link: &mut L,
) -> Result<u64, Fault<SessionFault>>
    requires next { client.old.next ≤ 2000000000 }
    ensures hears { OverLink (L.Source.state link.old).left (L.Sink.state link.old).written (L.Sink.state link.new).written (λ bytes out. HearsHonestly profile.now client.old bytes out client.new (end_as result)) }
    ensures used { UsesLink (L.Source.state link.old) (L.Source.state link.new) (L.Sink.state link.old) (L.Sink.state link.new) (IsErrOf result (Fault.Refused SessionFault.LinkFault)) }
    ensures beside { L.beside link.new ≡ L.beside link.old }
    ensures never { LinkNeverFails (L.Source.state link.old) (L.Sink.state link.old) (MayAsk profile.now client.old) (IsErrOf result (Fault.Refused SessionFault.LinkFault)) }
{
    let mut asks = Asks::new();
    let mut out = Bytes::new(alloc);
    client.wake();
    put_asks(alloc, profile, client, &mut asks, &mut out)?;
    match write_all(link, out.as_slice()) {
        Ok(()) => hear_all(alloc, profile, client, link, asks, out),
        Err(_) => Err(Fault::Refused(SessionFault::LinkFault)),
    }
}

// Hears frames until nothing is asked any more.
fn hear_all<L: Link>(
    alloc: Global,
    profile: &Profile,
    client: &mut Client,
    link: &mut L,
    mut asks: Asks,
    mut out: Bytes,
) -> Result<u64, Fault<SessionFault>>
    requires next { client.old.next ≤ 2000000000 + MAX_ASKS }
    ensures hears { OverLink (L.Source.state link.old).left (L.Sink.state link.old).written (L.Sink.state link.new).written (λ bytes out. (frames : List Frame) × (last : List Frame) × HearsOn profile.now client.old bytes out client.new (end_as result) frames last) }
    ensures used { UsesLink (L.Source.state link.old) (L.Source.state link.new) (L.Sink.state link.old) (L.Sink.state link.new) (IsErrOf result (Fault.Refused SessionFault.LinkFault)) }
    ensures beside { L.beside link.new ≡ L.beside link.old }
    ensures never { LinkNeverFails (L.Source.state link.old) (L.Sink.state link.old) (MaySend (client_side profile.now) client.old) (IsErrOf result (Fault.Refused SessionFault.LinkFault)) }
{
    let mut packet = Bytes::new(alloc);
    for frames in 0..MAX_FRAMES {
        if !client.asking() {
            return Ok(frames);
        }
        hear_next(
            alloc,
            profile,
            client,
            link,
            &mut asks,
            &mut packet,
            &mut out,
        )?;
    }
    if client.asking() {
        return Err(Fault::Refused(SessionFault::TooManyFrames));
    }
    Ok(MAX_FRAMES)
}

// Hears the next frame, and asks for what is due.
fn hear_next<L: Link>(
    alloc: Global,
    profile: &Profile,
    client: &mut Client,
    link: &mut L,
    asks: &mut Asks,
    packet: &mut Bytes,
    out: &mut Bytes,
) -> Result<(), Fault<SessionFault>>
    requires next { client.old.next ≤ 2147483582 }
    requires asking { is_one_asking client.old ≡ true }
    ensures hears { HearsNext profile.now client.old (L.Source.state link.old).left (L.Sink.state link.old).written (L.Source.state link.new).left (L.Sink.state link.new).written client.new (end_as result) }
    ensures next { client.new.next ≤ client.old.next + MAX_ASKS }
    ensures used { UsesLink (L.Source.state link.old) (L.Source.state link.new) (L.Sink.state link.old) (L.Sink.state link.new) (IsErrOf result (Fault.Refused SessionFault.LinkFault)) }
    ensures beside { L.beside link.new ≡ L.beside link.old }
    ensures never { LinkNeverFails (L.Source.state link.old) (L.Sink.state link.old) (MaySendFor (client_side profile.now) 1 client.old) (IsErrOf result (Fault.Refused SessionFault.LinkFault)) }
{
    let Some(frame) = receive_frame(alloc, profile, link, packet)? else {
        return Err(Fault::Refused(SessionFault::Packet(PacketCause::Ended { had: 0 })));
    };
    match hear_frame(alloc, client, frame) {
        Ok(()) => {}
        Err(fault) => return Err(of_client(fault)),
    }
    put_asks(alloc, profile, client, asks, out)?;
    match write_all(link, out.as_slice()) {
        Ok(()) => Ok(()),
        Err(_) => Err(Fault::Refused(SessionFault::LinkFault)),
    }
}
