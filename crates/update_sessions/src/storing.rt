//! Sessions of a server whose posts are kept.
ghost use Rattle.std.specs.Prelude.{◌≡◌, ◌<◌, ◌^◌, Err, IsErrOf};
ghost use Rattle.box_server.specs.Servers.{dated_at};
ghost use Rattle.box_server.specs.Keeping.{Keeps};
ghost use Rattle.update_sessions.specs.declared.fault.TheConstants.{MAX_FRAMES};
ghost use Rattle.update_sessions.specs.Exchanges.{MaySend, MaySendFor};
ghost use Rattle.update_sessions.specs.Kept.{RoomFor, Stores, end_of};
ghost use Rattle.update_sessions.specs.Links.{LinkNeverFails, UsesLink};
ghost use Rattle.update_sessions.specs.Serving.{server_side};
ghost use Rattle.update_sessions.specs.inner.StoreSteps.{StoresNext, of_session};

use crate::answering::answer_packet;
use crate::fault::{MAX_FRAMES, SessionFault, of_packet};
use box_server::{Keeper, Stored};
use std::alloc::Global;
use tl_base::{Bytes, Fault, Link, read_packet, write_all};
use wire_profile::Profile;

/// Why a session of a store ended.
#[derive(Clone, Copy)]
pub enum StoreSession {
    /// As a session of its server ends.
    Session { fault: SessionFault },
    Memory,
    /// The keeper failed at a post, for which nothing was written.
    Failed,
}

/// Answers each call of a link to its end, and says how many there were. A new post is kept before it is answered, and its receipt goes out with
/// its push, in one write. The clock shows `now`, in seconds.
pub fn store_session<K: Keeper, L: Link>(
    alloc: Global,
    profile: &Profile,
    store: &mut Stored<K>,
    link: &mut L,
    now: u32,
) -> Result<u64, StoreSession>
    requires moment { now < 2 ^ 31 }
    ensures stores { Stores profile.now (dated_at store.old.server now) (L.Source.state link.old).left (L.Sink.state link.old).written (L.Sink.state link.new).written (K.state store.old.keeper).entries (K.state store.new.keeper).entries (end_of store.new.server result) }
    ensures kept { Keeps (K.state store.old.keeper) (K.state store.new.keeper) (IsErrOf result StoreSession.Failed) (RoomFor profile.now MAX_FRAMES (dated_at store.old.server now) (L.Source.state link.old).left (L.Sink.state link.old).written (K.state store.old.keeper).room) }
    ensures used { UsesLink (L.Source.state link.old) (L.Source.state link.new) (L.Sink.state link.old) (L.Sink.state link.new) (IsErrOf result (StoreSession.Session SessionFault.LinkFault)) }
    ensures beside { L.beside link.new ≡ L.beside link.old }
    ensures never { LinkNeverFails (L.Source.state link.old) (L.Sink.state link.old) (MaySend (server_side profile.now) (dated_at store.old.server now)) (IsErrOf result (StoreSession.Session SessionFault.LinkFault)) }
{
    store.set_date(now);
    let mut packet = Bytes::new(alloc);
    let mut out = Bytes::new(alloc);
    for calls in 0..MAX_FRAMES {
        let more = match serve_next(alloc, profile, store, link, &mut packet, &mut out) {
            Ok(more) => more,
            Err(end) => return Err(end),
        };
        if !more {
            return Ok(calls);
        }
    }
    Err(StoreSession::Session {
        fault: SessionFault::TooManyFrames,
    })
}

// Answers the next call. False: the link has ended. Not in line: LLVM takes twenty minutes over the copies of a large keeper else.
#[inline(never)]
fn serve_next<K: Keeper, L: Link>(
    alloc: Global,
    profile: &Profile,
    store: &mut Stored<K>,
    link: &mut L,
    packet: &mut Bytes,
    out: &mut Bytes,
) -> Result<bool, StoreSession>
    ensures stores { StoresNext profile.now store.old.server (L.Source.state link.old).left (L.Sink.state link.old).written (L.Source.state link.new).left (L.Sink.state link.new).written (K.state store.old.keeper).entries (K.state store.new.keeper).entries (end_of store.new.server result) }
    ensures kept { Keeps (K.state store.old.keeper) (K.state store.new.keeper) (IsErrOf result StoreSession.Failed) (RoomFor profile.now 1 store.old.server (L.Source.state link.old).left (L.Sink.state link.old).written (K.state store.old.keeper).room) }
    ensures used { UsesLink (L.Source.state link.old) (L.Source.state link.new) (L.Sink.state link.old) (L.Sink.state link.new) (IsErrOf result (StoreSession.Session SessionFault.LinkFault)) }
    ensures beside { L.beside link.new ≡ L.beside link.old }
    ensures never { LinkNeverFails (L.Source.state link.old) (L.Sink.state link.old) (MaySendFor (server_side profile.now) 1 store.old.server) (IsErrOf result (StoreSession.Session SessionFault.LinkFault)) }
{
    match read_packet(link, packet) {
        Ok(true) => {}
        Ok(false) => return Ok(false),
        Err(fault) => return Err(of_session(of_packet(fault))),
    }
    match answer_packet(alloc, profile, store, packet.as_slice(), out) {
        Ok(()) => {}
        Err(end) => return Err(end),
    }
    match write_all(link, out.as_slice()) {
        Ok(()) => Ok(true),
        Err(_) => Err(StoreSession::Session {
            fault: SessionFault::LinkFault,
        }),
    }
}

// How a session of a store ends where its server's does so.
fn of_session(fault: Fault<SessionFault>) -> StoreSession
    ensures { result ≡ of_session fault }
{
    match fault {
        Fault::Refused(fault) => StoreSession::Session { fault },
        Fault::Memory => StoreSession::Memory,
    }
}
