//! Sessions of a server.
ghost use Rattle.std.specs.Prelude.{◌≡◌, ◌<◌, ◌^◌, List, IsErrOf};
ghost use Rattle.box_events.specs.declared.requests.Numbered.{Numbered};
ghost use Rattle.box_server.specs.Servers.{dated_at};
ghost use Rattle.update_sessions.specs.Exchanges.{MaySend};
ghost use Rattle.update_sessions.specs.Faults.{end_as};
ghost use Rattle.update_sessions.specs.Links.{LinkNeverFails, OverLink, UsesLink};
ghost use Rattle.update_sessions.specs.Served.{Serves};
ghost use Rattle.update_sessions.specs.Serving.{server_side};

use crate::fault::SessionFault;
use crate::storing::{StoreSession, store_session};
use box_server::{Server, Stored};
use std::alloc::Global;
use std::mem::replace;
use tl_base::{Fault, Link};
use wire_profile::Profile;

/// Answers each call of a link to its end, and says how many there were. The clock shows `now`, in seconds. The receipt of a post goes out with its push, in one write.
pub fn serve_session<L: Link>(
    alloc: Global,
    profile: &Profile,
    server: &mut Server,
    link: &mut L,
    now: u32,
) -> Result<u64, Fault<SessionFault>>
    requires moment { now < 2 ^ 31 }
    ensures serves { OverLink (L.Source.state link.old).left (L.Sink.state link.old).written (L.Sink.state link.new).written (λ bytes out. (calls : List Numbered) × Serves profile.now (dated_at server.old now) bytes out server.new (end_as result) calls) }
    ensures used { UsesLink (L.Source.state link.old) (L.Source.state link.new) (L.Sink.state link.old) (L.Sink.state link.new) (IsErrOf result (Fault.Refused SessionFault.LinkFault)) }
    ensures beside { L.beside link.new ≡ L.beside link.old }
    ensures never { LinkNeverFails (L.Source.state link.old) (L.Sink.state link.old) (MaySend (server_side profile.now) (dated_at server.old now)) (IsErrOf result (Fault.Refused SessionFault.LinkFault)) }
{
    let mut store = Stored::over(replace(server, Server::new(alloc)));
    let end = store_session(alloc, profile, &mut store, link, now);
    *server = store.into_server();
    match end {
        Ok(calls) => Ok(calls),
        Err(StoreSession::Session { fault }) => Err(Fault::Refused(fault)),
        Err(StoreSession::Memory) => Err(Fault::Memory),
        Err(StoreSession::Failed) => unreachable!(),
    }
}
