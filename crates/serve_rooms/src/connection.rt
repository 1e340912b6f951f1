//! One session: the next link is taken and served, and how that ended is told.
ghost use Rattle.std.specs.Prelude.{◌<◌, ◌^◌};
ghost use Rattle.box_server.specs.Keeping.{KeeperState};
ghost use Rattle.box_server.specs.Servers.{ServerState};
ghost use Rattle.serve_rooms.specs.Acts.{beside};
ghost use Rattle.serve_rooms.specs.Answering.{over};
ghost use Rattle.serve_rooms.specs.Doing.{DidKept};
ghost use Rattle.serve_rooms.specs.Sessions.{ServesNext, after_moment, after_session};
ghost use Rattle.serve_rooms.specs.inner.Ends.{next_by};

use crate::answering::serve_link;
use crate::status::KeptStatus;
use crate::telling::{Tally, tell_end};
use box_server::{KeepFault, Keeper, Stored};
use outside::{Host, Status, tell};
use std::alloc::{AllocError, Global};
use update_sessions::SessionFault;
use wire_profile::Profile;

/// Takes the next link, serves the session with this number over it, and tells how that ended.
pub fn serve_next<H: Host, K: Keeper>(
    alloc: Global,
    host: &mut H,
    profile: &Profile,
    store: &mut Stored<K>,
    number: u32,
    tally: Tally,
) -> Result<Result<Tally, KeptStatus>, AllocError>
    ensures { DidKept (ServesNext profile.now number store.old.server tally) (beside (H.state host.old) (K.state store.old.keeper)) (beside (H.state host.new) (K.state store.new.keeper)) (next_by store.new.server result) }
{
    match host.accept() {
        Ok(()) => {
            let now = host.now();
            serve_from(alloc, host, profile, store, number, tally, now)
        }
        Err(_) => {
            let status = tell(host, b"tlbox: link fault\n", Status::LinkFault);
            Ok(Err(KeptStatus::Run(status)))
        }
    }
}

// Serves the link in hand from a moment on, and tells how that ended.
fn serve_from<H: Host, K: Keeper>(
    alloc: Global,
    host: &mut H,
    profile: &Profile,
    store: &mut Stored<K>,
    number: u32,
    tally: Tally,
    now: u32,
) -> Result<Result<Tally, KeptStatus>, AllocError>
    requires moment { now < 2 ^ 31 }
    ensures { DidKept (after_moment profile.now number store.old.server tally now) (beside (H.state host.old) (K.state store.old.keeper)) (beside (H.state host.new) (K.state store.new.keeper)) (next_by store.new.server result) }
{
    store.set_date(now);
    match serve_link(alloc, host, profile, store) {
        Ok(end) => tell_session(alloc, host, number, end, tally),
        Err(KeepFault::Failed) => {
            let status = tell(host, b"tlbox: keep fault\n", KeptStatus::KeepFault);
            Ok(Err(status))
        }
        Err(KeepFault::Memory) => Err(AllocError),
    }
}

// Tells how a session ended, whatever server and keeper are left.
fn tell_session<H: Host>(
    alloc: Global,
    host: &mut H,
    number: u32,
    end: Result<u64, SessionFault>,
    tally: Tally,
) -> Result<Result<Tally, KeptStatus>, AllocError>
    ensures { (s : ServerState) (k : KeeperState) → DidKept (after_session number tally (over s end)) (beside (H.state host.old) k) (beside (H.state host.new) k) (next_by s result) }
{
    match tell_end(alloc, host, number, end, tally) {
        Ok(Ok(tally)) => Ok(Ok(tally)),
        Ok(Err(status)) => Ok(Err(KeptStatus::Run(status))),
        Err(fault) => Err(fault),
    }
}
