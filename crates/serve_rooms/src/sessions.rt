//! Sessions at an address, one after the other.
ghost use Rattle.std.specs.Prelude.{true};
ghost use Rattle.outside.specs.Runs.{answered};
ghost use Rattle.serve_rooms.specs.Acts.{beside};
ghost use Rattle.serve_rooms.specs.Doing.{DidKept};
ghost use Rattle.serve_rooms.specs.Sessions.{ServesAll, after_listen};

use crate::connection::serve_next;
use crate::status::KeptStatus;
use crate::telling::Tally;
use box_server::{Keeper, Stored};
use outside::{Host, Status, tell};
use std::alloc::{AllocError, Global};
use wire_profile::Profile;

/// Serves so many sessions at an address, one after the other.
pub fn serve_all<H: Host, K: Keeper>(
    alloc: Global,
    host: &mut H,
    profile: &Profile,
    address: &str,
    sessions: u32,
    store: &mut Stored<K>,
) -> Result<KeptStatus, AllocError>
    ensures { DidKept (ServesAll address.now sessions store.old.server profile.now) (beside (H.state host.old) (K.state store.old.keeper)) (beside (H.state host.new) (K.state store.new.keeper)) (answered result) }
{
    match host.listen(address) {
        Ok(()) => serve_listening(alloc, host, profile, sessions, store),
        Err(_) => {
            let status = tell(host, b"tlbox: link fault\n", Status::LinkFault);
            Ok(KeptStatus::Run(status))
        }
    }
}

// Likewise, where connections are taken.
fn serve_listening<H: Host, K: Keeper>(
    alloc: Global,
    host: &mut H,
    profile: &Profile,
    sessions: u32,
    store: &mut Stored<K>,
) -> Result<KeptStatus, AllocError>
    ensures { DidKept (after_listen profile.now sessions store.old.server true) (beside (H.state host.old) (K.state store.old.keeper)) (beside (H.state host.new) (K.state store.new.keeper)) (answered result) }
{
    let mut tally = Tally {
        status: Status::Done,
        whole: true,
    };
    for number in 0..sessions {
        match serve_next(alloc, host, profile, store, number, tally)? {
            Ok(so_far) => tally = so_far,
            Err(status) => return Ok(status),
        }
    }
    Ok(KeptStatus::Run(tally.status))
}
