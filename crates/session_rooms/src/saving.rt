//! What is left of a client: State, and the line of where it is.
ghost use Rattle.std.specs.Prelude.{◌≡◌, Some, true};
ghost use Rattle.box_client.specs.States.{ClientState};
ghost use Rattle.outside.specs.Runs.{answered};
ghost use Rattle.outside.specs.Begun.{Did, DidIn, to_link};
ghost use Rattle.session_commands.specs.Client.{client_line};
ghost use Rattle.session_commands.specs.SessionEnds.{session_line};
ghost use Rattle.session_rooms.specs.Client.{Leaves, after_create, ends_by};

use box_client::Client;
use outside::{Host, Status, Stop, print, tell, write_out};
use session_commands::{SavedState, saved_state, session_stop};
use std::alloc::{AllocError, Global};
use tl_base::Out;
use update_sessions::SessionFault;
use wire_profile::Profile;

/// Saves a client under a name, and writes where it is.
pub fn save_client<H: Host>(
    alloc: Global,
    host: &mut H,
    profile: &Profile,
    name: &str,
    client: &Client,
) -> Result<Status, AllocError>
    ensures { DidIn to_link (Leaves profile.now name.now client.now) (H.state host.old) (H.state host.new) (answered result) }
{
    let saving = saved_state(alloc, profile, client)?;
    match host.create(Out::State, name) {
        Ok(()) => Ok(write_state(host, &saving)),
        Err(_) => Ok(tell(host, b"tlbox: write fault\n", Status::WriteFault)),
    }
}

// Writes State, which was created, and then the line.
fn write_state<H: Host>(host: &mut H, saving: &SavedState) -> Status
    ensures { (c : ClientState) → saving.now.line.items ≡ client_line c → Did (after_create c saving.now.state true) (H.state host.old) (H.state host.new) (Some result) }
{
    match write_out(host, Out::State, saving.state.as_slice()) {
        Ok(()) => print(host, &saving.line),
        Err(_) => tell(host, b"tlbox: write fault\n", Status::WriteFault),
    }
}

/// Tells why a session ended before its time.
pub fn tell_session<H: Host>(
    alloc: Global,
    host: &mut H,
    fault: SessionFault,
) -> Result<Status, AllocError>
    ensures { DidIn to_link (ends_by (session_line fault)) (H.state host.old) (H.state host.new) (answered result) }
{
    match session_stop(alloc, fault) {
        Stop::Peer(line) => Ok(tell(host, &line, Status::PeerFault)),
        Stop::LinkFault => Ok(tell(host, b"tlbox: link fault\n", Status::LinkFault)),
        _ => Err(AllocError),
    }
}
