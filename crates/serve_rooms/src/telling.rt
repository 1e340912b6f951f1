//! How a session ended is told: a line on Output or on Errors.
ghost use Rattle.std.specs.Prelude.{◌≡◌, IfOk, Some};
ghost use Rattle.outside.specs.Begun.{Did};
ghost use Rattle.session_commands.specs.Lines.{served_line};
ghost use Rattle.session_commands.specs.Serve.{first_fault};
ghost use Rattle.serve_rooms.specs.Telling.{TellsEnd, TellsFault, TellsLine, goes_on};
ghost use Rattle.serve_rooms.specs.inner.Ends.{told_by};

use outside::{Host, Status, Stop, tell, write_out};
use session_commands::session_stop;
use std::alloc::{AllocError, Global};
use tl_base::Out;
use update_sessions::SessionFault;

/// What sessions came to so far: the status of the first fault, and whether each line stands whole on Errors.
#[derive(Clone, Copy)]
pub struct Tally {
    pub status: Status,
    pub whole: bool,
}

/// Tells how the session with this number ended. An error is the status with which the run is over.
pub fn tell_end<H: Host>(
    alloc: Global,
    host: &mut H,
    number: u32,
    end: Result<u64, SessionFault>,
    tally: Tally,
) -> Result<Result<Tally, Status>, AllocError>
    ensures { Did (TellsEnd number tally end) (H.state host.old) (H.state host.new) (told_by result) }
{
    match end {
        Ok(frames) => tell_frames(alloc, host, number, frames, tally),
        Err(fault) => match session_stop(alloc, fault) {
            Stop::Peer(line) => Ok(Ok(tell_fault(host, tally, &line, Status::PeerFault))),
            Stop::LinkFault => {
                let line = b"tlbox: link fault\n";
                Ok(Ok(tell_fault(host, tally, line, Status::LinkFault)))
            }
            _ => Err(AllocError),
        },
    }
}

// Tells of a session without a fault on Output.
fn tell_frames<H: Host>(
    alloc: Global,
    host: &mut H,
    number: u32,
    frames: u64,
    tally: Tally,
) -> Result<Result<Tally, Status>, AllocError>
    ensures { Did (TellsEnd number tally (Ok frames)) (H.state host.old) (H.state host.new) (told_by result) }
{
    let line = served_line(alloc, number, frames)?;
    match write_out(host, Out::Output, &line) {
        Ok(()) => Ok(Ok(tally)),
        Err(_) => Ok(Err(tell(host, b"tlbox: write fault\n", Status::WriteFault))),
    }
}

// The line of a session without a fault.
fn served_line(alloc: Global, number: u32, frames: u64) -> Result<Vec<u8>, AllocError>
    ensures { IfOk result (λ line. line.items ≡ served_line number frames) }
{
    let line = format!(in alloc; "session {number} frames {frames}\n")?;
    Ok(line.into_bytes())
}

// Tells a fault on Errors. A fault in writing it leaves the status.
fn tell_fault<H: Host>(host: &mut H, tally: Tally, line: &[u8], status: Status) -> Tally
    ensures { Did (TellsFault tally line.now status) (H.state host.old) (H.state host.new) (Some (goes_on result)) }
{
    Tally {
        status: first_fault(tally.status, status),
        whole: tell_line(host, tally.whole, line),
    }
}

// Writes a line to Errors, where all lines before it stand there whole.
fn tell_line<H: Host>(host: &mut H, whole: bool, line: &[u8]) -> bool
    ensures { Did (TellsLine whole line.now) (H.state host.old) (H.state host.new) (Some result) }
{
    if !whole {
        return false;
    }
    write_out(host, Out::Errors, line).is_ok()
}

// The status of the first of two sessions that has a fault's.
fn first_fault(before: Status, status: Status) -> Status
    ensures { result ≡ first_fault before status }
{
    match before {
        Status::Done => status,
        fault => fault,
    }
}
