//! Answers, printed.
ghost use Rattle.std.specs.Prelude.{Some};
ghost use Rattle.outside.specs.Answer.{done};
ghost use Rattle.outside.specs.Jobs.{making};
ghost use Rattle.outside.specs.Begun.{Did};
ghost use Rattle.outside.specs.Printing.{Prints, PrintsMade, Unread};
ghost use Rattle.outside.specs.Runs.{answered};

use crate::host::Host;
use crate::pieces::{tell, write_out};
use crate::{LoadError, Status};
use std::alloc::AllocError;
use tl_base::Out;

/// Writes a text to Output. A fault in that is told.
pub fn print<H: Host>(host: &mut H, text: &[u8]) -> Status
    ensures { Did (Prints (done text.now)) (H.state host.old) (H.state host.new) (Some result) }
{
    match write_out(host, Out::Output, text) {
        Ok(()) => Status::Done,
        Err(_) => tell(host, b"tlbox: write fault\n", Status::WriteFault),
    }
}

/// Tells that a file can't be read.
pub fn unread<H: Host>(host: &mut H) -> Status
    ensures { Did Unread (H.state host.old) (H.state host.new) (Some result) }
{
    tell(host, b"tlbox: read fault\n", Status::ReadFault)
}

/// Writes what was made to Output, or tells why it was not made.
pub fn print_made<H: Host>(
    host: &mut H,
    made: Result<Vec<u8>, LoadError>,
) -> Result<Status, AllocError>
    ensures { PrintsMade (making made) (H.state host.old) (H.state host.new) (answered result) }
{
    match made {
        Ok(text) => Ok(print(host, &text)),
        Err(LoadError::Refused(line)) => Ok(tell(host, &line, Status::Refused)),
        Err(LoadError::ReadFault) => Ok(unread(host)),
        Err(LoadError::Memory) => Err(AllocError),
    }
}
