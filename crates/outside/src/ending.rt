//! How a run ends.
ghost use Rattle.outside.specs.Runs.{Finishes};

use crate::Status;
use crate::host::Host;
use crate::pieces::tell;
use std::alloc::AllocError;

/// The status of a run. Where it ran out of memory, that is told.
pub fn finish<H: Host>(host: &mut H, done: Result<Status, AllocError>) -> Status
    ensures { Finishes done (H.state host.old) (H.state host.new) result }
{
    match done {
        Ok(status) => status,
        Err(_) => tell(host, b"tlbox: memory\n", Status::Memory),
    }
}
