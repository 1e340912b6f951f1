//! How a run over a keeper ends.
ghost use Rattle.std.specs.Prelude.{◌≡◌};
ghost use Rattle.serve_rooms.specs.Status.{kept_number};

use box_server::Keeper;
use outside::Status;
use std::alloc::AllocError;

/// The status of a run whose posts are kept.
#[derive(Clone, Copy)]
pub enum KeptStatus {
    /// As a run without a keeper ends.
    Run(Status),
    /// 8: a call to the keeper failed.
    KeepFault,
}

impl KeptStatus {
    /// The number that a process ends with.
    pub fn code(self) -> u8
        ensures number { result ≡ kept_number self }
    {
        match self {
            KeptStatus::Run(status) => status.code(),
            KeptStatus::KeepFault => 8,
        }
    }
}

/// A run over a keeper that has ended: the keeper that is left, and the status, or that memory ran out.
#[derive(Drop)]
pub struct KeptRun<K: Keeper> {
    pub keeper: K,
    pub end: Result<KeptStatus, AllocError>,
}
