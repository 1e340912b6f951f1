//! Why messages and other events make no list.
use thiserror::Error;

/// Why messages and other events make no list of events.
#[derive(Clone, Copy, Debug, Error)]
pub enum WeaveFault {
    /// The other event that ends at `pts` starts below the end of the one before it or below `from`, or ends past `to`. It is the first such.
    #[error("an event that ends at {pts} overlaps")]
    Overlap { pts: u32 },
    /// The messages and the other events count for `covered` numbers, and `from` with these is not `to`.
    #[error("{covered} numbers from {from} are not {to}")]
    Uneven { from: u32, covered: u32, to: u32 },
}
