//! Why a step is not made.
use thiserror::Error;

/// Why a step is not made. Where several causes hold, the first in this order is answered.
#[derive(Clone, Copy, Debug, Error)]
pub enum StepFault {
    #[error("there is no client {n}")]
    NoClient { n: u32 },
    #[error("there is no packet {n}")]
    NoPacket { n: u32 },
    /// The packet goes to another end.
    #[error("packet {n} goes to another end")]
    WrongEnd { n: u32 },
    /// All packets would come to so many bytes, more than `MAX_POOL_BYTES`.
    #[error("the pool would have {bytes} bytes")]
    PoolFull { bytes: u32 },
}
