//! Why a channel isn't watched.
use std::alloc::AllocError;
use thiserror::Error;

/// Why a channel isn't watched from now on.
#[derive(Clone, Copy, Debug, Error)]
pub enum WatchFault {
    #[error("the channel is watched already")]
    Already,
    /// 64 others are watched.
    #[error("too many channels are watched")]
    TooMany,
    #[error("out of memory")]
    Memory,
}

impl From<AllocError> for WatchFault {
    ghost use Rattle.std.specs.Prelude.{◌≡◌};
    ghost use Rattle.channel_box.specs.declared.fault.WatchFault.TheVariants.{Memory};

    ghost from_gives = { λ _ e. e ≡ Memory };

    fn from(_e: AllocError) -> WatchFault {
        WatchFault::Memory
    }
}
