//! Why a run is not made.
use std::alloc::AllocError;
use thiserror::Error;

/// Why a run is not made.
#[derive(Clone, Copy, Debug, Error)]
pub enum MadeFault {
    /// By the step at this offset of the journal all packets would come to so many bytes, more than a world's may have.
    #[error("at {at}: the pool would have {bytes} bytes")]
    PoolFull { at: u32, bytes: u32 },
    #[error("out of memory")]
    Memory,
}

impl From<AllocError> for MadeFault {
    ghost use Rattle.std.specs.Prelude.{◌≡◌};
    ghost use Rattle.update_replay.specs.declared.made_fault.MadeFault.TheVariants.{Memory};

    ghost from_gives = { λ _ e. e ≡ Memory };

    fn from(_e: AllocError) -> MadeFault {
        MadeFault::Memory
    }
}
