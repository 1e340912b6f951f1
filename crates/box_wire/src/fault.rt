//! Why a message is not spelled, and why no step is read.
use std::alloc::{AllocError, AllocFailed};
use thiserror::Error;
use wire_profile::WireFault;

/// Why a frame or a call is not spelled.
#[derive(Clone, Copy, Debug, Error)]
pub enum SpellFault {
    /// The spelling has more than `MAX_FRAME_BYTES` bytes: so many.
    #[error("a spelling of {length} bytes")]
    TooLong { length: u64 },
    #[error("out of memory")]
    Memory,
}

impl From<AllocError> for SpellFault {
    ghost use Rattle.std.specs.Prelude.{◌≡◌};
    ghost use Rattle.box_wire.specs.declared.fault.SpellFault.TheVariants.{Memory};

    ghost from_gives = { λ _ e. e ≡ Memory };

    fn from(_e: AllocError) -> SpellFault {
        SpellFault::Memory
    }
}

impl<T: Drop> From<AllocFailed<T>> for SpellFault {
    ghost use Rattle.std.specs.Prelude.{◌≡◌};
    ghost use Rattle.box_wire.specs.declared.fault.SpellFault.TheVariants.{Memory};

    ghost from_gives = { λ _ e. e ≡ Memory };

    fn from(_e: AllocFailed<T>) -> SpellFault {
        SpellFault::Memory
    }
}

/// Why no step is read.
#[derive(Clone, Copy, Debug, Error)]
pub enum StepReadFault {
    /// The bytes are no step.
    #[error(transparent)]
    Wire(WireFault),
    /// The source failed.
    #[error("read fault")]
    ReadFault,
    #[error("out of memory")]
    Memory,
}

impl From<AllocError> for StepReadFault {
    ghost use Rattle.std.specs.Prelude.{◌≡◌};
    ghost use Rattle.box_wire.specs.declared.fault.StepReadFault.TheVariants.{Memory};

    ghost from_gives = { λ _ e. e ≡ Memory };

    fn from(_e: AllocError) -> StepReadFault {
        StepReadFault::Memory
    }
}
