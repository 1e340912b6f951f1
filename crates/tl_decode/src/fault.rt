//! Why no value is read.
use std::alloc::{AllocError, AllocFailed};
use thiserror::Error;
use tl_types::Cause;

/// Why no value is read.
#[derive(Clone, Copy, Debug, Error)]
pub enum DecodeFault {
    /// The bytes begin no spelling of a value: the item at this offset is none, for this cause.
    #[error("refused at byte {place}: {cause}")]
    Refused { place: u64, cause: Cause },
    /// The source failed.
    #[error("read fault")]
    ReadFault,
    /// There was no memory for the value.
    #[error("out of memory")]
    Memory,
}

impl From<AllocError> for DecodeFault {
    ghost use Rattle.std.specs.Prelude.{◌≡◌};
    ghost use Rattle.tl_decode.specs.declared.fault.DecodeFault.TheVariants.{Memory};

    ghost from_gives = { λ _ e. e ≡ Memory };

    fn from(_e: AllocError) -> DecodeFault {
        DecodeFault::Memory
    }
}

impl<T: Drop> From<AllocFailed<T>> for DecodeFault {
    ghost use Rattle.std.specs.Prelude.{◌≡◌};
    ghost use Rattle.tl_decode.specs.declared.fault.DecodeFault.TheVariants.{Memory};

    ghost from_gives = { λ _ e. e ≡ Memory };

    fn from(_e: AllocFailed<T>) -> DecodeFault {
        DecodeFault::Memory
    }
}
