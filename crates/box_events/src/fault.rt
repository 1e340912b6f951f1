//! Why a box does not take an event.
use std::alloc::{AllocError, AllocFailed};
use thiserror::Error;

/// Why a box does not take an event.
#[derive(Clone, Copy, Debug, Error)]
pub enum BoxFault {
    /// The box ends at so many, and with the event it would end above 1,000,000.
    #[error("the box is full at {at}")]
    BoxFull { at: u32 },
    #[error("out of memory")]
    Memory,
}

impl From<AllocError> for BoxFault {
    ghost use Rattle.std.specs.Prelude.{◌≡◌};
    ghost use Rattle.box_events.specs.declared.fault.BoxFault.TheVariants.{Memory};

    ghost from_gives = { λ _ e. e ≡ Memory };

    fn from(_e: AllocError) -> BoxFault {
        BoxFault::Memory
    }
}

impl<T: Drop> From<AllocFailed<T>> for BoxFault {
    ghost use Rattle.std.specs.Prelude.{◌≡◌};
    ghost use Rattle.box_events.specs.declared.fault.BoxFault.TheVariants.{Memory};

    ghost from_gives = { λ _ e. e ≡ Memory };

    fn from(_e: AllocFailed<T>) -> BoxFault {
        BoxFault::Memory
    }
}
