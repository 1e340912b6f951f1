//! Why no spelling is written.
use std::alloc::AllocError;
use thiserror::Error;
use tl_base::WriteFault;
use tl_types::{FitFault, Misfit};

/// Why the spelling of a value isn't written.
#[derive(Debug, Drop, Error)]
pub enum EncodeFault {
    /// The value doesn't fit its type.
    #[error("a misfit: {}", .0.cause)]
    Misfit(Misfit),
    /// The sink failed.
    #[error("write fault")]
    WriteFault,
    /// There was no memory for the spelling.
    #[error("out of memory")]
    Memory,
}

impl From<AllocError> for EncodeFault {
    ghost use Rattle.std.specs.Prelude.{◌≡◌};
    ghost use Rattle.tl_encode.specs.declared.fault.EncodeFault.TheVariants.{Memory};

    ghost from_gives = { λ _ e. e ≡ Memory };

    fn from(_e: AllocError) -> EncodeFault {
        EncodeFault::Memory
    }
}

impl From<WriteFault> for EncodeFault {
    ghost use Rattle.std.specs.Prelude.{◌≡◌};
    ghost use Rattle.tl_encode.specs.declared.fault.EncodeFault.TheVariants as faults;

    ghost from_gives = { λ _ e. e ≡ faults.WriteFault };

    fn from(_e: WriteFault) -> EncodeFault {
        EncodeFault::WriteFault
    }
}

impl From<FitFault> for EncodeFault {
    ghost use Rattle.std.specs.Prelude.{◌≡◌};
    ghost use Rattle.tl_encode.specs.Encoding.{as_encode_fault};

    ghost from_gives = { λ fault e. e ≡ as_encode_fault fault };

    fn from(fault: FitFault) -> EncodeFault {
        match fault {
            FitFault::Misfit(misfit) => EncodeFault::Misfit(misfit),
            FitFault::Memory => EncodeFault::Memory,
        }
    }
}
