//! Why a schema is no profile.
use std::alloc::{AllocError, AllocFailed};
use thiserror::Error;
use tl_base::Bytes;

/// Why a schema is no profile: its first difference from the profile's text, by the forms in its order, and then its further constructors.
#[derive(Debug, Drop, Error)]
pub enum ProfileFault {
    /// No declaration has the form's name, as a constructor or a function.
    #[error("a form is missing")]
    Missing { name: Bytes },
    /// A form's declaration has other variables, fields or another result; or the declaration is a further constructor of one of the types.
    #[error("a declaration differs")]
    Differs { name: Bytes },
    #[error("out of memory")]
    Memory,
}

impl From<AllocError> for ProfileFault {
    ghost use Rattle.std.specs.Prelude.{◌≡◌};
    ghost use Rattle.wire_profile.specs.declared.fault.ProfileFault.TheVariants.{Memory};

    ghost from_gives = { λ _ e. e ≡ Memory };

    fn from(_e: AllocError) -> ProfileFault {
        ProfileFault::Memory
    }
}

impl<T: Drop> From<AllocFailed<T>> for ProfileFault {
    ghost use Rattle.std.specs.Prelude.{◌≡◌};
    ghost use Rattle.wire_profile.specs.declared.fault.ProfileFault.TheVariants.{Memory};

    ghost from_gives = { λ _ e. e ≡ Memory };

    fn from(_e: AllocFailed<T>) -> ProfileFault {
        ProfileFault::Memory
    }
}
