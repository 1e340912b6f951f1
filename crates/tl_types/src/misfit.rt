//! Why a value doesn't fit a type, and where.
use std::alloc::{AllocError, AllocFailed};
use thiserror::Error;

/// Why a value doesn't fit a type, its parts aside.
#[derive(Clone, Copy, Debug, Error)]
pub enum MisfitCause {
    /// It is of another kind than the type's values. What isn't there is of the right kind in a field with a condition, and nowhere else.
    #[error("a value of another kind")]
    WrongKind,
    /// A record is of no constructor of the type, or a call of no function.
    #[error("a record or call of another declaration")]
    WrongConstructor,
    /// A record or call has more or fewer values than its declaration has fields, or an opaque value more or fewer bytes than its type.
    #[error("another count of fields or bytes")]
    WrongCount,
    /// A field is there though its bit is clear, or isn't there though it is set.
    #[error("a field that its bit contradicts")]
    FlagMismatch,
    /// A string has 2^24 bytes or more, or a list 2^31 elements or more.
    #[error("a string or list that is too long")]
    OutOfRange,
    /// A list, a record or a call would be the 121st level.
    #[error("a value deeper than 120 levels")]
    TooDeep,
}

/// Where a value doesn't fit, and why.
#[derive(Debug, Drop)]
pub struct Misfit {
    /// The way to the part, the outermost step first: a field by its index in the declaration, an element by its index in the list.
    pub path: Vec<u32>,
    pub cause: MisfitCause,
}

/// What is answered of a value that doesn't fit.
#[derive(Debug, Drop, Error)]
pub enum FitFault {
    #[error("a misfit: {}", .0.cause)]
    Misfit(Misfit),
    /// There was no memory for the types of its parts, or for the path.
    #[error("out of memory")]
    Memory,
}

impl From<AllocError> for FitFault {
    ghost use Rattle.std.specs.Prelude.{◌≡◌};
    ghost use Rattle.tl_types.specs.declared.misfit.FitFault.TheVariants.{Memory};

    ghost from_gives = { λ _ e. e ≡ Memory };

    fn from(_e: AllocError) -> FitFault {
        FitFault::Memory
    }
}

impl<T: Drop> From<AllocFailed<T>> for FitFault {
    ghost use Rattle.std.specs.Prelude.{◌≡◌};
    ghost use Rattle.tl_types.specs.declared.misfit.FitFault.TheVariants.{Memory};

    ghost from_gives = { λ _ e. e ≡ Memory };

    fn from(_e: AllocFailed<T>) -> FitFault {
        FitFault::Memory
    }
}
