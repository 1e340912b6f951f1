//! Failures of the outside, and out of memory.
use std::alloc::{AllocError, AllocFailed};
use std::error::Error;
use std::fmt;
use thiserror::Error as DeriveError;

/// Out of memory: an allocation was refused.
pub type Memory = AllocError;

/// A call to the outside failed. What it stands for is as before, and its count of faults has risen.
#[derive(Clone, Copy, Debug, DeriveError)]
#[error("a call to the outside failed")]
pub struct Failed;

/// Why a call that may run out of memory has no result.
#[derive(Clone, Copy, Debug)]
pub enum Fault<C> {
    /// It is refused, for this cause.
    Refused(C),
    /// There was no memory.
    Memory,
}

impl<C: fmt::Display> fmt::Display for Fault<C> {
    fn fmt<W: fmt::Write>(&self, f: &mut fmt::Formatter<W>) -> fmt::Result {
        match self {
            Fault::Refused(cause) => write!(f, "{cause}"),
            Fault::Memory => write!(f, "out of memory"),
        }
    }
}

impl<C: fmt::Display + fmt::Debug + Drop> Error for Fault<C> {}

impl<C> From<AllocError> for Fault<C> {
    ghost use Rattle.std.specs.Prelude.{◌≡◌};
    ghost use Rattle.tl_base.specs.declared.fault.Fault.TheVariants.{Memory};

    ghost from_gives = { λ _ e. e ≡ Memory };

    fn from(_e: AllocError) -> Fault<C> {
        Fault::Memory
    }
}

impl<C, T: Drop> From<AllocFailed<T>> for Fault<C> {
    ghost use Rattle.std.specs.Prelude.{◌≡◌};
    ghost use Rattle.tl_base.specs.declared.fault.Fault.TheVariants.{Memory};

    ghost from_gives = { λ _ e. e ≡ Memory };

    fn from(_e: AllocFailed<T>) -> Fault<C> {
        Fault::Memory
    }
}
