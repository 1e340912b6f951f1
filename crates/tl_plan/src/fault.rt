//! Why some types have no plan.
use std::alloc::{AllocError, AllocFailed};
use thiserror::Error;

/// No type of a plan has more levels.
pub const MAX_LEVELS: u32 = 16;

/// No plan has more instances.
pub const MAX_INSTANCES: u32 = 65_536;

/// Why some types have no plan. The first 65,537 types that they reach are looked at.
#[derive(Clone, Copy, Debug, Error)]
pub enum PlanFault {
    /// A type has more than 16 levels; decl is the index of the declaration whose field names the first such, or the number of declarations where none does.
    #[error("declaration {decl} names a type deeper than 16 levels")]
    TypeTooDeep { decl: u32 },
    /// More than 65,536 types are reached.
    #[error("more than 65,536 types")]
    TooManyInstances,
    #[error("out of memory")]
    Memory,
}

impl From<AllocError> for PlanFault {
    ghost use Rattle.std.specs.Prelude.{◌≡◌};
    ghost use Rattle.tl_plan.specs.declared.fault.PlanFault.TheVariants.{Memory};

    ghost from_gives = { λ _ e. e ≡ Memory };

    fn from(_e: AllocError) -> PlanFault {
        PlanFault::Memory
    }
}

impl<T: Drop> From<AllocFailed<T>> for PlanFault {
    ghost use Rattle.std.specs.Prelude.{◌≡◌};
    ghost use Rattle.tl_plan.specs.declared.fault.PlanFault.TheVariants.{Memory};

    ghost from_gives = { λ _ e. e ≡ Memory };

    fn from(_e: AllocFailed<T>) -> PlanFault {
        PlanFault::Memory
    }
}
