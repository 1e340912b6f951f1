//! Why a call has no result, and why it isn't sent.
use std::alloc::AllocError;
use thiserror::Error;

/// Why a call's result is no type that is answered in.
#[derive(Clone, Copy, Debug, Error)]
pub enum ResultCause {
    /// It has more than 16 levels.
    #[error("a result deeper than 16 levels")]
    TypeTooDeep,
    /// An argument in it is a bare constructor that takes no bytes.
    #[error("a result with an argument that takes no bytes")]
    EmptyElement,
}

/// Why no result is made.
#[derive(Clone, Copy, Debug, Error)]
pub enum ResultFault {
    #[error(transparent)]
    Refused(ResultCause),
    #[error("out of memory")]
    Memory,
}

/// Why a call is not sent.
#[derive(Clone, Copy, Debug, Error)]
pub enum SendFault {
    /// 1,024 calls are open.
    #[error("1,024 calls are open")]
    Full,
    #[error(transparent)]
    Result(ResultCause),
    #[error("out of memory")]
    Memory,
}

impl From<AllocError> for ResultFault {
    ghost use Rattle.std.specs.Prelude.{◌≡◌};
    ghost use Rattle.tl_calls.specs.declared.fault.ResultFault.TheVariants.{Memory};

    ghost from_gives = { λ _ e. e ≡ Memory };

    fn from(_e: AllocError) -> ResultFault {
        ResultFault::Memory
    }
}

impl From<AllocError> for SendFault {
    ghost use Rattle.std.specs.Prelude.{◌≡◌};
    ghost use Rattle.tl_calls.specs.declared.fault.SendFault.TheVariants.{Memory};

    ghost from_gives = { λ _ e. e ≡ Memory };

    fn from(_e: AllocError) -> SendFault {
        SendFault::Memory
    }
}
