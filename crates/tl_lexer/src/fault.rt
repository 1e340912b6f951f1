//! Why a text has no tokens.
use std::alloc::{AllocError, AllocFailed};
use thiserror::Error;

/// The first fault of a text.
#[derive(Clone, Copy, Debug, Error)]
pub enum LexFault {
    /// The text has more than 4,194,304 bytes.
    #[error("the text is too long")]
    TextTooLong,
    /// This byte begins no token, no white space and no comment.
    #[error("no token begins at byte {at}")]
    BadByte { at: u32 },
    /// The comment that begins here never closes.
    #[error("the comment at byte {at} is open")]
    OpenComment { at: u32 },
    #[error("out of memory")]
    Memory,
}

impl From<AllocError> for LexFault {
    ghost use Rattle.std.specs.Prelude.{◌≡◌};
    ghost use Rattle.tl_lexer.specs.declared.fault.LexFault.TheVariants.{Memory};

    ghost from_gives = { λ _ e. e ≡ Memory };

    fn from(_e: AllocError) -> LexFault {
        LexFault::Memory
    }
}

impl<T: Drop> From<AllocFailed<T>> for LexFault {
    ghost use Rattle.std.specs.Prelude.{◌≡◌};
    ghost use Rattle.tl_lexer.specs.declared.fault.LexFault.TheVariants.{Memory};

    ghost from_gives = { λ _ e. e ≡ Memory };

    fn from(_e: AllocFailed<T>) -> LexFault {
        LexFault::Memory
    }
}
