//! Why tokens are no program and no type.
use std::alloc::{AllocError, AllocFailed};
use thiserror::Error;

/// A form of the language that this profile leaves out.
#[derive(Clone, Copy, Debug)]
pub enum UnsupportedForm {
    /// `#` after the colon in braces.
    DependentNumber,
    /// `[`, `*` or a Word that begins with a digit, where a field is expected.
    Multiplicity,
    /// A declaration that begins with `New`, `Final` or `Empty`.
    Lifecycle,
    /// A declaration that begins with another upper-case Word.
    PartialApplication,
    /// A declaration whose name is `_`.
    Anonymous,
    /// The name `Object` as a type.
    ObjectType,
    /// A field without a name.
    UnnamedField,
    /// `!` after the colon of a constructor's field.
    CallInConstructor,
    /// Another number of the vector line than 1cb5c415.
    VectorNumber,
}

/// The first fault of a text's tokens. A place is a byte of the text, or its length.
#[derive(Clone, Copy, Debug, Error)]
pub enum SyntaxFault {
    /// No rule admits the token here, or the end of the text.
    #[error("unexpected at {at}")]
    Unexpected { at: u32 },
    /// A form that is left out stands here.
    #[error("a form that is left out at {at}: {form:?}")]
    NotProfile { at: u32, form: UnsupportedForm },
    /// The 16,385th declaration, the 257th variable or field of one, or the 17th level of a type begins here.
    #[error("one too many at {at}")]
    TooMany { at: u32 },
    #[error("out of memory")]
    Memory,
}

impl From<AllocError> for SyntaxFault {
    ghost use Rattle.std.specs.Prelude.{◌≡◌};
    ghost use Rattle.tl_combinators.specs.declared.fault.SyntaxFault.TheVariants.{Memory};

    ghost from_gives = { λ _ e. e ≡ Memory };

    fn from(_e: AllocError) -> SyntaxFault {
        SyntaxFault::Memory
    }
}

impl<T: Drop> From<AllocFailed<T>> for SyntaxFault {
    ghost use Rattle.std.specs.Prelude.{◌≡◌};
    ghost use Rattle.tl_combinators.specs.declared.fault.SyntaxFault.TheVariants.{Memory};

    ghost from_gives = { λ _ e. e ≡ Memory };

    fn from(_e: AllocFailed<T>) -> SyntaxFault {
        SyntaxFault::Memory
    }
}
