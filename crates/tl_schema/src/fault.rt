//! Why a program is no schema, and a text names no type.
use std::alloc::{AllocError, AllocFailed};
use thiserror::Error;
use tl_combinators::SyntaxFault;
use tl_lexer::LexFault;

/// What is wrong with a declaration, in the order of the checks.
#[derive(Clone, Copy, Debug)]
pub enum CheckCause {
    /// A name that is taken, or a constructor of `Vector`.
    SameName,
    /// A type that no constructor makes, or the name of no constructor.
    UnknownType,
    /// A function's variable that doesn't stand in exactly one call, a call of no variable, or a variable in another field of a function.
    UnknownVariable,
    /// Another number of arguments than there are variables, or constructors of one type with different numbers of them.
    WrongArity,
    /// A constructor's result that is not a type's name followed by exactly its variables.
    BadResult,
    /// `%` before what has no bare form.
    NotBare,
    /// A condition on no earlier `#` field, or on a bit above 31.
    BadFlag,
    /// A number that is taken: an earlier declaration's, that of packed values, or that of `Vector`.
    SameNumber,
    /// A cycle of bare constructors, each of which holds the next.
    BareCycle,
    /// An argument that is a bare constructor without bytes.
    EmptyElement,
}

/// Why a program is no schema.
#[derive(Clone, Copy, Debug, Error)]
pub enum CheckFault {
    /// The first cause, in the order of the checks, that any declaration has; decl is the first declaration that has it, counted from 0.
    #[error("declaration {decl} is refused: {cause:?}")]
    Refused { decl: u32, cause: CheckCause },
    #[error("out of memory")]
    Memory,
}

/// What is wrong with a type, in the order of the checks.
#[derive(Clone, Copy, Debug)]
pub enum TypeCause {
    /// A type that no constructor makes, or the name of no constructor.
    UnknownType,
    /// Another number of arguments than there are variables.
    WrongArity,
    /// `%` before what has no bare form.
    NotBare,
    /// An argument that is a bare constructor without bytes.
    EmptyElement,
}

/// Why a text names no type.
#[derive(Clone, Copy, Debug, Error)]
pub enum TypeFault {
    /// The text has no tokens.
    #[error(transparent)]
    Lex(LexFault),
    /// The tokens are no type.
    #[error(transparent)]
    Syntax(SyntaxFault),
    /// The first cause, in the order of the checks, that the type has.
    #[error("the type is refused: {cause:?}")]
    Refused { cause: TypeCause },
    #[error("out of memory")]
    Memory,
}

impl From<AllocError> for CheckFault {
    ghost use Rattle.std.specs.Prelude.{◌≡◌};
    ghost use Rattle.tl_schema.specs.declared.fault.CheckFault.TheVariants.{Memory};

    ghost from_gives = { λ _ e. e ≡ Memory };

    fn from(_e: AllocError) -> CheckFault {
        CheckFault::Memory
    }
}

impl<T: Drop> From<AllocFailed<T>> for CheckFault {
    ghost use Rattle.std.specs.Prelude.{◌≡◌};
    ghost use Rattle.tl_schema.specs.declared.fault.CheckFault.TheVariants.{Memory};

    ghost from_gives = { λ _ e. e ≡ Memory };

    fn from(_e: AllocFailed<T>) -> CheckFault {
        CheckFault::Memory
    }
}

impl From<LexFault> for TypeFault {
    ghost use Rattle.std.specs.Prelude.{◌≡◌};
    ghost use Rattle.tl_schema.specs.inner.TypeFaults.{of_lex};

    ghost from_gives = { λ e fault. fault ≡ of_lex e };

    fn from(fault: LexFault) -> TypeFault {
        match fault {
            LexFault::Memory => TypeFault::Memory,
            other => TypeFault::Lex(other),
        }
    }
}

impl From<SyntaxFault> for TypeFault {
    ghost use Rattle.std.specs.Prelude.{◌≡◌};
    ghost use Rattle.tl_schema.specs.inner.TypeFaults.{of_syntax};

    ghost from_gives = { λ e fault. fault ≡ of_syntax e };

    fn from(fault: SyntaxFault) -> TypeFault {
        match fault {
            SyntaxFault::Memory => TypeFault::Memory,
            other => TypeFault::Syntax(other),
        }
    }
}

impl From<AllocError> for TypeFault {
    ghost use Rattle.std.specs.Prelude.{◌≡◌};
    ghost use Rattle.tl_schema.specs.declared.fault.TypeFault.TheVariants.{Memory};

    ghost from_gives = { λ _ e. e ≡ Memory };

    fn from(_e: AllocError) -> TypeFault {
        TypeFault::Memory
    }
}
