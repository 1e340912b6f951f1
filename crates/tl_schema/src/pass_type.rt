//! The checks of a type alone.
ghost use Rattle.std.specs.Prelude.{◌≡◌, Err};
ghost use Rattle.tl_names.specs.MeantViews.{meant_view};
ghost use Rattle.tl_schema.specs.inner.TypeSteps.{PassesType};
ghost use Rattle.tl_names.specs.inner.BareSteps.{MarksEmpty};
ghost use Rattle.tl_schema.specs.inner.AskedForms.{ForAsked};

use crate::empty_element::EmptyArgument;
use crate::not_bare::NoBare;
use crate::unknown_type::UnknownName;
use crate::wrong_arity::Application;
use crate::{TypeCause, TypeFault};
use tl_names::{Index, Meant, has_part};

/// Refuses a type for the first cause that it has, where these constructors take no bytes.
pub fn pass_type(index: &Index, marks: &[bool], meant: &Meant) -> Result<(), TypeFault>
    requires { MarksEmpty index.now marks.now }
    ensures { ForAsked index.now (meant_view meant.now) (λ t. PassesType index.now t result) }
{
    if has_part(index, meant, &UnknownName) {
        return refused(TypeCause::UnknownType);
    }
    if has_part(index, meant, &Application) {
        return refused(TypeCause::WrongArity);
    }
    if has_part(index, meant, &NoBare) {
        return refused(TypeCause::NotBare);
    }
    if has_part(index, meant, &EmptyArgument { marks }) {
        return refused(TypeCause::EmptyElement);
    }
    Ok(())
}

fn refused(cause: TypeCause) -> Result<(), TypeFault>
    ensures { result ≡ Err (TypeFault.Refused cause) }
{
    Err(TypeFault::Refused { cause })
}
