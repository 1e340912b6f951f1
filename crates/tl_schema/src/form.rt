//! The outermost parts of types.
ghost use Rattle.tl_schema.specs.Forms.{HasForm};
ghost use Rattle.tl_schema.specs.Seen.{shape};

use crate::schema::TypeRef;

/// The outermost part of a closed type.
#[derive(Clone, Copy)]
pub enum TypeForm {
    /// 32 bits, signed.
    Int,
    /// 64 bits, signed.
    Long,
    /// `#`: 32 bits, unsigned.
    Nat,
    /// Eight bytes.
    Double,
    /// Sixteen bytes.
    Int128,
    /// Thirty-two bytes.
    Int256,
    /// `string`.
    Str,
    /// `bytes`.
    Raw,
    /// `?true`: a flag, which takes no bytes.
    Flag,
    /// A call of any function.
    Call,
    /// A variable that nothing stands in place of; no instance of a plan is one.
    Var { index: u32 },
    Vector { boxed: bool },
    /// One of the constructors of the type with this number.
    Boxed { head: u32 },
    /// The constructor at this index among the declarations, without its number.
    Bare { entry: u32 },
}

/// The outermost part of a type.
pub fn form_of(of: &TypeRef) -> TypeForm
    ensures { HasForm (shape of.now) result }
{
    match of {
        TypeRef::Int => TypeForm::Int,
        TypeRef::Long => TypeForm::Long,
        TypeRef::Nat => TypeForm::Nat,
        TypeRef::Double => TypeForm::Double,
        TypeRef::Int128 => TypeForm::Int128,
        TypeRef::Int256 => TypeForm::Int256,
        TypeRef::Str => TypeForm::Str,
        TypeRef::Raw => TypeForm::Raw,
        TypeRef::Flag => TypeForm::Flag,
        TypeRef::Call => TypeForm::Call,
        TypeRef::Var { index } => TypeForm::Var { index: *index },
        TypeRef::Vector { boxed, .. } => TypeForm::Vector { boxed: *boxed },
        TypeRef::Boxed { head, .. } => TypeForm::Boxed { head: *head },
        TypeRef::Bare { entry, .. } => TypeForm::Bare { entry: *entry },
    }
}
