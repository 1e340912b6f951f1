//! Resolved types as types of the schema.
ghost use Rattle.std.specs.Prelude.{◌≡◌, IfOk, map};
ghost use Rattle.tl_names.specs.Meants.{meants_of};
ghost use Rattle.tl_names.specs.MeantViews.{meant_view};
ghost use Rattle.tl_schema.specs.Types.{shapes_of, vector};
ghost use Rattle.tl_schema.specs.Seen.{shape};
ghost use Rattle.tl_schema.specs.Meanings.{bare_form, built_in_shape, item_of, meant_shape, meant_shapes, named_shape};

use crate::schema::TypeRef;
use std::alloc::{AllocError, Global};
use std::mem::replace;
use tl_combinators::BuiltIn;
use tl_names::{Index, Meant, What};

/// A resolved type.
#[cycle(terms)]
pub fn type_term(alloc: Global, index: &Index, meant: &Meant) -> Result<TypeRef, AllocError>
    ensures { IfOk result (λ t. shape t ≡ meant_shape index.now (meant_view meant.now)) }
{
    match meant {
        Meant::Named { what, args } => {
            let args = type_terms(alloc, index, args)?;
            named_term(alloc, *what, args)
        }
        Meant::Percent { meant } => {
            let term = type_term(alloc, index, meant)?;
            Ok(bare_term(alloc, index, term))
        }
        Meant::AnyCall => Ok(TypeRef::Call),
    }
}

#[cycle(terms)]
fn type_terms(alloc: Global, index: &Index, meants: &[Meant]) -> Result<Vec<TypeRef>, AllocError>
    ensures { IfOk result (λ ts. shapes_of (map shape ts.items) ≡ meant_shapes index.now (meants_of (map meant_view meants.now))) }
{
    let mut terms = Vec::new(alloc);
    for meant in meants {
        terms.push(type_term(alloc, index, meant)?)?;
    }
    Ok(terms)
}

// A name that means this, applied to these types.
fn named_term(alloc: Global, what: What, args: Vec<TypeRef>) -> Result<TypeRef, AllocError>
    ensures { IfOk result (λ t. shape t ≡ named_shape what (shapes_of (map shape args.items))) }
{
    match what {
        What::Variable { index } => Ok(TypeRef::Var { index }),
        What::Base { built_in } => built_in_term(alloc, built_in),
        What::Vector { is_boxed } => vector_term(alloc, is_boxed, args),
        What::Type { number } => Ok(TypeRef::Boxed { head: number, args }),
        What::Constructor { index } => Ok(TypeRef::Bare { entry: index, args }),
        What::Unknown => Ok(TypeRef::Call),
    }
}

// A vector of the first of these types.
fn vector_term(alloc: Global, is_boxed: bool, args: Vec<TypeRef>) -> Result<TypeRef, AllocError>
    ensures { IfOk result (λ t. shape t ≡ vector is_boxed (item_of (shapes_of (map shape args.items)))) }
{
    let item = match args.into_iter().next() {
        Some(item) => item,
        None => TypeRef::Call,
    };
    Ok(TypeRef::Vector {
        boxed: is_boxed,
        item: Box::new(alloc, item)?,
    })
}

// The bare form of a type.
fn bare_term(alloc: Global, index: &Index, mut term: TypeRef) -> TypeRef
    ensures { shape result ≡ bare_form index.now (shape term) }
{
    match &mut term {
        TypeRef::Vector { boxed, .. } => *boxed = false,
        TypeRef::Boxed { head, args } => {
            return TypeRef::Bare {
                entry: index.first(*head),
                args: replace(args, Vec::new(alloc)),
            };
        }
        _ => {}
    }
    term
}

/// A built-in type, as its line has it: `vector` is boxed there, and of a variable.
pub fn built_in_term(alloc: Global, built_in: BuiltIn) -> Result<TypeRef, AllocError>
    ensures { IfOk result (λ t. shape t ≡ built_in_shape built_in) }
{
    match built_in {
        BuiltIn::Int => Ok(TypeRef::Int),
        BuiltIn::Long => Ok(TypeRef::Long),
        BuiltIn::Double => Ok(TypeRef::Double),
        BuiltIn::Str => Ok(TypeRef::Str),
        BuiltIn::Bytes => Ok(TypeRef::Raw),
        BuiltIn::Vector => Ok(TypeRef::Vector {
            boxed: true,
            item: Box::new(alloc, TypeRef::Var { index: 0 })?,
        }),
        BuiltIn::Int128 => Ok(TypeRef::Int128),
        BuiltIn::Int256 => Ok(TypeRef::Int256),
    }
}
