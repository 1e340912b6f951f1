//! Types with others in place of their variables.
ghost use Rattle.std.specs.Prelude.{◌≡◌, IfOk, map};
ghost use Rattle.tl_schema.specs.Closing.{closed, closed_each};
ghost use Rattle.tl_schema.specs.Seen.{shape};
ghost use Rattle.tl_schema.specs.Types.{shapes_of};

use std::alloc::{AllocError, Global};
use tl_schema::TypeRef;

/// The type, with the arguments in place of its variables. A variable past them stays.
#[cycle(close)]
pub fn close(of: &TypeRef, args: &[TypeRef], alloc: Global) -> Result<TypeRef, AllocError>
    ensures closed { IfOk result (λ t. shape t ≡ closed (map shape args.now) (shape of.now)) }
{
    match of {
        TypeRef::Int => Ok(TypeRef::Int),
        TypeRef::Long => Ok(TypeRef::Long),
        TypeRef::Nat => Ok(TypeRef::Nat),
        TypeRef::Double => Ok(TypeRef::Double),
        TypeRef::Int128 => Ok(TypeRef::Int128),
        TypeRef::Int256 => Ok(TypeRef::Int256),
        TypeRef::Str => Ok(TypeRef::Str),
        TypeRef::Raw => Ok(TypeRef::Raw),
        TypeRef::Flag => Ok(TypeRef::Flag),
        TypeRef::Call => Ok(TypeRef::Call),
        TypeRef::Var { index } => match args.get(*index as usize) {
            Some(arg) => copy_type(arg, alloc),
            None => Ok(TypeRef::Var { index: *index }),
        },
        TypeRef::Vector { boxed, item } => {
            let closed = close(item, args, alloc)?;
            Ok(TypeRef::Vector {
                boxed: *boxed,
                item: Box::new(alloc, closed)?,
            })
        }
        TypeRef::Boxed { head, args: inner } => Ok(TypeRef::Boxed {
            head: *head,
            args: close_each(inner, args, alloc)?,
        }),
        TypeRef::Bare { entry, args: inner } => Ok(TypeRef::Bare {
            entry: *entry,
            args: close_each(inner, args, alloc)?,
        }),
    }
}

#[cycle(close)]
fn close_each(
    types: &Vec<TypeRef>,
    args: &[TypeRef],
    alloc: Global,
) -> Result<Vec<TypeRef>, AllocError>
    ensures closed { IfOk result (λ ts. shapes_of (map shape ts.items) ≡ closed_each (map shape args.now) (shapes_of (map shape types.now.items))) }
{
    let mut all = Vec::new(alloc);
    for item in types {
        all.push(close(item, args, alloc)?)?;
    }
    Ok(all)
}

// A copy of a type.
#[cycle(copy_type)]
fn copy_type(of: &TypeRef, alloc: Global) -> Result<TypeRef, AllocError>
    ensures copy { IfOk result (λ t. shape t ≡ shape of.now) }
{
    match of {
        TypeRef::Int => Ok(TypeRef::Int),
        TypeRef::Long => Ok(TypeRef::Long),
        TypeRef::Nat => Ok(TypeRef::Nat),
        TypeRef::Double => Ok(TypeRef::Double),
        TypeRef::Int128 => Ok(TypeRef::Int128),
        TypeRef::Int256 => Ok(TypeRef::Int256),
        TypeRef::Str => Ok(TypeRef::Str),
        TypeRef::Raw => Ok(TypeRef::Raw),
        TypeRef::Flag => Ok(TypeRef::Flag),
        TypeRef::Call => Ok(TypeRef::Call),
        TypeRef::Var { index } => Ok(TypeRef::Var { index: *index }),
        TypeRef::Vector { boxed, item } => {
            let copy = copy_type(item, alloc)?;
            Ok(TypeRef::Vector {
                boxed: *boxed,
                item: Box::new(alloc, copy)?,
            })
        }
        TypeRef::Boxed { head, args } => Ok(TypeRef::Boxed {
            head: *head,
            args: copy_types(args, alloc)?,
        }),
        TypeRef::Bare { entry, args } => Ok(TypeRef::Bare {
            entry: *entry,
            args: copy_types(args, alloc)?,
        }),
    }
}

// Copies of types, in order.
#[cycle(copy_type)]
fn copy_types(types: &Vec<TypeRef>, alloc: Global) -> Result<Vec<TypeRef>, AllocError>
    ensures copies { IfOk result (λ ts. map shape ts.items ≡ map shape types.now.items) }
{
    let mut copies = Vec::new(alloc);
    for item in types {
        copies.push(copy_type(item, alloc)?)?;
    }
    Ok(copies)
}
