//! Images of types.
ghost use Rattle.std.specs.Prelude.{◌≡◌, IfOk, map};
ghost use Rattle.tl_plan.specs.Types.{are_same, is_same};
ghost use Rattle.tl_schema.specs.Seen.{shape};
ghost use Rattle.tl_schema.specs.Types.{shapes_of, var};
ghost use Rattle.tl_layers.specs.Counterparts.{image, image_each};

use crate::pairs::Pair;
use std::alloc::{AllocError, Global};
use tl_schema::TypeRef;

/// Whether the new type is the image of the old one.
#[cycle(is_image)]
pub fn is_image(of: &TypeRef, made: &TypeRef, pair: &Pair) -> bool
    ensures { result ≡ is_same (shape made.now) (image pair.now.old pair.now.new (shape of.now)) }
{
    match of {
        TypeRef::Int => matches!(made, TypeRef::Int),
        TypeRef::Long => matches!(made, TypeRef::Long),
        TypeRef::Nat => matches!(made, TypeRef::Nat),
        TypeRef::Double => matches!(made, TypeRef::Double),
        TypeRef::Int128 => matches!(made, TypeRef::Int128),
        TypeRef::Int256 => matches!(made, TypeRef::Int256),
        TypeRef::Str => matches!(made, TypeRef::Str),
        TypeRef::Raw => matches!(made, TypeRef::Raw),
        TypeRef::Flag => matches!(made, TypeRef::Flag),
        TypeRef::Call => matches!(made, TypeRef::Call),
        TypeRef::Var { index } => is_variable(made, *index),
        TypeRef::Vector { boxed, item } => match made {
            TypeRef::Vector {
                boxed: other,
                item: made,
            } => { *other == *boxed && is_image(item, made, pair) }
            _ => false,
        },
        TypeRef::Boxed { head, args } => match made {
            TypeRef::Boxed {
                head: other,
                args: made,
            } => { *other == pair.head_image(*head) && are_images(args, made, pair) }
            _ => false,
        },
        TypeRef::Bare { entry, args } => match made {
            TypeRef::Bare {
                entry: other,
                args: made,
            } => { *other == pair.entry_image(*entry) && are_images(args, made, pair) }
            _ => false,
        },
    }
}

// Whether each new type is the image of the old one at its index, and there are as many.
#[cycle(is_image)]
fn are_images(all: &Vec<TypeRef>, made: &Vec<TypeRef>, pair: &Pair) -> bool
    ensures { result ≡ are_same (shapes_of (map shape made.now.items)) (image_each pair.now.old pair.now.new (shapes_of (map shape all.now.items))) }
{
    if all.len() != made.len() {
        return false;
    }
    for (i, of) in all.iter().enumerate() {
        if !is_image(of, &made[i], pair) {
            return false;
        }
    }
    true
}

// Whether a type is this variable.
fn is_variable(made: &TypeRef, index: u32) -> bool
    ensures { result ≡ is_same (shape made.now) (var index) }
{
    match made {
        TypeRef::Var { index: other } => *other == index,
        _ => false,
    }
}

/// The image of a type.
#[cycle(image_of)]
pub fn image_of(of: &TypeRef, pair: &Pair, alloc: Global) -> Result<TypeRef, AllocError>
    ensures { IfOk result (λ t. shape t ≡ image pair.now.old pair.now.new (shape of.now)) }
{
    match of {
        TypeRef::Int => Ok(TypeRef::Int),
        TypeRef::Long => Ok(TypeRef::Long),
        TypeRef::Nat => Ok(TypeRef::Nat),
        TypeRef::Double => Ok(TypeRef::Double),
        TypeRef::Int128 => Ok(TypeRef::Int128),
        TypeRef::Int256 => Ok(TypeRef::Int256),
        TypeRef::Str => Ok(TypeRef::Str),
        TypeRef::Raw => Ok(TypeRef::Raw),
        TypeRef::Flag => Ok(TypeRef::Flag),
        TypeRef::Call => Ok(TypeRef::Call),
        TypeRef::Var { index } => Ok(TypeRef::Var { index: *index }),
        TypeRef::Vector { boxed, item } => {
            let image = image_of(item, pair, alloc)?;
            Ok(TypeRef::Vector {
                boxed: *boxed,
                item: Box::new(alloc, image)?,
            })
        }
        TypeRef::Boxed { head, args } => Ok(TypeRef::Boxed {
            head: pair.head_image(*head),
            args: images_of(args, pair, alloc)?,
        }),
        TypeRef::Bare { entry, args } => Ok(TypeRef::Bare {
            entry: pair.entry_image(*entry),
            args: images_of(args, pair, alloc)?,
        }),
    }
}

// Images of types, in order.
#[cycle(image_of)]
fn images_of(all: &Vec<TypeRef>, pair: &Pair, alloc: Global) -> Result<Vec<TypeRef>, AllocError>
    ensures { IfOk result (λ ts. shapes_of (map shape ts.items) ≡ image_each pair.now.old pair.now.new (shapes_of (map shape all.now.items))) }
{
    let mut images = Vec::new(alloc);
    for of in all {
        images.push(image_of(of, pair, alloc)?)?;
    }
    Ok(images)
}
