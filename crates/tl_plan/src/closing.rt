//! Types with others in place of their variables, by numbers.
ghost use Rattle.std.specs.Prelude.{◌≡◌, [], IfOk, Some, length, map, slice_get};
ghost use Rattle.tl_schema.specs.Closing.{closed, closed_each};
ghost use Rattle.tl_schema.specs.Seen.{shape};
ghost use Rattle.tl_schema.specs.Types.{shapes_of};
ghost use Rattle.tl_plan.specs.inner.Nodes.{AreBelow, Grows, HasParts, type_by, types_at};

use crate::table::Table;
use std::alloc::{AllocError, Global};
use tl_schema::{TypeForm, TypeRef};

/// The number of the type, with the types of these numbers in place of its variables. A variable past them stays.
#[cycle(close)]
pub fn close(
    of: &TypeRef,
    args: &[u32],
    alloc: Global,
    table: &mut Table,
) -> Result<u32, AllocError>
    requires { AreBelow (length table.old) args.now }
    ensures grows { Grows table.old table.new }
    ensures closed { IfOk result (λ n. slice_get table.new n ≡ Some (closed (types_at table.old args.now) (shape of.now))) }
{
    match of {
        TypeRef::Int => leaf(alloc, TypeForm::Int, table),
        TypeRef::Long => leaf(alloc, TypeForm::Long, table),
        TypeRef::Nat => leaf(alloc, TypeForm::Nat, table),
        TypeRef::Double => leaf(alloc, TypeForm::Double, table),
        TypeRef::Int128 => leaf(alloc, TypeForm::Int128, table),
        TypeRef::Int256 => leaf(alloc, TypeForm::Int256, table),
        TypeRef::Str => leaf(alloc, TypeForm::Str, table),
        TypeRef::Raw => leaf(alloc, TypeForm::Raw, table),
        TypeRef::Flag => leaf(alloc, TypeForm::Flag, table),
        TypeRef::Call => leaf(alloc, TypeForm::Call, table),
        TypeRef::Var { index } => match args.get(*index as usize) {
            Some(arg) => Ok(*arg),
            None => leaf(alloc, TypeForm::Var { index: *index }, table),
        },
        TypeRef::Vector { boxed, item } => {
            let part = close(item, args, alloc, table)?;
            let mut parts = Vec::new(alloc);
            parts.push(part)?;
            table.number(alloc, TypeForm::Vector { boxed: *boxed }, parts)
        }
        TypeRef::Boxed { head, args: inner } => {
            let parts = close_each(inner, args, alloc, table)?;
            table.number(alloc, TypeForm::Boxed { head: *head }, parts)
        }
        TypeRef::Bare { entry, args: inner } => {
            let parts = close_each(inner, args, alloc, table)?;
            table.number(alloc, TypeForm::Bare { entry: *entry }, parts)
        }
    }
}

#[cycle(close)]
fn close_each(
    types: &Vec<TypeRef>,
    args: &[u32],
    alloc: Global,
    table: &mut Table,
) -> Result<Vec<u32>, AllocError>
    requires { AreBelow (length table.old) args.now }
    ensures grows { Grows table.old table.new }
    ensures below { IfOk result (λ ns. AreBelow (length table.new) ns.items) }
    ensures closed { IfOk result (λ ns. shapes_of (types_at table.new ns.items) ≡ closed_each (types_at table.old args.now) (shapes_of (map shape types.now.items))) }
{
    let mut all = Vec::new(alloc);
    for item in types {
        all.push(close(item, args, alloc, table)?)?;
    }
    Ok(all)
}

// The number of a type that has no parts.
fn leaf(alloc: Global, form: TypeForm, table: &mut Table) -> Result<u32, AllocError>
    requires { HasParts form [] }
    ensures grows { Grows table.old table.new }
    ensures number { IfOk result (λ n. slice_get table.new n ≡ Some (type_by form [])) }
{
    table.number(alloc, form, Vec::new(alloc))
}
