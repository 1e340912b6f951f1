//! Types resolved.
ghost use Rattle.std.specs.Prelude.{◌≡◌, [], IfOk, map};
ghost use Rattle.tl_program.specs.Trees.{trees_of, view, views};
ghost use Rattle.tl_program.specs.Program.{DeclText};
ghost use Rattle.tl_names.specs.Meants.{meant, meant_by, meants_by, meants_of};
ghost use Rattle.tl_names.specs.MeantViews.{meant_view, what_in};

use crate::index::Index;
use crate::meant::Meant;
use crate::names::Names;
use std::alloc::{AllocError, Global};
use tl_program::TypeTree;

/// A type with no variables around it, with each name resolved.
pub fn resolve_type(alloc: Global, index: &Index, tree: &TypeTree) -> Result<Meant, AllocError>
    ensures { (d : DeclText) → d.vars ≡ [] → IfOk result (λ m. meant_view m ≡ meant index.now d (view tree.now)) }
{
    meant_type(alloc, index, &Names::new(alloc, index.hash()), tree)
}

/// A type where a declaration with these variables writes it.
#[cycle(types)]
pub fn meant_type(
    alloc: Global,
    index: &Index,
    vars: &Names,
    tree: &TypeTree,
) -> Result<Meant, AllocError>
    ensures { IfOk result (λ m. meant_view m ≡ meant_by (what_in index.now vars.now) (view tree.now)) }
{
    match tree {
        TypeTree::Named { name, args } => Ok(Meant::Named {
            what: index.what(vars, name.as_slice()),
            args: meant_types(alloc, index, vars, args)?,
        }),
        TypeTree::Percent { tree } => {
            let meant = meant_type(alloc, index, vars, tree)?;
            Ok(Meant::Percent {
                meant: Box::new(alloc, meant)?,
            })
        }
        TypeTree::AnyCall => Ok(Meant::AnyCall),
    }
}

#[cycle(types)]
fn meant_types(
    alloc: Global,
    index: &Index,
    vars: &Names,
    trees: &[TypeTree],
) -> Result<Vec<Meant>, AllocError>
    ensures { IfOk result (λ ms. meants_of (map meant_view ms.items) ≡ meants_by (what_in index.now vars.now) (trees_of (views trees.now))) }
{
    let mut meant = Vec::new(alloc);
    for tree in trees {
        meant.push(meant_type(alloc, index, vars, tree)?)?;
    }
    Ok(meant)
}
