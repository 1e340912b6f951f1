//! The fifth check: results of constructors.
ghost use Rattle.std.specs.Prelude.{◌≡◌, ◌↔◌, IsTrue, map};
ghost use Rattle.tl_program.specs.Program.{decl_text};
ghost use Rattle.tl_program.specs.Trees.{plain, view, views};
ghost use Rattle.tl_schema.specs.BadResult.{IsGoodResult};

use tl_combinators::{Decl, TypeTree};
use tl_names::{DeclTest, Index, MeantDecl, is_constructor, is_type_name, is_variable};
use tl_numbers::Bytes;

/// Whether a declaration is an own constructor whose result isn't a type applied to the declaration's variables in order.
#[derive(Clone, Copy)]
pub struct OtherResult;

impl DeclTest for OtherResult {
    ghost use Rattle.tl_schema.specs.BadResult.{HasBadResult};

    ghost holds = { λ s ds. HasBadResult };

    fn passes(&self, _index: &Index, decl: &Decl, _meant: &MeantDecl) -> bool {
        if !is_constructor(decl) {
            return false;
        }
        !is_good_result(decl)
    }
}

fn is_good_result(decl: &Decl) -> bool
    ensures { IsTrue result ↔ IsGoodResult (decl_text decl.now) }
{
    match &decl.result {
        TypeTree::Named { name, args } => {
            is_type_name(name.as_slice())
                && !is_variable(decl, name.as_slice())
                && are_names(args, &decl.vars)
        }
        TypeTree::Percent { .. } => false,
        TypeTree::AnyCall => false,
    }
}

// Whether the types are these names in order, each applied to nothing.
fn are_names(trees: &[TypeTree], names: &[Bytes]) -> bool
    ensures { IsTrue result ↔ (views trees.now ≡ map plain names.now) }
{
    if trees.len() != names.len() {
        return false;
    }
    for (i, tree) in trees.iter().enumerate() {
        if !is_name(tree, names[i].as_slice()) {
            return false;
        }
    }
    true
}

// Whether a type is the name, applied to nothing.
fn is_name(tree: &TypeTree, name: &[u8]) -> bool
    ensures { IsTrue result ↔ (view tree.now ≡ plain name.now) }
{
    match tree {
        TypeTree::Named { name: head, args } => args.is_empty() && head.as_slice() == name,
        TypeTree::Percent { .. } => false,
        TypeTree::AnyCall => false,
    }
}
