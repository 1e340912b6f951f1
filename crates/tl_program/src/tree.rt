//! Types as they are written.
ghost use Rattle.std.specs.Prelude.{◌≡◌};
ghost use Rattle.tl_program.specs.Trees.{is_plain, view};

use tl_numbers::Bytes;

/// A type, parentheses aside: a name and the types that it is applied to, `%` and a type, or any call (`!` alone).
pub enum TypeTree {
    Named { name: Bytes, args: Vec<TypeTree> },
    Percent { tree: Box<TypeTree> },
    AnyCall,
}

// By hand, so that each exit of an owner has one call to prove.
impl Drop for TypeTree {
    fn drop(self) {
        match self {
            TypeTree::Named { name: _, args: _ } => {}
            TypeTree::Percent { tree: _ } => {}
            TypeTree::AnyCall => {}
        }
    }
}

/// Whether a type is a name alone.
pub fn is_plain(tree: &TypeTree, name: &[u8]) -> bool
    ensures { result ≡ is_plain name.now (view tree.now) }
{
    match tree {
        TypeTree::Named { name: own, args } => args.is_empty() && own.as_slice() == name,
        TypeTree::Percent { .. } => false,
        TypeTree::AnyCall => false,
    }
}
