//! What a text declares: programs, types as they are written, and the types that the language has from the start.
#![tactic(auto)]

mod built_in;
mod program;
mod tree;

pub use built_in::{BuiltIn, boxed_name};
pub use program::{Cond, Decl, Field, FieldKind, Program};
pub use tree::{TypeTree, is_plain};
