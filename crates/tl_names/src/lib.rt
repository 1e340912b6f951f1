//! What the names of a program mean: each resolved once, to a variable, a built-in type, a type or a constructor.
#![tactic(auto)]

mod bare_references;
mod decl_tests;
mod declarations;
mod empty_constructors;
mod fields;
mod index;
mod meant;
mod name_hash;
mod names;
mod parts;
mod types;
mod what;
mod writing;

pub use bare_references::{bare_of, references};
pub use decl_tests::{DeclTest, first_that, first_that_writes};
pub use declarations::resolve;
pub use empty_constructors::empties;
pub use index::{Constructors, Index};
pub use meant::{Meant, MeantCond, MeantDecl, MeantField, MeantKind};
pub use name_hash::NameHash;
pub use names::Names;
pub use parts::{TypeTest, has_part, is_in_fields, writes};
pub use types::resolve_type;
pub use what::What;
pub use writing::{is_constructor, is_function, is_type_name, is_variable, own_type, result_head};
