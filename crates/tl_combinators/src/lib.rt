//! Programs and types: what the tokens of a schema's text declare.
#![tactic(auto)]

mod built_in;
mod declarations;
mod description;
mod fault;
mod fields;
mod law;
mod names;
mod numbers;
mod parser;
mod reading;
mod types;

pub use fault::{SyntaxFault, UnsupportedForm};
pub use law::{each_list_of_pieces_has_one_description, each_list_of_tokens_is_read_or_refused};
pub use parser::{parse, parse_type};
pub use tl_program::{BuiltIn, Cond, Decl, Field, FieldKind, Program, TypeTree};
