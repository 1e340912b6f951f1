//! Schemas: which programs are, and which types they have.
#![tactic(auto)]

mod bad_flag;
mod bad_result;
mod by_number;
mod checks;
mod empty_element;
mod entries;
mod fault;
mod form;
mod laws;
mod not_bare;
mod pass_checks;
mod pass_type;
mod same_name;
mod same_number;
mod schema;
mod terms;
mod types;
mod unknown_type;
mod unknown_variable;
mod wrong_arity;

pub use checks::check;
pub use fault::{CheckCause, CheckFault, TypeCause, TypeFault};
pub use form::{TypeForm, form_of};
pub use laws::{
    closing_keeps_formed, each_program_is_a_schema_or_refused, each_text_is_a_type_or_refused,
    fields_are_formed, results_are_formed,
};
pub use schema::{Entry, Schema, SchemaField, TypeRef};
pub use types::type_of;
