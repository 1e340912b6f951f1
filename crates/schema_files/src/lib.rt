//! Schemas, their types and inputs of JSON from texts and words, for each command: the thing, or a refusal with its line.
#![tactic(auto)]

mod json_input;
mod lines;
mod schema_text;
mod shown;
mod text;
mod type_plan;
mod type_word;

pub use json_input::{JSON_BYTES, fit_error, form_by, formed_value};
pub use lines::{cause_error, cause_text};
pub use schema_text::{SCHEMA_BYTES, schema_of};
pub use shown::{line_by, printed_line, put_line, value_line};
pub use type_plan::plan_of;
pub use type_word::{type_named, type_spelled};
