//! Values as JSON, and JSON as values.
#![tactic(auto)]

mod choosing;
mod copying;
mod direct;
mod fault;
mod form;
mod forms;
mod from_text;
mod held;
mod json_forms;
mod json_keys;
mod keyed;
mod keying;
mod laws;
mod line;
mod parts;
mod plain;
mod quoting;
mod reading;
mod records;
mod scope;
mod sink;
mod texts;
mod tokens;
mod tree;
mod writing;

pub use fault::{FormCause, JsonFault, JsonTextFault};
pub use from_text::{JsonReader, read_text};
pub use json_forms::JsonForms;
pub use json_keys::JsonKeys;
pub use laws::{each_text_tells, each_value_reads_back};
pub use line::{JsonPrinter, show_text};
pub use reading::read;
pub use sink::TextSink;
pub use tree::show;
