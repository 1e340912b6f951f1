//! The forms of the protocol, and what stands in values of these forms.
#![tactic(auto)]

mod form;
mod making;
pub mod numbers;
mod parts;
mod table;

pub use form::{Cell, Form, Part};
pub use making::{bodies_value, call, counted, ids_value, node, number, text_value};
pub use parts::{count_in, entry_in, entry_of, int_in, int_of, parts_in, parts_of, word_in};
pub use table::{forms, type_names};
