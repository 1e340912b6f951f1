//! The commands over schemas and the values that are spelled in them, by what happens in order: `check`, `decode`, `encode` and `layers`.
#![tactic(auto)]

mod check;
mod decode;
mod encode;
mod feeding;
mod layers;
mod output;
mod typed;

pub use check::{check_schema, run_check};
pub use decode::{decode_input, run_decode};
pub use encode::{encode_input, run_encode};
pub use layers::{compare_schemas, run_layers};
