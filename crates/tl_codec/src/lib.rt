//! Many values of one schema: bytes to lines of JSON and JSON to bytes, or the lines of refusals, as the program writes them; the list of a schema, and what is told of two.
#![tactic(auto)]

mod codec;
mod comparison;
mod laws;
mod line;
mod naming;
mod refusals;
mod spelling;

pub use codec::Codec;
pub use comparison::layers;
pub use laws::answers_as_program;
