//! Callers of the libraries, a module for each main use. docs/LIBRARY.md shows them.
#![tactic(auto)]

mod answers;
mod clients;
mod encoding;
mod entries;
mod layers;
mod packets;
mod pieces;
mod schemas;
mod servers;

pub use answers::{TakeAnswerFault, take_answer};
pub use clients::{hear_and_ask, take_reply};
pub use encoding::bytes_of;
pub use entries::post_once;
pub use layers::moved_up;
pub use packets::{EchoFault, echo_packet};
pub use pieces::value_from;
pub use schemas::{SchemaTextFault, ValueFault, schema_of, value_of};
pub use servers::post_and_answer;
