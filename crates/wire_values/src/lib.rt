//! Messages as values of the protocol's forms, and back.
#![tactic(auto)]

mod call_reader;
mod call_writer;
mod fields;
mod frame_reader;
mod frame_writer;
mod laws;
mod lists;
mod post_reader;
mod post_writer;
mod saved_reader;
mod saved_writer;
mod step_reader;
mod step_writer;
mod update_reader;
mod update_writer;

pub use call_reader::call_of;
pub use call_writer::call_value;
pub use frame_reader::frame_of;
pub use frame_writer::frame_value;
pub use laws::{calls_and_values, frames_and_values, saved_clients_and_values, steps_and_values};
pub use saved_reader::saved_of;
pub use saved_writer::{VERSION, saved_value};
pub use step_reader::step_of;
pub use step_writer::step_value;
