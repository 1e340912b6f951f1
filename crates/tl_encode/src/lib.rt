//! Bytes from values, for every type of a schema.
#![tactic(auto)]

mod encoder;
mod fault;
mod frames;
mod items;
mod laws;
mod openings;
mod spelling;
mod starts;
mod texts;
mod walk;
mod writing;

pub use encoder::{encode, spelled_len, spelling_of};
pub use fault::EncodeFault;
pub use laws::each_spelling_reads_back;
pub use spelling::spell;
pub use walk::{encode_walk, spelling_as};
