//! Messages, steps and saved clients as bytes of a profile's schema, and back.
#![tactic(auto)]

mod calls;
mod fault;
mod frames;
mod laws;
mod saved;
mod steps;
mod wholes;

pub use calls::{read_call, spell_call};
pub use fault::{SpellFault, StepReadFault};
pub use frames::{decode_frame, frame_of_value, read_frame, spell_frame};
pub use laws::{calls_and_bytes, frames_and_bytes, saved_clients_and_bytes, steps_and_bytes};
pub use saved::{read_saved, spell_saved};
pub use steps::{read_step, spell_step};
pub use tl_base::Fault;
