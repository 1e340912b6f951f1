//! A schema that has the forms of the protocol.
#![tactic(auto)]

mod breaking;
mod causes;
mod checking;
mod fault;
mod finding;
mod laws;
mod layout;
mod planning;
mod profile;
mod ranges;
mod renaming;
mod rule;
mod standing;
mod tables;
mod text;
mod updates;
mod wire_fault;
mod wire_laws;

pub use causes::{call_cause, frame_cause, saved_cause, step_cause};
pub use fault::ProfileFault;
pub use laws::forms_are_spelled;
pub use profile::Profile;
pub use text::PROFILE_TEXT;
pub use wire_fault::WireFault;
pub use wire_laws::values_without_a_cause;
