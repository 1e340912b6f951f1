//! The profile of a schema, and causes of the updates as lines on Errors: of profiles, of messages as bytes, of packets, of answers that a client refuses, of saved clients.
#![tactic(auto)]

mod answers;
mod laws;
mod messages;
mod packets;
mod profiles;
mod saved;

pub use answers::answer_line;
pub use laws::schemas_are_profiles_or_not;
pub use messages::{spell_line, step_line, wire_line};
pub use packets::packet_stop;
pub use profiles::{profile_line, profile_of};
pub use saved::load_line;
