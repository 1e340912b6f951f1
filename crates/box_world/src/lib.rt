//! The world of a replay: a server, its clients and all messages, and what holds after every list of steps. There is no code, only laws, and why a step is not made.
#![tactic(auto)]

mod fault;
mod frame_laws;
mod laws;
mod size_laws;

pub use fault::StepFault;
pub use frame_laws::{
    what_is_read_is_taken, what_is_sent_has_a_spelling, what_is_sent_is_read, what_is_sent_is_short,
};
pub use laws::{
    clients_go_on, frames_are_bounded, honest_streams_agree, numbers_follow, posts_change_nothing,
    runs_go_on, servers_go_on, worlds_agree,
};
pub use size_laws::{
    calls_have_sizes, frames_have_sizes, saved_clients_have_sizes, steps_have_sizes,
};
