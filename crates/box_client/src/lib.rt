//! A client: its lanes, its settings and its channels, what it asks and what it makes of the answers.
#![tactic(auto)]

mod asking;
mod client;
mod fault;
mod laws;
mod loading;
mod parts;
mod pushing;
mod received;
mod replying;
mod saving;

pub use client::Client;
pub use fault::{ClientFault, LoadFault, ReplyOutcome};
pub use laws::{
    differences_that_fit_are_taken, numbers_alone, numbers_are_given_once, what_is_saved_is_loaded,
};
pub use tl_base::Fault;
