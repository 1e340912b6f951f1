//! The commands over links by what happens in order, over any host: `client` and `post`.
#![tactic(auto)]

mod client;
mod conversing;
mod laws;
mod post;
mod saving;
mod sending;

pub use client::{recover_client, run_client};
pub use laws::post_writes;
pub use post::{post_call, run_post};
