//! The world of a replay, whose packets are bytes: a server, its clients, and every message that was sent.
#![tactic(auto)]

mod client_steps;
mod limits;
mod outcome;
mod parts;
mod pool;
mod reading;
mod sent;
mod server_steps;
mod spelling;
mod world;

pub use limits::{MAX_CLIENTS, MAX_POOL_BYTES};
pub use outcome::Outcome;
pub use report_lines::HeardAs;
pub use sent::{End, SentPacket};
pub use tl_base::Fault;
pub use world::World;
