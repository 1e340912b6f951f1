//! The channels that a client watches: each with a lane of its own.
#![tactic(auto)]

mod channel;
mod channels;
mod each;
mod fault;
mod laws;
mod woven;

pub use channels::Channels;
pub use fault::WatchFault;
pub use laws::channels_begin_anew;
pub use woven::{is_dropped, weave_onto};
