//! Sessions of both ends of the update protocol over one link.
#![tactic(auto)]

mod answering;
mod asking;
mod fault;
mod hearing;
mod laws;
mod packing;
mod receiving;
mod serving;
mod storing;

pub use answering::answer_packet;
pub use asking::{ask_all, hear_packet};
pub use fault::{MAX_FRAMES, SessionFault};
pub use hearing::client_session;
pub use laws::{conversations_never_wait, sessions_are_kept};
pub use serving::serve_session;
pub use storing::{StoreSession, store_session};
