//! The server: it takes posts, keeps boxes of events and settings, and answers requests for what is new.
#![tactic(auto)]

mod answers;
mod channel;
mod checking;
mod copying;
mod dated;
mod draft;
mod entry;
mod fault;
mod keeper;
mod last_indexes;
mod laws;
mod loading;
mod mem_keeper;
mod no_keeper;
mod opening;
mod posted;
mod prepared;
mod receipts;
mod room;
mod runs;
mod server;
mod setting_list;
mod store_fault;
mod store_laws;
mod stored;
mod tail;

pub use entry::{Entry, Posts};
pub use fault::PostFault;
pub use keeper::Keeper;
pub use laws::{
    answers_are_exact, differences_lie_in_boxes, pushes_lie_in_boxes, servers_only_grow,
    servers_stay_sound,
};
pub use mem_keeper::MemKeeper;
pub use no_keeper::NoKeeper;
pub use posted::Posted;
pub use server::Server;
pub use store_fault::{GetFault, KeepFault, OpenFault, StoreFault, Unopened};
pub use store_laws::{entries_rebuild_servers, only_new_posts_add};
pub use stored::Stored;
