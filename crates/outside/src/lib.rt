//! The outside of a program as a list of events: a host that tells what has happened, and the steps that runs are made of.
#![tactic(auto)]

mod ending;
mod host;
mod laws;
mod lines;
mod logged;
mod mem_host;
mod packets;
mod pieces;
mod printing;
mod reading;
mod status;
mod stop;

pub use ending::finish;
pub use host::Host;
pub use laws::{
    files_are_read, files_can_be_read, reads_fail_alone, writes_append, writes_fail_full,
};
pub use lines::{decl_line, placed_line, unplaced_line};
pub use mem_host::MemHost;
pub use packets::{Packet, packet_words, take_packet};
pub use pieces::{Taken, take_bytes, tell, write_out};
pub use printing::{print, print_made, unread};
pub use reading::read_file;
pub use status::Status;
pub use stop::{LoadError, Stop};
