//! What `calls` tells of a file's packets: its calls and answers, each answer in its call's own result, and once.
#![tactic(auto)]

mod calls;
mod laws;
mod limits;
mod lines;
mod packets;
mod refusals;
mod turns;
mod words;

pub use calls::{run_calls, tell_calls};
pub use laws::{each_file_has_one_answer, each_log_is_given, files_have_one_answer};
pub use limits::MAX_PACKET_END;
pub use packets::tell_packet;
pub use refusals::unpacked;
