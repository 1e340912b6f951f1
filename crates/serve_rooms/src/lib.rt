//! The commands that serve, by what happens in order, over any host: `serve`, and over any keeper `keep`.
#![tactic(auto)]

mod answering;
mod connection;
mod keep;
mod laws;
mod loading;
mod serve;
mod sessions;
mod status;
mod telling;

pub use keep::{run_kept, serve_kept};
pub use laws::{keep_has_cause, keep_reads_first, keep_touches, sessions_answer};
pub use serve::{run_serve, serve_sessions};
pub use status::{KeptRun, KeptStatus};
