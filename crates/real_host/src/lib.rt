//! The real outside: files, the standard streams, TCP, the clock, and the words that a program is started with. This is the trusted edge.
#![tactic(auto)]

mod links;
mod log;
mod real;
mod state_end;
mod state_file;
mod streams;
mod words;

pub use real::RealHost;
pub use state_end::StateEnd;
pub use streams::hold_streams;
pub use words::words_of;
