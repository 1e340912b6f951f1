//! The commands of tlbox: what words ask for, and what is done over any host.
#![tactic(auto)]

mod keep_words;
mod number;
mod program;
mod request;
mod stored;
mod table;

pub use keep_words::{KeepRequest, keep_in};
pub use number::{Range, number_in};
pub use outside::Status;
pub use program::run;
pub use serve_rooms::KeptStatus;
pub use stored::run_stored;
