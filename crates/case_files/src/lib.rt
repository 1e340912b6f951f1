//! Case files: what runs find, how they are wanted to end, and how they ended.
#![tactic(auto)]

mod block;
mod case;
mod ending;
mod fault;
mod kept;
mod reader;
mod setting;
mod show;
mod traced;
mod traffic;
mod words;

pub use case::Case;
pub use ending::Ending;
pub use fault::CaseFault;
pub use kept::entries_text;
pub use reader::{BadLine, read_cases};
pub use show::shown_run;
pub use traced::TracedHost;
pub use traffic::Traffic;
