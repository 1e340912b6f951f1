//! What `check`, `decode` and `encode` answer to files, and the list of a schema's declarations.
#![tactic(auto)]

mod laws;
mod lines;
mod listed;
mod verdict;

pub use laws::files_have_one_answer;
pub use listed::listing;
pub use verdict::verdict_line;
