//! What `replay` and `make` answer to files: the report of a journal, and the summary of a run that is made of draws.
#![tactic(auto)]

mod laws;
mod make;
mod make_work;
mod replay;
mod steps;

pub use laws::{journals_have_one_answer, made_runs_have_one_answer};
pub use make::run_text;
pub use make_work::{make_run, run_make};
pub use replay::{replay_journal, run_replay};
pub use steps::step_fault_line;
