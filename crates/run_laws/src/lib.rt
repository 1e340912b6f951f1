//! Laws of `run` and `run_stored`: what they do over any host, and how they end over an outside that shows what it holds.
#![tactic(auto)]

mod laws;

pub use laws::{
    all_sessions_answer, requests_end, stored_runs_end, words_and_files_have_an_answer,
    words_and_files_have_one_answer, words_end, words_have_cause, words_keep, words_touch,
};
