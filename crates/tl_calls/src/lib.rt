//! Calls that are open, and their answers: each in the result of its call, and each once.
#![tactic(auto)]

mod calls;
mod fault;
mod functions;
mod judging;
mod laws;
mod places;
mod result;
mod traits;

pub use calls::{Calls, MAX_OPEN};
pub use fault::{ResultCause, ResultFault, SendFault};
pub use laws::{
    answers_are_formed, each_is_given_once, each_list_has_one_log, each_variable_is_called,
    results_are_the_calls,
};
pub use result::result_of;
