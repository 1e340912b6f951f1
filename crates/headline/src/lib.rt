//! The headline: what the program promises, each promise one law. There is no code, only laws.
#![tactic(auto)]

mod laws;

pub use laws::{
    answers_bring_up_to_date, honest_sessions_catch_up, kept_runs_meet, runs_keep_boxes,
    served_runs_meet, servers_have_histories, sessions_end, small_cases_hold, states_go_on,
    states_meet_servers, two_programs_meet, what_client_promises, what_replay_promises,
};
