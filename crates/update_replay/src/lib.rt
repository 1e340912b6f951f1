//! Replays of journals and made runs: what a replay writes of a world, and what a made run draws.
#![tactic(auto)]

mod choosing;
mod drawing;
mod fault;
mod generator;
mod laws;
mod limits;
mod lines;
mod machine;
mod made_fault;
mod making;
mod replay;
mod replay_laws;
mod summary;
mod wanted;
mod world_laws;

pub use choosing::make_step;
pub use drawing::draw_post;
pub use fault::{LineFault, ReplayFault};
pub use generator::Generator;
pub use laws::{lines_are_told, runs_are_made};
pub use limits::{MAX_JOURNAL_BYTES, MAX_STEPS};
pub use lines::{write_end, write_step};
pub use machine::Replay;
pub use made_fault::MadeFault;
pub use making::{MAX_MADE_STEPS, made_run};
pub use replay::replay_steps;
pub use replay_laws::{each_journal_is_replayed, journals_are_replayed_in_one_way};
pub use world_laws::{
    clients_are_told, made_steps_are_possible, steps_are_told, summaries_are_of_runs,
};
