//! A lane: the events of a box in order, and what is held since it came before its turn.
#![tactic(auto)]

mod chains;
mod counted;
mod gap;
mod held;
mod held_pack;
mod lane;
mod laws;
mod mode;
mod seen;
mod seq_chains;
mod seq_laws;
mod settings;
mod store;
mod stretches;
mod table;
mod takes;

pub use chains::follow;
pub use counted::Counted;
pub use gap::Gap;
pub use held::Held;
pub use lane::Lane;
pub use laws::{
    hearing_is_told, lanes_fit_boxes, lanes_go_in_turn, lanes_lie_within_boxes, lanes_move_on,
    lanes_stay_sound,
};
pub use mode::{Mode, is_next};
pub use seen::{Seen, outcome_of};
pub use seq_laws::{
    lists_of_settings_grow, settings_agree, settings_move_on, settings_stay_latest,
    settings_stay_since, settings_stay_sound,
};
pub use settings::Settings;
pub use takes::Takes;
