//! Graphs: cycles, paths, ranks and marks of nodes.
#![tactic(auto)]

mod components;
mod cycles;
mod marks;
mod paths;

pub use components::{Components, components_of};
pub use cycles::first_on_cycle;
pub use marks::{is_marked, marks_of};
pub use paths::reached_from;
