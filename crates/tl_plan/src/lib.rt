//! Plans: the closed types that some types reach, each with the numbers of what it names.
#![tactic(auto)]

mod closing;
mod fault;
mod heads;
mod instances;
mod laws;
mod planner;
mod plans;
mod queue;
mod table;
mod walk;

pub use fault::{MAX_INSTANCES, MAX_LEVELS, PlanFault};
pub use heads::Heads;
pub use instances::{Instance, Member};
pub use laws::{
    entries_are_declared, instances_are_formed, instances_have_members, items_have_instances,
    one_answer, roots_have_instances, same_types,
};
pub use planner::plan;
pub use plans::Plan;
pub use tl_schema::TypeForm;
