//! From the checks of a file, the connections of a netlist and its map to checks of signals.
#![tactic(auto)]

mod kinds;
mod nets;
mod plan;
mod planner;

pub use plan::{Label, Plan, Said, Watched};
pub use planner::make_plan;
