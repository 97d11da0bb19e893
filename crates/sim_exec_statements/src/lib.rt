//! The execution of a process, statement by statement, in place.
#![tactic(auto)]

mod assignments;
mod execution;
mod values;
mod view;

pub use execution::execute;
pub use sim_standard::NetView;
pub use values::boolean_value;
pub use view::Nets;
