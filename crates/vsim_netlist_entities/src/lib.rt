//! Processes that are equal but for their signals, as instances of one entity where the text is
//! shorter by it.
#![tactic(auto)]

mod groups;
mod instances;
mod shapes;

pub use groups::{TimedProcess, put_processes};
