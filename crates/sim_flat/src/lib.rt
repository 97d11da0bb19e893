//! Elaboration: from the tree of a design file to its flat design, or to one fault (IEEE 1076-2008,
//! 13 and 14).
#![tactic(auto)]

mod elaboration;
mod error;
mod folding;
mod hierarchy;
pub mod laws;
mod top;

pub use elaboration::{flatten, flatten_within};
pub use error::FlatError;
pub use sim_flat_design::{Design, DriverOf, Limits, Net, Process, Source};
