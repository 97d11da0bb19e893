//! The expansion of a hierarchy: from architectures with names as positions to the flat design.
#![tactic(auto)]

pub mod counts;
pub mod depth;
mod flat_sources;
pub mod limits;
mod names;
mod object_nets;
mod processes;
mod walk;

pub use walk::expand;
