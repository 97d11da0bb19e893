//! Checks along the instances of a hierarchy: recursion, and the sources of unresolved signals.
#![tactic(auto)]

mod graph;
mod least;
mod recursion;
mod search;
mod sources;

pub use recursion::first_recursive;
pub use sources::first_with_many_sources;
