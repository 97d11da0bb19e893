//! Analysis: types, and the faults of the units of a design file (IEEE 1076-2008, 9, 10, 11, 13).
#![tactic(auto)]

mod architectures;
mod body_names;
mod concurrents;
mod entities;
pub mod file;
pub mod laws;
pub mod statements;
pub mod types;
mod waveforms;

pub use file::analyze;
pub use statements::{concurrent_assignment, sensitivity, sequence};
pub use types::{TypeResult, expression};
