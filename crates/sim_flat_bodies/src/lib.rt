//! Process bodies, translated from the syntax tree: names become positions.
#![tactic(auto)]

pub mod assigned;
pub mod expressions;
pub mod names;
pub mod statements;
pub mod targets;
pub mod timed;
pub mod waveforms;

pub use names::Names;
pub use targets::Targets;
