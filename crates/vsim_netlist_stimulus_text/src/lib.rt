//! Stimuli as statements.
#![tactic(auto)]

mod choice;
mod clock;
mod steps;
mod stimulus;
mod table;
mod tables;
mod targets;
mod waveforms;

pub use stimulus::{frequent_levels, put_stimuli};
