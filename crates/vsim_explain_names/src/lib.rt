//! The names in a text that a fault may be about.
#![tactic(auto)]

mod more;
mod names;
mod nearest;
mod ports;
mod words;

pub use more::{write_more_of_design, write_more_of_text};
