//! The text that is explained: its files, places in it, and the words and signs around a place.
#![tactic(auto)]

mod places;
mod reading;
mod source;
pub mod tokens;

pub use places::Place;
pub use reading::read_source;
pub use source::{Part, Source};
