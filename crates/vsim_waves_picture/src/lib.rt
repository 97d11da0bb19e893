//! A picture of a listing: the values of nets, or of the variables of a source, over time, as an SVG.
#![tactic(auto)]

mod drawing;
mod recording;
mod row;
mod scale;
mod shapes;

pub use recording::{Recording, Window};
