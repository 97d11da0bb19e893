//! The values of the nets that both sides of a comparison have, and where they differ.
#![tactic(auto)]

mod board;
mod marks;
mod values;

pub use board::{Board, Counts, First, Side};
pub use marks::Net;
pub use values::Values;
