//! A simulation of a design: its state so far, and the steps of the simulation cycle that carry it
//! on and record it (IEEE 1076-2008, 14.7.5).
#![tactic(auto)]

mod due;
mod history;
mod phase;
mod simulation;
mod waiting;

pub use due::Due;
pub use history::records_from;
pub use phase::{Phase, Upcoming};
pub use simulation::{Compiled, Contents, Simulation};
pub use waiting::Waiting;
