//! The workers of a run: threads that share a store under a lock and execute the processes that
//! resume in a cycle.
#![tactic(auto)]

mod cycle;
mod gate;
mod round;
mod run;
mod worker;

pub use gate::{Gate, Open};
pub use run::{Carried, run_to_end};
