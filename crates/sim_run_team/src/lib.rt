//! A team of threads that lasts for a run: each worker carries out one order at a time, by value.
//! The caller decides what an order is, and what is known about its answer.
#![tactic(auto)]

mod bell;
mod hints;
mod inbox;
mod team;
mod workers;

pub use hints::Hints;
pub use team::Team;
pub use workers::{Posts, Work};
