//! What is probably wrong in a design whose run finishes.
#![tactic(auto)]

mod clocks;
mod drivers;
mod findings;
mod inputs;
mod kinds;
mod sensitivity;
mod stops;
mod units;

pub use findings::{Form, Outcome, write_findings};
