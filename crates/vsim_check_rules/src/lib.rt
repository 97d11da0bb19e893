//! The rules of checks of timing (IEEE 1364, clause 15), by the changes of signals as time goes on.
#![tactic(auto)]

mod checker;
mod conditions;
mod levels;
mod pulses;
mod signals;
mod stamps;
mod violations;
mod windows;
mod wires;

pub use checker::Checker;
pub use conditions::{Input, SignalCondition};
pub use violations::{Demand, Violation};
pub use wires::WireDelay;
