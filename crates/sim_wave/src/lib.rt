//! Drivers: their values and their projected output waveforms.
#![tactic(auto)]

mod driver;
mod edit;
mod pending;
mod stored;

pub use driver::{Driver, IN_PLACE, Transaction};
pub use sim_standard::Delay;
