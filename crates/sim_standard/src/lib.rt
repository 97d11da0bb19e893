//! The simulation of a flat design as IEEE 1076-2008 states it, and its laws. Definitions only:
//! nothing here is executed.
#![tactic(auto)]

pub mod cycle;
mod delay;
pub mod editing;
pub mod execution;
mod net_view;
mod record;

pub use delay::Delay;
pub use net_view::NetView;
pub use record::Record;
