//! The state that a simulation holds between two cycles, in flat lists and shares.
#![tactic(auto)]

mod dividing;
mod execution;
mod flat_state;
pub mod laws;
mod log;
mod resumption;
mod start;
mod updating;

pub use flat_state::{FlatState, Part};
pub use log::{Entry, Log, Past};
pub use resumption::{find_resumed, find_resumed_by_one, sensitive};
pub use sim_standard::Record;
pub use sim_store_nets::{UpdateLists, Values};
pub use sim_store_share::Share;
