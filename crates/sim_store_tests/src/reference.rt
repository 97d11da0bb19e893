//! The standard's cycle as a plain program that looks at every driver, net and process in each
//! cycle. Tests compare the store with it. It may reveal an error in the definitions of
//! `sim_standard`, which no proof would show, so it cites none of them.

mod cycle;
mod nets;
mod process;

pub use cycle::{Snapshot, snapshots};
