//! The run of a design, and its listing.
#![tactic(auto)]

mod finished;
pub mod laws;
mod runs;

pub use finished::{Finished, write_listing};
pub use runs::{run, run_in};
pub use sim_flat::FlatError;
pub use sim_flat_design::Design;
pub use sim_run_options::{CliFault, Limits, Options, Request, read_options, read_request};
pub use sim_run_session::{
    Hints, RunError, Settings, elaborate, elaborate_within, session, session_with_hints, simulate,
    simulate_within,
};
pub use sim_run_workers::{Gate, Open};
pub use sim_store::{Record, WaveStore};
pub use sim_text::TextError;
