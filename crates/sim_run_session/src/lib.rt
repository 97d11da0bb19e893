//! From the text of a design to its listing, and the whole program.
#![tactic(auto)]

mod beside;
mod error;
mod names;
mod program;
mod runs;
mod settings;
mod simulation;
mod streaming;
mod team;

pub use error::RunError;
pub use program::{session, session_with_hints};
pub use runs::{begun_run, finished_run, run_without_lock, write_run};
pub use settings::Settings;
pub use sim_run_team::Hints;
pub use simulation::{elaborate, elaborate_within, simulate, simulate_within};
