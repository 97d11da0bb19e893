//! How a run is carried out.

use sim_run_options::Limits;
use sim_run_team::Hints;

/// How a run is carried out, beside its options.
#[derive(Clone, Copy)]
pub struct Settings {
    /// How large it may be.
    pub limits: Limits,
    /// When work is handed out to other threads. No answer depends on it.
    pub hints: Hints,
}
