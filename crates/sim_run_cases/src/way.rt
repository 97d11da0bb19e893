//! The ways in which cases are run.

use crate::case::Case;
use sim_run::Hints;
use std::alloc::{AllocError, Global};

/// The number of workers, unless a case says it, and when work is handed out.
#[derive(Drop)]
pub struct Way {
    /// `None` for the program's default. Otherwise only cases whose run finishes are run.
    pub workers: Option<String>,
    pub hints: Hints,
}

impl Way {
    /// The way in which the program runs a case.
    pub fn measured() -> Way {
        Way {
            workers: None,
            hints: Hints::measured(),
        }
    }

    /// With this many workers, to whom each phase is handed out.
    pub fn handed_out(alloc: Global, workers: &str) -> Result<Way, AllocError> {
        Ok(Way {
            workers: Some(String::from_str(alloc, workers)?),
            hints: Hints::all_handed_out(),
        })
    }

    /// Whether a case is run in this way. Its words then say the number of workers.
    pub fn takes(&self, alloc: Global, case: &mut Case) -> Result<bool, AllocError> {
        let Some(workers) = &self.workers else {
            return Ok(true);
        };
        case.put_workers(alloc, workers.as_str())?;
        Ok(case.is_listed())
    }
}
