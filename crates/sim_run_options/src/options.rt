//! The options of a run.
ghost use Rattle.std.specs.Prelude.{◌≡◌};
ghost use Rattle.sim_run_options.specs.Options.{are_in_range, are_in_range_within};

use crate::limits::Limits;
use sim_logic::LATEST;

/// The largest number of threads.
const MOST_WORKERS: usize = 16;

/// The options of a run.
#[derive(Debug, Drop)]
pub struct Options {
    /// The entity at the top of the design, in upper or lower case.
    pub top: String,
    /// The stop time in femtoseconds: at most `sim_logic::LATEST`.
    pub stop: u64,
    /// The most cycles after the initialization: 1 to 1,000,000, or to 4,294,967,295 where a large run
    /// is asked for.
    pub limit: u32,
    /// The most threads that execute processes: 1 to 16.
    pub workers: usize,
}

impl Options {
    /// Returns true if the stop time, the limit and the number of workers are in their ranges.
    pub fn are_in_range(&self) -> bool
        ensures { result ≡ are_in_range self.now.stop self.now.limit self.now.workers }
    {
        self.are_in_range_within(Limits::Standard)
    }

    /// Returns true if the stop time and the number of workers are in their ranges, and the limit is
    /// in that of a run within these limits.
    pub fn are_in_range_within(&self, limits: Limits) -> bool
        ensures { result ≡ are_in_range_within limits self.now.stop self.now.limit self.now.workers }
    {
        self.stop <= LATEST
            && 1 <= self.limit
            && self.limit <= limits.cycles()
            && 1 <= self.workers
            && self.workers <= MOST_WORKERS
    }
}
