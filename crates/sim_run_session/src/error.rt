//! The refusals of a run.

ghost use Rattle.std.specs.Prelude.{◌≡◌};
ghost use Rattle.sim_run_session.specs.declared.error.RunError.TheVariants as refusal;

use sim_flat::FlatError;
use sim_run_listing::WriteError;
use sim_text::TextError;
use std::alloc::{AllocError, AllocFailed};
use thiserror::Error;

/// A refusal of a run. Its text is the one in the program's line on standard error.
#[derive(Clone, Copy, Debug, PartialEq, Eq, Error)]
pub enum RunError {
    /// The stop time, the cycle limit or the number of workers is out of its range.
    #[error("Options")]
    Options,
    /// The text is at fault, or memory ran out while it was read.
    #[error("{0}")]
    Text(TextError),
    /// The design is at fault, or memory ran out while it was elaborated.
    #[error("{0}")]
    Flat(FlatError),
    /// The run needs more cycles than the limit.
    #[error("CycleLimit {limit}")]
    CycleLimit { limit: u32 },
    /// A postponed process makes a delta cycle follow.
    #[error("PostponedDelta")]
    PostponedDelta,
    /// The store under the lock is not the store of this run: it has another design, stop time or
    /// limit.
    #[error("Stranger")]
    Stranger,
    /// A write failed, or wrote nothing.
    #[error("Write")]
    Write,
    /// Memory ran out.
    #[error("Memory")]
    Memory,
}

impl From<AllocError> for RunError {
    ghost from_gives = { λ _ e. e ≡ refusal.Memory };

    fn from(_e: AllocError) -> RunError {
        RunError::Memory
    }
}

impl<T: Drop> From<AllocFailed<T>> for RunError {
    ghost from_gives = { λ _ e. e ≡ refusal.Memory };

    fn from(_e: AllocFailed<T>) -> RunError {
        RunError::Memory
    }
}

impl From<TextError> for RunError {
    ghost from_gives = { λ f e. e ≡ refusal.Text f };

    fn from(e: TextError) -> RunError {
        RunError::Text(e)
    }
}

impl From<FlatError> for RunError {
    ghost from_gives = { λ f e. e ≡ refusal.Flat f };

    fn from(e: FlatError) -> RunError {
        RunError::Flat(e)
    }
}

impl From<WriteError> for RunError {
    ghost from_gives = { λ _ e. e ≡ refusal.Write };

    fn from(_e: WriteError) -> RunError {
        RunError::Write
    }
}
