//! Why a store refuses a call.

ghost use Rattle.std.specs.Prelude.{◌≡◌};
ghost use Rattle.sim_store.specs.declared.error.HandOutError.TheVariants as reason;
ghost use Rattle.sim_store.specs.declared.error.StoreError.TheVariants as refusal;

use std::alloc::AllocError;
use thiserror::Error;

/// A refusal of a store. The store is then as it was.
#[derive(Clone, Copy, Debug, PartialEq, Eq, Error)]
pub enum StoreError {
    /// The run has ended.
    #[error("Ended")]
    Ended,
    /// The job is of another cycle.
    #[error("Stale")]
    Stale,
    /// The process is not executed in this phase of the cycle.
    #[error("NotDue")]
    NotDue,
    /// The process has already been executed in this phase.
    #[error("Twice")]
    Twice,
    /// The process, or its part of the state, differs from that of the store.
    #[error("Foreign")]
    Foreign,
    /// A due process has not been executed; this is the least.
    #[error("Missing {process}")]
    Missing { process: usize },
    /// There are fewer records than that; this is their number.
    #[error("Behind {records}")]
    Behind { records: usize },
    /// The stop time is later than 2^62 - 1 fs.
    #[error("StopTooLate")]
    StopTooLate,
    /// Out of memory.
    #[error("Memory")]
    Memory,
}

impl From<AllocError> for StoreError {
    ghost from_gives = { λ _ e. e ≡ refusal.Memory };

    fn from(_e: AllocError) -> StoreError {
        StoreError::Memory
    }
}

/// Why a phase that was handed out cannot be taken back. The store is then lost.
#[derive(Clone, Copy, Debug, PartialEq, Eq, Error)]
pub enum HandOutError {
    /// Out of memory.
    #[error("Memory")]
    Memory,
    /// The answers are not those to all orders, in their order.
    #[error("Stranger")]
    Stranger,
    /// An order still exists: it has not been executed.
    #[error("OrderLeft")]
    OrderLeft,
}

impl From<AllocError> for HandOutError {
    ghost from_gives = { λ _ e. e ≡ reason.Memory };

    fn from(_e: AllocError) -> HandOutError {
        HandOutError::Memory
    }
}
