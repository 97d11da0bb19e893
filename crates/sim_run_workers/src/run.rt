//! A run, from the present state of its store to its end.

ghost use Rattle.std.specs.Prelude.{◌≡◌, ◌≢◌, ◌≤◌, None, vec_len, IfOk, MatchOption};
ghost use Rattle.sim_flat_design.specs.Designs.{most};
ghost use Rattle.sim_store.specs.WaveStore as store;

use crate::cycle::execute_all;
use crate::gate::Gate;
use crate::worker::Fault;
use sim_store::{StoreError, WaveStore};
use std::alloc::{AllocError, Global};
use std::sync::{Mutex, Wait};
use std::thread::Threads;

/// How far workers have carried on a run.
#[derive(Clone, Copy)]
pub enum Carried {
    /// To its end.
    ToEnd,
    /// To a result that did not fit: the store under the lock is not the one from which its job was
    /// taken.
    ToStranger,
}

/// A copy of the processes that are due; `None` if the run has ended.
fn due_of(alloc: Global, run: &WaveStore) -> Result<Option<Vec<usize>>, AllocError>
    ensures { IfOk result (λ found. MatchOption found (run.now.ended ≢ None) (λ due. (run.now.ended ≡ None) × (due.items ≡ store.due_of run.now)
        × (vec_len due ≤ most))) }
{
    if run.ended().is_some() {
        return Ok(None);
    }
    let due = Vec::from_slice(alloc, run.due())?;
    Ok(Some(due))
}

/// Goes on to the next cycle. If other threads have already done so, or have not executed all
/// processes, there is nothing to do but to look again.
fn advance<R: Wait>(rt: &R, alloc: Global, store: &Mutex<WaveStore>) -> Result<(), AllocError> {
    match store.lock(rt).advance(alloc) {
        Err(StoreError::Memory) => Err(AllocError),
        _ => Ok(()),
    }
}

/// Carries on a run from the present state of its store, cycle by cycle, until it has ended. In
/// each cycle the processes that are due are executed by at most `workers` threads, none under the
/// lock; then the calling thread goes on. The lock is free in between, so that other threads may
/// look, or carry on the run as well. `AllocError` comes once all workers are joined.
pub fn run_to_end<R: Threads + Wait + Sync, G: Gate + Sync>(
    rt: &R,
    alloc: Global,
    store: &Mutex<WaveStore>,
    workers: usize,
    gate: &G,
) -> Result<Carried, AllocError> {
    for _ in rt.forever() {
        let found = due_of(alloc, &store.lock(rt))?;
        let Some(due) = found else {
            break;
        };
        match execute_all(rt, alloc, store, gate, due, workers) {
            Ok(()) => advance(rt, alloc, store)?,
            Err(Fault::Stranger) => return Ok(Carried::ToStranger),
            Err(Fault::Memory) => return Err(AllocError),
        }
    }
    Ok(Carried::ToEnd)
}
