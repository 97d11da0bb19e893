//! The refusals of a run.

use crate::gates::Counting;
use crate::texts::{ENDLESS, ONCE, TWO_DRIVERS, design, options, store};
use sim_run::{Gate, Open, RunError, WaveStore, run, run_in};
use std::alloc::Global;
use std::sync::{Mutex, Wait};
use std::test::Fail;
use std::thread::Threads;

/// The refusal of the run of a text by a store under a lock, if it is refused.
fn refused<R: Threads + Wait + Sync, G: Gate + Sync>(
    rt: &R,
    alloc: Global,
    store: &Mutex<WaveStore>,
    text: &str,
    limit: u32,
    gate: &G,
) -> Option<RunError> {
    let design = design(alloc, text)?;
    let options = options(alloc, limit, 2)?;
    run_in(rt, alloc, store, &design, &options, gate).err()
}

/// The refusal of the run of one text by the store of another, if it is refused.
fn refused_of<R: Threads + Wait + Sync>(
    rt: &R,
    alloc: Global,
    own: &str,
    text: &str,
    limit: u32,
) -> Option<RunError> {
    let store = Mutex::new(store(alloc, own, 10)?);
    refused(rt, alloc, &store, text, limit, &Open)
}

#[test]
fn the_store_of_another_run_is_a_stranger(rt: HostRuntime) -> Result<(), Fail> {
    let alloc = rt.alloc();
    assert_eq!(rt;
        refused_of(&rt, alloc, ONCE, TWO_DRIVERS, 10),
        Some(RunError::Stranger)
    );
    assert_eq!(rt;
        refused_of(&rt, alloc, ONCE, ONCE, 9),
        Some(RunError::Stranger)
    );
    Ok(())
}

/// The refusal of a run with this number of workers, if there is one.
fn with_workers<R: Threads + Wait + Sync>(
    rt: &R,
    alloc: Global,
    workers: usize,
) -> Option<RunError> {
    let design = design(alloc, ONCE)?;
    let options = options(alloc, 10, workers)?;
    run(rt, alloc, &design, &options, &Open).err()
}

#[test]
fn workers_are_one_to_sixteen(rt: HostRuntime) -> Result<(), Fail> {
    for (workers, refusal) in [
        (0, Some(RunError::Options)),
        (1, None),
        (16, None),
        (17, Some(RunError::Options)),
    ] {
        assert_eq!(rt; with_workers(&rt, rt.alloc(), workers), refusal);
    }
    Ok(())
}

/// Whether a run that reached its limit is refused again when it is carried on, with the right
/// numbers of records and executions.
fn endless<R: Threads + Wait + Sync>(rt: &R, alloc: Global) -> Option<bool> {
    let store = Mutex::new(store(alloc, ENDLESS, 100)?);
    let gate = Counting::new();
    let limit = Some(RunError::CycleLimit { limit: 100 });
    let once = refused(rt, alloc, &store, ENDLESS, 100, &gate) == limit;
    let again = refused(rt, alloc, &store, ENDLESS, 100, &gate) == limit;
    let records = store.lock(rt).look().records;
    Some(once && again && records == 101 && gate.calls() == 101)
}

#[test]
fn a_run_over_its_limit_stays_so(rt: HostRuntime) -> Result<(), Fail> {
    assert_eq!(rt; endless(&rt, rt.alloc()), Some(true));
    Ok(())
}
