//! A run that is watched through a gate, as docs/LIBRARY.md shows it.

use crate::gates::Counting;
use crate::texts::{TOGGLE, options};
use sim_run::{Finished, Options, RunError, WaveStore, elaborate, run_in};
use std::alloc::Global;
use std::sync::{Mutex, Wait};
use std::test::Fail;
use std::thread::Threads;

/// The history of a text's run, and how many times a process was executed in it.
fn watch<R: Threads + Wait + Sync>(
    rt: &R,
    alloc: Global,
    text: &[u8],
    options: &Options,
) -> Result<(Finished, u64), RunError> {
    let design = elaborate(alloc, text, options)?;
    let Ok(store) = WaveStore::new(alloc, design.try_copy()?, options.stop, options.limit) else {
        return Err(RunError::Memory);
    };
    let (store, gate) = (Mutex::new(store), Counting::new());
    let finished = run_in(rt, alloc, &store, &design, options, &gate)?;
    Ok((finished, gate.calls()))
}

/// The number of events of a run by two workers, and of its executions.
fn watched<R: Threads + Wait + Sync>(rt: &R, alloc: Global) -> Option<(u64, u64)> {
    let options = options(alloc, 10, 2)?;
    let (finished, calls) = watch(rt, alloc, TOGGLE.as_bytes(), &options).ok()?;
    Some((finished.events(), calls))
}

#[test]
fn each_execution_is_counted(rt: HostRuntime) -> Result<(), Fail> {
    // both processes at the start and at each of three edges
    assert_eq!(rt; watched(&rt, rt.alloc()), Some((5, 8)));
    Ok(())
}
