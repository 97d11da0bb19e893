//! Processes of one cycle that are executed at the same time.

use crate::gates::Meeting;
use crate::texts::{EXCHANGE, design, options};
use sim_run::{Finished, run};
use std::alloc::Global;
use std::sync::Wait;
use std::test::Fail;
use std::thread::Threads;

/// The run of the exchange by two workers, under a gate.
fn exchanged<R: Threads + Wait + Sync>(rt: &R, alloc: Global, gate: &Meeting) -> Option<Finished> {
    let design = design(alloc, EXCHANGE)?;
    let options = options(alloc, 10, 2)?;
    run(rt, alloc, &design, &options, gate).ok()
}

/// Whether one process is held until another has begun, and each is executed as often as it is due.
fn is_met<R: Threads + Wait + Sync>(
    rt: &R,
    alloc: Global,
    held: usize,
    awaited: usize,
) -> Option<bool> {
    let gate = Meeting::new(held, awaited);
    let finished = exchanged(rt, alloc, &gate)?;
    Some(
        gate.is_met()
            && gate.calls() == (1, 2, 2)
            && finished.cycles() == 2
            && finished.events() == 3,
    )
}

#[test]
fn two_processes_of_one_cycle_are_executed_at_once(rt: HostRuntime) -> Result<(), Fail> {
    for (held, awaited) in [(0, 1), (1, 0)] {
        assert_eq!(rt; is_met(&rt, rt.alloc(), held, awaited), Some(true));
    }
    Ok(())
}
