//! A single execution of a process: the flip-flop at a rising edge.

use crate::calls::execution::result_of;
use sim_exec::{Done, Job, NetView};
use sim_flat_design::{Held, Process};
use sim_logic::Logic::{One, U, Zero};
use sim_wave::Driver;
use std::alloc::{AllocError, Global};

/// The time of the execution, in femtoseconds.
const NOW: u64 = 5_000_000;

/// The clock as it rises.
const RISING: NetView = NetView {
    value: One,
    event: true,
    before: Zero,
};

/// A list of one item.
fn only<T: Drop>(alloc: Global, item: T) -> Result<Vec<T>, AllocError> {
    let mut items = Vec::new(alloc);
    items.push(item)?;
    Ok(items)
}

/// The job of a process with these lists, if they fit it.
fn job_of(
    process: Process,
    views: Vec<NetView>,
    variables: Vec<Held>,
    drivers: Vec<Driver>,
) -> Option<Job> {
    if !Job::fits(
        NOW,
        &process,
        views.as_slice(),
        variables.as_slice(),
        drivers.as_slice(),
    ) {
        return None;
    }
    Some(Job::new(1, 1, NOW, process, views, variables, drivers))
}

/// The job of the flip-flop at a rising edge.
fn rising(alloc: Global, process: Process) -> Result<Option<Job>, AllocError> {
    let views = only(alloc, RISING)?;
    let variables = only(alloc, Held::Bit(Zero))?;
    let drivers = only(alloc, Driver::new(alloc, U))?;
    Ok(job_of(process, views, variables, drivers))
}

/// The result of a job.
fn done_of(alloc: Global, job: Job) -> Result<Done, AllocError> {
    match result_of(alloc, job) {
        Ok(done) => Ok(done),
        Err((fault, _job)) => Err(fault),
    }
}

/// Whether the variable holds '1', and the driver has '1' pending.
fn is_one(done: &Done) -> bool {
    let is_held = matches!(done.variables(), [Held::Bit(One)]);
    let is_driven = match done.drivers() {
        [driver] => driver.value() == U && driver.pending() == [(NOW, One)].as_slice(),
        _ => false,
    };
    is_held && is_driven
}

/// Whether a process toggles at a rising edge.
fn toggles(alloc: Global, process: Process) -> Result<bool, AllocError> {
    match rising(alloc, process)? {
        None => Ok(false),
        Some(job) => Ok(is_one(&done_of(alloc, job)?)),
    }
}

/// Whether the flip-flop, and a copy of it, toggle at a rising edge.
pub fn is_toggled(alloc: Global, process: Option<&Process>) -> Result<bool, AllocError> {
    match process {
        None => Ok(false),
        Some(process) => toggles(alloc, process.try_copy()?),
    }
}
