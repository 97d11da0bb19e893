//! One execution of a process, on copies of all that it sees and owns.

use sim_exec::{Done, Job, NetView};
use sim_flat_design::{Held, Process};
use sim_wave::Driver;
use std::alloc::Global;

/// The view of a net.
fn at(views: &[NetView], net: usize) -> Option<NetView> {
    match views.get(net) {
        Some(view) => Some(*view),
        None => None,
    }
}

/// The views of some nets.
fn seen(alloc: Global, views: &[NetView], nets: &[usize]) -> Option<Vec<NetView>> {
    let mut seen = Vec::new(alloc);
    for net in nets {
        let view = at(views, *net)?;
        seen.push(view).ok()?;
    }
    Some(seen)
}

/// Whether one of these nets has an event.
pub fn is_resumed(views: &[NetView], nets: &[usize]) -> bool {
    for net in nets {
        if let Some(view) = at(views, *net) {
            if view.event {
                return true;
            }
        }
    }
    false
}

/// Copies of drivers.
fn copies(alloc: Global, drivers: &[Driver]) -> Option<Vec<Driver>> {
    let mut copied = Vec::new(alloc);
    for driver in drivers {
        let copy = driver.try_copy().ok()?;
        copied.push(copy).ok()?;
    }
    Some(copied)
}

/// Copies of what a process owns.
fn owned(
    alloc: Global,
    drivers: &[Driver],
    variables: &[Held],
) -> Option<(Vec<Driver>, Vec<Held>)> {
    let drivers = copies(alloc, drivers)?;
    let variables = Vec::from_slice(alloc, variables).ok()?;
    Some((drivers, variables))
}

/// A job whose lists fit the process.
fn job(
    time: u64,
    number: usize,
    process: &Process,
    views: Vec<NetView>,
    drivers: Vec<Driver>,
    variables: Vec<Held>,
) -> Option<Job> {
    if Job::fits(
        time,
        process,
        views.as_slice(),
        variables.as_slice(),
        drivers.as_slice(),
    ) {
        let process = process.try_copy().ok()?;
        Some(Job::new(0, number, time, process, views, variables, drivers))
    } else {
        None
    }
}

/// The execution of a process with these drivers and variables.
pub fn executed(
    alloc: Global,
    time: u64,
    number: usize,
    process: &Process,
    views: &[NetView],
    drivers: &[Driver],
    variables: &[Held],
) -> Option<Done> {
    let seen = seen(alloc, views, process.reads())?;
    let (drivers, variables) = owned(alloc, drivers, variables)?;
    let job = job(time, number, process, seen, drivers, variables)?;
    Done::run(alloc, job).ok()
}

/// Puts the drivers after an execution in place of those before, from an index on.
pub fn put(alloc: Global, drivers: &mut [Driver], first: usize, after: &[Driver]) -> Option<()> {
    for (place, driver) in after.iter().enumerate() {
        let number = first.checked_add(place)?;
        *drivers.get_mut(number)? = driver.try_copy().ok()?;
    }
    Some(())
}
