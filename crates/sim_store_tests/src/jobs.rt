//! Jobs, and checks of their nets, variables and drivers.

use sim_exec::{Job, NetView};
use sim_flat_design::{Design, Held};
use sim_logic::Logic;
use sim_wave::{Driver, Transaction};
use std::alloc::{AllocError, Global};

/// The job of a process of a design, if the lists fit it.
pub fn job(
    design: &Design,
    number: usize,
    time: u64,
    views: Vec<NetView>,
    variables: Vec<Held>,
    drivers: Vec<Driver>,
) -> Option<Job> {
    let process = design.processes().get(number)?.try_copy().ok()?;
    if !Job::fits(
        time,
        &process,
        views.as_slice(),
        variables.as_slice(),
        drivers.as_slice(),
    ) {
        return None;
    }
    Some(Job::new(1, number, time, process, views, variables, drivers))
}

/// The views of a job, with another value for the net at an index.
fn changed_views(
    alloc: Global,
    views: &[NetView],
    place: usize,
    value: Logic,
) -> Result<Vec<NetView>, AllocError> {
    let mut changed = Vec::new(alloc);
    for (at, view) in views.iter().enumerate() {
        let value = if at == place { value } else { view.value };
        changed.push(NetView { value, ..*view })?;
    }
    Ok(changed)
}

/// Copies of variables.
fn copied_variables(alloc: Global, variables: &[Held]) -> Result<Vec<Held>, AllocError> {
    let mut copies = Vec::new(alloc);
    for held in variables {
        copies.push(*held)?;
    }
    Ok(copies)
}

/// Copies of drivers.
fn copied_drivers(alloc: Global, drivers: &[Driver]) -> Result<Vec<Driver>, AllocError> {
    let mut copies = Vec::new(alloc);
    for driver in drivers {
        let copy = driver.try_copy()?;
        copies.push(copy)?;
    }
    Ok(copies)
}

/// A job of the first cycle like another one, but with another value for the net at an index of its
/// views.
pub fn like(alloc: Global, design: &Design, own: &Job, place: usize, value: Logic) -> Option<Job> {
    let views = changed_views(alloc, own.views(), place, value).ok()?;
    let variables = copied_variables(alloc, own.variables()).ok()?;
    let drivers = copied_drivers(alloc, own.drivers()).ok()?;
    job(design, own.number(), own.time(), views, variables, drivers)
}

/// A net that this cycle changed to a value.
pub fn changed(before: Logic, value: Logic) -> NetView {
    NetView {
        value,
        event: true,
        before,
    }
}

/// A net that this cycle left unchanged.
pub fn steady(value: Logic) -> NetView {
    NetView {
        value,
        event: false,
        before: value,
    }
}

/// Whether a driver has this value and these transactions pending.
pub fn is_driver(driver: Option<&Driver>, value: Logic, pending: &[Transaction]) -> bool {
    match driver {
        None => false,
        Some(driver) => driver.value() == value && driver.pending() == pending,
    }
}

/// Whether there is one variable, with this value.
pub fn holds(variables: &[Held], value: Logic) -> bool {
    match variables {
        [Held::Bit(held)] => *held == value,
        _ => false,
    }
}
