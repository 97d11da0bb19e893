//! Single executions of processes.

use crate::jobs::{changed, holds, is_driver, job, steady};
use crate::texts::{TOGGLE, flat};
use sim_exec::{Done, Job, NetView};
use sim_flat_design::{Design, Held};
use sim_logic::Logic;
use sim_wave::{Delay, Driver};
use std::alloc::{AllocError, Global};
use std::test::Fail;

/// Three drivers for one signal, the second of which edits its own waveform.
const PULSES: &str =
    "entity t is end;architecture a of t is signal a,s:std_logic:='0';begin a <= '1' after 1 ns; \
process(a) begin s <= '1' after 3 ns; s <= transport '0' after 5 ns; end process; s <= 'Z' after 2 ns; end;";

/// The toggle, executed at 5 ns.
fn toggled(
    alloc: Global,
    design: &Design,
    views: Vec<NetView>,
) -> Result<Option<Done>, AllocError> {
    let mut variables = Vec::new(alloc);
    variables.push(Held::Bit(Logic::Zero))?;
    let mut drivers = Vec::new(alloc);
    drivers.push(Driver::new(alloc, Logic::U))?;
    let Some(job) = job(design, 1, 5_000_000, views, variables, drivers) else {
        return Ok(None);
    };
    Ok(Done::run(alloc, job).ok())
}

/// The toggle executed with this view of the clock.
fn toggled_by(alloc: Global, clock: NetView) -> Result<Option<Done>, AllocError> {
    let Some(design) = flat(alloc, TOGGLE) else {
        return Ok(None);
    };
    let mut views = Vec::new(alloc);
    views.push(clock)?;
    toggled(alloc, &design, views)
}

/// Whether a job is unchanged and that of the toggle.
fn is_as_it_was(job: &Job) -> bool {
    holds(job.variables(), Logic::Zero)
        && job.number() == 1
        && job.cycle() == 1
        && job.time() == 5_000_000
}

/// Whether the toggle was executed.
fn is_toggled(done: &Done) -> bool {
    holds(done.variables(), Logic::One)
        && is_driver(done.drivers().first(), Logic::U, &[(5_000_000, Logic::One)])
        && is_as_it_was(done.job())
}

#[test]
fn a_rising_edge_is_carried_out(rt: HostRuntime) -> Result<(), Fail> {
    let done = toggled_by(rt.alloc(), changed(Logic::Zero, Logic::One))?;
    assert!(rt; done.is_some_and(|done| is_toggled(&done)));
    Ok(())
}

/// Whether this is the only view of a job.
fn is_view(views: &[NetView], wanted: NetView) -> bool {
    match views {
        [view] => *view == wanted,
        _ => false,
    }
}

/// Whether a job has no results, and this view of the clock.
fn has_no_results(done: Done, clock: NetView) -> bool {
    let (job, results) = done.into_parts();
    results.is_none() && is_view(job.views(), clock)
}

/// Whether the toggle is unchanged.
fn is_idle(done: Done, clock: NetView) -> bool {
    holds(done.variables(), Logic::Zero)
        && is_driver(done.drivers().first(), Logic::U, &[])
        && has_no_results(done, clock)
}

#[test]
fn a_change_from_unknown_is_no_edge(rt: HostRuntime) -> Result<(), Fail> {
    let clock = changed(Logic::X, Logic::One);
    let done = toggled_by(rt.alloc(), clock)?;
    assert!(rt; done.is_some_and(|done| is_idle(done, clock)));
    Ok(())
}

#[test]
fn a_value_without_an_event_is_no_edge(rt: HostRuntime) -> Result<(), Fail> {
    let clock = steady(Logic::One);
    let done = toggled_by(rt.alloc(), clock)?;
    assert!(rt; done.is_some_and(|done| has_no_results(done, clock)));
    Ok(())
}

/// Whether the toggle without a view is refused as a job.
fn does_not_fit(alloc: Global) -> Result<bool, AllocError> {
    let Some(design) = flat(alloc, TOGGLE) else {
        return Ok(false);
    };
    Ok(toggled(alloc, &design, Vec::new(alloc))?.is_none())
}

#[test]
fn a_job_without_its_view_does_not_fit(rt: HostRuntime) -> Result<(), Fail> {
    assert!(rt; does_not_fit(rt.alloc())?);
    Ok(())
}

/// The driver at '0' with '1' pending at 3 ns and '0' at 5 ns.
fn pulse(alloc: Global) -> Result<Driver, AllocError> {
    let mut driver = Driver::new(alloc, Logic::Zero);
    driver.edit(
        0,
        Delay::Transport,
        &[(3_000_000, Logic::One), (5_000_000, Logic::Zero)],
    )?;
    Ok(driver)
}

/// The second process of the pulses, executed at 1 ns.
fn pulsed(alloc: Global) -> Result<Option<Done>, AllocError> {
    let Some(design) = flat(alloc, PULSES) else {
        return Ok(None);
    };
    let mut drivers = Vec::new(alloc);
    drivers.push(pulse(alloc)?)?;
    let Some(job) = job(
        &design,
        1,
        1_000_000,
        Vec::new(alloc),
        Vec::new(alloc),
        drivers,
    ) else {
        return Ok(None);
    };
    Ok(Done::run(alloc, job).ok())
}

/// Whether the first driver has one waveform, made by both assignments.
fn is_pulsed(done: &Done) -> bool {
    let pending = [
        (3_000_000, Logic::One),
        (4_000_000, Logic::One),
        (6_000_000, Logic::Zero),
    ];
    is_driver(done.drivers().first(), Logic::Zero, &pending)
}

#[test]
fn two_assignments_edit_one_waveform(rt: HostRuntime) -> Result<(), Fail> {
    let done = pulsed(rt.alloc())?;
    assert!(rt; done.is_some_and(|done| is_pulsed(&done)));
    Ok(())
}
