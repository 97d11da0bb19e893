//! The cycle (IEEE 1076-2008, 14.7.5).

use super::nets::{values_in, values_of, views_of};
use super::process::{executed, is_resumed, put};
use sim_exec::{Done, NetView};
use sim_flat_design::{Design, Held, Process};
use sim_logic::Logic;
use sim_wave::Driver;
use std::alloc::Global;

/// The state of a design at the end of a cycle.
#[derive(Drop)]
pub struct Snapshot {
    /// The time in femtoseconds.
    pub time: u64,
    /// The number of cycles before this one at the same time.
    pub delta: u64,
    /// The nets with an event, with their values; at the start all nets.
    pub changes: Vec<(usize, Logic)>,
}

/// The state of a design.
#[derive(Drop)]
struct State {
    time: u64,
    delta: u64,
    views: Vec<NetView>,
    drivers: Vec<Driver>,
    variables: Vec<Vec<Held>>,
    /// For each process, whether it is postponed and was resumed but not executed since.
    waiting: Vec<bool>,
}

/// The drivers at the start.
fn first_drivers(alloc: Global, design: &Design) -> Option<Vec<Driver>> {
    let mut drivers = Vec::new(alloc);
    for driver in design.drivers() {
        drivers.push(Driver::new(alloc, driver.first)).ok()?;
    }
    Some(drivers)
}

/// The variables of each process at the start.
fn first_variables(alloc: Global, design: &Design) -> Option<Vec<Vec<Held>>> {
    let mut variables = Vec::new(alloc);
    for process in design.processes() {
        let own = Vec::from_slice(alloc, process.body().variables()).ok()?;
        variables.push(own).ok()?;
    }
    Some(variables)
}

/// The views of the nets at the start, by the drivers.
fn first_views(alloc: Global, design: &Design, drivers: &[Driver]) -> Option<Vec<NetView>> {
    let values = values_of(alloc, drivers, design.nets())?;
    views_of(alloc, values.as_slice(), values.as_slice())
}

/// The variables of each process at the start, and marks that none waits.
fn first_owned(alloc: Global, design: &Design) -> Option<(Vec<Vec<Held>>, Vec<bool>)> {
    let variables = first_variables(alloc, design)?;
    let mut waiting = Vec::new(alloc);
    waiting.resize(design.processes().len(), false).ok()?;
    Some((variables, waiting))
}

/// The state at the start (14.7.5.2).
fn first_state(alloc: Global, design: &Design) -> Option<State> {
    let drivers = first_drivers(alloc, design)?;
    let (variables, waiting) = first_owned(alloc, design)?;
    let views = first_views(alloc, design, drivers.as_slice())?;
    Some(State {
        time: 0,
        delta: 0,
        views,
        drivers,
        variables,
        waiting,
    })
}

/// The drivers of a process.
fn drivers_of<'a>(state: &'a State, process: &Process) -> Option<&'a [Driver]> {
    let first = process.first_driver();
    let end = first.checked_add(process.body().drivers())?;
    state.drivers.as_slice().get(first..end)
}

/// The execution of a process in this state.
fn done_in(alloc: Global, state: &State, process: &Process, number: usize) -> Option<Done> {
    let drivers = drivers_of(state, process)?;
    let variables = state.variables.get(number)?.as_slice();
    let views = state.views.as_slice();
    executed(
        alloc, state.time, number, process, views, drivers, variables,
    )
}

/// Puts what an execution leaves in place of what the process owned.
fn put_done(
    alloc: Global,
    state: &mut State,
    first_driver: usize,
    done: &Done,
    number: usize,
) -> Option<()> {
    put(
        alloc,
        state.drivers.as_mut_slice(),
        first_driver,
        done.drivers(),
    )?;
    *state.variables.get_mut(number)? = Vec::from_slice(alloc, done.variables()).ok()?;
    Some(())
}

/// Executes a process.
fn execute(alloc: Global, design: &Design, state: &mut State, number: usize) -> Option<()> {
    let process = design.processes().get(number)?;
    let done = done_in(alloc, state, process, number)?;
    put_done(alloc, state, process.first_driver(), &done, number)
}

/// Whether a process is resumed.
fn is_resumed_now(state: &State, process: &Process, all: bool) -> bool {
    all || is_resumed(state.views.as_slice(), process.sensitivity())
}

/// The postponed processes that are resumed wait from now on (14.7.5.3 h).
fn wait(design: &Design, state: &mut State, all: bool) -> Option<()> {
    for (number, process) in design.processes().iter().enumerate() {
        if process.postponed() && is_resumed_now(state, process, all) {
            *state.waiting.get_mut(number)? = true;
        }
    }
    Some(())
}

/// Executes the resumed processes that are not postponed, one after another (14.7.5.3 f).
fn execute_resumed(alloc: Global, design: &Design, state: &mut State, all: bool) -> Option<()> {
    for (number, process) in design.processes().iter().enumerate() {
        if !process.postponed() && is_resumed_now(state, process, all) {
            execute(alloc, design, state, number)?;
        }
    }
    Some(())
}

/// Executes the waiting processes, one after another (14.7.5.3 h).
fn execute_waiting(alloc: Global, design: &Design, state: &mut State) -> Option<()> {
    for number in 0..design.processes().len() {
        if *state.waiting.get(number)? {
            execute(alloc, design, state, number)?;
            *state.waiting.get_mut(number)? = false;
        }
    }
    Some(())
}

/// Executes the processes of a cycle: first those that are not postponed, then, unless a delta
/// cycle follows, those that wait. In the initialization these are executed in any case (14.7.5.2).
fn execute_all(alloc: Global, design: &Design, state: &mut State, is_first: bool) -> Option<()> {
    wait(design, state, is_first)?;
    execute_resumed(alloc, design, state, is_first)?;
    if !is_first && next_time(state.drivers.as_slice()) == Some(state.time) {
        return Some(());
    }
    execute_waiting(alloc, design, state)
}

/// The earlier of two times.
fn earlier(time: Option<u64>, other: Option<u64>) -> Option<u64> {
    match (time, other) {
        (Some(time), Some(other)) => Some(time.min(other)),
        (Some(time), None) => Some(time),
        (None, other) => other,
    }
}

/// The time of the next cycle (14.7.5.1).
fn next_time(drivers: &[Driver]) -> Option<u64> {
    let mut next = None;
    for driver in drivers {
        next = earlier(next, driver.next());
    }
    next
}

/// All drivers take the transactions that are due.
fn take(drivers: &mut [Driver], time: u64) {
    for driver in drivers.iter_mut() {
        driver.take(time);
    }
}

/// The nets to be reported: all of them, or those with an event.
fn changes(alloc: Global, views: &[NetView], all: bool) -> Option<Vec<(usize, Logic)>> {
    let mut changes = Vec::new(alloc);
    for (number, view) in views.iter().enumerate() {
        if all || view.event {
            changes.push((number, view.value)).ok()?;
        }
    }
    Some(changes)
}

/// A snapshot of the state.
fn taken(alloc: Global, state: &State, all: bool) -> Option<Snapshot> {
    let changes = changes(alloc, state.views.as_slice(), all)?;
    Some(Snapshot {
        time: state.time,
        delta: state.delta,
        changes,
    })
}

/// The number of the cycle among those at its time.
fn next_delta(state: &State, time: u64) -> Option<u64> {
    if time == state.time {
        state.delta.checked_add(1)
    } else {
        Some(0)
    }
}

/// The views of the nets once the drivers have taken their transactions.
fn next_views(alloc: Global, design: &Design, state: &State) -> Option<Vec<NetView>> {
    let values = values_of(alloc, state.drivers.as_slice(), design.nets())?;
    let values_before = values_in(alloc, state.views.as_slice())?;
    views_of(alloc, values.as_slice(), values_before.as_slice())
}

/// The cycle at a time: drivers first, then nets (14.7.5.3).
fn update(alloc: Global, design: &Design, state: &mut State, time: u64) -> Option<()> {
    state.delta = next_delta(state, time)?;
    state.time = time;
    take(state.drivers.as_mut_slice(), time);
    state.views = next_views(alloc, design, state)?;
    Some(())
}

/// Executes the processes that are due, all of them in the first cycle, and updates the state for
/// the next cycle, if anything is pending; returns whether there was one.
fn go_on(alloc: Global, design: &Design, state: &mut State, is_first: bool) -> Option<bool> {
    execute_all(alloc, design, state, is_first)?;
    let Some(time) = next_time(state.drivers.as_slice()) else {
        return Some(false);
    };
    update(alloc, design, state, time)?;
    Some(true)
}

/// Adds a snapshot of the state.
fn add(alloc: Global, snapshots: &mut Vec<Snapshot>, state: &State, all: bool) -> Option<()> {
    snapshots.push(taken(alloc, state, all)?).ok()
}

/// Carries out this many cycles, or until nothing is pending.
fn run(
    alloc: Global,
    design: &Design,
    state: &mut State,
    cycles: usize,
    snapshots: &mut Vec<Snapshot>,
) -> Option<()> {
    for cycle in 0..cycles {
        if !go_on(alloc, design, state, cycle == 0)? {
            return Some(());
        }
        add(alloc, snapshots, state, false)?;
    }
    Some(())
}

/// The states of a design at the start and after each cycle, up to this number of cycles or
/// until nothing is pending. `None` if memory runs out.
pub fn snapshots(alloc: Global, design: &Design, cycles: usize) -> Option<Vec<Snapshot>> {
    let mut state = first_state(alloc, design)?;
    let mut snapshots = Vec::new(alloc);
    add(alloc, &mut snapshots, &state, true)?;
    run(alloc, design, &mut state, cycles, &mut snapshots)?;
    Some(snapshots)
}
