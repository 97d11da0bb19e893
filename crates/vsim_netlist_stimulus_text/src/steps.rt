//! The steps in which inputs change that no clock of the design is for.

use crate::clock::{Clock, Edges, edge_for, edges_in_direction, later_changes};
use vsim_netlist_design::{Change, Level};

/// The maximum number of steps of Euclid's algorithm for two numbers of 64 bits.
const DIVISIONS: usize = 96;

/// The greatest common divisor of two times.
fn common_divisor(one: u64, other: u64) -> u64 {
    let (mut divisor, mut rest) = (one, other);
    for _ in 0..DIVISIONS {
        let Some(next) = divisor.checked_rem(rest) else {
            break;
        };
        divisor = rest;
        rest = next;
    }
    divisor
}

/// The greatest common divisor of a time and those of changes after time 0.
fn divisor_with(divisor: u64, changes: &[Change]) -> u64 {
    let mut divisor = divisor;
    for change in later_changes(changes) {
        divisor = common_divisor(divisor, change.time);
    }
    divisor
}

/// The greatest common divisor of the times at which inputs change after time 0.
fn step_of(inputs: &[(usize, &[Change])]) -> u64 {
    let mut step = 0;
    for (_, changes) in inputs {
        step = divisor_with(step, changes);
    }
    step
}

/// The time of the last change of inputs.
fn last_time(inputs: &[(usize, &[Change])]) -> u64 {
    let mut latest = 0;
    for (_, changes) in inputs {
        if let Some(change) = changes.last() {
            latest = change.time.max(latest);
        }
    }
    latest
}

/// A clock, yet without a net, that rises at each time at which inputs change after time 0; `None`
/// if its period cannot be halved.
pub(crate) fn clock_of_steps(inputs: &[(usize, &[Change])]) -> Option<Clock> {
    let step = step_of(inputs);
    let half = step / 2;
    if half == 0 || step % 2 != 0 {
        return None;
    }
    Some(Clock {
        net: 0,
        first: Level::One,
        edges: Edges { start: half, half },
        end: last_time(inputs),
        later: 0,
    })
}

/// The greatest common divisor of the times between the changes of an input after time 0, and the
/// time of the first one.
fn raster_of(changes: &[Change]) -> (u64, u64) {
    let changes = later_changes(changes);
    let mut step = 0;
    let mut before = None;
    for change in changes {
        if let Some(time) = before {
            step = common_divisor(step, change.time.saturating_sub(time));
        }
        before = Some(change.time);
    }
    match changes.first() {
        Some(first) => (first.time, step),
        None => (0, step),
    }
}

/// A clock, yet without a net, that rises at each time at which an input changes after time 0, and in
/// the same steps up to the last change of all inputs; `None` if there is none.
fn clock_of_raster(inputs: &[(usize, &[Change])], changes: &[Change]) -> Option<Clock> {
    let (start, step) = raster_of(changes);
    let half = step / 2;
    if half == 0 || step % 2 != 0 {
        return None;
    }
    let before = (start.saturating_sub(1) / step).saturating_mul(step);
    Some(Clock {
        net: 0,
        first: Level::Zero,
        edges: Edges {
            start: start.saturating_sub(before),
            half,
        },
        end: last_time(inputs),
        later: 0,
    })
}

/// How long after a rising edge of a clock an input first changes that does not always change with
/// these edges; 0 if it does.
fn first_late(clock: &Clock, changes: &[Change]) -> u64 {
    for change in later_changes(changes) {
        match edge_for(clock, change.time) {
            Some(edge) if edge.rises => {}
            _ => return since_rising(clock, change.time),
        }
    }
    0
}

/// How long the last rising edge of a clock that is at first `'0'` is ago; 0 before the first one.
fn since_rising(clock: &Clock, time: u64) -> u64 {
    let period = clock.edges.half.saturating_mul(2);
    let since = time.saturating_sub(clock.edges.start);
    since.checked_rem(period).unwrap_or(0)
}

/// How long after the rising edges of a clock an input changes, the first for which that is not 0; 0
/// if there is none.
fn later_of(clock: &Clock, inputs: &[(usize, &[Change])]) -> u64 {
    for (_, changes) in inputs {
        let later = first_late(clock, changes);
        if later != 0 {
            return later;
        }
    }
    0
}

/// The number of changes of inputs after time 0.
fn change_count(inputs: &[(usize, &[Change])]) -> usize {
    let mut count = 0usize;
    for (_, changes) in inputs {
        count = count.saturating_add(later_changes(changes).len());
    }
    count
}

/// A clock, yet without a net, that rises at each time at which an input changes after time 0, and in
/// the same steps up to the last change of all inputs; `None` if there is none, or if more than half
/// of its rising edges would be without a change. Other inputs may change a constant time later too.
pub(crate) fn clock_of_input(inputs: &[(usize, &[Change])], changes: &[Change]) -> Option<Clock> {
    let clock = clock_of_raster(inputs, changes)?;
    if edges_in_direction(&clock) / 2 > change_count(inputs) {
        return None;
    }
    Some(Clock {
        later: later_of(&clock, inputs),
        ..clock
    })
}
