//! The edges of a clock with which inputs change.

use vsim_netlist_design::{Change, Level};

/// The edges of a clock of constant period: the time of the first one, and half the period.
#[derive(Clone, Copy)]
pub(crate) struct Edges {
    pub(crate) start: u64,
    pub(crate) half: u64,
}

/// A clock: its net, its initial level, its edges, and the time of the last one. If `later` is not 0,
/// inputs change with its rising edges and so long after them.
#[derive(Clone, Copy)]
pub(crate) struct Clock {
    pub(crate) net: usize,
    pub(crate) first: Level,
    pub(crate) edges: Edges,
    pub(crate) end: u64,
    pub(crate) later: u64,
}

/// An edge of a clock: whether it rises, and its number among those in the same direction, from 0.
/// An input changes with it or, if `is_late`, the constant time later.
#[derive(Clone, Copy)]
pub(crate) struct Edge {
    pub(crate) rises: bool,
    pub(crate) number: usize,
    pub(crate) is_late: bool,
}

/// The level after an edge from another one, `'0'` or `'1'`.
pub(crate) fn inverted(level: Level) -> Level {
    match level {
        Level::Zero => Level::One,
        _ => Level::Zero,
    }
}

/// The changes after time 0.
pub(crate) fn later_changes(changes: &[Change]) -> &[Change] {
    match changes {
        [first, rest @ ..] if first.time == 0 => rest,
        _ => changes,
    }
}

/// Whether a time is a multiple of another one, by this number.
pub(crate) fn is_multiple(time: u64, unit: u64, number: u64) -> bool {
    match unit.checked_mul(number) {
        Some(product) => product == time,
        None => false,
    }
}

/// The edge of a clock at a time, if there is one.
fn edge_at(clock: &Clock, time: u64) -> Option<Edge> {
    let since = time.checked_sub(clock.edges.start)?;
    let before = since.checked_div(clock.edges.half)?;
    if time > clock.end || !is_multiple(since, clock.edges.half, before) {
        return None;
    }
    let is_even = before % 2 == 0;
    Some(Edge {
        rises: is_even == (clock.first == Level::Zero),
        number: (before / 2) as usize,
        is_late: false,
    })
}

/// The rising edge of a clock after which inputs change at a time, if there is one.
fn edge_before(clock: &Clock, time: u64) -> Option<Edge> {
    let edge = edge_at(clock, time.checked_sub(clock.later)?)?;
    if clock.later == 0 || !edge.rises {
        return None;
    }
    Some(Edge {
        rises: true,
        number: edge.number,
        is_late: true,
    })
}

/// The edge of a clock with which, or after which, inputs change at a time, if there is one.
pub(crate) fn edge_for(clock: &Clock, time: u64) -> Option<Edge> {
    match edge_before(clock, time) {
        None => edge_at(clock, time),
        late => late,
    }
}

/// A bound of the number of edges of a clock in one direction, at most one too high.
pub(crate) fn edges_in_direction(clock: &Clock) -> usize {
    let since = clock.end.saturating_sub(clock.edges.start);
    let after_first = since.checked_div(clock.edges.half).unwrap_or(0);
    (after_first / 2).saturating_add(1) as usize
}

/// Whether all these changes are with the edges of a clock in one direction, or after them.
fn are_at(clock: &Clock, changes: &[Change], rises: bool) -> bool {
    for change in changes {
        match edge_for(clock, change.time) {
            Some(edge) if edge.rises == rises => {}
            _ => return false,
        }
    }
    true
}

/// Whether any of these changes comes after an edge of a clock.
pub(crate) fn is_any_late(clock: &Clock, changes: &[Change]) -> bool {
    for change in changes {
        match edge_for(clock, change.time) {
            Some(edge) if edge.is_late => return true,
            _ => {}
        }
    }
    false
}

/// Whether an input is `'0'` or `'1'` from time 0 on.
fn is_binary(changes: &[Change]) -> bool {
    for change in changes {
        if change.level != Level::Zero && change.level != Level::One {
            return false;
        }
    }
    match changes.first() {
        Some(first) => first.time == 0,
        None => false,
    }
}

/// Whether an input changes after time 0, and only with the edges of a clock in one direction or, if
/// it is always `'0'` or `'1'`, after them.
pub(crate) fn fits(clock: &Clock, changes: &[Change], rises: bool) -> bool {
    let later = later_changes(changes);
    if later.is_empty() || !are_at(clock, later, rises) {
        return false;
    }
    is_binary(changes) || !is_any_late(clock, later)
}
