//! The assignments of an output after the delay of the input that changed last.

use std::alloc::{AllocError, Global};
use vsim_netlist_design::{Draft, Edge, PathDelay, Timing, When, push, push_time};

/// A path: the test that it is the one, and its delays.
#[derive(Drop)]
pub(crate) struct TestedPath {
    test: Draft,
    path: PathDelay,
}

/// The changes of an output that may have a delay of their own.
#[derive(Clone, Copy, PartialEq, Eq)]
enum Change {
    /// To `1`, or from `0`.
    Rise,
    /// To `0`, or from `1`.
    Fall,
    /// To `'Z'`, where that has a delay of its own.
    Off,
    /// From `'X'` to `'Z'`, where that has none: the longer of the others.
    Longer,
    /// From `'Z'` to `'X'`: the shorter of the others.
    Shorter,
}

/// A function of two times, of which one may be missing.
fn either(first: Option<u64>, second: Option<u64>, is_longer: bool) -> Option<u64> {
    match (first, second) {
        (Some(first), Some(second)) if is_longer => Some(first.max(second)),
        (Some(first), Some(second)) => Some(first.min(second)),
        _ => first.or(second),
    }
}

/// The delay of a path for a change.
fn delay_of(path: &PathDelay, change: Change) -> Option<u64> {
    match change {
        Change::Rise => path.rise,
        Change::Fall => path.fall,
        Change::Off => path.off,
        Change::Longer => either(path.rise, path.fall, true),
        Change::Shorter => either(path.rise, path.fall, false),
    }
}

/// Adds the test of an event of an input. A change to or from an unknown value is both edges.
fn push_event(text: &mut Draft, name: &str, edge: Edge) {
    text.push_all(&[name, "'event"]);
    match edge {
        Edge::Both => {}
        Edge::Rising => text.push_all(&[" and ", name, "/='0'"]),
        Edge::Falling => text.push_all(&[" and ", name, "/='1'"]),
    }
}

/// Adds the test of a condition. One that is unknown holds.
fn push_condition(text: &mut Draft, conditions: &[Draft], place: usize, holds: bool) {
    if let Some(condition) = conditions.get(place) {
        text.push(" and ");
        text.push_draft(condition);
        text.push(if holds { "/='0'" } else { "='0'" });
    }
}

/// Whether a path with a condition takes the place of another one without, while that holds.
fn replaces(path: &PathDelay, other: &PathDelay) -> bool {
    other.from == path.from && (other.edge == Edge::Both || other.edge == path.edge)
}

/// Adds the tests that no condition holds of the paths that take the place of another one.
fn push_others(text: &mut Draft, timing: &Timing, conditions: &[Draft], other: &PathDelay) {
    for path in timing.paths.iter() {
        if let When::Holds(place) = path.when {
            if replaces(path, other) {
                push_condition(text, conditions, place, false);
            }
        }
    }
}

/// The test that a path is the one, given the name of its net and the texts of all conditions.
fn test_of(
    alloc: Global,
    timing: &Timing,
    conditions: &[Draft],
    path: &PathDelay,
    name: &str,
) -> Draft {
    let mut test = Draft::new(alloc);
    push_event(&mut test, name, path.edge);
    match path.when {
        When::Holds(place) => push_condition(&mut test, conditions, place, true),
        _ => push_others(&mut test, timing, conditions, path),
    }
    test
}

/// A path with its test. One of several parts is in parentheses.
pub(crate) fn tested(
    alloc: Global,
    timing: &Timing,
    conditions: &[Draft],
    path: &PathDelay,
    name: &str,
) -> TestedPath {
    let inner = test_of(alloc, timing, conditions, path, name);
    let mut test = Draft::new(alloc);
    let is_plain = path.edge == Edge::Both && !inner.read_for(&mut test).contains(' ');
    test.push(if is_plain { "" } else { "(" });
    test.push_draft(&inner);
    test.push(if is_plain { "" } else { ")" });
    TestedPath { test, path: *path }
}

/// The paths that have a delay for a change, each after that delay, the least first.
fn ordered(
    alloc: Global,
    paths: &[TestedPath],
    change: Change,
) -> Result<Vec<(u64, usize)>, AllocError> {
    let mut order = Vec::new(alloc);
    for (place, tested) in paths.iter().enumerate() {
        if let Some(delay) = delay_of(&tested.path, change) {
            push(&mut order, (delay, place))?;
        }
    }
    order.sort()?;
    Ok(order)
}

/// Adds the assignment of the new value after a delay.
fn push_new(text: &mut Draft, target: &str, delay: u64) {
    text.push_all(&[target, "<=n"]);
    if delay != 0 {
        text.push(" after ");
        push_time(text, delay);
    }
    text.push(";");
}

/// Adds what stands before the test of a path, given the delay before it.
fn push_joint(text: &mut Draft, target: &str, before: Option<u64>, delay: u64) {
    match before {
        None => text.push("if "),
        Some(time) if time == delay => text.push(" or "),
        Some(time) => {
            text.push(" then ");
            push_new(text, target, time);
            text.push("elsif ");
        }
    }
}

/// Adds the tests of the paths with less than the longest delay. Returns the last of their delays.
fn push_tests(
    text: &mut Draft,
    target: &str,
    paths: &[TestedPath],
    order: &[(u64, usize)],
    longest: u64,
) -> Option<u64> {
    let mut before = None;
    for (delay, place) in order {
        if *delay == longest {
            break;
        }
        push_joint(text, target, before, *delay);
        if let Some(tested) = paths.get(*place) {
            text.push_draft(&tested.test);
        }
        before = Some(*delay);
    }
    before
}

/// The assignment for a change: after the least delay of the inputs that changed. The longest needs
/// no test.
fn ladder(
    alloc: Global,
    target: &str,
    paths: &[TestedPath],
    change: Change,
) -> Result<Draft, AllocError> {
    let order = ordered(alloc, paths, change)?;
    let longest = match order.last() {
        Some((delay, _)) => *delay,
        None => 0,
    };
    let mut text = Draft::new(alloc);
    let before = push_tests(&mut text, target, paths, order.as_slice(), longest);
    if let Some(time) = before {
        text.push(" then ");
        push_new(&mut text, target, time);
        text.push("else ");
    }
    push_new(&mut text, target, longest);
    text.push(if before.is_some() { "end if;" } else { "" });
    Ok(text)
}

/// Adds a statement as the last branch, with the end of the whole.
fn push_last(text: &mut Draft, statement: &Draft) {
    if statement.read_for(text).starts_with("if ") {
        text.push("els");
        return text.push_draft(statement);
    }
    text.push("else ");
    text.push_draft(statement);
    text.push("end if;");
}

/// The assignment for a rise or a fall.
fn edges(alloc: Global, target: &str, paths: &[TestedPath]) -> Result<Draft, AllocError> {
    let rise = ladder(alloc, target, paths, Change::Rise)?;
    let fall = ladder(alloc, target, paths, Change::Fall)?;
    let mut text = Draft::new(alloc);
    let is_same = rise.read_for(&mut text) == fall.read_for(&mut text);
    text.push(if is_same { "" } else { "if n='1'or v='0'then " });
    text.push_draft(&rise);
    if !is_same {
        push_last(&mut text, &fall);
    }
    Ok(text)
}

/// Whether a path has a delay of its own for high impedance.
fn has_off(paths: &[TestedPath]) -> bool {
    for tested in paths {
        if tested.path.has_off {
            return true;
        }
    }
    false
}

/// The assignment for a change to high impedance, after its test.
fn off(alloc: Global, target: &str, paths: &[TestedPath]) -> Result<Draft, AllocError> {
    let (test, change) = if has_off(paths) {
        ("if n='Z'then ", Change::Off)
    } else {
        ("if n='Z'and v='X'then ", Change::Longer)
    };
    let mut text = Draft::of(alloc, test);
    text.push_draft(&ladder(alloc, target, paths, change)?);
    Ok(text)
}

/// The assignment for any change of a three-state output.
fn with_off(alloc: Global, target: &str, paths: &[TestedPath]) -> Result<Draft, AllocError> {
    let mut text = off(alloc, target, paths)?;
    text.push("elsif n='X'and v='Z'then ");
    text.push_draft(&ladder(alloc, target, paths, Change::Shorter)?);
    push_last(&mut text, &edges(alloc, target, paths)?);
    Ok(text)
}

/// The assignment of the new value `n` to an output whose old one is `v`.
pub(crate) fn choice(
    alloc: Global,
    target: &str,
    paths: &[TestedPath],
    is_tristate: bool,
) -> Result<Draft, AllocError> {
    if is_tristate {
        return with_off(alloc, target, paths);
    }
    edges(alloc, target, paths)
}
