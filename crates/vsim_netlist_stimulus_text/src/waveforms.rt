//! Waveforms, and what the statements of clocks are made of.

use crate::clock::inverted;
use vsim_netlist_design::{Change, Draft, Level, push_time};
use vsim_netlist_signals::{Signals, Statements};

/// The maximum number of elements of a waveform.
const ELEMENTS: usize = 16;

/// The beginning of an assignment of further elements.
const TRANSPORT: &str = "<=transport";

/// Adds an element of a waveform and what is before it. Its value is a signal that always has it, if
/// that is shorter, which it is not where it takes blanks on both sides.
fn push_element(text: &mut Draft, signals: &Signals, before: &str, change: &Change, later: u64) {
    text.push(before);
    if change.time == 0 {
        return text.push(change.level.literal());
    }
    match signals.short_constant(change.level) {
        Some(name) if before != TRANSPORT => text.push_all(&[name, " after "]),
        _ => text.push_all(&[change.level.literal(), "after "]),
    }
    push_time(text, change.time.saturating_add(later));
}

/// Adds the assignment of some changes.
fn push_waveform(
    text: &mut Draft,
    signals: &Signals,
    target: usize,
    changes: &[Change],
    later: u64,
    is_first: bool,
) {
    let mut before = if is_first { "<=" } else { TRANSPORT };
    text.push(signals.text(target));
    for change in changes {
        push_element(text, signals, before, change, later);
        before = ",";
    }
    text.push(";\n");
}

/// Adds the assignments of all changes of a signal.
pub(crate) fn push_changes(
    text: &mut Draft,
    signals: &Signals,
    target: usize,
    changes: &[Change],
    later: u64,
) {
    let mut is_first = true;
    for some in changes.chunks(ELEMENTS) {
        push_waveform(text, signals, target, some, later, is_first);
        is_first = false;
    }
}

/// Adds a clock that is inverted after half its period, until a signal falls.
pub(crate) fn push_inverted(text: &mut Draft, clock: &str, running: &str, half: u64) {
    text.push_all(&[clock, " xor ", running, " after "]);
    push_time(text, half);
}

/// Adds the inversion of a clock after half its period, until a signal falls.
pub(crate) fn push_inversion(text: &mut Draft, clock: &str, running: &str, half: u64) {
    text.push_all(&[clock, "<="]);
    push_inverted(text, clock, running, half);
}

/// Writes the signal that rises with the first edge of a clock.
fn put_started(statements: &mut Statements, once: &mut Draft, start: u64) -> usize {
    let started = statements.signals.add(Some(Level::Zero));
    statements.count_driver();
    let rise = Change {
        time: start,
        level: Level::One,
    };
    push_changes(once, &statements.signals, started, &[rise], 0);
    started
}

/// Writes the end of the assignment of a clock whose first edge is not half a period after time 0:
/// it is inverted once a signal has risen, and before that takes the level after the first edge.
pub(crate) fn put_start(statements: &mut Statements, once: &mut Draft, first: Level, start: u64) {
    let started = put_started(statements, once, start);
    statements.body.push(" when ");
    statements.push_name(started);
    let change = Change {
        time: start,
        level: inverted(first),
    };
    let (signals, text) = (&statements.signals, &mut statements.body);
    push_element(text, signals, "='1'else ", &change, 0);
}

/// Adds the beginning of the assignment of a clock: its first value, before a signal is known.
pub(crate) fn push_first(statements: &mut Statements, clock: usize, first: Level, running: usize) {
    let (signals, text) = (&statements.signals, &mut statements.body);
    text.push(signals.text(clock));
    text.push("<=");
    text.push(first.literal());
    text.push("when ");
    text.push(signals.text(running));
    text.push("='U'else ");
}

/// The change of the signal that stops the clocks.
fn stop_at(end: u64) -> Change {
    Change {
        time: end,
        level: Level::Zero,
    }
}

/// The signal that stops the clocks at a time.
pub(crate) fn put_run(statements: &mut Statements, once: &mut Draft, end: u64) -> usize {
    let running = statements.signals.add(Some(Level::One));
    statements.count_driver();
    push_changes(once, &statements.signals, running, &[stop_at(end)], 0);
    running
}

/// The same, which is not known at first.
pub(crate) fn put_run_from_unknown(
    statements: &mut Statements,
    once: &mut Draft,
    end: u64,
) -> usize {
    let running = statements.signals.add(None);
    statements.count_driver();
    let start = Change {
        time: 0,
        level: Level::One,
    };
    let changes = [start, stop_at(end)];
    push_changes(once, &statements.signals, running, &changes, 0);
    running
}
