//! Times as text.

use crate::writing::Draft;

/// The largest unit of which a time is a multiple, and the multiple.
fn in_units(time: u64) -> (u64, &'static str) {
    if time == 0 || time % 1_000 != 0 {
        (time, "fs")
    } else if time % 1_000_000 != 0 {
        (time / 1_000, "ps")
    } else if time % 1_000_000_000 != 0 {
        (time / 1_000_000, "ns")
    } else if time % 1_000_000_000_000 != 0 {
        (time / 1_000_000_000, "us")
    } else {
        (time / 1_000_000_000_000, "ms")
    }
}

/// Adds a time, given in femtoseconds, in the largest unit of which it is a multiple, as `40ps`.
pub fn push_time(text: &mut Draft, time: u64) {
    let (number, unit) = in_units(time);
    text.push_shown(&number);
    text.push(unit);
}

/// The number of bytes of that text.
pub fn time_bytes(time: u64) -> usize {
    let (number, unit) = in_units(time);
    let after_first = number.checked_ilog10().unwrap_or(0) as usize;
    after_first.saturating_add(unit.len().saturating_add(1))
}
