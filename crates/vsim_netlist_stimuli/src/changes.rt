//! The changes of input bits.

use std::alloc::{AllocError, Global};
use vsim_netlist_design::{Change, Level, Stimuli, empty_lists, push};

/// An input and its number of bits.
#[derive(Drop)]
pub struct Input {
    pub name: String,
    pub width: usize,
}

/// The bits of an input: the index of the first among the bits of all inputs, and their number.
#[derive(Clone, Copy)]
pub(crate) struct Bits {
    pub(crate) start: usize,
    pub(crate) width: usize,
}

/// Adds a value to the changes of a bit, if it differs from the last.
fn add(changes: &mut Vec<Change>, time: u64, level: Level) -> Result<(), AllocError> {
    if let Some(last) = changes.last_mut() {
        if last.level == level {
            return Ok(());
        }
        if last.time == time {
            last.level = level;
            return Ok(());
        }
    }
    push(changes, Change { time, level })
}

/// The letter of a bit of a value. The value has the highest bit first and may be shorter than the
/// input.
fn letter(value: &[u8], bit: usize) -> u8 {
    let from_end = value.len().checked_sub(bit.saturating_add(1));
    match from_end {
        Some(at) => value.get(at).copied().unwrap_or(b'x'),
        None => match value.first() {
            Some(b'0' | b'1') => b'0',
            Some(first) => *first,
            None => b'x',
        },
    }
}

/// No changes, for these inputs.
pub(crate) fn no_changes(alloc: Global, inputs: &[Input]) -> Result<Stimuli, AllocError> {
    let mut count = 0usize;
    for input in inputs {
        count = count.saturating_add(input.width);
    }
    let bits = empty_lists(alloc, count)?;
    Ok(Stimuli { bits, end: 0 })
}

/// Gives a level to the bit at an index.
fn set_bit(stimuli: &mut Stimuli, place: usize, time: u64, level: Level) -> Result<(), AllocError> {
    match stimuli.bits.get_mut(place) {
        Some(changes) => add(changes, time, level),
        None => Ok(()),
    }
}

/// Gives a value to bits. Returns `false` if a letter of it is not a level.
pub(crate) fn set(
    stimuli: &mut Stimuli,
    bits: Bits,
    time: u64,
    value: &[u8],
) -> Result<bool, AllocError> {
    for bit in 0..bits.width {
        let Some(level) = Level::from_byte(letter(value, bit)) else {
            return Ok(false);
        };
        set_bit(stimuli, bits.start.saturating_add(bit), time, level)?;
    }
    Ok(true)
}

/// Moves the end of stimuli to a time, if that is later.
pub(crate) fn reach(stimuli: &mut Stimuli, time: u64) {
    stimuli.end = stimuli.end.max(time);
}

/// The index of the input with a name, and its bits.
pub(crate) fn find(inputs: &[Input], name: &str) -> Option<(usize, Bits)> {
    let mut start = 0usize;
    for (place, input) in inputs.iter().enumerate() {
        let width = input.width;
        if input.name.as_str() == name {
            return Some((place, Bits { start, width }));
        }
        start = start.saturating_add(width);
    }
    None
}
