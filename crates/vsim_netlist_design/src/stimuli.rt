//! The changes of a design's inputs.

use crate::level::Level;

/// A value that a bit has from a time on (in femtoseconds).
#[derive(Clone, Copy)]
pub struct Change {
    pub time: u64,
    pub level: Level,
}

/// The changes of input bits: one list for each bit, with the first input first and the lowest bit
/// of each first; and the time at which the stimuli end.
#[derive(Drop)]
pub struct Stimuli {
    pub bits: Vec<Vec<Change>>,
    pub end: u64,
}
