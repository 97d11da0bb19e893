//! The delays of cells, by the nets of their inputs.

use crate::bits::Bit;
use crate::delays::{Edge, When};
use crate::library::Step;

/// The delays of a path from a net, in femtoseconds: to `1`, to `0`, and to high impedance if that
/// has one of its own. Where there is none, the longest of the other paths counts.
#[derive(Clone, Copy)]
pub struct PathDelay {
    pub from: usize,
    pub edge: Edge,
    pub when: When,
    pub rise: Option<u64>,
    pub fall: Option<u64>,
    pub off: Option<u64>,
    pub has_off: bool,
}

impl PathDelay {
    /// The one delay of a path for all changes, if it has one.
    fn only(&self) -> Option<u64> {
        match (self.rise, self.fall) {
            (Some(rise), Some(fall)) if rise == fall => Some(rise),
            _ => None,
        }
    }
}

/// A condition of paths: the bits of its inputs, and its steps on them.
#[derive(Drop)]
pub struct PathCondition {
    pub inputs: Vec<Bit>,
    pub steps: Vec<Step>,
}

/// The delays of the paths to the output of a cell, and their conditions.
pub struct Timing {
    pub paths: Vec<PathDelay>,
    pub conditions: Vec<PathCondition>,
}

/// Written by hand so that code which drops it needs no proof about its contents.
impl Drop for Timing {
    fn drop(self) {
        let Timing { paths, conditions } = self;
        drop(paths);
        drop(conditions);
    }
}

impl Timing {
    /// The one delay of all paths for a rise or a fall, if they have one.
    pub fn only(&self) -> Option<u64> {
        let first = match self.paths.first() {
            Some(path) => path.only()?,
            None => return Some(0),
        };
        for path in self.paths.iter() {
            if path.only() != Some(first) {
                return None;
            }
        }
        Some(first)
    }
}
