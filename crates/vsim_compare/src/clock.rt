//! The clock before whose edges values are compared.

use crate::options::Edge;
use vsim_compare_inputs::{Change, Offers};
use vsim_waves_listing::MapBit;

/// A clock: its signal, its level now, and that at the last moment that was completed.
#[derive(Clone, Copy)]
pub struct Clock {
    signal: usize,
    edge: Edge,
    now: Option<bool>,
    before: Option<bool>,
    /// The number of edges so far.
    pub edges: u64,
}

/// The level of a letter, where it is known.
fn level(letter: u8) -> Option<bool> {
    match letter {
        b'0' | b'L' => Some(false),
        b'1' | b'H' => Some(true),
        _ => None,
    }
}

/// The clock of this name among what a side offers, if it is a signal of one bit.
pub fn find_clock(offers: &Offers, name: &str, edge: Edge) -> Option<Clock> {
    let bits = offers.find(name.as_bytes(), 1)?;
    match offers.bits.get(bits.first) {
        Some(MapBit::Signal(signal)) => Some(Clock {
            signal: *signal,
            edge,
            now: None,
            before: None,
            edges: 0,
        }),
        _ => None,
    }
}

impl Clock {
    /// Takes changes of the side of the clock.
    pub fn take(&mut self, batch: &[Change]) {
        for change in batch {
            if change.signal == self.signal {
                self.now = level(change.letter);
            }
        }
    }

    /// Completes a moment; `true` if it has an edge.
    pub fn complete(&mut self) -> bool {
        let before = self.before;
        self.before = self.now;
        match (before, self.now) {
            (Some(false), Some(true)) => self.edge != Edge::Falling,
            (Some(true), Some(false)) => self.edge != Edge::Rising,
            _ => false,
        }
    }
}
