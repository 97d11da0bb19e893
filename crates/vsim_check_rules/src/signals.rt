//! The levels of signals at the end of the time before, and at the present time.

use crate::levels::{edge_of, seen};
use std::alloc::{AllocError, Global};
use vsim_netlist_design::{Edge, Level, push};

/// A signal.
#[derive(Clone, Copy)]
struct Signal {
    before: Level,
    now: Level,
    /// Whether it is among those that changed.
    is_noted: bool,
}

/// All signals, and those that changed at the present time.
#[derive(Drop)]
pub(crate) struct Signals {
    signals: Vec<Signal>,
    pub(crate) changed: Vec<usize>,
}

impl Signals {
    /// No signals.
    pub(crate) fn new(alloc: Global) -> Signals {
        Signals {
            signals: Vec::new(alloc),
            changed: Vec::new(alloc),
        }
    }

    /// Adds a signal, which is unknown.
    pub(crate) fn add(&mut self) -> Result<(), AllocError> {
        let signal = Signal {
            before: Level::Unknown,
            now: Level::Unknown,
            is_noted: false,
        };
        push(&mut self.signals, signal)
    }

    /// Takes the level of a signal at the present time.
    pub(crate) fn take(&mut self, place: usize, level: Level) -> Result<(), AllocError> {
        let Some(signal) = self.signals.get_mut(place) else {
            return Ok(());
        };
        signal.now = seen(level);
        if signal.is_noted {
            return Ok(());
        }
        signal.is_noted = true;
        push(&mut self.changed, place)
    }

    /// The present level of a signal.
    pub(crate) fn level(&self, place: usize) -> Level {
        match self.signals.get(place) {
            Some(signal) => signal.now,
            None => Level::Unknown,
        }
    }

    /// The edge of a signal at the present time, if it has another level than before.
    pub(crate) fn edge(&self, place: usize) -> Option<Edge> {
        let signal = self.signals.get(place)?;
        edge_of(signal.before, signal.now)
    }

    /// Makes the present levels those of the time before.
    pub(crate) fn complete(&mut self) {
        for place in self.changed.iter() {
            if let Some(signal) = self.signals.get_mut(*place) {
                signal.before = signal.now;
                signal.is_noted = false;
            }
        }
        self.changed.clear();
    }
}
