//! The signals that the process of a table assigns.

use crate::clock::inverted;
use std::alloc::{AllocError, Global};
use std::collections::HashMap;
use vsim_netlist_design::{Change, Level};

/// The bytes that an input takes besides its changes if it is the exclusive or of two signals.
pub(crate) const LATE: usize = 50;

/// The signals that are assigned, by the net of the input: one for each input, which the input is or
/// follows. An input that changes after the edges too is the exclusive or of it and another one.
pub(crate) struct Targets {
    own: HashMap<usize, usize>,
    late: HashMap<usize, usize>,
}

impl Drop for Targets {
    fn drop(self) {
        let Targets {
            own: _own,
            late: _late,
        } = self;
    }
}

impl Targets {
    /// No signals.
    pub(crate) fn new(alloc: Global) -> Targets {
        Targets {
            own: HashMap::new(alloc),
            late: HashMap::new(alloc),
        }
    }

    /// Adds an input, which is assigned itself as long as nothing else is set.
    pub(crate) fn add(&mut self, net: usize, is_late: bool) -> Result<(), AllocError> {
        if is_late {
            self.late.insert(net, net)?;
        }
        self.set(net, net)
    }

    /// Sets the signal that the input with a net follows.
    pub(crate) fn set(&mut self, net: usize, signal: usize) -> Result<(), AllocError> {
        self.own.insert(net, signal)?;
        Ok(())
    }

    /// Sets the signal that the input with a net follows late.
    pub(crate) fn set_late(&mut self, net: usize, signal: usize) -> Result<(), AllocError> {
        self.late.insert(net, signal)?;
        Ok(())
    }

    /// Whether there is an input with a net.
    pub(crate) fn has(&self, net: usize) -> bool {
        self.own.contains_key(&net)
    }

    /// Whether the input with a net changes after the edges too.
    pub(crate) fn is_late(&self, net: usize) -> bool {
        self.late.contains_key(&net)
    }

    /// The signal that is assigned for the input with a net.
    pub(crate) fn signal(&self, net: usize, is_late: bool) -> usize {
        let signals = if is_late { &self.late } else { &self.own };
        signals.get(&net).copied().unwrap_or(net)
    }

    /// The bytes that inputs take besides their changes since they change after the edges too.
    pub(crate) fn late_bytes(&self) -> usize {
        self.late.len().saturating_mul(LATE)
    }
}

/// The levels of the two signals of which an input is the exclusive or.
#[derive(Clone, Copy)]
pub(crate) struct Levels {
    own: Level,
    late: Level,
}

impl Levels {
    /// The levels at time 0.
    pub(crate) fn of(changes: &[Change]) -> Levels {
        let own = match changes.first() {
            Some(first) => first.level,
            None => Level::Zero,
        };
        Levels {
            own,
            late: Level::Zero,
        }
    }

    /// Inverts one of them, and returns it.
    pub(crate) fn invert(&mut self, is_late: bool) -> Level {
        if is_late {
            self.late = inverted(self.late);
            self.late
        } else {
            self.own = inverted(self.own);
            self.own
        }
    }
}
