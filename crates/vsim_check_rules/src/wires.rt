//! Wires that take time, from the signal of a net to that of a pin.

use crate::levels::edge_of;
use crate::signals::Signals;
use std::alloc::{AllocError, Global};
use std::cmp::Reverse;
use std::collections::BinaryHeap;
use vsim_netlist_design::{Edge, Level, push};

/// The delays of a wire in femtoseconds.
#[derive(Clone, Copy, PartialEq, Eq)]
pub struct WireDelay {
    pub rise: u64,
    pub fall: u64,
}

/// A level that is on its way, and when it arrives.
#[derive(Clone, Copy)]
struct Pending {
    at: u64,
    level: Level,
}

/// A wire.
#[derive(Clone, Copy)]
struct Wire {
    to: usize,
    delay: WireDelay,
    /// The level at its beginning.
    last: Level,
    pending: Option<Pending>,
}

/// All wires. A change that is on its way is cancelled by the next one, as in the text of
/// `vsim_netlist`.
#[derive(Drop)]
pub(crate) struct Wires {
    wires: Vec<Wire>,
    /// For each signal the wires that begin there.
    from: Vec<Vec<usize>>,
    /// When levels arrive, with the wires. Those of levels that were cancelled stay until then.
    due: BinaryHeap<Reverse<(u64, usize)>>,
}

impl Wire {
    /// How long a change to a level takes. To an unknown level it is that of the edge.
    fn delay_of(&self, level: Level) -> u64 {
        match edge_of(self.last, level) {
            Some(Edge::Rising) => self.delay.rise,
            _ => self.delay.fall,
        }
    }

    /// Takes the level at the beginning at a time. Returns when it arrives, if it is new.
    fn take(&mut self, now: u64, level: Level, is_first: bool) -> Option<u64> {
        if level == self.last {
            return None;
        }
        let delay = if is_first { 0 } else { self.delay_of(level) };
        let at = now.saturating_add(delay);
        self.last = level;
        self.pending = Some(Pending { at, level });
        Some(at)
    }

    /// Takes the level that arrives at a time, if there is one.
    fn arrive(&mut self, now: u64) -> Option<Level> {
        match self.pending {
            Some(pending) if pending.at <= now => {
                self.pending = None;
                Some(pending.level)
            }
            _ => None,
        }
    }
}

impl Wires {
    /// No wires.
    pub(crate) fn new(alloc: Global) -> Wires {
        Wires {
            wires: Vec::new(alloc),
            from: Vec::new(alloc),
            due: BinaryHeap::new(alloc),
        }
    }

    /// Adds a signal, from which no wire begins.
    pub(crate) fn add_signal(&mut self, alloc: Global) -> Result<(), AllocError> {
        push(&mut self.from, Vec::new(alloc))
    }

    /// Adds a wire between two signals.
    pub(crate) fn add(
        &mut self,
        from: usize,
        to: usize,
        delay: WireDelay,
    ) -> Result<(), AllocError> {
        let place = self.wires.len();
        let wire = Wire {
            to,
            delay,
            last: Level::Unknown,
            pending: None,
        };
        push(&mut self.wires, wire)?;
        match self.from.get_mut(from) {
            Some(wires) => push(wires, place),
            None => Ok(()),
        }
    }

    /// When the next level arrives, if one is on its way.
    pub(crate) fn next(&self) -> Option<u64> {
        match self.due.peek() {
            Some(Reverse((at, _))) => Some(*at),
            None => None,
        }
    }

    /// Takes the wire of the next level that arrives at a time.
    fn take_due(&mut self, now: u64) -> Option<usize> {
        if self.next()? > now {
            return None;
        }
        let Reverse((_, wire)) = self.due.pop()?;
        Some(wire)
    }

    /// Lets the level that arrives by a wire at a time be that of its end.
    fn end(&mut self, signals: &mut Signals, now: u64, wire: usize) -> Result<(), AllocError> {
        let Some(wire) = self.wires.get_mut(wire) else {
            return Ok(());
        };
        match wire.arrive(now) {
            Some(level) => signals.take(wire.to, level),
            None => Ok(()),
        }
    }

    /// Lets all levels that arrive at a time be those of the ends.
    fn end_all(&mut self, signals: &mut Signals, now: u64) -> Result<(), AllocError> {
        for _ in 0..u64::MAX {
            let Some(wire) = self.take_due(now) else {
                break;
            };
            self.end(signals, now, wire)?;
        }
        Ok(())
    }

    /// Notes when the level at the beginning of a wire arrives.
    fn begin(
        &mut self,
        now: u64,
        wire: usize,
        level: Level,
        is_first: bool,
    ) -> Result<(), AllocError> {
        let arrival = match self.wires.get_mut(wire) {
            Some(wire) => wire.take(now, level, is_first),
            None => None,
        };
        if let Some(at) = arrival {
            self.due.push(Reverse((at, wire)))?;
        }
        Ok(())
    }

    /// The wire at a place among those that begin at a signal.
    fn wire_from(&self, signal: usize, place: usize) -> Option<usize> {
        self.from.get(signal)?.get(place).copied()
    }

    /// The number of wires that begin at a signal.
    fn count_from(&self, signal: usize) -> usize {
        match self.from.get(signal) {
            Some(wires) => wires.len(),
            None => 0,
        }
    }

    /// Takes the level of a signal at a time into the wires that begin there.
    fn begin_from(
        &mut self,
        now: u64,
        signal: usize,
        level: Level,
        is_first: bool,
    ) -> Result<(), AllocError> {
        for place in 0..self.count_from(signal) {
            if let Some(wire) = self.wire_from(signal, place) {
                self.begin(now, wire, level, is_first)?;
            }
        }
        Ok(())
    }

    /// Takes the levels that signals have at a time into wires, and those that arrive then to their
    /// ends. First values take no time.
    pub(crate) fn spread(
        &mut self,
        signals: &mut Signals,
        now: u64,
        is_first: bool,
    ) -> Result<(), AllocError> {
        if self.wires.is_empty() {
            return Ok(());
        }
        for signal in signals.changed.iter() {
            self.begin_from(now, *signal, signals.level(*signal), is_first)?;
        }
        self.end_all(signals, now)
    }
}
