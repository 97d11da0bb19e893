//! The statements of a text, as far as they have been written.

use crate::signals::Signals;
use std::alloc::Global;
use vsim_netlist_design::{Bit, Draft};

/// The statements written so far, the signals and the entities that they name, and the number of
/// their processes and drivers.
pub struct Statements {
    pub alloc: Global,
    pub signals: Signals,
    /// Entities with their architectures, which instances name.
    pub entities: Draft,
    pub body: Draft,
    pub processes: usize,
    pub drivers: usize,
}

/// Written by hand so that code which drops it needs no proof about its contents.
impl Drop for Statements {
    fn drop(self) {
        let Statements {
            alloc: _,
            signals: _signals,
            entities: _entities,
            body: _body,
            processes: _,
            drivers: _,
        } = self;
    }
}

impl Statements {
    /// Nothing has been written. The signals have their names.
    pub fn new(alloc: Global, signals: Signals) -> Statements {
        Statements {
            alloc,
            signals,
            entities: Draft::new(alloc),
            body: Draft::new(alloc),
            processes: 0,
            drivers: 0,
        }
    }

    /// Gives a short name to a signal without one.
    pub fn ensure(&mut self, place: usize) {
        self.signals.ensure(place);
    }

    /// Whether a signal has a name.
    pub fn has_name(&self, place: usize) -> bool {
        self.signals.name(place).is_some()
    }

    /// The name of the signal of a bit.
    pub fn bit_name(&mut self, bit: Bit) -> &str {
        let place = self.signals.of_bit(bit);
        self.signals.text(place)
    }

    /// Adds the name of a signal.
    pub fn push_name(&mut self, place: usize) {
        self.body.push(self.signals.text(place));
    }

    /// Counts a process that drives one signal.
    pub fn count(&mut self) {
        self.count_process();
        self.count_driver();
    }

    /// Counts a process.
    pub fn count_process(&mut self) {
        self.processes = self.processes.saturating_add(1);
    }

    /// Counts a signal that a process drives.
    pub fn count_driver(&mut self) {
        self.drivers = self.drivers.saturating_add(1);
    }
}
