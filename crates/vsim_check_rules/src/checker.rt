//! All checks of a design.

use crate::conditions::{Conditions, SignalCondition};
use crate::levels::{counts, opposite};
use crate::pulses::Pulse;
use crate::signals::Signals;
use crate::violations::Violation;
use crate::windows::{Present, Watch};
use crate::wires::{WireDelay, Wires};
use std::alloc::{AllocError, Global};
use vsim_netlist_design::{CheckEvent, Edge, Level, Width, Window, push};

/// The part that an edge plays in a check, with the index of the check's window or pulse.
#[derive(Clone, Copy)]
enum Role {
    Reference(usize),
    Data(usize),
    Begin(usize),
    End(usize),
}

/// The edges of a signal that count in a check, and the part they play.
#[derive(Clone, Copy)]
struct Use {
    edge: Edge,
    role: Role,
}

/// The uses of a signal: first those as the reference of a window, then all others.
#[derive(Drop)]
struct Uses {
    first: Vec<Use>,
    second: Vec<Use>,
}

/// The checks alone.
#[derive(Drop)]
struct Rules {
    watches: Vec<Watch>,
    pulses: Vec<Pulse>,
    conditions: Conditions,
    /// The violations of the present time.
    found: Vec<Violation>,
}

/// Checks, with what they have seen so far.
///
/// At each time, `take` is called for each signal that has a line in the listing, and then
/// `begin`, `check` or `settle`, which also is at each time of `next`. So a signal that changes and
/// changes back at one time has no event.
pub struct Checker {
    alloc: Global,
    signals: Signals,
    wires: Wires,
    uses: Vec<Uses>,
    rules: Rules,
}

/// Written by hand so that code which drops it needs no proof about its contents.
impl Drop for Checker {
    fn drop(self) {
        let Checker {
            alloc: _,
            signals,
            wires,
            uses,
            rules,
        } = self;
        drop(signals);
        drop(wires);
        drop(uses);
        drop(rules);
    }
}

impl Rules {
    /// No checks.
    fn new(alloc: Global) -> Rules {
        Rules {
            watches: Vec::new(alloc),
            pulses: Vec::new(alloc),
            conditions: Conditions::new(alloc),
            found: Vec::new(alloc),
        }
    }

    /// Takes a reference event of a window.
    fn take_reference(
        &mut self,
        present: Present<'_>,
        place: usize,
    ) -> Result<Option<Violation>, AllocError> {
        match self.watches.get_mut(place) {
            Some(watch) => watch.take_reference(present, &mut self.conditions),
            None => Ok(None),
        }
    }

    /// Takes a data event of a window.
    fn take_data(
        &mut self,
        present: Present<'_>,
        place: usize,
    ) -> Result<Option<Violation>, AllocError> {
        match self.watches.get_mut(place) {
            Some(watch) => watch.take_data(present, &mut self.conditions),
            None => Ok(None),
        }
    }

    /// Takes the beginning of a pulse.
    fn begin(&mut self, present: Present<'_>, place: usize) -> Result<(), AllocError> {
        match self.pulses.get_mut(place) {
            Some(pulse) => pulse.begin(present, &mut self.conditions),
            None => Ok(()),
        }
    }

    /// Takes the end of a pulse.
    fn end(&mut self, now: u64, place: usize) -> Option<Violation> {
        match self.pulses.get_mut(place) {
            Some(pulse) => pulse.end(now),
            None => None,
        }
    }

    /// Takes an edge in a role, and returns the violation that it ends.
    fn violation(
        &mut self,
        present: Present<'_>,
        role: Role,
    ) -> Result<Option<Violation>, AllocError> {
        match role {
            Role::Reference(place) => self.take_reference(present, place),
            Role::Data(place) => self.take_data(present, place),
            Role::End(place) => Ok(self.end(present.now, place)),
            Role::Begin(place) => {
                self.begin(present, place)?;
                Ok(None)
            }
        }
    }

    /// Takes an edge in a role.
    fn take(&mut self, present: Present<'_>, role: Role) -> Result<(), AllocError> {
        match self.violation(present, role)? {
            Some(violation) => push(&mut self.found, violation),
            None => Ok(()),
        }
    }

    /// Takes an edge in all roles in which it counts.
    fn take_all(
        &mut self,
        present: Present<'_>,
        edge: Edge,
        uses: &[Use],
    ) -> Result<(), AllocError> {
        for each in uses {
            if counts(edge, each.edge) {
                self.take(present, each.role)?;
            }
        }
        Ok(())
    }

    /// Takes the edge of a signal, as a reference or as anything else.
    fn take_signal(
        &mut self,
        present: Present<'_>,
        uses: &[Uses],
        signal: usize,
        is_first: bool,
    ) -> Result<(), AllocError> {
        let Some(edge) = present.signals.edge(signal) else {
            return Ok(());
        };
        let Some(uses) = uses.get(signal) else {
            return Ok(());
        };
        let uses = if is_first { &uses.first } else { &uses.second };
        self.take_all(present, edge, uses.as_slice())
    }

    /// Takes the edges of all signals that changed.
    fn take_signals(
        &mut self,
        present: Present<'_>,
        uses: &[Uses],
        is_first: bool,
    ) -> Result<(), AllocError> {
        for signal in present.signals.changed.iter() {
            self.take_signal(present, uses, *signal, is_first)?;
        }
        Ok(())
    }

    /// Finds the violations of the present time, in the order of their checks.
    fn find(&mut self, present: Present<'_>, uses: &[Uses]) -> Result<(), AllocError> {
        self.found.clear();
        self.take_signals(present, uses, true)?;
        self.take_signals(present, uses, false)?;
        self.found.sort_unstable();
        Ok(())
    }
}

impl Checker {
    /// No checks.
    pub fn new(alloc: Global) -> Checker {
        Checker {
            alloc,
            signals: Signals::new(alloc),
            wires: Wires::new(alloc),
            uses: Vec::new(alloc),
            rules: Rules::new(alloc),
        }
    }

    /// The violations that `check` found, in the order of their checks.
    pub fn found(&self) -> &[Violation] {
        self.rules.found.as_slice()
    }

    /// Adds a signal, which is unknown, and returns its index.
    pub fn add_signal(&mut self) -> Result<usize, AllocError> {
        let place = self.uses.len();
        self.signals.add()?;
        self.wires.add_signal(self.alloc)?;
        self.put_uses()?;
        Ok(place)
    }

    /// Adds a signal without a role.
    fn put_uses(&mut self) -> Result<(), AllocError> {
        let uses = Uses {
            first: Vec::new(self.alloc),
            second: Vec::new(self.alloc),
        };
        push(&mut self.uses, uses)
    }

    /// Adds a signal at the end of a wire from another, and returns its index.
    pub fn add_wire(&mut self, from: usize, delay: WireDelay) -> Result<usize, AllocError> {
        let to = self.add_signal()?;
        self.wires.add(from, to, delay)?;
        Ok(to)
    }

    /// Adds a condition, and returns its index.
    pub fn add_condition(&mut self, condition: SignalCondition) -> Result<usize, AllocError> {
        self.rules.conditions.add(condition)
    }

    /// Lets a signal have a role.
    fn put_use(&mut self, event: CheckEvent, edge: Edge, role: Role) -> Result<(), AllocError> {
        let Some(uses) = self.uses.get_mut(event.signal) else {
            return Ok(());
        };
        let list = match role {
            Role::Reference(_) => &mut uses.first,
            _ => &mut uses.second,
        };
        push(list, Use { edge, role })
    }

    /// Adds a window of a check, given by its index.
    pub fn add_window(&mut self, check: usize, window: Window) -> Result<(), AllocError> {
        let place = self.rules.watches.len();
        let watch = Watch::new(self.alloc, check, window);
        push(&mut self.rules.watches, watch)?;
        let (reference, data) = (window.reference, window.data);
        self.put_use(reference, reference.edge, Role::Reference(place))?;
        self.put_use(data, data.edge, Role::Data(place))
    }

    /// Adds the width of pulses that begin by one kind of edge.
    fn add_pulse(&mut self, check: usize, width: Width, edge: Edge) -> Result<(), AllocError> {
        let place = self.rules.pulses.len();
        push(&mut self.rules.pulses, Pulse::new(check, width))?;
        self.put_use(width.event, opposite(edge), Role::End(place))?;
        self.put_use(width.event, edge, Role::Begin(place))
    }

    /// Adds the width of pulses of a check, given by its index. Without an edge, high and low
    /// pulses count.
    pub fn add_width(&mut self, check: usize, width: Width) -> Result<(), AllocError> {
        if width.event.edge == Edge::Both {
            self.add_pulse(check, width, Edge::Rising)?;
            return self.add_pulse(check, width, Edge::Falling);
        }
        self.add_pulse(check, width, width.event.edge)
    }

    /// Takes the level of a signal, given by its index.
    pub fn take(&mut self, signal: usize, level: Level) -> Result<(), AllocError> {
        self.signals.take(signal, level)
    }

    /// When the next level arrives at the end of a wire, in femtoseconds, if one is on its way.
    pub fn next(&self) -> Option<u64> {
        self.wires.next()
    }

    /// Makes the present levels the first ones, without events.
    pub fn begin(&mut self) -> Result<(), AllocError> {
        self.wires.spread(&mut self.signals, 0, true)?;
        self.signals.complete();
        Ok(())
    }

    /// Makes the levels at a time those before the next one, without events.
    pub fn settle(&mut self, now: u64) -> Result<(), AllocError> {
        self.wires.spread(&mut self.signals, now, false)?;
        self.signals.complete();
        Ok(())
    }

    /// Finds the violations at a time, in femtoseconds, and goes on as `settle` does.
    pub fn check(&mut self, now: u64) -> Result<(), AllocError> {
        self.wires.spread(&mut self.signals, now, false)?;
        let present = Present {
            now,
            signals: &self.signals,
        };
        self.rules.find(present, self.uses.as_slice())?;
        self.signals.complete();
        Ok(())
    }
}
