//! Checks of signals, and the lines of their violations.

use std::alloc::Global;
use vsim_check_rules::{Checker, Demand, Violation};
use vsim_netlist_cells::Connections;
use vsim_netlist_design::{
    CheckEvent, CheckList, CheckRule, Delays, Draft, Edge, Family, TimingCheck, Window,
};
use vsim_waves_listing::Names;

/// The cell and the check of the file that a check of signals is for, both by their indices.
#[derive(Clone, Copy)]
pub struct Label {
    pub cell: usize,
    pub check: usize,
}

/// A checker, the names of its signals, and for the number of each name its index in the checker.
pub struct Watched {
    pub checker: Checker,
    pub names: Names,
    pub signals: Vec<usize>,
}

/// Written by hand so that code which drops it needs no proof about its contents.
impl Drop for Watched {
    fn drop(self) {
        let Watched {
            checker,
            names,
            signals,
        } = self;
        drop(checker);
        drop(names);
        drop(signals);
    }
}

/// The checks of signals.
pub struct Plan {
    pub checker: Checker,
    /// The names of the signals, and for the number of each its index in the checker.
    pub names: Names,
    pub signals: Vec<usize>,
    /// What each check is of.
    pub labels: Vec<Label>,
}

/// Written by hand so that code which drops it needs no proof about its contents.
impl Drop for Plan {
    fn drop(self) {
        let Plan {
            checker,
            names,
            signals,
            labels,
        } = self;
        drop(checker);
        drop(names);
        drop(signals);
        drop(labels);
    }
}

impl Plan {
    /// No checks.
    pub(crate) fn new(alloc: Global) -> Plan {
        Plan {
            checker: Checker::new(alloc),
            names: Names::new(alloc),
            signals: Vec::new(alloc),
            labels: Vec::new(alloc),
        }
    }

    /// Takes it apart: the checker with the names of its signals, and what its checks are of.
    pub fn into_parts(self) -> (Watched, Vec<Label>) {
        let Plan {
            checker,
            names,
            signals,
            labels,
        } = self;
        let watched = Watched {
            checker,
            names,
            signals,
        };
        (watched, labels)
    }
}

/// The netlist and the checks that the line of a violation names.
#[derive(Clone, Copy)]
pub struct Said<'a> {
    pub delays: &'a Delays,
    pub checks: &'a CheckList,
    pub connections: &'a Connections,
    pub labels: &'a [Label],
}

/// The keyword of a check, by what of it is violated.
pub fn keyword(family: Family, demand: Demand) -> &'static str {
    match (family, demand) {
        (_, Demand::Width) => "WIDTH",
        (Family::Setup, Demand::Before) => "SETUP",
        (Family::Setup, Demand::After) => "HOLD",
        (Family::Recovery, Demand::Before) => "REMOVAL",
        (Family::Recovery, Demand::After) => "RECOVERY",
    }
}

/// The family of a check.
fn family_of(rule: &CheckRule) -> Family {
    match rule {
        CheckRule::Window(window) => window.family,
        CheckRule::Width(_) => Family::Setup,
    }
}

impl Said<'_> {
    /// The check of a violation.
    fn check(&self, violation: Violation) -> Option<&TimingCheck> {
        let label = self.labels.get(violation.check)?;
        self.checks.checks.get(label.check)
    }

    /// The keyword of what a violation is of.
    pub fn keyword(&self, violation: Violation) -> &'static str {
        match self.check(violation) {
            Some(check) => keyword(family_of(&check.rule), violation.demand),
            None => "",
        }
    }

    /// The name of the cell of a violation.
    pub fn instance(&self, violation: Violation) -> &str {
        let cell = match self.labels.get(violation.check) {
            Some(label) => label.cell,
            None => usize::MAX,
        };
        match self.connections.instances.get(cell) {
            Some(instance) => instance.name.as_str(),
            None => "",
        }
    }

    /// Adds a pin as a file has it.
    fn push_event(&self, text: &mut Draft, event: &CheckEvent) {
        let name = self.delays.pins.name(event.signal);
        match event.edge {
            Edge::Both => text.push_all(&[" ", name]),
            Edge::Rising => text.push_all(&[" (posedge ", name, ")"]),
            Edge::Falling => text.push_all(&[" (negedge ", name, ")"]),
        }
    }

    /// Adds the pins of a window in the order of the file.
    fn push_window(&self, text: &mut Draft, window: &Window) {
        match window.family {
            Family::Setup => {
                self.push_event(text, &window.data);
                self.push_event(text, &window.reference);
            }
            Family::Recovery => {
                self.push_event(text, &window.reference);
                self.push_event(text, &window.data);
            }
        }
    }

    /// Adds the pins of the check of a violation.
    fn push_pins(&self, text: &mut Draft, violation: Violation) {
        let Some(check) = self.check(violation) else {
            return;
        };
        match &check.rule {
            CheckRule::Window(window) => self.push_window(text, window),
            CheckRule::Width(width) => self.push_event(text, &width.event),
        }
    }

    /// The line of a violation at a time in femtoseconds: `TIME INSTANCE CHECK NEEDED FOUND PINS`.
    pub fn line(&self, alloc: Global, now: u64, violation: Violation) -> Draft {
        let mut text = Draft::new(alloc);
        text.push_shown(&now);
        text.push_all(&[" ", self.instance(violation), " "]);
        text.push_all(&[self.keyword(violation), " "]);
        text.push_shown(&violation.needed);
        text.push(" ");
        text.push_shown(&violation.found);
        self.push_pins(&mut text, violation);
        text.push("\n");
        text
    }
}
