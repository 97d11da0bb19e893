//! The checks of timing of a file in the standard delay format (IEEE 1497), as windows around
//! events (IEEE 1364, clause 15).

use crate::delays::{Delays, Edge, Passed};
use crate::lists::push;
use std::alloc::{AllocError, Global};

/// The condition of an event, given by its index. The event counts while the condition holds.
#[derive(Clone, Copy, PartialEq, Eq)]
pub struct Guard {
    pub condition: usize,
    /// Whether the event counts while the condition is unknown.
    pub admits_unknown: bool,
}

/// The event of a check: a change of a signal, given by its index, by some edge and under a
/// condition.
#[derive(Clone, Copy, PartialEq, Eq)]
pub struct CheckEvent {
    pub signal: usize,
    pub edge: Edge,
    pub guard: Option<Guard>,
}

/// Which two signals a window is about.
#[derive(Clone, Copy, PartialEq, Eq)]
pub enum Family {
    /// The reference is a clock: setup before it, hold after it.
    Setup,
    /// The reference is the end of a control, the other signal a clock: removal before the end,
    /// recovery after it.
    Recovery,
}

/// A window around a reference event, in which no data event may be. It begins `before`
/// femtoseconds before the reference, and ends `after` femtoseconds after it. One of them may be
/// negative.
#[derive(Clone, Copy)]
pub struct Window {
    pub family: Family,
    pub reference: CheckEvent,
    pub data: CheckEvent,
    pub before: i64,
    pub after: i64,
    /// Conditions of whichever event is the first of the two, and of the second.
    pub stamp: Option<Guard>,
    pub check: Option<Guard>,
}

/// The least time in femtoseconds from an edge to the opposite one.
#[derive(Clone, Copy)]
pub struct Width {
    pub event: CheckEvent,
    pub limit: i64,
}

/// What a check demands.
#[derive(Clone, Copy)]
pub enum CheckRule {
    Window(Window),
    Width(Width),
}

/// Of what a file has a check: an instance, or all cells of a kind, by their indices.
#[derive(Clone, Copy, PartialEq, Eq)]
pub enum CheckOwner {
    Instance(usize),
    Kind(usize),
}

/// A check of a file, whose signals are pins.
#[derive(Clone, Copy)]
pub struct TimingCheck {
    pub owner: CheckOwner,
    pub line: usize,
    pub rule: CheckRule,
}

/// The checks of a file.
#[derive(Drop)]
pub struct CheckList {
    /// Whether checks are read, and not counted alone.
    pub is_wanted: bool,
    pub checks: Vec<TimingCheck>,
    /// How many limits are negative and count as 0.
    pub negative: usize,
}

/// The checks that are read and not carried out.
static LEFT_OUT: [&str; 4] = ["SKEW", "BIDIRECTSKEW", "PERIOD", "NOCHANGE"];

/// Whether a check that a file has is not carried out.
fn is_left_out(name: &str) -> bool {
    for known in LEFT_OUT.iter() {
        if *known == name {
            return true;
        }
    }
    false
}

impl CheckList {
    /// No checks.
    pub fn new(alloc: Global) -> CheckList {
        CheckList {
            is_wanted: false,
            checks: Vec::new(alloc),
            negative: 0,
        }
    }
}

impl Delays {
    /// The checks that are not carried out, each with its number.
    pub fn left_out(&self, alloc: Global) -> Result<Vec<Passed>, AllocError> {
        let mut found = Vec::new(alloc);
        for passed in self.passed.iter() {
            if is_left_out(passed.name) {
                push(&mut found, *passed)?;
            }
        }
        Ok(found)
    }
}
