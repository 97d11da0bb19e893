//! The conditions of events.

use crate::levels::{both, differs, either, negated};
use crate::signals::Signals;
use std::alloc::{AllocError, Global};
use vsim_netlist_design::{Guard, Level, Step, push};

/// An input of a condition.
#[derive(Clone, Copy)]
pub enum Input {
    Signal(usize),
    Constant(Level),
}

/// A condition: its inputs, and its steps on them.
#[derive(Drop)]
pub struct SignalCondition {
    pub inputs: Vec<Input>,
    pub steps: Vec<Step>,
}

/// All conditions.
#[derive(Drop)]
pub(crate) struct Conditions {
    conditions: Vec<SignalCondition>,
    /// The levels of steps that no other has taken, while a condition is worked out.
    levels: Vec<Level>,
}

/// The level of an input.
fn level_of_input(signals: &Signals, condition: &SignalCondition, place: usize) -> Level {
    match condition.inputs.get(place) {
        Some(Input::Signal(signal)) => signals.level(*signal),
        Some(Input::Constant(level)) => *level,
        None => Level::Unknown,
    }
}

/// Takes the last level.
fn taken(levels: &mut Vec<Level>) -> Level {
    levels.pop().unwrap_or(Level::Unknown)
}

/// Takes the last two levels, the first of them first.
fn two_taken(levels: &mut Vec<Level>) -> (Level, Level) {
    let right = taken(levels);
    (taken(levels), right)
}

/// The level of a step.
fn level_of(
    levels: &mut Vec<Level>,
    signals: &Signals,
    condition: &SignalCondition,
    step: Step,
) -> Level {
    match step {
        Step::Input(place) => level_of_input(signals, condition, place),
        Step::Constant(level) => level,
        Step::Not => negated(taken(levels)),
        Step::And => {
            let (left, right) = two_taken(levels);
            both(left, right)
        }
        Step::Or => {
            let (left, right) = two_taken(levels);
            either(left, right)
        }
        Step::Xor => {
            let (left, right) = two_taken(levels);
            differs(left, right)
        }
    }
}

/// The level of a condition.
fn level(
    levels: &mut Vec<Level>,
    signals: &Signals,
    condition: &SignalCondition,
) -> Result<Level, AllocError> {
    levels.clear();
    for step in condition.steps.iter() {
        let level = level_of(levels, signals, condition, *step);
        push(levels, level)?;
    }
    Ok(taken(levels))
}

impl Conditions {
    /// No conditions.
    pub(crate) fn new(alloc: Global) -> Conditions {
        Conditions {
            conditions: Vec::new(alloc),
            levels: Vec::new(alloc),
        }
    }

    /// Adds a condition, and returns its index.
    pub(crate) fn add(&mut self, condition: SignalCondition) -> Result<usize, AllocError> {
        let place = self.conditions.len();
        push(&mut self.conditions, condition)?;
        Ok(place)
    }

    /// Whether an event counts at the present levels.
    pub(crate) fn admits(
        &mut self,
        signals: &Signals,
        guard: Option<Guard>,
    ) -> Result<bool, AllocError> {
        let Some(guard) = guard else {
            return Ok(true);
        };
        let Some(condition) = self.conditions.get(guard.condition) else {
            return Ok(false);
        };
        Ok(match level(&mut self.levels, signals, condition)? {
            Level::One => true,
            Level::Zero => false,
            _ => guard.admits_unknown,
        })
    }
}
