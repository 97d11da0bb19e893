//! Clocks without a first value: signals that are assigned their own inverse after a delay.

use crate::units::architecture_of;
use sim_text_tree::DesignFile;
use sim_text_tree::declaration::Declaration;
use sim_text_tree::expression::Expression;
use sim_text_tree::name::Name;
use sim_text_tree::sequential::{Sequential, Statement};
use sim_text_tree::unit::{Architecture, Concurrent};
use sim_text_tree::waveform::Element;

/// Whether an expression is a name.
fn is_named(expression: &Expression, name: &Name) -> bool {
    match expression {
        Expression::Named(it) => it.text() == name.text(),
        _ => false,
    }
}

/// Whether a waveform is the inverse of a signal after a delay.
fn is_inverse(elements: &[Element], target: &Name) -> bool {
    match elements {
        [only] => match &only.value {
            Expression::Not { operand, .. } => {
                only.after.is_some() && is_named(operand.get(), target)
            }
            _ => false,
        },
        _ => false,
    }
}

/// The signal that a statement of a process makes a clock, if it does.
fn clock_in_process(statements: &[Sequential]) -> Option<&Name> {
    for each in statements {
        if let Statement::Signal(it) = &each.statement {
            if is_inverse(it.waveform.as_slice(), &it.target) {
                return Some(&it.target);
            }
        }
    }
    None
}

/// The signal that a concurrent statement makes a clock, if it does.
fn clock_of(statement: &Concurrent) -> Option<&Name> {
    match statement {
        Concurrent::Assignment(it) => match &it.waveforms.otherwise {
            Some(waveform) if is_inverse(waveform.as_slice(), &it.target) => Some(&it.target),
            _ => None,
        },
        Concurrent::Process(process) => clock_in_process(process.statements.as_slice()),
        Concurrent::Instance(_) => None,
    }
}

/// Whether one of some names is that of a signal.
fn names_one(names: &[Name], name: &Name) -> bool {
    for it in names {
        if it.text() == name.text() {
            return true;
        }
    }
    false
}

/// Whether a signal is declared here without a first value.
fn is_without_value(declarations: &[Declaration], name: &Name) -> bool {
    for declaration in declarations {
        if let Declaration::Signal(signals) = declaration {
            if signals.initial.is_none() && names_one(signals.names.as_slice(), name) {
                return true;
            }
        }
    }
    false
}

/// The first clock of an architecture, if it has no first value.
fn clock_in(architecture: &Architecture) -> Option<&Name> {
    for statement in architecture.statements.as_slice() {
        if let Some(name) = clock_of(statement) {
            if is_without_value(architecture.declarations.as_slice(), name) {
                return Some(name);
            }
            return None;
        }
    }
    None
}

/// The first clock of a text that has no first value, at the place where it is assigned.
pub fn find_clock(file: &DesignFile) -> Option<&Name> {
    for unit in file.units() {
        if let Some(architecture) = architecture_of(&unit.library_unit) {
            let found = clock_in(architecture);
            if found.is_some() {
                return found;
            }
        }
    }
    None
}
