//! The shortest delay of a text.

use crate::units::architecture_of;
use sim_text_tree::DesignFile;
use sim_text_tree::sequential::{Branch, Sequential, Statement};
use sim_text_tree::unit::Concurrent;
use sim_text_tree::waveform::{ConditionalWaveform, ConditionalWaveforms, Element};

/// The shortest of a delay and those of a waveform, without zero.
fn of_elements(elements: &[Element], least: u64) -> u64 {
    let mut least = least;
    for each in elements {
        if let Some(after) = &each.after {
            let time = after.time().fs();
            if time != 0 {
                least = least.min(time);
            }
        }
    }
    least
}

/// The shortest of a delay and those of conditional waveforms.
fn of_conditional(waveforms: &[ConditionalWaveform], least: u64) -> u64 {
    let mut least = least;
    for each in waveforms {
        least = of_elements(each.waveform.as_slice(), least);
    }
    least
}

/// The shortest of a delay and those of a concurrent assignment.
fn of_waveforms(waveforms: &ConditionalWaveforms, least: u64) -> u64 {
    let least = of_conditional(waveforms.conditional.as_slice(), least);
    match &waveforms.otherwise {
        Some(waveform) => of_elements(waveform.as_slice(), least),
        None => least,
    }
}

/// The shortest of a delay and those of a statement.
#[cycle(delays)]
fn of_statement(statement: &Statement, least: u64) -> u64 {
    match statement {
        Statement::Signal(it) => of_elements(it.waveform.as_slice(), least),
        Statement::If {
            branches,
            otherwise,
            ..
        } => {
            let least = of_branches(branches.as_slice(), least);
            match otherwise {
                Some(statements) => of_statements(statements.as_slice(), least),
                None => least,
            }
        }
        Statement::Variable(_) | Statement::Null => least,
    }
}

/// The shortest of a delay and those of branches.
#[cycle(delays)]
fn of_branches(branches: &[Branch], least: u64) -> u64 {
    let mut least = least;
    for each in branches {
        least = of_statements(each.statements.as_slice(), least);
    }
    least
}

/// The shortest of a delay and those of statements.
#[cycle(delays)]
fn of_statements(statements: &[Sequential], least: u64) -> u64 {
    let mut least = least;
    for each in statements {
        least = of_statement(&each.statement, least);
    }
    least
}

/// The shortest of a delay and those of concurrent statements.
fn of_concurrent(statements: &[Concurrent], least: u64) -> u64 {
    let mut least = least;
    for each in statements {
        least = match each {
            Concurrent::Assignment(it) => of_waveforms(&it.waveforms, least),
            Concurrent::Process(it) => of_statements(it.statements.as_slice(), least),
            Concurrent::Instance(_) => least,
        };
    }
    least
}

/// The shortest delay of a text apart from zero; the largest number if it has none.
pub fn shortest_delay(file: &DesignFile) -> u64 {
    let mut least = u64::MAX;
    for unit in file.units() {
        if let Some(architecture) = architecture_of(&unit.library_unit) {
            least = of_concurrent(architecture.statements.as_slice(), least);
        }
    }
    least
}
