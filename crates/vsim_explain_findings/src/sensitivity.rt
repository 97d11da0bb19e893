//! Signals that a process reads, though its sensitivity list lacks them.

use crate::units::architecture_of;
use sim_text_tree::DesignFile;
use sim_text_tree::declaration::ObjectDeclaration;
use sim_text_tree::expression::{Expression, Operand};
use sim_text_tree::name::Name;
use sim_text_tree::sequential::{Branch, Sequential, Statement};
use sim_text_tree::unit::{Concurrent, Process, Sensitivity};
use sim_text_tree::waveform::Element;
use std::alloc::{AllocError, Global};

/// Whether a name is that of a literal, or one of these, which are sorted.
fn is_known(known: &[&str], name: &str) -> bool {
    matches!(name, "true" | "false") || known.binary_search_by(|it| (*it).cmp(name)).is_ok()
}

/// Whether an expression tests an edge of a signal.
#[cycle(edges)]
fn has_edge(expression: &Expression) -> bool {
    match expression {
        Expression::Literal { .. } | Expression::Named(_) => false,
        Expression::Event(_) | Expression::Call { .. } => true,
        Expression::Parenthesized { inner, .. } => has_edge(inner.get()),
        Expression::Not { operand, .. } | Expression::Condition { operand, .. } => {
            has_edge(operand.get())
        }
        Expression::Comparison { left, right, .. } => has_edge(left.get()) || has_edge(right.get()),
        Expression::Chain { first, rest, .. } => {
            has_edge(first.get()) || has_edge_in(rest.as_slice())
        }
    }
}

/// Whether one of several operands tests an edge of a signal.
#[cycle(edges)]
fn has_edge_in(operands: &[Operand]) -> bool {
    for each in operands {
        if has_edge(&each.operand) {
            return true;
        }
    }
    false
}

/// The first name in an expression that is none of these.
#[cycle(names)]
fn other_in<'a>(expression: &'a Expression, known: &[&str]) -> Option<&'a Name> {
    match expression {
        Expression::Literal { .. } | Expression::Event(_) | Expression::Call { .. } => None,
        Expression::Named(name) => {
            if is_known(known, name.as_str()) {
                None
            } else {
                Some(name)
            }
        }
        Expression::Parenthesized { inner, .. } => other_in(inner.get(), known),
        Expression::Not { operand, .. } | Expression::Condition { operand, .. } => {
            other_in(operand.get(), known)
        }
        Expression::Comparison { left, right, .. } => match other_in(left.get(), known) {
            Some(name) => Some(name),
            None => other_in(right.get(), known),
        },
        Expression::Chain { first, rest, .. } => match other_in(first.get(), known) {
            Some(name) => Some(name),
            None => other_in_operands(rest.as_slice(), known),
        },
    }
}

/// The first name in several operands that is none of these.
#[cycle(names)]
fn other_in_operands<'a>(operands: &'a [Operand], known: &[&str]) -> Option<&'a Name> {
    for each in operands {
        let found = other_in(&each.operand, known);
        if found.is_some() {
            return found;
        }
    }
    None
}

/// The first name in a waveform that is none of these.
fn other_in_waveform<'a>(elements: &'a [Element], known: &[&str]) -> Option<&'a Name> {
    for each in elements {
        let found = other_in(&each.value, known);
        if found.is_some() {
            return found;
        }
    }
    None
}

/// The first name that a statement reads outside an edge and that is none of these.
#[cycle(statements)]
fn other_in_statement<'a>(statement: &'a Statement, known: &[&str]) -> Option<&'a Name> {
    match statement {
        Statement::Signal(it) => other_in_waveform(it.waveform.as_slice(), known),
        Statement::Variable(it) => other_in(&it.value, known),
        Statement::If {
            branches,
            otherwise,
            ..
        } => match other_in_branches(branches.as_slice(), known) {
            Some(name) => Some(name),
            None => match otherwise {
                Some(statements) => other_in_statements(statements.as_slice(), known),
                None => None,
            },
        },
        Statement::Null => None,
    }
}

/// The first name that several branches read outside an edge and that is none of these.
#[cycle(statements)]
fn other_in_branches<'a>(branches: &'a [Branch], known: &[&str]) -> Option<&'a Name> {
    for each in branches {
        let found = other_in_branch(each, known);
        if found.is_some() {
            return found;
        }
    }
    None
}

/// The first name that a branch reads outside an edge and that is none of these.
#[cycle(statements)]
fn other_in_branch<'a>(branch: &'a Branch, known: &[&str]) -> Option<&'a Name> {
    if has_edge(&branch.condition) {
        return None;
    }
    match other_in(&branch.condition, known) {
        Some(name) => Some(name),
        None => other_in_statements(branch.statements.as_slice(), known),
    }
}

/// The first name that several statements read outside an edge and that is none of these.
#[cycle(statements)]
fn other_in_statements<'a>(statements: &'a [Sequential], known: &[&str]) -> Option<&'a Name> {
    for each in statements {
        let found = other_in_statement(&each.statement, known);
        if found.is_some() {
            return found;
        }
    }
    None
}

/// Adds names.
fn add<'a>(found: &mut Vec<&'a str>, names: &'a [Name]) -> Result<(), AllocError> {
    for name in names {
        if found.push(name.as_str()).is_err() {
            return Err(AllocError);
        }
    }
    Ok(())
}

/// Adds the names of variables.
fn add_variables<'a>(
    found: &mut Vec<&'a str>,
    variables: &'a [ObjectDeclaration],
) -> Result<(), AllocError> {
    for each in variables {
        add(found, each.names.as_slice())?;
    }
    Ok(())
}

/// The names of a sensitivity list and of the variables of its process, sorted.
fn known<'a>(
    alloc: Global,
    list: &'a [Name],
    process: &'a Process,
) -> Result<Vec<&'a str>, AllocError> {
    let mut found = Vec::new(alloc);
    add(&mut found, list)?;
    add_variables(&mut found, process.variables.as_slice())?;
    found.sort()?;
    Ok(found)
}

/// The first signal that a process reads outside an edge, and to which it is not sensitive.
fn lacked(alloc: Global, process: &Process) -> Result<Option<&Name>, AllocError> {
    let Sensitivity::Names(list) = &process.sensitivity else {
        return Ok(None);
    };
    let known = known(alloc, list.as_slice(), process)?;
    Ok(other_in_statements(process.statements.as_slice(), known.as_slice()))
}

/// The first such signal of several concurrent statements.
fn lacked_in(alloc: Global, statements: &[Concurrent]) -> Result<Option<&Name>, AllocError> {
    for statement in statements {
        if let Concurrent::Process(process) = statement {
            let found = lacked(alloc, process)?;
            if found.is_some() {
                return Ok(found);
            }
        }
    }
    Ok(None)
}

/// The first signal of a text that a process reads outside an edge, and to which it is not
/// sensitive.
pub fn find_lacked(alloc: Global, file: &DesignFile) -> Result<Option<&Name>, AllocError> {
    for unit in file.units() {
        if let Some(architecture) = architecture_of(&unit.library_unit) {
            let found = lacked_in(alloc, architecture.statements.as_slice())?;
            if found.is_some() {
                return Ok(found);
            }
        }
    }
    Ok(None)
}
