//! Where a signal of the top gets its values.

use crate::units::{entity_named, last_architecture};
use sim_text_tree::DesignFile;
use sim_text_tree::declaration::{Declaration, PortDeclaration};
use sim_text_tree::name::Name;
use sim_text_tree::sequential::{Branch, Sequential, Statement};
use sim_text_tree::unit::{Actual, Architecture, Association, Concurrent};

/// A name, if it is this one.
fn same<'a>(name: &'a Name, wanted: &str) -> Option<&'a Name> {
    if name.as_str() == wanted {
        Some(name)
    } else {
        None
    }
}

/// The first target of a statement that has this name.
#[cycle(targets)]
fn target_of<'a>(statement: &'a Statement, wanted: &str) -> Option<&'a Name> {
    match statement {
        Statement::Signal(it) => same(&it.target, wanted),
        Statement::If {
            branches,
            otherwise,
            ..
        } => match target_in_branches(branches.as_slice(), wanted) {
            Some(name) => Some(name),
            None => match otherwise {
                Some(statements) => target_in(statements.as_slice(), wanted),
                None => None,
            },
        },
        Statement::Variable(_) | Statement::Null => None,
    }
}

/// The first target of branches that has this name.
#[cycle(targets)]
fn target_in_branches<'a>(branches: &'a [Branch], wanted: &str) -> Option<&'a Name> {
    for each in branches {
        let found = target_in(each.statements.as_slice(), wanted);
        if found.is_some() {
            return found;
        }
    }
    None
}

/// The first target of statements that has this name.
#[cycle(targets)]
fn target_in<'a>(statements: &'a [Sequential], wanted: &str) -> Option<&'a Name> {
    for each in statements {
        let found = target_of(&each.statement, wanted);
        if found.is_some() {
            return found;
        }
    }
    None
}

/// The first actual that has this name.
fn actual_in<'a>(associations: &'a [Association], wanted: &str) -> Option<&'a Name> {
    for each in associations {
        if let Actual::Named(name) = &each.actual {
            if name.as_str() == wanted {
                return Some(name);
            }
        }
    }
    None
}

/// The first target or actual of a concurrent statement that has this name.
fn driven_by<'a>(statement: &'a Concurrent, wanted: &str) -> Option<&'a Name> {
    match statement {
        Concurrent::Assignment(it) => same(&it.target, wanted),
        Concurrent::Process(it) => target_in(it.statements.as_slice(), wanted),
        Concurrent::Instance(it) => actual_in(it.associations.as_slice(), wanted),
    }
}

/// The first target or actual of an architecture that has this name.
fn driver_in<'a>(architecture: &'a Architecture, wanted: &str) -> Option<&'a Name> {
    for statement in architecture.statements.as_slice() {
        let found = driven_by(statement, wanted);
        if found.is_some() {
            return found;
        }
    }
    None
}

/// The one of some names that is this one.
fn one_of<'a>(names: &'a [Name], wanted: &str) -> Option<&'a Name> {
    for name in names {
        if name.as_str() == wanted {
            return Some(name);
        }
    }
    None
}

/// The declaration of a signal with this name.
fn declared_in<'a>(declarations: &'a [Declaration], wanted: &str) -> Option<&'a Name> {
    for declaration in declarations {
        if let Declaration::Signal(signals) = declaration {
            let found = one_of(signals.names.as_slice(), wanted);
            if found.is_some() {
                return found;
            }
        }
    }
    None
}

/// The declaration of a port with this name.
fn port_in<'a>(ports: &'a [PortDeclaration], wanted: &str) -> Option<&'a Name> {
    for each in ports {
        let found = one_of(each.names.as_slice(), wanted);
        if found.is_some() {
            return found;
        }
    }
    None
}

/// Where a signal is first assigned or connected in an architecture, or else declared.
fn signal_in<'a>(architecture: &'a Architecture, wanted: &str) -> Option<&'a Name> {
    match driver_in(architecture, wanted) {
        Some(name) => Some(name),
        None => declared_in(architecture.declarations.as_slice(), wanted),
    }
}

/// Where a signal or port of the top is first assigned or connected, or else declared.
pub fn find_driver<'a>(file: &'a DesignFile, top: &str, wanted: &str) -> Option<&'a Name> {
    match signal_in(last_architecture(file, top)?, wanted) {
        Some(name) => Some(name),
        None => port_in(entity_named(file, top)?.ports.as_slice(), wanted),
    }
}
