//! Statements of a process (IEEE 1076-2008, 10).

ghost use Rattle.std.specs.Prelude.{◌≡◌, ℕ, true, IfOk, length, map};
ghost use Rattle.std.specs.List.{All};
ghost use Rattle.sim_flat_scope.specs.Scopes.{means};
ghost use Rattle.sim_flat_design.specs.Bodies.{branch_fits, statement_fits};
ghost use Rattle.sim_flat_bodies.specs.Statements as spec;
ghost use Rattle.sim_flat_bodies.specs.Within.{AreWithin};

use crate::expressions::{boolean, condition, logic};
use crate::names::Names;
use crate::targets::Targets;
use crate::timed::{concurrent_timed, waveform_timed};
use crate::waveforms::{conditionals, delay, driver, last, waveform};
use sim_flat_design::statement::{Branch, SignalAssignment, Statement};
use sim_flat_scope::{Meaning, Type};
use sim_text_tree::sequential as tree;
use sim_text_tree::waveform::ConcurrentSignalAssignment;
use sqlite_items::Items;
use std::alloc::{AllocError, Global};

/// A concurrent signal assignment (11.6).
#[tactic(auto, using(crate::proofs::WaveformTimes::assignments_fit), unfolding(crate::specs::Statements::concurrent_of, crate::specs::Statements::assigned))]
pub fn concurrent(
    alloc: Global,
    names: &Names<'_, '_>,
    targets: &Targets,
    assignment: &ConcurrentSignalAssignment,
) -> Result<Statement, AllocError>
    requires within { AreWithin (means names.now.process.now names.now.architecture.now) names.now.objects names.now.variables.now }
    ensures value { IfOk result (λ r. r ≡ spec.concurrent_of (means names.now.process.now names.now.architecture.now) targets.now assignment.now) }
    ensures fits { IfOk result (λ r. statement_fits names.now.objects (length targets.now) names.now.variables.now r ≡ true) }
{
    if !concurrent_timed(assignment) {
        return Ok(Statement::Null);
    }
    let target = driver(targets, names.look_up(assignment.target.text()));
    let Some(driver) = target else {
        return Ok(Statement::Null);
    };
    let waveforms = &assignment.waveforms;
    let conditional = conditionals(
        alloc,
        names,
        &assignment.delay,
        waveforms.conditional.as_slice(),
    )?;
    let otherwise = last(alloc, names, &assignment.delay, &waveforms.otherwise)?;
    Ok(Statement::Signal(SignalAssignment {
        driver,
        delay: delay(&assignment.delay),
        conditional,
        otherwise,
    }))
}

/// A signal assignment in a process (10.5.2).
#[tactic(auto, using(crate::proofs::WaveformTimes::assignments_fit), unfolding(crate::specs::Statements::signal_of, crate::specs::Statements::assigned))]
fn signal(
    alloc: Global,
    names: &Names<'_, '_>,
    targets: &Targets,
    assignment: &tree::SignalAssignment,
) -> Result<Statement, AllocError>
    requires within { AreWithin (means names.now.process.now names.now.architecture.now) names.now.objects names.now.variables.now }
    ensures value { IfOk result (λ r. r ≡ spec.signal_of (means names.now.process.now names.now.architecture.now) targets.now assignment.now) }
    ensures fits { IfOk result (λ r. statement_fits names.now.objects (length targets.now) names.now.variables.now r ≡ true) }
{
    if !waveform_timed(&assignment.delay, assignment.waveform.as_slice()) {
        return Ok(Statement::Null);
    }
    let target = driver(targets, names.look_up(assignment.target.text()));
    let Some(driver) = target else {
        return Ok(Statement::Null);
    };
    let waveform = waveform(alloc, names, &assignment.delay, &assignment.waveform)?;
    Ok(Statement::Signal(SignalAssignment {
        driver,
        delay: delay(&assignment.delay),
        conditional: Items::new(alloc),
        otherwise: Some(waveform),
    }))
}

/// An assignment to a variable (10.6).
#[tactic(auto, using(sim_flat_design::proofs::Fitting::statements_fit), unfolding(crate::specs::Statements::variable_of, crate::specs::Within::is_within))]
fn variable(
    alloc: Global,
    names: &Names<'_, '_>,
    assignment: &tree::VariableAssignment,
) -> Result<Statement, AllocError>
    requires within { AreWithin (means names.now.process.now names.now.architecture.now) names.now.objects names.now.variables.now }
    ensures value { IfOk result (λ r. r ≡ spec.variable_of (means names.now.process.now names.now.architecture.now)
        (means names.now.process.now names.now.architecture.now assignment.now.target.text) assignment.now.value) }
    ensures fits { (drivers : ℕ) → IfOk result (λ r. statement_fits names.now.objects drivers names.now.variables.now r ≡ true) }
{
    match names.look_up(assignment.target.text()) {
        Some(
            Meaning::Variable {
                place,
                type_: Some(Type::Logic),
            },
        ) => {
            let value = logic(alloc, names, &assignment.value)?;
            Ok(Statement::LogicVariable { place, value })
        }
        Some(
            Meaning::Variable {
                place,
                type_: Some(Type::Boolean),
            },
        ) => {
            let value = boolean(alloc, names, &assignment.value)?;
            Ok(Statement::BooleanVariable { place, value })
        }
        _ => Ok(Statement::Null),
    }
}

/// A statement (10.1).
#[cycle(statements)]
#[tactic(auto, using(crate::proofs::StatementRules::statements_are, sim_flat_design::proofs::Fitting::statements_fit))]
fn statement(
    alloc: Global,
    names: &Names<'_, '_>,
    targets: &Targets,
    statement: &tree::Statement,
) -> Result<Statement, AllocError>
    requires within { AreWithin (means names.now.process.now names.now.architecture.now) names.now.objects names.now.variables.now }
    ensures value { IfOk result (λ r. r ≡ spec.statement_of (means names.now.process.now names.now.architecture.now) targets.now statement.now) }
    ensures fits { IfOk result (λ r. statement_fits names.now.objects (length targets.now) names.now.variables.now r ≡ true) }
{
    match statement {
        tree::Statement::Signal(assignment) => signal(alloc, names, targets, assignment),
        tree::Statement::Variable(assignment) => variable(alloc, names, assignment),
        tree::Statement::If {
            branches: all,
            otherwise,
            ..
        } => {
            let branches = branches(alloc, names, targets, all.as_slice())?;
            match otherwise {
                Some(statements) => {
                    let otherwise = sequence(alloc, names, targets, statements.as_slice())?;
                    Ok(Statement::If {
                        branches,
                        otherwise,
                    })
                }
                None => {
                    let otherwise = Items::new(alloc);
                    Ok(Statement::If {
                        branches,
                        otherwise,
                    })
                }
            }
        }
        tree::Statement::Null => Ok(Statement::Null),
    }
}

/// A statement with its label.
#[cycle(statements)]
#[tactic(auto, using(crate::proofs::StatementRules::statements_are))]
fn labelled(
    alloc: Global,
    names: &Names<'_, '_>,
    targets: &Targets,
    each: &tree::Sequential,
) -> Result<Statement, AllocError>
    requires within { AreWithin (means names.now.process.now names.now.architecture.now) names.now.objects names.now.variables.now }
    ensures value { IfOk result (λ r. r ≡ spec.sequential_of (means names.now.process.now names.now.architecture.now) targets.now each.now) }
    ensures fits { IfOk result (λ r. statement_fits names.now.objects (length targets.now) names.now.variables.now r ≡ true) }
{
    statement(alloc, names, targets, &each.statement)
}

/// A sequence of statements (10.1).
#[cycle(statements)]
pub fn sequence(
    alloc: Global,
    names: &Names<'_, '_>,
    targets: &Targets,
    list: &[tree::Sequential],
) -> Result<Items<Statement>, AllocError>
    requires within { AreWithin (means names.now.process.now names.now.architecture.now) names.now.objects names.now.variables.now }
    ensures value { IfOk result (λ r. r ≡ map (spec.sequential_of (means names.now.process.now names.now.architecture.now) targets.now) list.now) }
    ensures fits { IfOk result (λ r. All (λ x. statement_fits names.now.objects (length targets.now) names.now.variables.now x ≡ true) r) }
{
    let mut found = Vec::with_capacity(alloc, list.len())?;
    for each in list {
        found.push(labelled(alloc, names, targets, each)?)?;
    }
    Ok(Items::from_vec(found))
}

/// A branch of an if statement (10.8).
#[cycle(statements)]
#[tactic(auto, using(crate::proofs::StatementRules::statements_are, sim_flat_design::proofs::Fitting::statements_fit))]
fn branch(
    alloc: Global,
    names: &Names<'_, '_>,
    targets: &Targets,
    each: &tree::Branch,
) -> Result<Branch, AllocError>
    requires within { AreWithin (means names.now.process.now names.now.architecture.now) names.now.objects names.now.variables.now }
    ensures value { IfOk result (λ r. r ≡ spec.branch_of (means names.now.process.now names.now.architecture.now) targets.now each.now) }
    ensures fits { IfOk result (λ r. branch_fits names.now.objects (length targets.now) names.now.variables.now r ≡ true) }
{
    let statements = sequence(alloc, names, targets, each.statements.as_slice())?;
    let condition = condition(alloc, names, &each.condition)?;
    Ok(Branch {
        condition,
        statements,
    })
}

/// The branches of an if statement (10.8).
#[cycle(statements)]
fn branches(
    alloc: Global,
    names: &Names<'_, '_>,
    targets: &Targets,
    list: &[tree::Branch],
) -> Result<Items<Branch>, AllocError>
    requires within { AreWithin (means names.now.process.now names.now.architecture.now) names.now.objects names.now.variables.now }
    ensures value { IfOk result (λ r. r ≡ map (spec.branch_of (means names.now.process.now names.now.architecture.now) targets.now) list.now) }
    ensures fits { IfOk result (λ r. All (λ x. branch_fits names.now.objects (length targets.now) names.now.variables.now x ≡ true) r) }
{
    let mut found = Vec::with_capacity(alloc, list.len())?;
    for each in list {
        found.push(branch(alloc, names, targets, each)?)?;
    }
    Ok(Items::from_vec(found))
}
