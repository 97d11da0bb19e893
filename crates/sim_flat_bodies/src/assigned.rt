//! The signals and ports that a process assigns (IEEE 1076-2008, 14.7.2).

ghost use Rattle.std.specs.Prelude.{◌≡◌, OnOk};
ghost use Rattle.sim_flat_scope.specs.Scopes.{means};
ghost use Rattle.sim_flat_bodies.specs.Statements as spec;
ghost use Rattle.sim_flat_bodies.specs.Statements.{gathered};

use crate::names::Names;
use crate::targets::Targets;
use sim_flat_scope::Meaning;
use sim_text_tree::sequential::{Branch, Sequential, Statement};
use std::alloc::AllocError;

/// Adds the signal or port of a target.
#[tactic(auto, unfolding(crate::specs::Statements::target_of, crate::specs::Statements::gathered))]
pub fn add_target(meaning: Option<Meaning>, targets: &mut Targets) -> Result<(), AllocError>
    ensures { OnOk result (targets.new ≡ gathered targets.old (spec.target_of meaning)) }
{
    match meaning {
        Some(Meaning::Port { object, .. }) => targets.add(object),
        Some(Meaning::Signal { object, .. }) => targets.add(object),
        _ => Ok(()),
    }
}

/// Adds the signal or port that a statement assigns, or those that the statements inside an `if`
/// assign.
#[cycle(gathering)]
#[tactic(auto, using(crate::proofs::StatementRules::targets_are), unfolding(crate::specs::Statements::gathered))]
fn add_statement(
    names: &Names<'_, '_>,
    statement: &Statement,
    targets: &mut Targets,
) -> Result<(), AllocError>
    ensures { OnOk result (targets.new
        ≡ gathered targets.old (spec.statement_targets (means names.now.process.now names.now.architecture.now) statement.now)) }
{
    match statement {
        Statement::Signal(assignment) => {
            add_target(names.look_up(assignment.target.text()), targets)
        }
        Statement::Variable(_) => Ok(()),
        Statement::If {
            branches,
            otherwise,
            ..
        } => {
            add_branches(names, branches.as_slice(), targets)?;
            match otherwise {
                Some(statements) => add_sequence(names, statements.as_slice(), targets),
                None => Ok(()),
            }
        }
        Statement::Null => Ok(()),
    }
}

/// Adds the targets of a statement, whatever its label.
#[cycle(gathering)]
#[tactic(auto, using(crate::proofs::StatementRules::targets_are))]
fn add_labelled(
    names: &Names<'_, '_>,
    each: &Sequential,
    targets: &mut Targets,
) -> Result<(), AllocError>
    ensures { OnOk result (targets.new ≡ gathered targets.old (spec.sequential_targets (means names.now.process.now names.now.architecture.now) each.now)) }
{
    add_statement(names, &each.statement, targets)
}

/// Adds the targets of a sequence of statements.
#[cycle(gathering)]
#[tactic(auto, unfolding(crate::specs::Statements::gathered, crate::specs::Statements::sequence_targets))]
pub fn add_sequence(
    names: &Names<'_, '_>,
    list: &[Sequential],
    targets: &mut Targets,
) -> Result<(), AllocError>
    ensures { OnOk result (targets.new ≡ gathered targets.old (spec.sequence_targets (means names.now.process.now names.now.architecture.now) list.now)) }
{
    for each in list {
        add_labelled(names, each, targets)?;
    }
    Ok(())
}

/// Adds the targets of the statements of a branch.
#[cycle(gathering)]
#[tactic(auto, using(crate::proofs::StatementRules::targets_are))]
fn add_branch(names: &Names<'_, '_>, each: &Branch, targets: &mut Targets) -> Result<(), AllocError>
    ensures { OnOk result (targets.new ≡ gathered targets.old (spec.branch_targets (means names.now.process.now names.now.architecture.now) each.now)) }
{
    add_sequence(names, each.statements.as_slice(), targets)
}

/// Adds the targets of the statements of the branches, executed or not.
#[cycle(gathering)]
#[tactic(auto, unfolding(crate::specs::Statements::branches_targets, crate::specs::Statements::gathered))]
fn add_branches(
    names: &Names<'_, '_>,
    list: &[Branch],
    targets: &mut Targets,
) -> Result<(), AllocError>
    ensures { OnOk result (targets.new ≡ gathered targets.old (spec.branches_targets (means names.now.process.now names.now.architecture.now) list.now)) }
{
    for each in list {
        add_branch(names, each, targets)?;
    }
    Ok(())
}
