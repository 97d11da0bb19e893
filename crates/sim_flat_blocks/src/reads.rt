//! The ports and signals that statements read, also by 'event and in edge functions (IEEE
//! 1076-2008, 11.3).

ghost use Rattle.std.specs.Prelude.{◌≡◌, ◌++◌, [], ◌∷◌, OnOk, IfOk, map};
ghost use Rattle.std.specs.List.{concat};
ghost use Rattle.sim_flat_design.specs.Bodies as spec;
ghost use Rattle.sim_flat_design.specs.Processes.{rising};
ghost use Rattle.sim_flat_blocks.specs.Reads.{branch_objects};

use crate::rising::rising;
use sim_flat_design::expression::{BooleanExpression, LogicExpression};
use sim_flat_design::statement::{Branch, ConditionalWaveform, SignalAssignment, Statement};
use sim_flat_design::waveform::{Element, Waveform};
use sqlite_items::Items;
use std::alloc::{AllocError, Global};

/// Adds those of an expression of type std_ulogic.
#[cycle(logic)]
#[tactic(auto, using(crate::proofs::ReadRules::logics_read))]
fn add_logic(expression: &LogicExpression, found: &mut Vec<usize>) -> Result<(), AllocError>
    ensures { OnOk result (found.new.items ≡ found.old.items ++ spec.logic_objects expression.now) }
{
    match expression {
        LogicExpression::Literal(_) => Ok(()),
        LogicExpression::Object(object) => {
            found.push(*object)?;
            Ok(())
        }
        LogicExpression::Variable(_) => Ok(()),
        LogicExpression::Not(operand) => add_logic(operand.get(), found),
        LogicExpression::Chain { first, rest, .. } => {
            add_logic(first.get(), found)?;
            add_logics(rest.as_slice(), found)
        }
    }
}

/// Adds those of several expressions of type std_ulogic.
#[cycle(logic)]
fn add_logics(list: &[LogicExpression], found: &mut Vec<usize>) -> Result<(), AllocError>
    ensures { OnOk result (found.new.items ≡ found.old.items ++ concat (map spec.logic_objects list.now)) }
{
    for each in list {
        add_logic(each, found)?;
    }
    Ok(())
}

/// Adds those of two expressions of type std_ulogic.
fn add_two_logics(
    left: &LogicExpression,
    right: &LogicExpression,
    found: &mut Vec<usize>,
) -> Result<(), AllocError>
    ensures { OnOk result (found.new.items ≡ found.old.items ++ (spec.logic_objects left.now ++ spec.logic_objects right.now)) }
{
    add_logic(left, found)?;
    add_logic(right, found)
}

/// Adds the position of a port or signal.
fn add_object(object: usize, found: &mut Vec<usize>) -> Result<(), AllocError>
    ensures { OnOk result (found.new.items ≡ found.old.items ++ object ∷ []) }
{
    found.push(object)?;
    Ok(())
}

/// Adds those of an expression of type boolean.
#[cycle(boolean)]
#[tactic(auto, using(crate::proofs::ReadRules::booleans_read))]
fn add_boolean(expression: &BooleanExpression, found: &mut Vec<usize>) -> Result<(), AllocError>
    ensures { OnOk result (found.new.items ≡ found.old.items ++ spec.boolean_objects expression.now) }
{
    match expression {
        BooleanExpression::Literal(_) => Ok(()),
        BooleanExpression::Variable(_) => Ok(()),
        BooleanExpression::Event(object) => add_object(*object, found),
        BooleanExpression::Edge { object, .. } => add_object(*object, found),
        BooleanExpression::Not(operand) => add_boolean(operand.get(), found),
        BooleanExpression::Chain { first, rest, .. } => {
            add_boolean(first.get(), found)?;
            add_booleans(rest.as_slice(), found)
        }
        BooleanExpression::Condition(operand) => add_logic(operand, found),
        BooleanExpression::LogicComparison { left, right, .. } => {
            add_two_logics(left.get(), right.get(), found)
        }
        BooleanExpression::BooleanComparison { left, right, .. } => {
            add_boolean(left.get(), found)?;
            add_boolean(right.get(), found)
        }
    }
}

/// Adds those of several expressions of type boolean.
#[cycle(boolean)]
fn add_booleans(list: &[BooleanExpression], found: &mut Vec<usize>) -> Result<(), AllocError>
    ensures { OnOk result (found.new.items ≡ found.old.items ++ concat (map spec.boolean_objects list.now)) }
{
    for each in list {
        add_boolean(each, found)?;
    }
    Ok(())
}

/// Adds those of the elements of a waveform.
fn add_elements(list: &[Element], found: &mut Vec<usize>) -> Result<(), AllocError>
    ensures { OnOk result (found.new.items ≡ found.old.items ++ spec.waveform_objects list.now) }
{
    for each in list {
        add_logic(&each.value, found)?;
    }
    Ok(())
}

/// Adds those of a waveform and its condition.
fn add_conditional(
    conditional: &ConditionalWaveform,
    found: &mut Vec<usize>,
) -> Result<(), AllocError>
    ensures { OnOk result (found.new.items ≡ found.old.items ++ spec.conditional_objects conditional.now) }
{
    add_boolean(&conditional.condition, found)?;
    add_elements(conditional.waveform.elements(), found)
}

/// Adds those of waveforms and their conditions.
fn add_conditionals(list: &[ConditionalWaveform], found: &mut Vec<usize>) -> Result<(), AllocError>
    ensures { OnOk result (found.new.items ≡ found.old.items ++ concat (map spec.conditional_objects list.now)) }
{
    for each in list {
        add_conditional(each, found)?;
    }
    Ok(())
}

/// Adds those of the waveform without a condition.
fn add_last(otherwise: &Option<Waveform>, found: &mut Vec<usize>) -> Result<(), AllocError>
    ensures { OnOk result (found.new.items ≡ found.old.items ++ spec.last_objects otherwise.now) }
{
    match otherwise {
        Some(waveform) => add_elements(waveform.elements(), found),
        None => Ok(()),
    }
}

/// Adds those of a signal assignment.
#[tactic(auto, unfolding(sim_flat_design::specs::Bodies::assignment_objects))]
fn add_assignment(assignment: &SignalAssignment, found: &mut Vec<usize>) -> Result<(), AllocError>
    ensures { OnOk result (found.new.items ≡ found.old.items ++ spec.assignment_objects assignment.now) }
{
    add_conditionals(assignment.conditional.as_slice(), found)?;
    add_last(&assignment.otherwise, found)
}

/// Adds those of a statement.
#[cycle(statements)]
#[tactic(auto, using(crate::proofs::ReadRules::statements_read))]
fn add_statement(statement: &Statement, found: &mut Vec<usize>) -> Result<(), AllocError>
    ensures { OnOk result (found.new.items ≡ found.old.items ++ spec.statement_objects statement.now) }
{
    match statement {
        Statement::Signal(assignment) => add_assignment(assignment, found),
        Statement::LogicVariable { value, .. } => add_logic(value, found),
        Statement::BooleanVariable { value, .. } => add_boolean(value, found),
        Statement::If {
            branches,
            otherwise,
        } => {
            add_branches(branches.as_slice(), found)?;
            add_statements(otherwise.as_slice(), found)
        }
        Statement::Null => Ok(()),
    }
}

/// Adds those of several statements.
#[cycle(statements)]
fn add_statements(list: &[Statement], found: &mut Vec<usize>) -> Result<(), AllocError>
    ensures { OnOk result (found.new.items ≡ found.old.items ++ concat (map spec.statement_objects list.now)) }
{
    for each in list {
        add_statement(each, found)?;
    }
    Ok(())
}

/// Adds those of a branch of an if statement.
#[cycle(statements)]
#[tactic(auto, using(crate::proofs::ReadRules::statements_read))]
fn add_branch(each: &Branch, found: &mut Vec<usize>) -> Result<(), AllocError>
    ensures { OnOk result (found.new.items ≡ found.old.items ++ branch_objects each.now) }
{
    add_boolean(&each.condition, found)?;
    add_statements(each.statements.as_slice(), found)
}

/// Adds those of several branches.
#[cycle(statements)]
fn add_branches(list: &[Branch], found: &mut Vec<usize>) -> Result<(), AllocError>
    ensures { OnOk result (found.new.items ≡ found.old.items ++ concat (map branch_objects list.now)) }
{
    for each in list {
        add_branch(each, found)?;
    }
    Ok(())
}

/// The ports and signals that statements read, by position, in ascending order.
#[tactic(auto, unfolding(sim_flat_design::specs::Bodies::objects_of))]
pub fn reads(alloc: Global, statements: &[Statement]) -> Result<Items<usize>, AllocError>
    ensures { IfOk result (λ r. r ≡ rising (spec.objects_of statements.now)) }
{
    let mut found = Vec::new(alloc);
    add_statements(statements, &mut found)?;
    Ok(rising(found))
}
