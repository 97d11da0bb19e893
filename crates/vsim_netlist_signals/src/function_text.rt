//! The functions of a library's cells as expressions.

use crate::expressions::{Expression, Outside, binary, literal, negation};
use crate::gate_text::copy;
use std::alloc::{AllocError, Global};
use vsim_netlist_design::{Level, Step, push};

/// An operand of a function, by its index.
fn operand(alloc: Global, operands: &[Expression], place: usize) -> Expression {
    match operands.get(place) {
        Some(operand) => copy(alloc, operand),
        None => literal(alloc, Level::Unknown),
    }
}

/// Takes the last value.
fn taken(alloc: Global, values: &mut Vec<Expression>) -> Expression {
    match values.pop() {
        Some(value) => value,
        None => literal(alloc, Level::Unknown),
    }
}

/// Joins the last two values.
fn joined(alloc: Global, values: &mut Vec<Expression>, operator: Outside) -> Expression {
    let right = taken(alloc, values);
    let left = taken(alloc, values);
    binary(alloc, &left, operator, &right)
}

/// The operator of a step, or its negation, if it has two operands.
fn operator(step: Step, is_negated: bool) -> Option<Outside> {
    Some(match (step, is_negated) {
        (Step::And, false) => Outside::And,
        (Step::Or, false) => Outside::Or,
        (Step::Xor, false) => Outside::Xor,
        (Step::And, true) => Outside::Nand,
        (Step::Or, true) => Outside::Nor,
        (Step::Xor, true) => Outside::Xnor,
        _ => return None,
    })
}

/// The value of a step without two operands.
fn single(
    alloc: Global,
    values: &mut Vec<Expression>,
    step: Step,
    operands: &[Expression],
) -> Expression {
    match step {
        Step::Input(place) => operand(alloc, operands, place),
        Step::Constant(level) => literal(alloc, level),
        _ => {
            let value = taken(alloc, values);
            negation(alloc, &value)
        }
    }
}

/// Adds the value of a step, which may be negated at once.
fn put(
    alloc: Global,
    values: &mut Vec<Expression>,
    step: Step,
    is_negated: bool,
    operands: &[Expression],
) -> Result<(), AllocError> {
    let value = match operator(step, is_negated) {
        Some(operator) => joined(alloc, values, operator),
        None => single(alloc, values, step, operands),
    };
    push(values, value)
}

/// Whether the step at a place negates the value of an operator before it.
fn negates_operator(steps: &[Step], place: usize) -> bool {
    let last = place.saturating_sub(1);
    match (steps.get(last), steps.get(place)) {
        (Some(Step::And | Step::Or | Step::Xor), Some(Step::Not)) => last < place,
        _ => false,
    }
}

/// Adds the values of all steps. A negation goes with the operator before it.
fn put_all(
    alloc: Global,
    values: &mut Vec<Expression>,
    steps: &[Step],
    operands: &[Expression],
) -> Result<(), AllocError> {
    for (place, step) in steps.iter().enumerate() {
        if negates_operator(steps, place) {
            continue;
        }
        let is_negated = negates_operator(steps, place.saturating_add(1));
        put(alloc, values, *step, is_negated, operands)?;
    }
    Ok(())
}

/// The expression of a function with these operands.
pub fn function_expression(
    alloc: Global,
    steps: &[Step],
    operands: &[Expression],
) -> Result<Expression, AllocError> {
    let mut values = Vec::new(alloc);
    put_all(alloc, &mut values, steps, operands)?;
    Ok(taken(alloc, &mut values))
}
