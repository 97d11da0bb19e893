//! A number for the body of a process. Different bodies rarely have the same. Only the speed of
//! finding equal bodies depends on it.

use sim_flat_design::expression::{BooleanExpression, LogicExpression};
use sim_flat_design::statement::{Branch, ConditionalWaveform, Delay, SignalAssignment, Statement};
use sim_flat_design::waveform::Element;
use sim_flat_design::{Body, Held};

/// Mixes a word into a number.
fn mixed(number: u64, word: u64) -> u64 {
    (number.rotate_left(5) ^ word).wrapping_mul(0x9E37_79B9_7F4A_7C15)
}

/// Mixes a kind, and a word of that kind, into a number.
pub fn mixed_both(number: u64, kind: u64, word: u64) -> u64 {
    mixed(mixed(number, kind), word)
}

/// Mixes an expression of type std_ulogic into a number.
#[cycle(logic_expressions)]
fn mix_logic(expression: &LogicExpression, number: u64) -> u64 {
    match expression {
        LogicExpression::Literal(value) => mixed_both(number, 1, *value as u64),
        LogicExpression::Object(place) => mixed_both(number, 2, *place as u64),
        LogicExpression::Variable(place) => mixed_both(number, 3, *place as u64),
        LogicExpression::Not(operand) => mix_logic(operand.get(), mixed(number, 4)),
        LogicExpression::Chain {
            operator,
            first,
            rest,
        } => {
            let first = mix_logic(first.get(), mixed_both(number, 5, *operator as u64));
            mix_logic_operands(rest.as_slice(), first)
        }
    }
}

/// Mixes operands of type std_ulogic into a number.
#[cycle(logic_expressions)]
fn mix_logic_operands(operands: &[LogicExpression], number: u64) -> u64 {
    let mut mixture = mixed(number, operands.len() as u64);
    for operand in operands {
        mixture = mix_logic(operand, mixture);
    }
    mixture
}

/// Mixes an expression of type boolean into a number.
#[cycle(boolean_expressions)]
fn mix_boolean(expression: &BooleanExpression, number: u64) -> u64 {
    match expression {
        BooleanExpression::Literal(value) => mixed_both(number, 1, *value as u64),
        BooleanExpression::Variable(place) => mixed_both(number, 2, *place as u64),
        BooleanExpression::Event(object) => mixed_both(number, 3, *object as u64),
        BooleanExpression::Edge { rising, object } => {
            mixed(mixed_both(number, 4, *rising as u64), *object as u64)
        }
        BooleanExpression::Not(operand) => mix_boolean(operand.get(), mixed(number, 5)),
        BooleanExpression::Chain {
            operator,
            first,
            rest,
        } => {
            let first = mix_boolean(first.get(), mixed_both(number, 6, *operator as u64));
            mix_boolean_operands(rest.as_slice(), first)
        }
        BooleanExpression::Condition(operand) => mix_logic(operand, mixed(number, 9)),
        BooleanExpression::LogicComparison {
            left,
            operator,
            right,
        } => {
            let left = mix_logic(left.get(), mixed_both(number, 7, *operator as u64));
            mix_logic(right.get(), left)
        }
        BooleanExpression::BooleanComparison {
            left,
            operator,
            right,
        } => {
            let left = mix_boolean(left.get(), mixed_both(number, 8, *operator as u64));
            mix_boolean(right.get(), left)
        }
    }
}

/// Mixes operands of type boolean into a number.
#[cycle(boolean_expressions)]
fn mix_boolean_operands(operands: &[BooleanExpression], number: u64) -> u64 {
    let mut mixture = mixed(number, operands.len() as u64);
    for operand in operands {
        mixture = mix_boolean(operand, mixture);
    }
    mixture
}

/// Mixes a delay mechanism into a number.
fn mix_delay(delay: Delay, number: u64) -> u64 {
    match delay {
        Delay::Transport => mixed(number, 1),
        Delay::Inertial => mixed(number, 2),
        Delay::Reject(limit) => mixed_both(number, 3, limit.fs()),
    }
}

/// Mixes the elements of a waveform into a number.
fn mix_elements(elements: &[Element], number: u64) -> u64 {
    let mut mixture = mixed(number, elements.len() as u64);
    for element in elements {
        mixture = mix_logic(&element.value, mixed(mixture, element.after.fs()));
    }
    mixture
}

/// Mixes waveforms and their conditions into a number.
fn mix_conditionals(conditionals: &[ConditionalWaveform], number: u64) -> u64 {
    let mut mixture = mixed(number, conditionals.len() as u64);
    for conditional in conditionals {
        let waveform = mix_elements(conditional.waveform.elements(), mixture);
        mixture = mix_boolean(&conditional.condition, waveform);
    }
    mixture
}

/// Mixes a signal assignment into a number.
fn mix_assignment(assignment: &SignalAssignment, number: u64) -> u64 {
    let driver = mix_delay(assignment.delay, mixed(number, assignment.driver as u64));
    let conditionals = mix_conditionals(assignment.conditional.as_slice(), driver);
    match &assignment.otherwise {
        None => mixed(conditionals, 1),
        Some(waveform) => mix_elements(waveform.elements(), mixed(conditionals, 2)),
    }
}

/// Mixes a statement into a number.
#[cycle(nested_statements)]
fn mix_statement(statement: &Statement, number: u64) -> u64 {
    match statement {
        Statement::Signal(assignment) => mix_assignment(assignment, mixed(number, 1)),
        Statement::LogicVariable { place, value } => {
            mix_logic(value, mixed_both(number, 2, *place as u64))
        }
        Statement::BooleanVariable { place, value } => {
            mix_boolean(value, mixed_both(number, 3, *place as u64))
        }
        Statement::If {
            branches,
            otherwise,
        } => {
            let taken = mix_branches(branches.as_slice(), mixed(number, 4));
            mix_statements(otherwise.as_slice(), taken)
        }
        Statement::Null => mixed(number, 5),
    }
}

/// Mixes statements into a number.
#[cycle(nested_statements)]
fn mix_statements(statements: &[Statement], number: u64) -> u64 {
    let mut mixture = mixed(number, statements.len() as u64);
    for statement in statements {
        mixture = mix_statement(statement, mixture);
    }
    mixture
}

/// Mixes the branches of an if statement into a number.
#[cycle(nested_statements)]
fn mix_branches(branches: &[Branch], number: u64) -> u64 {
    let mut mixture = mixed(number, branches.len() as u64);
    for branch in branches {
        mixture = mix_branch(branch, mixture);
    }
    mixture
}

/// Mixes a branch into a number.
#[cycle(nested_statements)]
fn mix_branch(branch: &Branch, number: u64) -> u64 {
    let condition = mix_boolean(&branch.condition, number);
    mix_statements(branch.statements.as_slice(), condition)
}

/// Mixes variables into a number.
fn mix_variables(variables: &[Held], number: u64) -> u64 {
    let mut mixture = mixed(number, variables.len() as u64);
    for variable in variables {
        mixture = match variable {
            Held::Bit(value) => mixed_both(mixture, 1, *value as u64),
            Held::Truth(value) => mixed_both(mixture, 2, *value as u64),
        };
    }
    mixture
}

/// The number of a body.
pub fn fingerprint(body: &Body) -> u64 {
    let counts = mixed_both(0, body.objects() as u64, body.drivers() as u64);
    let variables = mix_variables(body.variables(), counts);
    mix_statements(body.statements(), variables)
}
