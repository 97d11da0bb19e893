use crate::line::Line;
use sim_logic::{Logical, Relational};
use sim_text_tree::expression::{Expression, Operand};
use sim_text_tree::name::Name;

/// Appends a function call, with the places of both names.
fn put_call(line: &mut Line, function: &Name, argument: &Name) {
    line.put_name(function);
    line.put("(");
    line.put_name(argument);
    line.put(")");
}

/// Appends an operator with its place, between two spaces.
fn put_operator(line: &mut Line, operator: &str, at: usize) {
    line.put(" ");
    line.put_at(operator, at);
    line.put(" ");
}

/// Appends the token before an operand, with its place, and a space.
fn put_before(line: &mut Line, token: &str, at: usize) {
    line.put_at(token, at);
    line.put(" ");
}

/// The symbol of a relational operator.
fn relational(operator: Relational) -> &'static str {
    match operator {
        Relational::Equal => "=",
        Relational::Unequal => "/=",
    }
}

/// The word of a logical operator.
fn logical(operator: Logical) -> &'static str {
    match operator {
        Logical::And => "and",
        Logical::Or => "or",
        Logical::Xor => "xor",
        Logical::Xnor => "xnor",
        Logical::Nand => "nand",
        Logical::Nor => "nor",
    }
}

/// Appends each operand after the first, with the operator before it.
#[cycle(expression)]
fn put_operands(line: &mut Line, operator: &str, operands: &[Operand]) {
    for operand in operands {
        put_operator(line, operator, operand.operator_at);
        put_expression(line, &operand.operand);
    }
}

/// Appends an expression with the places of its names, literals and operators.
#[cycle(expression)]
pub fn put_expression(line: &mut Line, expression: &Expression) {
    match expression {
        Expression::Literal { value, at } => line.put_literal(*value, *at),
        Expression::Named(name) => line.put_name(name),
        Expression::Event(name) => {
            line.put_name(name);
            line.put("'event");
        }
        Expression::Call { function, argument } => put_call(line, function, argument),
        Expression::Parenthesized { at, inner } => {
            put_before(line, "(", *at);
            put_expression(line, inner.get());
            line.put(")");
        }
        Expression::Not { at, operand } => {
            put_before(line, "not", *at);
            put_expression(line, operand.get());
        }
        Expression::Condition { at, operand } => {
            put_before(line, "??", *at);
            put_expression(line, operand.get());
        }
        Expression::Comparison {
            left,
            operator,
            at,
            right,
        } => {
            put_expression(line, left.get());
            put_operator(line, relational(*operator), *at);
            put_expression(line, right.get());
        }
        Expression::Chain {
            operator,
            first,
            rest,
        } => {
            put_expression(line, first.get());
            put_operands(line, logical(*operator), rest.as_slice());
        }
    }
}
