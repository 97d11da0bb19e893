//! Expressions as text.

use std::alloc::Global;
use vsim_netlist_design::{Draft, Level};

/// The outermost form of an expression.
#[derive(Clone, Copy, PartialEq, Eq)]
pub enum Outside {
    /// A name, a literal or an expression in parentheses.
    Primary,
    Not,
    And,
    Or,
    Xor,
    Nand,
    Nor,
    Xnor,
}

/// An expression: its text, its outermost form, the depth of its parentheses, and whether it names
/// a signal. One of literals alone is no condition of VHDL, since `'1'` may be of several types.
#[derive(Drop)]
pub struct Expression {
    pub text: Draft,
    pub outside: Outside,
    pub depth: usize,
    pub has_name: bool,
}

impl Outside {
    /// The reserved word of an operator.
    fn word(self) -> &'static str {
        match self {
            Outside::Primary | Outside::Not => "not",
            Outside::And => "and",
            Outside::Or => "or",
            Outside::Xor => "xor",
            Outside::Nand => "nand",
            Outside::Nor => "nor",
            Outside::Xnor => "xnor",
        }
    }

    /// Whether an expression can be an operand of an operator without parentheses.
    fn fits(self, operator: Outside) -> bool {
        match self {
            Outside::Primary => true,
            Outside::Not => operator != Outside::Not,
            Outside::And | Outside::Or | Outside::Xor => self == operator,
            _ => false,
        }
    }
}

/// The name of a signal.
pub fn named(alloc: Global, name: &str) -> Expression {
    Expression {
        text: Draft::of(alloc, name),
        outside: Outside::Primary,
        depth: 0,
        has_name: true,
    }
}

/// The literal of a level.
pub fn literal(alloc: Global, level: Level) -> Expression {
    Expression {
        text: Draft::of(alloc, level.literal()),
        outside: Outside::Primary,
        depth: 0,
        has_name: false,
    }
}

/// Whether a byte, if there is one, is part of a word.
fn is_word(byte: Option<&u8>) -> bool {
    match byte {
        Some(byte) => byte.is_ascii_alphanumeric(),
        None => false,
    }
}

/// Adds a space if the next part would otherwise join the word before it.
fn push_space(text: &mut Draft, next: &str) {
    if is_word(text.so_far().as_bytes().last()) && is_word(next.as_bytes().first()) {
        text.push(" ");
    }
}

/// Adds an operand of an operator, in parentheses if needed. Returns its depth.
fn push_operand(text: &mut Draft, operand: &Expression, operator: Outside) -> usize {
    if operand.outside.fits(operator) {
        let next = operand.text.read_for(text);
        push_space(text, next);
        text.push_draft(&operand.text);
        return operand.depth;
    }
    text.push("(");
    text.push_draft(&operand.text);
    text.push(")");
    operand.depth.saturating_add(1)
}

/// The negation of an expression.
pub fn negation(alloc: Global, operand: &Expression) -> Expression {
    let mut text = Draft::of(alloc, "not");
    let depth = push_operand(&mut text, operand, Outside::Not);
    Expression {
        text,
        outside: Outside::Not,
        depth,
        has_name: operand.has_name,
    }
}

/// A binary operation.
pub fn binary(
    alloc: Global,
    left: &Expression,
    operator: Outside,
    right: &Expression,
) -> Expression {
    let mut text = Draft::new(alloc);
    let left_depth = push_operand(&mut text, left, operator);
    let word = operator.word();
    push_space(&mut text, word);
    text.push(word);
    let right_depth = push_operand(&mut text, right, operator);
    Expression {
        text,
        outside: operator,
        depth: left_depth.max(right_depth),
        has_name: left.has_name || right.has_name,
    }
}
