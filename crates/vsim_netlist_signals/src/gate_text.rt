//! The gates of Yosys' library as expressions.

use crate::expressions::{Expression, Outside, binary, literal, negation};
use std::alloc::{AllocError, Global};
use vsim_netlist_design::{Draft, Gate, Level, push};

/// Selects one of two expressions, the second by `1`. If both agree, the value is theirs even for
/// an unknown selection, as in Verilog.
fn selected(alloc: Global, low: &Expression, high: &Expression, select: &Expression) -> Expression {
    let either = binary(alloc, select, Outside::Or, low);
    let by_one = binary(alloc, high, Outside::And, &either);
    let by_zero = kept_by_zero(alloc, low, select);
    binary(alloc, &by_one, Outside::Or, &by_zero)
}

/// An expression if a selection is `0`, and otherwise `0`.
fn kept_by_zero(alloc: Global, low: &Expression, select: &Expression) -> Expression {
    let refused = negation(alloc, select);
    binary(alloc, low, Outside::And, &refused)
}

/// A copy of an expression.
pub(crate) fn copy(alloc: Global, expression: &Expression) -> Expression {
    let mut text = Draft::new(alloc);
    text.push_draft(&expression.text);
    Expression {
        text,
        outside: expression.outside,
        depth: expression.depth,
        has_name: expression.has_name,
    }
}

/// Like `selected`, for two parts of a table, which are often literals, given their texts.
fn shortened(
    alloc: Global,
    low: &Expression,
    high: &Expression,
    select: &Expression,
    texts: (&str, &str),
) -> Expression {
    let (first, second) = texts;
    if first == second {
        return copy(alloc, low);
    }
    match (
        first == "'0'",
        first == "'1'",
        second == "'0'",
        second == "'1'",
    ) {
        (true, _, _, true) => copy(alloc, select),
        (_, true, true, _) => negation(alloc, select),
        (true, _, _, _) => binary(alloc, select, Outside::And, high),
        (_, _, true, _) => kept_by_zero(alloc, low, select),
        (_, _, _, true) => binary(alloc, select, Outside::Or, low),
        (_, true, _, _) => opened(alloc, high, select),
        _ => selected(alloc, low, high, select),
    }
}

/// Selects one of two parts of a table.
fn looked_up(
    alloc: Global,
    low: &Expression,
    high: &Expression,
    select: &Expression,
) -> Expression {
    let mut read = Draft::new(alloc);
    let texts = (low.text.read_for(&mut read), high.text.read_for(&mut read));
    let mut found = shortened(alloc, low, high, select, texts);
    found.text.lack_with(&read);
    found
}

/// An expression if a selection is `1`, and otherwise `1`.
fn opened(alloc: Global, high: &Expression, select: &Expression) -> Expression {
    let refused = negation(alloc, select);
    binary(alloc, &refused, Outside::Or, high)
}

/// One of two expressions.
fn choice(
    alloc: Global,
    low: &Expression,
    high: &Expression,
    select: &Expression,
    is_table: bool,
) -> Expression {
    if is_table {
        looked_up(alloc, low, high, select)
    } else {
        selected(alloc, low, high, select)
    }
}

/// Adds one of two expressions.
fn push_choice(
    alloc: Global,
    items: &mut Vec<Expression>,
    pair: &[Expression],
    select: &Expression,
    is_table: bool,
) -> Result<(), AllocError> {
    match pair {
        [low, high] => push(items, choice(alloc, low, high, select, is_table)),
        _ => Ok(()),
    }
}

/// Selects one of each two expressions.
fn halved(
    alloc: Global,
    items: &[Expression],
    select: &Expression,
    is_table: bool,
) -> Result<Vec<Expression>, AllocError> {
    let mut half = Vec::new(alloc);
    for pair in items.chunks(2) {
        push_choice(alloc, &mut half, pair, select, is_table)?;
    }
    Ok(half)
}

/// Replaces expressions by one of each two.
fn halve(
    alloc: Global,
    items: &mut Vec<Expression>,
    select: &Expression,
    is_table: bool,
) -> Result<(), AllocError> {
    *items = halved(alloc, items.as_slice(), select, is_table)?;
    Ok(())
}

/// The last of these expressions.
fn last(alloc: Global, items: &[Expression]) -> Expression {
    match items.last() {
        Some(last) => copy(alloc, last),
        None => literal(alloc, Level::Unknown),
    }
}

/// Selects one of these expressions. The first selection is between neighbours.
fn chosen(
    alloc: Global,
    items: &[Expression],
    selects: &[Expression],
    is_table: bool,
) -> Result<Expression, AllocError> {
    let [first, others @ ..] = selects else {
        return Ok(last(alloc, items));
    };
    let mut half = halved(alloc, items, first, is_table)?;
    for select in others {
        halve(alloc, &mut half, select, is_table)?;
    }
    Ok(last(alloc, half.as_slice()))
}

/// A multiplexer of this number of data inputs.
fn multiplexer(
    alloc: Global,
    operands: &[Expression],
    data: usize,
) -> Result<Expression, AllocError> {
    match (operands.get(..data), operands.get(data..)) {
        (Some(items), Some(selects)) => chosen(alloc, items, selects, false),
        _ => Ok(literal(alloc, Level::Unknown)),
    }
}

/// The level of a bit of a table.
fn level_of(bit: u8) -> Level {
    if bit == b'1' { Level::One } else { Level::Zero }
}

/// The literals of a table, lowest first.
fn literals(alloc: Global, table: &str) -> Result<Vec<Expression>, AllocError> {
    let mut items = Vec::new(alloc);
    for bit in table.as_bytes().iter().rev() {
        push(&mut items, literal(alloc, level_of(*bit)))?;
    }
    Ok(items)
}

/// A look-up table.
fn looked_up_in(
    alloc: Global,
    table: &str,
    operands: &[Expression],
) -> Result<Expression, AllocError> {
    let items = literals(alloc, table)?;
    chosen(alloc, items.as_slice(), operands, true)
}

/// Two binary operations, joined by a third operator.
fn pairs(alloc: Global, operands: &[Expression], inner: Outside, outer: Outside) -> Expression {
    match operands {
        [a, b, c] => {
            let first = binary(alloc, a, inner, b);
            binary(alloc, &first, outer, c)
        }
        [a, b, c, d] => {
            let (first, second) = (binary(alloc, a, inner, b), binary(alloc, c, inner, d));
            binary(alloc, &first, outer, &second)
        }
        _ => literal(alloc, Level::Unknown),
    }
}

/// An operation on two operands.
fn two(alloc: Global, operands: &[Expression], operator: Outside) -> Expression {
    match operands {
        [left, right] => binary(alloc, left, operator, right),
        _ => literal(alloc, Level::Unknown),
    }
}

/// An operation on an operand and the negation of another.
fn with_negation(alloc: Global, operands: &[Expression], operator: Outside) -> Expression {
    match operands {
        [left, right] => {
            let refused = negation(alloc, right);
            binary(alloc, left, operator, &refused)
        }
        _ => literal(alloc, Level::Unknown),
    }
}

/// One operand, negated or not.
fn one(alloc: Global, operands: &[Expression], is_not: bool) -> Expression {
    match operands {
        [operand] if is_not => negation(alloc, operand),
        [operand] => copy(alloc, operand),
        _ => literal(alloc, Level::Unknown),
    }
}

/// The expression of a gate with two operands, or with few operators.
fn plain(alloc: Global, gate: Gate, operands: &[Expression]) -> Expression {
    match gate {
        Gate::Buf => one(alloc, operands, false),
        Gate::Not => one(alloc, operands, true),
        Gate::And => two(alloc, operands, Outside::And),
        Gate::Nand => two(alloc, operands, Outside::Nand),
        Gate::Or => two(alloc, operands, Outside::Or),
        Gate::Nor => two(alloc, operands, Outside::Nor),
        Gate::Xor => two(alloc, operands, Outside::Xor),
        Gate::Xnor => two(alloc, operands, Outside::Xnor),
        Gate::AndNot => with_negation(alloc, operands, Outside::And),
        Gate::OrNot => with_negation(alloc, operands, Outside::Or),
        Gate::Aoi3 | Gate::Aoi4 => pairs(alloc, operands, Outside::And, Outside::Nor),
        _ => pairs(alloc, operands, Outside::Or, Outside::Nand),
    }
}

/// The expression of a gate with these operands.
pub fn gate_expression(
    alloc: Global,
    gate: Gate,
    table: &str,
    operands: &[Expression],
) -> Result<Expression, AllocError> {
    match gate {
        Gate::Mux => multiplexer(alloc, operands, 2),
        Gate::Mux4 => multiplexer(alloc, operands, 4),
        Gate::Mux8 => multiplexer(alloc, operands, 8),
        Gate::Mux16 => multiplexer(alloc, operands, 16),
        Gate::Nmux => {
            let selected = multiplexer(alloc, operands, 2)?;
            Ok(negation(alloc, &selected))
        }
        Gate::Lut => looked_up_in(alloc, table, operands),
        _ => Ok(plain(alloc, gate, operands)),
    }
}
