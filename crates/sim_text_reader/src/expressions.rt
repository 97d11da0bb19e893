//! Expressions (IEEE 1076-2008, 9.1).

ghost use Rattle.std.specs.Prelude.{◌≡◌, ◌≢◌, ◌∷◌, [], true, Ok, Err, IfOk, IfErr};
ghost use Rattle.sim_text_grammar.specs.declared.error.ParseError.TheVariants.{OutOfMemory};
ghost use Rattle.sim_text_grammar.specs.Expressions as spec;
ghost use Rattle.sim_text_tree.specs.Grammar.{is_repeatable, logical_kind};
ghost use Rattle.sim_text_tokens.specs.declared.kind.Kind.TheVariants as k;
ghost use Rattle.sim_text_grammar.specs.Readers.{Reads, and_then, pure, expect, word};

use crate::cursor::{Cursor, both};
use crate::lists::push;
use sim_logic::{Logical, Relational};
use sim_text_grammar::ParseError;
use sim_text_tokens::Kind;
use sim_text_tree::expression::{Expression, Operand};
use sim_text_tree::list::{fitted, one};
use sim_text_tree::name::Name;
use sqlite_items::{Boxed, Items};
use std::alloc::Global;

/// The largest number of open parentheses in an expression.
const MOST_PARENTHESES: usize = 64;

/// The operand that was read, on the heap.
fn boxed(
    alloc: Global,
    read: Result<Expression, ParseError>,
) -> Result<Boxed<Expression>, ParseError>
    ensures ok { IfOk result (λ found. read ≡ Ok found) }
    ensures err { IfErr result (λ e. e ≢ OutOfMemory → read ≡ Err e) }
{
    let operand = read?;
    let found = Boxed::new(alloc, operand)?;
    Ok(found)
}

/// Reads the argument of a call, and the parenthesis after it.
fn argument(tokens: &mut Cursor<'_>) -> Result<Name, ParseError>
    ensures { Reads (and_then (word tokens.old) (λ name i. and_then (expect k.RightParen i) (λ _. pure name))) result tokens.new }
{
    let name = tokens.word()?;
    tokens.past(Kind::RightParen, name)
}

/// `id | id ' event | id ( id )`
#[tactic(auto, unfolding(sim_text_grammar::specs::Expressions::named))]
fn named(tokens: &mut Cursor<'_>) -> Result<Expression, ParseError>
    ensures { Reads (spec.named tokens.old) result tokens.new }
{
    let name = tokens.word()?;
    match tokens.peek() {
        Kind::Tick => {
            tokens.take();
            tokens.event()?;
            Ok(Expression::Event(name))
        }
        Kind::LeftParen => {
            tokens.take();
            let argument = argument(tokens)?;
            Ok(Expression::Call {
                function: name,
                argument,
            })
        }
        _ => Ok(Expression::Named(name)),
    }
}

/// `prim = lit | id | id ' event | id ( id ) | ( expr )`
#[cycle(expression)]
#[tactic(auto, unfolding(sim_text_grammar::specs::Expressions::primary))]
fn primary(alloc: Global, tokens: &mut Cursor<'_>, depth: usize) -> Result<Expression, ParseError>
    ensures { Reads (spec.primary (spec.nested depth) tokens.old) result tokens.new }
{
    match tokens.peek() {
        Kind::Literal => {
            let (value, at) = tokens.literal()?;
            Ok(Expression::Literal { value, at })
        }
        Kind::LeftParen => nested(alloc, tokens, depth),
        _ => named(tokens),
    }
}

/// `fact = prim | not prim`
#[cycle(expression)]
#[tactic(auto, unfolding(sim_text_grammar::specs::Expressions::factor))]
fn factor(alloc: Global, tokens: &mut Cursor<'_>, depth: usize) -> Result<Expression, ParseError>
    ensures { Reads (spec.factor (spec.nested depth) tokens.old) result tokens.new }
{
    match tokens.peek() {
        Kind::Not => {
            let at = tokens.take();
            let operand = primary(alloc, tokens, depth);
            let operand = boxed(alloc, operand)?;
            Ok(Expression::Not { at, operand })
        }
        _ => primary(alloc, tokens, depth),
    }
}

/// Reads the operator and the second operand of a comparison.
#[cycle(expression)]
fn comparison(
    alloc: Global,
    tokens: &mut Cursor<'_>,
    depth: usize,
    left: Expression,
    operator: Relational,
) -> Result<Expression, ParseError>
    ensures { Reads (spec.comparison (spec.nested depth) left operator tokens.old) result tokens.new }
{
    let left = Boxed::new(alloc, left)?;
    let at = tokens.take();
    let right = factor(alloc, tokens, depth);
    let (left, right) = both(left, boxed(alloc, right))?;
    Ok(Expression::Comparison {
        left,
        operator,
        at,
        right,
    })
}

/// `rel = fact [(= | /=) fact]`
#[cycle(expression)]
#[tactic(auto, unfolding(sim_text_grammar::specs::Expressions::relation))]
fn relation(alloc: Global, tokens: &mut Cursor<'_>, depth: usize) -> Result<Expression, ParseError>
    ensures { Reads (spec.relation (spec.nested depth) tokens.old) result tokens.new }
{
    let left = factor(alloc, tokens, depth)?;
    match tokens.peek() {
        Kind::Equal => comparison(alloc, tokens, depth, left, Relational::Equal),
        Kind::Unequal => comparison(alloc, tokens, depth, left, Relational::Unequal),
        _ => Ok(left),
    }
}

/// An operator, and the `rel` after it.
#[cycle(expression)]
#[tactic(auto, unfolding(sim_text_grammar::specs::Expressions::operand))]
fn operand(alloc: Global, tokens: &mut Cursor<'_>, depth: usize) -> Result<Operand, ParseError>
    ensures { Reads (spec.operand (spec.nested depth) tokens.old) result tokens.new }
{
    let operator_at = tokens.take();
    let operand = relation(alloc, tokens, depth)?;
    Ok(Operand {
        operator_at,
        operand,
    })
}

/// The logical operator whose token has this kind, if any.
fn logical_of(kind: Kind) -> Option<Logical>
    ensures { result ≡ spec.logical_of kind }
{
    match kind {
        Kind::And => Some(Logical::And),
        Kind::Or => Some(Logical::Or),
        Kind::Xor => Some(Logical::Xor),
        Kind::Xnor => Some(Logical::Xnor),
        Kind::Nand => Some(Logical::Nand),
        Kind::Nor => Some(Logical::Nor),
        _ => None,
    }
}

/// The kind of the operator's token.
fn kind_of(operator: Logical) -> Kind
    ensures { result ≡ logical_kind operator }
{
    match operator {
        Logical::And => Kind::And,
        Logical::Or => Kind::Or,
        Logical::Xor => Kind::Xor,
        Logical::Xnor => Kind::Xnor,
        Logical::Nand => Kind::Nand,
        Logical::Nor => Kind::Nor,
    }
}

/// Whether the operator may be repeated: `nand` and `nor` may not (9.2.2).
fn is_repeatable(operator: Logical) -> bool
    ensures { result ≡ is_repeatable operator }
{
    !matches!(operator, Logical::Nand | Logical::Nor)
}

/// Reads further operands of the operator.
#[cycle(expression)]
#[tactic(auto, unfolding(sim_text_grammar::specs::Readers::sees, sim_text_grammar::specs::Readers::left))]
fn more_operands(
    alloc: Global,
    tokens: &mut Cursor<'_>,
    depth: usize,
    operator: Logical,
    second: Operand,
) -> Result<Items<Operand>, ParseError>
    ensures { Reads (spec.more_operands (spec.nested depth) true operator (second ∷ []) tokens.old) result tokens.new }
{
    let mut found = one(alloc, second)?;
    for _turn in 0..tokens.left() {
        if !tokens.sees(kind_of(operator)) {
            return Ok(fitted(found));
        }
        let next = operand(alloc, tokens, depth);
        push(&mut found, next)?;
    }
    Ok(fitted(found))
}

/// `{and rel}` and the like, after the first `rel`; all operators are the same, and `nand` and
/// `nor` occur only once.
#[cycle(expression)]
#[tactic(auto, unfolding(sim_text_grammar::specs::Expressions::operands))]
fn operands(
    alloc: Global,
    tokens: &mut Cursor<'_>,
    depth: usize,
    operator: Logical,
) -> Result<Items<Operand>, ParseError>
    ensures { Reads (spec.operands (spec.nested depth) operator tokens.old) result tokens.new }
{
    let second = operand(alloc, tokens, depth)?;
    if is_repeatable(operator) {
        more_operands(alloc, tokens, depth, operator, second)
    } else {
        Ok(fitted(one(alloc, second)?))
    }
}

/// Reads the operators and the operands after the first.
#[cycle(expression)]
fn chained(
    alloc: Global,
    tokens: &mut Cursor<'_>,
    depth: usize,
    first: Expression,
    operator: Logical,
) -> Result<Expression, ParseError>
    ensures { Reads (spec.chain_by (spec.nested depth) first (Some operator) tokens.old) result tokens.new }
{
    let first = Boxed::new(alloc, first)?;
    let (first, rest) = both(first, operands(alloc, tokens, depth, operator))?;
    Ok(Expression::Chain {
        operator,
        first,
        rest,
    })
}

/// `rel {and rel}` and the like: relations, with a logical operator between adjacent ones.
#[cycle(expression)]
#[tactic(auto, unfolding(sim_text_grammar::specs::Expressions::chain))]
fn chain(alloc: Global, tokens: &mut Cursor<'_>, depth: usize) -> Result<Expression, ParseError>
    ensures { Reads (spec.chain (spec.nested depth) tokens.old) result tokens.new }
{
    let first = relation(alloc, tokens, depth)?;
    match logical_of(tokens.peek()) {
        Some(operator) => chained(alloc, tokens, depth, first, operator),
        None => Ok(first),
    }
}

/// `expr`, in which this many more parentheses may be open.
#[cycle(expression)]
#[tactic(auto, unfolding(sim_text_grammar::specs::Expressions::expression_in))]
fn expression_in(
    alloc: Global,
    tokens: &mut Cursor<'_>,
    depth: usize,
) -> Result<Expression, ParseError>
    ensures { Reads (spec.expression_in (spec.nested depth) tokens.old) result tokens.new }
{
    match tokens.peek() {
        Kind::Condition => {
            let at = tokens.take();
            let operand = primary(alloc, tokens, depth);
            let operand = boxed(alloc, operand)?;
            Ok(Expression::Condition { at, operand })
        }
        _ => chain(alloc, tokens, depth),
    }
}

/// `( expr )`, where this many more parentheses may be open; `TooDeep` if none may.
#[cycle(expression)]
#[tactic(auto, unfolding(sim_text_grammar::specs::Expressions::nested, sim_text_grammar::specs::Readers::left))]
fn nested(alloc: Global, tokens: &mut Cursor<'_>, depth: usize) -> Result<Expression, ParseError>
    ensures { Reads (spec.nested depth tokens.old) result tokens.new }
{
    if depth == 0 {
        return Err(ParseError::TooDeep(tokens.left()));
    }
    let at = tokens.take();
    let inner = expression_in(alloc, tokens, depth - 1);
    let inner = boxed(alloc, inner)?;
    tokens.past(Kind::RightParen, Expression::Parenthesized { at, inner })
}

/// Reads an expression (IEEE 1076-2008, 9.1). `Syntax` at the first token that cannot continue one,
/// `TooDeep` at a parenthesis inside 64 others.
#[tactic(auto, unfolding(sim_text_grammar::specs::Expressions::expression))]
pub fn expression(alloc: Global, tokens: &mut Cursor<'_>) -> Result<Expression, ParseError>
    ensures { Reads (spec.expression tokens.old) result tokens.new }
{
    expression_in(alloc, tokens, MOST_PARENTHESES)
}
