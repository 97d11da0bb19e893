//! Expressions of a process (IEEE 1076-2008, 9).

ghost use Rattle.std.specs.Prelude.{◌≡◌, ℕ, true, IfOk, List, map};
ghost use Rattle.std.specs.List.{All};
ghost use Rattle.sim_flat_design.specs.declared.expression.BooleanExpression.TheVariants as boolean;
ghost use Rattle.sim_flat_design.specs.declared.held.Held as held;
ghost use Rattle.sim_flat_design.specs.Bodies.{boolean_fits, logic_fits};
ghost use Rattle.sim_flat_scope.specs.Scopes.{means};
ghost use Rattle.sim_flat_bodies.specs.Expressions as spec;
ghost use Rattle.sim_flat_bodies.specs.Within.{AreWithin, is_within};

use crate::names::Names;
use sim_flat_design::expression::{BooleanExpression, LogicExpression};
use sim_flat_scope::{Meaning, Type};
use sim_logic::{Logic, Logical, Relational};
use sim_text_tree::expression::{Expression, Operand};
use sqlite_items::{Boxed, Items};
use std::alloc::{AllocError, Global};

/// Whether a name is a boolean variable, `true` or `false`.
#[tactic(auto, unfolding(crate::specs::Expressions::named))]
fn named_is_boolean(meaning: Option<Meaning>) -> bool
    ensures { result ≡ (spec.named meaning).is_boolean }
{
    matches!(
        meaning,
        Some(
            Meaning::Variable {
                type_: Some(Type::Boolean),
                ..
            } | Meaning::Truth(_)
        )
    )
}

/// A name as an expression of type std_ulogic; `'U'` if it is not of that type.
#[tactic(auto, using(sim_flat_design::proofs::Fitting::logics_fit), unfolding(crate::specs::Expressions::named, crate::specs::Within::is_within))]
fn named_logic(meaning: Option<Meaning>) -> LogicExpression
    ensures value { result ≡ (spec.named meaning).logic }
    ensures fits { (objects : ℕ) (variables : List held.Held) → is_within objects variables meaning ≡ true
        → logic_fits objects variables result ≡ true }
{
    match meaning {
        Some(Meaning::Port { object, .. }) => LogicExpression::Object(object),
        Some(Meaning::Signal { object, .. }) => LogicExpression::Object(object),
        Some(
            Meaning::Variable {
                place,
                type_: Some(Type::Logic),
            },
        ) => LogicExpression::Variable(place),
        _ => LogicExpression::Literal(Logic::U),
    }
}

/// A name as an expression of type boolean; `false` if it is not of that type.
#[tactic(auto, using(sim_flat_design::proofs::Fitting::booleans_fit), unfolding(crate::specs::Expressions::named, crate::specs::Within::is_within))]
fn named_boolean(meaning: Option<Meaning>) -> BooleanExpression
    ensures value { result ≡ (spec.named meaning).boolean }
    ensures fits { (objects : ℕ) (variables : List held.Held) → is_within objects variables meaning ≡ true
        → boolean_fits objects variables result ≡ true }
{
    match meaning {
        Some(
            Meaning::Variable {
                place,
                type_: Some(Type::Boolean),
            },
        ) => BooleanExpression::Variable(place),
        Some(Meaning::Truth(value)) => BooleanExpression::Literal(value),
        _ => BooleanExpression::Literal(false),
    }
}

/// `'event` of a port or signal; otherwise `false`.
#[tactic(auto, using(sim_flat_design::proofs::Fitting::booleans_fit), unfolding(crate::specs::Expressions::event_of, crate::specs::Within::is_within))]
fn event_of(meaning: Option<Meaning>) -> BooleanExpression
    ensures value { result ≡ spec.event_of meaning }
    ensures fits { (objects : ℕ) (variables : List held.Held) → is_within objects variables meaning ≡ true
        → boolean_fits objects variables result ≡ true }
{
    match meaning {
        Some(Meaning::Port { object, .. }) => BooleanExpression::Event(object),
        Some(Meaning::Signal { object, .. }) => BooleanExpression::Event(object),
        _ => BooleanExpression::Literal(false),
    }
}

/// `rising_edge` or `falling_edge` of a port or signal; otherwise `false`.
#[tactic(auto, using(sim_flat_design::proofs::Fitting::booleans_fit), unfolding(crate::specs::Expressions::edge_of, crate::specs::Within::is_within))]
fn edge_of(function: Option<Meaning>, argument: Option<Meaning>) -> BooleanExpression
    ensures value { result ≡ spec.edge_of function argument }
    ensures fits { (objects : ℕ) (variables : List held.Held) → is_within objects variables argument ≡ true
        → boolean_fits objects variables result ≡ true }
{
    match (function, argument) {
        (Some(Meaning::Edge { rising }), Some(Meaning::Port { object, .. })) => {
            BooleanExpression::Edge { rising, object }
        }
        (Some(Meaning::Edge { rising }), Some(Meaning::Signal { object, .. })) => {
            BooleanExpression::Edge { rising, object }
        }
        _ => BooleanExpression::Literal(false),
    }
}

/// Whether an expression is of type boolean.
#[tactic(auto, using(crate::proofs::Translations::types))]
pub fn is_boolean(names: &Names<'_, '_>, expression: &Expression) -> bool
    ensures { result ≡ spec.is_boolean (means names.now.process.now names.now.architecture.now) expression.now }
{
    match expression {
        Expression::Literal { .. } => false,
        Expression::Named(name) => named_is_boolean(names.look_up(name.text())),
        Expression::Event(_)
        | Expression::Call { .. }
        | Expression::Condition { .. }
        | Expression::Comparison { .. } => true,
        Expression::Parenthesized { inner, .. } => is_boolean(names, inner.get()),
        Expression::Not { operand, .. } => is_boolean(names, operand.get()),
        Expression::Chain { first, .. } => is_boolean(names, first.get()),
    }
}

/// An expression of type std_ulogic.
#[cycle(logic)]
#[tactic(auto, using(crate::proofs::Translations::logics_are, sim_flat_design::proofs::Fitting::logics_fit))]
pub fn logic(
    alloc: Global,
    names: &Names<'_, '_>,
    expression: &Expression,
) -> Result<LogicExpression, AllocError>
    requires within { AreWithin (means names.now.process.now names.now.architecture.now) names.now.objects names.now.variables.now }
    ensures value { IfOk result (λ r. r ≡ spec.logic_of (means names.now.process.now names.now.architecture.now) expression.now) }
    ensures fits { IfOk result (λ r. logic_fits names.now.objects names.now.variables.now r ≡ true) }
{
    match expression {
        Expression::Literal { value, .. } => Ok(LogicExpression::Literal(*value)),
        Expression::Named(name) => Ok(named_logic(names.look_up(name.text()))),
        Expression::Event(_)
        | Expression::Call { .. }
        | Expression::Condition { .. }
        | Expression::Comparison { .. } => Ok(LogicExpression::Literal(Logic::U)),
        Expression::Parenthesized { inner, .. } => logic(alloc, names, inner.get()),
        Expression::Not { operand, .. } => {
            let operand = boxed_logic(alloc, names, operand)?;
            Ok(LogicExpression::Not(operand))
        }
        Expression::Chain {
            operator,
            first,
            rest,
        } => {
            let first = boxed_logic(alloc, names, first)?;
            let rest = logic_operands(alloc, names, rest.as_slice())?;
            Ok(LogicExpression::Chain {
                operator: *operator,
                first,
                rest,
            })
        }
    }
}

/// An expression of type std_ulogic, on the heap.
#[cycle(logic)]
fn boxed_logic(
    alloc: Global,
    names: &Names<'_, '_>,
    expression: &Boxed<Expression>,
) -> Result<Boxed<LogicExpression>, AllocError>
    requires within { AreWithin (means names.now.process.now names.now.architecture.now) names.now.objects names.now.variables.now }
    ensures value { IfOk result (λ r. r ≡ spec.logic_of (means names.now.process.now names.now.architecture.now) expression.now) }
    ensures fits { IfOk result (λ r. logic_fits names.now.objects names.now.variables.now r ≡ true) }
{
    let made = logic(alloc, names, expression.get())?;
    Boxed::new(alloc, made)
}

/// The operands after the first in a chain of type std_ulogic.
#[cycle(logic)]
fn logic_operands(
    alloc: Global,
    names: &Names<'_, '_>,
    operands: &[Operand],
) -> Result<Items<LogicExpression>, AllocError>
    requires within { AreWithin (means names.now.process.now names.now.architecture.now) names.now.objects names.now.variables.now }
    ensures value { IfOk result (λ r. r ≡ map (spec.operand_logic (means names.now.process.now names.now.architecture.now)) operands.now) }
    ensures fits { IfOk result (λ r. All (λ x. logic_fits names.now.objects names.now.variables.now x ≡ true) r) }
{
    let mut found = Vec::with_capacity(alloc, operands.len())?;
    for each in operands {
        found.push(logic(alloc, names, &each.operand)?)?;
    }
    Ok(Items::from_vec(found))
}

/// `=` or `/=` between operands of type std_ulogic (9.2.3).
#[tactic(auto, using(sim_flat_design::proofs::Fitting::booleans_fit))]
fn logic_comparison(
    alloc: Global,
    names: &Names<'_, '_>,
    left: &Boxed<Expression>,
    operator: Relational,
    right: &Boxed<Expression>,
) -> Result<BooleanExpression, AllocError>
    requires within { AreWithin (means names.now.process.now names.now.architecture.now) names.now.objects names.now.variables.now }
    ensures value { IfOk result (λ r. r ≡ boolean.LogicComparison
        (spec.logic_of (means names.now.process.now names.now.architecture.now) left.now) operator
        (spec.logic_of (means names.now.process.now names.now.architecture.now) right.now)) }
    ensures fits { IfOk result (λ r. boolean_fits names.now.objects names.now.variables.now r ≡ true) }
{
    let left = boxed_logic(alloc, names, left)?;
    let right = boxed_logic(alloc, names, right)?;
    Ok(BooleanExpression::LogicComparison {
        left,
        operator,
        right,
    })
}

/// `??` of an operand of type std_ulogic (9.2.9).
#[tactic(auto, using(sim_flat_design::proofs::Fitting::booleans_fit))]
fn condition_operator(
    alloc: Global,
    names: &Names<'_, '_>,
    operand: &Expression,
) -> Result<BooleanExpression, AllocError>
    requires within { AreWithin (means names.now.process.now names.now.architecture.now) names.now.objects names.now.variables.now }
    ensures value { IfOk result (λ r. r ≡ boolean.Condition (spec.logic_of (means names.now.process.now names.now.architecture.now) operand.now)) }
    ensures fits { IfOk result (λ r. boolean_fits names.now.objects names.now.variables.now r ≡ true) }
{
    let operand = logic(alloc, names, operand)?;
    Ok(BooleanExpression::Condition(operand))
}

/// An expression of type boolean. A comparison is translated by the type of its left operand.
#[cycle(boolean)]
#[tactic(auto, using(crate::proofs::Translations::booleans_are, sim_flat_design::proofs::Fitting::booleans_fit))]
pub fn boolean(
    alloc: Global,
    names: &Names<'_, '_>,
    expression: &Expression,
) -> Result<BooleanExpression, AllocError>
    requires within { AreWithin (means names.now.process.now names.now.architecture.now) names.now.objects names.now.variables.now }
    ensures value { IfOk result (λ r. r ≡ spec.boolean_of (means names.now.process.now names.now.architecture.now) expression.now) }
    ensures fits { IfOk result (λ r. boolean_fits names.now.objects names.now.variables.now r ≡ true) }
{
    match expression {
        Expression::Literal { .. } => Ok(BooleanExpression::Literal(false)),
        Expression::Named(name) => Ok(named_boolean(names.look_up(name.text()))),
        Expression::Event(name) => Ok(event_of(names.look_up(name.text()))),
        Expression::Call { function, argument } => {
            let function = names.look_up(function.text());
            Ok(edge_of(function, names.look_up(argument.text())))
        }
        Expression::Parenthesized { inner, .. } => boolean(alloc, names, inner.get()),
        Expression::Not { operand, .. } => {
            let operand = boxed_boolean(alloc, names, operand)?;
            Ok(BooleanExpression::Not(operand))
        }
        Expression::Condition { operand, .. } => condition_operator(alloc, names, operand.get()),
        Expression::Comparison {
            left,
            operator,
            right,
            ..
        } => {
            if !is_boolean(names, left.get()) {
                return logic_comparison(alloc, names, left, *operator, right);
            }
            let left = boxed_boolean(alloc, names, left)?;
            boolean_comparison(alloc, names, right, *operator, left)
        }
        Expression::Chain {
            operator,
            first,
            rest,
        } => {
            let first = boxed_boolean(alloc, names, first)?;
            boolean_chain(alloc, names, rest.as_slice(), *operator, first)
        }
    }
}

/// An expression of type boolean, on the heap.
#[cycle(boolean)]
fn boxed_boolean(
    alloc: Global,
    names: &Names<'_, '_>,
    expression: &Boxed<Expression>,
) -> Result<Boxed<BooleanExpression>, AllocError>
    requires within { AreWithin (means names.now.process.now names.now.architecture.now) names.now.objects names.now.variables.now }
    ensures value { IfOk result (λ r. r ≡ spec.boolean_of (means names.now.process.now names.now.architecture.now) expression.now) }
    ensures fits { IfOk result (λ r. boolean_fits names.now.objects names.now.variables.now r ≡ true) }
{
    let made = boolean(alloc, names, expression.get())?;
    Boxed::new(alloc, made)
}

/// `=` or `/=` between operands of type boolean; the left one is already translated (9.2.3).
#[cycle(boolean)]
#[tactic(auto, using(sim_flat_design::proofs::Fitting::booleans_fit))]
fn boolean_comparison(
    alloc: Global,
    names: &Names<'_, '_>,
    right: &Boxed<Expression>,
    operator: Relational,
    left: Boxed<BooleanExpression>,
) -> Result<BooleanExpression, AllocError>
    requires within { AreWithin (means names.now.process.now names.now.architecture.now) names.now.objects names.now.variables.now }
    requires left { boolean_fits names.now.objects names.now.variables.now left ≡ true }
    ensures value { IfOk result (λ r. r ≡ boolean.BooleanComparison left operator
        (spec.boolean_of (means names.now.process.now names.now.architecture.now) right.now)) }
    ensures fits { IfOk result (λ r. boolean_fits names.now.objects names.now.variables.now r ≡ true) }
{
    let made = boolean(alloc, names, right.get())?;
    let right = Boxed::new(alloc, made)?;
    Ok(BooleanExpression::BooleanComparison {
        left,
        operator,
        right,
    })
}

/// A chain of type boolean, whose first operand is already translated.
#[cycle(boolean)]
#[tactic(auto, using(sim_flat_design::proofs::Fitting::booleans_fit))]
fn boolean_chain(
    alloc: Global,
    names: &Names<'_, '_>,
    operands: &[Operand],
    operator: Logical,
    first: Boxed<BooleanExpression>,
) -> Result<BooleanExpression, AllocError>
    requires within { AreWithin (means names.now.process.now names.now.architecture.now) names.now.objects names.now.variables.now }
    requires first { boolean_fits names.now.objects names.now.variables.now first ≡ true }
    ensures value { IfOk result (λ r. r ≡ boolean.Chain operator first
        (map (spec.operand_boolean (means names.now.process.now names.now.architecture.now)) operands.now)) }
    ensures fits { IfOk result (λ r. boolean_fits names.now.objects names.now.variables.now r ≡ true) }
{
    let mut found = Vec::with_capacity(alloc, operands.len())?;
    for each in operands {
        found.push(boolean(alloc, names, &each.operand)?)?;
    }
    let rest = Items::from_vec(found);
    Ok(BooleanExpression::Chain {
        operator,
        first,
        rest,
    })
}

/// A condition: an expression of type boolean, or one of type std_ulogic, to which `??` is applied
/// implicitly (9.2.9).
#[tactic(auto, unfolding(crate::specs::Expressions::condition_of))]
pub fn condition(
    alloc: Global,
    names: &Names<'_, '_>,
    expression: &Expression,
) -> Result<BooleanExpression, AllocError>
    requires within { AreWithin (means names.now.process.now names.now.architecture.now) names.now.objects names.now.variables.now }
    ensures value { IfOk result (λ r. r ≡ spec.condition_of (means names.now.process.now names.now.architecture.now) expression.now) }
    ensures fits { IfOk result (λ r. boolean_fits names.now.objects names.now.variables.now r ≡ true) }
{
    if !is_boolean(names, expression) {
        return condition_operator(alloc, names, expression);
    }
    boolean(alloc, names, expression)
}
