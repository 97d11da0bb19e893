//! The types of expressions, and the faults in them (IEEE 1076-2008, 9).

ghost use Rattle.std.specs.Prelude.{◌≡◌, ◌||◌, ◌++◌, Some, false};
ghost use Rattle.sim_flat_scope.specs.Faults.{earliest};
ghost use Rattle.sim_flat_scope.specs.Scopes.{means};
ghost use Rattle.sim_flat_scope.specs.declared.scope.Type.TheVariants.{Logic};
ghost use Rattle.sim_flat_check.specs.Carried as carried;
ghost use Rattle.sim_flat_check.specs.Types as spec;

use sim_flat_scope::fault::note;
use sim_flat_scope::scope::look_up;
use sim_flat_scope::{Fault, Kind, Meaning, Scope, Type};
use sim_text_tree::declaration::Mode;
use sim_text_tree::expression::{Expression, Operand};
use sim_text_tree::name::Name;

/// The result of analyzing an expression.
#[derive(Clone, Copy)]
pub struct TypeResult {
    /// Its type, if it has one; an expression with a fault in it has none.
    pub type_: Option<Type>,
    /// Whether it contains a name.
    pub named: bool,
}

/// A name whose value is read.
#[tactic(auto, unfolding(crate::specs::Types::value_read, crate::specs::Carried::carried, sim_flat_scope::specs::Faults::earliest))]
fn value_read(meaning: Option<Meaning>, at: usize, first: &mut Option<Fault>) -> TypeResult
    ensures { record { type = result.type_; named = result.named; first = first.new } ≡ carried.carried first.old (spec.value_read at meaning) }
{
    let type_ = match meaning {
        None => {
            note(first, Kind::Unknown, at);
            None
        }
        Some(
            Meaning::Port {
                mode: Mode::Out,
                ..
            },
        ) => {
            note(first, Kind::ReadOut, at);
            None
        }
        Some(
            Meaning::Port { type_, .. }
            | Meaning::Signal { type_, .. }
            | Meaning::Variable { type_, .. },
        ) => type_,
        Some(Meaning::Truth(_)) => Some(Type::Boolean),
        Some(_) => {
            note(first, Kind::WrongKind, at);
            None
        }
    };
    TypeResult { type_, named: true }
}

/// A name whose events are used: boolean, unless it is at fault.
#[tactic(auto, unfolding(crate::specs::Types::signal_read, sim_flat_scope::specs::Faults::earliest))]
pub(crate) fn signal_read(
    meaning: Option<Meaning>,
    at: usize,
    first: &mut Option<Fault>,
) -> Option<Type>
    ensures type_ { result ≡ spec.boolean_unless (spec.signal_read at meaning) }
    ensures first { first.new ≡ earliest first.old (spec.signal_read at meaning) }
{
    match meaning {
        None => {
            note(first, Kind::Unknown, at);
            None
        }
        Some(
            Meaning::Port {
                mode: Mode::Out,
                ..
            },
        ) => {
            note(first, Kind::ReadOut, at);
            None
        }
        Some(Meaning::Port { .. } | Meaning::Signal { .. }) => Some(Type::Boolean),
        Some(_) => {
            note(first, Kind::WrongKind, at);
            None
        }
    }
}

/// The name of a called function: boolean, unless it is at fault.
#[tactic(auto, unfolding(crate::specs::Types::function_called, sim_flat_scope::specs::Faults::earliest))]
fn function_called(meaning: Option<Meaning>, at: usize, first: &mut Option<Fault>) -> Option<Type>
    ensures type_ { result ≡ spec.boolean_unless (spec.function_called at meaning) }
    ensures first { first.new ≡ earliest first.old (spec.function_called at meaning) }
{
    match meaning {
        None => {
            note(first, Kind::Unknown, at);
            None
        }
        Some(Meaning::Edge { .. }) => Some(Type::Boolean),
        Some(_) => {
            note(first, Kind::WrongKind, at);
            None
        }
    }
}

/// A call of an edge function.
#[tactic(auto, using(crate::proofs::TypeResults::call_rules), unfolding(crate::specs::Types::event_test, crate::specs::Carried::carried))]
fn call(
    inner: &Scope<'_>,
    outer: &Scope<'_>,
    function: &Name,
    argument: &Name,
    first: &mut Option<Fault>,
) -> TypeResult
    ensures { record { type = result.type_; named = result.named; first = first.new }
        ≡ carried.carried first.old (spec.event_test (spec.function_called function.now.at (means inner.now outer.now function.now.text)
        ++ spec.signal_read argument.now.at (means inner.now outer.now argument.now.text))) }
{
    let called = function_called(look_up(inner, outer, function.text()), function.at(), first);
    let tested = signal_read(look_up(inner, outer, argument.text()), argument.at(), first);
    let type_ = match called {
        None => None,
        Some(_) => tested,
    };
    TypeResult { type_, named: true }
}

/// The common type of two operands, or of a value and its target.
#[tactic(auto, unfolding(sim_flat_scope::specs::Faults::earliest))]
pub(crate) fn common(
    a: Option<Type>,
    b: Option<Type>,
    at: usize,
    first: &mut Option<Fault>,
) -> Option<Type>
    ensures type_ { result ≡ spec.common a b }
    ensures first { first.new ≡ earliest first.old (spec.clash a b at) }
{
    match (a, b) {
        (Some(Type::Logic), Some(Type::Logic)) | (Some(Type::Boolean), Some(Type::Boolean)) => a,
        (Some(_), Some(_)) => {
            note(first, Kind::TypeClash, at);
            None
        }
        _ => None,
    }
}

/// Disjunction that evaluates both operands, so that a proof knows both.
fn either(a: bool, b: bool) -> bool
    ensures { result ≡ (a || b) }
{
    a || b
}

/// An operator and the operand after it.
fn joined(
    before: TypeResult,
    at: usize,
    operand: TypeResult,
    first: &mut Option<Fault>,
) -> TypeResult
    ensures type_ { result.type_ ≡ spec.common before.type_ operand.type_ }
    ensures named { result.named ≡ (before.named || operand.named) }
    ensures first { first.new ≡ earliest first.old (spec.clash before.type_ operand.type_ at) }
{
    TypeResult {
        type_: common(before.type_, operand.type_, at, first),
        named: either(before.named, operand.named),
    }
}

/// The result of `=` or `/=`, from the combined result of its operands.
#[tactic(auto, unfolding(crate::specs::Carried::carried_compared, sim_flat_scope::specs::Faults::earliest))]
fn compared(both: TypeResult, at: usize, first: &mut Option<Fault>) -> TypeResult
    ensures { record { type = result.type_; named = result.named; first = first.new }
        ≡ carried.carried_compared (record { type = both.type_; named = both.named; first = first.old }) at }
{
    let type_ = match both.type_ {
        Some(Type::Logic) => {
            if both.named {
                Some(Type::Boolean)
            } else {
                note(first, Kind::Ambiguous, at);
                None
            }
        }
        same => same,
    };
    TypeResult {
        type_,
        named: both.named,
    }
}

/// A literal of type std_ulogic.
fn literal() -> TypeResult
    ensures type_ { result.type_ ≡ Some Logic }
    ensures named { result.named ≡ false }
{
    TypeResult {
        type_: Some(Type::Logic),
        named: false,
    }
}

/// An operator and the operand after it, given the result so far.
#[cycle(types)]
#[tactic(auto, using(crate::proofs::TypeResults::carried_rules))]
fn operand(
    inner: &Scope<'_>,
    outer: &Scope<'_>,
    before: TypeResult,
    next: &Operand,
    first: &mut Option<Fault>,
) -> TypeResult
    ensures { record { type = result.type_; named = result.named; first = first.new }
        ≡ carried.carried_on (record { type = before.type_; named = before.named; first = first.old })
        (spec.judged_operand (means inner.now outer.now) next.now) }
{
    let after = judge(inner, outer, &next.operand, first);
    joined(before, next.operator_at, after, first)
}

/// Operators and the operands after them, given the result so far.
#[cycle(types)]
#[tactic(auto, unfolding(crate::specs::Carried::carried_through))]
fn operands(
    inner: &Scope<'_>,
    outer: &Scope<'_>,
    before: TypeResult,
    rest: &[Operand],
    first: &mut Option<Fault>,
) -> TypeResult
    ensures { record { type = result.type_; named = result.named; first = first.new }
        ≡ carried.carried_through (means inner.now outer.now)
        (record { type = before.type_; named = before.named; first = first.old }) rest.now }
{
    let mut so_far = before;
    for next in rest {
        so_far = operand(inner, outer, so_far, next, first);
    }
    so_far
}

/// The type of an expression, if it has one, and whether it contains a name.
#[cycle(types)]
#[tactic(auto, using(crate::proofs::TypeResults::carried_rules))]
fn judge(
    inner: &Scope<'_>,
    outer: &Scope<'_>,
    expression: &Expression,
    first: &mut Option<Fault>,
) -> TypeResult
    ensures { record { type = result.type_; named = result.named; first = first.new }
        ≡ carried.carried first.old (spec.judged (means inner.now outer.now) expression.now) }
{
    match expression {
        Expression::Literal { .. } => literal(),
        Expression::Named(name) => {
            value_read(look_up(inner, outer, name.text()), name.at(), first)
        }
        Expression::Event(name) => TypeResult {
            type_: signal_read(look_up(inner, outer, name.text()), name.at(), first),
            named: true,
        },
        Expression::Call { function, argument } => { call(inner, outer, function, argument, first) }
        Expression::Parenthesized { inner: inside, .. } => {
            judge(inner, outer, inside.get(), first)
        }
        Expression::Not { operand, .. } => judge(inner, outer, operand.get(), first),
        Expression::Condition { at, operand } => {
            let left = literal();
            let operand = judge(inner, outer, operand.get(), first);
            let both = joined(left, *at, operand, first);
            compared(both, *at, first)
        }
        Expression::Comparison {
            left,
            at,
            right,
            ..
        } => {
            let left = judge(inner, outer, left.get(), first);
            let right = judge(inner, outer, right.get(), first);
            let both = joined(left, *at, right, first);
            compared(both, *at, first)
        }
        Expression::Chain {
            first: head,
            rest,
            ..
        } => {
            let before = judge(inner, outer, head.get(), first);
            operands(inner, outer, before, rest.as_slice(), first)
        }
    }
}

/// Records the faults in an expression; returns its type and whether it contains a name.
#[tactic(auto, unfolding(crate::specs::Carried::carried))]
pub fn expression(
    inner: &Scope<'_>,
    outer: &Scope<'_>,
    expression: &Expression,
    first: &mut Option<Fault>,
) -> TypeResult
    ensures type_ { result.type_ ≡ (spec.judged (means inner.now outer.now) expression.now).type }
    ensures named { result.named ≡ (spec.judged (means inner.now outer.now) expression.now).named }
    ensures first { first.new ≡ earliest first.old (spec.judged (means inner.now outer.now) expression.now).faults }
{
    judge(inner, outer, expression, first)
}
