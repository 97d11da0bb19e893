//! The values of expressions (IEEE 1076-2008, 9).

ghost use Rattle.std.specs.Prelude.{◌≡◌, fold, map, slice_get};
ghost use Rattle.sim_standard.specs.Expressions as spec;

use crate::view::Nets;
use sim_flat_design::Held;
use sim_flat_design::expression::{BooleanExpression, LogicExpression};
use sim_logic::{Logic, Logical, Relational};
use sim_standard::NetView;

/// A logical operator on two values of std_ulogic (9.2.2).
fn logic_operation(operator: Logical, left: Logic, right: Logic) -> Logic
    ensures { result ≡ spec.logic_operation operator left right }
{
    match operator {
        Logical::And => left.and(right),
        Logical::Or => left.or(right),
        Logical::Xor => left.xor(right),
        Logical::Xnor => left.xnor(right),
        Logical::Nand => left.nand(right),
        Logical::Nor => left.nor(right),
    }
}

/// The value of `=` or `/=`, given whether the operands are equal (9.2.3).
fn relation(operator: Relational, same: bool) -> bool
    ensures { result ≡ spec.relation operator same }
{
    match operator {
        Relational::Equal => same,
        Relational::Unequal => !same,
    }
}

/// The condition operator `??` on a value of std_ulogic (9.2.9).
fn condition(value: Logic) -> bool
    ensures { result ≡ spec.condition value }
{
    matches!(value, Logic::One | Logic::H)
}

/// The value of the variable at a position, which is of type std_ulogic.
fn bit(variables: &[Held], place: usize) -> Logic
    ensures { result ≡ spec.bit_of (slice_get variables.now place) }
{
    match variables.get(place) {
        Some(Held::Bit(value)) => *value,
        _ => Logic::U,
    }
}

/// The value of the variable at a position, which is of type boolean.
fn truth(variables: &[Held], place: usize) -> bool
    ensures { result ≡ spec.truth_of (slice_get variables.now place) }
{
    match variables.get(place) {
        Some(Held::Truth(value)) => *value,
        _ => false,
    }
}

/// Whether a net has a rising edge or, if `rising` is false, a falling edge (IEEE 1164).
fn has_edge(rising: bool, net: NetView) -> bool
    ensures { result ≡ spec.has_edge rising net }
{
    if rising {
        net.event && Logic::rises(net.before, net.value)
    } else {
        net.event && Logic::falls(net.before, net.value)
    }
}

/// The value of an expression of type std_ulogic.
#[cycle(logic_values)]
#[tactic(auto, using(crate::proofs::ValueRules::logics_are))]
pub fn logic_value<N: Nets>(nets: &N, variables: &[Held], expression: &LogicExpression) -> Logic
    ensures { result ≡ spec.logic_value (N.look nets.now) variables.now expression.now }
{
    match expression {
        LogicExpression::Literal(value) => *value,
        LogicExpression::Object(place) => nets.view(*place).value,
        LogicExpression::Variable(place) => bit(variables, *place),
        LogicExpression::Not(operand) => logic_value(nets, variables, operand.get()).not(),
        LogicExpression::Chain {
            operator,
            first,
            rest,
        } => {
            let value = logic_value(nets, variables, first.get());
            logic_chain(nets, variables, *operator, value, rest.as_slice())
        }
    }
}

/// The operator applied to a value and those of the expressions, from left to right.
#[cycle(logic_values)]
#[inline(never)]
fn logic_chain<N: Nets>(
    nets: &N,
    variables: &[Held],
    operator: Logical,
    first: Logic,
    rest: &[LogicExpression],
) -> Logic
    ensures { result ≡ fold (spec.logic_operation operator) first (map (spec.logic_value (N.look nets.now) variables.now) rest.now) }
{
    let mut value = first;
    for operand in rest {
        value = logic_operation(operator, value, logic_value(nets, variables, operand));
    }
    value
}

/// The value of an expression of type boolean.
#[cycle(boolean_values)]
#[tactic(auto, using(crate::proofs::ValueRules::booleans_are))]
pub fn boolean_value<N: Nets>(nets: &N, variables: &[Held], expression: &BooleanExpression) -> bool
    ensures { result ≡ spec.boolean_value (N.look nets.now) variables.now expression.now }
{
    match expression {
        BooleanExpression::Literal(value) => *value,
        BooleanExpression::Variable(place) => truth(variables, *place),
        BooleanExpression::Event(object) => nets.view(*object).event,
        BooleanExpression::Edge { rising, object } => has_edge(*rising, nets.view(*object)),
        BooleanExpression::Not(operand) => !boolean_value(nets, variables, operand.get()),
        BooleanExpression::Chain {
            operator,
            first,
            rest,
        } => {
            let value = boolean_value(nets, variables, first.get());
            boolean_chain(nets, variables, *operator, value, rest.as_slice())
        }
        BooleanExpression::Condition(operand) => condition(logic_value(nets, variables, operand)),
        BooleanExpression::LogicComparison {
            left,
            operator,
            right,
        } => {
            let left = logic_value(nets, variables, left.get());
            let right = logic_value(nets, variables, right.get());
            relation(*operator, left == right)
        }
        BooleanExpression::BooleanComparison {
            left,
            operator,
            right,
        } => {
            let left = boolean_value(nets, variables, left.get());
            let right = boolean_value(nets, variables, right.get());
            relation(*operator, left == right)
        }
    }
}

/// The operator applied to a value and those of the expressions, from left to right. For `and`,
/// `or`, `nand` and `nor`, the right operand is evaluated only if the left does not decide (9.2.2).
#[cycle(boolean_values)]
#[inline(never)]
fn boolean_chain<N: Nets>(
    nets: &N,
    variables: &[Held],
    operator: Logical,
    first: bool,
    rest: &[BooleanExpression],
) -> bool
    ensures { result ≡ fold (spec.boolean_operation operator) first (map (spec.boolean_value (N.look nets.now) variables.now) rest.now) }
{
    let mut value = first;
    for operand in rest {
        value = match operator {
            Logical::And => value && boolean_value(nets, variables, operand),
            Logical::Or => value || boolean_value(nets, variables, operand),
            Logical::Xor => value != boolean_value(nets, variables, operand),
            Logical::Xnor => value == boolean_value(nets, variables, operand),
            Logical::Nand => !(value && boolean_value(nets, variables, operand)),
            Logical::Nor => !(value || boolean_value(nets, variables, operand)),
        };
    }
    value
}
