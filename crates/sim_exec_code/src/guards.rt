//! The guards of bodies: an edge without which a body does nothing, unless its reset is active.

ghost use Rattle.std.specs.Prelude.{ℕ, ◌≡◌, ◌∷◌, ◌++◌, [], ◌&&◌, false, None, Some, List, map, IfSome};
ghost use Rattle.sim_flat_design.specs.declared.held.Held.{Held as held};
ghost use Rattle.sim_flat_design.specs.declared.expression.LogicExpression.TheVariants as logic;
ghost use Rattle.sim_flat_design.specs.declared.expression.BooleanExpression.TheVariants as boolean;
ghost use Rattle.sim_flat_design.specs.declared.statement.Statement.TheVariants as variants;
ghost use Rattle.sim_flat_design.specs.declared.statement.Branch.{Branch as branch};
ghost use Rattle.sim_flat_design.specs.declared.statement.ConditionalWaveform.{ConditionalWaveform as waveform};
ghost use Rattle.sim_flat_design.specs.declared.statement.Statement.TheViews as views;
ghost use Rattle.sim_standard.specs.declared.net_view.NetView.{NetView as view};
ghost use Rattle.sim_standard.specs.Expressions.{boolean_value, has_edge};
ghost use Rattle.sim_exec_code.specs.Guards as spec;

use crate::program::{EdgeKind, Guard, Level, Values};
use sim_flat_design::expression::{BooleanExpression, LogicExpression};
use sim_flat_design::statement::{Branch, ConditionalWaveform, SignalAssignment, Statement};
use sim_logic::{Logic, Logical, Relational};

/// The level that a comparison tests, if it is one of a port or signal with a literal (9.2.3).
fn compared_level(
    left: &LogicExpression,
    operator: Relational,
    right: &LogicExpression,
) -> Option<Level>
    ensures { IfSome result (spec.TestsLevel (boolean.LogicComparison left.now operator right.now)) }
{
    let Relational::Equal = operator else {
        return None;
    };
    let LogicExpression::Object(object) = left else {
        return None;
    };
    let LogicExpression::Literal(value) = right else {
        return None;
    };
    Some(Level {
        object: *object,
        values: Values::Only(*value),
    })
}

/// The level that a value tests to which the condition operator is applied (9.2.9), if it is a port
/// or signal or the negation of one.
fn level_of_condition(operand: &LogicExpression) -> Option<Level>
    ensures { IfSome result (spec.TestsLevel (boolean.Condition operand.now)) }
{
    match operand {
        LogicExpression::Object(object) => Some(Level {
            object: *object,
            values: Values::High,
        }),
        LogicExpression::Not(negated) => low_of(negated.get()),
        _ => None,
    }
}

/// The level that the negation of a value tests, if it is a port or signal.
fn low_of(operand: &LogicExpression) -> Option<Level>
    ensures { IfSome result (spec.TestsLevel (boolean.Condition (logic.Not operand.now))) }
{
    match operand {
        LogicExpression::Object(object) => Some(Level {
            object: *object,
            values: Values::Low,
        }),
        _ => None,
    }
}

/// The level that a condition tests, if it tests nothing else, as `reset = '1'`
/// and `reset` do.
fn tested_level(condition: &BooleanExpression) -> Option<Level>
    ensures { IfSome result (spec.TestsLevel condition.now) }
{
    match condition {
        BooleanExpression::LogicComparison {
            left,
            operator,
            right,
        } => compared_level(left.get(), *operator, right.get()),
        BooleanExpression::Condition(operand) => level_of_condition(operand),
        _ => None,
    }
}

/// The edge that an event and a level test together, if they are of one port or signal.
fn event_to(event: &BooleanExpression, level: &BooleanExpression) -> Option<(EdgeKind, usize)>
    ensures { IfSome result (λ r. (look : ℕ → view) (variables : List held)
        → (boolean_value look variables event.now && boolean_value look variables level.now) ≡ spec.occurs r.0 (look r.1)) }
{
    let BooleanExpression::Event(object) = event else {
        return None;
    };
    let Some(level) = tested_level(level) else {
        return None;
    };
    let Values::Only(value) = level.values else {
        return None;
    };
    if level.object == *object {
        Some((EdgeKind::To(value), *object))
    } else {
        None
    }
}

/// The edge that two conditions test together.
fn edge_of_both(first: &BooleanExpression, second: &BooleanExpression) -> Option<(EdgeKind, usize)>
    ensures { IfSome result (λ r. (look : ℕ → view) (variables : List held)
        → (boolean_value look variables first.now && boolean_value look variables second.now) ≡ spec.occurs r.0 (look r.1)) }
{
    match event_to(first, second) {
        None => event_to(second, first),
        Some(edge) => Some(edge),
    }
}

/// The edge that operands of an operator test, if they test nothing else.
fn edge_of_chain(
    operator: Logical,
    first: &BooleanExpression,
    rest: &[BooleanExpression],
) -> Option<(EdgeKind, usize)>
    ensures { IfSome result (λ r. spec.TestsEdge (boolean.Chain operator first.now rest.now) r.0 r.1) }
{
    let Logical::And = operator else {
        return None;
    };
    match rest {
        [second] => edge_of_both(first, second),
        _ => None,
    }
}

/// The kind of a rising or, if `rising` is false, falling edge.
fn kind_of(rising: bool) -> EdgeKind
    ensures { (net : view) → spec.occurs result net ≡ has_edge rising net }
{
    if rising {
        EdgeKind::Rising
    } else {
        EdgeKind::Falling
    }
}

/// The edge that a condition tests, if it tests nothing else.
fn tested_edge(condition: &BooleanExpression) -> Option<(EdgeKind, usize)>
    ensures { IfSome result (λ r. spec.TestsEdge condition.now r.0 r.1) }
{
    match condition {
        BooleanExpression::Edge { rising, object } => Some((kind_of(*rising), *object)),
        BooleanExpression::Chain {
            operator,
            first,
            rest,
        } => edge_of_chain(*operator, first.get(), rest.as_slice()),
        _ => None,
    }
}

/// The guard of the last of some conditions, whose reset the others test.
fn guard_of(last: &BooleanExpression, reset: Option<Level>) -> Option<Guard>
    ensures { IfSome result (λ g. spec.TestsEdge last.now g.kind g.object × (g.reset ≡ reset)) }
{
    match tested_edge(last) {
        None => None,
        Some((kind, object)) => Some(Guard {
            kind,
            object,
            reset,
        }),
    }
}

/// The reset that a condition tests, if it tests nothing else.
fn tested_reset(condition: &BooleanExpression) -> Option<Option<Level>>
    ensures { IfSome result (spec.TestReset (condition.now ∷ [])) }
{
    match tested_level(condition) {
        None => None,
        Some(level) => Some(Some(level)),
    }
}

/// The reset that these branches test, if they test nothing else.
fn reset_of_branches(branches: &[Branch]) -> Option<Option<Level>>
    ensures { IfSome result (spec.TestReset (map (λ (b : branch). (views.out-Branch b).condition) branches.now)) }
{
    match branches {
        [] => Some(None),
        [only] => tested_reset(&only.condition),
        _ => None,
    }
}

/// The branches of a single if statement without `else` (10.8).
fn branches_of(statements: &[Statement]) -> Option<&[Branch]>
    ensures { IfSome result (λ bs. statements.now ≡ variants.If bs.now [] ∷ []) }
{
    match statements {
        [
            Statement::If {
                branches,
                otherwise,
            },
        ] if otherwise.as_slice().is_empty() => Some(branches.as_slice()),
        _ => None,
    }
}

/// The branches of such an if statement before the last, the last, and the reset that those before
/// it test, if they test nothing else.
fn arms_of(statements: &[Statement]) -> Option<(&[Branch], &Branch, Option<Level>)>
    ensures whole { IfSome result (λ r. statements.now ≡ variants.If (r.0.now ++ r.1.now ∷ []) [] ∷ []) }
    ensures reset { IfSome result (λ r. spec.TestReset (map (λ (b : branch). (views.out-Branch b).condition) r.0.now) r.2) }
{
    let Some(branches) = branches_of(statements) else {
        return None;
    };
    let [before @ .., last] = branches else {
        return None;
    };
    match reset_of_branches(before) {
        None => None,
        Some(reset) => Some((before, last, reset)),
    }
}

/// The guard of a single if statement without `else` whose last condition is an edge, the branches
/// before the last, and the last. Speed alone depends on one that is found: where none is, the
/// statements are executed as they stand.
pub fn guarded_if(statements: &[Statement]) -> Option<(Guard, &[Branch], &Branch)>
    ensures { IfSome result (λ r. spec.IsGuardedIf statements.now r.0 r.1.now r.2.now) }
{
    let Some((before, last, reset)) = arms_of(statements) else {
        return None;
    };
    match guard_of(&last.condition, reset) {
        None => None,
        Some(guard) => Some((guard, before, last)),
    }
}

/// The reset that the conditions of waveforms test, if they test nothing else.
fn reset_of_waveforms(waveforms: &[ConditionalWaveform]) -> Option<Option<Level>>
    ensures { IfSome result (spec.TestReset (map (λ (c : waveform). c.condition) waveforms.now)) }
{
    match waveforms {
        [] => Some(None),
        [only] => tested_reset(&only.condition),
        _ => None,
    }
}

/// A single conditional signal assignment without a last `else` (10.5.3).
fn assignment_of(statements: &[Statement]) -> Option<&SignalAssignment>
    ensures { IfSome result (λ a. (statements.now ≡ variants.Signal a.now ∷ []) × (a.now.otherwise ≡ None)) }
{
    match statements {
        [Statement::Signal(assignment)] if assignment.otherwise.is_none() => Some(assignment),
        _ => None,
    }
}

/// Such an assignment, its waveforms before the last, the last, and the reset that those before it
/// test, if they test nothing else.
fn waveforms_of(
    statements: &[Statement],
) -> Option<
    (
        &SignalAssignment,
        &[ConditionalWaveform],
        &ConditionalWaveform,
        Option<Level>,
    ),
>
    ensures whole { IfSome result (λ r. (statements.now ≡ variants.Signal r.0.now ∷ []) × (r.0.now.otherwise ≡ None)) }
    ensures waveforms { IfSome result (λ r. r.0.now.conditional ≡ r.1.now ++ r.2.now ∷ []) }
    ensures reset { IfSome result (λ r. spec.TestReset (map (λ (c : waveform). c.condition) r.1.now) r.3) }
{
    let Some(assignment) = assignment_of(statements) else {
        return None;
    };
    let [before @ .., last] = assignment.conditional.as_slice() else {
        return None;
    };
    match reset_of_waveforms(before) {
        None => None,
        Some(reset) => Some((assignment, before, last, reset)),
    }
}

/// The guard of a single conditional signal assignment without a last `else` whose last condition
/// is an edge, the assignment, the waveforms before the last, and the last. Speed alone depends on
/// one that is found, as above.
pub fn guarded_assignment(
    statements: &[Statement],
) -> Option<
    (
        Guard,
        &SignalAssignment,
        &[ConditionalWaveform],
        &ConditionalWaveform,
    ),
>
    ensures { IfSome result (λ r. spec.IsGuardedAssignment statements.now r.0 r.1.now r.2.now r.3.now) }
{
    let Some((assignment, before, last, reset)) = waveforms_of(statements) else {
        return None;
    };
    match guard_of(&last.condition, reset) {
        None => None,
        Some(guard) => Some((guard, assignment, before, last)),
    }
}

/// An edge without which a condition does not hold that is one of several operands.
fn edge_among(
    operator: Logical,
    first: &BooleanExpression,
    rest: &[BooleanExpression],
) -> Option<(EdgeKind, usize)>
    ensures { IfSome result (λ r. spec.NeedsEdge (boolean.Chain operator first.now rest.now) r.0 r.1) }
{
    let Logical::And = operator else {
        return None;
    };
    let [second, ..] = rest else {
        return None;
    };
    match tested_edge(first) {
        Some(edge) => Some(edge),
        None => edge_beside(first, second),
    }
}

/// An edge that the second of two operands tests, or both together.
fn edge_beside(first: &BooleanExpression, second: &BooleanExpression) -> Option<(EdgeKind, usize)>
    ensures { IfSome result (λ r. (look : ℕ → view) (variables : List held) → spec.occurs r.0 (look r.1) ≡ false
        → (boolean_value look variables first.now && boolean_value look variables second.now) ≡ false) }
{
    match tested_edge(second) {
        Some(edge) => Some(edge),
        None => edge_of_both(first, second),
    }
}

/// An edge without which a condition does not hold.
fn needed_edge(condition: &BooleanExpression) -> Option<(EdgeKind, usize)>
    ensures { IfSome result (λ r. spec.NeedsEdge condition.now r.0 r.1) }
{
    match condition {
        BooleanExpression::Chain {
            operator,
            first,
            rest,
        } => edge_among(*operator, first.get(), rest.as_slice()),
        _ => None,
    }
}

/// The guard whose edge the last of some conditions needs, and whose reset the others test.
fn needed_guard(last: &BooleanExpression, reset: Option<Level>) -> Option<Guard>
    ensures { IfSome result (λ g. spec.NeedsEdge last.now g.kind g.object × (g.reset ≡ reset)) }
{
    match needed_edge(last) {
        None => None,
        Some((kind, object)) => Some(Guard {
            kind,
            object,
            reset,
        }),
    }
}

/// The guard of an if statement whose last condition needs more than an edge.
fn needed_by_if(statements: &[Statement]) -> Option<Guard>
    ensures { IfSome result (λ g. spec.IsGuarded (Some g) statements.now statements.now) }
{
    match arms_of(statements) {
        None => None,
        Some((_before, last, reset)) => needed_guard(&last.condition, reset),
    }
}

/// The guard of a conditional signal assignment whose last condition needs more than an edge.
fn needed_by_assignment(statements: &[Statement]) -> Option<Guard>
    ensures { IfSome result (λ g. spec.IsGuarded (Some g) statements.now statements.now) }
{
    match waveforms_of(statements) {
        None => None,
        Some((_assignment, _before, last, reset)) => needed_guard(&last.condition, reset),
    }
}

/// The guard of statements that are executed as a whole where it is not idle. Speed alone depends on
/// one that is found, as above.
pub fn guard_of_all(statements: &[Statement]) -> Option<Guard>
    ensures { spec.IsGuarded result statements.now statements.now }
{
    match needed_by_if(statements) {
        Some(guard) => Some(guard),
        None => needed_by_assignment(statements),
    }
}
