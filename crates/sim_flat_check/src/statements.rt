//! Faults of assignments, sequences of statements and sensitivity lists (IEEE 1076-2008, 10 and
//! 11).

ghost use Rattle.std.specs.Prelude.{◌≡◌};
ghost use Rattle.sim_flat_scope.specs.Faults.{earliest};
ghost use Rattle.sim_flat_scope.specs.Scopes.{means};
ghost use Rattle.sim_flat_check.specs.Statements as spec;
ghost use Rattle.sim_flat_check.specs.Types as types;

use crate::types::signal_read;
use crate::waveforms::{condition, value, waveform, waveforms};
use sim_flat_scope::fault::note;
use sim_flat_scope::scope::look_up;
use sim_flat_scope::{Fault, Kind, Meaning, Scope, Type};
use sim_text_tree::declaration::Mode;
use sim_text_tree::name::Name;
use sim_text_tree::sequential::{
    Branch, Sequential, SignalAssignment, Statement, VariableAssignment,
};
use sim_text_tree::unit::Sensitivity;
use sim_text_tree::waveform::ConcurrentSignalAssignment;

/// Records the fault of the target of a signal assignment, and returns its type.
#[tactic(auto, unfolding(crate::specs::Statements::signal_target_faults, sim_flat_scope::specs::Faults::earliest))]
fn signal_target(meaning: Option<Meaning>, at: usize, first: &mut Option<Fault>) -> Option<Type>
    ensures type_ { result ≡ spec.signal_type meaning }
    ensures first { first.new ≡ earliest first.old (spec.signal_target_faults at meaning) }
{
    match meaning {
        None => {
            note(first, Kind::Unknown, at);
            None
        }
        Some(
            Meaning::Port {
                mode: Mode::In,
                type_,
                ..
            },
        ) => {
            note(first, Kind::WriteIn, at);
            type_
        }
        Some(Meaning::Port { type_, .. } | Meaning::Signal { type_, .. }) => type_,
        Some(_) => {
            note(first, Kind::WrongKind, at);
            None
        }
    }
}

/// Records the fault of the target of a variable assignment, and returns its type.
#[tactic(auto, unfolding(crate::specs::Statements::variable_target_faults, sim_flat_scope::specs::Faults::earliest))]
fn variable_target(meaning: Option<Meaning>, at: usize, first: &mut Option<Fault>) -> Option<Type>
    ensures type_ { result ≡ spec.variable_type meaning }
    ensures first { first.new ≡ earliest first.old (spec.variable_target_faults at meaning) }
{
    match meaning {
        None => {
            note(first, Kind::Unknown, at);
            None
        }
        Some(Meaning::Variable { type_, .. }) => type_,
        Some(_) => {
            note(first, Kind::WrongKind, at);
            None
        }
    }
}

/// Records the faults of a concurrent signal assignment.
#[tactic(auto, using(sim_flat_scope::proofs::Faults::of_both), unfolding(crate::specs::Statements::concurrent_assignment_faults))]
pub fn concurrent_assignment(
    inner: &Scope<'_>,
    outer: &Scope<'_>,
    assignment: &ConcurrentSignalAssignment,
    first: &mut Option<Fault>,
)
    ensures { first.new ≡ earliest first.old (spec.concurrent_assignment_faults (means inner.now outer.now) assignment.now) }
{
    let target = &assignment.target;
    let type_ = signal_target(look_up(inner, outer, target.text()), target.at(), first);
    waveforms(
        inner,
        outer,
        &assignment.delay,
        type_,
        &assignment.waveforms,
        first,
    );
}

/// Records the faults of a signal assignment in a process.
#[tactic(auto, using(sim_flat_scope::proofs::Faults::of_both), unfolding(crate::specs::Statements::signal_assignment_faults))]
fn signal_assignment(
    inner: &Scope<'_>,
    outer: &Scope<'_>,
    assignment: &SignalAssignment,
    first: &mut Option<Fault>,
)
    ensures { first.new ≡ earliest first.old (spec.signal_assignment_faults (means inner.now outer.now) assignment.now) }
{
    let target = &assignment.target;
    let type_ = signal_target(look_up(inner, outer, target.text()), target.at(), first);
    waveform(
        inner,
        outer,
        &assignment.delay,
        type_,
        assignment.waveform.as_slice(),
        first,
    );
}

/// Records the faults of a variable assignment.
#[tactic(auto, using(sim_flat_scope::proofs::Faults::of_both), unfolding(crate::specs::Statements::variable_assignment_faults))]
fn variable_assignment(
    inner: &Scope<'_>,
    outer: &Scope<'_>,
    assignment: &VariableAssignment,
    first: &mut Option<Fault>,
)
    ensures { first.new ≡ earliest first.old (spec.variable_assignment_faults (means inner.now outer.now) assignment.now) }
{
    let target = &assignment.target;
    let type_ = variable_target(look_up(inner, outer, target.text()), target.at(), first);
    value(inner, outer, type_, &assignment.value, first);
}

/// Records the faults of a statement without its label.
#[cycle(statements)]
#[tactic(auto, using(crate::proofs::Sequences::statement_rules), unfolding(sim_flat_scope::specs::Faults::earliest))]
fn statement(inner: &Scope<'_>, outer: &Scope<'_>, statement: &Statement, first: &mut Option<Fault>)
    ensures { first.new ≡ earliest first.old (spec.statement_faults (means inner.now outer.now) statement.now) }
{
    match statement {
        Statement::Signal(assignment) => signal_assignment(inner, outer, assignment, first),
        Statement::Variable(assignment) => variable_assignment(inner, outer, assignment, first),
        Statement::If {
            branches: all,
            otherwise,
            ..
        } => {
            branches(inner, outer, all.as_slice(), first);
            match otherwise {
                Some(statements) => sequence(inner, outer, statements.as_slice(), first),
                None => {}
            }
        }
        Statement::Null => {}
    }
}

/// Records the faults of a condition, and then of the statements under it.
#[cycle(statements)]
#[tactic(auto, using(crate::proofs::Sequences::branch_is, sim_flat_scope::proofs::Faults::of_both))]
fn if_branch(inner: &Scope<'_>, outer: &Scope<'_>, branch: &Branch, first: &mut Option<Fault>)
    ensures { first.new ≡ earliest first.old (spec.branch_faults (means inner.now outer.now) branch.now) }
{
    condition(inner, outer, &branch.condition, first);
    sequence(inner, outer, branch.statements.as_slice(), first);
}

/// Records the faults of the branches, in textual order.
#[cycle(statements)]
#[tactic(auto, unfolding(crate::specs::Statements::branches_faults, sim_flat_scope::specs::Faults::earliest))]
fn branches(inner: &Scope<'_>, outer: &Scope<'_>, branches: &[Branch], first: &mut Option<Fault>)
    ensures { first.new ≡ earliest first.old (spec.branches_faults (means inner.now outer.now) branches.now) }
{
    for each in branches {
        if_branch(inner, outer, each, first);
    }
}

/// Records the faults of a sequence of statements.
#[cycle(statements)]
#[tactic(auto, using(crate::proofs::Sequences::sequential_is), unfolding(crate::specs::Statements::sequence_faults, sim_flat_scope::specs::Faults::earliest))]
pub fn sequence(
    inner: &Scope<'_>,
    outer: &Scope<'_>,
    statements: &[Sequential],
    first: &mut Option<Fault>,
)
    ensures { first.new ≡ earliest first.old (spec.sequence_faults (means inner.now outer.now) statements.now) }
{
    for each in statements {
        statement(inner, outer, &each.statement, first);
    }
}

/// Records the fault of a name in a sensitivity list.
fn sensitive(inner: &Scope<'_>, outer: &Scope<'_>, name: &Name, first: &mut Option<Fault>)
    ensures { first.new ≡ earliest first.old (types.signal_read name.now.at (means inner.now outer.now name.now.text)) }
{
    signal_read(look_up(inner, outer, name.text()), name.at(), first);
}

/// Records the faults of the names in a sensitivity list.
#[tactic(auto, unfolding(crate::specs::Statements::signals_read, sim_flat_scope::specs::Faults::earliest))]
fn signals_read(inner: &Scope<'_>, outer: &Scope<'_>, names: &[Name], first: &mut Option<Fault>)
    ensures { first.new ≡ earliest first.old (spec.signals_read (means inner.now outer.now) names.now) }
{
    for name in names {
        sensitive(inner, outer, name, first);
    }
}

/// Records the faults of a sensitivity list.
#[tactic(auto, unfolding(crate::specs::Statements::sensitivity_faults, sim_flat_scope::specs::Faults::earliest))]
pub fn sensitivity(
    inner: &Scope<'_>,
    outer: &Scope<'_>,
    list: &Sensitivity,
    first: &mut Option<Fault>,
)
    ensures { first.new ≡ earliest first.old (spec.sensitivity_faults (means inner.now outer.now) list.now) }
{
    match list {
        Sensitivity::All => {}
        Sensitivity::Names(names) => signals_read(inner, outer, names.as_slice(), first),
    }
}
