//! Statements of a process (IEEE 1076-2008, 10).

ghost use Rattle.std.specs.Prelude.{◌≡◌};
ghost use Rattle.std.specs.Bool.{Decides};

use crate::expression::{BooleanExpression, LogicExpression};
use crate::waveform::Waveform;
use sim_logic::Time;
use sqlite_items::Items;

/// A delay mechanism (10.5.2.1).
#[derive(Clone, Copy, Debug, PartialEq, Eq)]
pub enum Delay {
    Transport,
    /// Inertial delay, whose rejection limit is the time of the first element.
    Inertial,
    /// Inertial delay with this rejection limit.
    Reject(Time),
}

/// A waveform and its condition (10.5.3).
#[derive(Drop)]
pub struct ConditionalWaveform {
    pub waveform: Waveform,
    pub condition: BooleanExpression,
}

/// The parts of a signal assignment (10.5.2, 10.5.3).
#[derive(Drop)]
pub struct SignalAssignment {
    /// The position of the target's driver among those of the process.
    pub driver: usize,
    pub delay: Delay,
    /// The waveforms with conditions, of which the first whose condition holds is assigned.
    pub conditional: Items<ConditionalWaveform>,
    /// The waveform assigned if no condition holds; without it, nothing is assigned then.
    pub otherwise: Option<Waveform>,
}

/// A sequential statement (10.1).
#[derive(Drop)]
#[cycle(statements)]
pub enum Statement {
    Signal(SignalAssignment),
    /// An assignment to a variable of type std_ulogic, by position (10.6).
    LogicVariable {
        place: usize,
        value: LogicExpression,
    },
    /// An assignment to a variable of type boolean, by position (10.6).
    BooleanVariable {
        place: usize,
        value: BooleanExpression,
    },
    /// An if statement (10.8): executes the first branch whose condition holds, or else the last
    /// statements.
    If {
        branches: Items<Branch>,
        otherwise: Items<Statement>,
    },
    /// A null statement (10.14).
    Null,
}

/// A condition, and the statements that are executed if it holds.
#[derive(Drop)]
#[cycle(statements)]
pub struct Branch {
    pub condition: BooleanExpression,
    pub statements: Items<Statement>,
}

impl ConditionalWaveform {
    /// Whether the two waveforms and their conditions are equal.
    fn same(&self, other: &ConditionalWaveform) -> bool
        ensures { Decides result (self.now ≡ other.now) }
    {
        self.waveform.same(&other.waveform) && self.condition.same(&other.condition)
    }
}

impl SignalAssignment {
    /// Whether the two assignments are equal.
    fn same(&self, other: &SignalAssignment) -> bool
        ensures { Decides result (self.now ≡ other.now) }
    {
        self.driver == other.driver
            && self.delay == other.delay
            && same_conditional_waveforms(self.conditional.as_slice(), other.conditional.as_slice())
            && same_last_waveform(&self.otherwise, &other.otherwise)
    }
}

/// Whether these are the same waveforms with their conditions, in the same order.
fn same_conditional_waveforms(
    waveforms: &[ConditionalWaveform],
    others: &[ConditionalWaveform],
) -> bool
    ensures { Decides result (waveforms.now ≡ others.now) }
{
    waveforms.len() == others.len()
        && waveforms
            .iter()
            .zip(others)
            .all(|(waveform, other)| waveform.same(other))
}

/// Whether both are the same waveform, or both are absent.
fn same_last_waveform(waveform: &Option<Waveform>, other: &Option<Waveform>) -> bool
    ensures { Decides result (waveform.now ≡ other.now) }
{
    match (waveform, other) {
        (None, None) => true,
        (Some(waveform), Some(other)) => waveform.same(other),
        _ => false,
    }
}

impl Statement {
    /// Whether the two statements are equal.
    #[cycle(nested_statements)]
    fn same(&self, other: &Statement) -> bool
        ensures { Decides result (self.now ≡ other.now) }
    {
        match (self, other) {
            (Self::Signal(assignment), Self::Signal(other)) => assignment.same(other),
            (
                Self::LogicVariable { place, value },
                Self::LogicVariable {
                    place: other_place,
                    value: other_value,
                },
            ) => *place == *other_place && value.same(other_value),
            (
                Self::BooleanVariable { place, value },
                Self::BooleanVariable {
                    place: other_place,
                    value: other_value,
                },
            ) => *place == *other_place && value.same(other_value),
            (
                Self::If {
                    branches,
                    otherwise,
                },
                Self::If {
                    branches: other_branches,
                    otherwise: other_otherwise,
                },
            ) => {
                same_branches(branches.as_slice(), other_branches.as_slice())
                    && same_statements(otherwise.as_slice(), other_otherwise.as_slice())
            }
            (Self::Null, Self::Null) => true,
            _ => false,
        }
    }
}

impl Branch {
    /// Whether the two branches are equal.
    #[cycle(nested_statements)]
    fn same(&self, other: &Branch) -> bool
        ensures { Decides result (self.now ≡ other.now) }
    {
        self.condition.same(&other.condition)
            && same_statements(self.statements.as_slice(), other.statements.as_slice())
    }
}

/// Whether these are the same statements, in the same order.
#[cycle(nested_statements)]
pub(crate) fn same_statements(statements: &[Statement], others: &[Statement]) -> bool
    ensures { Decides result (statements.now ≡ others.now) }
{
    if statements.len() != others.len() {
        return false;
    }
    for (i, statement) in statements.iter().enumerate() {
        if !statement.same(&others[i]) {
            return false;
        }
    }
    true
}

/// Whether these are the same branches, in the same order.
#[cycle(nested_statements)]
fn same_branches(branches: &[Branch], others: &[Branch]) -> bool
    ensures { Decides result (branches.now ≡ others.now) }
{
    if branches.len() != others.len() {
        return false;
    }
    for (i, branch) in branches.iter().enumerate() {
        if !branch.same(&others[i]) {
            return false;
        }
    }
    true
}
