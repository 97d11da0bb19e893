//! Sequential statements (IEEE 1076-2008, 10).

use crate::expression::Expression;
use crate::name::Name;
use crate::waveform::{DelayMechanism, Waveform};
use sqlite_items::Items;

/// A signal assignment statement in a process (10.5.2).
#[derive(Drop)]
pub struct SignalAssignment {
    pub target: Name,
    pub delay: DelayMechanism,
    pub waveform: Waveform,
}

/// A variable assignment statement (10.6).
#[derive(Drop)]
pub struct VariableAssignment {
    pub target: Name,
    pub value: Expression,
}

/// A sequential statement and its label, if it has one (10.1).
#[derive(Drop)]
#[cycle(sequential)]
pub struct Sequential {
    pub label: Option<Name>,
    pub statement: Statement,
}

/// A sequential statement without its label.
#[derive(Drop)]
#[cycle(sequential)]
pub enum Statement {
    Signal(SignalAssignment),
    Variable(VariableAssignment),
    /// An if statement (10.8).
    If {
        /// The conditions after `if` and each `elsif` with their statements, in order.
        branches: Items<Branch>,
        /// The statements after `else`, if it is written.
        otherwise: Option<Items<Sequential>>,
        /// Whether the label is written again at the end.
        label_repeated: bool,
    },
    /// A null statement (10.14).
    Null,
}

/// A condition, and the statements after its `then`.
#[derive(Drop)]
#[cycle(sequential)]
pub struct Branch {
    pub condition: Expression,
    pub statements: Items<Sequential>,
}
