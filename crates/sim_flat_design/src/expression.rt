//! Expressions of a process (IEEE 1076-2008, 9), by type, so that each is well typed by
//! construction.
//!
//! Signals and ports are given by their position in the architecture, ports first, and variables by
//! their position in the process. Parentheses are not kept. Only operands are recursive, and the
//! operands of a chain are a list.

ghost use Rattle.std.specs.Prelude.{◌≡◌};
ghost use Rattle.std.specs.Bool.{Decides};

use sim_logic::{Logic, Logical, Relational};
use sqlite_items::{Boxed, Items};

/// An expression of type std_ulogic.
#[derive(Drop)]
pub enum LogicExpression {
    Literal(Logic),
    /// A signal or port.
    Object(usize),
    Variable(usize),
    /// `not` of the operand (9.2.2).
    Not(Boxed<LogicExpression>),
    /// The operator between adjacent operands, grouped from the left (9.2.2).
    Chain {
        operator: Logical,
        first: Boxed<LogicExpression>,
        rest: Items<LogicExpression>,
    },
}

/// An expression of type boolean.
#[derive(Drop)]
pub enum BooleanExpression {
    /// `true` or `false`.
    Literal(bool),
    Variable(usize),
    /// `'event` of a signal or port (16.2).
    Event(usize),
    /// `rising_edge` of a signal or port, or `falling_edge` if not `rising` (IEEE 1164).
    Edge {
        rising: bool,
        object: usize,
    },
    /// `not` of the operand (9.2.2).
    Not(Boxed<BooleanExpression>),
    /// The operator between adjacent operands, grouped from the left (9.2.2).
    Chain {
        operator: Logical,
        first: Boxed<BooleanExpression>,
        rest: Items<BooleanExpression>,
    },
    /// `??` of a value of std_ulogic, explicit or applied implicitly to a condition (9.2.9).
    Condition(LogicExpression),
    /// `=` or `/=` of values of std_ulogic (9.2.3).
    LogicComparison {
        left: Boxed<LogicExpression>,
        operator: Relational,
        right: Boxed<LogicExpression>,
    },
    /// `=` or `/=` of boolean values (9.2.3).
    BooleanComparison {
        left: Boxed<BooleanExpression>,
        operator: Relational,
        right: Boxed<BooleanExpression>,
    },
}

impl LogicExpression {
    /// Whether the two expressions are equal.
    #[cycle(logic_expressions)]
    pub(crate) fn same(&self, other: &LogicExpression) -> bool
        ensures { Decides result (self.now ≡ other.now) }
    {
        match other {
            Self::Literal(value) => matches!(self, Self::Literal(own) if own == value),
            Self::Object(place) => matches!(self, Self::Object(own) if own == place),
            Self::Variable(place) => matches!(self, Self::Variable(own) if own == place),
            Self::Not(operand) => matches!(self, Self::Not(own) if own.get().same(operand.get())),
            Self::Chain {
                operator,
                first,
                rest,
            } => matches!(
                self,
                Self::Chain { operator: own, first: own_first, rest: own_rest }
                    if own == operator && own_first.get().same(first.get()) && same_logic_expressions(own_rest.as_slice(), rest.as_slice())
            ),
        }
    }
}

/// Whether these are the same expressions, in the same order.
#[cycle(logic_expressions)]
fn same_logic_expressions(expressions: &[LogicExpression], others: &[LogicExpression]) -> bool
    ensures { Decides result (expressions.now ≡ others.now) }
{
    if expressions.len() != others.len() {
        return false;
    }
    for (i, expression) in expressions.iter().enumerate() {
        if !expression.same(&others[i]) {
            return false;
        }
    }
    true
}

impl BooleanExpression {
    /// Whether the two expressions are equal.
    #[cycle(boolean_expressions)]
    pub(crate) fn same(&self, other: &BooleanExpression) -> bool
        ensures { Decides result (self.now ≡ other.now) }
    {
        match other {
            Self::Literal(value) => matches!(self, Self::Literal(own) if own == value),
            Self::Variable(place) => matches!(self, Self::Variable(own) if own == place),
            Self::Event(object) => matches!(self, Self::Event(own) if own == object),
            Self::Edge { rising, object } =>
                matches!(self, Self::Edge { rising: own, object: own_object } if own == rising && own_object == object),
            Self::Not(operand) => matches!(self, Self::Not(own) if own.get().same(operand.get())),
            Self::Chain {
                operator,
                first,
                rest,
            } => matches!(
                self,
                Self::Chain { operator: own, first: own_first, rest: own_rest }
                    if own == operator && own_first.get().same(first.get()) && same_boolean_expressions(own_rest.as_slice(), rest.as_slice())
            ),
            Self::Condition(operand) => matches!(self, Self::Condition(own) if own.same(operand)),
            Self::LogicComparison {
                left,
                operator,
                right,
            } => matches!(
                self,
                Self::LogicComparison { left: own_left, operator: own, right: own_right }
                    if own == operator && own_left.get().same(left.get()) && own_right.get().same(right.get())
            ),
            Self::BooleanComparison {
                left,
                operator,
                right,
            } => matches!(
                self,
                Self::BooleanComparison { left: own_left, operator: own, right: own_right }
                    if own == operator && own_left.get().same(left.get()) && own_right.get().same(right.get())
            ),
        }
    }
}

/// Whether these are the same expressions, in the same order.
#[cycle(boolean_expressions)]
fn same_boolean_expressions(expressions: &[BooleanExpression], others: &[BooleanExpression]) -> bool
    ensures { Decides result (expressions.now ≡ others.now) }
{
    if expressions.len() != others.len() {
        return false;
    }
    for (i, expression) in expressions.iter().enumerate() {
        if !expression.same(&others[i]) {
            return false;
        }
    }
    true
}
