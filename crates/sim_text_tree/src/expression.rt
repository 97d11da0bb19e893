//! Expressions (IEEE 1076-2008, 9).

use crate::name::Name;
use sim_logic::{Logic, Logical, Relational};
use sqlite_items::{Boxed, Items};

/// An expression (9.1). A place is the offset of the first byte of a token.
///
/// The grammar (`specs/Grammar.antt`) restricts the operands: those of a chain are not chains,
/// those of a comparison are neither chains nor comparisons, and those of `not` and `??` are
/// primaries.
#[derive(Drop)]
#[cycle(expression)]
pub enum Expression {
    /// A character literal.
    Literal {
        value: Logic,
        at: usize,
    },
    /// A signal, a port, a variable, `true` or `false`.
    Named(Name),
    /// `NAME ' event` (16.2).
    Event(Name),
    /// `FUNCTION ( ARGUMENT )` (9.3.4).
    Call {
        function: Name,
        argument: Name,
    },
    /// `( EXPRESSION )`, with the place of the `(`.
    Parenthesized {
        at: usize,
        inner: Boxed<Expression>,
    },
    /// `not OPERAND`, with the place of the `not` (9.2.2).
    Not {
        at: usize,
        operand: Boxed<Expression>,
    },
    /// `?? OPERAND`, the condition operator, with the place of the `??` (9.2.9).
    Condition {
        at: usize,
        operand: Boxed<Expression>,
    },
    /// Two operands, the relational operator between them, and its place (9.2.3).
    Comparison {
        left: Boxed<Expression>,
        operator: Relational,
        at: usize,
        right: Boxed<Expression>,
    },
    /// A logical operator between adjacent operands, which are grouped from the left (9.2.2).
    /// `nand` and `nor` have two operands.
    Chain {
        operator: Logical,
        first: Boxed<Expression>,
        rest: Items<Operand>,
    },
}

/// The place of a logical operator, and the operand after it.
#[derive(Drop)]
#[cycle(expression)]
pub struct Operand {
    pub operator_at: usize,
    pub operand: Expression,
}

impl Expression {
    ghost use Rattle.std.specs.Prelude.{◌≡◌};
    ghost use Rattle.sim_text_tree.specs.Starts.{start_of};

    /// The offset of its first token.
    #[tactic(auto, using(crate::proofs::ExpressionStarts::starts))]
    pub fn start(&self) -> usize
        ensures { result ≡ start_of self.now }
    {
        match self {
            Expression::Literal { at, .. }
            | Expression::Parenthesized { at, .. }
            | Expression::Not { at, .. }
            | Expression::Condition { at, .. } => *at,
            Expression::Named(name) | Expression::Event(name) => name.at(),
            Expression::Call { function, .. } => function.at(),
            Expression::Comparison { left, .. } => left.get().start(),
            Expression::Chain { first, .. } => first.get().start(),
        }
    }
}
