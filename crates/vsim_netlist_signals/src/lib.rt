//! The signals of a text, gates as expressions and assignments of VHDL, with delays, and the
//! statements that have been written.
#![tactic(auto)]

mod delays;
mod expressions;
mod function_text;
mod gate_text;
mod names;
mod signals;
mod statements;

pub use delays::{
    Delay, NamedDelay, delay_of, push_assignment, push_literal, push_stored, push_tristate,
};
pub use expressions::{Expression, literal, named};
pub use function_text::function_expression;
pub use gate_text::gate_expression;
pub use names::Names;
pub use signals::{Signals, make_signals};
pub use statements::Statements;
