//! The text of files in the standard delay format: tokens, names, numbers and conditions.
#![tactic(auto)]

mod conditions;
mod marks;
mod names;
mod numbers;
mod tokens;

pub use conditions::read_condition;
pub use names::{Hierarchical, parts_of, push_part};
pub use numbers::{Number, scale_of, time_of};
pub use tokens::{Token, Tokens, tokens_of};
