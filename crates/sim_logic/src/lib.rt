//! The values of std_logic_1164, the operators of expressions, and times in femtoseconds.
#![tactic(auto)]

pub mod laws;
mod logic;
mod operator_symbol;
mod operators;
mod resolution;
mod time;

pub use logic::Logic;
pub use operator_symbol::{Logical, Relational};
pub use resolution::{resolve, resolve_two};
pub use time::{LATEST, Time, Unit};
