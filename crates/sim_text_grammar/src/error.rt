//! Why tokens have no syntax tree.

ghost use Rattle.std.specs.Prelude.{◌≡◌};
ghost use Rattle.sim_text_grammar.specs.declared.error.ParseError.TheVariants.{OutOfMemory};

use std::alloc::{AllocError, AllocFailed};

/// A fault. The number is how many tokens remain, the token at fault included.
#[derive(Clone, Copy)]
pub enum ParseError {
    OutOfMemory,
    /// The token cannot follow the tokens before it in any file, or the tokens end too early.
    Syntax(usize),
    /// A parenthesis or an `if` that is nested more deeply than allowed.
    TooDeep(usize),
    /// The number of a time that is too large.
    TimeRange(usize),
}

impl From<AllocError> for ParseError {
    ghost from_gives = { λ _ e. e ≡ OutOfMemory };

    fn from(_e: AllocError) -> ParseError {
        ParseError::OutOfMemory
    }
}

impl<T: Drop> From<AllocFailed<T>> for ParseError {
    ghost from_gives = { λ _ e. e ≡ OutOfMemory };

    fn from(_e: AllocFailed<T>) -> ParseError {
        ParseError::OutOfMemory
    }
}
