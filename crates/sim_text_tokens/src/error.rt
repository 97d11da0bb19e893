//! Faults of a text.

use std::alloc::{AllocError, AllocFailed};
use thiserror::Error;

/// A fault of a text. A place is the offset of a byte, from 0.
#[derive(Clone, Copy, Debug, PartialEq, Eq, Error)]
pub enum TextError {
    /// An allocation failed.
    #[error("Memory")]
    Memory,
    /// The text has more than 1,048,576 bytes.
    #[error("TooLong")]
    TooLong,
    /// No token begins with this byte.
    #[error("BadByte at {at}")]
    BadByte { at: usize },
    /// The `/*` of a comment that is never closed.
    #[error("OpenComment at {at}")]
    OpenComment { at: usize },
    /// An apostrophe that begins no character literal.
    #[error("BadLiteral at {at}")]
    BadLiteral { at: usize },
    /// The number of a time literal above 2^62 - 1 fs.
    #[error("TimeRange at {at}")]
    TimeRange { at: usize },
    /// A parenthesis or an `if` that is nested in 64 others.
    #[error("TooDeep at {at}")]
    TooDeep { at: usize },
    /// A token that cannot follow the tokens before it in any file, or the end of the text.
    #[error("Syntax at {at}")]
    Syntax { at: usize },
}

impl From<AllocError> for TextError {
    ghost use Rattle.std.specs.Prelude.{◌≡◌};
    ghost use Rattle.sim_text_tokens.specs.declared.error.TextError.TheVariants.{Memory};

    ghost from_gives = { λ _ e. e ≡ Memory };

    fn from(_: AllocError) -> Self {
        TextError::Memory
    }
}

impl<T: Drop> From<AllocFailed<T>> for TextError {
    ghost use Rattle.std.specs.Prelude.{◌≡◌};
    ghost use Rattle.sim_text_tokens.specs.declared.error.TextError.TheVariants.{Memory};

    ghost from_gives = { λ _ e. e ≡ Memory };

    fn from(_: AllocFailed<T>) -> Self {
        TextError::Memory
    }
}
