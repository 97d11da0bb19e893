//! Classes of the pieces of a text.

/// The class of a piece of text: a separator, a comment, or a class of tokens (IEEE 1076-2008, 15).
#[derive(Clone, Copy)]
pub enum Class {
    /// One space, tab or line end (15.3).
    Separator,
    /// From `--` to the end of the line, or from `/*` to `*/` (15.9).
    Comment,
    /// An identifier or a reserved word (15.4, 15.10).
    Word,
    /// A decimal literal without a point or exponent (15.5).
    Number,
    /// A character literal of a value of `std_ulogic` (15.6).
    Literal,
    /// An apostrophe after a name (15.3).
    Tick,
    /// Any other delimiter (15.3).
    Delimiter,
}
