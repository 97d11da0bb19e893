//! Kinds of tokens.

/// The kind of a token (IEEE 1076-2008, 15).
#[derive(Clone, Copy, PartialEq, Eq)]
pub enum Kind {
    /// A word that is not reserved.
    Word,
    /// A decimal integer.
    Number,
    /// A character literal.
    Literal,
    /// The apostrophe of an attribute name.
    Tick,
    /// `(`
    LeftParen,
    /// `)`
    RightParen,
    /// `;`
    Semicolon,
    /// `:`
    Colon,
    /// `,`
    Comma,
    /// `.`
    Dot,
    /// `<=`
    SignalAssign,
    /// `:=`
    VariableAssign,
    /// `=>`
    Arrow,
    /// `=`
    Equal,
    /// `/=`
    Unequal,
    /// `??`
    Condition,
    /// `after`
    After,
    /// `all`
    All,
    /// `and`
    And,
    /// `architecture`
    Architecture,
    /// `begin`
    Begin,
    /// `component`
    Component,
    /// `else`
    Else,
    /// `elsif`
    Elsif,
    /// `end`
    End,
    /// `entity`
    Entity,
    /// `if`
    If,
    /// `in`
    In,
    /// `inertial`
    Inertial,
    /// `inout`
    Inout,
    /// `is`
    Is,
    /// `library`
    Library,
    /// `map`
    Map,
    /// `nand`
    Nand,
    /// `nor`
    Nor,
    /// `not`
    Not,
    /// `null`
    Null,
    /// `of`
    Of,
    /// `open`
    Open,
    /// `or`
    Or,
    /// `out`
    Out,
    /// `port`
    Port,
    /// `postponed`
    Postponed,
    /// `process`
    Process,
    /// `reject`
    Reject,
    /// `signal`
    Signal,
    /// `then`
    Then,
    /// `transport`
    Transport,
    /// `use`
    Use,
    /// `variable`
    Variable,
    /// `when`
    When,
    /// `xnor`
    Xnor,
    /// `xor`
    Xor,
    /// The kind that the parser sees after the last token. No token has it.
    EndOfText,
}
