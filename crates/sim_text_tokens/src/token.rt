//! Tokens.

use crate::kind::Kind;
use sqlite_items::Items;
use std::marker::Model;

/// A token of a text (IEEE 1076-2008, 15.2).
#[derive(Drop)]
pub struct Token {
    kind: Kind,
    text: Items<u8>,
    start: usize,
    end: usize,
}

impl Model for Token {
    ghost use Rattle.sim_text_tokens.specs.Token.{Token, HasWord};

    ghost Value = { Token };

    ghost view = { λ t. record { kind = t.kind; text = t.text; start = t.start; end = t.end } };

    ghost invariant = { λ t. HasWord t.kind t.text };
}

impl Token {
    ghost use Rattle.std.specs.Prelude.{◌≡◌};
    ghost use Rattle.sim_text_tokens.specs.Token.{HasWord};

    /// A token of this kind and text, from `start` to before `end`.
    pub(crate) fn new(kind: Kind, text: Items<u8>, start: usize, end: usize) -> Token
        requires { HasWord kind text }
        ensures { result ≡ record { kind = kind; text = text; start = start; end = end } }
    {
        Token {
            kind,
            text,
            start,
            end,
        }
    }

    /// Its kind.
    pub fn kind(&self) -> Kind
        ensures { result ≡ self.now.kind }
    {
        self.kind
    }

    /// For a word that is not reserved, its letters, digits and underscores, in lower case; for a
    /// number, its digits without underscores; for a character literal, the byte between its
    /// apostrophes; otherwise nothing.
    pub fn text(&self) -> &[u8]
        ensures text { result.now ≡ self.now.text }
        ensures word { HasWord self.now.kind result.now }
    {
        self.text.as_slice()
    }

    /// The same text, moved out of the token without a copy.
    pub fn into_text(self) -> Items<u8>
        ensures text { result ≡ self.text }
        ensures word { HasWord self.kind result }
    {
        self.text
    }

    /// The offset of its first byte in the text, from 0.
    pub fn start(&self) -> usize
        ensures { result ≡ self.now.start }
    {
        self.start
    }

    /// The offset after its last byte.
    pub fn end(&self) -> usize
        ensures { result ≡ self.now.end }
    {
        self.end
    }
}
