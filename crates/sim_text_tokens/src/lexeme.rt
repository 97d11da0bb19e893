//! Tokens by their places in a text.

ghost use Rattle.std.specs.Prelude.{◌≡◌, ◌==◌, not, map, filter, take, drop, IfOk};
ghost use Rattle.std.specs.Char.{to_ascii_lowercase};
ghost use Rattle.sim_text_tokens.specs.Lexemes as spec;

use crate::kind::Kind;
use crate::token::Token;
use sqlite_items::Items;
use std::alloc::{AllocError, Global};
use std::marker::Model;

/// A token as it stands in its text: its kind and its place. It takes 12 bytes, and the text keeps
/// its letters.
#[derive(Clone, Copy)]
pub struct Lexeme {
    kind: Kind,
    start: u32,
    end: u32,
}

impl Model for Lexeme {
    ghost use Rattle.sim_text_tokens.specs.Lexemes.{Lexeme};

    ghost Value = { Lexeme };

    ghost view = { λ l. record { kind = l.kind; start = l.start; end = l.end } };

    ghost inverse = { λ l. record { kind = l.kind; start = l.start; end = l.end } };
}

impl Lexeme {
    ghost use Rattle.std.specs.Prelude.{◌≡◌, IfOk, IfSome};
    ghost use Rattle.sim_text_tokens.specs.Token.{HasWord};
    ghost use Rattle.sim_text_tokens.specs.Lexemes as spec;

    /// A token of this kind from `start` to before `end`; `None` beyond 4 GiB.
    pub(crate) fn new(kind: Kind, start: usize, end: usize) -> Option<Lexeme>
        ensures { IfSome result (λ l. l ≡ record { kind = kind; start = start; end = end }) }
    {
        let start = u32::try_from(start).ok()?;
        let end = u32::try_from(end).ok()?;
        Some(Lexeme { kind, start, end })
    }

    /// Its kind.
    pub fn kind(self) -> Kind
        ensures { result ≡ self.kind }
    {
        self.kind
    }

    /// The offset of its first byte in the text, from 0.
    pub fn start(self) -> usize
        ensures { result ≡ self.start }
    {
        self.start as usize
    }

    /// Its bytes in this text.
    pub fn bytes<'s>(self, source: &'s [u8]) -> &'s [u8]
        ensures { result.now ≡ spec.between source.now self.start self.end }
    {
        let start = self.start as usize;
        let end = self.end as usize;
        let (_, after) = source.split_at(start.min(source.len()));
        let len = end.saturating_sub(start);
        let (bytes, _) = after.split_at(len.min(after.len()));
        bytes
    }

    /// The token with its own text.
    pub fn to_token(self, alloc: Global, source: &[u8]) -> Result<Token, AllocError>
        requires { HasWord self.kind (spec.token_at source.now self).text }
        ensures { IfOk result (λ t. t ≡ spec.token_at source.now self) }
    {
        let text = text_kept(alloc, self.kind, self.bytes(source))?;
        Ok(Token::new(self.kind, text, self.start as usize, self.end as usize))
    }
}

/// What a token of this kind keeps of its bytes: the letters of a name in lower case, the digits of
/// a number, or the byte between the apostrophes of a literal.
fn text_kept(alloc: Global, kind: Kind, bytes: &[u8]) -> Result<Items<u8>, AllocError>
    ensures { IfOk result (λ t. t ≡ spec.text_kept kind bytes.now) }
{
    match kind {
        Kind::Word => name_text(alloc, bytes),
        Kind::Number => number_text(alloc, bytes),
        Kind::Literal => literal_text(alloc, bytes),
        _ => Ok(Items::new(alloc)),
    }
}

/// The letters of a name, in lower case.
fn name_text(alloc: Global, bytes: &[u8]) -> Result<Items<u8>, AllocError>
    ensures { IfOk result (λ t. t ≡ map to_ascii_lowercase bytes.now) }
{
    let word = bytes.to_ascii_lowercase(alloc)?;
    Ok(Items::from_vec(word))
}

/// The digits of a number.
fn number_text(alloc: Global, bytes: &[u8]) -> Result<Items<u8>, AllocError>
    ensures { IfOk result (λ t. t ≡ filter (λ b. not (b == 95)) bytes.now) }
{
    let digits: Vec<u8> = bytes.iter().copied().filter(|b| *b != b'_').collect(alloc)?;
    Ok(Items::from_vec(digits))
}

/// The byte between the apostrophes.
fn literal_text(alloc: Global, bytes: &[u8]) -> Result<Items<u8>, AllocError>
    ensures { IfOk result (λ t. t ≡ take 1 (drop 1 bytes.now)) }
{
    match bytes {
        [_, value, ..] => Items::from_slice(alloc, &[*value]),
        _ => Ok(Items::new(alloc)),
    }
}
