//! Divides a text into tokens.

ghost use Rattle.std.specs.Prelude.{◌≡◌, ◌<◌, ◌↔◌, ◌≢◌, ◌∷◌, [], ◌++◌, length, map, IfOk, IfErr, OnOk, Err};
ghost use Rattle.std.specs.Char.{to_ascii_lowercase};
ghost use Rattle.sim_text_tokens.specs.Pieces as pieces;
ghost use Rattle.sim_text_tokens.specs.Cutting as cutting;
ghost use Rattle.sim_text_tokens.specs.Cutting.{AreTokens, IsLexicalFault};
ghost use Rattle.sim_text_tokens.specs.Lexemes as spec;
ghost use Rattle.sim_text_tokens.specs.Lexemes.{tokens_at};
ghost use Rattle.sim_text_tokens.specs.Limits.{most_bytes};

use crate::class::Class;
use crate::error::TextError;
use crate::kind::Kind;
use crate::lexeme::Lexeme;
use crate::scan::piece_at;
use crate::token::Token;
use crate::words::{double_delimiter, reserved_word, single_delimiter};
use std::alloc::{AllocError, Global};

/// The largest length of a text, in bytes.
pub const MOST_BYTES: usize = 1_048_576;

/// The kind of a delimiter.
fn delimiter_kind(bytes: &[u8]) -> Option<Kind>
    ensures { result ≡ pieces.kind_in pieces.delimiters bytes.now }
{
    match bytes {
        [a] => single_delimiter(*a),
        [a, b] => double_delimiter(*a, *b),
        _ => None,
    }
}

/// The kind of a word: a reserved word, or a name.
fn word_kind(bytes: &[u8]) -> Kind
    ensures { result ≡ (pieces.word_token
        (pieces.kind_in pieces.reserved_words (map to_ascii_lowercase bytes.now))
        (map to_ascii_lowercase bytes.now)).0 }
{
    match reserved_word(bytes) {
        Some(kind) => kind,
        None => Kind::Word,
    }
}

/// The kind of the token that a piece is; `None` for a separator or a comment.
fn kind_of(class: Class, bytes: &[u8]) -> Option<Kind>
    ensures { result ≡ spec.kind_of class bytes.now }
{
    match class {
        Class::Separator | Class::Comment => None,
        Class::Word => Some(word_kind(bytes)),
        Class::Number => Some(Kind::Number),
        Class::Literal => Some(Kind::Literal),
        Class::Tick => Some(Kind::Tick),
        Class::Delimiter => delimiter_kind(bytes),
    }
}

/// Whether a token of this kind is a name: a word that is not reserved.
fn is_name(kind: Kind) -> bool
    ensures { result ≡ cutting.is_name kind }
{
    matches!(kind, Kind::Word)
}

/// The fault at a place where no piece can begin.
fn fault_at(at: usize, byte: u8, rest: &[u8]) -> TextError
    ensures { result ≡ cutting.fault_at at byte rest.now }
{
    match (byte, rest) {
        (b'\'', _) => TextError::BadLiteral { at },
        (b'/', [b'*', ..]) => TextError::OpenComment { at },
        _ => TextError::BadByte { at },
    }
}

/// Adds a token of this kind, from `start` to before `end`. It finds no memory beyond 4 GiB.
fn add(lexemes: &mut Vec<Lexeme>, kind: Kind, start: usize, end: usize) -> Result<(), AllocError>
    ensures { OnOk result (lexemes.new.items ≡ lexemes.old.items ++ record { kind = kind; start = start; end = end } ∷ []) }
{
    let lexeme = Lexeme::new(kind, start, end).ok_or(AllocError)?;
    lexemes.push(lexeme)?;
    Ok(())
}

/// Divides a text into tokens. `Memory` beyond 4 GiB, too.
fn cut(alloc: Global, source: &[u8]) -> Result<Vec<Lexeme>, TextError>
    ensures found { IfOk result (λ v. AreTokens source.now (tokens_at source.now v.items)) }
    ensures fault { IfErr result (λ e. e ≢ TextError.Memory → IsLexicalFault source.now e) }
{
    let mut lexemes = Vec::new(alloc);
    let mut after_name = false;
    let mut at = 0;
    let mut text = source;
    while let [first, rest @ ..] = text {
        let Some((class, len)) = piece_at(after_name, *first, rest) else {
            return Err(fault_at(at, *first, rest));
        };
        let (bytes, after) = text.split_at(len);
        let end = at + len;
        if let Some(kind) = kind_of(class, bytes) {
            after_name = is_name(kind);
            add(&mut lexemes, kind, at, end)?;
        }
        at = end;
        text = after;
    }
    Ok(lexemes)
}

/// The tokens of a text by their places, from left to right, each the longest possible at its place
/// (IEEE 1076-2008, 15.3).
///
/// Separators and comments between tokens are dropped, and no separator is required between two
/// tokens. An apostrophe after a word that is not reserved is a tick; elsewhere it begins a
/// character literal. `TooLong`, if the text has more than `bytes` bytes, takes precedence, then the
/// leftmost of the other faults; `Memory` if an allocation fails before that one is reached.
pub fn lexemes_within(alloc: Global, source: &[u8], bytes: usize) -> Result<Vec<Lexeme>, TextError>
    ensures too_long { (result ≡ Err TextError.TooLong) ↔ (bytes < length source.now) }
    ensures found { IfOk result (λ v. AreTokens source.now (tokens_at source.now v.items)) }
    ensures fault { IfErr result (λ e. e ≢ TextError.Memory → e ≢ TextError.TooLong → IsLexicalFault source.now e) }
{
    if source.len() > bytes {
        return Err(TextError::TooLong);
    }
    cut(alloc, source)
}

/// These tokens, each with its own text.
fn with_texts(alloc: Global, source: &[u8], lexemes: &[Lexeme]) -> Result<Vec<Token>, AllocError>
    requires { AreTokens source.now (tokens_at source.now lexemes.now) }
    ensures { IfOk result (λ v. v.items ≡ tokens_at source.now lexemes.now) }
{
    let mut tokens = Vec::with_capacity(alloc, lexemes.len())?;
    for lexeme in lexemes {
        tokens.push(lexeme.to_token(alloc, source)?)?;
    }
    Ok(tokens)
}

/// The tokens of a text with their own texts; refusals as those of `lexemes_within`.
pub fn tokens_within(alloc: Global, source: &[u8], bytes: usize) -> Result<Vec<Token>, TextError>
    ensures too_long { (result ≡ Err TextError.TooLong) ↔ (bytes < length source.now) }
    ensures found { IfOk result (λ v. AreTokens source.now v.items) }
    ensures fault { IfErr result (λ e. e ≢ TextError.Memory → e ≢ TextError.TooLong → IsLexicalFault source.now e) }
{
    let lexemes = lexemes_within(alloc, source, bytes)?;
    let tokens = with_texts(alloc, source, lexemes.as_slice())?;
    Ok(tokens)
}

/// The tokens of a text of at most 1,048,576 bytes.
pub fn tokens(alloc: Global, source: &[u8]) -> Result<Vec<Token>, TextError>
    ensures too_long { (result ≡ Err TextError.TooLong) ↔ (most_bytes < length source.now) }
    ensures found { IfOk result (λ v. AreTokens source.now v.items) }
    ensures fault { IfErr result (λ e. e ≢ TextError.Memory → e ≢ TextError.TooLong → IsLexicalFault source.now e) }
{
    tokens_within(alloc, source, MOST_BYTES)
}
