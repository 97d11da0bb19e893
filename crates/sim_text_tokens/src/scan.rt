//! The longest piece at the front of a text.

ghost use Rattle.std.specs.Prelude.{◌≡◌, ◌+◌, ◌≤◌, length, IfSome};
ghost use Rattle.std.specs.Char.{is_ascii_digit, is_ascii_alphanumeric};
ghost use Rattle.sim_text_tokens.specs.Pieces as pieces;
ghost use Rattle.sim_text_tokens.specs.Scan as spec;

use crate::class::Class;
use crate::words::{double_delimiter, single_delimiter};

/// A class and a length in bytes.
pub type Extent = (Class, usize);

/// Whether a byte separates tokens: a space, a tab, or a line end (IEEE 1076-2008, 15.3).
#[tactic(auto, unfolding(crate::specs::Pieces::is_separator))]
fn is_separator(b: u8) -> bool
    ensures { result ≡ pieces.is_separator b }
{
    b == b' ' || (b'\t' <= b && b <= b'\r')
}

/// Whether a byte ends a line, and with it a comment (IEEE 1076-2008, 15.3).
#[tactic(auto, unfolding(crate::specs::Pieces::is_line_end))]
fn is_line_end(b: u8) -> bool
    ensures { result ≡ pieces.is_line_end b }
{
    b'\n' <= b && b <= b'\r'
}

/// The number of bytes at the front that continue a word.
fn word_tail(bytes: &[u8]) -> usize
    ensures value { result ≡ spec.tail_len is_ascii_alphanumeric bytes.now }
    ensures inside { result ≤ length bytes.now }
{
    let mut rest = bytes;
    loop {
        match rest {
            [b, after @ ..] if b.is_ascii_alphanumeric() => rest = after,
            [b'_', b, after @ ..] if b.is_ascii_alphanumeric() => rest = after,
            _ => return bytes.len() - rest.len(),
        }
    }
}

/// The number of bytes at the front that continue a number.
fn number_tail(bytes: &[u8]) -> usize
    ensures value { result ≡ spec.tail_len is_ascii_digit bytes.now }
    ensures inside { result ≤ length bytes.now }
{
    let mut rest = bytes;
    loop {
        match rest {
            [b, after @ ..] if b.is_ascii_digit() => rest = after,
            [b'_', b, after @ ..] if b.is_ascii_digit() => rest = after,
            _ => return bytes.len() - rest.len(),
        }
    }
}

/// The number of bytes before the first line end.
fn line_len(bytes: &[u8]) -> usize
    ensures value { result ≡ spec.line_len bytes.now }
    ensures inside { result ≤ length bytes.now }
{
    let mut rest = bytes;
    loop {
        match rest {
            [b, after @ ..] if !is_line_end(*b) => rest = after,
            _ => return bytes.len() - rest.len(),
        }
    }
}

/// The number of bytes up to and including the first `*/`.
fn closed_len(bytes: &[u8]) -> Option<usize>
    ensures value { result ≡ spec.closed_len bytes.now }
    ensures inside { IfSome result (λ n. n ≤ length bytes.now) }
{
    let mut rest = bytes;
    loop {
        match rest {
            [b'*', b'/', after @ ..] => return Some(bytes.len() - after.len()),
            [_, after @ ..] => rest = after,
            [] => return None,
        }
    }
}

/// Whether a byte is the character of a value of std_ulogic.
#[tactic(auto, unfolding(crate::specs::Scan::is_value))]
fn is_value(v: u8) -> bool
    ensures { result ≡ spec.is_value v }
{
    matches!(
        v,
        b'U' | b'X' | b'0' | b'1' | b'Z' | b'W' | b'L' | b'H' | b'-'
    )
}

/// The piece that begins with an apostrophe, by the bytes after it.
#[tactic(auto, unfolding(crate::specs::Scan::apostrophe))]
fn apostrophe(after_name: bool, rest: &[u8]) -> Option<Extent>
    ensures value { result ≡ spec.apostrophe after_name rest.now }
    ensures inside { IfSome result (λ p. p.1 ≤ 1 + length rest.now) }
{
    match rest {
        _ if after_name => Some((Class::Tick, 1)),
        [v, b'\'', ..] if is_value(*v) => Some((Class::Literal, 3)),
        _ => None,
    }
}

/// A delimiter, by its first byte and the bytes after it.
#[tactic(auto, unfolding(crate::specs::Scan::delimiter, crate::specs::Scan::single))]
fn delimiter(first: u8, rest: &[u8]) -> Option<Extent>
    ensures value { result ≡ spec.delimiter first rest.now }
    ensures inside { IfSome result (λ p. p.1 ≤ 1 + length rest.now) }
{
    match rest {
        [second, ..] if double_delimiter(first, *second).is_some() => Some((Class::Delimiter, 2)),
        _ if single_delimiter(first).is_some() => Some((Class::Delimiter, 1)),
        _ => None,
    }
}

/// The piece that begins with a hyphen, by the bytes after it.
#[tactic(auto, unfolding(crate::specs::Scan::hyphen))]
fn hyphen(rest: &[u8]) -> Option<Extent>
    ensures value { result ≡ spec.hyphen rest.now }
    ensures inside { IfSome result (λ p. p.1 ≤ 1 + length rest.now) }
{
    match rest {
        [b'-', line @ ..] => Some((Class::Comment, 2 + line_len(line))),
        _ => None,
    }
}

/// The piece that begins with a slash, by the bytes after it.
#[tactic(auto, unfolding(crate::specs::Scan::slash))]
fn slash(rest: &[u8]) -> Option<Extent>
    ensures value { result ≡ spec.slash rest.now }
    ensures inside { IfSome result (λ p. p.1 ≤ 1 + length rest.now) }
{
    match rest {
        [b'*', comment @ ..] => Some((Class::Comment, 2 + closed_len(comment)?)),
        _ => delimiter(b'/', rest),
    }
}

/// The longest piece at the front of a text, by its first byte and the bytes after it; `None` if no
/// piece can begin there. `after_name`: the previous token is a word that is not reserved.
#[tactic(auto, unfolding(crate::specs::Scan::piece_at))]
pub fn piece_at(after_name: bool, first: u8, rest: &[u8]) -> Option<Extent>
    ensures value { result ≡ spec.piece_at after_name first rest.now }
    ensures inside { IfSome result (λ p. p.1 ≤ 1 + length rest.now) }
{
    if is_separator(first) {
        Some((Class::Separator, 1))
    } else if first.is_ascii_alphabetic() {
        Some((Class::Word, 1 + word_tail(rest)))
    } else if first.is_ascii_digit() {
        Some((Class::Number, 1 + number_tail(rest)))
    } else {
        match first {
            b'\'' => apostrophe(after_name, rest),
            b'-' => hyphen(rest),
            b'/' => slash(rest),
            _ => delimiter(first, rest),
        }
    }
}
