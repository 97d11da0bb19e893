//! Texts in pieces.

ghost use Rattle.std.specs.Prelude.{◌≡◌, ◌≢◌, ◌++◌, ℕ, List, string_bytes, IfOk, OnOk, MatchOption};
ghost use Rattle.std.specs.Bool.{Decides};
ghost use Rattle.std.specs.List.{concat};

use crate::instance_path::PathPiece;
use std::alloc::{AllocError, Global};

/// The concatenation of two pieces.
pub fn joined(alloc: Global, first: &str, last: &str) -> Result<String, AllocError>
    ensures { IfOk result (λ whole. string_bytes whole ≡ first.now ++ last.now) }
{
    let mut whole = String::with_capacity(alloc, first.len() + last.len())?;
    whole.push_str(first)?;
    whole.push_str(last)?;
    Ok(whole)
}

/// The concatenation of the pieces of a path and a last piece.
pub fn all_joined(alloc: Global, pieces: &[PathPiece], last: &str) -> Result<String, AllocError>
    ensures { IfOk result (λ whole. string_bytes whole ≡ concat pieces.now ++ last.now) }
{
    let mut whole = String::new(alloc);
    for piece in pieces {
        whole.push_str(piece.as_str())?;
    }
    whole.push_str(last)?;
    Ok(whole)
}

/// The rest of a text after this prefix; `None` if the text does not begin with it.
fn after<'a>(front: &[u8], text: &'a [u8]) -> Option<&'a [u8]>
    ensures { MatchOption result ((rest : List ℕ) → front.now ++ rest ≢ text.now) (λ rest. front.now ++ rest.now ≡ text.now) }
{
    if text.len() < front.len() {
        return None;
    }
    let (head, rest) = text.split_at(front.len());
    if front != head {
        return None;
    }
    Some(rest)
}

/// Whether the pieces of a path and a last piece concatenate to this text.
pub fn are_joined(pieces: &[PathPiece], last: &[u8], whole: &[u8]) -> bool
    ensures { Decides result (concat pieces.now ++ last.now ≡ whole.now) }
{
    match pieces {
        [] => last == whole,
        [first, pieces @ ..] => match after(first.as_str().as_bytes(), whole) {
            Some(rest) => are_joined(pieces, last, rest),
            None => false,
        },
    }
}

/// Whether a prefix, the pieces of a path and a last piece are the same text as the pieces of
/// another path and its last piece. The rest of the longer of two pieces becomes the new prefix.
fn same_behind(
    front: &[u8],
    pieces: &[PathPiece],
    last: &[u8],
    others: &[PathPiece],
    other_last: &[u8],
) -> bool
    ensures { Decides result (front.now ++ (concat pieces.now ++ last.now) ≡ concat others.now ++ other_last.now) }
{
    let [first, others @ ..] = others else {
        return match after(front, other_last) {
            Some(rest) => are_joined(pieces, last, rest),
            None => false,
        };
    };
    let first = first.as_str().as_bytes();
    if front.len() <= first.len() {
        return match after(front, first) {
            Some(rest) => same_behind(rest, others, other_last, pieces, last),
            None => false,
        };
    }
    match after(first, front) {
        Some(rest) => same_behind(rest, pieces, last, others, other_last),
        None => false,
    }
}

/// Whether the pieces of a path and a last piece are the same text as those of another.
pub fn are_same_joined(
    pieces: &[PathPiece],
    last: &[u8],
    others: &[PathPiece],
    other_last: &[u8],
) -> bool
    ensures { Decides result (concat pieces.now ++ last.now ≡ concat others.now ++ other_last.now) }
{
    same_behind(&[], pieces, last, others, other_last)
}
