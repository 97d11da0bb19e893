//! Lines of a case that are written once or repeatedly. Each function returns `false` if a line
//! does not have its form.

use std::alloc::{AllocError, Global};
use std::str;

/// A decimal number.
pub fn number(line: &[u8]) -> Option<u32> {
    str::from_utf8(line).ok()?.parse::<u32>().ok()
}

/// A number, and what follows the blank after it.
fn counted(line: &[u8]) -> Option<(u32, &[u8])> {
    let (count, piece) = str::from_utf8(line).ok()?.split_once(' ')?;
    Some((number(count.as_bytes())?, piece.as_bytes()))
}

/// Adds a line.
pub fn put_line(lines: &mut Vec<u8>, line: &[u8]) -> Result<bool, AllocError> {
    lines.extend_from_slice(line)?;
    lines.push(b'\n')?;
    Ok(true)
}

/// Adds these bytes this many times.
fn put_copies(text: &mut Vec<u8>, count: u32, piece: &[u8]) -> Result<bool, AllocError> {
    for _turn in 0..count {
        text.extend_from_slice(piece)?;
    }
    Ok(true)
}

/// A number, and after a blank what is added this many times.
pub fn put_times(text: &mut Vec<u8>, line: &[u8]) -> Result<bool, AllocError> {
    match counted(line) {
        Some((count, piece)) => put_copies(text, count, piece),
        None => Ok(false),
    }
}

/// A number: this many blanks are added.
pub fn put_blanks(text: &mut Vec<u8>, line: &[u8]) -> Result<bool, AllocError> {
    match number(line) {
        Some(count) => put_copies(text, count, b" "),
        None => Ok(false),
    }
}

/// Two numbers, and after a blank what is added for each number from the first to the second, each
/// time followed by `end`.
pub fn put_numbered(
    alloc: Global,
    text: &mut Vec<u8>,
    line: &[u8],
    end: &[u8],
) -> Result<bool, AllocError> {
    let Some((first, line)) = counted(line) else {
        return Ok(false);
    };
    let Some((last, piece)) = counted(line) else {
        return Ok(false);
    };
    put_turns(alloc, text, first, last, piece, end)
}

/// Adds a piece for each number from the first to the last, each time followed by `end`.
fn put_turns(
    alloc: Global,
    text: &mut Vec<u8>,
    first: u32,
    last: u32,
    piece: &[u8],
    end: &[u8],
) -> Result<bool, AllocError> {
    for turn in first..=last {
        put_turn(alloc, text, turn, piece)?;
        text.extend_from_slice(end)?;
    }
    Ok(true)
}

/// Adds a piece, in which `{n}` is the number of the turn, and `{n+1}` the next.
fn put_turn(alloc: Global, text: &mut Vec<u8>, turn: u32, piece: &[u8]) -> Result<(), AllocError> {
    for part in piece.split(|byte| *byte == b'{') {
        put_part(alloc, text, turn, part)?;
    }
    Ok(())
}

/// Adds what is between two opening braces.
fn put_part(alloc: Global, text: &mut Vec<u8>, turn: u32, part: &[u8]) -> Result<(), AllocError> {
    match part {
        [b'n', b'}', rest @ ..] => put_number(alloc, text, turn, rest),
        [b'n', b'+', b'1', b'}', rest @ ..] => put_number(
            alloc,
            text,
            turn.saturating_add(1),
            rest,
        ),
        _ => text.extend_from_slice(part),
    }
}

/// Adds a number, and what follows it.
fn put_number(
    alloc: Global,
    text: &mut Vec<u8>,
    number: u32,
    rest: &[u8],
) -> Result<(), AllocError> {
    let digits = format!(in alloc; "{number}")?;
    text.extend_from_slice(digits.as_bytes())?;
    text.extend_from_slice(rest)
}
