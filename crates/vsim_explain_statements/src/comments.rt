//! A text without its comments.

use std::alloc::{AllocError, Global};

/// What a byte is part of.
#[derive(Clone, Copy)]
enum Part {
    Code,
    /// A comment to the end of its line.
    LineComment,
    /// A comment between `/*` and `*/`.
    BlockComment,
}

/// What a byte is part of: the byte before it is of this part, and `next` follows it.
fn part_of(before: Part, byte: u8, next: u8) -> Part {
    match before {
        Part::Code if byte == b'-' && next == b'-' => Part::LineComment,
        Part::Code if byte == b'/' && next == b'*' => Part::BlockComment,
        Part::LineComment if byte == b'\n' => Part::Code,
        _ => before,
    }
}

/// A byte, or a blank in its place if it is part of a comment.
fn shown(part: Part, byte: u8) -> u8 {
    match part {
        Part::Code => byte,
        Part::LineComment | Part::BlockComment => b' ',
    }
}

/// What the byte after the end of a comment between `/*` and `*/` is part of.
fn part_behind(part: Part, last: u8, byte: u8) -> Part {
    match part {
        Part::BlockComment if last == b'*' && byte == b'/' => Part::Code,
        _ => part,
    }
}

/// A text with blanks in place of its comments.
pub fn without_comments(alloc: Global, text: &[u8]) -> Result<Vec<u8>, AllocError> {
    let mut code = Vec::new(alloc);
    let (mut part, mut last) = (Part::Code, b' ');
    for (place, byte) in text.iter().enumerate() {
        let next = text.get(place.saturating_add(1)).copied().unwrap_or(b' ');
        part = part_of(part, *byte, next);
        code.push(shown(part, *byte))?;
        part = part_behind(part, last, *byte);
        last = *byte;
    }
    Ok(code)
}
