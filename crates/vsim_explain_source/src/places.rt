//! Places in a text, as editors count them.

use crate::tokens::{first_line, last_line};
use std::io::{self, Write};

/// The most bytes of a line that are shown on either side of a place.
const MOST_SHOWN: usize = 100;

/// A place in a text, and the part of its line that is shown.
#[derive(Clone, Copy)]
pub struct Place<'a> {
    /// The number of its line, from 1.
    pub line: usize,
    /// The number of its character in that line, from 1.
    pub column: usize,
    before: &'a [u8],
    after: &'a [u8],
}

/// Whether a byte continues a character of UTF-8.
fn is_continuation(byte: u8) -> bool {
    (128..192).contains(&byte)
}

/// The number of line ends in a text.
fn line_ends(text: &[u8]) -> usize {
    text.iter().filter(|byte| **byte == b'\n').count()
}

/// The number of characters of a text.
fn characters(text: &[u8]) -> usize {
    text.iter().filter(|byte| !is_continuation(**byte)).count()
}

/// The part of a line before a place that is shown.
fn shown_before(line: &[u8]) -> &[u8] {
    &line[line.len().saturating_sub(MOST_SHOWN)..]
}

/// The part of a line from a place on that is shown.
fn shown_after(line: &[u8]) -> &[u8] {
    &line[..line.len().min(MOST_SHOWN)]
}

/// The place after this many bytes; the end, if there are fewer.
pub fn place_at(source: &[u8], at: usize) -> Place<'_> {
    let (before, after) = source.split_at(at.min(source.len()));
    let start = last_line(before);
    Place {
        line: line_ends(before).saturating_add(1),
        column: characters(start).saturating_add(1),
        before: shown_before(start),
        after: shown_after(first_line(after)),
    }
}

/// A byte as it is shown: `?` in place of a byte that moves the cursor.
fn shown(byte: u8) -> u8 {
    match byte {
        b'\t' => b'\t',
        0..32 | 127 => b'?',
        _ => byte,
    }
}

/// Writes a part of a line.
fn write_part<W: Write>(out: &mut W, part: &[u8]) -> io::Result<()> {
    for byte in part {
        out.write_all(&[shown(*byte)])?;
    }
    Ok(())
}

/// Writes as many blanks as a part of a line is wide.
fn write_blanks<W: Write>(out: &mut W, part: &[u8]) -> io::Result<()> {
    for byte in part {
        if *byte == b'\t' {
            out.write_all(b"\t")?;
        } else if !is_continuation(*byte) {
            out.write_all(b" ")?;
        }
    }
    Ok(())
}

impl Place<'_> {
    /// Writes the line.
    fn write_line<W: Write>(&self, out: &mut W) -> io::Result<()> {
        write_part(out, self.before)?;
        write_part(out, self.after.trim_ascii_end())?;
        out.write_all(b"\n")
    }

    /// Writes the line, and under it a mark at the place.
    pub fn write_marked<W: Write>(&self, out: &mut W) -> io::Result<()> {
        self.write_line(out)?;
        write_blanks(out, self.before)?;
        out.write_all(b"^\n")
    }
}
