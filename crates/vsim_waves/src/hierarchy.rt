//! The names of nets as the scopes and variables of a VCD.

use std::io::{self, Write};

/// The first of the bytes that make up the identifiers of a VCD, and the number of these bytes.
const FIRST_BYTE: u8 = b'!';

const BYTES: usize = 94;

/// The most bytes of an identifier.
const LONGEST: usize = 10;

/// Puts the identifier of the net with a number behind what precedes a place: digits to base 94, the
/// lowest first. Returns the place behind it.
pub fn put_identifier(bytes: &mut [u8], place: usize, number: usize) -> usize {
    let (mut left, mut place) = (number, place);
    for _ in 0..usize::BITS {
        if let Some(byte) = bytes.get_mut(place) {
            *byte = FIRST_BYTE + (left % BYTES) as u8;
        }
        place = place.saturating_add(1);
        left /= BYTES;
        if left == 0 {
            break;
        }
    }
    place
}

/// Writes the identifier of the net with a number.
pub fn write_identifier<W: Write>(out: &mut W, number: usize) -> io::Result<()> {
    let mut bytes = [0; LONGEST];
    let end = put_identifier(&mut bytes, 0, number);
    out.write_all(bytes.get(..end).unwrap_or(&[]))
}

/// Leaves the scopes of a path that the next path does not share.
pub fn leave<W: Write>(out: &mut W, path: &str, next: &str) -> io::Result<()> {
    let mut others = next.split('.');
    let mut is_shared = true;
    for label in path.split('.') {
        is_shared = is_shared && others.next() == Some(label);
        if !is_shared && !label.is_empty() {
            out.write_all(b"$upscope $end\n")?;
        }
    }
    Ok(())
}

/// Enters the scopes of a path that the last path does not share.
pub fn enter<W: Write>(out: &mut W, last: &str, path: &str) -> io::Result<()> {
    let mut others = last.split('.');
    let mut is_shared = true;
    for label in path.split('.') {
        is_shared = is_shared && others.next() == Some(label);
        if !is_shared && !label.is_empty() {
            writeln!(out, "$scope module {label} $end")?;
        }
    }
    Ok(())
}

/// Writes a variable of this many bits.
pub fn declare<W: Write>(out: &mut W, number: usize, width: usize, label: &str) -> io::Result<()> {
    write!(out, "$var wire {width} ")?;
    write_identifier(out, number)?;
    writeln!(out, " {label} $end")
}

/// Writes a variable in the scopes of its path, after those of the last path.
pub fn declare_in<W: Write>(
    out: &mut W,
    last: &str,
    path: &str,
    number: usize,
    width: usize,
    label: &str,
) -> io::Result<()> {
    leave(out, last, path)?;
    enter(out, last, path)?;
    declare(out, number, width, label)
}
