//! The shapes of values.

use crate::row::Run;
use std::fmt::{self, Display, Formatter};
use std::io::{self, Write};

/// How far the levels 1, Z and 0 are below the top of a row, in pixels.
const HIGH: u64 = 6;

const MIDDLE: u64 = 17;

const LOW: u64 = 28;

/// The width of a letter, and of what is around those of a value, in tenths of a pixel.
const LETTER: u64 = 75;

const AROUND: u64 = 40;

/// A place in tenths of a pixel, which is written in pixels.
#[derive(Clone, Copy)]
pub struct Tenths(pub u64);

impl Display for Tenths {
    fn fmt<W: fmt::Write>(&self, f: &mut Formatter<W>) -> fmt::Result {
        let (whole, part) = (self.0 / 10, self.0 % 10);
        write!(f, "{whole}.{part}")
    }
}

/// Where a value begins and ends, and the top of its row in pixels.
#[derive(Clone, Copy)]
pub struct Span {
    pub left: u64,
    pub right: u64,
    pub top: u64,
}

/// The letter of a value of one bit.
pub fn letter_of(run: &Run) -> u8 {
    match run.value.first() {
        Some(letter) => *letter,
        None => b'X',
    }
}

/// The level of a value of one bit, below the top of its row.
fn level(letter: u8) -> u64 {
    match letter {
        b'1' => HIGH,
        b'0' => LOW,
        _ => MIDDLE,
    }
}

/// Writes a value of one bit as the next piece of a line.
pub fn write_level<W: Write>(out: &mut W, letter: u8, at: Span, is_first: bool) -> io::Result<()> {
    let height = at.top.saturating_add(level(letter));
    let (left, right) = (Tenths(at.left), Tenths(at.right));
    if is_first {
        write!(out, "M{left} {height}H{right}")
    } else {
        write!(out, "V{height}H{right}")
    }
}

/// Writes the area of an unknown value of one bit.
pub fn write_unknown<W: Write>(out: &mut W, at: Span) -> io::Result<()> {
    let top = at.top.saturating_add(HIGH);
    let (left, width) = (Tenths(at.left), Tenths(at.right.saturating_sub(at.left)));
    let height = LOW - HIGH;
    writeln!(
        out,
        "  <rect x=\"{left}\" y=\"{top}\" width=\"{width}\" height=\"{height}\" fill=\"#f6c9c4\"/>"
    )
}

/// The hexadecimal digit of at most four letters: `z` where all are `Z`, and `x` where they are no
/// number.
fn digit(letters: &[u8]) -> u8 {
    if letters.iter().all(|letter| *letter == b'Z') {
        return b'z';
    }
    let mut value = 0u8;
    for letter in letters {
        value = match *letter {
            b'0' => value.wrapping_mul(2),
            b'1' => value.wrapping_mul(2) | 1,
            _ => return b'x',
        };
    }
    match value {
        0..=9 => b'0'.wrapping_add(value),
        _ => b'a'.wrapping_sub(10).wrapping_add(value),
    }
}

/// Writes a value in hexadecimal digits.
fn write_digits<W: Write>(out: &mut W, value: &[u8]) -> io::Result<()> {
    let mut from = 0usize;
    let mut to = value.len() % 4;
    for _ in 0..value.len() {
        if from < to {
            out.write_all(&[digit(value.get(from..to).unwrap_or(&[]))])?;
        }
        from = to;
        to = to.saturating_add(4);
        if from >= value.len() {
            break;
        }
    }
    Ok(())
}

/// Writes the outline of a value of several bits.
fn write_outline<W: Write>(out: &mut W, at: Span) -> io::Result<()> {
    let (left, right) = (Tenths(at.left), Tenths(at.right));
    let middle = at.top.saturating_add(MIDDLE);
    if at.right.saturating_sub(at.left) < AROUND {
        let top = at.top.saturating_add(HIGH);
        return write!(out, "M{left} {top}H{right}v22H{left}z");
    }
    let (inner, outer) = (at.left.saturating_add(20), at.right.saturating_sub(20));
    let (inner, outer) = (Tenths(inner), Tenths(outer));
    write!(out, "M{left} {middle}l2 -11H{outer}l2 11l-2 11H{inner}z")
}

/// Writes a value of several bits, with its digits where they have room.
pub fn write_value<W: Write>(out: &mut W, value: &[u8], at: Span) -> io::Result<()> {
    out.write_all(b"  <path d=\"")?;
    write_outline(out, at)?;
    out.write_all(b"\" fill=\"none\" stroke=\"#0a58a8\" stroke-width=\"1.2\"/>\n")?;
    write_text(out, value, at)
}

/// Writes the digits of a value in its middle, where they have room.
fn write_text<W: Write>(out: &mut W, value: &[u8], at: Span) -> io::Result<()> {
    let width = at.right.saturating_sub(at.left);
    let digits = (value.len() as u64).div_ceil(4);
    if digits.saturating_mul(LETTER).saturating_add(AROUND) > width {
        return Ok(());
    }
    let middle = Tenths(at.left.saturating_add(width / 2));
    let line = at.top.saturating_add(MIDDLE).saturating_add(4);
    write!(
        out,
        "  <text x=\"{middle}\" y=\"{line}\" text-anchor=\"middle\" fill=\"#222\">"
    )?;
    write_digits(out, value)?;
    out.write_all(b"</text>\n")
}
