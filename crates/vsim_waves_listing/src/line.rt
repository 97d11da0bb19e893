//! The lines of a listing.

use crate::words::{digits_of, is_same};

/// The time of a change in femtoseconds, and its delta number.
#[derive(Clone, Copy, Debug, PartialEq, Eq, PartialOrd, Ord)]
pub struct Moment {
    pub time: u64,
    pub delta: u64,
}

/// A line of a listing.
#[derive(Clone, Copy)]
pub enum Line<'a> {
    /// A net has a new value or, in the first lines, its initial value, given by its letter. The
    /// name has no blanks.
    Change {
        at: Moment,
        name: &'a [u8],
        value: u8,
    },
    /// The last line, with the numbers of cycles and events.
    Done,
}

/// The set of letters, digits and the underscore: a bit for each byte.
static LABEL: [u64; 4] = [0x03FF_0000_0000_0000, 0x07FF_FFFE_87FF_FFFE, 0, 0];

/// Whether a byte is a letter, a digit or an underscore.
fn is_of_label(byte: u8) -> bool {
    let set = LABEL.get(usize::from(byte >> 6)).copied().unwrap_or(0);
    (set >> (byte & 63)) & 1 == 1
}

/// Where the last label of a name begins, if a text can be the name of a net: labels of letters,
/// digits and underscores, separated by dots.
pub fn label_of(name: &[u8]) -> Option<usize> {
    let mut label = 0usize;
    for (place, byte) in name.iter().enumerate() {
        if !is_of_label(*byte) {
            if *byte != b'.' || place == label {
                return None;
            }
            label = place.saturating_add(1);
        }
    }
    if label < name.len() {
        Some(label)
    } else {
        None
    }
}

/// Whether a text can be the name of a net.
pub fn is_name(name: &[u8]) -> bool {
    label_of(name).is_some()
}

/// Whether a letter is a value of std_ulogic.
fn is_value(letter: u8) -> bool {
    matches!(
        letter,
        b'U' | b'X' | b'0' | b'1' | b'Z' | b'W' | b'L' | b'H' | b'-'
    )
}

/// The most digits of a number that is never too large for 64 bits.
const DIGITS: usize = 19;

/// The number of these digits, unless it is too large.
#[cold]
fn long_number(digits: &[u8]) -> Option<u64> {
    let mut value = 0u64;
    for byte in digits {
        let digit = byte.wrapping_sub(b'0');
        value = value.checked_mul(10)?.checked_add(u64::from(digit))?;
    }
    Some(value)
}

/// The powers of ten up to that of eight digits.
static POWERS: [u64; 9] = [
    1,
    10,
    100,
    1_000,
    10_000,
    100_000,
    1_000_000,
    10_000_000,
    100_000_000,
];

/// The digits with which a text begins, up to eight at a time: how many, and the number that they
/// are unless it is too large.
#[inline(always)]
fn leading_number(text: &[u8]) -> (usize, u64) {
    let (mut length, mut value) = (0usize, 0u64);
    let (chunks, rest) = text.as_chunks::<8>();
    for chunk in chunks {
        let (count, digits) = digits_of(*chunk);
        value = appended(value, count, digits);
        length = length.wrapping_add(count);
        if count < 8 {
            return (length, value);
        }
    }
    let (count, digits) = digits_of(padded(rest));
    (length.wrapping_add(count), appended(value, count, digits))
}

/// The number of some digits, with these behind it.
#[inline(always)]
fn appended(value: u64, count: usize, digits: u64) -> u64 {
    let power = POWERS.get(count).copied().unwrap_or(1);
    value.wrapping_mul(power).wrapping_add(digits)
}

/// The number with which a text begins, and what follows the blank behind it.
#[inline(always)]
fn number(text: &[u8]) -> Option<(u64, &[u8])> {
    let (length, value) = leading_number(text);
    let (digits, [b' ', rest @ ..]) = text.split_at_checked(length)? else {
        return None;
    };
    match length {
        0 => None,
        1..=DIGITS => Some((value, rest)),
        _ => Some((long_number(digits)?, rest)),
    }
}

/// The same for a number that is mostly of one digit.
fn short_number(text: &[u8]) -> Option<(u64, &[u8])> {
    match text {
        [digit @ b'0'..=b'9', b' ', rest @ ..] => Some((u64::from(digit.wrapping_sub(b'0')), rest)),
        _ => number(text),
    }
}

/// A text of less than eight bytes, with blanks behind it.
fn padded(text: &[u8]) -> [u8; 8] {
    let mut bytes = [b' '; 8];
    for (byte, other) in bytes.iter_mut().zip(text) {
        *byte = *other;
    }
    bytes
}

/// The last line, given what follows its first word.
fn last<'a>(numbers: &[u8]) -> Option<Line<'a>> {
    let (_cycles, events) = number(numbers)?;
    if !events.is_empty() && events.iter().all(|byte| byte.is_ascii_digit()) {
        Some(Line::Done)
    } else {
        None
    }
}

/// Reads a line of a listing: a time, a delta number, a name and a value, or `done` and two numbers.
pub fn read_line(line: &[u8]) -> Option<Line<'_>> {
    let Some((time, rest)) = number(line) else {
        return last(without_return(line.strip_prefix(b"done ")?));
    };
    let (delta, rest) = short_number(rest)?;
    change(Moment { time, delta }, rest)
}

/// A line without the carriage return that may end it.
fn without_return(line: &[u8]) -> &[u8] {
    line.strip_suffix(b"\r").unwrap_or(line)
}

/// The line of a change at a moment, given its name and value.
fn change(at: Moment, rest: &[u8]) -> Option<Line<'_>> {
    let [name @ .., b' ', value] = without_return(rest) else {
        return None;
    };
    if !is_value(*value) {
        return None;
    }
    Some(Line::Change {
        at,
        name,
        value: *value,
    })
}

/// The most bytes that precede a name where its moment is noted.
const HEAD: usize = 32;

/// Reads lines as `read_line` does. Most lines are of the moment of the line before, whose numbers
/// are not read again.
#[derive(Drop)]
pub struct LineReader {
    /// What precedes the names of that moment, and its length, which is 0 if no moment is noted.
    head: [u8; HEAD],
    length: usize,
    at: Moment,
}

impl LineReader {
    /// No line was read.
    pub fn new() -> LineReader {
        LineReader {
            head: [0; HEAD],
            length: 0,
            at: Moment { time: 0, delta: 0 },
        }
    }

    /// Reads a line of a listing.
    #[inline(always)]
    pub fn read<'a>(&mut self, line: &'a [u8]) -> Option<Line<'a>> {
        match self.rest(line) {
            Some(rest) => change(self.at, rest),
            None => self.read_whole(line),
        }
    }

    /// Reads a line, and notes its moment.
    #[inline(never)]
    fn read_whole<'a>(&mut self, line: &'a [u8]) -> Option<Line<'a>> {
        let read = read_line(line)?;
        if let Line::Change { at, name, .. } = read {
            self.note(without_return(line), name.len(), at);
        }
        Some(read)
    }

    /// The name and value in a line of the moment of the line before.
    #[inline(always)]
    fn rest<'a>(&self, line: &'a [u8]) -> Option<&'a [u8]> {
        let (head, rest) = line.split_at_checked(self.length)?;
        let noted = self.head.get(..self.length)?;
        if self.length > 0 && is_same(head, noted) {
            Some(rest)
        } else {
            None
        }
    }

    /// Notes the moment of a line, whose name has this length and whose value has one letter.
    fn note(&mut self, line: &[u8], length: usize, at: Moment) {
        let end = line.len().saturating_sub(length).saturating_sub(2);
        self.length = 0;
        let Some(head) = line.get(..end) else {
            return;
        };
        if let Some(room) = self.head.get_mut(..end) {
            room.copy_from_slice(head);
            self.length = end;
            self.at = at;
        }
    }
}
