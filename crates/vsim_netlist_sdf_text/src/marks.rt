//! The parts of a condition's text.

use vsim_netlist_design::Level;

/// An operator between two operands.
#[derive(Clone, Copy, PartialEq, Eq)]
pub(crate) enum Operator {
    And,
    Or,
    Xor,
    Xnor,
    Both,
    Either,
    Equal,
    Differs,
}

/// A part: a name or a constant, a parenthesis, or an operator.
#[derive(Clone, Copy, PartialEq, Eq)]
pub(crate) enum Mark<'a> {
    Name(&'a str),
    Constant(Level),
    Open,
    Close,
    Not,
    Operator(Operator),
    /// What no condition may have.
    Other,
    End,
}

/// The parts of a text that have not been taken.
#[derive(Clone, Copy)]
pub(crate) struct Marks<'a> {
    text: &'a str,
    place: usize,
}

/// All parts of a text.
pub(crate) fn marks_of(text: &str) -> Marks<'_> {
    Marks { text, place: 0 }
}

/// Whether a byte may stand in a name or a constant.
fn is_in_name(byte: u8) -> bool {
    byte.is_ascii_alphanumeric() || matches!(byte, b'_' | b'[' | b']' | b'.' | b'$' | b'\'')
}

/// The number of bytes at the start that a name or a constant may have. One after a backslash
/// belongs to it.
fn count_name(bytes: &[u8]) -> usize {
    let mut is_escaped = false;
    for (place, byte) in bytes.iter().enumerate() {
        let is_backslash = *byte == b'\\';
        if !is_escaped && !is_backslash && !is_in_name(*byte) {
            return place;
        }
        is_escaped = is_backslash && !is_escaped;
    }
    bytes.len()
}

/// The number of blanks at the start.
fn count_blanks(bytes: &[u8]) -> usize {
    for (place, byte) in bytes.iter().enumerate() {
        if !matches!(*byte, b' ' | b'\t' | b'\r' | b'\n') {
            return place;
        }
    }
    bytes.len()
}

/// The sign at the start, and its length.
fn sign(bytes: &[u8]) -> (Mark<'static>, usize) {
    match bytes {
        [b'=', b'=', b'=', ..] | [b'!', b'=', b'=', ..] => (Mark::Other, 3),
        [b'=', b'=', ..] => (Mark::Operator(Operator::Equal), 2),
        [b'!', b'=', ..] => (Mark::Operator(Operator::Differs), 2),
        [b'~', b'^', ..] | [b'^', b'~', ..] => (Mark::Operator(Operator::Xnor), 2),
        [b'&', b'&', ..] => (Mark::Operator(Operator::Both), 2),
        [b'|', b'|', ..] => (Mark::Operator(Operator::Either), 2),
        [b'&', ..] => (Mark::Operator(Operator::And), 1),
        [b'|', ..] => (Mark::Operator(Operator::Or), 1),
        [b'^', ..] => (Mark::Operator(Operator::Xor), 1),
        [b'!' | b'~', ..] => (Mark::Not, 1),
        [b'(', ..] => (Mark::Open, 1),
        [b')', ..] => (Mark::Close, 1),
        _ => (Mark::Other, 1),
    }
}

/// A name or a constant.
fn operand(text: &str) -> Mark<'_> {
    match text {
        "0" | "1'b0" | "1'B0" | "'b0" | "'B0" => Mark::Constant(Level::Zero),
        "1" | "1'b1" | "1'B1" | "'b1" | "'B1" => Mark::Constant(Level::One),
        _ if text.starts_with(|first: char| first.is_ascii_digit() || first == '\'') => Mark::Other,
        _ => Mark::Name(text),
    }
}

impl<'a> Marks<'a> {
    /// The bytes that are left.
    fn rest(&self) -> &'a [u8] {
        match self.text.as_bytes().get(self.place..) {
            Some(rest) => rest,
            None => &[],
        }
    }

    /// Goes past a number of bytes.
    fn pass(&mut self, length: usize) {
        self.place = self.place.saturating_add(length);
    }

    /// Takes a name or a constant of this number of bytes.
    fn take_operand(&mut self, length: usize) -> Mark<'a> {
        let start = self.place;
        self.pass(length);
        match self.text.get(start..self.place) {
            Some(text) => operand(text),
            None => Mark::Other,
        }
    }

    /// Takes the next part.
    pub(crate) fn take(&mut self) -> Mark<'a> {
        self.pass(count_blanks(self.rest()));
        if self.rest().is_empty() {
            return Mark::End;
        }
        let length = count_name(self.rest());
        if length > 0 {
            return self.take_operand(length);
        }
        let (mark, length) = sign(self.rest());
        self.pass(length);
        mark
    }
}
