//! The parts of a function's text.

/// A part: a name or a constant, a parenthesis, or an operator.
#[derive(Clone, Copy, PartialEq, Eq)]
pub(crate) enum Mark<'a> {
    Name(&'a str),
    Open,
    Close,
    /// `!`, before what it negates.
    Not,
    /// `'`, after what it negates.
    Prime,
    Xor,
    And,
    Or,
    Other,
    End,
}

/// The parts of a text that have not been taken.
#[derive(Clone, Copy)]
pub(crate) struct Marks<'a> {
    text: &'a str,
    place: usize,
}

/// All parts of a text.
pub(crate) fn marks_of(text: &str) -> Marks<'_> {
    Marks { text, place: 0 }
}

/// Whether a byte may stand in a name.
fn is_in_name(byte: u8) -> bool {
    byte.is_ascii_alphanumeric() || matches!(byte, b'_' | b'[' | b']' | b'.' | b'$')
}

/// The number of bytes at the start that a name may have.
fn count_name(bytes: &[u8]) -> usize {
    for (place, byte) in bytes.iter().enumerate() {
        if !is_in_name(*byte) {
            return place;
        }
    }
    bytes.len()
}

/// The number of blanks at the start. A backslash counts as one: it ends a line that goes on.
fn count_blanks(bytes: &[u8]) -> usize {
    for (place, byte) in bytes.iter().enumerate() {
        if !matches!(*byte, b' ' | b'\t' | b'\r' | b'\n' | b'\\') {
            return place;
        }
    }
    bytes.len()
}

/// The part of one byte.
fn sign(byte: u8) -> Mark<'static> {
    match byte {
        b'(' => Mark::Open,
        b')' => Mark::Close,
        b'!' => Mark::Not,
        b'\'' => Mark::Prime,
        b'^' => Mark::Xor,
        b'*' | b'&' => Mark::And,
        b'+' | b'|' => Mark::Or,
        _ => Mark::Other,
    }
}

impl<'a> Marks<'a> {
    /// The bytes that are left.
    fn rest(&self) -> &'a [u8] {
        match self.text.as_bytes().get(self.place..) {
            Some(rest) => rest,
            None => &[],
        }
    }

    /// Goes past blanks.
    fn pass_blanks(&mut self) {
        self.place = self.place.saturating_add(count_blanks(self.rest()));
    }

    /// Takes a part of this number of bytes.
    fn take_name(&mut self, length: usize) -> Mark<'a> {
        let start = self.place;
        self.place = start.saturating_add(length);
        match self.text.get(start..self.place) {
            Some(name) => Mark::Name(name),
            None => Mark::Other,
        }
    }

    /// Takes the next part.
    pub(crate) fn take(&mut self) -> Mark<'a> {
        self.pass_blanks();
        let Some(byte) = self.rest().first() else {
            return Mark::End;
        };
        let length = count_name(self.rest());
        if length > 0 {
            return self.take_name(length);
        }
        self.place = self.place.saturating_add(1);
        sign(*byte)
    }
}
