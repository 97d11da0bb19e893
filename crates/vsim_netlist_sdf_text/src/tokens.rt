//! The tokens of a file in the standard delay format.

use std::str;

/// A token.
#[derive(Clone, Copy, PartialEq, Eq)]
pub enum Token<'a> {
    /// `(` and `)`.
    Open,
    Close,
    /// A keyword, a name or a number.
    Word(&'a str),
    /// What stands between quotation marks.
    Quoted(&'a str),
    EndOfFile,
    /// What does not end.
    Broken(&'static str),
}

/// A text of a file, and the token at which a reader is.
#[derive(Clone, Copy)]
pub struct Tokens<'a> {
    text: &'a [u8],
    /// Where the next token is looked for, and the line there.
    place: usize,
    line: usize,
    pub token: Token<'a>,
    /// Where the token begins, where it ends, and the line on which it begins.
    pub start: usize,
    pub end: usize,
    pub token_line: usize,
}

/// The bytes from a place on.
fn rest(text: &[u8], place: usize) -> &[u8] {
    match text.get(place..) {
        Some(rest) => rest,
        None => &[],
    }
}

/// The text between two places. Bytes that are no text make it one that no name is equal to.
fn between(text: &[u8], start: usize, end: usize) -> &str {
    match text.get(start..end) {
        Some(bytes) => str::from_utf8(bytes).unwrap_or("\u{fffd}"),
        None => "",
    }
}

/// Whether a byte is a blank or an end of a line.
fn is_blank(byte: u8) -> bool {
    matches!(byte, b' ' | b'\t' | b'\r' | b'\n')
}

/// Whether a byte ends a word.
fn ends_word(byte: u8) -> bool {
    is_blank(byte) || matches!(byte, b'(' | b')' | b'"')
}

/// The length of the word at the start of these bytes. A byte after a backslash belongs to it, and
/// a comment ends it.
fn count_word(bytes: &[u8]) -> usize {
    let mut last = b' ';
    for (place, byte) in bytes.iter().enumerate() {
        let is_escaped = last == b'\\' && !is_blank(*byte);
        if !is_escaped && ends_word(*byte) {
            return place;
        }
        if last == b'/' && matches!(*byte, b'*' | b'/') {
            return place.saturating_sub(1);
        }
        last = if is_escaped { b' ' } else { *byte };
    }
    bytes.len()
}

/// The length of a line, without its end.
fn count_line(bytes: &[u8]) -> usize {
    for (place, byte) in bytes.iter().enumerate() {
        if *byte == b'\n' {
            return place;
        }
    }
    bytes.len()
}

/// The length of the text before a closing quotation mark, and the number of its ends of lines.
/// `None` if no mark closes it.
fn count_quoted(bytes: &[u8]) -> Option<(usize, usize)> {
    let mut lines = 0usize;
    for (place, byte) in bytes.iter().enumerate() {
        if *byte == b'"' {
            return Some((place, lines));
        }
        if *byte == b'\n' {
            lines = lines.saturating_add(1);
        }
    }
    None
}

/// The length of a comment after its first two bytes, and the number of its ends of lines. `None`
/// if it does not end.
fn count_comment(bytes: &[u8]) -> Option<(usize, usize)> {
    let (mut lines, mut last) = (0usize, b' ');
    for (place, byte) in bytes.iter().enumerate() {
        if last == b'*' && *byte == b'/' {
            return Some((place.saturating_add(1), lines));
        }
        if *byte == b'\n' {
            lines = lines.saturating_add(1);
        }
        last = *byte;
    }
    None
}

/// All tokens of a text. The reader is at the first one.
pub fn tokens_of(text: &[u8]) -> Tokens<'_> {
    let mut tokens = Tokens {
        text,
        place: 0,
        line: 1,
        token: Token::EndOfFile,
        start: 0,
        end: 0,
        token_line: 1,
    };
    tokens.advance();
    tokens
}

impl<'a> Tokens<'a> {
    /// Goes past a number of bytes and ends of lines.
    fn pass(&mut self, bytes: usize, lines: usize) {
        self.place = self.place.saturating_add(bytes);
        self.line = self.line.saturating_add(lines);
    }

    /// Goes past a comment, if it ends.
    fn pass_comment(&mut self) -> bool {
        match count_comment(rest(self.text, self.place.saturating_add(2))) {
            Some((bytes, lines)) => {
                self.pass(bytes.saturating_add(2), lines);
                true
            }
            None => false,
        }
    }

    /// Goes past a blank, a comment or the end of a line. Returns `false` if there is none.
    fn pass_blank(&mut self) -> bool {
        match rest(self.text, self.place) {
            [b' ' | b'\t' | b'\r', ..] => self.pass(1, 0),
            [b'\n', ..] => self.pass(1, 1),
            [b'/', b'*', ..] => return self.pass_comment(),
            [b'/', b'/', ..] => {
                let length = count_line(rest(self.text, self.place));
                self.pass(length, 0);
            }
            _ => return false,
        }
        true
    }

    /// Goes past blanks, comments and ends of lines.
    fn pass_blanks(&mut self) {
        for _ in self.place..=self.text.len() {
            if !self.pass_blank() {
                break;
            }
        }
    }

    /// Takes a token of one byte.
    fn take_sign(&mut self, token: Token<'a>) -> Token<'a> {
        self.pass(1, 0);
        token
    }

    /// Takes what stands between quotation marks.
    fn take_quoted(&mut self) -> Token<'a> {
        let start = self.place.saturating_add(1);
        match count_quoted(rest(self.text, start)) {
            Some((bytes, lines)) => {
                self.pass(bytes.saturating_add(2), lines);
                Token::Quoted(between(self.text, start, start.saturating_add(bytes)))
            }
            None => Token::Broken("a quotation mark does not close"),
        }
    }

    /// Takes a word.
    fn take_word(&mut self) -> Token<'a> {
        let start = self.place;
        let length = count_word(rest(self.text, start));
        if length == 0 {
            return Token::Broken("a comment does not end");
        }
        self.pass(length, 0);
        Token::Word(between(self.text, start, self.place))
    }

    /// Takes the token at the place.
    fn take(&mut self) -> Token<'a> {
        match rest(self.text, self.place) {
            [] => Token::EndOfFile,
            [b'(', ..] => self.take_sign(Token::Open),
            [b')', ..] => self.take_sign(Token::Close),
            [b'"', ..] => self.take_quoted(),
            _ => self.take_word(),
        }
    }

    /// Goes to the next token.
    pub fn advance(&mut self) {
        self.pass_blanks();
        self.start = self.place;
        self.token_line = self.line;
        self.token = self.take();
        self.end = self.place;
    }

    /// The text of the file between two places.
    pub fn between(&self, start: usize, end: usize) -> &'a str {
        between(self.text, start, end)
    }
}
