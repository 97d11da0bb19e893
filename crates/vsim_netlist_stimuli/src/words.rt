//! The words of a text, with the lines that they are on.

use std::str::{Lines, SplitAsciiWhitespace};

/// The words of a text that have not been taken, and the number of the line of the last one.
#[derive(Drop)]
pub(crate) struct Words<'a> {
    lines: Lines<'a>,
    words: SplitAsciiWhitespace<'a>,
    line: usize,
}

/// All words of a text.
pub(crate) fn words_of(text: &str) -> Words<'_> {
    Words {
        lines: text.lines(),
        words: "".split_ascii_whitespace(),
        line: 0,
    }
}

impl<'a> Words<'a> {
    /// Goes to the next line. Returns `false` after the last one.
    fn go_on(&mut self) -> bool {
        let Some(line) = self.lines.next() else {
            return false;
        };
        self.words = line.split_ascii_whitespace();
        self.line = self.line.saturating_add(1);
        true
    }

    /// Takes the next word, if there is one.
    pub(crate) fn take(&mut self) -> Option<&'a str> {
        for _ in 0..u64::MAX {
            if let Some(word) = self.words.next() {
                return Some(word);
            }
            if !self.go_on() {
                break;
            }
        }
        None
    }

    /// The number of the line of the last word.
    pub(crate) fn line(&self) -> usize {
        self.line
    }
}
