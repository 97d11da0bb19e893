//! A case: what the program is given, and what it should answer.

use crate::repeated::{number, put_blanks, put_line, put_numbered, put_times};
use std::alloc::{AllocError, Global};
use std::str;

/// The arguments and the input of the program, and its expected answer.
#[derive(Drop)]
pub struct Case {
    pub name: String,
    pub words: Vec<String>,
    pub text: Vec<u8>,
    pub output: Vec<u8>,
    pub compares_output: bool,
    pub error: Vec<u8>,
    pub compares_error: bool,
    pub status: u32,
}

/// Adds a word of a command line.
fn push_word(alloc: Global, words: &mut Vec<String>, word: &str) -> Result<(), AllocError> {
    words.push(String::from_str(alloc, word)?)?;
    Ok(())
}

/// The words of a line, separated by blanks. A line that is not valid UTF-8 has none.
fn words_of(alloc: Global, line: &[u8]) -> Result<Vec<String>, AllocError> {
    let mut words = Vec::new(alloc);
    if let Ok(line) = str::from_utf8(line) {
        for word in line.split_whitespace() {
            push_word(alloc, &mut words, word)?;
        }
    }
    Ok(words)
}

impl Case {
    /// A case with an empty text and no listing, for the top `t`.
    pub fn new(alloc: Global, name: &[u8]) -> Result<Case, AllocError> {
        let name = match str::from_utf8(name) {
            Ok(name) => String::from_str(alloc, name)?,
            Err(_) => String::new(alloc),
        };
        Ok(Case {
            name,
            words: words_of(alloc, b"--top t")?,
            text: Vec::new(alloc),
            output: Vec::new(alloc),
            compares_output: true,
            error: Vec::new(alloc),
            compares_error: true,
            status: 0,
        })
    }

    /// Begins a line of the text.
    fn put_text(&mut self, line: &[u8]) -> Result<bool, AllocError> {
        if !self.text.is_empty() {
            self.text.push(b'\n')?;
        }
        self.put_more(line)
    }

    /// Extends the last line of the text.
    fn put_more(&mut self, line: &[u8]) -> Result<bool, AllocError> {
        self.text.extend_from_slice(line)?;
        Ok(true)
    }

    /// Sets the words.
    fn put_words(&mut self, alloc: Global, line: &[u8]) -> Result<bool, AllocError> {
        self.words = words_of(alloc, line)?;
        Ok(true)
    }

    /// Sets the expected status.
    fn put_status(&mut self, line: &[u8]) -> bool {
        match number(line) {
            Some(status) => {
                self.status = status;
                true
            }
            None => false,
        }
    }

    /// Sets what is not compared.
    fn put_spared(&mut self, line: &[u8]) -> bool {
        match line {
            b">" => self.compares_output = false,
            b"!" => self.compares_error = false,
            _ => return false,
        }
        true
    }

    /// Whether its run finishes, so that there is a listing to compare.
    pub fn is_listed(&self) -> bool {
        self.status == 0 && self.compares_output
    }

    /// Asks for this many workers, unless the words say how many.
    pub fn put_workers(&mut self, alloc: Global, workers: &str) -> Result<(), AllocError> {
        for word in &self.words {
            if word.starts_with("--workers") {
                return Ok(());
            }
        }
        push_word(alloc, &mut self.words, "--workers")?;
        push_word(alloc, &mut self.words, workers)
    }

    /// Reads a line of the case: its mark, and what follows the blank after it. `false` if it is
    /// not one.
    pub fn put(&mut self, alloc: Global, mark: u8, line: &[u8]) -> Result<bool, AllocError> {
        match mark {
            b'$' => self.put_words(alloc, line),
            b'<' => self.put_text(line),
            b'+' => self.put_more(line),
            b'*' => put_times(&mut self.text, line),
            b'_' => put_blanks(&mut self.text, line),
            b'@' => put_numbered(alloc, &mut self.text, line, b""),
            b'>' => put_line(&mut self.output, line),
            b'&' => put_numbered(alloc, &mut self.output, line, b"\n"),
            b'!' => put_line(&mut self.error, line),
            b'?' => Ok(self.put_status(line)),
            b'~' => Ok(self.put_spared(line)),
            _ => Ok(false),
        }
    }
}
