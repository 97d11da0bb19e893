//! A line that is built piece by piece.

use sim_logic::Logic;
use sim_text_grammar::ParseError;
use sim_text_tree::name::Name;
use std::alloc::{AllocError, Global};

/// A line, and whether all allocations succeeded, so that only `whole` returns an error.
#[derive(Drop)]
pub struct Line {
    text: String,
    ended: Result<(), AllocError>,
}

impl Line {
    /// An empty line.
    pub fn new(alloc: Global) -> Line {
        Line {
            text: String::new(alloc),
            ended: Ok(()),
        }
    }

    /// Appends a text, unless an allocation has failed.
    pub fn put(&mut self, text: &str) {
        if self.ended.is_ok() {
            self.ended = self.text.push_str(text);
        }
    }

    /// Appends an optional text.
    pub fn put_if(&mut self, written: bool, text: &str) {
        if written {
            self.put(text);
        }
    }

    /// Appends an ASCII character.
    pub fn put_byte(&mut self, byte: u8) {
        if self.ended.is_ok() {
            self.ended = self.text.push(char::from(byte));
        }
    }

    /// Appends a number in decimal.
    pub fn put_number(&mut self, number: usize) {
        if self.ended.is_ok() {
            let text = &mut self.text;
            self.ended = write!(text, "{number}");
        }
    }

    /// Appends `true` or `false`.
    pub fn put_truth(&mut self, truth: bool) {
        self.put(if truth { "true" } else { "false" });
    }

    /// Appends a token with its place.
    pub fn put_at(&mut self, token: &str, at: usize) {
        self.put(token);
        self.put("@");
        self.put_number(at);
    }

    /// Appends a name with its place.
    pub fn put_name(&mut self, name: &Name) {
        self.put_at(name.as_str(), name.at());
    }

    /// Appends a character literal with its place.
    pub fn put_literal(&mut self, value: Logic, at: usize) {
        self.put("'");
        self.put_byte(value.to_byte());
        self.put_at("'", at);
    }

    /// Appends the digits of a number with its place.
    pub fn put_digits(&mut self, digits: &[u8], at: usize) {
        for digit in digits {
            self.put_byte(*digit);
        }
        self.put_at("", at);
    }

    /// Appends a label with its place and a colon, if there is one.
    pub fn put_label(&mut self, label: &Option<Name>) {
        if let Some(name) = label {
            self.put_name(name);
            self.put(":");
        }
    }

    /// Appends names with their places, separated by commas.
    pub fn put_names(&mut self, names: &[Name]) {
        let mut between = "";
        for name in names {
            self.put(between);
            self.put_name(name);
            between = ",";
        }
    }

    /// Appends an error, with the number of tokens that remained.
    pub fn put_refusal(&mut self, error: ParseError) {
        match error {
            ParseError::OutOfMemory => self.put("OutOfMemory"),
            ParseError::Syntax(left) => self.put_left("Syntax", left),
            ParseError::TooDeep(left) => self.put_left("TooDeep", left),
            ParseError::TimeRange(left) => self.put_left("TimeRange", left),
        }
    }

    /// Appends the name of an error, and the number of tokens that remained.
    fn put_left(&mut self, refusal: &str, left: usize) {
        self.put(refusal);
        self.put(" with ");
        self.put_number(left);
        self.put(" left");
    }

    /// The whole line.
    pub fn whole(self) -> Result<String, AllocError> {
        match self.ended {
            Ok(()) => Ok(self.text),
            Err(error) => Err(error),
        }
    }
}
