//! Texts that are put together part by part.

use std::alloc::{AllocError, Global};
use std::fmt::{Display, Write};

/// A text that is being put together. If memory runs out, the draft notes that a part is missing;
/// a writer adds parts without testing each, and `finish` reports it at the end.
pub struct Draft {
    text: String,
    is_whole: bool,
}

/// Written by hand so that code which drops it needs no proof about its contents.
impl Drop for Draft {
    fn drop(self) {
        let Draft { text, is_whole: _ } = self;
        drop(text);
    }
}

impl Draft {
    /// An empty text.
    pub fn new(alloc: Global) -> Draft {
        Draft {
            text: String::new(alloc),
            is_whole: true,
        }
    }

    /// Where the text is.
    pub fn alloc(&self) -> Global {
        *self.text.allocator()
    }

    /// A text of one part.
    pub fn of(alloc: Global, part: &str) -> Draft {
        let mut draft = Draft::new(alloc);
        draft.push(part);
        draft
    }

    /// Adds a part.
    pub fn push(&mut self, part: &str) {
        if self.text.push_str(part).is_err() {
            self.is_whole = false;
        }
    }

    /// Adds parts.
    pub fn push_all(&mut self, parts: &[&str]) {
        for part in parts {
            self.push(part);
        }
    }

    /// Adds a character.
    pub fn push_char(&mut self, character: char) {
        if self.text.push(character).is_err() {
            self.is_whole = false;
        }
    }

    /// Adds a value as it is displayed.
    pub fn push_shown<T: Display>(&mut self, value: &T) {
        if write!(&mut self.text, "{value}").is_err() {
            self.is_whole = false;
        }
    }

    /// Adds another text. If that lacks a part, so does this one.
    pub fn push_draft(&mut self, other: &Draft) {
        self.push(other.text.as_str());
        self.lack_with(other);
    }

    /// Notes that this text lacks a part if another one does, from which it is made.
    pub fn lack_with(&mut self, other: &Draft) {
        self.is_whole = self.is_whole && other.is_whole;
    }

    /// Notes that a part is missing.
    pub fn lack(&mut self) {
        self.is_whole = false;
    }

    /// Whether no part is missing.
    pub fn is_whole(&self) -> bool {
        self.is_whole
    }

    /// The text so far, to be looked at.
    pub fn as_str(&self) -> &str {
        self.text.as_str()
    }

    /// The text so far, to decide how it goes on.
    pub fn so_far(&mut self) -> &str {
        self.text.as_str()
    }

    /// The text so far, to decide what goes into another one. That lacks a part if this one does.
    pub fn read_for(&self, made: &mut Draft) -> &str {
        made.lack_with(self);
        self.text.as_str()
    }

    /// The whole text, or an error if it lacks a part.
    pub fn finish(self) -> Result<String, AllocError> {
        let Draft { text, is_whole } = self;
        if is_whole { Ok(text) } else { Err(AllocError) }
    }
}
