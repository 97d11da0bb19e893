//! The text that is explained: files, one after another.

use crate::places::{Place, place_at};

/// A file of a text: its name, and the place in the text where it ends.
#[derive(Drop)]
pub struct Part {
    pub name: String,
    pub end: usize,
}

/// A text of files, one after another.
#[derive(Clone, Copy)]
pub struct Source<'a> {
    pub text: &'a [u8],
    pub parts: &'a [Part],
}

impl<'a> Source<'a> {
    /// The name of the file with a place of the text, and the place where it begins. The end of the
    /// text is in its last file.
    fn part_at(&self, at: usize) -> (&'a str, usize) {
        let mut start = 0usize;
        let mut found = ("", start);
        for part in self.parts {
            found = (part.name.as_str(), start);
            if at < part.end {
                break;
            }
            start = part.end;
        }
        found
    }

    /// A place of the text, and the name of the file that has it.
    pub fn place(&self, at: usize) -> (&'a str, Place<'a>) {
        let (name, start) = self.part_at(at);
        let (_, file) = self.text.split_at(start.min(self.text.len()));
        (name, place_at(file, at.saturating_sub(start)))
    }
}
