//! Why there is no text.

use crate::writing::Draft;
use std::alloc::{AllocError, Global};

/// Why an input is refused, as a sentence without its end, or a lack of memory. The sentence is in a
/// box: results that may have one are small then, and so are the proofs of functions that pass them.
#[derive(Drop)]
pub enum Fault {
    Memory,
    Refused(Box<Draft>),
}

impl Fault {
    /// A sentence that is put together from these parts.
    pub fn of(alloc: Global, parts: &[&str]) -> Fault {
        let mut text = Draft::new(alloc);
        text.push_all(parts);
        Fault::of_draft(text)
    }

    /// A sentence; a lack of memory if it lacks a part.
    pub fn of_draft(text: Draft) -> Fault {
        if !text.is_whole() {
            return Fault::Memory;
        }
        match Box::new(text.alloc(), text) {
            Ok(text) => Fault::Refused(text),
            Err(_lack) => Fault::Memory,
        }
    }

    /// The same sentence after what it is about, which is put together from these parts.
    pub fn about(self, alloc: Global, parts: &[&str]) -> Fault {
        match self {
            Fault::Memory => Fault::Memory,
            Fault::Refused(told) => {
                let mut text = Draft::new(alloc);
                text.push_all(parts);
                text.push(": ");
                text.push_draft(told.as_ref());
                Fault::of_draft(text)
            }
        }
    }
}

impl From<AllocError> for Fault {
    fn from(_lack: AllocError) -> Fault {
        Fault::Memory
    }
}

/// A fault on a line.
pub fn fault_at(alloc: Global, line: usize, parts: &[&str]) -> Fault {
    let mut text = Draft::new(alloc);
    text.push_shown(&line);
    text.push(": ");
    text.push_all(parts);
    Fault::of_draft(text)
}

/// The maximum number of characters of a text that a refusal shows.
const MOST_SHOWN: usize = 80;

/// A text on one line, and of some length at most.
pub fn line_of(alloc: Global, text: &str) -> Draft {
    let mut line = Draft::new(alloc);
    for (place, character) in text.chars().enumerate() {
        if place == MOST_SHOWN {
            line.push(" ..");
            break;
        }
        line.push_char(if character.is_control() {
            ' '
        } else {
            character
        });
    }
    line
}
