//! Names with backslashes, and the parts that a divider separates.

use std::alloc::Global;
use vsim_netlist_design::Draft;

/// A hierarchical name: its last part, and the parts before it with dots between them.
#[derive(Drop)]
pub struct Hierarchical {
    alloc: Global,
    pub path: Draft,
    pub last: Draft,
    is_escaped: bool,
}

/// Adds a part to a name, after a dot if it is not the first.
pub fn push_part(name: &mut Draft, part: &Draft) {
    if !name.as_str().is_empty() && !part.as_str().is_empty() {
        name.push(".");
    }
    name.push_draft(part);
}

impl Hierarchical {
    /// Ends the last part.
    fn end_part(&mut self) {
        push_part(&mut self.path, &self.last);
        self.last = Draft::new(self.alloc);
    }

    /// Takes a character.
    fn take(&mut self, character: char, divider: char) {
        if self.is_escaped {
            self.is_escaped = false;
            self.last.push_char(character);
        } else if character == '\\' {
            self.is_escaped = true;
        } else if character == divider {
            self.end_part();
        } else {
            self.last.push_char(character);
        }
    }

    /// The whole name.
    pub fn whole(self) -> Draft {
        let Hierarchical {
            alloc: _,
            path,
            last,
            is_escaped: _,
        } = self;
        let mut path = path;
        push_part(&mut path, &last);
        path
    }
}

/// The parts of a word. A character after a backslash is a part of a name.
pub fn parts_of(alloc: Global, word: &str, divider: char) -> Hierarchical {
    let mut name = Hierarchical {
        alloc,
        path: Draft::new(alloc),
        last: Draft::new(alloc),
        is_escaped: false,
    };
    for character in word.chars() {
        name.take(character, divider);
    }
    name
}
