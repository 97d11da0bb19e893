//! Sets of names.

use crate::reading::Reading;
use std::alloc::Global;
use std::collections::HashSet;

/// Names without repetition.
pub(crate) struct Names {
    known: HashSet<String>,
}

/// Written by hand so that code which drops it needs no proof about its contents.
impl Drop for Names {
    fn drop(self) {
        let Names { known } = self;
        drop(known);
    }
}

impl Names {
    /// No names.
    pub(crate) fn new(alloc: Global) -> Names {
        Names {
            known: HashSet::new(alloc),
        }
    }

    /// Adds a name, and returns whether it was there.
    pub(crate) fn add(&mut self, reading: &mut Reading, name: &str) -> bool {
        let name = reading.text(name);
        match self.known.insert(name) {
            Ok(is_new) => !is_new,
            Err(_lack) => {
                reading.lack();
                false
            }
        }
    }

    /// Whether a name is there.
    pub(crate) fn has(&self, name: &str) -> bool {
        self.known.contains(name)
    }
}
