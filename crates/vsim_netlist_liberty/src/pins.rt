//! The names that functions may have.

use std::collections::HashMap;
use vsim_netlist_design::{Source, Variant};

/// The pins of a cell by their names, and the names of the variables of its register, which are
/// empty if it has none.
#[derive(Clone, Copy)]
pub(crate) struct Names<'a> {
    pub(crate) places: &'a HashMap<String, usize>,
    pub(crate) plain: &'a str,
    pub(crate) negated: &'a str,
}

impl Names<'_> {
    /// The pin or variable with a name.
    pub(crate) fn source(&self, name: &str) -> Option<Source> {
        if !name.is_empty() && name == self.plain {
            return Some(Source::Variable(Variant::Plain));
        }
        if !name.is_empty() && name == self.negated {
            return Some(Source::Variable(Variant::Negated));
        }
        match self.places.get(name) {
            Some(place) => Some(Source::Pin(*place)),
            None => None,
        }
    }
}
