//! Variables of the source that nothing drives.

use std::alloc::{AllocError, Global};
use vsim_netlist_design::{Bit, Draft, Netlist, Variable};
use vsim_netlist_uses::{is_marked, push_bit_name};

/// The most variables and bits that are named.
const MOST_NAMED: usize = 10;

/// The names so far, and the number of variables and bits that are to be named.
struct Undriven {
    text: Draft,
    count: usize,
}

/// Whether something drives a bit, given which nets are driven. A constant needs no driver.
pub(crate) fn is_driven(driven: &[bool], bit: Bit) -> bool {
    match bit {
        Bit::Net(place) => is_marked(driven, place),
        Bit::Constant(_) => true,
    }
}

/// Whether something drives a bit of a variable.
pub(crate) fn has_driver(driven: &[bool], variable: &Variable) -> bool {
    for bit in variable.bits.iter() {
        if is_driven(driven, *bit) {
            return true;
        }
    }
    variable.bits.is_empty()
}

impl Undriven {
    /// Counts a variable or bit. Returns whether it is to be named; then adds a comma if need be.
    fn is_named(&mut self) -> bool {
        self.count = self.count.saturating_add(1);
        if self.count > 1 && self.count <= MOST_NAMED {
            self.text.push(", ");
        }
        self.count <= MOST_NAMED
    }

    /// Adds the bits of a variable that nothing drives.
    fn add_bits(&mut self, driven: &[bool], variable: &Variable) {
        for (place, bit) in variable.bits.iter().enumerate() {
            if !is_driven(driven, *bit) && self.is_named() {
                push_bit_name(&mut self.text, variable, place);
            }
        }
    }

    /// Adds a variable if nothing drives it, or its bits that nothing drives.
    fn add(&mut self, driven: &[bool], variable: &Variable) {
        if has_driver(driven, variable) {
            self.add_bits(driven, variable);
        } else if self.is_named() {
            self.text.push(variable.name.as_str());
        }
    }

    /// Adds the variables of a netlist.
    fn add_all(&mut self, driven: &[bool], netlist: &Netlist) {
        for variable in netlist.variables.iter() {
            self.add(driven, variable);
        }
    }

    /// The note about what was added; empty if that is nothing.
    fn into_note(self, alloc: Global) -> Result<String, AllocError> {
        let Undriven { text, count } = self;
        if count == 0 {
            return text.finish();
        }
        let mut note = Draft::of(alloc, "vsim_netlist: nothing drives ");
        note.push_draft(&text);
        if count > MOST_NAMED {
            note.push(" and ");
            note.push_shown(&count.saturating_sub(MOST_NAMED));
            note.push(" more");
        }
        note.push(", which the map leaves out\n");
        note.finish()
    }
}

/// A note about the variables that nothing drives; empty if there are none.
pub(crate) fn note_undriven(
    alloc: Global,
    netlist: &Netlist,
    driven: &[bool],
) -> Result<String, AllocError> {
    let mut undriven = Undriven {
        text: Draft::new(alloc),
        count: 0,
    };
    undriven.add_all(driven, netlist);
    undriven.into_note(alloc)
}
