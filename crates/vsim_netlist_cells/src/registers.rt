//! The types of registers and latches in Yosys' library.

use vsim_netlist_design::Style;

/// The registers: each with the first part of its type's name, and the letters of its pins in the
/// order of those in the second part, as `CE` for `$_DFFE_PN_`; `v` stands for the reset value.
static REGISTERS: [(&str, &str, Style); 15] = [
    ("DFF", "C", Style::Plain),
    ("DFF", "CRv", Style::Asynchronous),
    ("DFFE", "CE", Style::Plain),
    ("DFFE", "CRvE", Style::Asynchronous),
    ("SDFF", "CRv", Style::Synchronous),
    ("SDFFE", "CRvE", Style::Synchronous),
    ("SDFFCE", "CRvE", Style::SynchronousEnabled),
    ("ALDFF", "CL", Style::Loaded),
    ("ALDFFE", "CLE", Style::Loaded),
    ("DFFSR", "CSR", Style::SetReset),
    ("DFFSRE", "CSRE", Style::SetReset),
    ("DLATCH", "E", Style::Latch),
    ("DLATCH", "ERv", Style::Latch),
    ("DLATCHSR", "ESR", Style::Latch),
    ("SR", "SR", Style::Bare),
];

/// The letters and the style of a register, given the first part of its type's name and the number
/// of letters in the second.
pub(crate) fn letters(name: &str, count: usize) -> Option<(&'static str, Style)> {
    for (known, pins, style) in &REGISTERS {
        if *known == name && pins.len() == count {
            return Some((*pins, *style));
        }
    }
    None
}
