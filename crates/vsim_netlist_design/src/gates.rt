//! The gates of Yosys' library: their output depends on their inputs alone.

use crate::bits::Bit;
use crate::library::Step;

/// A kind of gate.
#[derive(Clone, Copy, PartialEq, Eq)]
pub enum Gate {
    Buf,
    Not,
    And,
    Nand,
    Or,
    Nor,
    Xor,
    Xnor,
    AndNot,
    OrNot,
    Mux,
    Nmux,
    Mux4,
    Mux8,
    Mux16,
    Aoi3,
    Oai3,
    Aoi4,
    Oai4,
    Lut,
    Tristate,
    /// A function of a library's cell that no other gate computes.
    Function,
}

/// A gate: the connections of its inputs, in the order of `pins`, and the net of its output. The
/// inputs of a look-up table come lowest first, and its bits are in `table`, highest first. A gate
/// of a library has `steps` if it is no multiplexer: those on its inputs, or on its data if it is a
/// three-state buffer, whose enable comes last.
pub struct GateCell {
    pub gate: Gate,
    pub inputs: Vec<Bit>,
    pub output: usize,
    pub table: Option<String>,
    pub steps: Vec<Step>,
    /// Whether it is a part of a library's cell that has no delay of its own.
    pub is_inner: bool,
    /// Whether a three-state buffer drives while its enable is `0`.
    pub is_low: bool,
}

/// Written by hand so that code which drops it needs no proof about its contents.
impl Drop for GateCell {
    fn drop(self) {
        let GateCell {
            gate: _,
            inputs,
            output: _,
            table,
            steps,
            is_inner: _,
            is_low: _,
        } = self;
        drop(inputs);
        drop(table);
        drop(steps);
    }
}

/// The gates: each with the name of its type in a netlist, its name in `--delays`, and the names of
/// its inputs, one letter each; the data inputs of a multiplexer come first.
static GATES: [(Gate, &str, &str, &str); 21] = [
    (Gate::Buf, "$_BUF_", "buf", "A"),
    (Gate::Not, "$_NOT_", "not", "A"),
    (Gate::And, "$_AND_", "and", "AB"),
    (Gate::Nand, "$_NAND_", "nand", "AB"),
    (Gate::Or, "$_OR_", "or", "AB"),
    (Gate::Nor, "$_NOR_", "nor", "AB"),
    (Gate::Xor, "$_XOR_", "xor", "AB"),
    (Gate::Xnor, "$_XNOR_", "xnor", "AB"),
    (Gate::AndNot, "$_ANDNOT_", "andnot", "AB"),
    (Gate::OrNot, "$_ORNOT_", "ornot", "AB"),
    (Gate::Mux, "$_MUX_", "mux", "ABS"),
    (Gate::Nmux, "$_NMUX_", "nmux", "ABS"),
    (Gate::Mux4, "$_MUX4_", "mux4", "ABCDST"),
    (Gate::Mux8, "$_MUX8_", "mux8", "ABCDEFGHSTU"),
    (Gate::Mux16, "$_MUX16_", "mux16", "ABCDEFGHIJKLMNOPSTUV"),
    (Gate::Aoi3, "$_AOI3_", "aoi3", "ABC"),
    (Gate::Oai3, "$_OAI3_", "oai3", "ABC"),
    (Gate::Aoi4, "$_AOI4_", "aoi4", "ABCD"),
    (Gate::Oai4, "$_OAI4_", "oai4", "ABCD"),
    (Gate::Lut, "$lut", "lut", "A"),
    (Gate::Tristate, "$_TBUF_", "tbuf", "AE"),
];

impl Gate {
    /// The gate of a type, given by its name in a netlist, as in `$_AND_`.
    pub fn from_kind(kind: &str) -> Option<Gate> {
        for (gate, name, _, _) in &GATES {
            if *name == kind {
                return Some(*gate);
            }
        }
        None
    }

    /// The names of the gate's inputs, one letter each.
    pub fn pins(self) -> &'static str {
        for (gate, _, _, pins) in &GATES {
            if *gate == self {
                return *pins;
            }
        }
        ""
    }

    /// The name of the gate in `--delays`.
    pub fn name(self) -> &'static str {
        for (gate, _, name, _) in &GATES {
            if *gate == self {
                return *name;
            }
        }
        match self {
            Gate::Function => "others",
            _ => "",
        }
    }
}
