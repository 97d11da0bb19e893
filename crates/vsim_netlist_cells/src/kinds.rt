//! The cells of a module, by their types.

use crate::document::{WrittenBit, WrittenCell};
use crate::library_cells::put_library_cell;
use crate::reading::Reading;
use crate::registers::letters;
use std::alloc::Global;
use vsim_netlist_design::{
    Bit, Control, Delays, Draft, Fault, Gate, Level, Library, LibraryEntry, Netlist, Register,
    Style,
};

/// Where cells are made, and the library of those that are not Yosys' own.
#[derive(Clone, Copy)]
pub(crate) struct Site<'a> {
    pub(crate) alloc: Global,
    pub(crate) library: &'a Library,
    /// The delays of a file, if there is one.
    pub(crate) delays: Option<&'a Delays>,
    /// The level with which registers and latches begin, if it is given.
    pub(crate) initial: Option<Level>,
}

/// The maximum number of inputs of a look-up table.
const MOST_INPUTS: usize = 6;

/// The kind of a cell type: a gate, a register with the letters of its type, a note without effect
/// in a simulation, or none of these.
#[derive(Clone, Copy)]
enum Kind<'a> {
    Gate(Gate),
    Register(&'a str, &'static str, Style),
    Note,
    Other,
}

/// The name of a type of Yosys' gate library without `$_` and `_`.
fn inner(kind: &str) -> Option<&str> {
    kind.strip_prefix("$_")?.strip_suffix("_")
}

/// The kind of a register's type, given by its name without `$_` and `_`.
fn kind_of_register(inner: &str) -> Kind<'_> {
    let Some((name, given)) = inner.split_once('_') else {
        return Kind::Other;
    };
    match letters(name, given.len()) {
        Some((pins, style)) => Kind::Register(given, pins, style),
        None => Kind::Other,
    }
}

/// The kind of a cell type.
fn kind_of(kind: &str) -> Kind<'_> {
    if let Some(gate) = Gate::from_kind(kind) {
        return Kind::Gate(gate);
    }
    match kind {
        "$scopeinfo" | "$print" | "$check" => Kind::Note,
        _ => match inner(kind) {
            Some(inner) => kind_of_register(inner),
            None => Kind::Other,
        },
    }
}

/// The beginnings of the names of cells that FPGAs have and gates have not.
static OF_FPGAS: [&str; 17] = [
    "SB_",
    "ICESTORM_",
    "TRELLIS_",
    "CCU2",
    "PFUMX",
    "L6MUX21",
    "DP16KD",
    "MULT18X18",
    "EHXPLL",
    "CARRY4",
    "CARRY8",
    "MUXF",
    "BUFG",
    "DSP48",
    "RAMB",
    "SRL16",
    "SRLC32",
];

/// Other names of cells that FPGAs have.
static CELLS_OF_FPGAS: [&str; 17] = [
    "LUT1", "LUT2", "LUT3", "LUT4", "LUT5", "LUT6", "FDRE", "FDSE", "FDCE", "FDPE", "LDCE", "LDPE",
    "INV", "IBUF", "OBUF", "IOBUF", "OBUFT",
];

/// Whether a type is a cell of an FPGA, as synth_ice40, synth_xilinx and synth_ecp5 make.
fn is_of_fpga(kind: &str) -> bool {
    for begin in &OF_FPGAS {
        if kind.starts_with(*begin) {
            return true;
        }
    }
    CELLS_OF_FPGAS.contains(&kind)
}

/// Advice on a type that is not a gate of Yosys' library, nor in the library that is given.
fn advice(kind: &str, has_library: bool) -> &'static str {
    if kind.starts_with("$_") {
        "a gate that this program does not know"
    } else if kind.starts_with("$") {
        "run memory_map, techmap and simplemap before write_json"
    } else if is_of_fpga(kind) {
        "a cell of an FPGA: use synth in place of synth_ice40, synth_xilinx or synth_ecp5"
    } else if has_library {
        "no Liberty file has such a cell"
    } else {
        "run flatten before write_json, or name the library that has it by --liberty"
    }
}

/// The connection of a pin.
fn pins<'a>(cell: &'a WrittenCell, name: &str) -> Option<&'a [WrittenBit]> {
    for (key, bits) in cell.connections.entries.iter() {
        if key.as_str() == name {
            return Some(bits.as_slice());
        }
    }
    None
}

/// The connection of a pin of one bit.
fn pin(cell: &WrittenCell, reading: &mut Reading, name: &str) -> Bit {
    match pins(cell, name) {
        Some([bit]) => reading.bit(*bit),
        _ => {
            reading.refuse(&["its pin ", name, " is not connected with one bit"]);
            Bit::Constant(Level::Unknown)
        }
    }
}

/// The net of an output.
fn output(cell: &WrittenCell, reading: &mut Reading, name: &str) -> usize {
    match pin(cell, reading, name) {
        Bit::Net(place) => place,
        Bit::Constant(_) => {
            reading.refuse(&["its output ", name, " is connected with a constant"]);
            0
        }
    }
}

/// The letter at an index, as a name.
fn letter_at(names: &str, place: usize) -> &str {
    names.get(place..place.saturating_add(1)).unwrap_or("A")
}

/// Adds a gate other than a look-up table. Its inputs are each named by a letter.
fn put_gate(cell: &WrittenCell, reading: &mut Reading, netlist: &mut Netlist, gate: Gate) {
    let output = output(cell, reading, "Y");
    let mut made = reading.gate(gate, output);
    let names = gate.pins();
    for place in 0..names.len() {
        let bit = pin(cell, reading, letter_at(names, place));
        reading.push(&mut made.inputs, bit);
    }
    reading.put_gate(netlist, made, None);
}

/// Whether a text has only the digits 0 and 1.
fn is_binary(text: &[u8]) -> bool {
    for digit in text {
        if *digit != b'0' && *digit != b'1' {
            return false;
        }
    }
    true
}

/// Whether a table has one bit for each combination of this number of inputs.
fn is_table(table: &str, inputs: usize) -> bool {
    inputs <= MOST_INPUTS && table.len() == (1usize << inputs) && is_binary(table.as_bytes())
}

/// The refusal of a parameter that is no table.
fn no_table(alloc: Global) -> Fault {
    let mut text = Draft::of(alloc, "its LUT is no table of at most ");
    text.push_shown(&MOST_INPUTS);
    text.push(" inputs, of 0 and 1");
    Fault::of_draft(text)
}

/// The table of a cell with this number of inputs.
fn table<'a>(cell: &'a WrittenCell, reading: &mut Reading, inputs: usize) -> &'a str {
    match cell.parameters.table.as_str() {
        Some(table) if is_table(table, inputs) => table,
        Some(_) => {
            reading.fail(no_table(reading.alloc));
            ""
        }
        None => {
            reading.refuse(&["it has no parameter LUT"]);
            ""
        }
    }
}

/// Adds a look-up table.
fn put_lookup(cell: &WrittenCell, reading: &mut Reading, netlist: &mut Netlist) {
    let output = output(cell, reading, "Y");
    let Some(written) = pins(cell, "A") else {
        return reading.refuse(&["its pin A is not connected"]);
    };
    let table = table(cell, reading, written.len());
    let mut gate = reading.gate(Gate::Lut, output);
    gate.table = Some(reading.text(table));
    gate.inputs = reading.bits(written);
    reading.put_gate(netlist, gate, None);
}

/// The name of the pin for a letter.
fn pin_name(letter: u8) -> &'static str {
    match letter {
        b'C' => "C",
        b'E' => "E",
        b'R' => "R",
        b'S' => "S",
        _ => "L",
    }
}

/// Connects a pin of a register, given its letter and the letter in the type for it: `P` or `N`, or
/// `1` or `0` for the reset value.
fn connect(
    cell: &WrittenCell,
    reading: &mut Reading,
    register: &mut Register,
    letter: u8,
    given: u8,
) {
    if letter == b'v' {
        match Level::from_byte(given) {
            Some(value) => register.value = value,
            None => reading.refuse(&["its type has no such reset"]),
        }
    } else if given == b'P' || given == b'N' {
        let bit = pin(cell, reading, pin_name(letter));
        let is_high = given == b'P';
        register.connect(letter, Control { bit, is_high });
    } else {
        reading.refuse(&["a gate that this program does not know"]);
    }
}

/// Connects the data input of a register.
fn connect_data(cell: &WrittenCell, reading: &mut Reading, register: &mut Register) {
    if register.style != Style::Bare {
        register.data = Some(pin(cell, reading, "D"));
    }
    if register.style == Style::Loaded {
        register.loaded = Some(pin(cell, reading, "AD"));
    }
}

/// Reads a register, given the letters of its pins and those in its type.
fn register(
    cell: &WrittenCell,
    reading: &mut Reading,
    given: &str,
    pins: &str,
    style: Style,
) -> Register {
    let output = output(cell, reading, "Q");
    let mut register = Register::new(style, output);
    for (letter, given) in pins.as_bytes().iter().zip(given.as_bytes().iter()) {
        connect(cell, reading, &mut register, *letter, *given);
    }
    connect_data(cell, reading, &mut register);
    register
}

/// Adds a register, which begins with a level if that is given.
fn put_register(site: Site<'_>, reading: &mut Reading, netlist: &mut Netlist, register: &Register) {
    if let Some(level) = site.initial {
        reading.set_initial(register.output, level);
    }
    if netlist.put_register(register).is_err() {
        reading.lack();
    }
}

/// Adds a cell of Yosys' library, unless it has no effect in a simulation.
fn put_own_cell(site: Site<'_>, cell: &WrittenCell, reading: &mut Reading, netlist: &mut Netlist) {
    let kind = cell.kind.as_str();
    match kind_of(kind) {
        Kind::Note => {}
        Kind::Other => reading.refuse(&[advice(kind, !site.library.is_empty())]),
        Kind::Gate(Gate::Lut) => put_lookup(cell, reading, netlist),
        Kind::Gate(gate) => put_gate(cell, reading, netlist, gate),
        Kind::Register(given, pins, style) => {
            let register = register(cell, reading, given, pins, style);
            put_register(site, reading, netlist, &register);
        }
    }
}

/// Adds the gates and registers that make up a cell, none if it has no effect in a simulation.
pub(crate) fn put_cell(
    site: Site<'_>,
    name: &str,
    cell: &WrittenCell,
    reading: &mut Reading,
    netlist: &mut Netlist,
) {
    match site.library.find(cell.kind.as_str()) {
        Some(LibraryEntry::Known(model)) => {
            put_library_cell(site, name, cell, reading, netlist, model);
        }
        Some(LibraryEntry::Refused(told)) => reading.refuse(&[told.as_str()]),
        None => put_own_cell(site, cell, reading, netlist),
    }
}
