//! Which cells read and drive the nets of a netlist.

use std::alloc::{AllocError, Global};
use vsim_netlist_design::{
    Bit, Cell, Control, Gate, GateCell, Netlist, Register, Step, Style, push,
};

/// The cells that read and drive a net: their number, and the last of each.
#[derive(Clone, Copy)]
pub struct Use {
    pub readers: usize,
    pub reader: usize,
    pub pin: usize,
    pub drivers: usize,
    pub driver: usize,
    /// Whether the net needs a name.
    pub is_kept: bool,
}

/// A net that no cell reads or drives.
const UNUSED: Use = Use {
    readers: 0,
    reader: 0,
    pin: 0,
    drivers: 0,
    driver: 0,
    is_kept: false,
};

/// The maximum length of a nested gate, in bytes.
const LONGEST: usize = 160;

/// The same, if it is written twice there.
const LONGEST_TWICE: usize = 20;

/// How a cell reads its nets.
#[derive(Drop)]
pub struct Uses {
    pub nets: Vec<Use>,
}

impl Uses {
    /// Notes that a pin of a cell reads a bit.
    fn read(&mut self, bit: Bit, cell: usize, pin: usize) {
        if let Bit::Net(place) = bit {
            if let Some(net) = self.nets.get_mut(place) {
                net.readers = net.readers.saturating_add(1);
                net.reader = cell;
                net.pin = pin;
            }
        }
    }

    /// Notes that a cell drives a net.
    fn drive(&mut self, place: usize, cell: usize) {
        if let Some(net) = self.nets.get_mut(place) {
            net.drivers = net.drivers.saturating_add(1);
            net.driver = cell;
        }
    }

    /// Notes that a bit needs a name, if it is a net.
    fn keep(&mut self, bit: Bit) {
        if let Bit::Net(place) = bit {
            if let Some(net) = self.nets.get_mut(place) {
                net.is_kept = true;
            }
        }
    }

    /// Notes that these bits need names.
    fn keep_all(&mut self, bits: &[Bit]) {
        for bit in bits {
            self.keep(*bit);
        }
    }

    /// Notes a gate.
    fn take_gate(&mut self, gate: &GateCell, cell: usize) {
        for (pin, bit) in gate.inputs.iter().enumerate() {
            self.read(*bit, cell, pin);
        }
        self.drive(gate.output, cell);
    }

    /// Notes the control of a cell.
    fn take_control(&mut self, control: Option<Control>, cell: usize) {
        if let Some(control) = control {
            self.read(control.bit, cell, 0);
            self.keep(control.bit);
        }
    }

    /// Notes that a cell stores a bit, whose gate may be nested in it.
    fn take_data(&mut self, data: Option<Bit>, cell: usize, may_nest: bool) {
        if let Some(bit) = data {
            self.read(bit, cell, 0);
            if !may_nest {
                self.keep(bit);
            }
        }
    }

    /// Notes a register, and whether its data may be nested in it.
    fn take_register(&mut self, register: &Register, cell: usize, may_nest: bool) {
        for control in [
            register.clock,
            register.enable,
            register.reset,
            register.set,
            register.load,
        ] {
            self.take_control(control, cell);
        }
        let is_edge = register.style != Style::Latch;
        self.take_data(register.data, cell, may_nest && is_edge);
        self.take_data(register.loaded, cell, false);
        self.drive(register.output, cell);
        self.keep(Bit::Net(register.output));
    }

    /// Notes the cells of a netlist.
    fn take_cells(&mut self, netlist: &Netlist, may_nest: bool) {
        for (place, cell) in netlist.cells.iter().enumerate() {
            match cell {
                Cell::Gate(gate) => self.take_gate(gate, place),
                Cell::Register(register) => self.take_register(register, place, may_nest),
            }
        }
    }

    /// Notes the ports of a netlist.
    fn take_ports(&mut self, netlist: &Netlist) {
        for port in netlist.ports.iter() {
            self.keep_all(port.bits.as_slice());
        }
    }

    /// The uses of a netlist's nets. The flag says whether data of registers may be nested in them.
    pub fn of(alloc: Global, netlist: &Netlist, may_nest: bool) -> Result<Uses, AllocError> {
        let mut uses = Uses {
            nets: Vec::new(alloc),
        };
        for net in netlist.nets.iter() {
            let is_kept = net.is_named;
            push(&mut uses.nets, Use { is_kept, ..UNUSED })?;
        }
        uses.take_ports(netlist);
        uses.take_cells(netlist, may_nest);
        Ok(uses)
    }
}

/// Whether a mark is set.
pub fn is_marked(marks: &[bool], place: usize) -> bool {
    match marks.get(place) {
        Some(mark) => *mark,
        None => false,
    }
}

/// Whether a net whose gate is nested, or not, needs a name.
fn is_wanted(net: &Use, is_within: bool) -> bool {
    !is_within && (net.is_kept || net.readers > 0)
}

/// The nets that need names, each after a number that is smaller the more it is read.
fn all_wanted(
    alloc: Global,
    uses: &Uses,
    is_within: &[bool],
) -> Result<Vec<(usize, usize)>, AllocError> {
    let mut wanted = Vec::new(alloc);
    for (place, net) in uses.nets.iter().enumerate() {
        if is_wanted(net, is_marked(is_within, place)) {
            push(&mut wanted, (usize::MAX.saturating_sub(net.readers), place))?;
        }
    }
    Ok(wanted)
}

/// The nets that need names, each after a number that is smaller the more it is read, the smallest
/// first.
pub fn wanted_nets(
    alloc: Global,
    uses: &Uses,
    is_within: &[bool],
) -> Result<Vec<(usize, usize)>, AllocError> {
    let mut wanted = all_wanted(alloc, uses, is_within)?;
    wanted.sort()?;
    Ok(wanted)
}

/// The maximum length of a gate nested at an input of these steps, in bytes.
fn longest_at_steps(steps: &[Step], pin: usize) -> usize {
    let mut count = 0usize;
    for step in steps {
        if *step == Step::Input(pin) {
            count = count.saturating_add(1);
        }
    }
    match count {
        0 | 1 => LONGEST,
        2 => LONGEST_TWICE,
        _ => 0,
    }
}

/// The maximum length of a gate nested at a pin of another cell, in bytes.
pub fn longest_within(cell: &Cell, pin: usize) -> usize {
    let Cell::Gate(gate) = cell else {
        return LONGEST;
    };
    if gate.gate != Gate::Tristate && !gate.steps.is_empty() {
        return longest_at_steps(gate.steps.as_slice(), pin);
    }
    match gate.gate {
        Gate::Mux | Gate::Nmux if pin == 1 => LONGEST,
        Gate::Mux | Gate::Nmux => LONGEST_TWICE,
        Gate::Mux4 | Gate::Mux8 | Gate::Mux16 | Gate::Lut | Gate::Tristate => 0,
        _ => LONGEST,
    }
}

/// Whether a cell is a gate that may be nested.
pub fn may_stand_within(cell: &Cell) -> bool {
    match cell {
        Cell::Gate(gate) => gate.gate != Gate::Tristate,
        Cell::Register(_) => false,
    }
}
