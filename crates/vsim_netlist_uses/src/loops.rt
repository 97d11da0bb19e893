//! Loops of wires, and clocks driven by gates.

use crate::uses::Uses;
use std::alloc::{AllocError, Global};
use vsim_netlist_design::{Bit, Cell, Fault, Gate, Netlist, Variable, push};

/// The net at the input of a buffer.
fn source(netlist: &Netlist, uses: &Uses, place: usize) -> Option<usize> {
    let net = uses.nets.get(place)?;
    if net.drivers != 1 {
        return None;
    }
    let Some(Cell::Gate(cell)) = netlist.cells.get(net.driver) else {
        return None;
    };
    match (cell.gate, cell.inputs.first()) {
        (Gate::Buf, Some(Bit::Net(from))) => Some(*from),
        _ => None,
    }
}

/// Whether the buffers before a net lead back to it. Each net on the way is marked by the number of
/// the walk that reached it first.
fn leads_back(netlist: &Netlist, uses: &Uses, marks: &mut Vec<usize>, start: usize) -> bool {
    let walk = start.saturating_add(1);
    let mut at = Some(start);
    for _ in 0..=uses.nets.len() {
        let Some(place) = at else {
            return false;
        };
        let Some(mark) = marks.get_mut(place) else {
            return false;
        };
        if *mark != 0 {
            return *mark == walk;
        }
        *mark = walk;
        at = source(netlist, uses, place);
    }
    false
}

/// Whether a variable has a net.
fn has(variable: &Variable, place: usize) -> bool {
    for bit in variable.bits.iter() {
        if let Bit::Net(net) = bit {
            if *net == place {
                return true;
            }
        }
    }
    false
}

/// The name of a net in the source; otherwise the cell that drives it.
fn told<'a>(netlist: &'a Netlist, uses: &Uses, place: usize) -> &'a str {
    for variable in netlist.variables.iter() {
        if has(variable, place) {
            return variable.name.as_str();
        }
    }
    origin_of_driver(netlist, uses, place)
}

/// The cell that drives a net.
fn origin_of_driver<'a>(netlist: &'a Netlist, uses: &Uses, place: usize) -> &'a str {
    let driver = driver(uses, place).unwrap_or(netlist.origins.len());
    match netlist.origins.get(driver) {
        Some(origin) => origin.as_str(),
        None => "a net",
    }
}

/// The refusal of a loop of wires.
fn refusal(alloc: Global, netlist: &Netlist, uses: &Uses, place: usize) -> Fault {
    let told = told(netlist, uses, place);
    Fault::of(alloc, &[told, " is in a loop of wires"])
}

/// Refuses a loop of wires.
pub fn refuse_loops(alloc: Global, netlist: &Netlist, uses: &Uses) -> Result<(), Fault> {
    let mut marks = vec![in alloc; 0usize; uses.nets.len()]?;
    for place in 0..uses.nets.len() {
        if leads_back(netlist, uses, &mut marks, place) {
            return Err(refusal(alloc, netlist, uses, place));
        }
    }
    Ok(())
}

/// The last cell that drives a net, if there is one.
fn driver(uses: &Uses, place: usize) -> Option<usize> {
    match uses.nets.get(place) {
        Some(net) if net.drivers > 0 => Some(net.driver),
        _ => None,
    }
}

/// The nets that clocks depend on: those of clocks, and those from which gates derive clocks.
#[derive(Drop)]
pub struct Clocks {
    pub is_before: Vec<bool>,
    left: Vec<usize>,
    /// The number of clocks that gates or registers drive.
    pub derived: usize,
}

impl Clocks {
    /// Notes that a clock depends on a bit.
    fn mark(&mut self, bit: Bit) -> Result<(), AllocError> {
        let Bit::Net(place) = bit else {
            return Ok(());
        };
        let Some(is_before) = self.is_before.get_mut(place) else {
            return Ok(());
        };
        if !*is_before {
            *is_before = true;
            return push(&mut self.left, place);
        }
        Ok(())
    }

    /// Notes that a clock depends on these bits.
    fn mark_all(&mut self, bits: &[Bit]) -> Result<(), AllocError> {
        for bit in bits {
            self.mark(*bit)?;
        }
        Ok(())
    }

    /// The clocks of registers.
    fn mark_clocks(&mut self, netlist: &Netlist) -> Result<(), AllocError> {
        for cell in netlist.cells.iter() {
            if let Cell::Register(register) = cell {
                if let Some(clock) = register.clock {
                    self.mark(clock.bit)?;
                }
            }
        }
        Ok(())
    }

    /// Notes that a cell drives a clock, or what one depends on.
    fn mark_driver(&mut self, netlist: &Netlist, driver: usize) -> Result<(), AllocError> {
        self.derived = self.derived.saturating_add(1);
        match netlist.cells.get(driver) {
            Some(Cell::Gate(gate)) => self.mark_all(gate.inputs.as_slice()),
            _ => Ok(()),
        }
    }

    /// Finds what clocks depend on, gate by gate.
    fn mark_gates(&mut self, netlist: &Netlist, uses: &Uses) -> Result<(), AllocError> {
        for _ in 0..uses.nets.len() {
            let Some(place) = self.left.pop() else {
                break;
            };
            if let Some(driver) = driver(uses, place) {
                self.mark_driver(netlist, driver)?;
            }
        }
        Ok(())
    }

    /// The clocks of a netlist.
    pub fn of(alloc: Global, netlist: &Netlist, uses: &Uses) -> Result<Clocks, AllocError> {
        let mut clocks = Clocks {
            is_before: vec![in alloc; false; uses.nets.len()]?,
            left: Vec::new(alloc),
            derived: 0,
        };
        clocks.mark_clocks(netlist)?;
        clocks.mark_gates(netlist, uses)?;
        Ok(clocks)
    }
}
