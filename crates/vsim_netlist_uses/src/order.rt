//! The order in which gates are written: nested ones first.

use crate::uses::{Uses, is_marked, longest_within, may_stand_within};
use std::alloc::{AllocError, Global};
use vsim_netlist_design::{Cell, GateCell, Netlist, push};

/// Whether the gate that drives a net may be nested in the cell that reads it.
fn is_within(netlist: &Netlist, uses: &Uses, place: usize) -> bool {
    let Some(net) = uses.nets.get(place) else {
        return false;
    };
    if net.is_kept || net.readers != 1 || net.drivers != 1 {
        return false;
    }
    match (netlist.cells.get(net.driver), netlist.cells.get(net.reader)) {
        (Some(driver), Some(reader)) => {
            may_stand_within(driver) && longest_within(reader, net.pin) > 0
        }
        _ => false,
    }
}

/// For each net, whether its gate may be nested in the cell that reads it. With delays, none may.
pub fn all_within(
    alloc: Global,
    netlist: &Netlist,
    uses: &Uses,
    has_delays: bool,
) -> Result<Vec<bool>, AllocError> {
    let mut within = Vec::new(alloc);
    for place in 0..uses.nets.len() {
        push(&mut within, !has_delays && is_within(netlist, uses, place))?;
    }
    Ok(within)
}

/// The number of gates to be written before each cell.
#[derive(Drop)]
struct Pending {
    counts: Vec<usize>,
    ready: Vec<usize>,
    is_placed: Vec<bool>,
    order: Vec<usize>,
}

impl Pending {
    /// Nothing, for this number of cells.
    fn new(alloc: Global, cells: usize) -> Result<Pending, AllocError> {
        Ok(Pending {
            counts: vec![in alloc; 0usize; cells]?,
            ready: Vec::new(alloc),
            is_placed: vec![in alloc; false; cells]?,
            order: Vec::new(alloc),
        })
    }

    /// Makes a cell wait for one more gate.
    fn wait(&mut self, cell: usize) {
        if let Some(count) = self.counts.get_mut(cell) {
            *count = count.saturating_add(1);
        }
    }

    /// A cell waits for one gate fewer. Returns whether it waits for none.
    fn is_released(&mut self, cell: usize) -> bool {
        let Some(count) = self.counts.get_mut(cell) else {
            return false;
        };
        *count = count.saturating_sub(1);
        *count == 0
    }

    /// A cell waits for one gate fewer, and may become ready.
    fn release(&mut self, cell: usize) -> Result<(), AllocError> {
        if self.is_released(cell) {
            return push(&mut self.ready, cell);
        }
        Ok(())
    }

    /// Writes a cell next.
    fn place(&mut self, cell: usize) -> Result<(), AllocError> {
        if let Some(is_placed) = self.is_placed.get_mut(cell) {
            if *is_placed {
                return Ok(());
            }
            *is_placed = true;
        }
        push(&mut self.order, cell)
    }
}

/// Counts for each cell the gates nested in it.
fn count(pending: &mut Pending, uses: &Uses, within: &[bool]) {
    for (place, net) in uses.nets.iter().enumerate() {
        if is_marked(within, place) {
            pending.wait(net.reader);
        }
    }
}

/// The gate at an index, if that is one.
fn gate_at(netlist: &Netlist, cell: usize) -> Option<&GateCell> {
    match netlist.cells.get(cell) {
        Some(Cell::Gate(gate)) => Some(gate),
        _ => None,
    }
}

/// Whether a cell waits for no gate.
fn is_ready(pending: &Pending, cell: usize) -> bool {
    match pending.counts.get(cell) {
        Some(count) => *count == 0,
        None => false,
    }
}

/// Finds the gates that wait for no other.
fn find_ready(pending: &mut Pending, netlist: &Netlist) -> Result<(), AllocError> {
    for place in (0..netlist.cells.len()).rev() {
        if gate_at(netlist, place).is_some() && is_ready(pending, place) {
            push(&mut pending.ready, place)?;
        }
    }
    Ok(())
}

/// The cell that reads a net, if it is a gate.
fn reading_gate(netlist: &Netlist, uses: &Uses, net: usize) -> Option<usize> {
    match uses.nets.get(net) {
        Some(net) if gate_at(netlist, net.reader).is_some() => Some(net.reader),
        _ => None,
    }
}

/// The cell in which a gate is nested.
fn waiting(netlist: &Netlist, uses: &Uses, within: &[bool], cell: usize) -> Option<usize> {
    match gate_at(netlist, cell) {
        Some(gate) if is_marked(within, gate.output) => reading_gate(netlist, uses, gate.output),
        _ => None,
    }
}

/// Places a gate that is ready.
fn place_one(
    pending: &mut Pending,
    netlist: &Netlist,
    uses: &Uses,
    within: &[bool],
    cell: usize,
) -> Result<(), AllocError> {
    pending.place(cell)?;
    match waiting(netlist, uses, within, cell) {
        Some(reader) => pending.release(reader),
        None => Ok(()),
    }
}

/// Places the gates that are ready, and those that become ready.
fn place_ready(
    pending: &mut Pending,
    netlist: &Netlist,
    uses: &Uses,
    within: &[bool],
) -> Result<(), AllocError> {
    for _ in 0..netlist.cells.len() {
        let Some(cell) = pending.ready.pop() else {
            break;
        };
        place_one(pending, netlist, uses, within, cell)?;
    }
    Ok(())
}

/// Places the rest: gates in a loop, and registers.
fn place_others(pending: &mut Pending, netlist: &Netlist) -> Result<(), AllocError> {
    for cell in 0..netlist.cells.len() {
        pending.place(cell)?;
    }
    Ok(())
}

/// Places all cells.
fn place_all(
    pending: &mut Pending,
    netlist: &Netlist,
    uses: &Uses,
    within: &[bool],
) -> Result<(), AllocError> {
    place_ready(pending, netlist, uses, within)?;
    place_others(pending, netlist)
}

/// The number of gates before each cell at first.
fn first_pending(
    alloc: Global,
    netlist: &Netlist,
    uses: &Uses,
    within: &[bool],
) -> Result<Pending, AllocError> {
    let mut pending = Pending::new(alloc, netlist.cells.len())?;
    count(&mut pending, uses, within);
    find_ready(&mut pending, netlist)?;
    Ok(pending)
}

/// The order of the cells.
pub fn writing_order(
    alloc: Global,
    netlist: &Netlist,
    uses: &Uses,
    within: &[bool],
) -> Result<Vec<usize>, AllocError> {
    let mut pending = first_pending(alloc, netlist, uses, within)?;
    place_all(&mut pending, netlist, uses, within)?;
    Ok(pending.order)
}
