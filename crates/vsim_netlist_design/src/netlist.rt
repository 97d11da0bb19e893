//! Netlists.

use crate::bits::Bit;
use crate::gates::GateCell;
use crate::level::Level;
use crate::lists::push;
use crate::registers::Register;
use crate::timing::Timing;
use std::alloc::{AllocError, Global};

/// A cell.
#[derive(Drop)]
pub enum Cell {
    Gate(GateCell),
    Register(Register),
}

/// A port of the module, with its bits, lowest index first.
#[derive(Drop)]
pub struct Port {
    pub name: String,
    pub is_input: bool,
    pub bits: Vec<Bit>,
}

/// A net: its initial level, and whether the source has a name for it.
#[derive(Clone, Copy)]
pub struct Net {
    pub initial: Option<Level>,
    pub is_named: bool,
}

/// A name in the source, with its bits, lowest index first.
#[derive(Drop)]
pub struct Variable {
    pub name: String,
    pub bits: Vec<Bit>,
    pub offset: i64,
    pub is_up: bool,
}

/// A module of gates.
pub struct Netlist {
    pub name: String,
    pub ports: Vec<Port>,
    pub cells: Vec<Cell>,
    /// For each cell its name, after its place in the source if that is known.
    pub origins: Vec<String>,
    /// Whether a file has delays of paths.
    pub has_paths: bool,
    /// For each cell its delays, if that file has them.
    pub timings: Vec<Option<Timing>>,
    /// For each instance of which a file has delays, whether there is a cell with its name.
    pub instances: Vec<bool>,
    pub variables: Vec<Variable>,
    pub nets: Vec<Net>,
}

/// Written by hand so that code which drops it needs no proof about its contents.
impl Drop for Netlist {
    fn drop(self) {
        let Netlist {
            name,
            ports,
            cells,
            origins,
            has_paths: _,
            timings,
            instances,
            variables,
            nets,
        } = self;
        drop(name);
        drop(ports);
        drop(cells);
        drop(origins);
        drop(timings);
        drop(instances);
        drop(variables);
        drop(nets);
    }
}

impl Netlist {
    /// A module without gates. For each instance of which a file has delays it says whether there is
    /// a cell with its name.
    pub fn new(alloc: Global, name: String, has_paths: bool, instances: Vec<bool>) -> Netlist {
        Netlist {
            name,
            ports: Vec::new(alloc),
            cells: Vec::new(alloc),
            origins: Vec::new(alloc),
            has_paths,
            timings: Vec::new(alloc),
            instances,
            variables: Vec::new(alloc),
            nets: Vec::new(alloc),
        }
    }

    /// Adds a cell, with its delays if a file has them.
    fn put(&mut self, cell: Cell, timing: Option<Timing>) -> Result<(), AllocError> {
        push(&mut self.cells, cell)?;
        push(&mut self.timings, timing)
    }

    /// Adds a gate, with its delays if a file has them.
    pub fn put_gate(&mut self, gate: GateCell, timing: Option<Timing>) -> Result<(), AllocError> {
        self.put(Cell::Gate(gate), timing)
    }

    /// Adds a register.
    pub fn put_register(&mut self, register: &Register) -> Result<(), AllocError> {
        self.put(Cell::Register(*register), None)
    }

    /// Sets the delays of the last cell.
    pub fn time_last(&mut self, timing: Timing) {
        let place = self.timings.len().saturating_sub(1);
        if let Some(last) = self.timings.get_mut(place) {
            *last = Some(timing);
        }
    }
}
