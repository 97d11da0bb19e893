//! What the pins of cells are connected with.

use crate::document::{Members, Module, WrittenBit, WrittenCell};
use crate::modules::{put_variables, read_document, wanted};
use crate::reading::Reading;
use std::alloc::Global;
use std::collections::HashMap;
use vsim_netlist_design::{Bit, Fault, Variable};

/// A pin of a cell, and the bit that it is connected with; `None` if these are several, or none.
#[derive(Drop)]
pub struct Pin {
    pub name: String,
    pub bit: Option<Bit>,
}

/// A cell with its pins.
#[derive(Drop)]
pub struct Instance {
    pub name: String,
    pub kind: String,
    pub pins: Vec<Pin>,
}

/// The cells of a module, and the names of its nets.
pub struct Connections {
    pub instances: Vec<Instance>,
    /// The indices of cells by their names.
    places: HashMap<String, usize>,
    pub variables: Vec<Variable>,
    /// The number of nets, by which bits are given.
    pub nets: usize,
}

/// Written by hand so that code which drops it needs no proof about its contents.
impl Drop for Connections {
    fn drop(self) {
        let Connections {
            instances,
            places,
            variables,
            nets: _,
        } = self;
        drop(instances);
        drop(places);
        drop(variables);
    }
}

impl Instance {
    /// The pin with a name.
    pub fn pin(&self, name: &str) -> Option<&Pin> {
        for pin in self.pins.iter() {
            if pin.name.as_str() == name {
                return Some(pin);
            }
        }
        None
    }
}

impl Connections {
    /// No cells.
    fn new(alloc: Global) -> Connections {
        Connections {
            instances: Vec::new(alloc),
            places: HashMap::new(alloc),
            variables: Vec::new(alloc),
            nets: 0,
        }
    }

    /// The index of the cell with a name.
    pub fn find(&self, name: &str) -> Option<usize> {
        match self.places.get(name) {
            Some(place) => Some(*place),
            None => None,
        }
    }

    /// Notes the index of the last cell by its name. A name that several have leads to the last.
    fn note(&mut self, reading: &mut Reading, name: &str) {
        let place = self.instances.len().saturating_sub(1);
        let name = reading.text(name);
        if self.places.insert(name, place).is_err() {
            reading.lack();
        }
    }
}

/// The bit of a pin, if it is one.
fn only_bit(reading: &mut Reading, written: &[WrittenBit]) -> Option<Bit> {
    match written {
        [bit] => Some(reading.bit(*bit)),
        _ => None,
    }
}

/// Adds the pins of a cell.
fn put_pins(reading: &mut Reading, pins: &mut Vec<Pin>, written: &Members<Vec<WrittenBit>>) {
    for (name, bits) in written.entries.iter() {
        let bit = only_bit(reading, bits.as_slice());
        let name = reading.text(name.as_str());
        reading.push(pins, Pin { name, bit });
    }
}

/// Adds the cells of a module.
fn put_instances(
    reading: &mut Reading,
    connections: &mut Connections,
    written: &Members<WrittenCell>,
) {
    for (name, cell) in written.entries.iter() {
        if reading.has_fault() {
            break;
        }
        let mut pins = Vec::new(reading.alloc);
        put_pins(reading, &mut pins, &cell.connections);
        let kind = reading.text(cell.kind.as_str());
        let copy = reading.text(name.as_str());
        let instance = Instance {
            name: copy,
            kind,
            pins,
        };
        reading.push(&mut connections.instances, instance);
        connections.note(reading, name.as_str());
    }
}

/// The connections of a module.
fn make_connections(alloc: Global, module: &Module) -> Result<Connections, Fault> {
    let mut connections = Connections::new(alloc);
    let mut reading = Reading::new(alloc);
    put_variables(&mut reading, &mut connections.variables, module);
    put_instances(&mut reading, &mut connections, &module.cells);
    connections.nets = reading.finish()?.len();
    Ok(connections)
}

/// Reads what the cells of the module with this name, or of the one marked as the top, are
/// connected with.
pub fn read_connections(
    alloc: Global,
    text: &str,
    top: Option<&str>,
) -> Result<Connections, Fault> {
    let document = read_document(alloc, text)?;
    let (_name, module) = wanted(alloc, &document, top)?;
    make_connections(alloc, module)
}
