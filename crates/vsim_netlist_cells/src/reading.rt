//! What is read of a module so far: its nets, and the first fault.

use crate::document::WrittenBit;
use std::alloc::{AllocError, Global};
use std::collections::HashMap;
use vsim_netlist_design::{Bit, Draft, Fault, Gate, GateCell, Level, Net, Netlist, Timing, push};

/// A module that is being read, with its first fault: a refusal, or a lack of memory. Reading goes
/// on after a fault, with values that no longer matter, and `finish` reports the fault.
pub(crate) struct Reading {
    pub(crate) alloc: Global,
    /// The indices of nets by their numbers in the netlist. Those inside of cells have none.
    places: HashMap<u64, usize>,
    nets: Vec<Net>,
    fault: Option<Fault>,
}

/// Written by hand so that code which drops it needs no proof about its contents.
impl Drop for Reading {
    fn drop(self) {
        let Reading {
            alloc: _,
            places,
            nets,
            fault,
        } = self;
        drop(places);
        drop(nets);
        drop(fault);
    }
}

impl Reading {
    /// No nets.
    pub(crate) fn new(alloc: Global) -> Reading {
        Reading {
            alloc,
            places: HashMap::new(alloc),
            nets: Vec::new(alloc),
            fault: None,
        }
    }

    /// All nets, or the first fault.
    pub(crate) fn finish(self) -> Result<Vec<Net>, Fault> {
        let Reading {
            alloc: _,
            places,
            nets,
            fault,
        } = self;
        drop(places);
        match fault {
            Some(fault) => Err(fault),
            None => Ok(nets),
        }
    }

    /// Whether there is a fault.
    pub(crate) fn has_fault(&self) -> bool {
        self.fault.is_some()
    }

    /// Notes a fault, unless there is one before it.
    pub(crate) fn fail(&mut self, fault: Fault) {
        if self.fault.is_none() {
            self.fault = Some(fault);
        }
    }

    /// Notes why the module is refused, as a sentence that is put together from these parts.
    pub(crate) fn refuse(&mut self, parts: &[&str]) {
        let fault = Fault::of(self.alloc, parts);
        self.fail(fault);
    }

    /// Notes that memory ran out.
    pub(crate) fn lack(&mut self) {
        self.fail(Fault::Memory);
    }

    /// Puts these parts before the sentence of the fault, if there is one.
    pub(crate) fn about(&mut self, parts: &[&str]) {
        if let Some(fault) = self.fault.take() {
            self.fault = Some(fault.about(self.alloc, parts));
        }
    }

    /// Returns what was made. If memory ran out, notes that and returns the other value.
    pub(crate) fn made<T: Drop>(&mut self, made: Result<T, AllocError>, other: T) -> T {
        match made {
            Ok(made) => made,
            Err(_lack) => {
                self.lack();
                other
            }
        }
    }

    /// Adds an item to a list.
    pub(crate) fn push<T: Drop>(&mut self, list: &mut Vec<T>, item: T) {
        if push(list, item).is_err() {
            self.lack();
        }
    }

    /// A copy of a text.
    pub(crate) fn text(&mut self, text: &str) -> String {
        let alloc = self.alloc;
        self.made(String::from_str(alloc, text), String::new(alloc))
    }

    /// The whole text.
    pub(crate) fn whole(&mut self, draft: Draft) -> String {
        let none = String::new(self.alloc);
        self.made(draft.finish(), none)
    }

    /// The number of nets.
    pub(crate) fn count(&self) -> usize {
        self.nets.len()
    }

    /// The index of a new net.
    pub(crate) fn add(&mut self) -> usize {
        let place = self.nets.len();
        let net = Net {
            initial: None,
            is_named: false,
        };
        if push(&mut self.nets, net).is_err() {
            self.lack();
        }
        place
    }

    /// The index of the net with a number, which is added if it is new.
    fn place(&mut self, number: u64) -> usize {
        if let Some(place) = self.places.get(&number) {
            return *place;
        }
        let place = self.add();
        if self.places.insert(number, place).is_err() {
            self.lack();
        }
        place
    }

    /// Reads a bit. A new net is added.
    pub(crate) fn bit(&mut self, written: WrittenBit) -> Bit {
        match written {
            WrittenBit::Constant(level) => Bit::Constant(level),
            WrittenBit::Number(number) => Bit::Net(self.place(number)),
        }
    }

    /// Reads bits.
    pub(crate) fn bits(&mut self, written: &[WrittenBit]) -> Vec<Bit> {
        let mut bits = Vec::new(self.alloc);
        for each in written {
            let bit = self.bit(*each);
            self.push(&mut bits, bit);
        }
        bits
    }

    /// Sets the initial level of the net at an index.
    pub(crate) fn set_initial(&mut self, place: usize, level: Level) {
        if let Some(net) = self.nets.get_mut(place) {
            net.initial = Some(level);
        }
    }

    /// Sets the initial level of a net, if the letter is 0 or 1.
    fn begin(&mut self, bit: Bit, letter: u8) {
        match (bit, Level::from_byte(letter)) {
            (Bit::Net(place), Some(Level::Zero)) => self.set_initial(place, Level::Zero),
            (Bit::Net(place), Some(Level::One)) => self.set_initial(place, Level::One),
            _ => {}
        }
    }

    /// Sets the initial levels of nets. The text has the highest first.
    pub(crate) fn begin_all(&mut self, bits: &[Bit], levels: &str) {
        for (bit, letter) in bits.iter().zip(levels.as_bytes().iter().rev()) {
            self.begin(*bit, *letter);
        }
    }

    /// Notes that the source has a name for a net.
    fn name(&mut self, bit: Bit) {
        if let Bit::Net(place) = bit {
            if let Some(net) = self.nets.get_mut(place) {
                net.is_named = true;
            }
        }
    }

    /// Notes that the source has a name for these nets.
    pub(crate) fn name_all(&mut self, bits: &[Bit]) {
        for bit in bits {
            self.name(*bit);
        }
    }

    /// A gate without inputs.
    pub(crate) fn gate(&self, gate: Gate, output: usize) -> GateCell {
        GateCell {
            gate,
            inputs: Vec::new(self.alloc),
            output,
            table: None,
            steps: Vec::new(self.alloc),
            is_inner: false,
            is_low: false,
        }
    }

    /// A buffer inside of a cell, from one net to another.
    pub(crate) fn buffer(&mut self, from: usize, to: usize) -> GateCell {
        let mut gate = self.gate(Gate::Buf, to);
        gate.is_inner = true;
        self.push(&mut gate.inputs, Bit::Net(from));
        gate
    }

    /// Adds a gate to a netlist, with its delays if a file has them.
    pub(crate) fn put_gate(
        &mut self,
        netlist: &mut Netlist,
        gate: GateCell,
        timing: Option<Timing>,
    ) {
        if netlist.put_gate(gate, timing).is_err() {
            self.lack();
        }
    }
}
