//! The cells of a library, with the functions of their pins.

use crate::gates::Gate;
use crate::level::Level;
use crate::lists::push;
use std::alloc::{AllocError, Global};
use std::collections::HashMap;

/// A step of a function. An operator takes the values of one or two steps before it, each of which
/// is taken once.
#[derive(Clone, Copy, PartialEq, Eq)]
pub enum Step {
    /// The value of an input, by its index among those of the function.
    Input(usize),
    Constant(Level),
    Not,
    And,
    Or,
    Xor,
}

/// An input of a function: a pin of the cell, by its index, or a variable of its register.
#[derive(Clone, Copy, PartialEq, Eq)]
pub enum Source {
    Pin(usize),
    Variable(Variant),
}

/// The two variables of a register: its value, and the negation of that.
#[derive(Clone, Copy, PartialEq, Eq)]
pub enum Variant {
    Plain,
    Negated,
}

/// A function: its inputs, each once, and its steps. The gate is one that computes it, if there is
/// one; a multiplexer has no steps, but its inputs in the order of the gate's pins.
pub struct Function {
    pub gate: Gate,
    pub inputs: Vec<Source>,
    pub steps: Vec<Step>,
}

/// Written by hand so that code which drops it needs no proof about its contents.
impl Drop for Function {
    fn drop(self) {
        let Function {
            gate: _,
            inputs,
            steps,
        } = self;
        drop(inputs);
        drop(steps);
    }
}

/// A pin: its name; for an output its function, and when it does not drive.
#[derive(Drop)]
pub struct LibraryPin {
    pub name: String,
    pub is_output: bool,
    pub function: Option<Function>,
    pub three_state: Option<Function>,
}

/// The value of a variable while a register is both cleared and preset.
#[derive(Clone, Copy, PartialEq, Eq)]
pub enum Conflict {
    Level(Level),
    Kept,
}

/// A register or latch of a cell: when it takes its data, what clears and presets it, and what its
/// variables are while both do.
pub struct LibraryState {
    pub is_latch: bool,
    pub clock: Option<Function>,
    pub data: Option<Function>,
    pub clear: Option<Function>,
    pub preset: Option<Function>,
    pub plain: Conflict,
    pub negated: Conflict,
}

/// Written by hand so that code which drops it needs no proof about its contents.
impl Drop for LibraryState {
    fn drop(self) {
        let LibraryState {
            is_latch: _,
            clock,
            data,
            clear,
            preset,
            plain: _,
            negated: _,
        } = self;
        drop(clock);
        drop(data);
        drop(clear);
        drop(preset);
    }
}

/// What a cell is.
pub struct LibraryCell {
    pub pins: Vec<LibraryPin>,
    /// The indices of pins by their names.
    pub places: HashMap<String, usize>,
    pub state: Option<LibraryState>,
}

/// Written by hand so that code which drops it needs no proof about its contents.
impl Drop for LibraryCell {
    fn drop(self) {
        let LibraryCell {
            pins,
            places,
            state,
        } = self;
        drop(pins);
        drop(places);
        drop(state);
    }
}

/// A cell of a library, or why a netlist may not have it.
#[derive(Drop)]
pub enum LibraryEntry {
    Known(LibraryCell),
    Refused(String),
}

/// The cells of one file or several.
pub struct Library {
    entries: Vec<LibraryEntry>,
    places: HashMap<String, usize>,
}

/// Written by hand so that code which drops it needs no proof about its contents.
impl Drop for Library {
    fn drop(self) {
        let Library { entries, places } = self;
        drop(entries);
        drop(places);
    }
}

impl Library {
    /// No cells.
    pub fn new(alloc: Global) -> Library {
        Library {
            entries: Vec::new(alloc),
            places: HashMap::new(alloc),
        }
    }

    /// Whether there are no cells.
    pub fn is_empty(&self) -> bool {
        self.entries.is_empty()
    }

    /// The cell with a name.
    pub fn find(&self, name: &str) -> Option<&LibraryEntry> {
        match self.places.get(name) {
            Some(place) => self.entries.get(*place),
            None => None,
        }
    }

    /// Adds a cell. Its name is new.
    pub fn put(&mut self, name: String, entry: LibraryEntry) -> Result<(), AllocError> {
        let place = self.entries.len();
        push(&mut self.entries, entry)?;
        self.note(name, place)
    }

    /// Notes the index of a cell.
    fn note(&mut self, name: String, place: usize) -> Result<(), AllocError> {
        self.places.insert(name, place)?;
        Ok(())
    }
}
