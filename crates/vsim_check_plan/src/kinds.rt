//! The cells of each kind.

use std::alloc::{AllocError, Global};
use std::collections::HashMap;
use vsim_netlist_cells::Connections;
use vsim_netlist_design::push;

/// The indices of cells by their kinds.
pub(crate) struct Kinds {
    places: HashMap<String, usize>,
    cells: Vec<Vec<usize>>,
}

/// Written by hand so that code which drops it needs no proof about its contents.
impl Drop for Kinds {
    fn drop(self) {
        let Kinds { places, cells } = self;
        drop(places);
        drop(cells);
    }
}

impl Kinds {
    /// The index of a kind.
    fn place(&self, kind: &str) -> Option<usize> {
        match self.places.get(kind) {
            Some(place) => Some(*place),
            None => None,
        }
    }

    /// Adds a kind of which no cell is known.
    fn add(&mut self, alloc: Global, kind: &String) -> Result<usize, AllocError> {
        let place = self.cells.len();
        push(&mut self.cells, Vec::new(alloc))?;
        let kind = kind.clone()?;
        self.places.insert(kind, place)?;
        Ok(place)
    }

    /// Adds a cell of a kind.
    fn put(&mut self, alloc: Global, kind: &String, cell: usize) -> Result<(), AllocError> {
        let place = match self.place(kind.as_str()) {
            Some(place) => place,
            None => self.add(alloc, kind)?,
        };
        match self.cells.get_mut(place) {
            Some(cells) => push(cells, cell),
            None => Ok(()),
        }
    }

    /// The cells of a kind.
    pub(crate) fn cells(&self, kind: &str) -> &[usize] {
        let Some(place) = self.place(kind) else {
            return &[];
        };
        match self.cells.get(place) {
            Some(cells) => cells.as_slice(),
            None => &[],
        }
    }
}

/// The cells of each kind.
pub(crate) fn kinds_of(alloc: Global, connections: &Connections) -> Result<Kinds, AllocError> {
    let mut kinds = Kinds {
        places: HashMap::new(alloc),
        cells: Vec::new(alloc),
    };
    for (cell, instance) in connections.instances.iter().enumerate() {
        kinds.put(alloc, &instance.kind, cell)?;
    }
    Ok(kinds)
}
