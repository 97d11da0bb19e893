//! The nets that both sides have, and which of them changed.

use std::alloc::{AllocError, Global};
use vsim_compare_inputs::{Bits, push};

/// A net that both sides have.
pub struct Net {
    pub name: Vec<u8>,
    pub bits: Bits,
    /// Whether it changed since it was compared, and whether it ever differed.
    is_waiting: bool,
    pub has_differed: bool,
}

/// Written by hand so that code which drops it needs no proof about its contents.
impl Drop for Net {
    fn drop(self) {
        let Net {
            name,
            bits: _,
            is_waiting: _,
            has_differed: _,
        } = self;
        drop(name);
    }
}

/// The nets, and the numbers of those that changed at this moment.
pub struct Marks {
    pub nets: Vec<Net>,
    pub fresh: Vec<usize>,
    /// The net of each bit, and whether each net is among those that changed.
    nets_of_bits: Vec<usize>,
    are_fresh: Vec<bool>,
}

/// Written by hand so that code which drops it needs no proof about its contents.
impl Drop for Marks {
    fn drop(self) {
        let Marks {
            nets,
            fresh,
            nets_of_bits,
            are_fresh,
        } = self;
        drop(nets);
        drop(fresh);
        drop(nets_of_bits);
        drop(are_fresh);
    }
}

impl Net {
    /// Notes that its moment is completed; `true` if it did not wait to be compared.
    pub fn complete(&mut self) -> bool {
        let is_new = !self.is_waiting;
        self.is_waiting = true;
        is_new
    }

    /// Notes that it is compared.
    pub fn compare(&mut self) {
        self.is_waiting = false;
    }
}

impl Marks {
    /// No net.
    pub fn new(alloc: Global) -> Marks {
        Marks {
            nets: Vec::new(alloc),
            fresh: Vec::new(alloc),
            nets_of_bits: Vec::new(alloc),
            are_fresh: Vec::new(alloc),
        }
    }

    /// Adds a net of this width, which counts as changed.
    pub fn add(&mut self, name: Vec<u8>, width: usize) -> Result<(), AllocError> {
        let number = self.nets.len();
        let first = self.nets_of_bits.len();
        self.nets.push(Net {
            name,
            bits: Bits { first, width },
            is_waiting: false,
            has_differed: false,
        })?;
        self.add_bits(number, width)
    }

    /// Adds the bits of a net.
    fn add_bits(&mut self, number: usize, width: usize) -> Result<(), AllocError> {
        push(&mut self.fresh, number)?;
        push(&mut self.are_fresh, true)?;
        for _ in 0..width {
            push(&mut self.nets_of_bits, number)?;
        }
        Ok(())
    }

    /// Marks the net of a bit.
    pub fn mark(&mut self, place: usize) -> Result<(), AllocError> {
        let number = self.nets_of_bits.get(place).copied().unwrap_or(0);
        match self.are_fresh.get_mut(number) {
            Some(is_fresh) if !*is_fresh => {
                *is_fresh = true;
                push(&mut self.fresh, number)
            }
            _ => Ok(()),
        }
    }

    /// Forgets which nets changed.
    pub fn clear(&mut self) {
        for number in self.fresh.iter() {
            if let Some(is_fresh) = self.are_fresh.get_mut(*number) {
                *is_fresh = false;
            }
        }
        self.fresh.clear();
    }
}
