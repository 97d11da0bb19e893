//! A row of a picture: a net or a variable, and its values over time.

use std::alloc::{AllocError, Global};
use vsim_waves_listing::MapBit;

/// The value of a row from a time on: its letters, the highest bit first.
pub struct Run {
    pub from: u64,
    pub value: Vec<u8>,
}

/// Written by hand so that code which drops it needs no proof about its contents.
impl Drop for Run {
    fn drop(self) {
        let Run { from: _, value } = self;
        drop(value);
    }
}

/// A row, whose bits have the lowest index first.
pub struct Row {
    pub label: Vec<u8>,
    bits: Vec<MapBit>,
    pub runs: Vec<Run>,
    /// Whether a bit may have changed since the last value was taken.
    is_changed: bool,
}

/// Written by hand so that code which drops it needs no proof about its contents.
impl Drop for Row {
    fn drop(self) {
        let Row {
            label,
            bits,
            runs,
            is_changed: _,
        } = self;
        drop(label);
        drop(bits);
        drop(runs);
    }
}

/// The letter of a bit, of which a value of a map counts as one of four.
fn letter_of(bit: MapBit, values: &[u8]) -> u8 {
    match bit {
        MapBit::Constant(letter) => letter.to_ascii_uppercase(),
        MapBit::Absent => b'X',
        MapBit::Signal(place) => values.get(place).copied().unwrap_or(b'X'),
    }
}

impl Row {
    /// A row without values.
    pub fn new(alloc: Global, label: &[u8], bits: &[MapBit]) -> Result<Row, AllocError> {
        let mut own_label = Vec::new(alloc);
        own_label.extend_from_slice(label)?;
        let mut own_bits = Vec::new(alloc);
        own_bits.extend_from_slice(bits)?;
        Ok(Row {
            label: own_label,
            bits: own_bits,
            runs: Vec::new(alloc),
            is_changed: false,
        })
    }

    /// The number of bits.
    pub fn width(&self) -> usize {
        self.bits.len()
    }

    /// Notes that a bit may have changed; `false` if that was noted before.
    pub fn mark(&mut self) -> bool {
        let is_new = !self.is_changed;
        self.is_changed = true;
        is_new
    }

    /// The value that these values of signals make.
    fn value(&self, alloc: Global, values: &[u8]) -> Result<Vec<u8>, AllocError> {
        let mut value = Vec::new(alloc);
        for bit in self.bits.iter().rev() {
            value.push(letter_of(*bit, values))?;
        }
        Ok(value)
    }

    /// Takes the value at a time, of these values of signals.
    pub fn take(&mut self, alloc: Global, time: u64, values: &[u8]) -> Result<(), AllocError> {
        self.is_changed = false;
        let value = self.value(alloc, values)?;
        self.put(time, value)
    }

    /// Whether the last value is another one than this, or is missing.
    fn is_new(&self, value: &[u8]) -> bool {
        match self.runs.last() {
            Some(run) => run.value.as_slice() != value,
            None => true,
        }
    }

    /// Puts a value behind the others. One of the same time gives way to it.
    fn put(&mut self, time: u64, value: Vec<u8>) -> Result<(), AllocError> {
        if !self.is_new(value.as_slice()) {
            return Ok(());
        }
        if let Some(run) = self.runs.last_mut() {
            if run.from == time {
                run.value = value;
                return Ok(());
            }
        }
        self.runs.push(Run { from: time, value })?;
        Ok(())
    }
}
