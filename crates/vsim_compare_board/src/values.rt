//! The values of the bits of one side, and which signals they are of.

use crate::marks::Marks;
use std::alloc::{AllocError, Global};
use vsim_compare_inputs::{Bits, Change, Offers, push};
use vsim_waves_listing::MapBit;

/// The letter of a bit that nothing makes. It is as any other.
pub const NONE: u8 = b'?';

/// The place of no bit.
const NOWHERE: usize = usize::MAX;

/// The values of the bits of a side.
pub struct Values {
    /// Whether only four values count: 0, 1, X and Z.
    is_reduced: bool,
    /// For each signal the last of the bits that it makes, and for each bit the one before it of the
    /// same signal, or `NOWHERE`.
    lasts: Vec<usize>,
    others: Vec<usize>,
    /// Their letters now, and at the last moment that was completed.
    now: Vec<u8>,
    before: Vec<u8>,
}

/// Written by hand so that code which drops it needs no proof about its contents.
impl Drop for Values {
    fn drop(self) {
        let Values {
            is_reduced: _,
            lasts,
            others,
            now,
            before,
        } = self;
        drop(lasts);
        drop(others);
        drop(now);
        drop(before);
    }
}

/// A letter as one of four.
fn reduced(letter: u8) -> u8 {
    match letter {
        b'0' | b'L' => b'0',
        b'1' | b'H' => b'1',
        b'Z' | b'z' => b'Z',
        _ => b'X',
    }
}

/// Whether the value of a letter is unknown.
pub fn is_unknown(letter: u8) -> bool {
    matches!(letter, b'U' | b'X' | b'W' | b'-')
}

impl Values {
    /// No bit, for this number of signals.
    pub fn new(alloc: Global, count: usize, is_reduced: bool) -> Result<Values, AllocError> {
        let lasts = vec![in alloc; NOWHERE; count]?;
        Ok(Values {
            is_reduced,
            lasts,
            others: Vec::new(alloc),
            now: Vec::new(alloc),
            before: Vec::new(alloc),
        })
    }

    /// Adds the bits of a net.
    pub fn add(&mut self, offers: &Offers, bits: Bits) -> Result<(), AllocError> {
        let last = bits.first.saturating_add(bits.width);
        for bit in offers.bits.get(bits.first..last).unwrap_or(&[]) {
            self.add_bit(*bit)?;
        }
        Ok(())
    }

    /// Adds a bit.
    fn add_bit(&mut self, bit: MapBit) -> Result<(), AllocError> {
        let letter = match bit {
            MapBit::Constant(letter) => reduced(letter),
            MapBit::Signal(_) => b'X',
            MapBit::Absent => NONE,
        };
        let other = self.link(bit);
        push(&mut self.others, other)?;
        push(&mut self.now, letter)?;
        push(&mut self.before, letter)
    }

    /// Links the next bit to its signal, and returns the one before it of that signal.
    fn link(&mut self, bit: MapBit) -> usize {
        let MapBit::Signal(signal) = bit else {
            return NOWHERE;
        };
        match self.lasts.get_mut(signal) {
            Some(last) => std::mem::replace(last, self.now.len()),
            None => NOWHERE,
        }
    }

    /// Gives its new letter to the bits that a signal makes, and marks their nets.
    pub(crate) fn set(&mut self, change: Change, marks: &mut Marks) -> Result<(), AllocError> {
        let letter = if self.is_reduced {
            reduced(change.letter)
        } else {
            change.letter
        };
        let mut place = self.lasts.get(change.signal).copied().unwrap_or(NOWHERE);
        for _ in 0..self.now.len() {
            let (Some(now), Some(other)) = (self.now.get_mut(place), self.others.get(place)) else {
                break;
            };
            *now = letter;
            marks.mark(place)?;
            place = *other;
        }
        Ok(())
    }

    /// The bits of a net have at the moment that is completed the letters that they have now.
    pub fn complete(&mut self, bits: Bits) {
        for place in bits.first..bits.first.saturating_add(bits.width) {
            if let (Some(now), Some(before)) = (self.now.get(place), self.before.get_mut(place)) {
                *before = *now;
            }
        }
    }

    /// The letters of a net at the last moment that was completed, the lowest index first.
    pub fn letters(&self, bits: Bits) -> &[u8] {
        let last = bits.first.saturating_add(bits.width);
        self.before.get(bits.first..last).unwrap_or(&[])
    }
}
