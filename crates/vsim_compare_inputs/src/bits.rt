//! The nets that a side offers, with the bits that they are made of.

use indexmap::IndexMap;
use std::alloc::{AllocError, Global};
use vsim_waves_listing::MapBit;

/// The bits of a net: where the first one stands among those of all nets, and how many they are.
/// The first is the one with the lowest index.
#[derive(Clone, Copy)]
pub struct Bits {
    pub first: usize,
    pub width: usize,
}

/// The nets of a side by their names, and their bits.
pub struct Offers {
    pub nets: IndexMap<Vec<u8>, Bits>,
    pub bits: Vec<MapBit>,
}

/// Written by hand so that code which drops it needs no proof about its contents.
impl Drop for Offers {
    fn drop(self) {
        let Offers { nets, bits } = self;
        drop(nets);
        drop(bits);
    }
}

/// A text of its own.
pub fn owned(alloc: Global, text: &[u8]) -> Result<Vec<u8>, AllocError> {
    let mut copy = Vec::new(alloc);
    copy.extend_from_slice(text)?;
    Ok(copy)
}

/// Adds an item to a list.
pub fn push<T: Copy>(list: &mut Vec<T>, item: T) -> Result<(), AllocError> {
    list.push(item)?;
    Ok(())
}

impl Offers {
    /// No net.
    pub fn new(alloc: Global) -> Offers {
        Offers {
            nets: IndexMap::new(alloc),
            bits: Vec::new(alloc),
        }
    }

    /// Offers a net of bits, unless one of its name is there.
    pub fn offer(&mut self, alloc: Global, name: &[u8], bits: &[MapBit]) -> Result<(), AllocError> {
        if self.nets.contains_key(name) {
            return Ok(());
        }
        let first = self.bits.len();
        self.bits.extend_from_slice(bits)?;
        let width = bits.len();
        self.nets
            .insert(owned(alloc, name)?, Bits { first, width })?;
        Ok(())
    }

    /// The bits of a net with a name, if it has this width.
    pub fn find(&self, name: &[u8], width: usize) -> Option<Bits> {
        self.nets
            .get(name)
            .copied()
            .filter(|bits| bits.width == width)
    }
}
