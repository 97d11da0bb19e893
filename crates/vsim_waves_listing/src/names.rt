//! The names of nets, found by their texts.

use crate::words::{is_only, is_same, key_of, place_of};
use std::alloc::{AllocError, Global};

/// The number of places of a table at first, a power of two, and how many times as long the next
/// table is.
const FEWEST: usize = 64;

const GROWTH: usize = 4;

/// A name: its key, and its place in the text of all names.
#[derive(Clone, Copy)]
struct Name {
    key: u64,
    from: usize,
    to: usize,
}

/// Names, each with a number, which count from 0.
pub struct Names {
    /// All names, without anything between them.
    text: Vec<u8>,
    names: Vec<Name>,
    /// A hash table of numbers with open addressing. At least half of its places are empty, and
    /// their number is a power of two.
    table: Vec<Option<u32>>,
}

/// Written by hand so that code which drops it needs no proof about its contents.
impl Drop for Names {
    fn drop(self) {
        let Names { text, names, table } = self;
        drop(text);
        drop(names);
        drop(table);
    }
}

/// Puts the number of a name at the first empty place from that of its key on.
fn put(table: &mut Vec<Option<u32>>, key: u64, number: u32) {
    let last = table.len().saturating_sub(1);
    let mut place = place_of(key, last);
    for _ in 0..table.len() {
        if let Some(found) = table.get_mut(place) {
            if found.is_none() {
                *found = Some(number);
                return;
            }
        }
        place = place.wrapping_add(1) & last;
    }
}

impl Names {
    /// No name.
    pub fn new(alloc: Global) -> Names {
        Names {
            text: Vec::new(alloc),
            names: Vec::new(alloc),
            table: Vec::new(alloc),
        }
    }

    /// How many names there are.
    pub fn len(&self) -> usize {
        self.names.len()
    }

    /// The name with a number.
    pub fn get(&self, number: usize) -> Option<&[u8]> {
        let name = self.names.get(number)?;
        self.text.get(name.from..name.to)
    }

    /// Adds a name with the next number; `false` if it is there already.
    pub fn add(&mut self, alloc: Global, name: &[u8]) -> Result<bool, AllocError> {
        let key = key_of(name);
        if self.find_by(key, name).is_some() {
            return Ok(false);
        }
        if self.names.len().saturating_mul(2) >= self.table.len() {
            self.grow(alloc)?;
        }
        self.push(key, name)?;
        Ok(true)
    }

    /// Adds a name that is not there, for which the table has room.
    fn push(&mut self, key: u64, name: &[u8]) -> Result<(), AllocError> {
        let Ok(number) = u32::try_from(self.names.len()) else {
            return Err(AllocError);
        };
        let from = self.text.len();
        self.text.extend_from_slice(name)?;
        let to = self.text.len();
        self.names.push(Name { key, from, to })?;
        put(&mut self.table, key, number);
        Ok(())
    }

    /// Makes the table longer, with all names.
    fn grow(&mut self, alloc: Global) -> Result<(), AllocError> {
        let length = self.table.len().saturating_mul(GROWTH).max(FEWEST);
        self.table = vec![in alloc; None; length]?;
        for (number, name) in (0u32..).zip(self.names.iter()) {
            put(&mut self.table, name.key, number);
        }
        Ok(())
    }

    /// The number of a name.
    #[inline(always)]
    pub fn find(&self, name: &[u8]) -> Option<usize> {
        self.find_by(key_of(name), name)
    }

    /// The number of a name that has this key.
    #[inline(always)]
    fn find_by(&self, key: u64, name: &[u8]) -> Option<usize> {
        let last = self.table.len().saturating_sub(1);
        let mut place = place_of(key, last);
        for _ in 0..self.table.len() {
            let number = (*self.table.get(place)?)? as usize;
            if self.is_named(number, key, name) {
                return Some(number);
            }
            place = place.wrapping_add(1) & last;
        }
        None
    }

    /// Whether the name with a number is this one.
    #[inline(always)]
    fn is_named(&self, number: usize, key: u64, name: &[u8]) -> bool {
        match self.names.get(number) {
            Some(found) if found.key == key => {
                is_only(name) || is_same(self.text_of(found), name)
            }
            _ => false,
        }
    }

    /// The text of a name.
    fn text_of(&self, name: &Name) -> &[u8] {
        self.text.get(name.from..name.to).unwrap_or(&[])
    }
}
