//! A change that was read.

/// A signal of a side, by its number, and the letter of its new value.
#[derive(Clone, Copy)]
pub struct Change {
    pub signal: usize,
    pub letter: u8,
}

/// The most changes that are read before they are carried out, those of one vector aside.
pub const BATCH: usize = 256;
