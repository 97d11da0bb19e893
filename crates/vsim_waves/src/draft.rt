//! A block in which what is to be written is put together.

use crate::hierarchy::put_identifier;
use itoa::write_digits;
use std::alloc::{AllocError, Global};
use std::io::{self, Write};
use std::mem;

/// The number of bytes of a block.
const SIZE: usize = 1 << 16;

/// The number of bytes for a change, and for half a time.
const LONGEST: usize = 16;

/// The most bytes of a time, with what is before and behind its digits.
const TIME: usize = 22;

/// The most bytes of a declaration beside its label.
const AROUND: usize = 40;

/// The number of changes for which an empty block has room, with a time before them.
pub const ROOM: usize = SIZE / LONGEST - 2;

/// The text of a change of one net: a blank in place of its value, its identifier, and a line feed.
#[derive(Clone, Copy)]
pub struct Change {
    bytes: [u8; LONGEST],
    length: usize,
}

impl Change {
    /// The text for the net with a number.
    pub fn new(number: usize) -> Change {
        let mut bytes = [b'\n'; LONGEST];
        bytes[0] = b' ';
        let length = put_identifier(&mut bytes, 1, number).saturating_add(1);
        Change { bytes, length }
    }
}

/// The bytes of a block up to its end.
#[derive(Drop)]
pub struct Draft {
    bytes: Vec<u8>,
    end: usize,
}

impl Draft {
    /// An empty block.
    pub fn new(alloc: Global) -> Result<Draft, AllocError> {
        let bytes = vec![in alloc; 0; SIZE]?;
        Ok(Draft { bytes, end: 0 })
    }

    /// Whether there is room for so many changes, with a time before them.
    pub fn has_room(&self, changes: usize) -> bool {
        changes.saturating_add(2) <= SIZE.saturating_sub(self.end) / LONGEST
    }

    /// Whether there is room for the declaration of a label.
    pub fn has_room_for(&self, label: &[u8]) -> bool {
        label.len().saturating_add(AROUND) <= SIZE.saturating_sub(self.end)
    }

    /// Puts a text, which has room.
    #[inline(always)]
    fn put(&mut self, text: &[u8]) {
        let end = self.end.saturating_add(text.len());
        if let Some(room) = self.bytes.as_mut_slice().get_mut(self.end..end) {
            room.copy_from_slice(text);
            self.end = end;
        }
    }

    /// Puts as many bytes of a text, which has room as a whole.
    #[inline(always)]
    fn put_first<const N: usize>(&mut self, text: &[u8; N], length: usize) {
        let Some(room) = self.bytes.as_mut_slice().get_mut(self.end..) else {
            return;
        };
        if let Some(room) = room.first_chunk_mut::<N>() {
            *room = *text;
            self.end = self.end.saturating_add(length);
        }
    }

    /// Puts a time, which has room.
    pub fn put_time(&mut self, time: u64) {
        let mut text = [b'\n'; 2 * TIME];
        let start = write_digits(time, &mut text, TIME - 1).saturating_sub(1);
        if let Some(byte) = text.get_mut(start) {
            *byte = b'#';
        }
        let line = text.get(start..).unwrap_or(&[]);
        if let Some(line) = line.first_chunk::<TIME>() {
            self.put_first(line, TIME.saturating_sub(start));
        }
    }

    /// Puts a change to the value of this letter, which has room.
    #[inline(always)]
    pub fn put_change(&mut self, letter: u8, change: &Change) {
        let place = self.end;
        self.put_first(&change.bytes, change.length);
        if let Some(byte) = self.bytes.as_mut_slice().get_mut(place) {
            *byte = letter;
        }
    }

    /// Puts the declaration of a net; `false` if it has no room.
    #[inline(always)]
    pub fn put_declaration(&mut self, change: &Change, label: &[u8]) -> bool {
        if !self.has_room_for(label) {
            return false;
        }
        self.put(b"$var wire 1");
        self.put_first(&change.bytes, change.length.saturating_sub(1));
        self.put(b" ");
        self.put(label);
        self.put(b" $end\n");
        true
    }

    /// Writes what was put.
    pub fn flush<W: Write>(&mut self, out: &mut W) -> io::Result<()> {
        let end = mem::replace(&mut self.end, 0);
        out.write_all(self.bytes.get(..end).unwrap_or(&[]))
    }
}
