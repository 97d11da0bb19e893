//! The lines or the words of a stream, read in blocks.

use crate::fault::Fault;
use memchr::memchr;
use std::alloc::{AllocError, Global};
use std::io::{self, Read};

/// The number of bytes of a block at first, and of the longest line or word.
const BLOCK: usize = 1 << 16;

const LONGEST: usize = 1 << 24;

/// A stream, of which one line or word at a time can be seen.
pub struct Pieces<R: Read> {
    input: R,
    block: Vec<u8>,
    /// Where the piece that is seen begins and ends in the block, where what follows it begins, and
    /// where what was read ends.
    from: usize,
    to: usize,
    next: usize,
    end: usize,
    /// The number of lines that ended before what follows.
    lines: usize,
}

/// Written by hand so that code which drops it needs no proof about its contents.
impl<R: Read + Drop> Drop for Pieces<R> {
    fn drop(self) {
        let Pieces {
            input,
            block,
            from: _,
            to: _,
            next: _,
            end: _,
            lines: _,
        } = self;
        drop(input);
        drop(block);
    }
}

/// The number of blanks with which a text begins, and of line feeds among them.
fn blanks(text: &[u8]) -> (usize, usize) {
    let mut lines = 0usize;
    for (place, byte) in text.iter().enumerate() {
        if !byte.is_ascii_whitespace() {
            return (place, lines);
        }
        if *byte == b'\n' {
            lines = lines.saturating_add(1);
        }
    }
    (text.len(), lines)
}

/// The length of the word with which a text begins, if a blank ends it.
fn word_length(text: &[u8]) -> Option<usize> {
    for (place, byte) in text.iter().enumerate() {
        if byte.is_ascii_whitespace() {
            return Some(place);
        }
    }
    None
}

impl<R: Read> Pieces<R> {
    /// A stream of which nothing has been read.
    pub fn new(alloc: Global, input: R) -> Result<Pieces<R>, AllocError>
    where
        R: Drop,
    {
        let block = vec![in alloc; 0; BLOCK]?;
        Ok(Pieces {
            input,
            block,
            from: 0,
            to: 0,
            next: 0,
            end: 0,
            lines: 0,
        })
    }

    /// The piece that is seen.
    pub fn piece(&self) -> &[u8] {
        self.block.get(self.from..self.to).unwrap_or(&[])
    }

    /// Whether a line feed ended the line that is seen.
    pub fn is_ended(&self) -> bool {
        self.next > self.to
    }

    /// The number of lines that ended before what follows the piece.
    pub fn lines(&self) -> usize {
        self.lines
    }

    /// What was read and not seen yet.
    pub fn rest(&self) -> &[u8] {
        self.block.get(self.next..self.end).unwrap_or(&[])
    }

    /// Passes over so many bytes of what was not seen yet, which are so many lines.
    pub fn pass(&mut self, bytes: usize, lines: usize) {
        self.next = self.next.saturating_add(bytes);
        self.lines = self.lines.saturating_add(lines);
    }

    /// The byte that follows, if there is one.
    pub fn peek(&mut self) -> Result<Option<u8>, Fault> {
        if self.rest().is_empty() {
            let _has_more = self.fill()?;
        }
        Ok(self.rest().first().copied())
    }

    /// Goes on to the next line, if all of it is in the block; `false` if it is not.
    #[inline(always)]
    pub fn see_line(&mut self) -> bool {
        let Some(length) = memchr(b'\n', self.rest()) else {
            return false;
        };
        self.see(length, 1);
        self.lines = self.lines.saturating_add(1);
        true
    }

    /// Goes on to the next line, which is seen without its line feed; `false` at the end.
    pub fn next_line(&mut self) -> Result<bool, Fault> {
        for _ in 0..u64::MAX {
            if self.see_line() {
                return Ok(true);
            }
            if !self.fill()? {
                break;
            }
        }
        Ok(self.see_rest())
    }

    /// Goes on to the next word; `false` at the end.
    pub fn next_word(&mut self) -> Result<bool, Fault> {
        for _ in 0..u64::MAX {
            self.skip_blanks();
            if let Some(length) = word_length(self.rest()) {
                self.see(length, 0);
                return Ok(true);
            }
            if !self.fill()? {
                break;
            }
        }
        Ok(self.see_rest())
    }

    /// Passes over the blanks that follow.
    fn skip_blanks(&mut self) {
        let (count, lines) = blanks(self.rest());
        self.next = self.next.saturating_add(count);
        self.lines = self.lines.saturating_add(lines);
    }

    /// Sees as many bytes as the next piece has, and passes over what separates it from others.
    fn see(&mut self, length: usize, separator: usize) {
        self.from = self.next;
        self.to = self.next.saturating_add(length);
        self.next = self.to.saturating_add(separator);
    }

    /// Sees what is left at the end of the stream; `false` if nothing is.
    fn see_rest(&mut self) -> bool {
        let length = self.rest().len();
        self.see(length, 0);
        if length > 0 {
            self.lines = self.lines.saturating_add(1);
        }
        length > 0
    }

    /// Moves what was not seen yet to the front of the block, or makes a full block longer.
    fn make_room(&mut self) -> Result<(), Fault> {
        let (next, end) = (self.next, self.end);
        if next == 0 && end == self.block.len() {
            return self.grow();
        }
        if next <= end && end <= self.block.len() {
            self.block.copy_within(next..end, 0);
        }
        self.end = end.saturating_sub(next);
        self.next = 0;
        Ok(())
    }

    /// Makes the block twice as long.
    fn grow(&mut self) -> Result<(), Fault> {
        let length = self.block.len();
        if length >= LONGEST {
            return Err(Fault::Refused("a line or word is too long"));
        }
        self.block.resize(length.saturating_mul(2), 0)?;
        Ok(())
    }

    /// Reads more; `false` at the end of the stream.
    fn fill(&mut self) -> Result<bool, Fault> {
        self.make_room()?;
        let Some(room) = self.block.as_mut_slice().get_mut(self.end..) else {
            return Ok(false);
        };
        match self.input.read(room) {
            Ok(count) => {
                self.end = self.end.saturating_add(count);
                Ok(count > 0)
            }
            Err(fault) if fault.kind() == io::ErrorKind::Interrupted => Ok(true),
            Err(fault) => Err(Fault::Stream(fault)),
        }
    }
}
