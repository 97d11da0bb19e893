//! A VCD, as a side of the comparison.

use crate::bits::{Offers, push};
use crate::change::{BATCH, Change};
use crate::header::Header;
use std::alloc::{AllocError, Global};
use std::fs::File;
use vsim_waves_listing::{Fault, Moment, Pieces};
use vsim_waves_words::read_number;

/// A VCD whose header is read. Its signals are the bits of its variables.
pub struct Vcd {
    pieces: Pieces<File>,
    header: Header,
    /// The time of the changes that follow; `None` at the end.
    next: Option<u64>,
    /// The value of a vector whose code follows.
    value: Vec<u8>,
}

/// Written by hand so that code which drops it needs no proof about its contents.
impl Drop for Vcd {
    fn drop(self) {
        let Vcd {
            pieces,
            header,
            next: _,
            value,
        } = self;
        drop(pieces);
        drop(header);
        drop(value);
    }
}

/// A word among the changes of a VCD.
enum Word {
    /// A time.
    Time,
    /// A value of one bit, given by its letter, with the code of its variable.
    Bit(u8),
    /// A value of a vector. The code follows.
    Vector,
    /// A number or a text. The code follows.
    Other,
    /// The beginning of a comment.
    Comment,
    /// A command.
    Command,
}

/// What a word is, by its beginning.
fn kind(word: &[u8]) -> Word {
    match word {
        b"$comment" => Word::Comment,
        [b'#', ..] => Word::Time,
        [b'b' | b'B', ..] => Word::Vector,
        [b'r' | b'R' | b's' | b'S', ..] => Word::Other,
        [b'$', ..] => Word::Command,
        [letter, ..] => Word::Bit(*letter),
        [] => Word::Command,
    }
}

/// The letter of a bit as a listing has it, if it is one.
fn letter_of(letter: u8) -> Option<u8> {
    match letter.to_ascii_uppercase() {
        b'0' => Some(b'0'),
        b'1' => Some(b'1'),
        b'Z' => Some(b'Z'),
        b'X' => Some(b'X'),
        b'U' => Some(b'U'),
        b'W' => Some(b'W'),
        b'L' => Some(b'L'),
        b'H' => Some(b'H'),
        b'-' => Some(b'-'),
        _ => None,
    }
}

/// The letter of a bit of a value, which has the highest bit first and may be shorter than its
/// variable.
fn letter_at(value: &[u8], bit: usize) -> u8 {
    match value.len().checked_sub(bit.saturating_add(1)) {
        Some(at) => value.get(at).copied().unwrap_or(b'x'),
        None => match value.first() {
            Some(b'0' | b'1') => b'0',
            Some(first) => *first,
            None => b'x',
        },
    }
}

impl Vcd {
    /// A VCD of which nothing was read.
    pub fn new(alloc: Global, pieces: Pieces<File>) -> Vcd {
        Vcd {
            pieces,
            header: Header::new(alloc),
            next: Some(0),
            value: Vec::new(alloc),
        }
    }

    /// The number of the line that is read.
    pub fn line(&self) -> usize {
        self.pieces.lines().saturating_add(1)
    }

    /// Reads scopes and variables.
    pub fn read_head(&mut self) -> Result<(), Fault> {
        for _ in 0..u64::MAX {
            if self.header.is_done() {
                return Ok(());
            }
            if !self.pieces.next_word()? {
                break;
            }
            self.header.take(self.pieces.piece())?;
        }
        Err(Fault::Refused("the definitions have no end"))
    }

    /// The number of its signals.
    pub fn count(&self) -> usize {
        self.header.count()
    }

    /// What it offers below a scope, or else below the one that has most of the other side's.
    pub fn offers(
        &self,
        alloc: Global,
        scope: Option<&str>,
        other: Option<&Offers>,
    ) -> Result<Offers, Fault> {
        self.header.offers(alloc, scope, other)
    }

    /// The moment of the next change, if there may be one.
    pub fn next(&self) -> Option<Moment> {
        match self.next {
            Some(time) => Some(Moment { time, delta: 0 }),
            None => None,
        }
    }

    /// Takes changes of a moment; `false` if there are no more.
    pub fn take_changes(&mut self, at: Moment, batch: &mut Vec<Change>) -> Result<bool, Fault> {
        for _ in 0..BATCH {
            if self.next != Some(at.time) {
                return Ok(false);
            }
            self.take(batch)?;
        }
        Ok(true)
    }

    /// Takes the next word.
    fn take(&mut self, batch: &mut Vec<Change>) -> Result<(), Fault> {
        if !self.pieces.next_word()? {
            self.next = None;
            return Ok(());
        }
        match kind(self.pieces.piece()) {
            Word::Time => self.go_to(),
            Word::Bit(letter) => self.take_bit(letter, batch),
            Word::Vector => self.take_vector(batch),
            Word::Other => self.skip(),
            Word::Comment => self.skip_comment(),
            Word::Command => Ok(()),
        }
    }

    /// Goes on to the time of a word.
    fn go_to(&mut self) -> Result<(), Fault> {
        let digits = self.pieces.piece().get(1..).unwrap_or(&[]);
        let Some(time) = read_number(digits) else {
            return Err(Fault::Refused("this is no time"));
        };
        let Some(time) = time.checked_mul(self.header.scale()) else {
            return Err(Fault::Refused("the time is too late"));
        };
        if matches!(self.next, Some(now) if now > time) {
            return Err(Fault::Refused("the times fall"));
        }
        self.next = Some(time);
        Ok(())
    }

    /// Takes a value of one bit, whose code is behind its letter.
    fn take_bit(&mut self, letter: u8, batch: &mut Vec<Change>) -> Result<(), Fault> {
        let code = self.pieces.piece().get(1..).unwrap_or(&[]);
        let (Some(bits), Some(letter)) = (self.header.find(code), letter_of(letter)) else {
            return Err(Fault::Refused("this is no value of a variable"));
        };
        push(
            batch,
            Change {
                signal: bits.first,
                letter,
            },
        )?;
        Ok(())
    }

    /// Passes over the next word.
    fn skip(&mut self) -> Result<(), Fault> {
        if self.pieces.next_word()? {
            Ok(())
        } else {
            Err(Fault::Refused("a value has no code"))
        }
    }

    /// Takes the value of a vector, and its code.
    fn take_vector(&mut self, batch: &mut Vec<Change>) -> Result<(), Fault> {
        self.value.clear();
        let value = self.pieces.piece().get(1..).unwrap_or(&[]);
        self.value.extend_from_slice(value)?;
        self.skip()?;
        self.take_bits(batch)
    }

    /// Takes the bits of a vector whose code was read.
    fn take_bits(&mut self, batch: &mut Vec<Change>) -> Result<(), Fault> {
        let Some(bits) = self.header.find(self.pieces.piece()) else {
            return Err(Fault::Refused("this is no code of a variable"));
        };
        for bit in 0..bits.width {
            let Some(letter) = letter_of(letter_at(self.value.as_slice(), bit)) else {
                return Err(Fault::Refused("this is no value of a variable"));
            };
            let signal = bits.first.saturating_add(bit);
            push(batch, Change { signal, letter })?;
        }
        Ok(())
    }

    /// Passes over the words of a comment.
    fn skip_comment(&mut self) -> Result<(), Fault> {
        for _ in 0..u64::MAX {
            if !self.pieces.next_word()? || matches!(self.pieces.piece(), b"$end") {
                break;
            }
        }
        Ok(())
    }
}
