//! The values of a VCD.

use crate::changes::{Bits, Input, no_changes, reach, set};
use crate::scopes::Match;
use crate::times::LATEST;
use indexmap::IndexSet;
use std::alloc::{AllocError, Global};
use vsim_netlist_design::{Fault, Level, Stimuli, empty_lists, push};

/// The values of a VCD, as far as it has been read.
pub(crate) struct Values<'a> {
    alloc: Global,
    /// The codes of variables that stand for inputs.
    codes: IndexSet<String>,
    /// The bits that each code stands for.
    users: Vec<Vec<Bits>>,
    scale: u64,
    time: u64,
    /// A value of several bits whose code comes next.
    value: Option<&'a str>,
    is_comment: bool,
    stimuli: Stimuli,
}

/// The first byte of a word, and the rest.
fn split_first(word: &str) -> (u8, &str) {
    let first = word.as_bytes().first().copied().unwrap_or(b' ');
    (first, word.get(1..).unwrap_or(""))
}

impl Drop for Values<'_> {
    fn drop(self) {
        let Values {
            alloc: _,
            codes: _codes,
            users: _users,
            scale: _,
            time: _,
            value: _,
            is_comment: _,
            stimuli: _stimuli,
        } = self;
    }
}

/// The refusal of a word.
fn no_value(alloc: Global, word: &str) -> Fault {
    Fault::of(alloc, &["'", word, "' is no value of a VCD"])
}

/// The time that a number stands for, in femtoseconds.
fn scaled(number: &str, scale: u64) -> Option<u64> {
    number.parse::<u64>().ok()?.checked_mul(scale)
}

/// Gives a value to some bits. Returns `false` if a letter of it is not a level.
fn set_all(
    stimuli: &mut Stimuli,
    users: &[Bits],
    time: u64,
    value: &[u8],
) -> Result<bool, AllocError> {
    for bits in users {
        if !set(stimuli, *bits, time, value)? {
            return Ok(false);
        }
    }
    Ok(true)
}

/// No values yet, for inputs that variables stand for, in a unit of time.
pub(crate) fn make_values<'a>(
    alloc: Global,
    scale: u64,
    inputs: &[Input],
    matches: &[Match<'_>],
) -> Result<Values<'a>, AllocError> {
    let users = empty_lists(alloc, matches.len())?;
    let stimuli = no_changes(alloc, inputs)?;
    let mut values = Values {
        alloc,
        codes: IndexSet::new(alloc),
        users,
        scale,
        time: 0,
        value: None,
        is_comment: false,
        stimuli,
    };
    values.connect(matches)?;
    Ok(values)
}

impl<'a> Values<'a> {
    /// The index of a code, which is added if it is new.
    fn place(&mut self, code: &str) -> Result<usize, AllocError> {
        let code = String::from_str(self.alloc, code)?;
        let (place, _) = self.codes.insert_full(code)?;
        Ok(place)
    }

    /// Adds bits to those of a code.
    fn add(&mut self, code: &str, bits: Bits) -> Result<(), AllocError> {
        let place = self.place(code)?;
        match self.users.get_mut(place) {
            Some(list) => push(list, bits),
            None => Ok(()),
        }
    }

    /// Connects variables with the inputs that they stand for.
    fn connect(&mut self, matches: &[Match<'_>]) -> Result<(), AllocError> {
        for each in matches {
            self.add(each.code, each.bits)?;
        }
        Ok(())
    }

    /// The stimuli that have been read.
    pub(crate) fn into_stimuli(self) -> Stimuli {
        let Values {
            alloc: _,
            codes: _codes,
            users: _users,
            scale: _,
            time: _,
            value: _,
            is_comment: _,
            stimuli,
        } = self;
        stimuli
    }

    /// Gives a value to the bits of a code from now on. Returns `false` if it is not of levels.
    fn try_set(&mut self, code: &str, value: &[u8]) -> Result<bool, AllocError> {
        let Some(place) = self.codes.get_index_of(code) else {
            return Ok(true);
        };
        match self.users.get(place) {
            Some(users) => set_all(&mut self.stimuli, users.as_slice(), self.time, value),
            None => Ok(true),
        }
    }

    /// Gives a value to the bits of a code from now on.
    fn set(&mut self, code: &str, value: &str) -> Result<(), Fault> {
        if !self.try_set(code, value.as_bytes())? {
            return Err(Fault::of(self.alloc, &["an input has a value that is none of bits"]));
        }
        Ok(())
    }

    /// Advances to a time.
    fn go_to(&mut self, text: &str) -> Result<(), Fault> {
        let Some(time) = scaled(text, self.scale) else {
            return Err(Fault::of(self.alloc, &["a time is no number, or too late"]));
        };
        if time < self.time || LATEST < time {
            return Err(Fault::of(self.alloc, &["the times fall, or are too late"]));
        }
        self.time = time;
        reach(&mut self.stimuli, time);
        Ok(())
    }

    /// Reads a word other than the code after a value.
    fn begin(&mut self, word: &'a str) -> Result<(), Fault> {
        let (first, rest) = split_first(word);
        match first {
            b'#' => self.go_to(rest),
            b'$' => {
                self.is_comment = word == "$comment";
                Ok(())
            }
            b'b' | b'B' => {
                self.value = Some(rest);
                Ok(())
            }
            b'r' | b'R' | b's' | b'S' => {
                self.value = Some("x");
                Ok(())
            }
            _ if Level::from_byte(first).is_some() => {
                self.set(rest, word.get(..1).unwrap_or("x"))
            }
            _ => Err(no_value(self.alloc, word)),
        }
    }

    /// Reads the next word.
    pub(crate) fn take(&mut self, word: &'a str) -> Result<(), Fault> {
        if self.is_comment {
            self.is_comment = word != "$end";
            return Ok(());
        }
        match self.value {
            None => self.begin(word),
            Some(value) => {
                self.value = None;
                self.set(word, value)
            }
        }
    }

    /// Whether a word is missing after the last one.
    pub(crate) fn is_cut(&self) -> bool {
        self.is_comment || self.value.is_some()
    }
}
