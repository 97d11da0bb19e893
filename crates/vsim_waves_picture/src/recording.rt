//! A listing as it is read for a picture.

use crate::drawing::write_picture;
use crate::row::Row;
use crate::scale::Scale;
use indexmap::IndexSet;
use std::alloc::{AllocError, Global};
use std::io::{self, Write};
use vsim_waves_listing::{Fault, MapBit, Moment, SourceMap, is_name};
use vsim_waves_words::is_selected;

/// The most rows of a picture, and the most values.
const MOST_ROWS: usize = 256;

const MOST_VALUES: usize = 100_000;

/// What is shown: the times, and the names that fit a list of patterns.
#[derive(Clone, Copy)]
pub struct Window<'a> {
    pub from: u64,
    pub to: Option<u64>,
    pub nets: Option<&'a str>,
}

/// The part of a listing that has been read, as rows of a picture.
pub struct Recording<'a> {
    alloc: Global,
    window: Window<'a>,
    /// The signals, their values, and the rows that have them.
    signals: IndexSet<String>,
    values: Vec<u8>,
    users: Vec<Vec<usize>>,
    rows: Vec<Row>,
    changed: Vec<usize>,
    /// The number of values that were taken.
    count: usize,
    last: Moment,
    /// The time at which the stimuli of a map end.
    end: u64,
    is_mapped: bool,
    is_done: bool,
}

/// Written by hand so that code which drops it needs no proof about its contents.
impl Drop for Recording<'_> {
    fn drop(self) {
        let Recording {
            alloc: _,
            window: _,
            signals,
            values,
            users,
            rows,
            changed,
            count: _,
            last: _,
            end: _,
            is_mapped: _,
            is_done: _,
        } = self;
        drop(signals);
        drop(values);
        drop(users);
        drop(rows);
        drop(changed);
    }
}

/// A value of a listing as one of four.
fn reduced(letter: u8) -> u8 {
    match letter {
        b'0' | b'L' => b'0',
        b'1' | b'H' => b'1',
        b'Z' => b'Z',
        _ => b'X',
    }
}

impl<'a> Recording<'a> {
    /// Nothing was read.
    pub fn new(alloc: Global, window: Window<'a>) -> Recording<'a> {
        Recording {
            alloc,
            window,
            signals: IndexSet::new(alloc),
            values: Vec::new(alloc),
            users: Vec::new(alloc),
            rows: Vec::new(alloc),
            changed: Vec::new(alloc),
            count: 0,
            last: Moment { time: 0, delta: 0 },
            end: 0,
            is_mapped: false,
            is_done: false,
        }
    }

    /// Whether the last line was read.
    pub fn is_done(&self) -> bool {
        self.is_done
    }

    /// Takes the variables of a map, before anything is read.
    pub fn take_map(&mut self, map: &SourceMap) -> Result<(), Fault> {
        self.is_mapped = true;
        self.end = map.end;
        for name in map.signals.iter() {
            self.add_signal(name.as_str())?;
        }
        for variable in map.variables.iter() {
            self.add_row(variable.name.as_str(), variable.bits.as_slice())?;
        }
        Ok(())
    }

    /// Adds a signal; `false` if it is there already.
    fn add_signal(&mut self, name: &str) -> Result<bool, AllocError> {
        if !self.signals.insert(String::from_str(self.alloc, name)?)? {
            return Ok(false);
        }
        self.push_signal()?;
        Ok(true)
    }

    /// Adds a signal without a row.
    fn push_signal(&mut self) -> Result<(), AllocError> {
        self.values.push(b'X')?;
        self.users.push(Vec::new(self.alloc))?;
        Ok(())
    }

    /// Adds a row, if its name is among those that are shown.
    fn add_row(&mut self, name: &str, bits: &[MapBit]) -> Result<(), Fault> {
        if !is_selected(self.window.nets, name.as_bytes()) {
            return Ok(());
        }
        if self.rows.len() >= MOST_ROWS {
            return Err(Fault::Refused("a picture has at most 256 rows: choose them by --nets"));
        }
        Ok(self.push_row(name, bits)?)
    }

    /// Adds a row whose value is to be taken.
    fn push_row(&mut self, name: &str, bits: &[MapBit]) -> Result<(), AllocError> {
        let number = self.rows.len();
        let mut row = Row::new(self.alloc, name.as_bytes(), bits)?;
        let _is_new = row.mark();
        self.rows.push(row)?;
        self.changed.push(number)?;
        self.add_users(number, bits)
    }

    /// Adds a row to the users of its signals.
    fn add_users(&mut self, number: usize, bits: &[MapBit]) -> Result<(), AllocError> {
        for bit in bits {
            if let MapBit::Signal(place) = *bit {
                if let Some(users) = self.users.get_mut(place) {
                    users.push(number)?;
                }
            }
        }
        Ok(())
    }

    /// Takes a change; `false` if it can't be at this place.
    pub fn change(&mut self, at: Moment, name: &str, letter: u8) -> Result<bool, Fault> {
        if self.is_done || at < self.last {
            return Ok(false);
        }
        if at.time == 0 && at.delta == 0 && !self.is_mapped {
            return self.add_net(name, letter);
        }
        let Some(number) = self.signals.get_index_of(name) else {
            return Ok(self.is_mapped);
        };
        self.go_to(at)?;
        self.set(number, letter)?;
        Ok(true)
    }

    /// Takes a net with its first value; `false` if it is there already.
    fn add_net(&mut self, name: &str, letter: u8) -> Result<bool, Fault> {
        let number = self.signals.len();
        if !is_name(name.as_bytes()) || !self.add_signal(name)? {
            return Ok(false);
        }
        self.add_row(name, &[MapBit::Signal(number)])?;
        self.set(number, letter)?;
        Ok(true)
    }

    /// Goes on to a moment. The values at an earlier time are taken.
    fn go_to(&mut self, at: Moment) -> Result<(), Fault> {
        if at.time != self.last.time {
            self.take_changed()?;
        }
        self.last = at;
        Ok(())
    }

    /// Gives a signal a value.
    fn set(&mut self, number: usize, letter: u8) -> Result<(), AllocError> {
        if let Some(value) = self.values.get_mut(number) {
            *value = reduced(letter);
        }
        let Some(users) = self.users.get(number) else {
            return Ok(());
        };
        for row in users.iter() {
            if let Some(it) = self.rows.get_mut(*row) {
                if it.mark() {
                    self.changed.push(*row)?;
                }
            }
        }
        Ok(())
    }

    /// Takes the values at the last time of the rows that changed, unless it is behind the picture.
    fn take_changed(&mut self) -> Result<(), Fault> {
        if !self.is_behind() {
            self.count_changed()?;
            self.take_rows()?;
        }
        self.changed.clear();
        Ok(())
    }

    /// Whether the last time is behind the picture.
    fn is_behind(&self) -> bool {
        match self.window.to {
            Some(to) => self.last.time > to,
            None => false,
        }
    }

    /// Counts the values of the rows that changed, if they are not before the picture.
    fn count_changed(&mut self) -> Result<(), Fault> {
        if self.last.time >= self.window.from {
            self.count = self.count.saturating_add(self.changed.len());
        }
        if self.count > MOST_VALUES {
            return Err(Fault::Refused(
                "a picture has at most 100000 values: choose them by --from, --to and --nets",
            ));
        }
        Ok(())
    }

    /// Takes the values of the rows that changed.
    fn take_rows(&mut self) -> Result<(), AllocError> {
        let time = self.last.time.max(self.window.from);
        for number in self.changed.iter() {
            if let Some(row) = self.rows.get_mut(*number) {
                row.take(self.alloc, time, self.values.as_slice())?;
            }
        }
        Ok(())
    }

    /// Takes the last line; `false` if there was one before.
    pub fn end(&mut self) -> Result<bool, Fault> {
        if self.is_done {
            return Ok(false);
        }
        self.is_done = true;
        self.take_changed()?;
        Ok(true)
    }

    /// The times that are shown.
    fn times(&self) -> (u64, u64) {
        let from = self.window.from;
        let to = match self.window.to {
            Some(to) => to,
            None => self.end.max(self.last.time),
        };
        (from, to.max(from.saturating_add(1)))
    }

    /// Writes the picture.
    pub fn write<W: Write>(&self, out: &mut W) -> io::Result<()> {
        let (from, to) = self.times();
        let longest = self.rows.iter().map(|row| row.label.len()).max();
        let letters = longest.unwrap_or(0).min(1_000) as u64;
        let left = letters.saturating_mul(75).saturating_add(200);
        write_picture(out, self.rows.as_slice(), Scale { from, to, left })
    }
}
