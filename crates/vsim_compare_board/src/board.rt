//! Where the values of both sides differ.

use crate::marks::{Marks, Net};
use crate::values::{NONE, Values, is_unknown};
use std::alloc::{AllocError, Global};
use vsim_compare_inputs::{Change, owned, push};
use vsim_waves_listing::Moment;

/// The first difference: when, the net's number, and its letters, the lowest index first.
#[derive(Drop)]
pub struct First {
    pub at: Moment,
    pub net: usize,
    pub here: Vec<u8>,
    pub there: Vec<u8>,
}

/// What was counted: changes that were compared, those that differed, and nets that differed.
#[derive(Clone, Copy)]
pub struct Counts {
    pub compared: u64,
    pub differing: u64,
    pub nets: u64,
}

/// The first side, or the second.
#[derive(Clone, Copy, PartialEq, Eq)]
pub enum Side {
    Here,
    There,
}

/// The nets of both sides.
pub struct Board {
    alloc: Global,
    here: Values,
    there: Values,
    ignores_here: bool,
    ignores_there: bool,
    marks: Marks,
    /// The nets that changed since they were compared.
    waiting: Vec<usize>,
    counts: Counts,
    first: Option<First>,
}

/// Written by hand so that code which drops it needs no proof about its contents.
impl Drop for Board {
    fn drop(self) {
        let Board {
            alloc: _,
            here,
            there,
            ignores_here: _,
            ignores_there: _,
            marks,
            waiting,
            counts: _,
            first,
        } = self;
        drop(here);
        drop(there);
        drop(marks);
        drop(waiting);
        drop(first);
    }
}

/// Whether two letters that differ are passed over.
fn is_passed(here: u8, there: u8, ignores_here: bool, ignores_there: bool) -> bool {
    let is_absent = here == NONE || there == NONE;
    is_absent || (ignores_here && is_unknown(here)) || (ignores_there && is_unknown(there))
}

/// Whether letters of both sides differ, but for those that are passed over.
fn differ(here: &[u8], there: &[u8], ignores_here: bool, ignores_there: bool) -> bool {
    for (one, other) in here.iter().zip(there.iter()) {
        if *one != *other && !is_passed(*one, *other, ignores_here, ignores_there) {
            return true;
        }
    }
    false
}

impl Board {
    /// No net. Unknown values of a side may be as any other.
    pub fn new(
        alloc: Global,
        here: Values,
        there: Values,
        ignores_here: bool,
        ignores_there: bool,
    ) -> Board {
        Board {
            alloc,
            here,
            there,
            ignores_here,
            ignores_there,
            marks: Marks::new(alloc),
            waiting: Vec::new(alloc),
            counts: Counts {
                compared: 0,
                differing: 0,
                nets: 0,
            },
            first: None,
        }
    }

    /// The nets.
    pub fn nets(&self) -> &[Net] {
        self.marks.nets.as_slice()
    }

    /// What was counted.
    pub fn counts(&self) -> Counts {
        self.counts
    }

    /// The first difference, if there is one.
    pub fn first(&self) -> Option<&First> {
        self.first.as_ref()
    }

    /// Adds a net of this width, whose bits both sides have already.
    pub fn add(&mut self, name: Vec<u8>, width: usize) -> Result<(), AllocError> {
        self.marks.add(name, width)
    }

    /// Takes changes of a side.
    pub fn take(&mut self, side: Side, batch: &[Change]) -> Result<(), AllocError> {
        for change in batch {
            match side {
                Side::Here => self.here.set(*change, &mut self.marks)?,
                Side::There => self.there.set(*change, &mut self.marks)?,
            }
        }
        Ok(())
    }

    /// Completes a moment: what changed waits to be compared.
    pub fn complete(&mut self) -> Result<(), AllocError> {
        for number in self.marks.fresh.iter() {
            if let Some(net) = self.marks.nets.get_mut(*number) {
                self.here.complete(net.bits);
                self.there.complete(net.bits);
                if net.complete() {
                    push(&mut self.waiting, *number)?;
                }
            }
        }
        self.marks.clear();
        Ok(())
    }

    /// Compares the nets that changed since they were compared, as they were at the last moment that
    /// was completed. A difference is told for this moment.
    pub fn compare(&mut self, at: Moment) -> Result<(), AllocError> {
        for place in 0..self.waiting.len() {
            let number = self.waiting.get(place).copied().unwrap_or(0);
            if self.differs(number) {
                self.note(at, number)?;
            }
        }
        self.waiting.clear();
        Ok(())
    }

    /// Compares a net; `true` if it differs.
    fn differs(&mut self, number: usize) -> bool {
        let Some(net) = self.marks.nets.get_mut(number) else {
            return false;
        };
        net.compare();
        self.counts.compared = self.counts.compared.saturating_add(1);
        let (here, there) = (self.here.letters(net.bits), self.there.letters(net.bits));
        if !differ(here, there, self.ignores_here, self.ignores_there) {
            return false;
        }
        self.counts.differing = self.counts.differing.saturating_add(1);
        if !net.has_differed {
            net.has_differed = true;
            self.counts.nets = self.counts.nets.saturating_add(1);
        }
        true
    }

    /// Whether a difference is the first so far: of those of a moment, that of the first net.
    fn is_first(&self, at: Moment, number: usize) -> bool {
        match &self.first {
            None => true,
            Some(first) => first.at == at && number < first.net,
        }
    }

    /// Notes a difference, if it is the first.
    fn note(&mut self, at: Moment, number: usize) -> Result<(), AllocError> {
        if !self.is_first(at, number) {
            return Ok(());
        }
        let Some(net) = self.marks.nets.get(number) else {
            return Ok(());
        };
        let here = owned(self.alloc, self.here.letters(net.bits))?;
        let there = owned(self.alloc, self.there.letters(net.bits))?;
        self.first = Some(First {
            at,
            net: number,
            here,
            there,
        });
        Ok(())
    }
}
