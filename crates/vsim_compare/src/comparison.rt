//! The comparison of two inputs, from moment to moment.

use crate::clock::Clock;
use crate::failure::Failure;
use crate::source::Source;
use std::alloc::{AllocError, Global};
use vsim_compare_board::{Board, Side};
use vsim_compare_inputs::Change;
use vsim_waves_listing::Moment;

/// A comparison, as far as it has come.
pub struct Comparison {
    pub board: Board,
    pub clock: Option<Clock>,
    /// The time from which on is compared, and whether it was reached.
    from: u64,
    is_begun: bool,
    /// Changes that were read.
    batch: Vec<Change>,
}

/// Written by hand so that code which drops it needs no proof about its contents.
impl Drop for Comparison {
    fn drop(self) {
        let Comparison {
            board,
            clock: _,
            from: _,
            is_begun: _,
            batch,
        } = self;
        drop(board);
        drop(batch);
    }
}

/// The earlier of two moments, where there is one.
fn earlier(one: Option<Moment>, other: Option<Moment>) -> Option<Moment> {
    match (one, other) {
        (Some(one), Some(other)) => Some(one.min(other)),
        (Some(at), None) | (None, Some(at)) => Some(at),
        (None, None) => None,
    }
}

impl Comparison {
    /// Nothing was read.
    pub fn new(alloc: Global, board: Board, clock: Option<Clock>, from: u64) -> Comparison {
        Comparison {
            board,
            clock,
            from,
            is_begun: false,
            batch: Vec::new(alloc),
        }
    }

    /// Takes the changes that were read of a side.
    fn carry_out(&mut self, side: Side) -> Result<(), AllocError> {
        if side == Side::Here {
            if let Some(clock) = &mut self.clock {
                clock.take(self.batch.as_slice());
            }
        }
        self.board.take(side, self.batch.as_slice())?;
        self.batch.clear();
        Ok(())
    }

    /// Takes the first values of a side.
    fn take_first(&mut self, side: Side, source: &Source<'_>) -> Result<(), AllocError> {
        for (signal, letter) in source.first().iter().enumerate() {
            let letter = *letter;
            self.batch.push(Change { signal, letter })?;
        }
        self.carry_out(side)
    }

    /// Takes the changes of a side at a moment.
    fn take(&mut self, side: Side, source: &mut Source<'_>, at: Moment) -> Result<(), Failure> {
        for _ in 0..u64::MAX {
            let has_more = source.take_changes(at, &mut self.batch)?;
            self.carry_out(side)?;
            if !has_more {
                break;
            }
        }
        Ok(())
    }

    /// Before a moment: where the time from which on is compared lies between the last one and this
    /// one, the values at that time are compared.
    fn begin(&mut self, time: u64) -> Result<(), AllocError> {
        if self.is_begun || time < self.from {
            return Ok(());
        }
        self.is_begun = true;
        if time > self.from && self.clock.is_none() {
            let at = Moment {
                time: self.from,
                delta: 0,
            };
            return self.board.compare(at);
        }
        Ok(())
    }

    /// Completes a moment, and compares what is to be compared at it: what was before an edge, or
    /// what is now.
    fn complete(&mut self, at: Moment) -> Result<(), AllocError> {
        let Some(clock) = &mut self.clock else {
            self.board.complete()?;
            return if self.is_begun {
                self.board.compare(at)
            } else {
                Ok(())
            };
        };
        if clock.complete() && self.is_begun {
            clock.edges = clock.edges.saturating_add(1);
            self.board.compare(at)?;
        }
        self.board.complete()
    }

    /// Takes what both sides have at a moment.
    fn step(
        &mut self,
        here: &mut Source<'_>,
        there: &mut Source<'_>,
        at: Moment,
    ) -> Result<(), Failure> {
        self.take(Side::Here, here, at)?;
        self.take(Side::There, there, at)?;
        Ok(self.complete(at)?)
    }

    /// Compares two inputs, of which the heads are read.
    pub fn run(&mut self, here: &mut Source<'_>, there: &mut Source<'_>) -> Result<(), Failure> {
        self.take_first(Side::Here, here)?;
        self.take_first(Side::There, there)?;
        let mut at = Moment { time: 0, delta: 0 };
        for _ in 0..u64::MAX {
            self.pass(here, there, at)?;
            let Some(next) = earlier(here.next(), there.next()) else {
                break;
            };
            at = next;
        }
        Ok(())
    }

    /// Takes a moment.
    fn pass(
        &mut self,
        here: &mut Source<'_>,
        there: &mut Source<'_>,
        at: Moment,
    ) -> Result<(), Failure> {
        self.begin(at.time)?;
        self.step(here, there, at)
    }

    /// Compares what is left, where the time from which on is compared is later than all changes.
    pub fn finish(&mut self) -> Result<(), AllocError> {
        self.begin(u64::MAX)
    }
}
