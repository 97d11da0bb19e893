//! A listing, whose changes are checked as they are read.

use crate::report::Report;
use std::alloc::{AllocError, Global};
use std::io::{self, Read, Write};
use vsim_check_plan::Watched;
use vsim_netlist_design::Level;
use vsim_waves_listing::{Line, LineReader, Moment, Pieces};

/// The refusal of a line.
const NO_LINE: &str = "this is not a line of a listing, or not in its place";

/// The refusal of a listing without its last line.
const NO_END: &str = "the last line, as 'done 3 3', is missing: the run was cut short";

/// Why a listing is not read to its end.
#[derive(Drop)]
pub(crate) enum Trouble {
    Memory,
    Reading(vsim_waves_listing::Fault),
    Writing(io::Error),
    /// A line is refused.
    Line(&'static str),
    /// A signal is not there.
    Lacking(usize),
}

impl From<AllocError> for Trouble {
    fn from(_lack: AllocError) -> Trouble {
        Trouble::Memory
    }
}

impl From<vsim_waves_listing::Fault> for Trouble {
    fn from(fault: vsim_waves_listing::Fault) -> Trouble {
        Trouble::Reading(fault)
    }
}

impl From<io::Error> for Trouble {
    fn from(fault: io::Error) -> Trouble {
        Trouble::Writing(fault)
    }
}

/// A change of a signal, which may be none of those that are looked at.
#[derive(Clone, Copy)]
struct Change {
    at: Moment,
    signal: Option<usize>,
    letter: u8,
}

/// A listing, and the checks of its signals.
pub(crate) struct Run<R: Read> {
    pieces: Pieces<R>,
    lines: LineReader,
    watched: Watched,
    /// For each name of a signal, whether it has a first value.
    begun: Vec<bool>,
    /// The time from which on is checked.
    from: u64,
    /// The moment of the line that was read last.
    at: Moment,
}

/// Written by hand so that code which drops it needs no proof about its contents.
impl<R: Read + Drop> Drop for Run<R> {
    fn drop(self) {
        let Run {
            pieces,
            lines,
            watched,
            begun,
            from: _,
            at: _,
        } = self;
        drop(pieces);
        drop(lines);
        drop(watched);
        drop(begun);
    }
}

/// Whether a moment is that of the first values.
fn is_first(at: Moment) -> bool {
    at.time == 0 && at.delta == 0
}

impl<R: Read> Run<R> {
    /// A listing of which nothing was read.
    pub(crate) fn new(
        alloc: Global,
        pieces: Pieces<R>,
        watched: Watched,
        from: u64,
    ) -> Result<Run<R>, AllocError>
    where
        R: Drop,
    {
        let begun = vec![in alloc; false; watched.names.len()]?;
        Ok(Run {
            pieces,
            lines: LineReader::new(),
            watched,
            begun,
            from,
            at: Moment { time: 0, delta: 0 },
        })
    }

    /// The number of the line that was read last.
    pub(crate) fn line(&self) -> usize {
        self.pieces.lines()
    }

    /// The name of a signal.
    pub(crate) fn name(&self, signal: usize) -> &[u8] {
        self.watched.names.get(signal).unwrap_or(&[])
    }

    /// Goes on to the next line, which has to be there.
    fn go_on(&mut self) -> Result<(), Trouble> {
        if self.pieces.see_line() || self.pieces.next_line()? {
            Ok(())
        } else {
            Err(Trouble::Line(NO_END))
        }
    }

    /// Refuses a listing without a first value of each signal.
    fn demand_first(&self) -> Result<(), Trouble> {
        for (signal, is_begun) in self.begun.iter().enumerate() {
            if !*is_begun {
                return Err(Trouble::Lacking(signal));
            }
        }
        Ok(())
    }

    /// Completes the time of the line that was read last. Values at the end of time 0 are the first
    /// values of signals, and no events.
    fn complete<W: Write>(&mut self, report: &mut Report<'_, W>) -> Result<(), Trouble> {
        if self.at.time == 0 {
            self.demand_first()?;
            return Ok(self.watched.checker.begin()?);
        }
        self.complete_at(self.at.time, report)
    }

    /// Completes a time.
    fn complete_at<W: Write>(
        &mut self,
        now: u64,
        report: &mut Report<'_, W>,
    ) -> Result<(), Trouble> {
        if now < self.from {
            return Ok(self.watched.checker.settle(now)?);
        }
        self.check(now, report)
    }

    /// Finds and writes the violations at a time.
    fn check<W: Write>(&mut self, now: u64, report: &mut Report<'_, W>) -> Result<(), Trouble> {
        let checker = &mut self.watched.checker;
        checker.check(now)?;
        if checker.found().is_empty() {
            return Ok(());
        }
        Ok(report.write(now, checker.found())?)
    }

    /// Completes all times before one at which levels arrive at the ends of wires.
    fn pass<W: Write>(&mut self, until: u64, report: &mut Report<'_, W>) -> Result<(), Trouble> {
        for _ in 0..u64::MAX {
            match self.watched.checker.next() {
                Some(next) if next < until => self.complete_at(next, report)?,
                _ => break,
            }
        }
        Ok(())
    }

    /// Notes that a signal has a first value. It has one alone.
    fn begin(&mut self, signal: usize) -> Result<(), Trouble> {
        match self.begun.get_mut(signal) {
            Some(is_begun) if !*is_begun => {
                *is_begun = true;
                Ok(())
            }
            _ => Err(Trouble::Line(NO_LINE)),
        }
    }

    /// Takes the level of a signal.
    fn take_level(&mut self, signal: usize, letter: u8) -> Result<(), Trouble> {
        if is_first(self.at) {
            self.begin(signal)?;
        }
        let level = Level::from_byte(letter).unwrap_or(Level::Unknown);
        let signal = self.watched.signals.get(signal).copied().unwrap_or(0);
        Ok(self.watched.checker.take(signal, level)?)
    }

    /// Goes to a moment, after the times before it are completed.
    fn go_to<W: Write>(&mut self, at: Moment, report: &mut Report<'_, W>) -> Result<(), Trouble> {
        if self.at.time < at.time {
            self.complete(report)?;
            self.pass(at.time, report)?;
        }
        self.at = at;
        Ok(())
    }

    /// Takes a change, after the moment before it is completed.
    fn take_change<W: Write>(
        &mut self,
        change: Change,
        report: &mut Report<'_, W>,
    ) -> Result<(), Trouble> {
        if change.at < self.at {
            return Err(Trouble::Line(NO_LINE));
        }
        self.go_to(change.at, report)?;
        match change.signal {
            Some(signal) => self.take_level(signal, change.letter),
            None => Ok(()),
        }
    }

    /// The change on the line that is seen; `None` for the last line.
    fn change(&mut self) -> Result<Option<Change>, Trouble> {
        match self.lines.read(self.pieces.piece()) {
            Some(Line::Change { at, name, value }) => {
                Ok(Some(Change {
                    at,
                    signal: self.watched.names.find(name),
                    letter: value,
                }))
            }
            Some(Line::Done) => Ok(None),
            None => Err(Trouble::Line(NO_LINE)),
        }
    }

    /// Takes the next line; `false` if it is the last one.
    fn take_line<W: Write>(&mut self, report: &mut Report<'_, W>) -> Result<bool, Trouble> {
        self.go_on()?;
        match self.change()? {
            Some(change) => {
                self.take_change(change, report)?;
                Ok(true)
            }
            None => Ok(false),
        }
    }

    /// Takes the end, behind which there may be no line.
    fn end<W: Write>(&mut self, report: &mut Report<'_, W>) -> Result<(), Trouble> {
        self.complete(report)?;
        self.pass(u64::MAX, report)?;
        if self.pieces.next_line()? {
            Err(Trouble::Line(NO_LINE))
        } else {
            Ok(())
        }
    }

    /// Checks a listing up to its end.
    pub(crate) fn carry_out<W: Write>(
        &mut self,
        report: &mut Report<'_, W>,
    ) -> Result<(), Trouble> {
        for _ in 0..u64::MAX {
            if !self.take_line(report)? {
                break;
            }
        }
        self.end(report)
    }
}
