//! A listing, as a side of the comparison.

use crate::bits::{Offers, push};
use crate::change::{BATCH, Change};
use std::alloc::{AllocError, Global};
use std::fs::File;
use vsim_waves_listing::{
    Fault, Line, LineReader, MapBit, Moment, Names, Pieces, SourceMap, Variable, is_name,
};

/// The refusal of a line.
const NO_LINE: &str = "this is not a line of a listing, or not in its place";

/// The refusal of a listing without its last line.
const NO_END: &str = "the last line, as 'done 3 3', is missing: the run was cut short";

/// The change of the line that was read last.
#[derive(Clone, Copy)]
struct Pending {
    at: Moment,
    change: Change,
}

/// A listing, of which the nets with their first values are read, and one change more.
pub struct Listing {
    pieces: Pieces<File>,
    lines: LineReader,
    is_settled: bool,
    names: Names,
    first: Vec<u8>,
    pending: Option<Pending>,
    last: Moment,
    is_done: bool,
}

/// Written by hand so that code which drops it needs no proof about its contents.
impl Drop for Listing {
    fn drop(self) {
        let Listing {
            pieces,
            lines,
            is_settled: _,
            names,
            first,
            pending: _,
            last: _,
            is_done: _,
        } = self;
        drop(pieces);
        drop(lines);
        drop(names);
        drop(first);
    }
}

/// Whether a moment is that of the first values.
fn is_first(at: Moment) -> bool {
    at.time == 0 && at.delta == 0
}

impl Listing {
    /// A listing of which nothing was read.
    pub fn new(alloc: Global, pieces: Pieces<File>) -> Listing {
        Listing {
            pieces,
            lines: LineReader::new(),
            is_settled: false,
            names: Names::new(alloc),
            first: Vec::new(alloc),
            pending: None,
            last: Moment { time: 0, delta: 0 },
            is_done: false,
        }
    }

    /// The number of the line that was read last.
    pub fn line(&self) -> usize {
        self.pieces.lines()
    }

    /// The first values of its nets.
    pub fn first(&self) -> &[u8] {
        self.first.as_slice()
    }

    /// Reads the first values of all nets. Where only the last values of a time count, its delta
    /// cycles are one.
    pub fn read_head(&mut self, alloc: Global, is_settled: bool) -> Result<(), Fault> {
        self.is_settled = is_settled;
        for _ in 0..u64::MAX {
            if self.pending.is_some() || self.is_done {
                break;
            }
            self.go_on()?;
            self.take_head(alloc)?;
        }
        Ok(())
    }

    /// Takes a line of the head, or the first one behind it.
    fn take_head(&mut self, alloc: Global) -> Result<(), Fault> {
        match self.lines.read(self.pieces.piece()) {
            Some(Line::Change { at, name, value }) if is_first(at) => {
                if !is_name(name) || !self.names.add(alloc, name)? {
                    return Err(Fault::Refused(NO_LINE));
                }
                Ok(push(&mut self.first, value)?)
            }
            _ => self.take(),
        }
    }

    /// Goes on to the next line, which has to be there.
    fn go_on(&mut self) -> Result<(), Fault> {
        if self.pieces.see_line() || self.pieces.next_line()? {
            Ok(())
        } else {
            Err(Fault::Refused(NO_END))
        }
    }

    /// Takes the line of a change, or the last one.
    fn take(&mut self) -> Result<(), Fault> {
        match self.lines.read(self.pieces.piece()) {
            Some(Line::Change { at, name, value }) if at >= self.last && !is_first(at) => {
                let Some(signal) = self.names.find(name) else {
                    return Err(Fault::Refused(NO_LINE));
                };
                self.expect(at, signal, value);
                Ok(())
            }
            Some(Line::Done) => self.end(),
            _ => Err(Fault::Refused(NO_LINE)),
        }
    }

    /// Notes the change of the line that was read last.
    fn expect(&mut self, at: Moment, signal: usize, letter: u8) {
        self.last = at;
        let delta = if self.is_settled { 0 } else { at.delta };
        let at = Moment {
            time: at.time,
            delta,
        };
        let change = Change { signal, letter };
        self.pending = Some(Pending { at, change });
    }

    /// Takes the last line, behind which there may be none.
    fn end(&mut self) -> Result<(), Fault> {
        self.pending = None;
        self.is_done = true;
        if self.pieces.next_line()? {
            Err(Fault::Refused(NO_LINE))
        } else {
            Ok(())
        }
    }

    /// The moment of the next change, if there is one.
    pub fn next(&self) -> Option<Moment> {
        match self.pending {
            Some(pending) => Some(pending.at),
            None => None,
        }
    }

    /// Takes changes of a moment; `false` if there are no more.
    pub fn take_changes(&mut self, at: Moment, batch: &mut Vec<Change>) -> Result<bool, Fault> {
        for _ in 0..BATCH {
            let Some(pending) = self.pending else {
                return Ok(false);
            };
            if pending.at != at {
                return Ok(false);
            }
            push(batch, pending.change)?;
            self.go_on_and_take()?;
        }
        Ok(true)
    }

    /// Reads the next line.
    fn go_on_and_take(&mut self) -> Result<(), Fault> {
        self.go_on()?;
        self.take()
    }

    /// What the listing offers: its nets, or the variables of a map.
    pub fn offers(&self, alloc: Global, map: Option<&SourceMap>) -> Result<Offers, Fault> {
        match map {
            Some(map) => self.mapped(alloc, map),
            None => Ok(self.own(alloc)?),
        }
    }

    /// Its own nets.
    fn own(&self, alloc: Global) -> Result<Offers, AllocError> {
        let mut offers = Offers::new(alloc);
        for signal in 0..self.names.len() {
            let name = self.names.get(signal).unwrap_or(&[]);
            offers.offer(alloc, name, &[MapBit::Signal(signal)])?;
        }
        Ok(offers)
    }

    /// The variables of a map.
    fn mapped(&self, alloc: Global, map: &SourceMap) -> Result<Offers, Fault> {
        let mut offers = Offers::new(alloc);
        for variable in map.variables.iter() {
            let bits = self.bits(alloc, map, variable)?;
            offers.offer(alloc, variable.name.as_str().as_bytes(), bits.as_slice())?;
        }
        Ok(offers)
    }

    /// The bits of a variable.
    fn bits(
        &self,
        alloc: Global,
        map: &SourceMap,
        variable: &Variable,
    ) -> Result<Vec<MapBit>, Fault> {
        let mut bits = Vec::new(alloc);
        for bit in variable.bits.iter() {
            push(&mut bits, self.bit(map, *bit)?)?;
        }
        Ok(bits)
    }

    /// A bit, with the number of its signal in the listing.
    fn bit(&self, map: &SourceMap, bit: MapBit) -> Result<MapBit, Fault> {
        let MapBit::Signal(place) = bit else {
            return Ok(bit);
        };
        let signal = match map.signals.get_index(place) {
            Some(name) => self.names.find(name.as_str().as_bytes()),
            None => None,
        };
        match signal {
            Some(signal) => Ok(MapBit::Signal(signal)),
            None => Err(Fault::Refused("it lacks a signal that the map names")),
        }
    }
}
