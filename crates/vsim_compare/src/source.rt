//! The two kinds of inputs.

use crate::failure::Failure;
use std::alloc::{AllocError, Global};
use std::fs::{self, File};
use std::io;
use vsim_compare_inputs::{Change, Listing, Offers, Vcd};
use vsim_waves_listing::{Fault, Moment, Pieces, SourceMap};

/// An input, by its kind.
#[derive(Drop)]
enum Input {
    Listing(Box<Listing>),
    Vcd(Box<Vcd>),
}

/// An input with its path.
pub struct Source<'a> {
    path: &'a str,
    input: Input,
}

/// Written by hand so that code which drops it needs no proof about its contents.
impl Drop for Source<'_> {
    fn drop(self) {
        let Source { path: _, input } = self;
        drop(input);
    }
}

/// An input of a kind.
fn make_input(alloc: Global, pieces: Pieces<File>, is_vcd: bool) -> Result<Input, AllocError> {
    if is_vcd {
        return Ok(Input::Vcd(Box::new(alloc, Vcd::new(alloc, pieces))?));
    }
    let listing = Listing::new(alloc, pieces);
    Ok(Input::Listing(Box::new(alloc, listing)?))
}

/// The kind that the first byte of a stream shows: a VCD begins with a command.
fn input_of(alloc: Global, mut pieces: Pieces<File>) -> Result<Input, Fault> {
    let is_vcd = pieces.peek()? == Some(b'$');
    Ok(make_input(alloc, pieces, is_vcd)?)
}

impl Input {
    /// The number of the line that was read last.
    fn line(&self) -> usize {
        match self {
            Input::Listing(listing) => listing.line(),
            Input::Vcd(vcd) => vcd.line(),
        }
    }

    /// Reads what precedes the changes.
    fn read_head(&mut self, alloc: Global, is_settled: bool) -> Result<(), Fault> {
        match self {
            Input::Listing(listing) => listing.read_head(alloc, is_settled),
            Input::Vcd(vcd) => vcd.read_head(),
        }
    }

    /// Takes changes of a moment; `false` if there are no more.
    fn take_changes(&mut self, at: Moment, batch: &mut Vec<Change>) -> Result<bool, Fault> {
        match self {
            Input::Listing(listing) => listing.take_changes(at, batch),
            Input::Vcd(vcd) => vcd.take_changes(at, batch),
        }
    }
}

/// The stream of a file.
fn pieces_of(rt: &HostRuntime, path: &str) -> io::Result<Pieces<File>> {
    let file = fs::open(rt, path)?;
    let pieces = Pieces::new(rt.alloc(), file)?;
    Ok(pieces)
}

/// Opens an input.
pub fn open_source<'a>(rt: &HostRuntime, path: &'a str) -> Result<Source<'a>, Failure> {
    let pieces = match pieces_of(rt, path) {
        Ok(pieces) => pieces,
        Err(fault) => return Err(Failure::of_stream(fault, path)),
    };
    match input_of(rt.alloc(), pieces) {
        Ok(input) => Ok(Source { path, input }),
        Err(fault) => Err(Failure::of_input(fault, path, 1)),
    }
}

impl Source<'_> {
    /// Whether it is a VCD.
    pub fn is_vcd(&self) -> bool {
        match self.input {
            Input::Listing(_) => false,
            Input::Vcd(_) => true,
        }
    }

    /// Reads what precedes the changes. Where only the last values of a time count, the delta cycles
    /// of a listing are one.
    pub fn read_head(&mut self, alloc: Global, is_settled: bool) -> Result<(), Failure> {
        match self.input.read_head(alloc, is_settled) {
            Ok(()) => Ok(()),
            Err(fault) => Err(Failure::of_input(fault, self.path, self.input.line())),
        }
    }

    /// What it offers: of a listing its nets, or the variables of a map; of a VCD the variables
    /// below a scope, or below the one that has most of the other side's nets.
    pub fn offers(
        &self,
        alloc: Global,
        map: Option<&SourceMap>,
        scope: Option<&str>,
        other: Option<&Offers>,
    ) -> Result<Offers, Failure> {
        let offers = match &self.input {
            Input::Listing(listing) => listing.offers(alloc, map),
            Input::Vcd(vcd) => vcd.offers(alloc, scope, other),
        };
        match offers {
            Ok(offers) => Ok(offers),
            Err(Fault::Refused(text)) => Err(Failure::of_whole(text, self.path)),
            Err(Fault::Stream(fault)) => Err(Failure::of_stream(fault, self.path)),
        }
    }

    /// The number of its signals.
    pub fn count(&self) -> usize {
        match &self.input {
            Input::Listing(listing) => listing.first().len(),
            Input::Vcd(vcd) => vcd.count(),
        }
    }

    /// The first values of its signals. Those of a VCD are unknown until its first changes.
    pub fn first(&self) -> &[u8] {
        match &self.input {
            Input::Listing(listing) => listing.first(),
            Input::Vcd(_) => &[],
        }
    }

    /// The moment of the next change, if there may be one.
    pub fn next(&self) -> Option<Moment> {
        match &self.input {
            Input::Listing(listing) => listing.next(),
            Input::Vcd(vcd) => vcd.next(),
        }
    }

    /// Takes changes of a moment; `false` if there are no more.
    pub fn take_changes(&mut self, at: Moment, batch: &mut Vec<Change>) -> Result<bool, Failure> {
        match self.input.take_changes(at, batch) {
            Ok(has_more) => Ok(has_more),
            Err(fault) => Err(Failure::of_input(fault, self.path, self.input.line())),
        }
    }
}
