//! The nets that both sides offer, and those that one side alone does.

use crate::failure::Failure;
use crate::options::Options;
use crate::source::Source;
use std::alloc::{AllocError, Global};
use vsim_compare_board::{Board, Values};
use vsim_compare_inputs::{Bits, Offers, owned};
use vsim_waves_listing::SourceMap;
use vsim_waves_words::is_selected;

/// What both sides offer.
pub struct Sides {
    pub here: Offers,
    pub there: Offers,
}

/// Written by hand so that code which drops it needs no proof about its contents.
impl Drop for Sides {
    fn drop(self) {
        let Sides { here, there } = self;
        drop(here);
        drop(there);
    }
}

impl Sides {
    /// The same with the sides exchanged.
    fn exchanged(self) -> Sides {
        let Sides { here, there } = self;
        Sides {
            here: there,
            there: here,
        }
    }
}

/// What two inputs offer, of which the first is a listing if one is.
fn offers_in_turn(
    alloc: Global,
    options: &Options<'_>,
    first: &Source<'_>,
    second: &Source<'_>,
    map: Option<&SourceMap>,
) -> Result<Sides, Failure> {
    let here = first.offers(alloc, map, options.scope, None)?;
    let there = second.offers(alloc, None, options.scope, Some(&here))?;
    Ok(Sides { here, there })
}

/// What both sides offer. The map is that of the first listing; a VCD's scope is the one that has
/// most of the other side's nets.
pub fn find_sides(
    alloc: Global,
    options: &Options<'_>,
    here: &Source<'_>,
    there: &Source<'_>,
    map: Option<&SourceMap>,
) -> Result<Sides, Failure> {
    if here.is_vcd() {
        let sides = offers_in_turn(alloc, options, there, here, map)?;
        return Ok(sides.exchanged());
    }
    offers_in_turn(alloc, options, here, there, map)
}

/// The names of the nets of a side that are selected and that the other does not have in this width.
pub fn names_alone(
    alloc: Global,
    list: Option<&str>,
    side: &Offers,
    other: &Offers,
) -> Result<Vec<Vec<u8>>, AllocError> {
    let mut names = Vec::new(alloc);
    for (name, bits) in side.nets.iter() {
        let is_there = other.find(name.as_slice(), bits.width).is_some();
        if !is_there && is_selected(list, name.as_slice()) {
            names.push(owned(alloc, name.as_slice())?)?;
        }
    }
    Ok(names)
}

/// Adds a net to both sides.
fn add_net(
    sides: &Sides,
    here: &mut Values,
    there: &mut Values,
    own: Bits,
    other: Bits,
) -> Result<(), AllocError> {
    here.add(&sides.here, own)?;
    there.add(&sides.there, other)
}

/// The bits of both sides of a net that is selected.
fn found(sides: &Sides, list: Option<&str>, name: &[u8], bits: Bits) -> Option<Bits> {
    if !is_selected(list, name) {
        return None;
    }
    sides.there.find(name, bits.width)
}

/// Adds the bits of the selected nets that both sides have.
fn add_values(
    sides: &Sides,
    list: Option<&str>,
    here: &mut Values,
    there: &mut Values,
) -> Result<(), AllocError> {
    for (name, bits) in sides.here.nets.iter() {
        if let Some(other) = found(sides, list, name.as_slice(), *bits) {
            add_net(sides, here, there, *bits, other)?;
        }
    }
    Ok(())
}

/// Adds the selected nets that both sides have.
fn add_nets(
    alloc: Global,
    sides: &Sides,
    list: Option<&str>,
    board: &mut Board,
) -> Result<(), AllocError> {
    for (name, bits) in sides.here.nets.iter() {
        if found(sides, list, name.as_slice(), *bits).is_some() {
            board.add(owned(alloc, name.as_slice())?, bits.width)?;
        }
    }
    Ok(())
}

/// The board of the selected nets that both sides have, given the numbers of their signals.
pub fn make_board(
    alloc: Global,
    options: &Options<'_>,
    sides: &Sides,
    counts: (usize, usize),
    is_reduced: bool,
) -> Result<Board, AllocError> {
    let mut here = Values::new(alloc, counts.0, is_reduced)?;
    let mut there = Values::new(alloc, counts.1, is_reduced)?;
    add_values(sides, options.nets, &mut here, &mut there)?;
    finish_board(alloc, options, sides, here, there)
}

/// The board of these values.
fn finish_board(
    alloc: Global,
    options: &Options<'_>,
    sides: &Sides,
    here: Values,
    there: Values,
) -> Result<Board, AllocError> {
    let (ignores_here, ignores_there) = (options.ignores_here, options.ignores_there);
    let mut board = Board::new(alloc, here, there, ignores_here, ignores_there);
    add_nets(alloc, sides, options.nets, &mut board)?;
    Ok(board)
}
