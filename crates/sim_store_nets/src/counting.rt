//! The values of the sources of nets that have many, as they are at first, and where those of each
//! driver are among them.

ghost use Rattle.std.specs.Prelude.{ℕ, ◌≡◌, ◌<◌, ◌==◌, ◌||◌, ◌&&◌, [], List, map, length, slice_index_or, IfOk, OnOk};
ghost use Rattle.std.specs.List.{All};
ghost use Rattle.sim_store_nets.specs.Nets.{AreTallied, is_driver, tally_of, value_from};
ghost use Rattle.sim_store_nets.specs.Tallies.{is_many, is_placed, many, source_at};

use crate::nets::{MANY, source_value};
use crate::tallies::Tallies;
use crate::tally::Tally;
use sim_containers::RowArray;
use sim_flat_design::Source;
use sim_logic::Logic;
use sqlite_items::Items;
use std::alloc::{AllocError, Global};

/// Whether a net with these sources has many.
fn has_many(row: &[Source]) -> bool
    ensures { result ≡ is_many row.now }
{
    row.len() >= MANY
}

/// Whether any net has many sources.
fn any_has_many(sources: &RowArray<Source>) -> bool {
    for net in 0..sources.len() {
        if has_many(sources.row(net)) {
            return true;
        }
    }
    false
}

/// The values of these sources.
fn source_values(alloc: Global, row: &[Source], driving: &[Logic]) -> Result<Vec<Logic>, AllocError>
    ensures { IfOk result (λ v. v.items ≡ map (value_from driving.now) row.now) }
{
    row.iter()
        .map(|source| source_value(*source, driving))
        .collect(alloc)
}

/// The values of these sources, counted, if they are many.
fn tally(alloc: Global, row: &[Source], driving: &[Logic]) -> Result<Tally, AllocError>
    ensures { IfOk result (λ t. t ≡ tally_of driving.now row.now) }
{
    if !has_many(row) {
        return Ok(Tally::none(alloc));
    }
    let values = source_values(alloc, row, driving)?;
    Tally::of(alloc, values)
}

/// The same, of each net.
fn tallied(
    alloc: Global,
    sources: &RowArray<Source>,
    driving: &[Logic],
) -> Result<Vec<Tally>, AllocError>
    ensures { IfOk result (λ v. v.items ≡ map (tally_of driving.now) sources.now) }
{
    let mut rows = Vec::with_capacity(alloc, sources.len())?;
    for net in 0..sources.len() {
        rows.push(tally(alloc, sources.row(net), driving)?)?;
    }
    Ok(rows)
}

/// Adds a place of a net to those of a driver, if there is such a driver.
fn add_place(
    places: &mut [Items<(usize, usize)>],
    driver: usize,
    net: usize,
    place: usize,
) -> Result<(), AllocError>
    ensures { OnOk result ((n p d : ℕ) → d < length places.old
        → is_placed (slice_index_or places.new d []) n p
        ≡ (is_placed (slice_index_or places.old d []) n p || ((driver == d) && ((net == n) && (place == p))))) }
{
    if driver < places.len() {
        places[driver].push((net, place))?;
    }
    Ok(())
}

/// Adds a place of a net to those of the driver that is its source there, if it is one.
fn place_source(
    places: &mut [Items<(usize, usize)>],
    net: usize,
    place: usize,
    source: Source,
) -> Result<(), AllocError>
    ensures { OnOk result ((n p d : ℕ) → d < length places.old
        → is_placed (slice_index_or places.new d []) n p
        ≡ (is_placed (slice_index_or places.old d []) n p || (is_driver source d && ((net == n) && (place == p))))) }
{
    match source {
        Source::Driver(number) => { add_place(places, number, net, place) }
        Source::Constant(_) => Ok(()),
    }
}

/// Adds the places of a net to those of the drivers that are its sources.
fn place_sources(
    places: &mut [Items<(usize, usize)>],
    net: usize,
    row: &[Source],
) -> Result<(), AllocError>
    ensures { OnOk result ((n p d : ℕ) → d < length places.old
        → is_placed (slice_index_or places.new d []) n p
        ≡ (is_placed (slice_index_or places.old d []) n p || (is_driver (source_at row.now p) d && (net == n)))) }
{
    for place in 0..row.len() {
        place_source(places, net, place, row[place])?;
    }
    Ok(())
}

/// The same, if the net has many sources.
fn place_many(
    places: &mut [Items<(usize, usize)>],
    net: usize,
    row: &[Source],
) -> Result<(), AllocError>
    ensures { OnOk result ((n p d : ℕ) → d < length places.old
        → is_placed (slice_index_or places.new d []) n p
        ≡ (is_placed (slice_index_or places.old d []) n p || (is_driver (source_at (many row.now) p) d && (net == n)))) }
{
    if !has_many(row) {
        return Ok(());
    }
    place_sources(places, net, row)
}

/// Adds the places of each net of many sources to those of its drivers.
fn place_nets(
    places: &mut [Items<(usize, usize)>],
    sources: &RowArray<Source>,
) -> Result<(), AllocError>
    ensures { OnOk result ((n p d : ℕ) → d < length places.old
        → is_placed (slice_index_or places.new d []) n p
        ≡ (is_placed (slice_index_or places.old d []) n p || is_driver (source_at (many (slice_index_or sources.now n [])) p) d)) }
{
    for net in 0..sources.len() {
        place_many(places, net, sources.row(net))?;
    }
    Ok(())
}

/// An empty list of places for each driver.
fn no_places(alloc: Global, drivers: usize) -> Result<Vec<Items<(usize, usize)>>, AllocError>
    ensures empty { IfOk result (λ v. All (λ (list : List (ℕ × ℕ)). list ≡ []) v.items) }
    ensures count { IfOk result (λ v. length v.items ≡ drivers) }
{
    let mut lists = Vec::with_capacity(alloc, drivers)?;
    for _driver in 0..drivers {
        lists.push(Items::new(alloc))?;
    }
    Ok(lists)
}

/// The places of each driver among the sources of nets that have many.
fn placed(
    alloc: Global,
    sources: &RowArray<Source>,
    drivers: usize,
) -> Result<Vec<Items<(usize, usize)>>, AllocError>
    ensures { IfOk result (λ v. (n p d : ℕ) → d < drivers
        → is_placed (slice_index_or v.items d []) n p ≡ is_driver (source_at (many (slice_index_or sources.now n [])) p) d) }
{
    let mut places = no_places(alloc, drivers)?;
    place_nets(places.as_mut_slice(), sources)?;
    Ok(places)
}

/// The tallies of nets with these sources, while drivers have these values.
pub fn tallies(
    alloc: Global,
    sources: &RowArray<Source>,
    driving: &[Logic],
) -> Result<Tallies, AllocError>
    ensures { IfOk result (λ t. AreTallied sources.now driving.now t) }
{
    if !any_has_many(sources) {
        return Ok(Tallies::none(alloc));
    }
    let rows = tallied(alloc, sources, driving)?;
    let places = placed(alloc, sources, driving.len())?;
    Ok(Tallies::of(rows, places))
}
