//! How drivers and nets are connected (IEEE 1076-2008, 14.7.3): the sources of each net, and the nets
//! of each driver.

ghost use Rattle.std.specs.Prelude.{ℕ, [], ◌≡◌, ◌<◌, ◌==◌, ◌||◌, ◌&&◌, length, slice_index_or, IfOk, OnOk};
ghost use Rattle.sim_standard.specs.Orders.{is_among};
ghost use Rattle.sim_store_nets.specs.Nets.{AreFanOut, AreTallied, is_source, is_driver, sources_of};

use crate::counting::tallies;
use crate::lists::{add, empty_lists, in_rows};
use crate::tallies::Tallies;
use sim_containers::RowArray;
use sim_flat_design::{Design, Source};
use sim_logic::Logic;
use sqlite_items::Items;
use std::alloc::{AllocError, Global};

/// The sources of each net of a design, as rows.
fn sources(alloc: Global, design: &Design) -> Result<RowArray<Source>, AllocError>
    ensures { IfOk result (λ r. r ≡ sources_of design.now.nets) }
{
    let mut rows = RowArray::new(alloc)?;
    for net in design.nets() {
        rows.push_row(net.sources())?;
    }
    Ok(rows)
}

/// Adds a net to those of its source, if that is a driver.
fn add_source(fan_out: &mut [Items<usize>], net: usize, source: Source) -> Result<(), AllocError>
    ensures { OnOk result ((n d : ℕ) → d < length fan_out.old
        → is_among (slice_index_or fan_out.new d []) n ≡ (is_among (slice_index_or fan_out.old d []) n || (is_driver source d && (net == n)))) }
{
    match source {
        Source::Driver(number) => { add(fan_out, number, net) }
        Source::Constant(_) => Ok(()),
    }
}

/// Adds a net to those of each driver among its sources.
fn add_sources(
    fan_out: &mut [Items<usize>],
    net: usize,
    sources: &[Source],
) -> Result<(), AllocError>
    ensures { OnOk result ((n d : ℕ) → d < length fan_out.old
        → is_among (slice_index_or fan_out.new d []) n ≡ (is_among (slice_index_or fan_out.old d []) n || (is_source sources.now d && (net == n)))) }
{
    for source in sources {
        add_source(fan_out, net, *source)?;
    }
    Ok(())
}

/// Adds each net to those of the drivers among its sources.
fn add_nets(fan_out: &mut [Items<usize>], sources: &RowArray<Source>) -> Result<(), AllocError>
    ensures { OnOk result ((n d : ℕ) → d < length fan_out.old
        → is_among (slice_index_or fan_out.new d []) n ≡ (is_among (slice_index_or fan_out.old d []) n || is_source (slice_index_or sources.now n []) d)) }
{
    for net in 0..sources.len() {
        add_sources(fan_out, net, sources.row(net))?;
    }
    Ok(())
}

/// For each of this many drivers, the nets of which it is a source. Drivers beyond these are skipped.
/// The time is proportional to the number of drivers plus that of all sources.
fn fan_out(
    alloc: Global,
    sources: &RowArray<Source>,
    drivers: usize,
) -> Result<RowArray<usize>, AllocError>
    ensures value { IfOk result (λ r. AreFanOut sources.now r) }
    ensures drivers { IfOk result (λ r. length r ≡ drivers) }
{
    let mut lists = empty_lists(alloc, drivers)?;
    add_nets(lists.as_mut_slice(), sources)?;
    in_rows(alloc, lists.as_slice())
}

/// The sources of each net of a design, the nets of each of its drivers, which have these values,
/// and what is kept of nets with many sources.
pub fn connections(
    alloc: Global,
    design: &Design,
    driving: &[Logic],
) -> Result<(RowArray<Source>, RowArray<usize>, Tallies), AllocError>
    ensures sources { IfOk result (λ r. r.0 ≡ sources_of design.now.nets) }
    ensures fan_out { IfOk result (λ r. AreFanOut r.0 r.1) }
    ensures drivers { IfOk result (λ r. length r.1 ≡ length driving.now) }
    ensures tallied { IfOk result (λ r. AreTallied r.0 driving.now r.2) }
{
    let sources = sources(alloc, design)?;
    let fan_out = fan_out(alloc, &sources, driving.len())?;
    let tallies = tallies(alloc, &sources, driving)?;
    Ok((sources, fan_out, tallies))
}
