//! The walk over the hierarchy: each instance before those inside it, in textual order.

ghost use Rattle.std.specs.Prelude.{◌≡◌, ◌<◌, [], IfOk, length};
ghost use Rattle.std.specs.List.{All};
ghost use Rattle.sim_flat_blocks.specs.Blocks.{IsBlock, IsInstance, IsWithinLimits, size};
ghost use Rattle.sim_flat_expansion.specs.Flat.{flat};
ghost use Rattle.sim_flat_expansion.specs.Expanding as spec;

use crate::flat_sources::{none, objects_expanded};
use crate::names::below;
use crate::object_nets::block_object_nets;
use crate::processes::{PartialDesign, processes};
use sim_flat_blocks::links::Links;
use sim_flat_blocks::parts::{Block, Instance};
use sim_flat_design::process::ObjectNets;
use sim_flat_design::{Design, InstancePath, Net, Source};
use sqlite_items::Items;
use std::alloc::{AllocError, Global};

/// The top, and 32 levels of instances below it.
const LEVELS: usize = 33;

/// The place of a block in the hierarchy: all blocks, the number of levels that are expanded from
/// here on, its path, the links of its ports, and the nets of the objects around it.
#[derive(Clone, Copy)]
struct Spot<'a> {
    blocks: &'a [Block],
    levels: usize,
    path: &'a InstancePath,
    links: &'a Links,
    outer: &'a [usize],
}

/// Expands a block at a place, and returns its nets and those of its instances.
#[cycle(walk)]
#[tactic(auto, unfolding(crate::specs::Expanding::block_expanded))]
fn block(
    alloc: Global,
    spot: Spot<'_>,
    at: &Block,
    around: &mut [Items<Source>],
    flat: &mut PartialDesign,
) -> Result<Items<Net>, AllocError>
    requires known { All (IsBlock spot.blocks.now) spot.blocks.now }
    requires here { IsBlock spot.blocks.now at.now }
    ensures { IfOk result (λ r. (r, around.new, flat.new)
        ≡ spec.block_expanded spot.entry.blocks.now spot.entry.levels spot.entry.path.now
        spot.entry.links.now spot.entry.outer.now at.now around.old flat.old) }
{
    if spot.levels == 0 {
        return Ok(Items::new(alloc));
    }
    let object_nets = block_object_nets(alloc, spot.outer, spot.links, at, flat)?;
    let inner = Spot {
        blocks: spot.blocks,
        levels: spot.levels - 1,
        path: spot.path,
        links: spot.links,
        outer: spot.outer,
    };
    inside(alloc, inner, &object_nets, at, around, flat)
}

/// Expands the contents of a block whose ports and signals have these nets.
#[cycle(walk)]
#[tactic(auto, unfolding(crate::specs::Expanding::inside_expanded))]
fn inside(
    alloc: Global,
    spot: Spot<'_>,
    object_nets: &ObjectNets,
    at: &Block,
    around: &mut [Items<Source>],
    flat: &mut PartialDesign,
) -> Result<Items<Net>, AllocError>
    requires known { All (IsBlock spot.blocks.now) spot.blocks.now }
    requires here { IsBlock spot.blocks.now at.now }
    requires placed { length object_nets.now ≡ size at.now }
    ensures { IfOk result (λ r. (r, around.new, flat.new) ≡ spec.inside_expanded (spec.block_expanded spot.entry.blocks.now spot.entry.levels)
        spot.entry.blocks.now spot.entry.path.now spot.entry.links.now object_nets.now at.now around.old flat.old) }
{
    let (mut own, more) = occupants(alloc, spot, object_nets, at, flat)?;
    let mut nets = objects_expanded(alloc, spot.path, spot.links, own.as_mut_slice(), at, around)?;
    nets.append(more)?;
    Ok(nets)
}

/// Expands the processes of a block and then its instances. Returns the flat sources of each of its
/// ports and signals, and the nets of its instances.
#[cycle(walk)]
fn occupants(
    alloc: Global,
    spot: Spot<'_>,
    object_nets: &ObjectNets,
    at: &Block,
    flat: &mut PartialDesign,
) -> Result<(Vec<Items<Source>>, Items<Net>), AllocError>
    requires known { All (IsBlock spot.blocks.now) spot.blocks.now }
    requires here { IsBlock spot.blocks.now at.now }
    requires placed { length object_nets.now ≡ size at.now }
    ensures { IfOk result (λ r. (r.1, r.0.items, flat.new)
        ≡ spec.occupants_expanded (spec.block_expanded spot.entry.blocks.now spot.entry.levels)
        spot.entry.blocks.now spot.entry.path.now object_nets.now at.now flat.old) }
{
    let mut own = none(alloc, object_nets.as_slice().len())?;
    let block_processes = at.processes.as_slice();
    processes(
        alloc,
        object_nets,
        at,
        block_processes,
        own.as_mut_slice(),
        flat,
    )?;
    let within = Spot {
        blocks: spot.blocks,
        levels: spot.levels,
        path: spot.path,
        links: spot.links,
        outer: object_nets.as_slice(),
    };
    let list = at.instances.as_slice();
    let nets = instances(alloc, within, at, list, own.as_mut_slice(), flat)?;
    Ok((own, nets))
}

/// Expands instances of a block whose path this is. The nets around them are those of its objects.
#[cycle(walk)]
#[tactic(auto, unfolding(crate::specs::Expanding::instances_expanded))]
fn instances(
    alloc: Global,
    spot: Spot<'_>,
    at: &Block,
    list: &[Instance],
    own: &mut [Items<Source>],
    flat: &mut PartialDesign,
) -> Result<Items<Net>, AllocError>
    requires known { All (IsBlock spot.blocks.now) spot.blocks.now }
    requires here { All (IsInstance spot.blocks.now at.now) list.now }
    ensures { IfOk result (λ r. (r, own.new, flat.new)
        ≡ spec.instances_expanded (spec.block_expanded spot.entry.blocks.now spot.entry.levels)
        spot.entry.blocks.now spot.entry.outer.now spot.entry.path.now list.now [] own.old flat.old) }
{
    let mut nets = Items::new(alloc);
    for each in list {
        let more = instance(alloc, spot, at, each, own, flat)?;
        nets.append(more)?;
    }
    Ok(nets)
}

/// Expands an instance of a block whose path this is.
#[cycle(walk)]
#[tactic(auto, using(crate::proofs::Made::block_at))]
fn instance(
    alloc: Global,
    spot: Spot<'_>,
    at: &Block,
    each: &Instance,
    own: &mut [Items<Source>],
    flat: &mut PartialDesign,
) -> Result<Items<Net>, AllocError>
    requires known { All (IsBlock spot.blocks.now) spot.blocks.now }
    requires here { IsInstance spot.blocks.now at.now each.now }
    ensures { IfOk result (λ r. (r, own.new, flat.new)
        ≡ spec.instance_expanded (spec.block_expanded spot.entry.blocks.now spot.entry.levels)
        spot.entry.blocks.now spot.entry.outer.now spot.entry.path.now each.now own.old flat.old) }
{
    let path = below(alloc, spot.path, &each.label)?;
    let there = Spot {
        blocks: spot.blocks,
        levels: spot.levels,
        path: &path,
        links: &each.links,
        outer: spot.outer,
    };
    block(alloc, there, &spot.blocks[each.block], own, flat)
}

/// The flat design of the hierarchy under a block, with instances at most 32 levels deep (`fits`
/// tells whether some are deeper).
pub fn expand(alloc: Global, blocks: &[Block], top: usize) -> Result<Design, AllocError>
    requires known { All (IsBlock blocks.now) blocks.now }
    requires top { top < length blocks.now }
    requires bounds { IsWithinLimits (flat blocks.now top) }
    ensures { IfOk result (λ d. d ≡ flat blocks.now top) }
{
    let nothing = Links::open(alloc, 0, 0)?;
    let path = InstancePath::top(alloc)?;
    let mut flat = PartialDesign {
        nets: 0,
        processes: Items::new(alloc),
        drivers: Items::new(alloc),
    };
    let spot = Spot {
        blocks,
        levels: LEVELS,
        path: &path,
        links: &nothing,
        outer: &[],
    };
    let nets = block(alloc, spot, &blocks[top], &mut [], &mut flat)?;
    let PartialDesign {
        processes,
        drivers,
        ..
    } = flat;
    Design::new(alloc, nets, processes, drivers)
}
