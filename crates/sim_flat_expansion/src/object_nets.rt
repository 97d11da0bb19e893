//! The net of each port and signal.

ghost use Rattle.std.specs.Prelude.{◌≡◌, ◌+◌, [], IfOk, slice_index_or, length};
ghost use Rattle.sim_flat_expansion.specs.Expanding as spec;
ghost use Rattle.sim_flat_blocks.specs.Blocks.{size};
ghost use Rattle.sim_flat_design.specs.Processes.{rising, nets_of};

use crate::processes::PartialDesign;
use sim_flat_blocks::links::{Link, Links};
use sim_flat_blocks::parts::Block;
use sim_flat_blocks::rising::rising;
use sim_flat_design::process::ObjectNets;
use sqlite_items::Items;
use std::alloc::{AllocError, Global};

/// The net of the port or signal at this position.
pub fn net_at(object_nets: &[usize], object: usize) -> usize
    ensures { result ≡ slice_index_or object_nets.now object 0 }
{
    match object_nets.get(object) {
        Some(number) => *number,
        None => 0,
    }
}

/// The next number. Memory runs out before it can overflow.
pub fn next(number: usize) -> Result<usize, AllocError>
    ensures { IfOk result (λ n. n ≡ number + 1) }
{
    match number.checked_add(1) {
        Some(next) => Ok(next),
        None => Err(AllocError),
    }
}

/// The net of a port or signal, and the number of nets so far.
fn object_net(outer: &[usize], link: Link, nets: usize) -> Result<(usize, usize), AllocError>
    ensures { IfOk result (λ r. r ≡ spec.object_net_expanded outer.now link nets) }
{
    match link {
        Link::To(object) => Ok((net_at(outer, object), nets)),
        Link::Constant(_) => Ok((nets, next(nets)?)),
        Link::Open => Ok((nets, next(nets)?)),
    }
}

/// The net of each port and signal of a block, given those of the enclosing architecture, and the
/// number of nets so far.
#[tactic(auto, unfolding(crate::specs::Expanding::object_nets_expanded))]
fn object_nets(
    alloc: Global,
    outer: &[usize],
    links: &Links,
    at: &Block,
    nets: usize,
) -> Result<(Items<usize>, usize), AllocError>
    ensures value { IfOk result (λ r. r ≡ spec.object_nets_expanded outer.now links.now (size at.now) [] nets) }
    ensures placed { IfOk result (λ r. length r.0 ≡ size at.now) }
{
    let count = at.ports.as_slice().len() + at.signals.as_slice().len();
    let mut object_nets = Items::from_vec(Vec::with_capacity(alloc, count)?);
    let mut total = nets;
    for _turn in 0..count {
        let (number, after) = object_net(outer, links.get(object_nets.len()), total)?;
        object_nets.push(number)?;
        total = after;
    }
    Ok((object_nets, total))
}

/// The net of each port and signal of a block; new nets are counted.
#[tactic(auto, unfolding(crate::specs::Expanding::block_object_nets))]
pub fn block_object_nets(
    alloc: Global,
    outer: &[usize],
    links: &Links,
    at: &Block,
    flat: &mut PartialDesign,
) -> Result<ObjectNets, AllocError>
    ensures value { IfOk result (λ r. (r, flat.new) ≡ spec.block_object_nets outer.now links.now at.now flat.old) }
    ensures placed { IfOk result (λ r. length r ≡ size at.now) }
{
    let (object_nets, nets) = object_nets(alloc, outer, links, at, flat.nets)?;
    flat.nets = nets;
    ObjectNets::new(alloc, object_nets)
}

/// The nets of ports and signals, without repetitions and in ascending order.
pub fn nets_of(
    alloc: Global,
    object_nets: &[usize],
    objects: &[usize],
) -> Result<Items<usize>, AllocError>
    ensures { IfOk result (λ r. r ≡ rising (nets_of object_nets.now objects.now)) }
{
    let mut nets = Vec::with_capacity(alloc, objects.len())?;
    for object in objects {
        nets.push(net_at(object_nets, *object))?;
    }
    Ok(rising(nets))
}
