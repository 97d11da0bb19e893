//! Recursive instances, whose blocks contain themselves (IEEE 1076-2008, 14.2): a search from each
//! block tells which of its instances are of blocks that lead back to it. A block is skipped if all
//! of its instances come after the first one found.

ghost use Rattle.std.specs.Prelude.{◌≡◌, ◌<◌, IfOk, length};
ghost use Rattle.std.specs.List.{All, list_any};
ghost use Rattle.sim_flat_blocks.specs.Blocks.{IsBlock};
ghost use Rattle.sim_flat_graph.specs.Graph.{IsWhole, graph_of};
ghost use Rattle.sim_flat_graph.specs.Least.{IsLeast, least_of};
ghost use Rattle.sim_flat_graph.specs.Recursion as spec;

use crate::graph::{graph_of, reversed};
use crate::least::lesser;
use crate::search::{is_marked, reached};
use sim_flat_blocks::parts::{Block, Instance};
use sim_flat_expansion::depth::is_too_deep;
use sqlite_items::Items;
use std::alloc::{AllocError, Global};

/// The least of the known place and the places of instances of marked blocks.
#[tactic(auto, unfolding(crate::specs::Recursion::places_of, crate::specs::Least::least_of))]
fn least_in(marks: &[bool], instances: &[Instance], known: Option<usize>) -> Option<usize>
    ensures { result ≡ least_of known (spec.places_of (spec.marked marks.now) instances.now) }
{
    let mut least = known;
    for instance in instances {
        if is_marked(marks, instance.block) {
            least = lesser(least, instance.at);
        }
    }
    least
}

/// The least of the known place and the places of these instances of block `number` whose blocks
/// lead back to it.
fn least_back(
    alloc: Global,
    back: &[Items<usize>],
    number: usize,
    instances: &[Instance],
    known: Option<usize>,
) -> Result<Option<usize>, AllocError>
    requires whole { IsWhole back.now }
    requires number { number < length back.now }
    ensures { IfOk result (λ least. spec.IsLeastBack back.now number instances.now known least) }
{
    let marks = reached(alloc, back, number)?;
    let least = least_in(marks.as_slice(), instances, known);
    Ok(least)
}

/// Whether a place precedes the known one.
fn is_before(known: Option<usize>, at: usize) -> bool
    ensures { result ≡ spec.is_before known at }
{
    match known {
        None => true,
        Some(first) => at < first,
    }
}

/// Whether one of these instances precedes the known place.
fn has_earlier(instances: &[Instance], known: Option<usize>) -> bool
    ensures { result ≡ list_any (spec.is_earlier known) instances.now }
{
    for instance in instances {
        if is_before(known, instance.at) {
            return true;
        }
    }
    false
}

/// The same as `least_back`, without a search if no instance precedes the known place.
fn least_ahead(
    alloc: Global,
    back: &[Items<usize>],
    number: usize,
    instances: &[Instance],
    known: Option<usize>,
) -> Result<Option<usize>, AllocError>
    requires whole { IsWhole back.now }
    requires number { number < length back.now }
    ensures { IfOk result (λ least. spec.IsLeastBack back.now number instances.now known least) }
{
    if !has_earlier(instances, known) {
        return Ok(known);
    }
    least_back(alloc, back, number, instances, known)
}

/// The least place so far, with one more block; a block that is not marked adds nothing.
fn least_on(
    alloc: Global,
    marked: bool,
    back: &[Items<usize>],
    number: usize,
    instances: &[Instance],
    known: Option<usize>,
) -> Result<Option<usize>, AllocError>
    requires whole { IsWhole back.now }
    requires number { number < length back.now }
    ensures { IfOk result (λ least. spec.IsLeastOn marked back.now number instances.now known least) }
{
    if !marked {
        return Ok(known);
    }
    least_ahead(alloc, back, number, instances, known)
}

/// The place of the first recursive instance, if there is one.
fn least_recursive(
    alloc: Global,
    blocks: &[Block],
    graph: &[Items<usize>],
    top: usize,
) -> Result<Option<usize>, AllocError>
    requires whole { IsWhole graph.now }
    requires graph { graph.now ≡ graph_of blocks.now }
    requires top { top < length graph.now }
    ensures { IfOk result (λ least. IsLeast (spec.IsRecursive blocks.now top) least) }
{
    let marks = reached(alloc, graph, top)?;
    let back = reversed(alloc, graph)?;
    let mut least = None;
    for (number, block) in blocks.iter().enumerate() {
        let marked = is_marked(marks.as_slice(), number);
        let instances = block.instances.as_slice();
        least = least_on(alloc, marked, back.as_slice(), number, instances, least)?;
    }
    Ok(least)
}

/// Where the first recursive instance in a block reached from the top names its component or
/// entity. Without a chain of more than 32 instances there is none.
pub fn first_recursive(
    alloc: Global,
    blocks: &[Block],
    top: usize,
) -> Result<Option<usize>, AllocError>
    requires known { All (IsBlock blocks.now) blocks.now }
    requires top { top < length blocks.now }
    ensures { IfOk result (λ least. IsLeast (spec.IsRecursive blocks.now top) least) }
{
    if !is_too_deep(alloc, blocks, top)? {
        return Ok(None);
    }
    let graph = graph_of(alloc, blocks)?;
    least_recursive(alloc, blocks, graph.as_slice(), top)
}
