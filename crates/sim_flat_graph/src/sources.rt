//! Unresolved signals and ports with more than one source (IEEE 1076-2008, 6.4.2.3).

ghost use Rattle.std.specs.Prelude.{◌≡◌, ◌+◌, ◌≤◌, ◌<◌, ℕ, IfOk, get_or, length, map, min};
ghost use Rattle.std.specs.List.{All};
ghost use Rattle.sim_flat_blocks.specs.Blocks.{IsBlock, block_of, size, targets_of};
ghost use Rattle.sim_flat_graph.specs.Least.{IsLeast, least_of};
ghost use Rattle.sim_flat_graph.specs.Sources as spec;

use crate::graph::graph_of;
use crate::least::lesser;
use crate::search::{is_marked, reached};
use sim_flat_blocks::parts::{Block, BlockProcess, Instance, Object, Port};
use sim_flat_blocks::{Link, Links};
use std::alloc::{AllocError, Global};

/// A zero count for each port and signal of a block.
fn no_counts(alloc: Global, block: &Block) -> Result<Vec<usize>, AllocError>
    ensures length { IfOk result (λ c. length c.items ≡ size block.now) }
    ensures none { IfOk result (λ c. (n : ℕ) → get_or c.items n 0 ≡ 0) }
{
    let mut counts = Vec::new(alloc);
    for _port in block.ports.as_slice() {
        counts.push(0)?;
    }
    for _signal in block.signals.as_slice() {
        counts.push(0)?;
    }
    Ok(counts)
}

/// Counts one more source of the port or signal at a position.
#[tactic(auto, unfolding(crate::specs::Sources::noted))]
fn note(counts: &mut Vec<usize>, place: usize)
    ensures { counts.new.items ≡ spec.noted counts.old.items place }
{
    if let Some(count) = counts.get(place).copied() {
        counts[place] = count.min(1) + 1;
    }
}

/// Counts one more source of each of these.
#[tactic(auto, unfolding(crate::specs::Sources::all_noted))]
fn note_all(counts: &mut Vec<usize>, places: &[usize])
    ensures { counts.new.items ≡ spec.all_noted counts.old.items places.now }
{
    for place in places {
        note(counts, *place);
    }
}

/// Counts the drivers of processes.
#[tactic(auto, using(crate::proofs::Noted::noted_both), unfolding(crate::specs::Sources::all_noted, sim_flat_blocks::specs::Blocks::targets_of))]
fn note_drivers(counts: &mut Vec<usize>, processes: &[BlockProcess])
    ensures { counts.new.items ≡ spec.all_noted counts.old.items (targets_of processes.now) }
{
    for process in processes {
        note_all(counts, process.targets.as_slice());
    }
}

/// Counts a port, if it is a source of its actual.
#[tactic(auto, unfolding(crate::specs::Sources::all_noted))]
fn note_port(counts: &mut Vec<usize>, port: &Port, link: Link)
    ensures { counts.new.items ≡ spec.all_noted counts.old.items (spec.target_of_port port.now link) }
{
    match link {
        Link::To(place) => {
            if port.drives {
                note(counts, place);
            }
        }
        Link::Constant(_) | Link::Open => {}
    }
}

/// Counts the ports of an instance.
#[tactic(auto, using(crate::proofs::Noted::noted_both), unfolding(crate::specs::Sources::all_noted, crate::specs::Sources::targets_of_ports))]
fn note_ports(counts: &mut Vec<usize>, links: &Links, ports: &[Port])
    ensures { counts.new.items ≡ spec.all_noted counts.old.items (spec.targets_of_ports links.now 0 ports.now) }
{
    for (at, port) in ports.iter().enumerate() {
        note_port(counts, port, links.get(at));
    }
}

/// Counts the ports of an instance, whose block is one of these.
#[tactic(auto, unfolding(crate::specs::Sources::all_noted, crate::specs::Sources::targets_of_ports))]
fn note_instance(counts: &mut Vec<usize>, blocks: &[Block], instance: &Instance)
    ensures { counts.new.items ≡ spec.all_noted counts.old.items (spec.targets_of_ports instance.now.links 0 (block_of blocks.now instance.now).ports) }
{
    if let Some(block) = blocks.get(instance.block) {
        note_ports(counts, &instance.links, block.ports.as_slice());
    }
}

/// Counts the ports of instances.
#[tactic(auto, using(crate::proofs::Noted::noted_both), unfolding(crate::specs::Sources::all_noted, crate::specs::Sources::targets_of_instances))]
fn note_instances(counts: &mut Vec<usize>, blocks: &[Block], instances: &[Instance])
    ensures { counts.new.items ≡ spec.all_noted counts.old.items (spec.targets_of_instances blocks.now instances.now) }
{
    for instance in instances {
        note_instance(counts, blocks, instance);
    }
}

/// The least of the known place and that of the object's declaration, if the object is unresolved
/// and has a count above one.
#[tactic(auto, unfolding(crate::specs::Least::least_of))]
fn least_with(object: &Object, count: usize, known: Option<usize>) -> Option<usize>
    ensures { result ≡ least_of known (spec.declared_place object.now count) }
{
    if object.resolved {
        return known;
    }
    if count > 1 {
        return lesser(known, object.name.at());
    }
    known
}

/// The least of the known place and those of unresolved ports with a count above one.
#[tactic(auto, using(crate::proofs::Noted::least_both), unfolding(crate::specs::Sources::places_of, crate::specs::Least::least_of))]
fn least_port(counts: &[usize], ports: &[Port], known: Option<usize>) -> Option<usize>
    requires { length ports.now ≤ length counts.now }
    ensures { result ≡ least_of known (spec.places_of counts.now 0 (map (λ p. p.object) ports.now)) }
{
    let mut least = known;
    for (place, port) in ports.iter().enumerate() {
        least = least_with(&port.object, counts[place], least);
    }
    least
}

/// The same for signals, whose counts begin at a position.
#[tactic(auto, using(crate::proofs::Noted::least_both), unfolding(crate::specs::Sources::places_of, crate::specs::Least::least_of))]
fn least_signal(
    counts: &[usize],
    from: usize,
    signals: &[Object],
    known: Option<usize>,
) -> Option<usize>
    requires { from + length signals.now ≤ length counts.now }
    ensures { result ≡ least_of known (spec.places_of counts.now from signals.now) }
{
    let mut least = known;
    for (at, signal) in signals.iter().enumerate() {
        least = least_with(signal, counts[from + at], least);
    }
    least
}

/// The number of sources of each port and signal of a block, counted up to two.
fn counts_of(alloc: Global, blocks: &[Block], block: &Block) -> Result<Vec<usize>, AllocError>
    ensures length { IfOk result (λ c. length c.items ≡ size block.now) }
    ensures counts { IfOk result (λ c. (n : ℕ) → n < size block.now → get_or c.items n 0 ≡ min 2 (spec.source_count blocks.now block.now n)) }
{
    let mut counts = no_counts(alloc, block)?;
    note_drivers(&mut counts, block.processes.as_slice());
    note_instances(&mut counts, blocks, block.instances.as_slice());
    Ok(counts)
}

/// The least of the known place and the places of unresolved ports and signals of a block with more
/// than one source.
fn least_in(
    alloc: Global,
    blocks: &[Block],
    block: &Block,
    known: Option<usize>,
) -> Result<Option<usize>, AllocError>
    ensures { IfOk result (λ least. spec.IsLeastIn blocks.now block.now known least) }
{
    let counts = counts_of(alloc, blocks, block)?;
    let ports = block.ports.as_slice();
    let of_ports = least_port(counts.as_slice(), ports, known);
    let least = least_signal(
        counts.as_slice(),
        ports.len(),
        block.signals.as_slice(),
        of_ports,
    );
    Ok(least)
}

/// The least place so far, with one more block; a block that is not marked adds nothing.
fn least_on(
    alloc: Global,
    marked: bool,
    blocks: &[Block],
    block: &Block,
    known: Option<usize>,
) -> Result<Option<usize>, AllocError>
    ensures { IfOk result (λ least. spec.IsLeastOn marked blocks.now block.now known least) }
{
    if !marked {
        return Ok(known);
    }
    least_in(alloc, blocks, block, known)
}

/// Where the first unresolved port or signal with more than one source is declared, in the blocks
/// reached from the top.
pub fn first_with_many_sources(
    alloc: Global,
    blocks: &[Block],
    top: usize,
) -> Result<Option<usize>, AllocError>
    requires known { All (IsBlock blocks.now) blocks.now }
    requires top { top < length blocks.now }
    ensures { IfOk result (λ least. IsLeast (spec.HasManySources blocks.now top) least) }
{
    let graph = graph_of(alloc, blocks)?;
    let marks = reached(alloc, graph.as_slice(), top)?;
    let mut least = None;
    for (number, block) in blocks.iter().enumerate() {
        least = least_on(
            alloc,
            is_marked(marks.as_slice(), number),
            blocks,
            block,
            least,
        )?;
    }
    Ok(least)
}
