//! The flat sources of each port and signal, from left to right.

ghost use Rattle.std.specs.Prelude.{ℕ, ◌≡◌, ◌+◌, ◌++◌, ◌∷◌, ◌≤◌, [], IfOk, OnOk, slice_index_or, slice_set, length, replicate};
ghost use Rattle.sim_flat_blocks.specs.Blocks.{constant_at};
ghost use Rattle.sim_flat_expansion.specs.Expanding as spec;

use crate::object_nets::next;
use sim_flat_blocks::links::{Link, Links};
use sim_flat_blocks::parts::{Block, Object, Port};
use sim_flat_design::{InstancePath, Net, Source};
use sim_logic::Logic;
use sqlite_items::Items;
use std::alloc::{AllocError, Global};
use std::mem;

/// No flat sources yet, with room for one: most nets have one in the end.
fn no_source(alloc: Global) -> Result<Items<Source>, AllocError>
    ensures { IfOk result (λ r. r ≡ []) }
{
    let list = Vec::with_capacity(alloc, 1)?;
    Ok(Items::from_vec(list))
}

/// Empty lists of flat sources for this number of ports and signals.
pub fn none(alloc: Global, count: usize) -> Result<Vec<Items<Source>>, AllocError>
    ensures { IfOk result (λ r. r.items ≡ replicate count []) }
{
    let mut lists = Vec::with_capacity(alloc, count)?;
    for _turn in 0..count {
        lists.push(no_source(alloc)?)?;
    }
    Ok(lists)
}

/// Adds a flat source to those of the port or signal at this position.
#[tactic(auto, using(sim_flat_blocks::proofs::Added::set_past), unfolding(crate::specs::Expanding::added))]
pub fn add(
    flat_sources: &mut [Items<Source>],
    at: usize,
    flat_source: Source,
) -> Result<(), AllocError>
    ensures { OnOk result (flat_sources.new ≡ spec.added flat_sources.old at (flat_source ∷ [])) }
{
    if at >= flat_sources.len() {
        return Ok(());
    }
    flat_sources[at].push(flat_source)
}

/// Appends flat sources to those of the port or signal at this position.
#[tactic(auto, using(sim_flat_blocks::proofs::Added::set_past), unfolding(crate::specs::Expanding::added))]
fn append(
    flat_sources: &mut [Items<Source>],
    at: usize,
    more: Items<Source>,
) -> Result<(), AllocError>
    ensures { OnOk result (flat_sources.new ≡ spec.added flat_sources.old at more) }
{
    if at >= flat_sources.len() {
        return Ok(());
    }
    flat_sources[at].append(more)
}

/// Appends flat sources, or this constant if there are none, to those of the port or signal at this
/// position.
fn hand_on(
    outer: &mut [Items<Source>],
    at: usize,
    constant: Logic,
    flat_sources: Items<Source>,
) -> Result<(), AllocError>
    ensures { OnOk result (outer.new ≡ spec.added outer.old at (spec.finished constant flat_sources)) }
{
    if flat_sources.is_empty() {
        return add(outer, at, Source::Constant(constant));
    }
    append(outer, at, flat_sources)
}

/// The flat sources, or this constant if there are none.
fn finished(constant: Logic, flat_sources: Items<Source>) -> Result<Items<Source>, AllocError>
    ensures { IfOk result (λ r. r ≡ spec.finished constant flat_sources) }
{
    let mut finished = flat_sources;
    if finished.is_empty() {
        finished.push(Source::Constant(constant))?;
    }
    Ok(finished)
}

/// Removes and returns the flat sources at this position.
#[tactic(auto, using(sim_flat_blocks::proofs::Added::set_past))]
fn taken(alloc: Global, flat_sources: &mut [Items<Source>], at: usize) -> Items<Source>
    ensures value { result ≡ slice_index_or flat_sources.old at [] }
    ensures rest { flat_sources.new ≡ slice_set flat_sources.old at [] }
{
    if at >= flat_sources.len() {
        return Items::new(alloc);
    }
    mem::replace(&mut flat_sources[at], Items::new(alloc))
}

/// The net of a port or signal with these flat sources, or with this constant if there are none.
fn net(
    alloc: Global,
    prefix: &InstancePath,
    object: &Object,
    constant: Logic,
    flat_sources: Items<Source>,
) -> Result<Net, AllocError>
    ensures { IfOk result (λ n. n ≡ record { name = prefix.now ++ object.now.name.text; sources = spec.finished constant flat_sources }) }
{
    let sources = finished(constant, flat_sources)?;
    Net::new(alloc, prefix, object.name.as_str(), sources)
}

/// Gives the flat sources of a port to its own net, or else to its actual.
fn expand_object(
    alloc: Global,
    prefix: &InstancePath,
    link: Link,
    port: &Port,
    flat_sources: Items<Source>,
    nets: &mut Items<Net>,
    outer: &mut [Items<Source>],
) -> Result<(), AllocError>
    ensures { OnOk result ((nets.new, outer.new) ≡ spec.object_expanded prefix.now link port.now.drives port.now.object
        (spec.finished (constant_at link port.now.object.default) flat_sources) nets.old outer.old) }
{
    let object = &port.object;
    match link {
        Link::To(place) => {
            if port.drives {
                hand_on(outer, place, object.default, flat_sources)
            } else {
                Ok(())
            }
        }
        Link::Constant(value) => nets.push(net(alloc, prefix, object, value, flat_sources)?),
        Link::Open => nets.push(net(alloc, prefix, object, object.default, flat_sources)?),
    }
}

/// The nets of the ports that have their own; the flat sources of other ports go to their actuals.
#[tactic(auto, unfolding(crate::specs::Expanding::ports_expanded))]
fn ports(
    alloc: Global,
    prefix: &InstancePath,
    links: &Links,
    own: &mut [Items<Source>],
    ports: &[Port],
    outer: &mut [Items<Source>],
) -> Result<Items<Net>, AllocError>
    ensures value { IfOk result (λ nets. (nets, outer.new) ≡ spec.ports_expanded prefix.now links.now own.old 0 ports.now [] outer.old) }
    ensures later { OnOk result ((n : ℕ) → length ports.now ≤ n → slice_index_or own.new n [] ≡ slice_index_or own.old n []) }
{
    let mut nets = Items::new(alloc);
    for (at, port) in ports.iter().enumerate() {
        let flat_sources = taken(alloc, own, at);
        expand_object(
            alloc,
            prefix,
            links.get(at),
            port,
            flat_sources,
            &mut nets,
            outer,
        )?;
    }
    Ok(nets)
}

/// The nets of signals, the first of which has this position.
#[tactic(auto, unfolding(crate::specs::Expanding::signals_expanded))]
fn signals(
    alloc: Global,
    prefix: &InstancePath,
    own: &mut [Items<Source>],
    first: usize,
    signals: &[Object],
    nets: &mut Items<Net>,
) -> Result<(), AllocError>
    ensures { OnOk result (nets.new ≡ spec.signals_expanded prefix.now own.old first signals.now nets.old) }
{
    let mut at = first;
    for signal in signals {
        let flat_sources = taken(alloc, own, at);
        nets.push(net(alloc, prefix, signal, signal.default, flat_sources)?)?;
        at = next(at)?;
    }
    Ok(())
}

/// The nets of the ports and signals of a block that have their own; the flat sources of the others
/// go to their actuals.
pub fn objects_expanded(
    alloc: Global,
    prefix: &InstancePath,
    links: &Links,
    own: &mut [Items<Source>],
    at: &Block,
    outer: &mut [Items<Source>],
) -> Result<Items<Net>, AllocError>
    ensures { IfOk result (λ nets. (nets, outer.new) ≡ spec.objects_expanded prefix.now links.now own.old at.now outer.old) }
{
    let of_ports = at.ports.as_slice();
    let mut nets = ports(alloc, prefix, links, own, of_ports, outer)?;
    let of_signals = at.signals.as_slice();
    signals(alloc, prefix, own, of_ports.len(), of_signals, &mut nets)?;
    Ok(nets)
}
