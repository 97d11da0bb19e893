//! The instances of an architecture (IEEE 1076-2008, 6.5.7, 11.7).

ghost use Rattle.std.specs.Prelude.{◌≡◌, ◌++◌, Some, IfOk, OnOk};
ghost use Rattle.sim_flat_instances.specs.PortMaps.{port_of};
ghost use Rattle.sim_flat_blocks.specs.Plans as spec;

use crate::lists::push;
use crate::names::meaning;
use crate::{Instance as BlockInstance, Link, Links};
use sim_flat_instances::instance::{architecture_place, entity_name};
use sim_flat_instances::port_map::port_of;
use sim_flat_instances::{Interface, Library};
use sim_flat_scope::{Meaning, Scope};
use sim_text_tree::unit::{Actual, Association, Concurrent, Instance};
use sqlite_items::Items;
use std::alloc::{AllocError, Global};

/// The actual of a port, from the meaning of its name.
#[tactic(auto, unfolding(crate::specs::Plans::link_to))]
fn link_to(meaning: Option<Meaning>) -> Link
    ensures { result ≡ spec.link_to meaning }
{
    match meaning {
        Some(Meaning::Port { object, .. }) => Link::To(object),
        Some(Meaning::Signal { object, .. }) => Link::To(object),
        _ => Link::Open,
    }
}

/// The actual of a port, as a link.
#[tactic(auto, unfolding(crate::specs::Plans::link_of))]
fn link(region: &Scope<'_>, actual: &Actual) -> Link
    ensures { result ≡ spec.link_of (spec.seen region.now) (Some actual.now) }
{
    match actual {
        Actual::Named(name) => link_to(meaning(region, name.text())),
        Actual::Literal { value, .. } => Link::Constant(*value),
        Actual::Open { .. } => Link::Open,
    }
}

/// Links the port of an association to its actual.
fn put_link(
    region: &Scope<'_>,
    ports: &Interface<'_>,
    at: usize,
    association: &Association,
    links: &mut Links,
) -> Result<(), AllocError>
    ensures { OnOk result (links.new
        ≡ spec.put_at (port_of ports.now at association.now.formal) (spec.link_of (spec.seen region.now) (Some association.now.actual)) links.old) }
{
    match port_of(ports, at, &association.formal) {
        None => Ok(()),
        Some(place) => links.put(place, link(region, &association.actual)),
    }
}

/// The link of each of these ports, by position. The first association of a port counts, and so it
/// is stored last.
fn links(
    alloc: Global,
    region: &Scope<'_>,
    ports: &Interface<'_>,
    associations: &[Association],
) -> Result<Links, AllocError>
    ensures { IfOk result (λ r. r ≡ spec.links_of (spec.seen region.now) ports.now associations.now) }
{
    let mut links = Links::open(alloc, ports.ports().len(), associations.len())?;
    for at in (0..associations.len()).rev() {
        put_link(region, ports, at, &associations[at], &mut links)?;
    }
    Ok(links)
}

/// The links of the ports of an instance of the architecture at this position.
#[tactic(auto, unfolding(crate::specs::Plans::links_at, crate::specs::Plans::links_of))]
fn links_at(
    alloc: Global,
    library: &Library<'_>,
    region: &Scope<'_>,
    place: Option<usize>,
    instance: &Instance,
) -> Result<Links, AllocError>
    ensures { IfOk result (λ r. r ≡ spec.links_at library.now (spec.seen region.now) place instance.now) }
{
    if place.is_none() {
        return Links::open(alloc, 0, 0);
    }
    match library.interface(entity_name(&instance.unit).text()) {
        None => Links::open(alloc, 0, 0),
        Some(ports) => { links(alloc, region, ports, instance.associations.as_slice()) }
    }
}

/// The number of a block; an instance whose architecture does not exist gets the last one.
#[tactic(auto, unfolding(crate::specs::Plans::block_number))]
fn block_number(library: &Library<'_>, place: Option<usize>) -> usize
    ensures { result ≡ spec.block_number library.now place }
{
    match place {
        None => library.architectures().len(),
        Some(place) => place,
    }
}

/// An instance.
#[tactic(auto, unfolding(crate::specs::Plans::instance_of))]
fn instance(
    alloc: Global,
    library: &Library<'_>,
    region: &Scope<'_>,
    instance: &Instance,
) -> Result<BlockInstance, AllocError>
    ensures { IfOk result (λ i. i ≡ spec.instance_of library.now (spec.seen region.now) instance.now) }
{
    let place = architecture_place(library, &instance.unit);
    let label = instance.label.try_copy(alloc)?;
    let links = links_at(alloc, library, region, place, instance)?;
    Ok(BlockInstance {
        label,
        at: entity_name(&instance.unit).at(),
        block: block_number(library, place),
        links,
    })
}

/// Adds the instance of a concurrent statement, if it is one.
fn add_instance(
    alloc: Global,
    library: &Library<'_>,
    region: &Scope<'_>,
    statement: &Concurrent,
    found: &mut Vec<BlockInstance>,
) -> Result<(), AllocError>
    ensures { OnOk result (found.new.items ≡ found.old.items ++ spec.instance_in library.now (spec.seen region.now) statement.now) }
{
    match statement {
        Concurrent::Assignment(_) | Concurrent::Process(_) => Ok(()),
        Concurrent::Instance(each) => push(found, instance(alloc, library, region, each)),
    }
}

/// The instances of an architecture, in textual order.
#[tactic(auto, unfolding(crate::specs::Plans::instances_of))]
pub fn instances(
    alloc: Global,
    library: &Library<'_>,
    region: &Scope<'_>,
    statements: &[Concurrent],
) -> Result<Items<BlockInstance>, AllocError>
    ensures { IfOk result (λ r. r ≡ spec.instances_of library.now (spec.seen region.now) statements.now) }
{
    let mut found = Vec::new(alloc);
    for each in statements {
        add_instance(alloc, library, region, each, &mut found)?;
    }
    Ok(Items::from_vec(found))
}
