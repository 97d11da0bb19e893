//! The blocks of a design file (IEEE 1076-2008, 3.2, 3.3).

ghost use Rattle.std.specs.Prelude.{◌≡◌, ◌+◌, [], IfOk, length, map};
ghost use Rattle.std.specs.List.{All};
ghost use Rattle.sim_flat_blocks.specs.Blocks.{IsBlock, no_block};
ghost use Rattle.std.specs.Option.{option_copied};
ghost use Rattle.sim_flat_instances.specs.Libraries.{bodies_at, at_place};
ghost use Rattle.sim_flat_scope.specs.Regions.{architecture_region};
ghost use Rattle.sim_flat_blocks.specs.Below.{AreBelow, object_count};
ghost use Rattle.sim_flat_blocks.specs.Plans as spec;

use crate::block_processes::block_processes;
use crate::count::object_count;
use crate::instances::instances;
use crate::lists::push;
use crate::objects::{ports, signals};
use crate::{Block, Object, Port, Ports};
use sim_flat_instances::Library;
use sim_flat_scope::{EntityPorts, Scope, region};
use sim_text_tree::name::Name;
use sim_text_tree::unit::Architecture;
use sqlite_items::Items;
use std::alloc::{AllocError, Global};

/// The ports declared by the entity with this name; none if it does not exist.
#[tactic(auto, unfolding(crate::specs::Plans::ports_named))]
fn ports_named<'l>(
    library: &'l Library<'l>,
    none: &'l EntityPorts<'l>,
    name: &Name,
) -> &'l EntityPorts<'l>
    requires none { none.now ≡ [] }
    ensures { result.now ≡ spec.ports_named library.now name.now.text }
{
    library.entity_ports(name.text()).unwrap_or(none)
}

/// The ports that an entity declares, in the form of a block, as a list.
#[tactic(auto, unfolding(crate::specs::Plans::block_ports))]
fn listed_ports(alloc: Global, declared: &EntityPorts<'_>) -> Result<Items<Port>, AllocError>
    ensures { IfOk result (λ r. r ≡ spec.block_ports declared.now) }
{
    let region = Scope::after(alloc, declared.region());
    ports(alloc, &region, declared.declarations())
}

/// The ports that an entity declares, in the form of a block.
fn block_ports(alloc: Global, declared: &EntityPorts<'_>) -> Result<Ports, AllocError>
    ensures { IfOk result (λ r. r ≡ spec.block_ports declared.now) }
{
    let ports = listed_ports(alloc, declared)?;
    Ports::new(alloc, ports)
}

/// The ports that each entity declares, in the form of a block.
fn shared_ports(alloc: Global, declared: &[EntityPorts<'_>]) -> Result<Vec<Ports>, AllocError>
    ensures { IfOk result (λ r. r.items ≡ map spec.block_ports declared.now) }
{
    let mut found = Vec::with_capacity(alloc, declared.len())?;
    for each in declared {
        push(&mut found, block_ports(alloc, each))?;
    }
    Ok(found)
}

/// The shared ports at a position, if there are any.
fn shared_at(shared: &[Ports], place: Option<usize>) -> Option<&Ports>
    ensures { option_copied result ≡ at_place shared.now place }
{
    match place {
        None => None,
        Some(place) => shared.get(place),
    }
}

/// The ports of a block whose entity has this name, shared with its other blocks.
fn ports_of_block(
    alloc: Global,
    library: &Library<'_>,
    shared: &[Ports],
    name: &Name,
) -> Result<Ports, AllocError>
    requires shared { shared.now ≡ spec.shared_ports library.now }
    ensures { IfOk result (λ r. r ≡ spec.block_ports (spec.ports_named library.now name.now.text)) }
{
    match shared_at(shared, library.entity_place(name.text())) {
        None => {
            let none = Ports::new(alloc, Items::new(alloc))?;
            Ok(none)
        }
        Some(ports) => {
            let copy = ports.try_copy()?;
            Ok(copy)
        }
    }
}

/// The ports and signals of a block.
#[derive(Drop)]
struct PortsAndSignals {
    ports: Ports,
    signals: Items<Object>,
}

/// The ports and signals of an architecture with this region.
fn ports_and_signals_of(
    alloc: Global,
    library: &Library<'_>,
    shared: &[Ports],
    region: &Scope<'_>,
    architecture: &Architecture,
) -> Result<PortsAndSignals, AllocError>
    requires shared { shared.now ≡ spec.shared_ports library.now }
    ensures ports { IfOk result (λ r. r.ports ≡ spec.block_ports (spec.ports_named library.now architecture.now.entity.text)) }
    ensures signals { IfOk result (λ r. r.signals ≡ spec.signals_of (spec.seen region.now) architecture.now.declarations) }
{
    let ports = ports_of_block(alloc, library, shared, &architecture.entity)?;
    let signals = signals(alloc, region, architecture.declarations.as_slice())?;
    Ok(PortsAndSignals { ports, signals })
}

/// An architecture with this region and this number of ports and signals.
#[tactic(auto, unfolding(crate::specs::Plans::block_of))]
fn block_in(
    alloc: Global,
    library: &Library<'_>,
    shared: &[Ports],
    region: &Scope<'_>,
    objects: usize,
    architecture: &Architecture,
) -> Result<Block, AllocError>
    requires shared { shared.now ≡ spec.shared_ports library.now }
    requires region { region.now ≡ architecture_region (spec.ports_named library.now architecture.now.entity.text)
        architecture.now.declarations architecture.now.statements }
    requires objects { objects ≡ object_count (spec.ports_named library.now architecture.now.entity.text) architecture.now.declarations }
    requires below { AreBelow objects region.now }
    ensures value { IfOk result (λ b. b ≡ spec.block_of library.now architecture.now) }
    ensures known { IfOk result (λ b. IsBlock (spec.blocks_of library.now) b) }
{
    let statements = architecture.statements.as_slice();
    let instances = instances(alloc, library, region, statements)?;
    let processes = block_processes(alloc, region, objects, statements)?;
    let PortsAndSignals { ports, signals } = ports_and_signals_of(
        alloc,
        library,
        shared,
        region,
        architecture,
    )?;
    Ok(Block {
        ports,
        signals,
        processes,
        instances,
    })
}

/// An architecture with its entity.
fn block<'l>(
    alloc: Global,
    library: &'l Library<'l>,
    none: &'l EntityPorts<'l>,
    shared: &[Ports],
    architecture: &'l Architecture,
) -> Result<Block, AllocError>
    requires none { none.now ≡ [] }
    requires shared { shared.now ≡ spec.shared_ports library.now }
    ensures value { IfOk result (λ b. b ≡ spec.block_of library.now architecture.now) }
    ensures known { IfOk result (λ b. IsBlock (spec.blocks_of library.now) b) }
{
    let declared = ports_named(library, none, &architecture.entity);
    let declarations = architecture.declarations.as_slice();
    let statements = architecture.statements.as_slice();
    let objects = object_count(declared, declarations)?;
    let region = region::architecture(alloc, declared, declarations, statements)?;
    block_in(alloc, library, shared, &region, objects, architecture)
}

/// The empty block.
fn no_block(alloc: Global) -> Result<Block, AllocError>
    ensures { IfOk result (λ b. b ≡ no_block) }
{
    let ports = Ports::new(alloc, Items::new(alloc))?;
    Ok(Block {
        ports,
        signals: Items::new(alloc),
        processes: Items::new(alloc),
        instances: Items::new(alloc),
    })
}

/// Architectures, each with its entity.
#[tactic(auto, unfolding(sim_flat_instances::specs::Libraries::bodies_at))]
fn each_block<'l>(
    alloc: Global,
    library: &'l Library<'l>,
    none: &'l EntityPorts<'l>,
    shared: &[Ports],
    architectures: &[&'l Architecture],
) -> Result<Vec<Block>, AllocError>
    requires none { none.now ≡ [] }
    requires shared { shared.now ≡ spec.shared_ports library.now }
    ensures value { IfOk result (λ r. r.items ≡ map (spec.block_of library.now) (bodies_at architectures.now)) }
    ensures known { IfOk result (λ r. All (IsBlock (spec.blocks_of library.now)) r.items) }
{
    let mut found = Vec::new(alloc);
    for each in architectures {
        found.push(block(alloc, library, none, shared, each)?)?;
    }
    Ok(found)
}

/// The blocks of a library, except the last.
fn architecture_blocks(alloc: Global, library: &Library<'_>) -> Result<Vec<Block>, AllocError>
    ensures value { IfOk result (λ r. r.items ≡ map (spec.block_of library.now) library.now.architectures) }
    ensures known { IfOk result (λ r. All (IsBlock (spec.blocks_of library.now)) r.items) }
{
    let none = EntityPorts::of(alloc, &[])?;
    let shared = shared_ports(alloc, library.ports())?;
    let architectures = library.architectures();
    each_block(alloc, library, &none, shared.as_slice(), architectures)
}

/// The blocks of a library: one for each architecture, by position, and finally an empty one. The
/// references of each are in range.
#[tactic(auto, unfolding(crate::specs::Plans::blocks_of))]
pub fn blocks(alloc: Global, library: &Library<'_>) -> Result<Items<Block>, AllocError>
    ensures value { IfOk result (λ r. r ≡ spec.blocks_of library.now) }
    ensures length { IfOk result (λ r. length r ≡ length library.now.architectures + 1) }
    ensures known { IfOk result (λ r. All (IsBlock r) r) }
{
    let mut found = architecture_blocks(alloc, library)?;
    let last = no_block(alloc)?;
    found.push(last)?;
    Ok(Items::from_vec(found))
}
