//! The faults of entities (IEEE 1076-2008, 3.2).

ghost use Rattle.std.specs.Prelude.{◌≡◌, IfOk, OnOk};
ghost use Rattle.sim_flat_scope.specs.Faults.{earliest};
ghost use Rattle.sim_flat_instances.specs.Libraries.{entities_at};
ghost use Rattle.sim_flat_check.specs.Entities as spec;

use sim_flat_scope::check::{check_names, check_ports};
use sim_flat_scope::{Fault, Names, Scope, region};
use sim_text_tree::unit::Entity;
use std::alloc::{AllocError, Global};

/// The names of entities.
#[tactic(auto, unfolding(crate::specs::Entities::entity_names, sim_flat_instances::specs::Libraries::entities_at))]
fn names_of<'a>(alloc: Global, entities: &[&'a Entity]) -> Result<Names<'a>, AllocError>
    ensures { IfOk result (λ names. names ≡ spec.entity_names (entities_at entities.now)) }
{
    let mut names = Names::new(alloc);
    for entity in entities {
        names.push(&entity.name)?;
    }
    Ok(names)
}

/// Records the faults of the names of entities.
fn check_entity_names(
    alloc: Global,
    entities: &[&Entity],
    first: &mut Option<Fault>,
) -> Result<(), AllocError>
    ensures { OnOk result (first.new ≡ earliest first.old (spec.entity_names_faults (entities_at entities.now))) }
{
    let names = names_of(alloc, entities)?;
    let mut known = Scope::new(alloc);
    check_names(&mut known, &names, first)
}

/// Records the faults of the ports of an entity.
fn check_entity(alloc: Global, entity: &Entity, first: &mut Option<Fault>) -> Result<(), AllocError>
    ensures { OnOk result (first.new ≡ earliest first.old (spec.entity_faults entity.now)) }
{
    let nothing = Scope::new(alloc);
    let own = Scope::of(region::ports(alloc, entity.ports.as_slice(), &nothing)?);
    check_ports(alloc, &own, &nothing, entity.ports.as_slice(), first)
}

/// Records the faults of the ports of each entity.
#[tactic(auto, unfolding(crate::specs::Entities::each_entity, sim_flat_instances::specs::Libraries::entities_at, sim_flat_scope::specs::Faults::earliest))]
fn check_each(
    alloc: Global,
    entities: &[&Entity],
    first: &mut Option<Fault>,
) -> Result<(), AllocError>
    ensures { OnOk result (first.new ≡ earliest first.old (spec.each_entity (entities_at entities.now))) }
{
    for entity in entities {
        check_entity(alloc, entity, first)?;
    }
    Ok(())
}

/// Records the faults of entities (3.2): of their names, and of their ports.
#[tactic(auto, using(sim_flat_scope::proofs::Faults::of_both), unfolding(crate::specs::Entities::entities_faults))]
pub fn check_entities(
    alloc: Global,
    entities: &[&Entity],
    first: &mut Option<Fault>,
) -> Result<(), AllocError>
    ensures { OnOk result (first.new ≡ earliest first.old (spec.entities_faults (entities_at entities.now))) }
{
    check_entity_names(alloc, entities, first)?;
    check_each(alloc, entities, first)
}
