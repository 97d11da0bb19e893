//! The entities and architectures of a file, by name (IEEE 1076-2008, 3.2 and 3.3).

ghost use Rattle.std.specs.Prelude.{◌≡◌, ◌++◌, ℕ, List, Option, IfOk, OnOk};
ghost use Rattle.sim_flat_instances.specs.Libraries as spec;
ghost use Rattle.sim_flat_instances.specs.Places.{place_of, place_of_both};

use crate::interface::Interface;
use crate::places::{PairPlaces, Places};
use sim_flat_scope::EntityPorts;
use sim_text_tree::DesignFile;
use sim_text_tree::unit::{Architecture, DesignUnit, Entity, LibraryUnit};
use std::alloc::{AllocError, Global};
use std::marker::Model;

/// The ports of entities, by position, for port maps and with their regions.
#[derive(Drop)]
struct EntityInterfaces<'a> {
    interfaces: Vec<Interface<'a>>,
    ports: Vec<EntityPorts<'a>>,
}

/// The entities of a file, and the position of the first with each name.
struct EntityList<'a> {
    list: Vec<&'a Entity>,
    declared: EntityInterfaces<'a>,
    first: Places<'a>,
}

/// Written by hand so that code which drops it needs no proof about its contents.
impl<'a> Drop for EntityList<'a> {
    fn drop(self) {
        let EntityList {
            list,
            declared,
            first,
        } = self;
        drop(list);
        drop(declared);
        drop(first);
    }
}

/// The architectures of a file, and the position of the last of each entity, and of each name.
struct ArchitectureList<'a> {
    list: Vec<&'a Architecture>,
    last: Places<'a>,
    named: PairPlaces<'a>,
}

/// Written by hand so that code which drops it needs no proof about its contents.
impl<'a> Drop for ArchitectureList<'a> {
    fn drop(self) {
        let ArchitectureList { list, last, named } = self;
        drop(list);
        drop(last);
        drop(named);
    }
}

/// The entities and the architectures of a file, each in the order of the file.
pub struct Library<'a> {
    entities: EntityList<'a>,
    architectures: ArchitectureList<'a>,
}

/// Written by hand so that code which drops it needs no proof about its contents.
impl<'a> Drop for Library<'a> {
    fn drop(self) {
        let Library {
            entities,
            architectures,
        } = self;
        drop(entities);
        drop(architectures);
    }
}

impl<'a> Model for Library<'a> {
    ghost use Rattle.std.specs.Prelude.{◌≡◌, ℕ, List};
    ghost use Rattle.std.specs.Coded.{codes};
    ghost use Rattle.sim_flat_instances.specs.Libraries as spec;
    ghost use Rattle.sim_flat_instances.specs.Places.{place_of, place_of_both};
    ghost use Rattle.sim_text_tree.specs.contracts.expression.Expression as expression;
    ghost use Rattle.sim_text_tree.specs.contracts.sequential.Statement as statement;
    ghost use Rattle.sim_text_tree.specs.contracts.sequential.Sequential as sequential;

    ghost Value = { spec.Library };

    ghost coded = { Prim.hlevel (codes, expression.the_row.coded, statement.the_row.coded, sequential.the_row.coded) };

    ghost view = { λ l. record { entities = spec.entities_at l.entities.list.items; architectures = spec.bodies_at l.architectures.list.items } };

    ghost invariant = { λ l.
        (l.entities.declared.interfaces.items ≡ spec.interfaces (spec.entities_at l.entities.list.items))
        × (l.entities.declared.ports.items ≡ spec.declared_ports (spec.entities_at l.entities.list.items))
        × ((n : List ℕ) → place_of l.entities.first n ≡ spec.first_entity (spec.entities_at l.entities.list.items) n)
        × ((e : List ℕ) → place_of l.architectures.last e ≡ spec.last_architecture (spec.bodies_at l.architectures.list.items) e)
        × ((e n : List ℕ) → place_of_both l.architectures.named e n ≡ spec.last_named (spec.bodies_at l.architectures.list.items) e n) };
}

/// Appends the unit if it is an entity.
#[tactic(auto, using(crate::proofs::ReferencePlaces::entities_at_more))]
fn push_entity<'a>(entities: &mut Vec<&'a Entity>, unit: &'a DesignUnit) -> Result<(), AllocError>
    ensures { OnOk result (spec.entities_at entities.new.items ≡ spec.entities_at entities.old.items ++ spec.entity_in unit.now.library_unit) }
{
    match &unit.library_unit {
        LibraryUnit::Entity(entity) => {
            entities.push(entity)?;
            Ok(())
        }
        LibraryUnit::Architecture(_) => Ok(()),
    }
}

/// The entities among units.
#[tactic(auto, unfolding(crate::specs::Libraries::entities_in, crate::specs::Libraries::entities_at))]
fn entities_in<'a>(alloc: Global, units: &'a [DesignUnit]) -> Result<Vec<&'a Entity>, AllocError>
    ensures { IfOk result (λ entities. spec.entities_at entities.items ≡ spec.entities_in units.now) }
{
    let mut entities = Vec::new(alloc);
    for unit in units {
        push_entity(&mut entities, unit)?;
    }
    Ok(entities)
}

/// Appends the unit if it is an architecture.
#[tactic(auto, using(crate::proofs::ReferencePlaces::architectures_at_more))]
fn push_architecture<'a>(
    architectures: &mut Vec<&'a Architecture>,
    unit: &'a DesignUnit,
) -> Result<(), AllocError>
    ensures { OnOk result (spec.bodies_at architectures.new.items
        ≡ spec.bodies_at architectures.old.items ++ spec.architecture_in unit.now.library_unit) }
{
    match &unit.library_unit {
        LibraryUnit::Entity(_) => Ok(()),
        LibraryUnit::Architecture(architecture) => {
            architectures.push(architecture)?;
            Ok(())
        }
    }
}

/// The architectures among units.
#[tactic(auto, unfolding(crate::specs::Libraries::architectures_in, crate::specs::Libraries::bodies_at))]
fn architectures_in<'a>(
    alloc: Global,
    units: &'a [DesignUnit],
) -> Result<Vec<&'a Architecture>, AllocError>
    ensures { IfOk result (λ architectures. spec.bodies_at architectures.items ≡ spec.architectures_in units.now) }
{
    let mut architectures = Vec::new(alloc);
    for unit in units {
        push_architecture(&mut architectures, unit)?;
    }
    Ok(architectures)
}

/// The ports of each entity.
#[tactic(auto, unfolding(crate::specs::Libraries::interfaces, crate::specs::Libraries::entities_at))]
fn interfaces<'a>(alloc: Global, entities: &[&'a Entity]) -> Result<Vec<Interface<'a>>, AllocError>
    ensures { IfOk result (λ interfaces. interfaces.items ≡ spec.interfaces (spec.entities_at entities.now)) }
{
    let mut interfaces = Vec::new(alloc);
    for entity in entities {
        interfaces.push(Interface::of(alloc, entity.ports.as_slice())?)?;
    }
    Ok(interfaces)
}

/// The ports of each entity with their region.
#[tactic(auto, unfolding(crate::specs::Libraries::declared_ports, crate::specs::Libraries::entities_at))]
fn entity_ports<'a>(
    alloc: Global,
    entities: &[&'a Entity],
) -> Result<Vec<EntityPorts<'a>>, AllocError>
    ensures { IfOk result (λ ports. ports.items ≡ spec.declared_ports (spec.entities_at entities.now)) }
{
    let mut ports = Vec::with_capacity(alloc, entities.len())?;
    for entity in entities {
        ports.push(EntityPorts::of(alloc, entity.ports.as_slice())?)?;
    }
    Ok(ports)
}

/// The positions of entities by name; the first with a name counts.
fn first_entities<'a>(alloc: Global, entities: &[&'a Entity]) -> Result<Places<'a>, AllocError>
    ensures { IfOk result (λ places. (n : List ℕ) → place_of places n ≡ spec.first_entity (spec.entities_at entities.now) n) }
{
    let mut places = Places::new(alloc);
    for (place, entity) in entities.iter().enumerate() {
        places.put_first(entity.name.text(), place)?;
    }
    Ok(places)
}

/// The positions of architectures by the name of their entity; the last for an entity counts.
fn last_architectures<'a>(
    alloc: Global,
    architectures: &[&'a Architecture],
) -> Result<Places<'a>, AllocError>
    ensures { IfOk result (λ places. (e : List ℕ) → place_of places e ≡ spec.last_architecture (spec.bodies_at architectures.now) e) }
{
    let mut places = Places::new(alloc);
    for (place, architecture) in architectures.iter().enumerate() {
        places.put(architecture.entity.text(), place)?;
    }
    Ok(places)
}

/// The positions of architectures by the name of their entity and their own; the last for both
/// counts.
fn named_architectures<'a>(
    alloc: Global,
    architectures: &[&'a Architecture],
) -> Result<PairPlaces<'a>, AllocError>
    ensures { IfOk result (λ places. (e n : List ℕ) → place_of_both places e n ≡ spec.last_named (spec.bodies_at architectures.now) e n) }
{
    let mut places = PairPlaces::new(alloc);
    for (place, architecture) in architectures.iter().enumerate() {
        places.put(architecture.entity.text(), architecture.name.text(), place)?;
    }
    Ok(places)
}

/// The ports of entities.
fn entity_interfaces<'a>(
    alloc: Global,
    entities: &[&'a Entity],
) -> Result<EntityInterfaces<'a>, AllocError>
    ensures interfaces { IfOk result (λ r. r.interfaces.items ≡ spec.interfaces (spec.entities_at entities.now)) }
    ensures ports { IfOk result (λ r. r.ports.items ≡ spec.declared_ports (spec.entities_at entities.now)) }
{
    let interfaces = interfaces(alloc, entities)?;
    let ports = entity_ports(alloc, entities)?;
    Ok(EntityInterfaces { interfaces, ports })
}

/// The entities among units, with their ports and positions.
fn entity_list<'a>(alloc: Global, units: &'a [DesignUnit]) -> Result<EntityList<'a>, AllocError>
    ensures list { IfOk result (λ r. spec.entities_at r.list.items ≡ spec.entities_in units.now) }
    ensures interfaces { IfOk result (λ r. r.declared.interfaces.items ≡ spec.interfaces (spec.entities_at r.list.items)) }
    ensures ports { IfOk result (λ r. r.declared.ports.items ≡ spec.declared_ports (spec.entities_at r.list.items)) }
    ensures first { IfOk result (λ r. (n : List ℕ) → place_of r.first n ≡ spec.first_entity (spec.entities_at r.list.items) n) }
{
    let list = entities_in(alloc, units)?;
    let first = first_entities(alloc, list.as_slice())?;
    let declared = entity_interfaces(alloc, list.as_slice())?;
    Ok(EntityList {
        list,
        declared,
        first,
    })
}

/// The architectures among units, with their positions.
fn architecture_list<'a>(
    alloc: Global,
    units: &'a [DesignUnit],
) -> Result<ArchitectureList<'a>, AllocError>
    ensures list { IfOk result (λ r. spec.bodies_at r.list.items ≡ spec.architectures_in units.now) }
    ensures last { IfOk result (λ r. (e : List ℕ) → place_of r.last e ≡ spec.last_architecture (spec.bodies_at r.list.items) e) }
    ensures named { IfOk result (λ r. (e n : List ℕ) → place_of_both r.named e n ≡ spec.last_named (spec.bodies_at r.list.items) e n) }
{
    let list = architectures_in(alloc, units)?;
    let last = last_architectures(alloc, list.as_slice())?;
    let named = named_architectures(alloc, list.as_slice())?;
    Ok(ArchitectureList { list, last, named })
}

impl<'a> Library<'a> {
    ghost use Rattle.std.specs.Prelude.{◌≡◌, ℕ, List, Option, IfOk};
    ghost use Rattle.std.specs.Option.{option_copied};
    ghost use Rattle.sim_flat_instances.specs.Libraries as spec;

    /// The entities and architectures of a file.
    pub fn of(alloc: Global, file: &'a DesignFile) -> Result<Library<'a>, AllocError>
        ensures { IfOk result (λ l. l ≡ spec.library_of file.now.units) }
    {
        let entities = entity_list(alloc, file.units())?;
        let architectures = architecture_list(alloc, file.units())?;
        Ok(Library {
            entities,
            architectures,
        })
    }

    /// The position of the entity with this name, among the entities.
    pub fn entity_place(&self, name: &[u8]) -> Option<usize>
        ensures { result ≡ spec.first_entity self.now.entities name.now }
    {
        self.entities.first.find(name)
    }

    /// The entity with this name; the first in the file counts.
    pub fn entity(&self, name: &[u8]) -> Option<&'a Entity>
        ensures { option_copied result ≡ spec.entity_of self.now name.now }
    {
        match self.entities.first.find(name) {
            None => None,
            Some(place) => self.entities.list.get(place).copied(),
        }
    }

    /// The ports that the entity with this name declares, with their region.
    pub fn entity_ports(&self, name: &[u8]) -> Option<&EntityPorts<'a>>
        ensures { option_copied result ≡ spec.ports_in (spec.entity_of self.now name.now) }
    {
        match self.entities.first.find(name) {
            None => None,
            Some(place) => self.entities.declared.ports.get(place),
        }
    }

    /// The ports that each entity declares, by the entity's position.
    pub fn ports(&self) -> &[EntityPorts<'a>]
        ensures { result.now ≡ spec.declared_ports self.now.entities }
    {
        self.entities.declared.ports.as_slice()
    }

    /// The ports of the entity with this name.
    pub fn interface(&self, entity: &[u8]) -> Option<&Interface<'a>>
        ensures { option_copied result ≡ spec.interface_of self.now entity.now }
    {
        match self.entities.first.find(entity) {
            None => None,
            Some(place) => self.entities.declared.interfaces.get(place),
        }
    }

    /// The position of the last architecture of an entity, among the architectures.
    pub fn last_architecture(&self, entity: &[u8]) -> Option<usize>
        ensures { result ≡ spec.last_architecture self.now.architectures entity.now }
    {
        self.architectures.last.find(entity)
    }

    /// The position of the last architecture of an entity that has this name.
    pub fn architecture_named(&self, entity: &[u8], name: &[u8]) -> Option<usize>
        ensures { result ≡ spec.last_named self.now.architectures entity.now name.now }
    {
        self.architectures.named.find(entity, name)
    }

    /// The entities, by position.
    pub fn entities(&self) -> &[&'a Entity]
        ensures { spec.entities_at result.now ≡ self.now.entities }
    {
        self.entities.list.as_slice()
    }

    /// The architectures, by position.
    pub fn architectures(&self) -> &[&'a Architecture]
        ensures { spec.bodies_at result.now ≡ self.now.architectures }
    {
        self.architectures.list.as_slice()
    }
}
