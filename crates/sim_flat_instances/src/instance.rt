//! The entity, architecture and faults of an instance (IEEE 1076-2008, 11.7).

ghost use Rattle.std.specs.Prelude.{◌≡◌, OnOk, [], slice_get};
ghost use Rattle.sim_flat_scope.specs.Faults.{earliest};
ghost use Rattle.sim_flat_scope.specs.Scopes.{means};
ghost use Rattle.sim_flat_instances.specs.Instances as spec;

use crate::component::Component;
use crate::library::Library;
use crate::port_map::PortMap;
use sim_flat_scope::fault::note;
use sim_flat_scope::scope::look_up;
use sim_flat_scope::{Fault, Kind, Meaning, Scope};
use sim_text_tree::name::Name;
use sim_text_tree::unit::{Instance, Instantiated};
use std::alloc::{AllocError, Global};

/// The name of an instance's entity; a component is bound to the entity with its own name.
pub fn entity_name(unit: &Instantiated) -> &Name
    ensures { result.now ≡ spec.entity_name unit.now }
{
    match unit {
        Instantiated::Component { component, .. } => component,
        Instantiated::Entity { entity, .. } => entity,
    }
}

/// The position of the named architecture of an entity, or of its last one if none is named.
fn place_of(library: &Library<'_>, entity: &Name, architecture: &Option<Name>) -> Option<usize>
    ensures { result ≡ spec.place_of library.now entity.now architecture.now }
{
    match architecture {
        None => library.last_architecture(entity.text()),
        Some(name) => library.architecture_named(entity.text(), name.text()),
    }
}

/// The position of the architecture of an instance, among those of the file.
pub fn architecture_place(library: &Library<'_>, unit: &Instantiated) -> Option<usize>
    ensures { result ≡ spec.architecture_place library.now unit.now }
{
    match unit {
        Instantiated::Component { component, .. } => library.last_architecture(component.text()),
        Instantiated::Entity {
            entity,
            architecture,
            ..
        } => place_of(library, entity, architecture),
    }
}

/// A fault at a name.
fn fault_at(kind: Kind, name: &Name) -> Option<Fault>
    ensures { result ≡ spec.fault_at kind name.now }
{
    Some(Fault {
        kind,
        at: name.at(),
    })
}

/// The fault if an entity has no architecture, or not the named one.
fn architecture_fault(
    library: &Library<'_>,
    entity: &Name,
    architecture: &Option<Name>,
) -> Option<Fault>
    ensures { result ≡ spec.architecture_fault library.now entity.now architecture.now }
{
    if place_of(library, entity, architecture).is_some() {
        return None;
    }
    match architecture {
        None => fault_at(Kind::NoArchitecture, entity),
        Some(name) => fault_at(Kind::NoArchitecture, name),
    }
}

/// The fault in the names of an instance of an entity.
fn entity_fault(
    library: &Library<'_>,
    name: &Name,
    entity: &Name,
    architecture: &Option<Name>,
) -> Option<Fault>
    ensures { result ≡ spec.entity_fault library.now name.now entity.now architecture.now }
{
    if name.text() != b"work".as_slice() {
        return fault_at(Kind::Unknown, name);
    }
    if library.interface(entity.text()).is_none() {
        return fault_at(Kind::Unknown, entity);
    }
    architecture_fault(library, entity, architecture)
}

/// The fault of an instance of the component with this name.
fn binding_fault(library: &Library<'_>, name: &Name, component: Component) -> Option<Fault>
    ensures { result ≡ spec.binding_fault library.now name.now component }
{
    if library.interface(name.text()).is_none() {
        return fault_at(Kind::Unknown, name);
    }
    if component.is_like_entity {
        return architecture_fault(library, name, &None);
    }
    fault_at(Kind::ComponentDiffers, name)
}

/// The fault of an instance of the component at a position.
fn declared_fault(
    library: &Library<'_>,
    components: &[Component],
    name: &Name,
    place: usize,
) -> Option<Fault>
    ensures { result ≡ spec.declared_fault library.now name.now (slice_get components.now place) }
{
    match components.get(place) {
        None => fault_at(Kind::WrongKind, name),
        Some(component) => binding_fault(library, name, *component),
    }
}

/// The fault of an instance of a name with this meaning, which must be a component.
#[tactic(auto, unfolding(crate::specs::Instances::component_fault))]
fn component_fault(
    library: &Library<'_>,
    components: &[Component],
    name: &Name,
    meaning: Option<Meaning>,
) -> Option<Fault>
    ensures { result ≡ spec.component_fault library.now components.now name.now meaning }
{
    match meaning {
        None => fault_at(Kind::Unknown, name),
        Some(Meaning::Component { place }) => declared_fault(library, components, name, place),
        Some(_) => fault_at(Kind::WrongKind, name),
    }
}

/// The fault in the names of the component, entity or architecture of an instance.
#[tactic(auto, unfolding(crate::specs::Instances::unit_fault))]
fn unit_fault(
    library: &Library<'_>,
    inner: &Scope<'_>,
    outer: &Scope<'_>,
    components: &[Component],
    unit: &Instantiated,
) -> Option<Fault>
    ensures { result ≡ spec.unit_fault library.now (means inner.now outer.now) components.now unit.now }
{
    match unit {
        Instantiated::Component { component, .. } => {
            let meaning = look_up(inner, outer, component.text());
            component_fault(library, components, component, meaning)
        }
        Instantiated::Entity {
            library: name,
            entity,
            architecture,
        } => entity_fault(library, name, entity, architecture),
    }
}

/// Records the faults of the port map of an instance.
#[tactic(auto, unfolding(sim_flat_scope::specs::Faults::earliest))]
fn check_port_map(
    alloc: Global,
    library: &Library<'_>,
    inner: &Scope<'_>,
    outer: &Scope<'_>,
    instance: &Instance,
    first: &mut Option<Fault>,
) -> Result<(), AllocError>
    ensures { OnOk result (first.new ≡ earliest first.old (spec.map_faults library.now (means inner.now outer.now) instance.now)) }
{
    match library.interface(entity_name(&instance.unit).text()) {
        None => Ok(()),
        Some(ports) => {
            let map = PortMap::new(alloc, ports, instance.associations.as_slice())?;
            map.check(inner, outer, &instance.label, first);
            Ok(())
        }
    }
}

/// Records the faults of an instance in the region of an architecture with these components.
#[tactic(auto, unfolding(crate::specs::Instances::instance_faults, sim_flat_scope::specs::Faults::earliest))]
pub fn check_instance(
    alloc: Global,
    library: &Library<'_>,
    region: &Scope<'_>,
    components: &[Component],
    instance: &Instance,
    first: &mut Option<Fault>,
) -> Result<(), AllocError>
    ensures { OnOk result (first.new ≡ earliest first.old (spec.instance_faults library.now (means region.now []) components.now instance.now)) }
{
    let nothing = Scope::new(alloc);
    match unit_fault(library, region, &nothing, components, &instance.unit) {
        Some(fault) => {
            note(first, fault.kind, fault.at);
            Ok(())
        }
        None => check_port_map(alloc, library, region, &nothing, instance, first),
    }
}
