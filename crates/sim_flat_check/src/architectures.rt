//! The faults of architectures (IEEE 1076-2008, 3.3).

ghost use Rattle.std.specs.Prelude.{◌≡◌, [], OnOk};
ghost use Rattle.sim_flat_scope.specs.Faults.{earliest};
ghost use Rattle.sim_flat_instances.specs.Components.{components};
ghost use Rattle.sim_flat_instances.specs.Libraries.{bodies_at};
ghost use Rattle.sim_flat_check.specs.BodyNames.{with_name};
ghost use Rattle.sim_flat_check.specs.Concurrents.{statements_faults};
ghost use Rattle.sim_flat_check.specs.Architectures as spec;

use crate::body_names::BodyNames;
use crate::concurrents::check_statements;
use sim_flat_instances::Library;
use sim_flat_instances::component::components;
use sim_flat_scope::check::{check_architecture, check_predefined};
use sim_flat_scope::fault::note;
use sim_flat_scope::{EntityPorts, Fault, Kind, Scope, region};
use sim_text_tree::declaration::Declaration;
use sim_text_tree::unit::{Architecture, Concurrent};
use std::alloc::{AllocError, Global};

/// Records a fault if an architecture's entity is not in the file, or already has an architecture
/// with this name.
#[tactic(auto, unfolding(sim_flat_scope::specs::Faults::earliest))]
fn check_unit(
    place: Option<usize>,
    again: bool,
    architecture: &Architecture,
    first: &mut Option<Fault>,
)
    ensures { first.new ≡ earliest first.old (spec.unit_faults place again architecture.now) }
{
    match place {
        None => note(first, Kind::Unknown, architecture.entity.at()),
        Some(_) => {
            if again {
                note(first, Kind::Duplicate, architecture.name.at());
            }
        }
    }
}

/// Records the faults of the names of an architecture, and adds its name to the known ones.
#[tactic(auto, using(sim_flat_scope::proofs::Faults::of_both), unfolding(crate::specs::Architectures::name_faults))]
fn check_name<'a>(
    library: &Library<'_>,
    known: &mut BodyNames<'a>,
    architecture: &'a Architecture,
    first: &mut Option<Fault>,
) -> Result<(), AllocError>
    ensures faults { OnOk result (first.new ≡ earliest first.old (spec.name_faults library.now known.old architecture.now)) }
    ensures known { OnOk result (known.new ≡ with_name known.old architecture.now.entity.text architecture.now.name.text) }
{
    check_predefined(&architecture.name, first);
    let place = library.entity_place(architecture.entity.text());
    let is_new = known.insert(architecture.entity.text(), architecture.name.text())?;
    check_unit(place, !is_new, architecture, first);
    Ok(())
}

/// Records the faults of the names of architectures.
#[tactic(auto, unfolding(crate::specs::Architectures::names_faults, sim_flat_instances::specs::Libraries::bodies_at, sim_flat_scope::specs::Faults::earliest))]
fn check_names(
    alloc: Global,
    library: &Library<'_>,
    architectures: &[&Architecture],
    first: &mut Option<Fault>,
) -> Result<(), AllocError>
    ensures { OnOk result (first.new ≡ earliest first.old (spec.names_faults library.now [] (bodies_at architectures.now))) }
{
    let mut known = BodyNames::new(alloc);
    for architecture in architectures {
        check_name(library, &mut known, architecture, first)?;
    }
    Ok(())
}

/// Records the faults of the statements of an architecture with this region and these declarations.
fn check_concurrents(
    alloc: Global,
    library: &Library<'_>,
    region: &Scope<'_>,
    declarations: &[Declaration],
    statements: &[Concurrent],
    first: &mut Option<Fault>,
) -> Result<(), AllocError>
    ensures { OnOk result (first.new ≡ earliest first.old
        (statements_faults library.now region.now (components library.now declarations.now) statements.now)) }
{
    let components = components(alloc, library, declarations)?;
    let known = components.as_slice();
    check_statements(alloc, library, region, known, statements, first)
}

/// Records the faults of the declarations and statements of an architecture of an entity with these
/// ports.
#[tactic(auto, using(sim_flat_scope::proofs::Faults::of_both), unfolding(crate::specs::Architectures::body_faults))]
fn check_body<'a>(
    alloc: Global,
    library: &Library<'_>,
    ports: &'a EntityPorts<'a>,
    architecture: &'a Architecture,
    first: &mut Option<Fault>,
) -> Result<(), AllocError>
    ensures { OnOk result (first.new ≡ earliest first.old (spec.body_faults library.now ports.now architecture.now)) }
{
    let declarations = architecture.declarations.as_slice();
    let statements = architecture.statements.as_slice();
    let region = region::architecture(alloc, ports, declarations, statements)?;
    check_architecture(alloc, &region, ports, declarations, statements, first)?;
    check_concurrents(alloc, library, &region, declarations, statements, first)
}

/// Records the faults of the declarations and statements of an architecture, if its entity exists.
#[tactic(auto, unfolding(sim_flat_scope::specs::Faults::earliest))]
fn check_known<'a>(
    alloc: Global,
    library: &'a Library<'a>,
    architecture: &'a Architecture,
    first: &mut Option<Fault>,
) -> Result<(), AllocError>
    ensures { OnOk result (first.new ≡ earliest first.old (spec.known_faults library.now architecture.now)) }
{
    match library.entity_ports(architecture.entity.text()) {
        None => Ok(()),
        Some(ports) => { check_body(alloc, library, ports, architecture, first) }
    }
}

/// Records the faults of the declarations and statements of architectures.
#[tactic(auto, unfolding(crate::specs::Architectures::bodies_faults, sim_flat_instances::specs::Libraries::bodies_at, sim_flat_scope::specs::Faults::earliest))]
fn check_bodies<'a>(
    alloc: Global,
    library: &'a Library<'a>,
    architectures: &[&'a Architecture],
    first: &mut Option<Fault>,
) -> Result<(), AllocError>
    ensures { OnOk result (first.new ≡ earliest first.old (spec.bodies_faults library.now (bodies_at architectures.now))) }
{
    for architecture in architectures {
        check_known(alloc, library, architecture, first)?;
    }
    Ok(())
}

/// Records the faults of architectures (3.3). The entity of each is the first with the given name.
#[tactic(auto, using(sim_flat_scope::proofs::Faults::of_both), unfolding(crate::specs::Architectures::architectures_faults))]
pub fn check_architectures<'a>(
    alloc: Global,
    library: &'a Library<'a>,
    architectures: &[&'a Architecture],
    first: &mut Option<Fault>,
) -> Result<(), AllocError>
    ensures { OnOk result (first.new ≡ earliest first.old (spec.architectures_faults library.now (bodies_at architectures.now))) }
{
    check_names(alloc, library, architectures, first)?;
    check_bodies(alloc, library, architectures, first)
}
