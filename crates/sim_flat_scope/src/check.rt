//! The faults of declarations.

ghost use Rattle.std.specs.Prelude.{◌≡◌, [], OnOk};
ghost use Rattle.sim_flat_scope.specs.Faults.{earliest};
ghost use Rattle.sim_flat_scope.specs.Scopes.{means, with_first};
ghost use Rattle.sim_flat_scope.specs.declared.scope.Meaning.TheVariants.{Label};
ghost use Rattle.sim_flat_scope.specs.DeclaredNames.{named_by, body_names};
ghost use Rattle.sim_flat_scope.specs.Regions.{port_labels, ports_region};
ghost use Rattle.sim_flat_scope.specs.DeclarationFaults as spec;

use crate::entity::EntityPorts;
use crate::fault::{Fault, Kind, note};
use crate::names::Names;
use crate::predefined::predefined;
use crate::region;
use crate::scope::{Declare, Meaning, Scope};
use crate::value::check_object;
use sim_text_tree::declaration::{Declaration, ObjectDeclaration, PortDeclaration};
use sim_text_tree::name::Name;
use sim_text_tree::unit::{Concurrent, Process};
use std::alloc::{AllocError, Global};

/// Records a fault if a declared name is predefined.
#[tactic(auto, unfolding(crate::specs::Faults::earliest))]
pub fn check_predefined(name: &Name, first: &mut Option<Fault>)
    ensures { first.new ≡ earliest first.old (spec.predefined_name name.now) }
{
    if predefined(name.text()).is_some() {
        note(first, Kind::Predefined, name.at());
    }
}

/// Records a fault if a name is already declared.
#[tactic(auto, unfolding(crate::specs::Faults::earliest))]
fn check_twice(known: &Scope<'_>, name: &Name, first: &mut Option<Fault>)
    ensures { first.new ≡ earliest first.old (spec.twice known.now name.now) }
{
    if known.find(name.text()).is_some() {
        note(first, Kind::Duplicate, name.at());
    }
}

/// Records the faults of a name declared after others, and declares it.
#[tactic(auto, using(crate::proofs::Faults::of_both))]
fn check_name<'a>(
    known: &mut Scope<'a>,
    name: &'a Name,
    first: &mut Option<Fault>,
) -> Result<(), AllocError>
    ensures faults { first.new ≡ earliest first.old (spec.name_faults known.old name.now) }
    ensures known { OnOk result (known.new ≡ with_first known.old name.now.text Label) }
{
    check_twice(known, name, first);
    check_predefined(name, first);
    known.declare(name.text(), Meaning::Label)?;
    Ok(())
}

/// Records the faults of names declared after those of a region, and declares them.
#[tactic(auto, unfolding(crate::specs::DeclarationFaults::names_faults, crate::specs::DeclaredNames::named_by, crate::specs::Faults::earliest))]
fn check_each<'a>(
    known: &mut Scope<'a>,
    names: &[&'a Name],
    first: &mut Option<Fault>,
) -> Result<(), AllocError>
    ensures { OnOk result (first.new ≡ earliest first.old (spec.names_faults known.old (named_by names.now))) }
{
    for name in names {
        check_name(known, name, first)?;
    }
    Ok(())
}

/// Records the faults of names declared after those of a region, which may then contain them.
pub fn check_names<'a>(
    known: &mut Scope<'a>,
    names: &Names<'a>,
    first: &mut Option<Fault>,
) -> Result<(), AllocError>
    ensures { OnOk result (first.new ≡ earliest first.old (spec.names_faults known.old names.now)) }
{
    check_each(known, names.as_slice(), first)
}

/// Records the faults of names declared in a region of their own.
fn check_own_names(
    alloc: Global,
    names: &Names<'_>,
    first: &mut Option<Fault>,
) -> Result<(), AllocError>
    ensures { OnOk result (first.new ≡ earliest first.old (spec.names_faults [] names.now)) }
{
    let mut known = Scope::new(alloc);
    check_each(&mut known, names.as_slice(), first)
}

/// Records the faults of the type marks and initial values of ports.
#[tactic(auto, unfolding(crate::specs::DeclarationFaults::port_types, crate::specs::Faults::earliest))]
fn check_port_types(
    inner: &Scope<'_>,
    outer: &Scope<'_>,
    ports: &[PortDeclaration],
    first: &mut Option<Fault>,
)
    ensures { first.new ≡ earliest first.old (spec.port_types (means inner.now outer.now) ports.now) }
{
    for port in ports {
        check_object(inner, outer, false, &port.mark, &port.initial, first);
    }
}

/// Records the faults of the type marks and initial values of variables.
#[tactic(auto, unfolding(crate::specs::DeclarationFaults::variable_types, crate::specs::Faults::earliest))]
fn check_variable_types(
    inner: &Scope<'_>,
    outer: &Scope<'_>,
    variables: &[ObjectDeclaration],
    first: &mut Option<Fault>,
)
    ensures { first.new ≡ earliest first.old (spec.variable_types (means inner.now outer.now) variables.now) }
{
    for variable in variables {
        check_object(inner, outer, true, &variable.mark, &variable.initial, first);
    }
}

/// Records the faults of the ports of an entity, whose region is enclosed by an empty one, or of a
/// component, whose region is enclosed by that of its architecture.
#[tactic(auto, using(crate::proofs::Faults::of_both), unfolding(crate::specs::DeclarationFaults::ports_faults))]
pub fn check_ports(
    alloc: Global,
    inner: &Scope<'_>,
    outer: &Scope<'_>,
    ports: &[PortDeclaration],
    first: &mut Option<Fault>,
) -> Result<(), AllocError>
    ensures { OnOk result (first.new ≡ earliest first.old (spec.ports_faults inner.now outer.now ports.now)) }
{
    let names = Names::of_ports(alloc, ports)?;
    check_own_names(alloc, &names, first)?;
    check_port_types(inner, outer, ports, first);
    Ok(())
}

/// Records the faults of the variables and labels of a process, whose region is enclosed by that of
/// its architecture.
#[tactic(auto, using(crate::proofs::Faults::of_both), unfolding(crate::specs::DeclarationFaults::process_faults))]
pub fn check_process(
    alloc: Global,
    inner: &Scope<'_>,
    outer: &Scope<'_>,
    process: &Process,
    first: &mut Option<Fault>,
) -> Result<(), AllocError>
    ensures { OnOk result (first.new ≡ earliest first.old (spec.process_faults inner.now outer.now process.now)) }
{
    let names = Names::of_process(alloc, process)?;
    check_own_names(alloc, &names, first)?;
    check_variable_types(inner, outer, process.variables.as_slice(), first);
    Ok(())
}

/// Records the faults of the ports of a component, in the region of its architecture.
fn check_component(
    alloc: Global,
    scope: &Scope<'_>,
    ports: &[PortDeclaration],
    first: &mut Option<Fault>,
) -> Result<(), AllocError>
    ensures { OnOk result (first.new ≡ earliest first.old (spec.ports_faults (ports_region scope.now ports.now) scope.now ports.now)) }
{
    let own = Scope::of(region::ports(alloc, ports, scope)?);
    check_ports(alloc, &own, scope, ports, first)
}

/// Records the faults of a declaration of an architecture, except those of its names.
fn check_declaration(
    alloc: Global,
    scope: &Scope<'_>,
    declaration: &Declaration,
    first: &mut Option<Fault>,
) -> Result<(), AllocError>
    ensures { OnOk result (first.new ≡ earliest first.old (spec.declaration_faults scope.now declaration.now)) }
{
    match declaration {
        Declaration::Signal(signals) => {
            let nothing = Scope::new(alloc);
            check_object(
                scope,
                &nothing,
                false,
                &signals.mark,
                &signals.initial,
                first,
            );
            Ok(())
        }
        Declaration::Component(component) => {
            check_component(alloc, scope, component.ports.as_slice(), first)
        }
    }
}

/// Records the faults of the declarations of an architecture, except those of their names.
#[tactic(auto, unfolding(crate::specs::DeclarationFaults::declarations_faults, crate::specs::Faults::earliest))]
fn check_declarations(
    alloc: Global,
    scope: &Scope<'_>,
    declarations: &[Declaration],
    first: &mut Option<Fault>,
) -> Result<(), AllocError>
    ensures { OnOk result (first.new ≡ earliest first.old (spec.declarations_faults scope.now declarations.now)) }
{
    for declaration in declarations {
        check_declaration(alloc, scope, declaration, first)?;
    }
    Ok(())
}

/// Records the faults of the names that an architecture declares. The names of its entity's ports
/// are taken.
fn check_body_names<'a>(
    alloc: Global,
    entity: &'a EntityPorts<'a>,
    declarations: &'a [Declaration],
    statements: &'a [Concurrent],
    first: &mut Option<Fault>,
) -> Result<(), AllocError>
    ensures { OnOk result (first.new ≡ earliest first.old (spec.names_faults (port_labels entity.now) (body_names declarations.now statements.now))) }
{
    let names = Names::of_body(alloc, declarations, statements)?;
    let mut known = Scope::after(alloc, entity.labels());
    check_names(&mut known, &names, first)
}

/// Records the faults of the names of an architecture and of its declarations, given its region and
/// the ports of its entity.
#[tactic(auto, using(crate::proofs::Faults::of_both), unfolding(crate::specs::DeclarationFaults::architecture_faults))]
pub fn check_architecture<'a>(
    alloc: Global,
    scope: &Scope<'_>,
    entity: &'a EntityPorts<'a>,
    declarations: &'a [Declaration],
    statements: &'a [Concurrent],
    first: &mut Option<Fault>,
) -> Result<(), AllocError>
    ensures { OnOk result (first.new ≡ earliest first.old (spec.architecture_faults scope.now entity.now declarations.now statements.now)) }
{
    check_body_names(alloc, entity, declarations, statements, first)?;
    check_declarations(alloc, scope, declarations, first)
}
