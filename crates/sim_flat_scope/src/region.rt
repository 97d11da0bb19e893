//! The declarative regions of a design (IEEE 1076-2008, 12.1), made from its declarations.

ghost use Rattle.std.specs.Prelude.{◌≡◌, ◌+◌, [], length, OnOk, IfOk};
ghost use Rattle.sim_flat_scope.specs.Scopes.{declaring, means};
ghost use Rattle.sim_flat_scope.specs.DeclaredNames.{named_by, process_names};
ghost use Rattle.sim_flat_scope.specs.Regions as spec;

use crate::entity::EntityPorts;
use crate::names::Names;
use crate::port::mode_of;
use crate::scope::{DeclarativeRegion, Declare, Meaning, Scope, Type, look_up};
use sim_text_tree::declaration::{Declaration, Mode, ObjectDeclaration, PortDeclaration};
use sim_text_tree::name::Name;
use sim_text_tree::unit::{Concurrent, Process};
use std::alloc::{AllocError, Global};

/// A declared object without its position. It has no type if its type mark is at fault.
#[derive(Clone, Copy)]
pub enum Object {
    Port { mode: Mode, type_: Option<Type> },
    Signal { type_: Option<Type> },
    Variable { type_: Option<Type> },
}

impl Object {
    /// The meaning of its name, at this position.
    fn meaning(self, place: usize) -> Meaning
        ensures { result ≡ spec.meaning_of self place }
    {
        match self {
            Object::Port { mode, type_ } => Meaning::Port {
                object: place,
                mode,
                type_,
            },
            Object::Signal { type_ } => Meaning::Signal {
                object: place,
                type_,
            },
            Object::Variable { type_ } => Meaning::Variable { place, type_ },
        }
    }
}

/// The positions of the next signal and the next component of an architecture.
#[derive(Clone, Copy)]
struct Places {
    signal: usize,
    component: usize,
}

/// The type that a mark with this meaning denotes; boolean only if `may_be_boolean`.
pub fn type_marked(may_be_boolean: bool, meaning: Option<Meaning>) -> Option<Type>
    ensures { result ≡ spec.type_marked may_be_boolean meaning }
{
    match meaning {
        Some(Meaning::LogicMark { resolved: _ }) => Some(Type::Logic),
        Some(Meaning::BooleanMark) if may_be_boolean => Some(Type::Boolean),
        _ => None,
    }
}

/// The next position; there is one for each name that fits in memory.
fn next(place: usize) -> Result<usize, AllocError>
    ensures { IfOk result (λ n. n ≡ place + 1) }
{
    place.checked_add(1).ok_or(AllocError)
}

/// Declares names as labels only.
#[tactic(auto, unfolding(crate::specs::Regions::labels, crate::specs::DeclaredNames::named_by, crate::specs::Scopes::declaring))]
fn declare_each<'a, D: Declare<'a>>(region: &mut D, names: &[&'a Name]) -> Result<(), AllocError>
    ensures { OnOk result (D.declared region.new ≡ spec.naming (D.declared region.old) (named_by names.now)) }
{
    for name in names {
        region.declare(name.text(), Meaning::Label)?;
    }
    Ok(())
}

/// Declares objects at consecutive positions from this one, and returns the position after them.
#[tactic(auto, using(crate::proofs::Declaring::in_pieces), unfolding(crate::specs::Regions::objects, crate::specs::Scopes::declaring))]
fn declare_objects<'a, D: Declare<'a>>(
    region: &mut D,
    object: Object,
    first: usize,
    names: &'a [Name],
) -> Result<usize, AllocError>
    ensures declared { OnOk result (D.declared region.new ≡ declaring (D.declared region.old) (spec.objects object first names.now)) }
    ensures place { IfOk result (λ place. place ≡ first + length names.now) }
{
    let mut place = first;
    for name in names {
        region.declare(name.text(), object.meaning(place))?;
        place = next(place)?;
    }
    Ok(place)
}

/// The type that the mark of objects denotes, in an inner region within an outer one.
fn mark_type(
    inner: &Scope<'_>,
    outer: &Scope<'_>,
    may_be_boolean: bool,
    mark: &Name,
) -> Option<Type>
    ensures { result ≡ spec.mark_type (means inner.now outer.now) may_be_boolean mark.now }
{
    type_marked(may_be_boolean, look_up(inner, outer, mark.text()))
}

/// Declares ports, the first at position 0. A mark is looked up in two regions.
#[tactic(auto, using(crate::proofs::Declaring::in_pieces), unfolding(crate::specs::Regions::ports, crate::specs::Scopes::declaring))]
fn declare_ports<'a>(
    part: &mut DeclarativeRegion<'a>,
    inner: &Scope<'_>,
    outer: &Scope<'_>,
    ports: &'a [PortDeclaration],
) -> Result<(), AllocError>
    ensures { OnOk result (part.new ≡ declaring part.old (spec.ports (means inner.now outer.now) 0 ports.now)) }
{
    let mut place = 0;
    for port in ports {
        let object = Object::Port {
            mode: mode_of(port.mode),
            type_: mark_type(inner, outer, false, &port.mark),
        };
        place = declare_objects(part, object, place, port.names.as_slice())?;
    }
    Ok(())
}

/// Declares the variables of a process, whose region is enclosed by that of its architecture; the
/// first has position 0.
#[tactic(auto, using(crate::proofs::Declaring::in_pieces), unfolding(crate::specs::Regions::variables, crate::specs::Scopes::declaring))]
fn declare_variables<'a>(
    part: &mut DeclarativeRegion<'a>,
    inner: &Scope<'_>,
    outer: &Scope<'_>,
    variables: &'a [ObjectDeclaration],
) -> Result<(), AllocError>
    ensures { OnOk result (part.new ≡ declaring part.old (spec.variables (means inner.now outer.now) 0 variables.now)) }
{
    let mut place = 0;
    for variable in variables {
        let type_ = mark_type(inner, outer, true, &variable.mark);
        let object = Object::Variable { type_ };
        place = declare_objects(part, object, place, variable.names.as_slice())?;
    }
    Ok(())
}

/// Declares the signals or the component of a declaration, and returns the positions after them.
#[tactic(auto, using(crate::proofs::Declaring::in_pieces))]
fn declare_declaration<'a>(
    scope: &mut Scope<'a>,
    inner: &Scope<'_>,
    outer: &Scope<'_>,
    places: Places,
    declaration: &'a Declaration,
) -> Result<Places, AllocError>
    ensures names { OnOk result (scope.new ≡ declaring scope.old (spec.declared (means inner.now outer.now) places.signal places.component declaration.now)) }
    ensures signal { IfOk result (λ after. after.signal ≡ places.signal + spec.signal_count declaration.now) }
    ensures component { IfOk result (λ after. after.component ≡ places.component + spec.component_count declaration.now) }
{
    match declaration {
        Declaration::Signal(signals) => {
            let object = Object::Signal {
                type_: mark_type(inner, outer, false, &signals.mark),
            };
            let signal = declare_objects(scope, object, places.signal, signals.names.as_slice())?;
            Ok(Places {
                signal,
                component: places.component,
            })
        }
        Declaration::Component(component) => {
            let meaning = Meaning::Component {
                place: places.component,
            };
            scope.declare(component.name.text(), meaning)?;
            Ok(Places {
                signal: places.signal,
                component: next(places.component)?,
            })
        }
    }
}

/// Declares signals and components, the first signal at this position. A mark is looked up in two
/// regions.
#[tactic(auto, using(crate::proofs::Declaring::in_pieces), unfolding(crate::specs::Regions::declarations, crate::specs::Scopes::declaring))]
fn declare_declarations<'a>(
    scope: &mut Scope<'a>,
    inner: &Scope<'_>,
    outer: &Scope<'_>,
    signal: usize,
    declarations: &'a [Declaration],
) -> Result<(), AllocError>
    ensures { OnOk result (scope.new ≡ declaring scope.old (spec.declarations (means inner.now outer.now) signal 0 declarations.now)) }
{
    let mut places = Places {
        signal,
        component: 0,
    };
    for declaration in declarations {
        places = declare_declaration(scope, inner, outer, places, declaration)?;
    }
    Ok(())
}

/// A region with further names, as labels only.
fn with_labels<'a, D: Declare<'a> + Drop>(region: D, names: &Names<'a>) -> Result<D, AllocError>
    ensures { IfOk result (λ found. D.declared found ≡ spec.naming (D.declared region) names.now) }
{
    let mut region = region;
    declare_each(&mut region, names.as_slice())?;
    Ok(region)
}

/// A region in which names are labels only.
pub fn labels<'a>(alloc: Global, names: &Names<'a>) -> Result<DeclarativeRegion<'a>, AllocError>
    ensures { IfOk result (λ part. part ≡ spec.naming [] names.now) }
{
    with_labels(DeclarativeRegion::new(alloc), names)
}

/// A region in which the names of ports are labels only.
fn port_labels<'a>(alloc: Global, ports: &'a [PortDeclaration]) -> Result<Scope<'a>, AllocError>
    ensures { IfOk result (λ s. s ≡ spec.port_labels ports.now) }
{
    let names = Names::of_ports(alloc, ports)?;
    with_labels(Scope::new(alloc), &names)
}

/// Ports as a region of their own, the first at position 0. A mark is looked up in two regions.
fn declared_ports<'a>(
    alloc: Global,
    inner: &Scope<'_>,
    outer: &Scope<'_>,
    ports: &'a [PortDeclaration],
) -> Result<DeclarativeRegion<'a>, AllocError>
    ensures { IfOk result (λ part. part ≡ declaring [] (spec.ports (means inner.now outer.now) 0 ports.now)) }
{
    let mut part = DeclarativeRegion::new(alloc);
    declare_ports(&mut part, inner, outer, ports)?;
    Ok(part)
}

/// The region of the ports of an entity, enclosed by an empty one, or of a component, enclosed by
/// that of its architecture.
#[tactic(auto, unfolding(crate::specs::Regions::ports_region))]
pub fn ports<'a>(
    alloc: Global,
    ports: &'a [PortDeclaration],
    outer: &Scope<'_>,
) -> Result<DeclarativeRegion<'a>, AllocError>
    ensures { IfOk result (λ part. part ≡ spec.ports_region outer.now ports.now) }
{
    let own = port_labels(alloc, ports)?;
    declared_ports(alloc, &own, outer, ports)
}

/// The names visible in an architecture of an entity, as labels only.
fn architecture_labels<'a>(
    alloc: Global,
    entity: &'a EntityPorts<'a>,
    declarations: &'a [Declaration],
    statements: &'a [Concurrent],
) -> Result<Scope<'a>, AllocError>
    ensures { IfOk result (λ s. s ≡ spec.architecture_labels entity.now declarations.now statements.now) }
{
    let names = Names::of_body(alloc, declarations, statements)?;
    with_labels(Scope::after(alloc, entity.labels()), &names)
}

/// Declares the signals and components of an architecture, whose region no other encloses; the
/// first signal has this position.
fn declare_own<'a>(
    alloc: Global,
    scope: &mut Scope<'a>,
    own: &Scope<'_>,
    signal: usize,
    declarations: &'a [Declaration],
) -> Result<(), AllocError>
    ensures { OnOk result (scope.new ≡ declaring scope.old (spec.declarations (means own.now []) signal 0 declarations.now)) }
{
    let nothing = Scope::new(alloc);
    declare_declarations(scope, own, &nothing, signal, declarations)
}

/// The region of an architecture without its labels.
fn declared<'a>(
    alloc: Global,
    entity: &'a EntityPorts<'a>,
    declarations: &'a [Declaration],
    statements: &'a [Concurrent],
) -> Result<Scope<'a>, AllocError>
    ensures { IfOk result (λ s. s ≡ declaring (spec.ports_region [] entity.now)
        (spec.declarations (means (spec.architecture_labels entity.now declarations.now statements.now) []) (spec.port_count entity.now) 0 declarations.now)) }
{
    let own = architecture_labels(alloc, entity, declarations, statements)?;
    let mut scope = Scope::after(alloc, entity.region());
    declare_own(alloc, &mut scope, &own, entity.count(), declarations)?;
    Ok(scope)
}

/// The region of an architecture: that of the ports of its entity, extended by its declarations and
/// its labels.
#[tactic(auto, unfolding(crate::specs::Regions::architecture_region))]
pub fn architecture<'a>(
    alloc: Global,
    entity: &'a EntityPorts<'a>,
    declarations: &'a [Declaration],
    statements: &'a [Concurrent],
) -> Result<Scope<'a>, AllocError>
    ensures { IfOk result (λ s. s ≡ spec.architecture_region entity.now declarations.now statements.now) }
{
    let names = Names::of_concurrents(alloc, statements)?;
    let scope = declared(alloc, entity, declarations, statements)?;
    with_labels(scope, &names)
}

/// A region in which the names that a process declares are labels only.
fn process_labels<'a>(alloc: Global, process: &'a Process) -> Result<Scope<'a>, AllocError>
    ensures { IfOk result (λ s. s ≡ spec.naming [] (process_names process.now)) }
{
    let names = Names::of_process(alloc, process)?;
    with_labels(Scope::new(alloc), &names)
}

/// The region of a process without its labels.
fn process_variables<'a>(
    alloc: Global,
    outer: &Scope<'_>,
    process: &'a Process,
) -> Result<DeclarativeRegion<'a>, AllocError>
    ensures { IfOk result (λ part. part
        ≡ declaring [] (spec.variables (means (spec.naming [] (process_names process.now)) outer.now) 0 process.now.variables)) }
{
    let own = process_labels(alloc, process)?;
    let mut part = DeclarativeRegion::new(alloc);
    declare_variables(&mut part, &own, outer, process.variables.as_slice())?;
    Ok(part)
}

/// The region of a process, which that of its architecture encloses.
#[tactic(auto, unfolding(crate::specs::Regions::process_region))]
pub fn process<'a>(
    alloc: Global,
    outer: &Scope<'_>,
    process: &'a Process,
) -> Result<Scope<'a>, AllocError>
    ensures { IfOk result (λ s. s ≡ spec.process_region outer.now process.now) }
{
    let names = Names::of_statements(alloc, process.statements.as_slice())?;
    let part = process_variables(alloc, outer, process)?;
    with_labels(Scope::of(part), &names)
}
