//! Ports and signals, by position (IEEE 1076-2008, 6.4.2.3, 6.5.2).

ghost use Rattle.std.specs.Prelude.{◌≡◌, ◌++◌, IfOk, OnOk, map};
ghost use Rattle.sim_flat_scope.specs.Ports.{ports_of};
ghost use Rattle.sim_flat_blocks.specs.Plans as spec;

use crate::lists::push;
use crate::names::meaning;
use crate::{Object, Port as BlockPort};
use sim_flat_scope::port::ports_of;
use sim_flat_scope::{Meaning, Port, Scope};
use sim_logic::Logic;
use sim_text_tree::declaration::{Declaration, Initial, Mode, PortDeclaration};
use sim_text_tree::name::Name;
use sqlite_items::Items;
use std::alloc::{AllocError, Global};

/// Whether a mark denotes a resolved subtype.
#[tactic(auto, unfolding(crate::specs::Plans::is_resolved))]
fn is_resolved(meaning: Option<Meaning>) -> bool
    ensures { result ≡ spec.is_resolved meaning }
{
    match meaning {
        Some(Meaning::LogicMark { resolved }) => resolved,
        _ => false,
    }
}

/// The default value of a signal or port: its declared initial value, otherwise 'U'.
#[tactic(auto, unfolding(crate::specs::Plans::default_of))]
fn default_of(first: &Option<Initial>) -> Logic
    ensures { result ≡ spec.default_of first.now }
{
    match first {
        Some(Initial::Literal { value, .. }) => *value,
        _ => Logic::U,
    }
}

/// The signal or port with this name, type mark and initial value.
fn object(
    alloc: Global,
    region: &Scope<'_>,
    mark: &Name,
    first: &Option<Initial>,
    name: &Name,
) -> Result<Object, AllocError>
    ensures { IfOk result (λ o. o ≡ spec.object (spec.seen region.now) mark.now first.now name.now) }
{
    let name = name.try_copy(alloc)?;
    Ok(Object {
        name,
        resolved: is_resolved(meaning(region, mark.text())),
        default: default_of(first),
    })
}

/// Whether a port with this mode is a source of its actual.
fn drives(mode: Mode) -> bool
    ensures { result ≡ spec.drives mode }
{
    match mode {
        Mode::In => false,
        Mode::Out | Mode::Inout => true,
    }
}

/// A port.
fn port(alloc: Global, region: &Scope<'_>, port: &Port<'_>) -> Result<BlockPort, AllocError>
    ensures { IfOk result (λ p. p ≡ spec.port (spec.seen region.now) port.now) }
{
    let object = object(alloc, region, port.mark(), port.initial(), port.name())?;
    Ok(BlockPort {
        object,
        drives: drives(port.mode()),
    })
}

/// Ports, by position.
fn each_port(
    alloc: Global,
    region: &Scope<'_>,
    ports: &[Port<'_>],
) -> Result<Items<BlockPort>, AllocError>
    ensures { IfOk result (λ r. r ≡ map (spec.port (spec.seen region.now)) ports.now) }
{
    let mut found = Vec::with_capacity(alloc, ports.len())?;
    for each in ports {
        push(&mut found, port(alloc, region, each))?;
    }
    Ok(Items::from_vec(found))
}

/// The declared ports, by position.
pub fn ports(
    alloc: Global,
    region: &Scope<'_>,
    declared: &[PortDeclaration],
) -> Result<Items<BlockPort>, AllocError>
    ensures { IfOk result (λ r. r ≡ map (spec.port (spec.seen region.now)) (ports_of declared.now)) }
{
    let ports = ports_of(alloc, declared)?;
    each_port(alloc, region, ports.as_slice())
}

/// Adds the signals of one declaration.
fn add_signals(
    alloc: Global,
    region: &Scope<'_>,
    mark: &Name,
    first: &Option<Initial>,
    names: &[Name],
    found: &mut Vec<Object>,
) -> Result<(), AllocError>
    ensures { OnOk result (found.new.items
        ≡ found.old.items ++ map (spec.object (spec.seen region.now) mark.now first.now) names.now) }
{
    for name in names {
        push(found, object(alloc, region, mark, first, name))?;
    }
    Ok(())
}

/// Adds the signals of a declaration, if it declares any.
fn add_declared(
    alloc: Global,
    region: &Scope<'_>,
    declaration: &Declaration,
    found: &mut Vec<Object>,
) -> Result<(), AllocError>
    ensures { OnOk result (found.new.items ≡ found.old.items ++ spec.signals_declared (spec.seen region.now) declaration.now) }
{
    match declaration {
        Declaration::Signal(signals) => {
            let names = signals.names.as_slice();
            add_signals(alloc, region, &signals.mark, &signals.initial, names, found)
        }
        Declaration::Component(_) => Ok(()),
    }
}

/// The declared signals, by position after the ports.
#[tactic(auto, unfolding(crate::specs::Plans::signals_of))]
pub fn signals(
    alloc: Global,
    region: &Scope<'_>,
    declarations: &[Declaration],
) -> Result<Items<Object>, AllocError>
    ensures { IfOk result (λ r. r ≡ spec.signals_of (spec.seen region.now) declarations.now) }
{
    let mut found = Vec::new(alloc);
    for each in declarations {
        add_declared(alloc, region, each, &mut found)?;
    }
    Ok(Items::from_vec(found))
}
