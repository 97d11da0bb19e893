//! The ports of an entity or a component, by position and by name.

ghost use Rattle.std.specs.Prelude.{◌≡◌, ◌++◌, IfOk, OnOk};
ghost use Rattle.sim_flat_scope.specs.Ports.{ports_of};
ghost use Rattle.sim_flat_instances.specs.Interfaces as spec;
ghost use Rattle.sim_flat_instances.specs.Places.{place_of};
ghost use Rattle.sim_flat_instances.specs.PortMaps as maps;
ghost use Rattle.std.specs.Prelude.{ℕ, List};

use crate::places::Places;
use sim_flat_scope::Port;
use sim_flat_scope::port::ports_of;
use sim_text_tree::declaration::{Mode, PortDeclaration};
use std::alloc::{AllocError, Global};
use std::marker::Model;

/// The ports of an entity or a component.
pub struct Interface<'a> {
    ports: Vec<Port<'a>>,
    places: Places<'a>,
    required: Vec<usize>,
}

/// Written by hand so that code which drops it needs no proof about its contents.
impl<'a> Drop for Interface<'a> {
    fn drop(self) {
        let Interface {
            ports,
            places,
            required,
        } = self;
        drop(ports);
        drop(places);
        drop(required);
    }
}

impl<'a> Model for Interface<'a> {
    ghost use Rattle.std.specs.Prelude.{◌≡◌, ℕ, List};
    ghost use Rattle.sim_flat_scope.specs.Ports.{Port};
    ghost use Rattle.sim_flat_instances.specs.Interfaces.{port_place};
    ghost use Rattle.sim_flat_instances.specs.Places.{place_of};
    ghost use Rattle.sim_flat_instances.specs.PortMaps.{required_from};

    ghost Value = { List Port };

    ghost view = { λ i. i.ports.items };

    ghost invariant = { λ i.
        ((n : List ℕ) → place_of i.places n ≡ port_place i.ports.items n) × (i.required.items ≡ required_from 0 i.ports.items) };
}

/// The positions of ports by name; the first port with a name counts.
fn places_of<'a>(alloc: Global, ports: &[Port<'a>]) -> Result<Places<'a>, AllocError>
    ensures { IfOk result (λ places. (n : List ℕ) → place_of places n ≡ spec.port_place ports.now n) }
{
    let mut places = Places::new(alloc);
    for (place, port) in ports.iter().enumerate() {
        places.put_first(port.name().text(), place)?;
    }
    Ok(places)
}

/// Whether a port must have an actual: it is of mode in and has no default expression.
fn needs_actual(port: &Port<'_>) -> bool
    ensures { result ≡ maps.needs_actual port.now }
{
    matches!(port.mode(), Mode::In) && port.initial().is_none()
}

/// Appends the position of a port, if it must have an actual.
fn push_required(places: &mut Vec<usize>, place: usize, port: &Port<'_>) -> Result<(), AllocError>
    ensures { OnOk result (places.new.items ≡ places.old.items ++ maps.required_place place port.now) }
{
    if needs_actual(port) {
        places.push(place)?;
    }
    Ok(())
}

/// The positions of the ports that must have an actual, in order.
#[tactic(auto, unfolding(crate::specs::PortMaps::required_from))]
fn required_places(alloc: Global, ports: &[Port<'_>]) -> Result<Vec<usize>, AllocError>
    ensures { IfOk result (λ places. places.items ≡ maps.required_from 0 ports.now) }
{
    let mut places = Vec::new(alloc);
    for (place, port) in ports.iter().enumerate() {
        push_required(&mut places, place, port)?;
    }
    Ok(places)
}

impl<'a> Interface<'a> {
    ghost use Rattle.std.specs.Prelude.{◌≡◌, ◌<◌, length, IfOk, IfSome};
    ghost use Rattle.sim_flat_scope.specs.Ports.{ports_of};
    ghost use Rattle.sim_flat_instances.specs.Interfaces as spec;
    ghost use Rattle.sim_flat_instances.specs.PortMaps.{required_from};

    /// The ports of these declarations.
    pub fn of(
        alloc: Global,
        declarations: &'a [PortDeclaration],
    ) -> Result<Interface<'a>, AllocError>
        ensures { IfOk result (λ i. i ≡ ports_of declarations.now) }
    {
        let ports = ports_of(alloc, declarations)?;
        let places = places_of(alloc, ports.as_slice())?;
        let required = required_places(alloc, ports.as_slice())?;
        Ok(Interface {
            ports,
            places,
            required,
        })
    }

    /// The ports, in order.
    pub fn ports(&self) -> &[Port<'a>]
        ensures { result.now ≡ self.now }
    {
        self.ports.as_slice()
    }

    /// The position of the first port with this name.
    pub fn place(&self, name: &[u8]) -> Option<usize>
        ensures place { result ≡ spec.port_place self.now name.now }
        ensures within { IfSome result (λ place. place < length self.now) }
    {
        self.places.find(name)
    }

    /// The positions of the ports that must have an actual, in order.
    pub fn required(&self) -> &[usize]
        ensures { result.now ≡ required_from 0 self.now }
    {
        self.required.as_slice()
    }

    /// Whether both have ports with the same names, modes and type marks, in the same order.
    pub fn is_like(&self, other: &Interface<'_>) -> bool
        ensures { result ≡ spec.are_alike self.now other.now }
    {
        same_ports(self.ports.as_slice(), other.ports.as_slice())
    }
}

/// Whether two modes are the same.
fn same_mode(first: Mode, second: Mode) -> bool
    ensures { result ≡ spec.same_mode first second }
{
    match first {
        Mode::In => matches!(second, Mode::In),
        Mode::Out => matches!(second, Mode::Out),
        Mode::Inout => matches!(second, Mode::Inout),
    }
}

/// Whether two ports have the same name, mode and type mark.
fn same_port(first: &Port<'_>, second: &Port<'_>) -> bool
    ensures { result ≡ spec.is_like first.now second.now }
{
    first.name().text() == second.name().text()
        && same_mode(first.mode(), second.mode())
        && first.mark().text() == second.mark().text()
}

/// Whether the ports of two lists are pairwise the same.
#[tactic(auto, unfolding(crate::specs::Interfaces::are_alike))]
fn same_ports(first: &[Port<'_>], second: &[Port<'_>]) -> bool
    ensures { result ≡ spec.are_alike first.now second.now }
{
    if first.len() != second.len() {
        return false;
    }
    for place in 0..first.len() {
        if !same_port(&first[place], &second[place]) {
            return false;
        }
    }
    true
}
