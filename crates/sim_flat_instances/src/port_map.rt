//! Port maps: the actual of each port, and the faults (IEEE 1076-2008, 6.5.7).

ghost use Rattle.std.specs.Prelude.{◌≡◌, ◌<◌, ℕ, length, IfOk, OnOk, IfSome, slice_get};
ghost use Rattle.std.specs.Option.{option_copied, option_or};
ghost use Rattle.sim_flat_scope.specs.Faults.{earliest};
ghost use Rattle.sim_flat_scope.specs.Scopes.{means};
ghost use Rattle.sim_flat_instances.specs.PortMaps as spec;
ghost use Rattle.sim_flat_instances.specs.Places.{where_at, place_of_number};

use crate::interface::Interface;
use crate::places::NumberPlaces;
use sim_flat_scope::fault::note;
use sim_flat_scope::scope::look_up;
use sim_flat_scope::{Fault, Kind, Meaning, Port, Scope};
use sim_text_tree::declaration::Mode;
use sim_text_tree::name::Name;
use sim_text_tree::unit::{Actual, Association};
use std::alloc::{AllocError, Global};
use std::marker::Model;

/// The position of the port of an association, given the association's position in the port map
/// (IEEE 1076-2008, 6.5.7). A positional association, which has no formal, is for the port at its
/// own position; a named one is for the first port with the name of its formal. `None` if there is
/// none.
#[tactic(auto, unfolding(crate::specs::PortMaps::port_of))]
pub fn port_of(ports: &Interface<'_>, at: usize, formal: &Option<Name>) -> Option<usize>
    ensures port { result ≡ spec.port_of ports.now at formal.now }
    ensures within { IfSome result (λ place. place < length ports.now) }
{
    match formal {
        None => {
            if at < ports.ports().len() {
                Some(at)
            } else {
                None
            }
        }
        Some(name) => ports.place(name.text()),
    }
}

/// Records an association of a port, if it is the first.
fn note_first(firsts: &mut NumberPlaces, port: Option<usize>, at: usize) -> Result<(), AllocError>
    ensures { OnOk result ((p : ℕ) → place_of_number firsts.new p ≡ option_or (place_of_number firsts.old p) (where_at (spec.is_port port p) at)) }
{
    match port {
        Some(place) => firsts.put_first(place, at),
        None => Ok(()),
    }
}

/// The position in the map of the first association of each port that has one.
fn first_associations(
    alloc: Global,
    ports: &Interface<'_>,
    associations: &[Association],
) -> Result<NumberPlaces, AllocError>
    ensures { IfOk result (λ firsts. (p : ℕ) → place_of_number firsts p ≡ spec.first_of_port ports.now p 0 associations.now) }
{
    let mut firsts = NumberPlaces::new(alloc);
    for (at, association) in associations.iter().enumerate() {
        note_first(&mut firsts, port_of(ports, at, &association.formal), at)?;
    }
    Ok(firsts)
}

/// The actual of the association at a position of the map.
fn actual_at(associations: &[Association], at: usize) -> Option<&Actual>
    ensures { option_copied result ≡ spec.actual_of (slice_get associations.now at) }
{
    match associations.get(at) {
        None => None,
        Some(association) => Some(&association.actual),
    }
}

/// The associations of the ports of an entity.
pub struct PortMap<'m, 'a> {
    ports: &'m Interface<'a>,
    associations: &'m [Association],
    firsts: NumberPlaces,
}

/// Written by hand so that code which drops it needs no proof about its contents.
impl<'m, 'a> Drop for PortMap<'m, 'a> {
    fn drop(self) {
        let PortMap {
            ports: _,
            associations: _,
            firsts,
        } = self;
        drop(firsts);
    }
}

impl<'m, 'a> Model for PortMap<'m, 'a> {
    ghost use Rattle.std.specs.Prelude.{◌≡◌, ℕ};
    ghost use Rattle.sim_flat_instances.specs.Places.{place_of_number};
    ghost use Rattle.sim_flat_instances.specs.PortMaps as spec;

    ghost Value = { spec.PortMap };

    ghost view = { λ m. record { ports = m.ports.now; associations = m.associations.now } };

    ghost invariant = { λ m. (p : ℕ) → place_of_number m.firsts p ≡ spec.first_of_port m.ports.now p 0 m.associations.now };
}

impl<'m, 'a> PortMap<'m, 'a> {
    ghost use Rattle.std.specs.Prelude.{◌≡◌, IfOk};
    ghost use Rattle.std.specs.List.{list_any};
    ghost use Rattle.std.specs.Option.{option_copied};
    ghost use Rattle.sim_flat_scope.specs.Faults.{earliest};
    ghost use Rattle.sim_flat_scope.specs.Scopes.{means};
    ghost use Rattle.sim_flat_instances.specs.PortMaps as spec;

    /// These associations of these ports.
    pub fn new(
        alloc: Global,
        ports: &'m Interface<'a>,
        associations: &'m [Association],
    ) -> Result<PortMap<'m, 'a>, AllocError>
        ensures { IfOk result (λ m. m ≡ record { ports = ports.now; associations = associations.now }) }
    {
        let firsts = first_associations(alloc, ports, associations)?;
        Ok(PortMap {
            ports,
            associations,
            firsts,
        })
    }

    /// The position of the first association of the port at a position.
    fn first(&self, place: usize) -> Option<usize>
        ensures { result ≡ spec.first_of_port self.now.ports place 0 self.now.associations }
    {
        self.firsts.find(place)
    }

    /// The actual of the port at a position; its first association counts.
    #[tactic(auto, unfolding(crate::specs::PortMaps::associated))]
    fn associated(&self, place: usize) -> Option<&'m Actual>
        ensures { option_copied result ≡ spec.associated self.now.ports self.now.associations place }
    {
        match self.first(place) {
            None => None,
            Some(at) => actual_at(self.associations, at),
        }
    }

    /// Records the faults of the association at a position of the map.
    #[tactic(auto, using(sim_flat_scope::proofs::Faults::of_both), unfolding(crate::specs::PortMaps::association_faults))]
    fn check_association(
        &self,
        inner: &Scope<'_>,
        outer: &Scope<'_>,
        at: usize,
        association: &Association,
        first: &mut Option<Fault>,
    )
        ensures { first.new ≡ earliest first.old (spec.association_faults (means inner.now outer.now) self.now at association.now) }
    {
        match port_of(self.ports, at, &association.formal) {
            None => check_stray(inner, outer, association, first),
            Some(place) => {
                check_twice(&association.formal, self.first(place), at, first);
                let mode = mode_at(self.ports.ports(), place);
                check_actual(inner, outer, mode, &association.actual, first);
            }
        }
    }

    /// Records the faults of the associations.
    fn check_associations(&self, inner: &Scope<'_>, outer: &Scope<'_>, first: &mut Option<Fault>)
        ensures { first.new ≡ earliest first.old (spec.associations_faults (means inner.now outer.now) self.now 0 self.now.associations) }
    {
        for (at, association) in self.associations.iter().enumerate() {
            self.check_association(inner, outer, at, association, first);
        }
    }

    /// Whether a port that must have an actual has none.
    fn misses_one(&self) -> bool
        ensures { result ≡ list_any (spec.is_missed self.now) (spec.required_from 0 self.now.ports) }
    {
        let places = self.ports.required();
        for place in places {
            if is_open(self.associated(*place)) {
                return true;
            }
        }
        false
    }

    /// Records a fault at the label of the instance if ports that must have an actual have none:
    /// one fault for all of them.
    fn check_missing(&self, label: usize, first: &mut Option<Fault>)
        ensures { first.new ≡ earliest first.old (spec.missing_faults self.now label 0 self.now.ports) }
    {
        if self.misses_one() {
            note(first, Kind::PortMissing, label);
        }
    }

    /// Records the faults of the port map of an instance with this label.
    #[tactic(auto, using(sim_flat_scope::proofs::Faults::of_both), unfolding(crate::specs::PortMaps::port_map_faults))]
    pub fn check(
        &self,
        inner: &Scope<'_>,
        outer: &Scope<'_>,
        label: &Name,
        first: &mut Option<Fault>,
    )
        ensures { first.new ≡ earliest first.old (spec.port_map_faults (means inner.now outer.now) self.now label.now.at) }
    {
        self.check_associations(inner, outer, first);
        self.check_missing(label.at(), first);
    }
}

/// Whether a port is unconnected.
fn is_open(actual: Option<&Actual>) -> bool
    ensures { result ≡ spec.is_open (option_copied actual.entry) }
{
    match actual {
        None | Some(Actual::Open { .. }) => true,
        Some(Actual::Named(_) | Actual::Literal { .. }) => false,
    }
}

/// Records a fault if the actual is a port with a mode that the formal does not allow.
#[tactic(auto, unfolding(sim_flat_scope::specs::Faults::earliest))]
fn check_modes(formal: Option<Mode>, mode: Mode, at: usize, first: &mut Option<Fault>)
    ensures { first.new ≡ earliest first.old (spec.port_clash formal mode at) }
{
    match (formal, mode) {
        (Some(Mode::In | Mode::Inout), Mode::Out) | (Some(Mode::Out | Mode::Inout), Mode::In) => {
            note(first, Kind::ModeClash, at);
        }
        (Some(_) | None, _) => {}
    }
}

/// Records the fault of an actual that is a name.
#[tactic(auto, unfolding(crate::specs::PortMaps::named_faults, sim_flat_scope::specs::Faults::earliest))]
fn check_named(formal: Option<Mode>, at: usize, meaning: Option<Meaning>, first: &mut Option<Fault>)
    ensures { first.new ≡ earliest first.old (spec.named_faults formal at meaning) }
{
    match meaning {
        None => note(first, Kind::Unknown, at),
        Some(Meaning::Port { mode, .. }) => check_modes(formal, mode, at, first),
        Some(Meaning::Signal { .. }) => {}
        Some(_) => note(first, Kind::WrongKind, at),
    }
}

/// Records a fault if the actual is a literal and the port is not of mode in.
#[tactic(auto, unfolding(sim_flat_scope::specs::Faults::earliest))]
fn check_literal(formal: Option<Mode>, at: usize, first: &mut Option<Fault>)
    ensures { first.new ≡ earliest first.old (spec.literal_faults formal at) }
{
    match formal {
        Some(Mode::Out | Mode::Inout) => note(first, Kind::ModeClash, at),
        Some(Mode::In) | None => {}
    }
}

/// Records the faults of an actual for a port of this mode.
#[tactic(auto, unfolding(crate::specs::PortMaps::actual_faults, sim_flat_scope::specs::Faults::earliest))]
fn check_actual(
    inner: &Scope<'_>,
    outer: &Scope<'_>,
    formal: Option<Mode>,
    actual: &Actual,
    first: &mut Option<Fault>,
)
    ensures { first.new ≡ earliest first.old (spec.actual_faults (means inner.now outer.now) formal actual.now) }
{
    match actual {
        Actual::Named(name) => {
            check_named(formal, name.at(), look_up(inner, outer, name.text()), first);
        }
        Actual::Literal { at, .. } => check_literal(formal, *at, first),
        Actual::Open { .. } => {}
    }
}

/// Where an actual starts.
fn actual_start(actual: &Actual) -> usize
    ensures { result ≡ spec.actual_start actual.now }
{
    match actual {
        Actual::Named(name) => name.at(),
        Actual::Literal { at, .. } | Actual::Open { at } => *at,
    }
}

/// The mode of the port at a position.
fn mode_at(ports: &[Port<'_>], place: usize) -> Option<Mode>
    ensures { result ≡ spec.mode_of (slice_get ports.now place) }
{
    match ports.get(place) {
        None => None,
        Some(port) => Some(port.mode()),
    }
}

/// Records the faults of an association that has no port.
#[tactic(auto, using(sim_flat_scope::proofs::Faults::of_both), unfolding(sim_flat_scope::specs::Faults::earliest))]
fn check_stray(
    inner: &Scope<'_>,
    outer: &Scope<'_>,
    association: &Association,
    first: &mut Option<Fault>,
)
    ensures { first.new ≡ earliest first.old (spec.stray_faults (means inner.now outer.now) association.now.formal association.now.actual) }
{
    match &association.formal {
        None => note(first, Kind::Unknown, actual_start(&association.actual)),
        Some(formal) => {
            note(first, Kind::Unknown, formal.at());
            check_actual(inner, outer, None, &association.actual, first);
        }
    }
}

/// Records a fault if the port of a formal already has an association.
#[tactic(auto, unfolding(sim_flat_scope::specs::Faults::earliest))]
fn check_twice(formal: &Option<Name>, known: Option<usize>, at: usize, first: &mut Option<Fault>)
    ensures { first.new ≡ earliest first.old (spec.twice formal.now known at) }
{
    if let Some(name) = formal {
        if let Some(known) = known {
            if known < at {
                note(first, Kind::PortTwice, name.at());
            }
        }
    }
}
