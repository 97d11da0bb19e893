//! Links: the actuals of the ports of an instance.

ghost use Rattle.std.specs.Prelude.{ℕ, ◌≡◌, IfOk, OnOk, OnErr, replicate, slice_set};
ghost use Rattle.sim_flat_blocks.specs.declared.links.Link.TheVariants.{Open};
ghost use Rattle.sim_flat_blocks.specs.Links as spec;

use indexmap::IndexMap;
use sim_logic::Logic;
use std::alloc::{AllocError, Global};
use std::marker::Model;

/// The actual of a port of an instance (IEEE 1076-2008, 6.5.6.3).
#[derive(Clone, Copy)]
pub enum Link {
    /// A port or signal of the architecture that contains the instance.
    To(usize),
    Constant(Logic),
    Open,
}

/// The link of each port of an instance, by position. The memory used is proportional to the number
/// of associations: that many of the first ports are in a list, and of the other ports only those
/// that are associated are kept, by position.
pub struct Links {
    ports: usize,
    /// The number of ports that are open or associated with a literal.
    unlinked: usize,
    first: Vec<Link>,
    others: IndexMap<usize, Link>,
}

/// Written by hand so that code which drops it needs no proof about its contents.
impl Drop for Links {
    fn drop(self) {
        let Links {
            ports: _,
            unlinked: _,
            first,
            others,
        } = self;
        drop(first);
        drop(others);
    }
}

impl Model for Links {
    ghost use Rattle.std.specs.Prelude.{◌≡◌, List};
    ghost use Rattle.sim_flat_blocks.specs.declared.links.Link.{Link};
    ghost use Rattle.sim_flat_blocks.specs.Links as spec;

    ghost Value = { List Link };

    ghost view = { λ l. spec.by_place l.first.items l.others.entries l.ports };

    ghost invariant = { λ l. l.unlinked ≡ spec.unlinked (spec.by_place l.first.items l.others.entries l.ports) };
}

/// The number of nets that a port with this link has of its own: one or none.
fn own(link: Link) -> usize
    ensures { result ≡ spec.own link }
{
    match link {
        Link::To(_) => 0,
        Link::Constant(_) | Link::Open => 1,
    }
}

/// A list of this many open links.
fn all_open(alloc: Global, count: usize) -> Result<Vec<Link>, AllocError>
    ensures { IfOk result (λ links. links.items ≡ replicate count Open) }
{
    let mut links = Vec::new(alloc);
    links.resize(count, Link::Open)?;
    Ok(links)
}

/// The stored link of a port that is not in the list.
fn other(others: &IndexMap<usize, Link>, place: usize) -> Link
    ensures { result ≡ spec.kept others.now.entries place }
{
    match others.get(&place) {
        Some(link) => *link,
        None => Link::Open,
    }
}

/// Stores the link of the port at this position.
fn keep(
    first: &mut Vec<Link>,
    others: &mut IndexMap<usize, Link>,
    place: usize,
    link: Link,
) -> Result<(), AllocError>
    ensures kept { OnOk result ((ports : ℕ) → spec.by_place first.new.items others.new.entries ports
        ≡ slice_set (spec.by_place first.old.items others.old.entries ports) place link) }
    ensures left { OnErr result ((first.new.items ≡ first.old.items) × (others.new.entries ≡ others.old.entries)) }
{
    if place < first.len() {
        first[place] = link;
        return Ok(());
    }
    others.insert(place, link)?;
    Ok(())
}

impl Links {
    ghost use Rattle.std.specs.Prelude.{◌≡◌, IfOk, OnOk, replicate, slice_set};
    ghost use Rattle.sim_flat_blocks.specs.Blocks.{link_at};
    ghost use Rattle.sim_flat_blocks.specs.Links as spec;
    ghost use Rattle.sim_flat_blocks.specs.declared.links.Link.TheVariants.{Open};

    /// Open links for `ports` ports, at most `listed` of which are in the list.
    pub fn open(alloc: Global, ports: usize, listed: usize) -> Result<Links, AllocError>
        ensures { IfOk result (λ l. l ≡ replicate ports Open) }
    {
        let first = all_open(alloc, listed.min(ports))?;
        Ok(Links {
            ports,
            unlinked: ports,
            first,
            others: IndexMap::new(alloc),
        })
    }

    /// The link of the port at this position; open if there is no such port.
    pub fn get(&self, place: usize) -> Link
        ensures { result ≡ link_at self.now place }
    {
        if place >= self.ports {
            return Link::Open;
        }
        if place < self.first.len() {
            return self.first[place];
        }
        other(&self.others, place)
    }

    /// Sets the link of the port at this position, if there is one.
    pub fn put(&mut self, place: usize, link: Link) -> Result<(), AllocError>
        ensures { OnOk result (self.new ≡ slice_set self.old place link) }
    {
        if place >= self.ports {
            return Ok(());
        }
        let before = self.get(place);
        keep(&mut self.first, &mut self.others, place, link)?;
        self.unlinked = self.unlinked - own(before) + own(link);
        Ok(())
    }

    /// The number of ports that are open or associated with a literal.
    pub fn unlinked(&self) -> usize
        ensures { result ≡ spec.unlinked self.now }
    {
        self.unlinked
    }
}
