//! What an update looks at beside drivers and nets (IEEE 1076-2008, 14.7.3).

ghost use Rattle.std.specs.Prelude.{[], ◌≡◌, ◌<◌, false, length, replicate, slice_index_or, IfOk};
ghost use Rattle.sim_containers.specs.Numbers.{members};
ghost use Rattle.sim_store_nets.specs.Lists.{IsNoted, IsNotedAlone, net_from};
ghost use Rattle.sim_store_nets.specs.Nets.{sources_of};

use crate::nets::resolved_value;
use crate::sets::{insert_each, replace_by};
use crate::tallies::Tallies;
use crate::wiring::connections;
use sim_containers::{NumberList, NumberSet, RowArray};
use sim_flat_design::{Design, Source};
use sim_logic::Logic;
use std::alloc::{AllocError, Global};
use std::marker::Model;

/// The value of each driver, the nets that it reaches, and the nets that may have an event. Contracts
/// see the sources of the nets, the values of the drivers, and which nets are touched or gathered.
pub struct UpdateLists {
    /// The value of each driver, so that resolving nets needs no look at the drivers.
    pub(crate) driving: Vec<Logic>,
    /// By net.
    pub(crate) sources: RowArray<Source>,
    /// The nets of each driver.
    pub(crate) fan_out: RowArray<usize>,
    /// The nets that may have an event.
    pub(crate) touched: NumberList,
    /// In which they are gathered, if they are those of several drivers.
    pub(crate) gathered: NumberSet,
    /// The values of the sources of nets that have many.
    pub(crate) tallies: Tallies,
}

/// Written by hand so that code which drops it needs no proof about its contents.
impl Drop for UpdateLists {
    fn drop(self) {
        let UpdateLists {
            driving,
            sources,
            fan_out,
            touched,
            gathered,
            tallies,
        } = self;
        drop(driving);
        drop(sources);
        drop(fan_out);
        drop(touched);
        drop(gathered);
        drop(tallies);
    }
}

impl Model for UpdateLists {
    ghost use Rattle.sim_store_nets.specs.Lists.{Lists, AreListsOf};

    ghost Value = { Lists };

    ghost view = { λ l. record { sources = l.sources; driving = l.driving.items; touched = l.touched; gathered = l.gathered } };

    ghost invariant = { λ l. AreListsOf (record { sources = l.sources; driving = l.driving.items; touched = l.touched; gathered = l.gathered })
        l.fan_out l.tallies };
}

impl UpdateLists {
    /// The lists of a design whose drivers have these values, with no net that may have an event.
    pub fn first(
        alloc: Global,
        design: &Design,
        driving: Vec<Logic>,
    ) -> Result<UpdateLists, AllocError>
        ensures sources { IfOk result (λ l. l.sources ≡ sources_of design.now.nets) }
        ensures driving { IfOk result (λ l. l.driving ≡ driving.items) }
        ensures touched { IfOk result (λ l. l.touched ≡ replicate (length l.sources) false) }
    {
        let (sources, fan_out, tallies) = connections(alloc, design, driving.as_slice())?;
        let touched = NumberList::new(alloc, sources.len())?;
        let gathered = NumberSet::new(alloc, sources.len())?;
        Ok(UpdateLists {
            driving,
            sources,
            fan_out,
            touched,
            gathered,
            tallies,
        })
    }

    /// The number of drivers.
    #[inline(always)]
    pub fn drivers(&self) -> usize
        ensures { result ≡ length self.now.driving }
    {
        self.driving.len()
    }

    /// The numbers of the nets that may have an event, rising.
    #[inline(always)]
    pub fn touched(&self) -> &[usize]
        ensures { result.now ≡ members self.now.touched }
    {
        self.touched.numbers()
    }

    /// The sources of the net with a number.
    #[inline(always)]
    pub fn sources(&self, net: usize) -> &[Source]
        requires { net < length self.now.sources }
        ensures { result.now ≡ slice_index_or self.now.sources net [] }
    {
        self.sources.row(net)
    }

    /// The value of a net, resolved from those of its sources (14.7.3.2, 14.7.3.3).
    #[inline(always)]
    pub(crate) fn net_value(&self, net: usize) -> Logic
        requires { net < length self.now.sources }
        ensures { result ≡ net_from self.now net }
    {
        resolved_value(
            &self.tallies,
            net,
            self.sources.row(net),
            self.driving.as_slice(),
        )
    }

    /// From now on the values of several drivers are noted.
    #[inline(always)]
    pub fn begin(&mut self)
        ensures lists { self.new ≡ record self.old { gathered = self.new.gathered } }
        ensures none { self.new.gathered ≡ replicate (length self.old.sources) false }
    {
        self.gathered.clear();
    }

    /// Notes the value of a driver, among several. If it is a new one, its nets are gathered
    /// (14.7.3.2).
    #[inline(always)]
    pub fn note(&mut self, number: usize, value: Logic)
        requires { number < length self.old.driving }
        ensures { IsNoted number value self.old self.new }
    {
        if self.driving[number] != value {
            self.driving[number] = value;
            insert_each(&mut self.gathered, self.fan_out.row(number));
            self.tallies.note(number, value);
        }
    }

    /// The values of all drivers are noted: the nets that were gathered may have an event.
    #[inline(always)]
    pub fn finish(&mut self)
        ensures { self.new ≡ record self.old { touched = self.old.gathered } }
    {
        self.touched.set_from(&self.gathered);
    }

    /// Notes the value of the only driver that is active: its nets alone may have an event, if it is a
    /// new one.
    #[inline(always)]
    pub fn note_only(&mut self, number: usize, value: Logic)
        requires { number < length self.old.driving }
        ensures { IsNotedAlone number value self.old self.new }
    {
        if self.driving[number] == value {
            self.touched.clear();
            return;
        }
        self.driving[number] = value;
        replace_by(
            &mut self.touched,
            &mut self.gathered,
            self.fan_out.row(number),
        );
        self.tallies.note(number, value);
    }
}
