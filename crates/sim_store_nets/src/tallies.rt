//! The values of the sources of nets that have many (IEEE 1076-2008, 4.6, 14.7.3.3).

ghost use Rattle.std.specs.Prelude.{ℕ, ◌≡◌, ◌<◌, [], length, fold, slice_index_or, IfSome};
ghost use Rattle.sim_logic.specs.declared.logic.Logic as logic;
ghost use Rattle.sim_logic.specs.Tables.{resolution_table};
ghost use Rattle.sim_store_nets.specs.Tallies.{TallyLists, noted, set_all, set_one};

use crate::tally::Tally;
use sim_logic::Logic;
use sqlite_items::Items;
use std::alloc::Global;
use std::marker::Model;

/// The values of the sources of each net that has many, and where those of each driver are among
/// them. A driver that changes costs a constant for each net of which it is a source. Without nets
/// of many sources it takes no memory.
pub struct Tallies {
    /// By net; empty for a net with few sources.
    rows: Vec<Tally>,
    /// By driver: a net and a place among its sources.
    places: Vec<Items<(usize, usize)>>,
}

/// Written by hand so that code which drops it needs no proof about its contents.
impl Drop for Tallies {
    fn drop(self) {
        let Tallies { rows, places } = self;
        drop(rows);
        drop(places);
    }
}

impl Model for Tallies {
    ghost use Rattle.sim_store_nets.specs.Tallies.{TallyLists};

    ghost Value = { TallyLists };

    ghost view = { λ t. record { rows = t.rows.items; places = t.places.items } };
}

/// The value at a place of a net becomes this one, if there is such a place.
fn set_one(rows: &mut [Tally], place: (usize, usize), value: Logic)
    ensures { rows.new ≡ set_one place value rows.old }
{
    if place.0 < rows.len() {
        rows[place.0].set(place.1, value);
    }
}

/// The values at these places become this one.
fn set_each(rows: &mut [Tally], places: &[(usize, usize)], value: Logic)
    ensures { rows.new ≡ set_all places.now value rows.old }
{
    for place in places {
        set_one(rows, *place, value);
    }
}

impl Tallies {
    /// No values, for a design without nets of many sources.
    pub fn none(alloc: Global) -> Tallies
        ensures { result ≡ record { rows = []; places = [] } }
    {
        Tallies {
            rows: Vec::new(alloc),
            places: Vec::new(alloc),
        }
    }

    /// These values by net, and these places by driver.
    pub fn of(rows: Vec<Tally>, places: Vec<Items<(usize, usize)>>) -> Tallies
        ensures { result ≡ record { rows = rows.items; places = places.items } }
    {
        Tallies { rows, places }
    }

    /// Notes the value of a driver that is among the sources of which values are kept. It is not
    /// inlined, so that other drivers cost little.
    #[inline(never)]
    fn note_places(&mut self, driver: usize, value: Logic)
        requires { driver < length self.old.places }
        ensures { self.new ≡ noted self.old driver value }
    {
        set_each(
            self.rows.as_mut_slice(),
            self.places[driver].as_slice(),
            value,
        );
    }

    /// Notes the value of a driver. Without nets of many sources it is one comparison.
    #[inline(always)]
    pub fn note(&mut self, driver: usize, value: Logic)
        ensures { self.new ≡ noted self.old driver value }
    {
        if driver < self.places.len() {
            self.note_places(driver, value);
        }
    }

    /// The values of the sources of a net, resolved from `'Z'` on; `None` if they are not kept.
    pub fn resolved(&self, net: usize) -> Option<Logic>
        ensures some { IfSome result (λ v. 0 < length (slice_index_or self.now.rows net [])) }
        ensures value { IfSome result (λ v. v ≡ fold resolution_table logic.Logic.Z (slice_index_or self.now.rows net [])) }
    {
        if net >= self.rows.len() {
            return None;
        }
        if self.rows[net].is_empty() {
            return None;
        }
        Some(self.rows[net].resolved())
    }
}
