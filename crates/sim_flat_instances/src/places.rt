//! Maps from names and numbers to positions.

ghost use Rattle.std.specs.Prelude.{◌≡◌, ◌==◌, ◌&&◌, ℕ, List, [], OnOk};
ghost use Rattle.std.specs.Option.{option_or};
ghost use Rattle.std.specs.Str.{bytes_eq};
ghost use Rattle.sim_flat_instances.specs.Places as spec;

use indexmap::IndexMap;
use std::alloc::{AllocError, Global};
use std::marker::Model;

/// A map from names to positions.
pub struct Places<'a> {
    places: IndexMap<&'a [u8], usize>,
}

/// Written by hand so that code which drops it needs no proof about its contents.
impl<'a> Drop for Places<'a> {
    fn drop(self) {
        let Places { places } = self;
        drop(places);
    }
}

impl<'a> Model for Places<'a> {
    ghost use Rattle.std.specs.Prelude.{ℕ, List, map};

    ghost Value = { List (List ℕ × ℕ) };

    ghost view = { λ s. map (λ e. (e.0.now, e.1)) s.places.entries };
}

impl<'a> Places<'a> {
    /// An empty map.
    pub fn new(alloc: Global) -> Places<'a>
        ensures { result ≡ [] }
    {
        Places {
            places: IndexMap::new(alloc),
        }
    }

    /// The position of a name.
    pub fn find(&self, name: &[u8]) -> Option<usize>
        ensures { result ≡ spec.place_of self.now name.now }
    {
        self.places.get(name).copied()
    }

    /// Sets the position of a name, and replaces the previous one.
    pub fn put(&mut self, name: &'a [u8], place: usize) -> Result<(), AllocError>
        ensures { OnOk result ((n : List ℕ) → spec.place_of self.new n ≡ option_or (spec.where_at (bytes_eq n name.now) place) (spec.place_of self.old n)) }
    {
        self.places.insert(name, place)?;
        Ok(())
    }

    /// Sets the position of a name, unless it has one.
    pub fn put_first(&mut self, name: &'a [u8], place: usize) -> Result<(), AllocError>
        ensures { OnOk result ((n : List ℕ) → spec.place_of self.new n ≡ option_or (spec.place_of self.old n) (spec.where_at (bytes_eq n name.now) place)) }
    {
        if self.find(name).is_some() {
            return Ok(());
        }
        self.put(name, place)
    }
}

/// A map from pairs of names to positions.
pub struct PairPlaces<'a> {
    places: IndexMap<(&'a [u8], &'a [u8]), usize>,
}

/// Written by hand so that code which drops it needs no proof about its contents.
impl<'a> Drop for PairPlaces<'a> {
    fn drop(self) {
        let PairPlaces { places } = self;
        drop(places);
    }
}

impl<'a> Model for PairPlaces<'a> {
    ghost use Rattle.std.specs.Prelude.{ℕ, List, map};

    ghost Value = { List ((List ℕ × List ℕ) × ℕ) };

    ghost view = { λ s. map (λ e. ((e.0.0.now, e.0.1.now), e.1)) s.places.entries };
}

impl<'a> PairPlaces<'a> {
    /// An empty map.
    pub fn new(alloc: Global) -> PairPlaces<'a>
        ensures { result ≡ [] }
    {
        PairPlaces {
            places: IndexMap::new(alloc),
        }
    }

    /// The position of a pair of names.
    pub fn find(&self, first: &[u8], second: &[u8]) -> Option<usize>
        ensures { result ≡ spec.place_of_both self.now first.now second.now }
    {
        self.places.get(&(first, second)).copied()
    }

    /// Sets the position of a pair of names, and replaces the previous one.
    pub fn put(&mut self, first: &'a [u8], second: &'a [u8], place: usize) -> Result<(), AllocError>
        ensures { OnOk result ((n m : List ℕ) → spec.place_of_both self.new n m
            ≡ option_or (spec.where_at (bytes_eq n first.now && bytes_eq m second.now) place) (spec.place_of_both self.old n m)) }
    {
        self.places.insert((first, second), place)?;
        Ok(())
    }
}

/// A map from numbers to positions.
pub struct NumberPlaces {
    places: IndexMap<usize, usize>,
}

/// Written by hand so that code which drops it needs no proof about its contents.
impl Drop for NumberPlaces {
    fn drop(self) {
        let NumberPlaces { places } = self;
        drop(places);
    }
}

impl Model for NumberPlaces {
    ghost use Rattle.std.specs.Prelude.{ℕ, List};

    ghost Value = { List (ℕ × ℕ) };

    ghost view = { λ s. s.places.entries };
}

impl NumberPlaces {
    /// An empty map.
    pub fn new(alloc: Global) -> NumberPlaces
        ensures { result ≡ [] }
    {
        NumberPlaces {
            places: IndexMap::new(alloc),
        }
    }

    /// The position of a number.
    pub fn find(&self, number: usize) -> Option<usize>
        ensures { result ≡ spec.place_of_number self.now number }
    {
        self.places.get(&number).copied()
    }

    /// Sets the position of a number, and replaces the previous one.
    fn put(&mut self, number: usize, place: usize) -> Result<(), AllocError>
        ensures { OnOk result ((n : ℕ) → spec.place_of_number self.new n
            ≡ option_or (spec.where_at (number == n) place) (spec.place_of_number self.old n)) }
    {
        self.places.insert(number, place)?;
        Ok(())
    }

    /// Sets the position of a number, unless it has one.
    pub fn put_first(&mut self, number: usize, place: usize) -> Result<(), AllocError>
        ensures { OnOk result ((n : ℕ) → spec.place_of_number self.new n
            ≡ option_or (spec.place_of_number self.old n) (spec.where_at (number == n) place)) }
    {
        if self.find(number).is_some() {
            return Ok(());
        }
        self.put(number, place)
    }
}
