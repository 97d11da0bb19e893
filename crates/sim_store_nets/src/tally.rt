//! The values of the sources of one net, counted (IEEE 1076-2008, 4.6, 14.7.3.3).

ghost use Rattle.std.specs.Prelude.{ℕ, ◌≡◌, ◌<◌, ◌+◌, ◌-◌, ◌^◌, [], length, fold, slice_set, IfOk, IsTrue, ◌↔◌};
ghost use Rattle.sim_logic.specs.declared.logic.Logic as logic;
ghost use Rattle.sim_logic.specs.Tables.{column_of, resolution_table};
ghost use Rattle.sim_store_nets.specs.Tallies.{IsTally, count_at, is_positive, resolution_by, times};

use sim_logic::Logic;
use std::alloc::{AllocError, Global};
use std::marker::Model;

/// The values of the sources of a net, and how many sources have each value: a change of one source
/// takes no look at the others. Contracts see the values.
pub struct Tally {
    values: Vec<Logic>,
    /// The number of sources with each value, in the order in which the type declares the values.
    counts: Vec<usize>,
}

/// Written by hand so that code which drops it needs no proof about its contents.
impl Drop for Tally {
    fn drop(self) {
        let Tally { values, counts } = self;
        drop(values);
        drop(counts);
    }
}

impl Model for Tally {
    ghost use Rattle.std.specs.Prelude.{List};
    ghost use Rattle.sim_logic.specs.declared.logic.Logic.{Logic};
    ghost use Rattle.sim_store_nets.specs.Tallies.{IsTally};

    ghost Value = { List Logic };

    ghost view = { λ t. t.values.items };

    ghost invariant = { λ t. IsTally t.values.items t.counts.items };
}

/// One source more has a value.
fn raise(counts: &mut [usize], value: Logic)
    requires sized { length counts.old ≡ 9 }
    requires few { count_at counts.old value + 1 < 2 ^ 64 }
    ensures { counts.new ≡ slice_set counts.old (column_of value) (count_at counts.old value + 1) }
{
    counts[value as usize] += 1;
}

/// One source less has a value.
fn lower(counts: &mut [usize], value: Logic)
    requires sized { length counts.old ≡ 9 }
    requires some { 0 < count_at counts.old value }
    ensures { counts.new ≡ slice_set counts.old (column_of value) (count_at counts.old value - 1) }
{
    counts[value as usize] -= 1;
}

/// The value at a place becomes this one, if there is such a place, and the counts follow.
fn exchange(values: &mut [Logic], counts: &mut [usize], place: usize, value: Logic)
    requires tally { IsTally values.old counts.old }
    requires few { length values.old < 2 ^ 64 }
    ensures tally { IsTally values.new counts.new }
    ensures values { values.new ≡ slice_set values.old place value }
{
    if place >= values.len() {
        return;
    }
    let before = values[place];
    lower(counts, before);
    raise(counts, value);
    values[place] = value;
}

/// Counts these values.
fn count_each(counts: &mut [usize], values: &[Logic])
    requires sized { length counts.old ≡ 9 }
    requires zero { (v : logic.Logic) → count_at counts.old v ≡ 0 }
    requires few { length values.now < 2 ^ 64 }
    ensures sized { length counts.new ≡ 9 }
    ensures counted { (v : logic.Logic) → count_at counts.new v ≡ times v values.now }
{
    for value in values {
        raise(counts, *value);
    }
}

/// How many of these values are each value.
fn counted(alloc: Global, values: &[Logic]) -> Result<Vec<usize>, AllocError>
    ensures sized { IfOk result (λ v. length v.items ≡ 9) }
    ensures counted { IfOk result (λ c. (v : logic.Logic) → count_at c.items v ≡ times v values.now) }
{
    let mut counts = Vec::from_elem(alloc, 0, 9)?;
    count_each(counts.as_mut_slice(), values);
    Ok(counts)
}

/// Whether there is a source with a value.
fn has(counts: &[usize], value: Logic) -> bool
    ensures { result ≡ is_positive (count_at counts.now value) }
{
    match counts.get(value as usize) {
        Some(count) => *count != 0,
        None => false,
    }
}

/// The resolution of values, by their counts (IEEE 1164, `resolution_table`).
fn resolution(counts: &[usize]) -> Logic
    ensures { result ≡ resolution_by counts.now }
{
    if has(counts, Logic::U) {
        return Logic::U;
    }
    if has(counts, Logic::X) {
        return Logic::X;
    }
    if has(counts, Logic::Dash) {
        return Logic::X;
    }
    if has(counts, Logic::Zero) {
        if has(counts, Logic::One) {
            return Logic::X;
        }
        return Logic::Zero;
    }
    if has(counts, Logic::One) {
        return Logic::One;
    }
    if has(counts, Logic::W) {
        return Logic::W;
    }
    if has(counts, Logic::L) {
        if has(counts, Logic::H) {
            return Logic::W;
        }
        return Logic::L;
    }
    if has(counts, Logic::H) {
        return Logic::H;
    }
    Logic::Z
}

impl Tally {
    /// No values. It takes no memory.
    pub fn none(alloc: Global) -> Tally
        ensures { result ≡ [] }
    {
        Tally {
            values: Vec::new(alloc),
            counts: Vec::new(alloc),
        }
    }

    /// These values, counted.
    pub fn of(alloc: Global, values: Vec<Logic>) -> Result<Tally, AllocError>
        ensures { IfOk result (λ t. t ≡ values.items) }
    {
        let counts = counted(alloc, values.as_slice())?;
        Ok(Tally { values, counts })
    }

    /// Whether there are no values.
    pub fn is_empty(&self) -> bool
        ensures { IsTrue result ↔ (self.now ≡ []) }
    {
        self.values.is_empty()
    }

    /// The value at a place becomes this one, if there is such a place.
    pub fn set(&mut self, place: usize, value: Logic)
        ensures { self.new ≡ slice_set self.old place value }
    {
        exchange(
            self.values.as_mut_slice(),
            self.counts.as_mut_slice(),
            place,
            value,
        );
    }

    /// The values, resolved from `'Z'` on. It looks at the counts alone.
    pub fn resolved(&self) -> Logic
        ensures { result ≡ fold resolution_table logic.Logic.Z self.now }
    {
        resolution(self.counts.as_slice())
    }
}
