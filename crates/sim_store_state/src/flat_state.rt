//! The state of a design, in flat lists and shares.

ghost use Rattle.std.specs.Prelude.{ℕ, ◌≡◌, ◌↔◌, IsTrue, ◌<◌, ◌≤◌, ◌^◌, ◌++◌, ◌∷◌, [], Some, length, map, slice_set, MatchOption};
ghost use Rattle.std.specs.Prelude.{IfOk, OnOk, false, replicate};
ghost use Rattle.std.specs.Bool.{Decides};
ghost use Rattle.sim_flat_design.specs.Designs.{Design as design_value};
ghost use Rattle.std.specs.List.{All};
ghost use Rattle.sim_logic.specs.Time.{largest_time};
ghost use Rattle.sim_exec_code.specs.Codes.{AreCodesOf, FitsAll};
ghost use Rattle.sim_containers.specs.RowArray.{IsAt, joined};
ghost use Rattle.sim_standard.specs.Cycle.{updated};
ghost use Rattle.sim_standard.specs.Drivers as spec;
ghost use Rattle.sim_standard.specs.Initialization.{first_state};
ghost use Rattle.sim_standard.specs.Records.{changes_from, values_of};
ghost use Rattle.sim_standard.specs.State as states;
ghost use Rattle.sim_standard.specs.State.{State, driver_values, net_at, owned_at};
ghost use Rattle.sim_store_nets.specs.Nets.{row_from, sources_of};
ghost use Rattle.sim_store_state.specs.FlatState.{AreShares, IsConsistent, counts, flat_state_of, held};
ghost use Rattle.sim_store_state.specs.InTurn.{AreExecuted, IsExecutable, IsOther};
ghost use Rattle.sim_store_state.specs.Counting.{AreCountable, AreCounted};
ghost use Rattle.sim_store_state.specs.Log.{HasRoom, IsNext, IsRecorded};
ghost use Rattle.sim_store_state.specs.Times as times;

use crate::dividing::divided;
use crate::execution::{execute_in_shares, reading_of};
use crate::log::Log;
use crate::start::{FirstContents, first_contents};
use crate::updating::{next_of, take_active};
use sim_exec::{Codes, Frame, NetView};
use sim_flat_design::{Design, Held, Process};
use sim_logic::Logic;
use sim_store_nets::{UpdateLists, Values, are_views, views_at};
use sim_store_share::Share;
use sim_wave::Driver;
use std::alloc::{AllocError, Global};
use std::marker::Model;

/// The nets of a design, what its processes own, and what an update looks at. A cycle costs nothing
/// for what stays the same: a net that is not touched has no event, and each share has the times of
/// its drivers. Contracts see the nets with their sources, and what each process owns.
pub struct FlatState {
    values: Values,
    /// Each but the last has as many processes as the first. With one, no access has to look for its
    /// share.
    shares: Vec<Share>,
    lists: UpdateLists,
}

/// Written by hand so that code which drops it needs no proof about its contents.
impl Drop for FlatState {
    fn drop(self) {
        let FlatState {
            values,
            shares,
            lists,
        } = self;
        drop(values);
        drop(shares);
        drop(lists);
    }
}

impl Model for FlatState {
    ghost use Rattle.sim_store_state.specs.FlatState.{FlatState, IsConsistent, held};

    ghost Value = { FlatState };

    ghost view = { λ s. held s.values s.shares.items s.lists };

    ghost invariant = { λ s. IsConsistent s.values s.shares.items s.lists };
}

/// The part of a state that a process sees: the nets that it reads, and what it owns.
#[derive(Drop)]
pub struct Part {
    pub views: Vec<NetView>,
    pub drivers: Vec<Driver>,
    pub variables: Vec<Held>,
}

/// Copies of drivers.
fn copied(alloc: Global, drivers: &[Driver]) -> Result<Vec<Driver>, AllocError>
    ensures { IfOk result (λ v. v.items ≡ drivers.now) }
{
    let mut copy = Vec::with_capacity(alloc, drivers.len())?;
    for driver in drivers {
        copy.push(driver.try_copy()?)?;
    }
    Ok(copy)
}

/// Whether two drivers have the same value and the same pending transactions.
fn is_same(driver: &Driver, other: &Driver) -> bool
    ensures { Decides result (driver.now ≡ other.now) }
{
    driver.same(other)
}

/// Whether these are the same drivers, in the same order.
fn are_same(drivers: &[Driver], others: &[Driver]) -> bool
    ensures { Decides result (drivers.now ≡ others.now) }
{
    drivers.len() == others.len()
        && drivers
            .iter()
            .zip(others)
            .all(|(driver, other)| is_same(driver, other))
}

/// Whether these variables have the same values.
fn are_equal(variables: &[Held], others: &[Held]) -> bool
    ensures { Decides result (variables.now ≡ others.now) }
{
    variables == others
}

/// The share of the process with a number, and its place there.
#[inline(always)]
pub(crate) fn place_of(shares: &[Share], number: usize) -> (usize, usize)
    requires shares { AreShares (counts shares.now) }
    requires number { number < length (joined shares.now) }
    ensures { IsAt shares.now number result.0 result.1 }
{
    if shares.len() == 1 {
        return (0, number);
    }
    let each = shares[0].len();
    (number / each, number % each)
}

/// The drivers and variables of the process with a number.
fn owned(shares: &[Share], number: usize) -> (&[Driver], &[Held])
    requires shares { AreShares (counts shares.now) }
    requires number { number < length (joined shares.now) }
    ensures { record { drivers = result.0.now; variables = result.1.now } ≡ owned_at (joined shares.now) number }
{
    let (share, place) = place_of(shares, number);
    shares[share].owned(place)
}

/// Replaces what the process with a number owns.
fn put_owned(shares: &mut [Share], number: usize, drivers: &mut [Driver], variables: &mut [Held])
    requires shares { AreShares (counts shares.old) }
    requires number { number < length (joined shares.old) }
    requires drivers { length drivers.old ≡ length (owned_at (joined shares.old) number).drivers }
    requires variables { length variables.old ≡ length (owned_at (joined shares.old) number).variables }
    ensures owned { joined shares.new ≡ slice_set (joined shares.old) number (record { drivers = drivers.old; variables = variables.old }) }
    ensures counts { counts shares.new ≡ counts shares.old }
{
    let (share, place) = place_of(shares, number);
    shares[share].put(place, drivers, variables);
}

/// The values of the nets of a design whose drivers have these values, and what an update looks at.
fn first_nets(
    alloc: Global,
    design: &Design,
    driving: Vec<Logic>,
) -> Result<(Values, UpdateLists), AllocError>
    ensures values { IfOk result (λ r. r.0.present ≡ map (row_from driving.items) (sources_of design.now.nets)) }
    ensures before { IfOk result (λ r. r.0.before ≡ r.0.present) }
    ensures sources { IfOk result (λ r. r.1.sources ≡ sources_of design.now.nets) }
    ensures driving { IfOk result (λ r. r.1.driving ≡ driving.items) }
    ensures touched { IfOk result (λ r. r.1.touched ≡ replicate (length r.1.sources) false) }
{
    let values = Values::first(alloc, design.nets(), driving.as_slice())?;
    let lists = UpdateLists::first(alloc, design, driving)?;
    Ok((values, lists))
}

impl FlatState {
    /// The state of a design before any process is executed: each driver has its initial value,
    /// each net the value of its sources (14.7.5.2).
    pub fn first(alloc: Global, design: &Design) -> Result<FlatState, AllocError>
        ensures { IfOk result (λ s. s ≡ flat_state_of design.now (first_state design.now)) }
    {
        let FirstContents { share, driving } = first_contents(alloc, design)?;
        let (values, lists) = first_nets(alloc, design, driving)?;
        let shares = Vec::from_array(alloc, [share])?;
        Ok(FlatState {
            values,
            shares,
            lists,
        })
    }

    /// The same state, with what the processes own divided into at most this many shares, if it is in
    /// one. Drivers and variables are moved, not copied.
    pub fn divide(self, alloc: Global, parts: usize) -> Result<FlatState, AllocError>
        ensures { IfOk result (λ s. s ≡ self) }
    {
        let FlatState {
            values,
            shares,
            lists,
        } = self;
        let shares = divided(alloc, shares, parts)?;
        Ok(FlatState {
            values,
            shares,
            lists,
        })
    }

    /// The parts that hold it.
    pub fn into_parts(self) -> (Values, Vec<Share>, UpdateLists)
        ensures state { self ≡ held result.0 result.1.items result.2 }
        ensures consistent { IsConsistent result.0 result.1.items result.2 }
    {
        let FlatState {
            values,
            shares,
            lists,
        } = self;
        (values, shares, lists)
    }

    /// The state that these hold.
    pub fn of_parts(values: Values, shares: Vec<Share>, lists: UpdateLists) -> FlatState
        requires { IsConsistent values shares.items lists }
        ensures { result ≡ held values shares.items lists }
    {
        FlatState {
            values,
            shares,
            lists,
        }
    }

    /// The value of the net with a number; `None` if out of range.
    pub fn value(&self, net: usize) -> Option<Logic>
        ensures { MatchOption result (length self.now.nets ≤ net) (λ v. (net < length self.now.nets) × (v ≡ (net_at self.now.nets net).value)) }
    {
        if net < self.values.len() {
            Some(self.values.seen().values[net])
        } else {
            None
        }
    }

    /// Copies the part of the process with a number, which reads these nets. Empty lists take no
    /// memory.
    pub fn part(&self, alloc: Global, number: usize, reads: &[usize]) -> Result<Part, AllocError>
        requires { number < length self.now.owned }
        ensures views { IfOk result (λ r. r.views.items ≡ map (net_at self.now.nets) reads.now) }
        ensures owned { IfOk result (λ r. record { drivers = r.drivers.items; variables = r.variables.items } ≡ owned_at self.now.owned number) }
    {
        let seen = self.values.seen();
        let views = views_at(alloc, seen.values, seen.values_before, reads)?;
        let (drivers, variables) = owned(self.shares.as_slice(), number);
        let drivers = copied(alloc, drivers)?;
        let variables = Vec::from_slice(alloc, variables)?;
        Ok(Part {
            views,
            drivers,
            variables,
        })
    }

    /// Whether this is the part of the process with a number, which reads these nets. It takes no
    /// memory.
    pub fn is_part(
        &self,
        number: usize,
        reads: &[usize],
        views: &[NetView],
        variables: &[Held],
        drivers: &[Driver],
    ) -> bool
        requires { number < length self.now.owned }
        ensures { IsTrue result ↔ ((views.now ≡ map (net_at self.now.nets) reads.now)
            × (record { drivers = drivers.now; variables = variables.now } ≡ owned_at self.now.owned number)) }
    {
        let seen = self.values.seen();
        if !are_views(seen.values, seen.values_before, reads, views) {
            return false;
        }
        let (own, held) = owned(self.shares.as_slice(), number);
        if !are_same(drivers, own) {
            return false;
        }
        are_equal(variables, held)
    }

    /// Replaces what the process with a number owns. Its drivers have the values that they had. It
    /// takes no memory.
    pub fn put(&mut self, number: usize, drivers: Vec<Driver>, variables: Vec<Held>)
        requires at { number < length self.old.owned }
        requires drivers { length drivers.items ≡ length (owned_at self.old.owned number).drivers }
        requires values { driver_values drivers.items ≡ driver_values (owned_at self.old.owned number).drivers }
        requires variables { length variables.items ≡ length (owned_at self.old.owned number).variables }
        ensures { self.new ≡ record self.old { owned = slice_set self.old.owned number (record { drivers = drivers.items; variables = variables.items }) } }
    {
        let mut drivers = drivers;
        let mut variables = variables;
        put_owned(
            self.shares.as_mut_slice(),
            number,
            drivers.as_mut_slice(),
            variables.as_mut_slice(),
        );
    }

    /// The time of the next cycle, in femtoseconds (14.7.5.1; 14.7.5.3 g, h.5); `None` if nothing is
    /// pending. It looks only at drivers for whose times there was no memory.
    #[inline(always)]
    pub fn next(&mut self) -> Result<Option<u64>, AllocError>
        ensures same { self.new ≡ self.old }
        ensures value { IfOk result (λ next. next ≡ spec.next_time (states.all_drivers self.old.owned)) }
        ensures least { IfOk result (λ next. times.IsNext (states.all_drivers self.old.owned) next) }
    {
        next_of(self.shares.as_mut_slice())
    }

    /// The update at the time of the next cycle (14.7.5.3 c, d): drivers take the transactions of
    /// that time, and nets the values of their sources. It looks only at drivers that take a
    /// transaction, and at the nets of those whose value changes. These changes are counted, and
    /// appended to a log that has room for them, as a record with this delta number.
    pub fn update(&mut self, time: u64, delta: u64, log: &mut Log, totals: &mut [u64])
        requires time { spec.next_time (states.all_drivers self.old.owned) ≡ Some time }
        requires few { length self.old.nets < 2 ^ 32 }
        requires next { IsNext log.old.last time delta }
        requires room { HasRoom log.old (length self.old.nets) }
        requires countable { AreCountable (length self.old.nets) totals.old }
        ensures state { (design : design_value) (s : State) → self.old ≡ flat_state_of design s → self.new ≡ flat_state_of design (updated design s time) }
        ensures recorded { IsRecorded log.old log.new (record { time = time; delta = delta; changes = changes_from 0 self.new.nets }) }
        ensures counted { AreCounted (changes_from 0 self.new.nets) totals.old totals.new }
    {
        // The present values become the values before this cycle.
        self.values.end_events(&self.lists);
        // c) Each active driver takes its transaction.
        take_active(self.shares.as_mut_slice(), time, &mut self.lists);
        // d) Nets of changed drivers take the values of their sources.
        log.append(time, delta, &mut self.values, &self.lists, totals);
    }

    /// Executes these processes in place, in this order, by their codes (14.7.5.3 f, h). If allocation
    /// fails, some may have been executed, and none must be executed again.
    #[inline(always)]
    pub fn execute(
        &mut self,
        alloc: Global,
        processes: &[Process],
        numbers: &[usize],
        time: u64,
        codes: &Codes,
        frame: &mut Frame,
    ) -> Result<(), AllocError>
        requires time { time ≤ largest_time }
        requires codes { AreCodesOf processes.now codes.now }
        requires frame { FitsAll codes.now.codes frame.old }
        requires each { All (IsExecutable processes.now time self.old.owned) numbers.now }
        ensures frame { frame.new ≡ frame.old }
        ensures kept { self.new ≡ record self.old { owned = self.new.owned } }
        ensures others { (p : ℕ) → IsOther numbers.now p → owned_at self.new.owned p ≡ owned_at self.old.owned p }
        ensures ok { OnOk result (AreExecuted processes.now time numbers.now self.old self.new) }
    {
        let reading = reading_of(&self.values, processes, codes, time);
        execute_in_shares(alloc, self.shares.as_mut_slice(), &reading, numbers, frame)
    }

    /// Whether at least `least` of these processes are not known to lack the edge without which they
    /// do nothing. It looks at no more of them than it needs to. It is a hint for dividing work among
    /// threads, and nothing is promised of it.
    pub fn has_busy(&self, least: usize, numbers: &[usize], codes: &Codes) -> bool {
        let seen = self.values.seen();
        let mut missing = least;
        let mut place = 0;
        while missing > 0 && place < numbers.len() {
            match codes.count_idle(&seen, &numbers[place..]) {
                0 => {
                    missing -= 1;
                    place += 1;
                }
                idle => place += idle,
            }
        }
        missing == 0
    }

    /// Appends the value of each net, as the record of the initialization, to a log that has room
    /// for it.
    pub fn record_all(&self, log: &mut Log, time: u64, delta: u64)
        requires few { length self.now.nets < 2 ^ 32 }
        requires next { IsNext log.old.last time delta }
        requires room { HasRoom log.old (length self.now.nets) }
        ensures { IsRecorded log.old log.new (record { time = time; delta = delta; changes = values_of self.now.nets }) }
    {
        log.append_all(time, delta, self.values.seen().values);
    }
}
