//! A time for each of some drivers, with fast access to the least time.

ghost use Rattle.std.specs.Prelude.{◌≡◌, ◌≢◌, ◌<◌, ◌⊎◌, ℕ, length, false, Option, None, Some, replicate, slice_index_or, slice_set};
ghost use Rattle.std.specs.Prelude.{IsTrue, OnOk, OnErr, IfOk, IfNone, IfSome, MatchOption};
ghost use Rattle.std.specs.BinaryHeap.{heap_items, IsHeap};
ghost use Rattle.sim_containers.specs.Times.{clear, cleared, due_at, earlier, earliest, is_at, those_at};
ghost use Rattle.sim_containers.specs.Numbers.{is_in};
ghost use Rattle.sim_containers.specs.Words.{IsOnly};
ghost use Rattle.sim_containers.specs.Entries.{entry_cmp, those_later, NoneBefore, StandsBut};

use crate::entries::{Heap, add_entry, drop_stale, is_time, take_least, top_time, trim};
use crate::numbers::NumberSet;
use std::alloc::{AllocError, Global};
use std::collections::BinaryHeap;
use std::marker::Model;

/// For each driver a time in femtoseconds, or none. The drivers whose time is `front_time` are in
/// the set `front`, so that the least time is fast where it comes again and again. Those with one
/// more time are in the set `later`. The heap has entries for all other times.
pub struct TimeQueue {
    times: Vec<Option<u64>>,
    front_time: u64,
    front: NumberSet,
    later_time: u64,
    later: NumberSet,
    heap: Heap,
}

/// Written by hand so that code which drops it needs no proof about its contents.
impl Drop for TimeQueue {
    fn drop(self) {
        let TimeQueue {
            times,
            front_time: _,
            front,
            later_time: _,
            later,
            heap,
        } = self;
        drop(times);
        drop(front);
        drop(later);
        drop(heap);
    }
}

impl Model for TimeQueue {
    ghost use Rattle.std.specs.Prelude.{List, ℕ, Option};
    ghost use Rattle.std.specs.BinaryHeap.{heap_items};
    ghost use Rattle.sim_containers.specs.Entries.{IsQueue};

    ghost Value = { List (Option ℕ) };

    ghost view = { λ queue. queue.times.items };

    ghost invariant = { λ queue. IsQueue queue.times.items queue.front_time queue.later_time queue.front queue.later (heap_items queue.heap) };
}

impl TimeQueue {
    /// A queue in which no driver has a time.
    pub fn new(alloc: Global, drivers: usize) -> Result<TimeQueue, AllocError>
        ensures { IfOk result (λ queue. queue ≡ replicate drivers None) }
    {
        let times = Vec::from_elem(alloc, None, drivers)?;
        let front = NumberSet::new(alloc, drivers)?;
        let later = NumberSet::new(alloc, drivers)?;
        Ok(TimeQueue {
            times,
            front_time: 0,
            front,
            later_time: 0,
            later,
            heap: BinaryHeap::new(alloc),
        })
    }

    /// Sets or clears the time of a driver. It takes no memory if `time` is that of the front,
    /// which is the time taken last, if times never fall. If allocation fails, nothing changes.
    pub fn put(&mut self, driver: usize, time: Option<u64>) -> Result<(), AllocError>
        requires { driver < length self.old }
        ensures ok { OnOk result (self.new ≡ slice_set self.old driver time) }
        ensures err { OnErr result (self.new ≡ self.old) }
    {
        let before = self.times[driver];
        if before == time {
            return Ok(());
        }
        if before.is_none() && is_time(time, self.front_time) {
            self.times[driver] = Some(self.front_time);
            self.front.insert(driver);
            return Ok(());
        }
        self.put_beyond(driver, time)
    }

    /// The same, for any time. It is out of line to keep the frequent cases short.
    #[inline(never)]
    fn put_beyond(&mut self, driver: usize, time: Option<u64>) -> Result<(), AllocError>
        requires { driver < length self.old }
        ensures ok { OnOk result (self.new ≡ slice_set self.old driver time) }
        ensures err { OnErr result (self.new ≡ self.old) }
    {
        self.choose_later(time);
        if self.is_put_later(driver, time) {
            return Ok(());
        }
        self.change(driver, time)
    }

    /// Puts a driver that has no time into the set `later`, if its time is that of the set. Returns
    /// whether it did; else nothing changes.
    #[inline(always)]
    fn is_put_later(&mut self, driver: usize, time: Option<u64>) -> bool
        requires { driver < length self.old }
        ensures put { IsTrue result → self.new ≡ slice_set self.old driver time }
        ensures same { result ≡ false → self.new ≡ self.old }
    {
        if self.times[driver].is_some() {
            return false;
        }
        if is_later(time, self.front_time, self.later_time) {
            self.times[driver] = time;
            self.later.insert(driver);
            return true;
        }
        false
    }

    /// Makes `time` the time of the set `later`, where neither this set nor the heap has a driver, as
    /// far as is known without a search.
    fn choose_later(&mut self, time: Option<u64>)
        ensures { self.new ≡ self.old }
    {
        let Some(time) = time else {
            return;
        };
        if self.heap.is_empty() && self.later.is_clear() {
            self.later_time = time;
        }
    }

    /// Sets or clears the time of a driver that has another one.
    #[inline(never)]
    fn change(&mut self, driver: usize, time: Option<u64>) -> Result<(), AllocError>
        requires { driver < length self.old }
        ensures ok { OnOk result (self.new ≡ slice_set self.old driver time) }
        ensures err { OnErr result (self.new ≡ self.old) }
    {
        let (now, later) = (self.front_time, self.later_time);
        add_entry(&mut self.heap, now, later, driver, time)?;
        self.front.put(driver, is_time(time, now));
        self.later.put(driver, is_later(time, now, later));
        self.times[driver] = time;
        trim(&mut self.heap, self.times.as_slice(), now, later);
        Ok(())
    }

    /// The least time.
    pub fn least(&self) -> Option<u64>
        ensures { result ≡ earliest self.now }
    {
        let front = time_of_set(&self.front, self.front_time);
        let later = time_of_set(&self.later, self.later_time);
        sooner(front, sooner(later, top_time(&self.heap)))
    }

    /// Moves the drivers with the least time to `taken`, whose members they replace. It takes no
    /// memory.
    pub fn take(&mut self, time: u64, taken: &mut NumberSet)
        requires least { earliest self.old ≡ Some time }
        requires sized { length taken.old ≡ length self.old }
        ensures taken { taken.new ≡ those_at time self.old }
        ensures queue { self.new ≡ cleared time self.old }
    {
        take_out(
            &mut self.heap,
            self.times.as_slice(),
            self.front_time,
            self.later_time,
            &mut self.front,
            &mut self.later,
            time,
            taken,
        );
        clear_each(&mut self.times, taken);
        drop_stale(
            &mut self.heap,
            self.times.as_slice(),
            self.front_time,
            self.later_time,
        );
        self.front_time = next_time(&self.front, self.front_time, time);
    }

    /// Removes the only driver with the least time. If it returns `None`, nothing changes; there may
    /// be one all the same. It takes no memory.
    #[inline(always)]
    pub fn take_only(&mut self, time: u64) -> Option<usize>
        requires { earliest self.old ≡ Some time }
        ensures none { IfNone result (self.new ≡ self.old) }
        ensures only { IfSome result (IsOnly (is_in (those_at time self.old))) }
        ensures queue { IfSome result (λ _. self.new ≡ cleared time self.old) }
    {
        let driver = only_at(
            self.front_time,
            self.later_time,
            &self.front,
            &self.later,
            time,
        )?;
        clear_at(self.front_time, &mut self.front, &mut self.later, time);
        self.times[driver] = None;
        drop_stale(
            &mut self.heap,
            self.times.as_slice(),
            self.front_time,
            self.later_time,
        );
        self.front_time = next_time(&self.front, self.front_time, time);
        Some(driver)
    }

    /// Removes the drivers with the least time and lists them in order. It takes memory for as many
    /// numbers as there are drivers. If allocation fails, nothing changes.
    pub fn take_due(&mut self, alloc: Global, time: u64) -> Result<Vec<usize>, AllocError>
        requires { earliest self.old ≡ Some time }
        ensures drivers { IfOk result (λ drivers. drivers.items ≡ due_at time self.old) }
        ensures ok { OnOk result (self.new ≡ cleared time self.old) }
        ensures err { OnErr result (self.new ≡ self.old) }
    {
        let mut taken = NumberSet::new(alloc, self.times.len())?;
        let mut drivers = Vec::with_capacity(alloc, self.times.len())?;
        self.take(time, &mut taken);
        taken.list(&mut drivers);
        Ok(drivers)
    }
}

/// Whether a time is there and is `later`, and that is not `now`.
fn is_later(time: Option<u64>, now: u64, later: u64) -> bool
    ensures { result ≡ is_at later (clear now time) }
{
    if later == now {
        return false;
    }
    is_time(time, later)
}

/// The time of the drivers of a set, if it has one.
fn time_of_set(set: &NumberSet, time: u64) -> Option<u64>
    ensures { MatchOption result (set.now ≡ replicate (length set.now) false)
        (λ t. (t ≡ time) × (set.now ≡ replicate (length set.now) false → ⊥)) }
{
    if set.is_empty() { None } else { Some(time) }
}

/// The earlier of two times.
fn sooner(time: Option<u64>, other: Option<u64>) -> Option<u64>
    ensures { result ≡ earlier time other }
{
    match (time, other) {
        (Some(time), Some(other)) => Some(time.min(other)),
        (None, other) => other,
        (time, None) => time,
    }
}

/// Takes the drivers with the least time from the sets or from the heap.
fn take_out(
    heap: &mut Heap,
    times: &[Option<u64>],
    now: u64,
    later: u64,
    front: &mut NumberSet,
    laters: &mut NumberSet,
    time: u64,
    taken: &mut NumberSet,
)
    requires order { IsHeap entry_cmp (heap_items heap.old) }
    requires stands { StandsBut now later times.now (heap_items heap.old) }
    requires front { front.old ≡ those_at now times.now }
    requires later { laters.old ≡ those_later now later times.now }
    requires none_before { NoneBefore time times.now }
    requires sized { length taken.old ≡ length times.now }
    ensures order { IsHeap entry_cmp (heap_items heap.new) }
    ensures stands { StandsBut now later (cleared time times.now) (heap_items heap.new) }
    ensures front { front.new ≡ those_at now (cleared time times.now) }
    ensures later { laters.new ≡ those_later now later (cleared time times.now) }
    ensures taken { taken.new ≡ those_at time times.now }
{
    taken.clear();
    if time == now {
        front.swap(taken);
        return;
    }
    if time == later {
        laters.swap(taken);
        return;
    }
    take_least(heap, times, now, later, time, taken);
}

/// The only driver at a time, if that is the time of one of the sets.
#[inline(always)]
fn only_at(now: u64, later: u64, front: &NumberSet, laters: &NumberSet, time: u64) -> Option<usize>
    ensures front { IfSome result (λ d. time ≡ now → IsOnly (is_in front.now) d) }
    ensures later { IfSome result (λ d. time ≢ now → (time ≡ later) × IsOnly (is_in laters.now) d) }
{
    if time == now {
        return front.only();
    }
    if time == later {
        return laters.only();
    }
    None
}

/// Clears the set of the drivers at a time, which is that of one of the sets.
#[inline(always)]
fn clear_at(now: u64, front: &mut NumberSet, laters: &mut NumberSet, time: u64)
    ensures front { time ≡ now → (front.new ≡ replicate (length front.old) false) × (laters.new ≡ laters.old) }
    ensures later { time ≢ now → (front.new ≡ front.old) × (laters.new ≡ replicate (length laters.old) false) }
{
    if time == now {
        front.clear();
    } else {
        laters.clear();
    }
}

/// Clears the times of the drivers with a time.
fn clear_each(times: &mut Vec<Option<u64>>, taken: &NumberSet)
    requires { length taken.now ≡ length times.old.items }
    ensures { (time : ℕ) → taken.now ≡ those_at time times.old.items → times.new.items ≡ cleared time times.old.items }
{
    match taken.listed() {
        Some(drivers) => clear_listed(times, drivers),
        None => clear_unlisted(times, taken),
    }
}

/// The same, for drivers in a list.
fn clear_listed(times: &mut Vec<Option<u64>>, drivers: &[usize])
    requires { (k : ℕ) → k < length drivers.now → slice_index_or drivers.now k 0 < length times.old.items }
    ensures { (time : ℕ) → drivers.now ≡ due_at time times.old.items → times.new.items ≡ cleared time times.old.items }
{
    for place in 0..drivers.len() {
        times[drivers[place]] = None;
    }
}

/// The same, for drivers in a set whose order was lost.
fn clear_unlisted(times: &mut Vec<Option<u64>>, taken: &NumberSet)
    requires { length taken.now ≡ length times.old.items }
    ensures { (time : ℕ) → taken.now ≡ those_at time times.old.items → times.new.items ≡ cleared time times.old.items }
{
    let mut from = 0;
    while let Some(driver) = taken.next(from) {
        times[driver] = None;
        from = driver + 1;
    }
}

/// The new time of the front. It changes only if the front is empty.
fn next_time(front: &NumberSet, now: u64, time: u64) -> u64
    ensures { (result ≡ now) ⊎ ((result ≡ time) × (front.now ≡ replicate (length front.now) false)) }
{
    if front.is_empty() { time } else { now }
}
