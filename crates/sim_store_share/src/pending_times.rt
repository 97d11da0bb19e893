//! The first pending times of drivers, as far as memory allows.

ghost use Rattle.std.specs.Prelude.{ℕ, ◌≡◌, ◌≢◌, ◌<◌, Option, None, false, length, replicate, slice_set};
ghost use Rattle.std.specs.Prelude.{◌≤◌, Some, true, IfOk, IfNone, IfSome, MatchOption, OnOk, OnErr, IsTrue, ◌↔◌};
ghost use Rattle.sim_containers.specs.Numbers.{is_in};
ghost use Rattle.sim_containers.specs.Times.{cleared, earliest, those_at, time_of};
ghost use Rattle.sim_containers.specs.Words.{IsNext, IsOnly, NoneFrom};
ghost use Rattle.sim_store_share.specs.PendingTimes.{AreTimes};

use sim_containers::{NumberSet, TimeQueue};
use std::alloc::{AllocError, Global};
use std::marker::Model;

/// For each driver its first pending time, or none. A driver for whose time there was no memory is
/// stale: its time has to be put again before the least is asked for.
pub struct PendingTimes {
    queue: TimeQueue,
    stale: NumberSet,
}

/// Written by hand so that code which drops it needs no proof about its contents.
impl Drop for PendingTimes {
    fn drop(self) {
        let PendingTimes { queue, stale } = self;
        drop(queue);
        drop(stale);
    }
}

impl Model for PendingTimes {
    ghost use Rattle.std.specs.Prelude.{◌≡◌, length};
    ghost use Rattle.sim_store_share.specs.PendingTimes.{Pending};

    ghost Value = { Pending };

    ghost view = { λ p. record { queue = p.queue; stale = p.stale } };

    ghost invariant = { λ p. length p.stale ≡ length p.queue };
}

impl PendingTimes {
    /// None pending.
    pub fn new(alloc: Global, drivers: usize) -> Result<PendingTimes, AllocError>
        ensures { IfOk result (λ p. (length p.queue ≡ drivers) × AreTimes p (λ _. None)) }
    {
        let queue = TimeQueue::new(alloc, drivers)?;
        let stale = NumberSet::new(alloc, drivers)?;
        Ok(PendingTimes { queue, stale })
    }

    /// The same, with each driver stale.
    pub fn unknown(alloc: Global, drivers: usize) -> Result<PendingTimes, AllocError>
        ensures { IfOk result (λ p. (length p.queue ≡ drivers) × ((times : ℕ → Option ℕ) → ((d : ℕ) → drivers ≤ d → times d ≡ None) → AreTimes p times)) }
    {
        let queue = TimeQueue::new(alloc, drivers)?;
        let stale = NumberSet::full(alloc, drivers)?;
        Ok(PendingTimes { queue, stale })
    }

    /// Puts the time of a driver. If allocation fails, the driver is stale.
    #[inline(always)]
    pub fn put(&mut self, driver: usize, time: Option<u64>)
        requires { driver < length self.old.queue }
        ensures sized { length self.new.queue ≡ length self.old.queue }
        ensures told { (times : ℕ → Option ℕ) → times driver ≡ time
            → ((d : ℕ) → d ≢ driver → is_in self.old.stale d ≡ false → time_of self.old.queue d ≡ times d) → AreTimes self.new times }
    {
        match self.queue.put(driver, time) {
            Ok(()) => {}
            Err(_) => self.stale.insert(driver),
        }
    }

    /// Puts the time of a driver for which the queue has none, unless it is stale.
    #[inline(always)]
    pub fn put_new(&mut self, driver: usize, time: Option<u64>)
        requires at { driver < length self.old.queue }
        requires none { is_in self.old.stale driver ≡ false → time_of self.old.queue driver ≡ None }
        ensures sized { length self.new.queue ≡ length self.old.queue }
        ensures told { (times : ℕ → Option ℕ) → times driver ≡ time
            → ((d : ℕ) → d ≢ driver → is_in self.old.stale d ≡ false → time_of self.old.queue d ≡ times d) → AreTimes self.new times }
    {
        if time.is_some() {
            self.put(driver, time);
        }
    }

    /// Whether no driver is stale.
    #[inline(always)]
    pub fn is_current(&self) -> bool
        ensures { result ≡ true → (d : ℕ) → is_in self.now.stale d ≡ false }
    {
        self.stale.is_empty()
    }

    /// The first stale driver from a number on.
    #[inline(always)]
    pub fn stale(&self, from: usize) -> Option<usize>
        ensures next { MatchOption result (NoneFrom (is_in self.now.stale) from) (IsNext (is_in self.now.stale) from) }
        ensures within { IfSome result (λ d. d < length self.now.queue) }
    {
        self.stale.next_at(0, from)
    }

    /// Puts the time of a driver, which may be stale. If allocation fails, nothing changes.
    pub fn try_put(&mut self, driver: usize, time: Option<u64>) -> Result<(), AllocError>
        requires { driver < length self.old.queue }
        ensures ok { OnOk result (self.new ≡ record self.old { queue = slice_set self.old.queue driver time }) }
        ensures err { OnErr result (self.new ≡ self.old) }
    {
        self.queue.put(driver, time)
    }

    /// No driver is stale any more.
    #[inline(always)]
    pub fn clear_stale(&mut self)
        ensures queue { self.new.queue ≡ self.old.queue }
        ensures current { (d : ℕ) → is_in self.new.stale d ≡ false }
    {
        self.stale.clear();
    }

    /// The least time, if no driver is stale.
    #[inline(always)]
    pub fn least(&self) -> Option<u64>
        ensures { result ≡ earliest self.now.queue }
    {
        self.queue.least()
    }

    /// Removes the only driver with the least time; `None` if there may be several.
    #[inline(always)]
    pub fn take_only(&mut self, time: u64) -> Option<usize>
        requires { earliest self.old.queue ≡ Some time }
        ensures none { IfNone result (self.new ≡ self.old) }
        ensures only { IfSome result (IsOnly (is_in (those_at time self.old.queue))) }
        ensures cleared { IfSome result (λ _. self.new ≡ record self.old { queue = cleared time self.old.queue }) }
    {
        self.queue.take_only(time)
    }

    /// Moves the drivers that may have this time to `taken`, whose members they replace: those that
    /// have it; or all, which are then stale, if one is stale or has an earlier time.
    #[inline(always)]
    pub fn take(&mut self, time: u64, taken: &mut NumberSet)
        requires { length taken.old ≡ length self.old.queue }
        ensures sized { length self.new.queue ≡ length self.old.queue }
        ensures marked { length taken.new ≡ length taken.old }
        ensures others { (times : ℕ → Option ℕ) → AreTimes self.old times → (d : ℕ) → d < length self.old.queue → is_in taken.new d ≡ false
            → (times d ≢ Some time) × (is_in self.new.stale d ≡ false → time_of self.new.queue d ≡ times d) }
        ensures none { (d : ℕ) → is_in taken.new d ≡ true → is_in self.new.stale d ≡ false → time_of self.new.queue d ≡ None }
    {
        if self.stale.is_empty() {
            if self.queue.least() == Some(time) {
                self.queue.take(time, taken);
                return;
            }
            if is_later(self.queue.least(), time) {
                taken.clear();
                return;
            }
        }
        fill(taken);
        fill(&mut self.stale);
    }
}

/// Whether the least time, if there is one, is later than this one.
#[inline(always)]
fn is_later(least: Option<u64>, time: u64) -> bool
    ensures { result ≡ true → (s : ℕ) → least ≡ Some s → time < s }
{
    match least {
        None => true,
        Some(least) => least > time,
    }
}

/// Makes all numbers members.
#[inline(never)]
fn fill(set: &mut NumberSet)
    ensures sized { length set.new ≡ length set.old }
    ensures all { (d : ℕ) → d < length set.old → is_in set.new d ≡ true }
{
    for number in 0..set.len() {
        set.insert(number);
    }
}
