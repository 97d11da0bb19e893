//! What the processes of a range own, where they are executed.

ghost use Rattle.std.specs.Prelude.{ℕ, ◌≡◌, ◌<◌, ◌≤◌, ◌⊎◌, [], ◌∷◌, false, length, slice_set, IfOk, OnOk};
ghost use Rattle.std.specs.List.{All};
ghost use Rattle.sim_standard.specs.Drivers.{next_time};
ghost use Rattle.sim_standard.specs.State.{all_drivers, owned_at};
ghost use Rattle.sim_containers.specs.Numbers.{is_in};
ghost use Rattle.sim_containers.specs.RowArray.{joined};
ghost use Rattle.sim_containers.specs.Times.{time_of};
ghost use Rattle.sim_store_share.specs.PendingTimes.{AreTimes};
ghost use Rattle.sim_store_share.specs.Shares.{owned_lists, time_at};

use crate::pending_times::PendingTimes;
use sim_containers::{NumberSet, RowArray};
use sim_flat_design::Held;
use sim_wave::Driver;
use std::alloc::{AllocError, Global};
use std::marker::Model;

/// The drivers and variables of adjacent processes, by place, and the first pending time of each of
/// these drivers. Contracts see what each process owns.
pub struct Share {
    pub(crate) drivers: RowArray<Driver>,
    pub(crate) variables: RowArray<Held>,
    pub(crate) times: PendingTimes,
    /// The drivers that take a transaction in an update.
    pub(crate) taken: NumberSet,
}

/// Written by hand so that code which drops it needs no proof about its contents.
impl Drop for Share {
    fn drop(self) {
        let Share {
            drivers,
            variables,
            times,
            taken,
        } = self;
        drop(drivers);
        drop(variables);
        drop(times);
        drop(taken);
    }
}

impl Model for Share {
    ghost use Rattle.std.specs.Prelude.{List};
    ghost use Rattle.sim_standard.specs.State.{Owned};
    ghost use Rattle.sim_store_share.specs.Shares.{owned_lists, IsShare};

    ghost Value = { List Owned };

    ghost view = { λ s. owned_lists s.drivers s.variables };

    ghost invariant = { λ s. IsShare s.drivers s.variables s.times s.taken };
}

/// The first pending time of a driver.
#[inline(always)]
pub(crate) fn first_time(driver: &Driver) -> Option<u64>
    ensures { result ≡ next_time (driver.now ∷ []) }
{
    let _pending = driver.pending();
    driver.next()
}

/// The first pending time of the driver with a number, counted through all lists.
#[inline(always)]
fn time_of_driver(drivers: &RowArray<Driver>, number: usize) -> Option<u64>
    requires { number < length (joined drivers.now) }
    ensures { result ≡ time_at (joined drivers.now) number }
{
    first_time(&drivers.flat()[number])
}

/// Puts the first pending times of the drivers from a number to another, if those of all others are
/// right.
pub(crate) fn tell(times: &mut PendingTimes, drivers: &RowArray<Driver>, start: usize, end: usize)
    requires range { (start ≤ end) × (end ≤ length (joined drivers.now)) }
    requires sized { length times.old.queue ≡ length (joined drivers.now) }
    requires others { (d : ℕ) → (d < start) ⊎ (end ≤ d) → is_in times.old.stale d ≡ false → time_of times.old.queue d ≡ time_at (joined drivers.now) d }
    ensures sized { length times.new.queue ≡ length times.old.queue }
    ensures told { AreTimes times.new (time_at (joined drivers.now)) }
{
    for number in start..end {
        times.put(number, time_of_driver(drivers, number));
    }
}

/// Puts the times of stale drivers. If allocation fails, some stay stale.
#[inline(always)]
fn bring_up_to_date(times: &mut PendingTimes, drivers: &RowArray<Driver>) -> Result<(), AllocError>
    requires sized { length times.old.queue ≡ length (joined drivers.now) }
    requires timed { AreTimes times.old (time_at (joined drivers.now)) }
    ensures sized { length times.new.queue ≡ length times.old.queue }
    ensures timed { AreTimes times.new (time_at (joined drivers.now)) }
    ensures current { OnOk result ((d : ℕ) → is_in times.new.stale d ≡ false) }
{
    if times.is_current() {
        return Ok(());
    }
    put_stale(times, drivers)
}

/// The same, where a driver may be stale.
#[inline(never)]
fn put_stale(times: &mut PendingTimes, drivers: &RowArray<Driver>) -> Result<(), AllocError>
    requires sized { length times.old.queue ≡ length (joined drivers.now) }
    requires timed { AreTimes times.old (time_at (joined drivers.now)) }
    ensures sized { length times.new.queue ≡ length times.old.queue }
    ensures timed { AreTimes times.new (time_at (joined drivers.now)) }
    ensures current { OnOk result ((d : ℕ) → is_in times.new.stale d ≡ false) }
{
    let _count = drivers.flat().len();
    let mut from = 0;
    while let Some(number) = times.stale(from) {
        times.try_put(number, time_of_driver(drivers, number))?;
        from = number + 1;
    }
    times.clear_stale();
    Ok(())
}

impl Share {
    /// The share of processes that own these drivers and variables, with nothing pending.
    pub fn first(
        alloc: Global,
        drivers: RowArray<Driver>,
        variables: RowArray<Held>,
    ) -> Result<Share, AllocError>
        requires owned { length drivers ≡ length variables }
        requires idle { All (λ d. d.pending ≡ []) (joined drivers) }
        ensures { IfOk result (λ s. s ≡ owned_lists drivers variables) }
    {
        let times = PendingTimes::new(alloc, drivers.flat().len())?;
        let taken = NumberSet::new(alloc, drivers.flat().len())?;
        Ok(Share {
            drivers,
            variables,
            times,
            taken,
        })
    }

    /// The same, whatever is pending.
    pub(crate) fn of(
        alloc: Global,
        drivers: RowArray<Driver>,
        variables: RowArray<Held>,
    ) -> Result<Share, AllocError>
        requires { length drivers ≡ length variables }
        ensures { IfOk result (λ s. s ≡ owned_lists drivers variables) }
    {
        let times = PendingTimes::unknown(alloc, drivers.flat().len())?;
        let taken = NumberSet::new(alloc, drivers.flat().len())?;
        Ok(Share {
            drivers,
            variables,
            times,
            taken,
        })
    }

    /// Its lists of drivers and of variables.
    pub(crate) fn into_lists(self) -> (RowArray<Driver>, RowArray<Held>)
        ensures owned { owned_lists result.0 result.1 ≡ self }
        ensures long { length result.0 ≡ length result.1 }
    {
        let Share {
            drivers,
            variables,
            times,
            taken,
        } = self;
        drop(times);
        drop(taken);
        (drivers, variables)
    }

    /// The number of processes.
    pub fn len(&self) -> usize
        ensures { result ≡ length self.now }
    {
        self.drivers.len()
    }

    /// The number of drivers.
    pub fn drivers(&self) -> usize
        ensures { result ≡ length (all_drivers self.now) }
    {
        self.drivers.flat().len()
    }

    /// The drivers and variables of the process at a place.
    pub fn owned(&self, place: usize) -> (&[Driver], &[Held])
        requires { place < length self.now }
        ensures { record { drivers = result.0.now; variables = result.1.now } ≡ owned_at self.now place }
    {
        (self.drivers.row(place), self.variables.row(place))
    }

    /// Replaces what the process at a place owns. It takes no memory.
    pub fn put(&mut self, place: usize, drivers: &mut [Driver], variables: &mut [Held])
        requires at { place < length self.old }
        requires drivers { length drivers.old ≡ length (owned_at self.old place).drivers }
        requires variables { length variables.old ≡ length (owned_at self.old place).variables }
        ensures { self.new ≡ slice_set self.old place (record { drivers = drivers.old; variables = variables.old }) }
    {
        self.drivers.put(place, drivers);
        self.variables.put(place, variables);
        let (start, end) = self.drivers.row_bounds(place);
        tell(&mut self.times, &self.drivers, start, end);
    }

    /// The first pending time. It looks only at drivers for whose times there was no memory.
    #[inline(always)]
    pub fn next(&mut self) -> Result<Option<u64>, AllocError>
        ensures same { self.new ≡ self.old }
        ensures value { IfOk result (λ next. next ≡ next_time (all_drivers self.old)) }
    {
        bring_up_to_date(&mut self.times, &self.drivers)?;
        Ok(self.times.least())
    }
}
