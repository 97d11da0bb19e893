//! Drivers of a share take their transactions (IEEE 1076-2008, 14.7.2, 14.7.5.3 c).

ghost use Rattle.std.specs.Prelude.{ℕ, Option, Some, None, ◌≡◌, ◌≢◌, ◌<◌, ◌≤◌, ◌+◌, ◌∷◌, [], false, length, map, IfNone, IfSome};
ghost use Rattle.sim_standard.specs.Drivers.{next_time, taken};
ghost use Rattle.sim_standard.specs.State.{all_drivers, driver_at};
ghost use Rattle.sim_containers.specs.Numbers.{is_in, members};
ghost use Rattle.sim_containers.specs.RowArray.{joined};
ghost use Rattle.sim_containers.specs.Times.{time_of};
ghost use Rattle.sim_store_share.specs.PendingTimes.{AreTimes};
ghost use Rattle.sim_store_share.specs.Rows.{with_item};
ghost use Rattle.sim_store_share.specs.Shares.{all_taken, time_at};
ghost use Rattle.sim_store_share.specs.Taking.{AreCleared, AreIdle, AreListed, AreNoted, IsNoneBefore, IsOnlyTaken};

use crate::pending_times::PendingTimes;
use crate::rows::item_mut;
use crate::share::{Share, first_time};
use sim_containers::{NumberSet, RowArray};
use sim_logic::Logic;
use sim_store_nets::UpdateLists;
use sim_wave::Driver;

/// A driver takes its transaction of a time, if it has one. Returns its value and its first pending
/// time then.
#[inline(always)]
fn take_from(driver: &mut Driver, time: u64) -> (Logic, Option<u64>)
    ensures after { driver.new ≡ taken time driver.old }
    ensures value { result.0 ≡ driver.new.value }
    ensures next { result.1 ≡ next_time (driver.new ∷ []) }
{
    driver.take(time);
    (driver.value(), first_time(driver))
}

/// The driver with a number, counted through all lists, takes its transaction of a time, if it has
/// one; the queue has none of its times. Returns its value then.
#[inline(always)]
fn take_one(
    drivers: &mut RowArray<Driver>,
    times: &mut PendingTimes,
    number: usize,
    time: u64,
) -> Logic
    requires number { number < length (joined drivers.old) }
    requires sized { length times.old.queue ≡ length (joined drivers.old) }
    requires none { is_in times.old.stale number ≡ false → time_of times.old.queue number ≡ None }
    ensures drivers { drivers.new ≡ with_item drivers.old number (taken time (driver_at (joined drivers.old) number)) }
    ensures value { result ≡ (taken time (driver_at (joined drivers.old) number)).value }
    ensures sized { length times.new.queue ≡ length times.old.queue }
    ensures told { (known : ℕ → Option ℕ) → known number ≡ next_time (taken time (driver_at (joined drivers.old) number) ∷ [])
        → ((d : ℕ) → d ≢ number → is_in times.old.stale d ≡ false → time_of times.old.queue d ≡ known d) → AreTimes times.new known }
{
    let (value, next) = take_from(item_mut(drivers, number), time);
    times.put_new(number, next);
    value
}

/// The drivers of a share that may have a transaction of a time, which they take, and the number of
/// its first driver.
#[derive(Clone, Copy)]
struct Taking<'a> {
    due: &'a NumberSet,
    time: u64,
    first: usize,
}

/// The due drivers take their transactions; the others have none. Their values are noted.
fn take_each(
    drivers: &mut RowArray<Driver>,
    times: &mut PendingTimes,
    taking: &Taking<'_>,
    lists: &mut UpdateLists,
)
    requires sized { (length times.old.queue ≡ length (joined drivers.old)) × (length taking.now.due.now ≡ length (joined drivers.old)) }
    requires others { AreIdle taking.now.time taking.now.due.now times.old (joined drivers.old) }
    requires none { AreCleared taking.now.due.now times.old }
    requires listed { AreListed taking.now.first (joined drivers.old) lists.old }
    ensures drivers { drivers.new ≡ map (map (taken taking.now.time)) drivers.old }
    ensures sized { length times.new.queue ≡ length times.old.queue }
    ensures timed { AreTimes times.new (time_at (joined drivers.new)) }
    ensures lists { AreNoted taking.now.first (joined drivers.new) lists.old lists.new }
{
    let Taking { due, time, first } = *taking;
    // so that the numbers are known to have a sum
    let _due = due.len();
    let _drivers = lists.drivers();
    let mut place = 0;
    let mut from = 0;
    while let Some(number) = due.next_at(place, from) {
        let value = take_one(drivers, times, number, time);
        lists.note(first + number, value);
        place = place.wrapping_add(1);
        from = number + 1;
    }
}

/// The same, where the due drivers are in a list.
fn take_listed(
    drivers: &mut RowArray<Driver>,
    times: &mut PendingTimes,
    taking: &Taking<'_>,
    numbers: &[usize],
    lists: &mut UpdateLists,
)
    requires numbers { numbers.now ≡ members taking.now.due.now }
    requires sized { (length times.old.queue ≡ length (joined drivers.old)) × (length taking.now.due.now ≡ length (joined drivers.old)) }
    requires others { AreIdle taking.now.time taking.now.due.now times.old (joined drivers.old) }
    requires none { AreCleared taking.now.due.now times.old }
    requires listed { AreListed taking.now.first (joined drivers.old) lists.old }
    ensures drivers { drivers.new ≡ map (map (taken taking.now.time)) drivers.old }
    ensures sized { length times.new.queue ≡ length times.old.queue }
    ensures timed { AreTimes times.new (time_at (joined drivers.new)) }
    ensures lists { AreNoted taking.now.first (joined drivers.new) lists.old lists.new }
{
    let Taking { due, time, first } = *taking;
    let _due = due.len();
    let _drivers = lists.drivers();
    for place in 0..numbers.len() {
        let number = numbers[place];
        let value = take_one(drivers, times, number, time);
        lists.note(first + number, value);
    }
}

/// The same, in a list or not.
#[inline(always)]
fn take_due(
    drivers: &mut RowArray<Driver>,
    times: &mut PendingTimes,
    taking: &Taking<'_>,
    lists: &mut UpdateLists,
)
    requires sized { (length times.old.queue ≡ length (joined drivers.old)) × (length taking.now.due.now ≡ length (joined drivers.old)) }
    requires others { AreIdle taking.now.time taking.now.due.now times.old (joined drivers.old) }
    requires none { AreCleared taking.now.due.now times.old }
    requires listed { AreListed taking.now.first (joined drivers.old) lists.old }
    ensures drivers { drivers.new ≡ map (map (taken taking.now.time)) drivers.old }
    ensures sized { length times.new.queue ≡ length times.old.queue }
    ensures timed { AreTimes times.new (time_at (joined drivers.new)) }
    ensures lists { AreNoted taking.now.first (joined drivers.new) lists.old lists.new }
{
    match taking.due.listed() {
        Some(numbers) => take_listed(drivers, times, taking, numbers, lists),
        None => take_each(drivers, times, taking, lists),
    }
}

impl Share {
    /// Each driver takes its transaction of a time, before which none has one. It looks only at those
    /// that have one, unless there was no memory for the time of a driver. Their values are noted,
    /// where the first driver has this number.
    pub fn take(&mut self, time: u64, first: usize, lists: &mut UpdateLists)
        requires none { IsNoneBefore time (all_drivers self.old) }
        requires listed { AreListed first (all_drivers self.old) lists.old }
        ensures taken { self.new ≡ all_taken time self.old }
        ensures lists { AreNoted first (all_drivers self.new) lists.old lists.new }
    {
        self.times.take(time, &mut self.taken);
        let taking = Taking {
            due: &self.taken,
            time,
            first,
        };
        take_due(&mut self.drivers, &mut self.times, &taking, lists);
    }

    /// The only driver with a transaction of the next time takes it. Returns its number and its value.
    /// `None` if there may be several, or there was no memory for the time of a driver: nothing
    /// changes then.
    #[inline(always)]
    pub fn take_only(&mut self, time: u64) -> Option<(usize, Logic)>
        requires next { next_time (all_drivers self.old) ≡ Some time }
        ensures none { IfNone result (self.new ≡ self.old) }
        ensures only { IfSome result (λ r. IsOnlyTaken time r.0 r.1 self.old self.new) }
    {
        if !self.times.is_current() {
            return None;
        }
        let number = self.times.take_only(time)?;
        let value = take_one(&mut self.drivers, &mut self.times, number, time);
        Some((number, value))
    }
}
