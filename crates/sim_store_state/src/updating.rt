//! What a cycle does with the drivers of all shares (IEEE 1076-2008, 14.7.5.3 c, g).

ghost use Rattle.std.specs.Prelude.{ℕ, ◌≡◌, ◌<◌, Some, false, length, map, IfOk};
ghost use Rattle.sim_containers.specs.Numbers.{is_in};
ghost use Rattle.sim_containers.specs.RowArray.{joined};
ghost use Rattle.sim_containers.specs.Times.{earlier};
ghost use Rattle.sim_standard.specs.Drivers.{next_time};
ghost use Rattle.sim_standard.specs.State.{all_drivers, driver_values};
ghost use Rattle.sim_store_nets.specs.Lists.{net_from};
ghost use Rattle.sim_store_share.specs.Shares.{all_taken};
ghost use Rattle.sim_store_share.specs.Taking.{IsNoneBefore};
ghost use Rattle.sim_store_state.specs.FlatState.{counts};
ghost use Rattle.sim_store_state.specs.Updating.{AreNotedAll, IsUpdate};

use sim_store_nets::UpdateLists;
use sim_store_share::Share;
use std::alloc::AllocError;

/// The earlier of two times.
#[inline(always)]
fn sooner(time: Option<u64>, other: Option<u64>) -> Option<u64>
    ensures { result ≡ earlier time other }
{
    match time {
        None => other,
        Some(time) => match other {
            None => Some(time),
            Some(other) => Some(time.min(other)),
        },
    }
}

/// The time of the next cycle, by all shares.
#[inline(never)]
fn next_of_several(shares: &mut [Share]) -> Result<Option<u64>, AllocError>
    ensures same { shares.new ≡ shares.old }
    ensures value { IfOk result (λ next. next ≡ next_time (all_drivers (joined shares.old))) }
{
    let mut next = None;
    for place in 0..shares.len() {
        next = sooner(next, shares[place].next()?);
    }
    Ok(next)
}

/// The same; a single share, which is the usual case, costs no loop.
#[inline(always)]
pub fn next_of(shares: &mut [Share]) -> Result<Option<u64>, AllocError>
    ensures same { shares.new ≡ shares.old }
    ensures value { IfOk result (λ next. next ≡ next_time (all_drivers (joined shares.old))) }
{
    if shares.len() == 1 {
        return shares[0].next();
    }
    next_of_several(shares)
}

/// The drivers of each share take their transactions of a time, and their values are noted.
#[inline(never)]
fn take_each(shares: &mut [Share], time: u64, lists: &mut UpdateLists)
    requires none { IsNoneBefore time (all_drivers (joined shares.old)) }
    requires valued { lists.old.driving ≡ driver_values (all_drivers (joined shares.old)) }
    ensures shares { shares.new ≡ map (all_taken time) shares.old }
    ensures lists { AreNotedAll (all_drivers (joined shares.new)) lists.old lists.new }
{
    let _drivers = lists.drivers();
    let mut first = 0;
    for place in 0..shares.len() {
        let count = shares[place].drivers();
        shares[place].take(time, first, lists);
        first += count;
    }
}

/// The active drivers of all shares take their transactions of a time, before which there is none. The
/// nets of those whose value is a new one are touched.
#[inline(never)]
fn take_several(shares: &mut [Share], time: u64, lists: &mut UpdateLists)
    requires none { IsNoneBefore time (all_drivers (joined shares.old)) }
    requires valued { lists.old.driving ≡ driver_values (all_drivers (joined shares.old)) }
    requires sized { length lists.old.touched ≡ length lists.old.sources }
    ensures shares { shares.new ≡ map (all_taken time) shares.old }
    ensures lists { IsUpdate (all_drivers (joined shares.new)) lists.old lists.new }
{
    lists.begin();
    take_each(shares, time, lists);
    lists.finish();
}

/// The same, of a single share. If one driver is active, as is usual, it costs no loop.
#[inline(always)]
fn take_alone(shares: &mut [Share], time: u64, lists: &mut UpdateLists)
    requires alone { length shares.old ≡ 1 }
    requires next { next_time (all_drivers (joined shares.old)) ≡ Some time }
    requires valued { lists.old.driving ≡ driver_values (all_drivers (joined shares.old)) }
    requires sized { length lists.old.touched ≡ length lists.old.sources }
    ensures shares { shares.new ≡ map (all_taken time) shares.old }
    ensures lists { IsUpdate (all_drivers (joined shares.new)) lists.old lists.new }
{
    match shares[0].take_only(time) {
        Some((number, value)) => lists.note_only(number, value),
        None => take_several(shares, time, lists),
    }
}

/// The active drivers of all shares take their transactions, which are those of the next time
/// (14.7.5.3 c). The nets of those whose value is a new one are touched.
#[inline(always)]
pub fn take_active(shares: &mut [Share], time: u64, lists: &mut UpdateLists)
    requires next { next_time (all_drivers (joined shares.old)) ≡ Some time }
    requires valued { lists.old.driving ≡ driver_values (all_drivers (joined shares.old)) }
    requires sized { length lists.old.touched ≡ length lists.old.sources }
    ensures shares { shares.new ≡ map (all_taken time) shares.old }
    ensures lists { IsUpdate (all_drivers (joined shares.new)) lists.old lists.new }
{
    if shares.len() == 1 {
        take_alone(shares, time, lists);
        return;
    }
    take_several(shares, time, lists);
}
