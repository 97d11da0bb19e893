ghost use Rattle.std.specs.Prelude.{◌≡◌, ◌≤◌, [], ◌∷◌, fold, map, IfOk};
ghost use Rattle.sim_logic.specs.Tables.{resolution_table};
ghost use Rattle.sim_logic.specs.Resolution.{resolved};
ghost use Rattle.sim_logic.specs.declared.logic.Logic as logic;
ghost use Rattle.sim_wave.specs.Rising.{RisesFrom, IsWithin};

use sim_logic::Logic::{self, Dash, One, X, Zero};
use sim_logic::resolve_two;
use sim_wave::{Delay, Driver, Transaction};
use std::alloc::{AllocError, Global};
use std::test::Fail;

/// A pulse from 2 to 3 fs, and then an inertial assignment of '1' at 5 fs.
fn pulse_rejected_by(alloc: Global, reject: u64) -> Result<Driver, AllocError>
    requires { reject ≤ 5 }
{
    let mut driver = Driver::new(alloc, Zero);
    driver.edit(0, Delay::Transport, &[(2, One), (3, Zero)])?;
    driver.edit(0, Delay::Inertial { reject }, &[(5, One)])?;
    Ok(driver)
}

fn keeps(alloc: Global, reject: u64, wanted: &[Transaction]) -> Result<bool, AllocError>
    requires { reject ≤ 5 }
{
    let driver = pulse_rejected_by(alloc, reject)?;
    Ok(driver.pending() == wanted)
}

fn leave_the_same(alloc: Global, first: u64, second: u64) -> Result<bool, AllocError>
    requires first { first ≤ 5 }
    requires second { second ≤ 5 }
{
    let one = pulse_rejected_by(alloc, first)?;
    let other = pulse_rejected_by(alloc, second)?;
    Ok(one.same(&other))
}

#[test]
fn the_rejection_limit_decides_what_is_kept(rt: HostRuntime) -> Result<(), Fail> {
    assert!(rt; keeps(rt.alloc(), 1, &[(2, One), (3, Zero), (5, One)])?);
    assert!(rt; keeps(rt.alloc(), 2, &[(2, One), (5, One)])?);
    assert!(rt; keeps(rt.alloc(), 3, &[(5, One)])?);
    Ok(())
}

#[test]
fn drivers_that_differ_in_what_is_pending_are_not_the_same(rt: HostRuntime) -> Result<(), Fail> {
    assert!(rt; !leave_the_same(rt.alloc(), 1, 2)?);
    Ok(())
}

/// Whether all elements of a waveform are scheduled.
fn is_scheduled(alloc: Global) -> Result<bool, AllocError> {
    let mut driver = Driver::new(alloc, Zero);
    driver.edit(0, Delay::Transport, &[(3, One), (5, Zero)])?;
    Ok(driver.pending() == [(3, One), (5, Zero)].as_slice())
}

#[test]
fn a_waveform_is_scheduled(rt: HostRuntime) -> Result<(), Fail> {
    assert!(rt; is_scheduled(rt.alloc())?);
    Ok(())
}

/// A pulse from 3 to 5 fs; a later inertial assignment keeps its rise and deletes its fall.
fn short_pulse(alloc: Global) -> Result<Driver, AllocError> {
    let mut driver = Driver::new(alloc, Zero);
    driver.edit(0, Delay::Transport, &[(3, One), (5, Zero)])?;
    driver.edit(1, Delay::Inertial { reject: 3 }, &[(3, One)])?;
    Ok(driver)
}

/// Whether the transactions at 3 and 4 fs are taken only at their times.
fn takes_in_turn(driver: &mut Driver) -> bool {
    driver.pending() == [(3, One), (4, One)].as_slice()
        && driver.next() == Some(3)
        && !driver.take(2)
        && driver.take(3)
        && driver.value() == One
        && driver.pending() == [(4, One)].as_slice()
}

fn is_like_its_copy(driver: &Driver) -> Result<bool, AllocError> {
    Ok(driver.try_copy()?.same(driver))
}

#[test]
fn transactions_are_taken_at_their_times(rt: HostRuntime) -> Result<(), Fail> {
    let mut driver = short_pulse(rt.alloc())?;
    assert!(rt; takes_in_turn(&mut driver));
    assert!(rt; is_like_its_copy(&driver)?);
    Ok(())
}

/// A driver that is assigned a value 5 fs ahead at each time from 0 to 7 fs, and then takes the
/// transactions that are due. The value is '1', or else it alternates, beginning with '0'.
fn assigned_each_time(alloc: Global, delay: Delay, same: bool) -> Result<Driver, AllocError>
    requires { IsWithin delay 5 }
    ensures { IfOk result (λ driver. RisesFrom 8 driver.pending) }
{
    let mut driver = Driver::new(alloc, Zero);
    for now in 0..8 {
        let value = if same || now % 2 == 1 { One } else { Zero };
        driver.edit(now, delay, &[(5, value)])?;
        driver.take(now);
    }
    Ok(driver)
}

/// Whether these are the value and the transactions of such a driver, and its copy is the same.
fn leaves_each_time(
    alloc: Global,
    delay: Delay,
    same: bool,
    value: Logic,
    wanted: &[Transaction],
) -> Result<bool, AllocError>
    requires { IsWithin delay 5 }
{
    let driver = assigned_each_time(alloc, delay, same)?;
    Ok(driver.value() == value && driver.pending() == wanted && is_like_its_copy(&driver)?)
}

#[test]
fn equal_values_are_kept_and_others_rejected(rt: HostRuntime) -> Result<(), Fail> {
    let alloc = rt.alloc();
    let inertial = Delay::Inertial { reject: 5 };
    let equal = [(8, One), (9, One), (10, One), (11, One), (12, One)];
    assert!(rt; leaves_each_time(alloc, inertial, true, One, &equal)?);
    assert!(rt; leaves_each_time(alloc, inertial, false, Zero, &[(12, One)])?);
    let others = [(8, One), (9, Zero), (10, One), (11, Zero), (12, One)];
    assert!(rt; leaves_each_time(alloc, Delay::Transport, false, Zero, &others)?);
    Ok(())
}

/// Whether an inertial assignment at 8 fs, 4 fs ahead, leaves these of many transactions.
fn leaves_of_many(alloc: Global, wanted: &[Transaction]) -> Result<bool, AllocError> {
    let mut driver = assigned_each_time(alloc, Delay::Transport, false)?;
    driver.edit(8, Delay::Inertial { reject: 2 }, &[(4, One)])?;
    Ok(driver.pending() == wanted)
}

#[test]
fn many_pending_transactions_are_edited(rt: HostRuntime) -> Result<(), Fail> {
    assert!(rt; leaves_of_many(rt.alloc(), &[(8, One), (9, Zero), (12, One)])?);
    Ok(())
}

/// A driver with one transaction, at 5 fs.
fn one_pending(alloc: Global) -> Result<Driver, AllocError>
    ensures { IfOk result (λ driver. driver.pending ≡ (5, logic.Logic.One) ∷ []) }
{
    let mut driver = Driver::new(alloc, Zero);
    driver.edit(0, Delay::Transport, &[(5, One)])?;
    Ok(driver)
}

/// Whether an inertial assignment to it at 3 fs, 5 fs ahead, leaves these.
fn leaves_of_one(
    alloc: Global,
    reject: u64,
    value: Logic,
    wanted: &[Transaction],
) -> Result<bool, AllocError>
    requires { reject ≤ 5 }
{
    let mut driver = one_pending(alloc)?;
    driver.edit(3, Delay::Inertial { reject }, &[(5, value)])?;
    Ok(driver.pending() == wanted)
}

#[test]
fn a_single_pending_transaction_is_kept_or_rejected(rt: HostRuntime) -> Result<(), Fail> {
    assert!(rt; leaves_of_one(rt.alloc(), 5, One, &[(5, One), (8, One)])?);
    assert!(rt; leaves_of_one(rt.alloc(), 3, Zero, &[(8, Zero)])?);
    Ok(())
}

/// The values of the drivers, resolved one after another.
fn resolved_in_turn(drivers: &[Driver]) -> Logic
    ensures { result ≡ fold resolution_table Logic.Z (map (λ driver. driver.value) drivers.now) }
{
    let mut value = Logic::Z;
    for driver in drivers {
        value = resolve_two(value, driver.value());
    }
    value
}

/// The value of a signal with these drivers, computed without a list of their values.
fn driving_value(drivers: &[Driver]) -> Logic
    ensures { result ≡ resolved (map (λ driver. driver.value) drivers.now) }
{
    match drivers {
        [only] => only.value(),
        _ => resolved_in_turn(drivers),
    }
}

/// Whether signals with no driver, one and two have the right values.
fn are_resolved(alloc: Global) -> bool {
    let drivers = [Driver::new(alloc, Dash), Driver::new(alloc, One)];
    driving_value(&drivers[..1]) == Dash
        && driving_value(drivers.as_slice()) == X
        && driving_value(&[]) == Logic::Z
}

#[test]
fn drivers_are_resolved_in_turn(rt: HostRuntime) {
    assert!(rt; are_resolved(rt.alloc()));
}
