//! Rows of calls of a driver. An assignment that finds no memory is made once more, with the same
//! driver.

ghost use Rattle.std.specs.Prelude.{◌≡◌, ◌<◌, ◌≤◌, length, All, OnOk};
ghost use Rattle.sim_logic.specs.Time.{largest_time};
ghost use Rattle.sim_standard.specs.Drivers.{Transaction as transaction, transaction_at};
ghost use Rattle.sim_standard.specs.Editing.{edited};
ghost use Rattle.sim_wave.specs.Rising.{RisesFrom, IsWithin};

use sim_logic::Logic::{One, Zero};
use sim_wave::{Delay, Driver, Transaction};
use std::alloc::{AllocError, Global};

/// Carries out a signal assignment.
fn edit(
    driver: &mut Driver,
    now: u64,
    delay: Delay,
    elements: &[Transaction],
) -> Result<(), AllocError>
    requires some { 0 < length elements.now }
    requires rise { RisesFrom 0 elements.now }
    requires delays { All (λ (element : transaction). element.0 ≤ largest_time) elements.now }
    requires now { now ≤ largest_time }
    requires reject { IsWithin delay (transaction_at elements.now 0).0 }
    requires later { RisesFrom now driver.old.pending }
    ensures ok { OnOk result (driver.new
        ≡ record driver.old { pending = edited driver.old.pending now delay elements.now }) }
{
    match driver.edit(now, delay, elements) {
        Err(_refused) => driver.edit(now, delay, elements),
        done => done,
    }
}

/// A pulse from 3 fs to 5 fs, followed by an inertial assignment that keeps its rise.
fn short_pulse(alloc: Global) -> Result<Driver, AllocError> {
    let mut driver = Driver::new(alloc, Zero);
    edit(&mut driver, 0, Delay::Transport, &[(3, One), (5, Zero)])?;
    edit(&mut driver, 1, Delay::Inertial { reject: 3 }, &[(3, One)])?;
    Ok(driver)
}

/// A copy of a driver.
fn copy_of(driver: &Driver) -> Result<Driver, AllocError> {
    match driver.try_copy() {
        Err(_refused) => driver.try_copy(),
        copy => copy,
    }
}

/// Whether a driver is equal to its copy.
fn is_copied(driver: &Driver) -> Result<bool, AllocError> {
    let copy = copy_of(driver)?;
    Ok(copy.same(driver))
}

/// Whether the driver takes its first transaction at its time, and not before.
fn takes_in_turn(driver: &mut Driver) -> bool {
    driver.pending() == [(3, One), (4, One)].as_slice()
        && !driver.take(2)
        && driver.take(3)
        && driver.value() == One
        && driver.pending() == [(4, One)].as_slice()
}

/// Whether a pulse is edited and taken.
pub fn is_pulse(alloc: Global) -> Result<bool, AllocError> {
    let mut driver = short_pulse(alloc)?;
    let is_taken = takes_in_turn(&mut driver);
    Ok(is_copied(&driver)? && is_taken)
}

/// A pulse from 2 fs to 3 fs, followed by an inertial assignment of '1' at 5 fs.
fn pulse_rejected_by(alloc: Global, reject: u64) -> Result<Driver, AllocError>
    requires { reject ≤ 5 }
{
    let mut driver = Driver::new(alloc, Zero);
    edit(&mut driver, 0, Delay::Transport, &[(2, One), (3, Zero)])?;
    edit(&mut driver, 0, Delay::Inertial { reject }, &[(5, One)])?;
    Ok(driver)
}

/// Whether these transactions are left.
fn keeps(alloc: Global, reject: u64, wanted: &[Transaction]) -> Result<bool, AllocError>
    requires { reject ≤ 5 }
{
    let driver = pulse_rejected_by(alloc, reject)?;
    Ok(driver.pending() == wanted)
}

/// Whether each of three rejection limits keeps the right transactions.
pub fn are_rejected(alloc: Global) -> Result<bool, AllocError> {
    let first = keeps(alloc, 1, &[(2, One), (3, Zero), (5, One)])?;
    let second = keeps(alloc, 2, &[(2, One), (5, One)])?;
    Ok(keeps(alloc, 3, &[(5, One)])? && first && second)
}
