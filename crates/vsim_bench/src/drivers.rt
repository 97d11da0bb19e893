//! `drivers N`: N steps on one driver, in each of several ways and with each of several numbers of
//! pending transactions. In a step the driver takes its first transactions and is assigned as many
//! new ones, so that the number of pending transactions stays the same.

ghost use Rattle.std.specs.Prelude.{◌≤◌, IfSome};
ghost use Rattle.sim_wave.specs.Rising.{IsWithin, RisesFrom};

use anyhow::Result;
use sim_logic::LATEST;
use sim_logic::Logic::{One, X, Zero};
use sim_wave::{Delay, Driver};
use std::alloc::{AllocError, Global};
use std::rt::Clock;
use std::time::{Duration, Instant};

/// The numbers of pending transactions.
const PENDING: [u64; 4] = [1, 2, 16, 100_000];

/// The most pending transactions.
const MOST: u64 = 1_000_000;

/// The assignments of a step.
#[derive(Clone, Copy)]
enum Way {
    /// One element with transport delay, of the other value.
    Transport,
    /// One element with inertial delay, of the same value as all that is pending, so that all of it
    /// stays.
    Equal,
    /// A pulse with transport delay, then an element that rejects both its edges.
    Rejection,
    /// A pulse with transport delay, then an element that rejects its rising edge and keeps its
    /// falling edge, which leaves a gap to close. Two transactions are taken.
    Gap,
}

/// The ways that need only one pending transaction.
static WAYS: [Way; 3] = [Way::Transport, Way::Equal, Way::Rejection];

impl Way {
    /// The start of the line of this way.
    fn name(self) -> &'static str {
        match self {
            Way::Transport => "transport",
            Way::Equal => "equal values",
            Way::Rejection => "rejections",
            Way::Gap => "gaps",
        }
    }
}

/// A driver with transactions of the value '1' at 4 fs, 8 fs, 12 fs and so on.
fn filled(alloc: Global, count: u64) -> Result<Driver, AllocError>
    requires { count ≤ MOST }
{
    let mut driver = Driver::new(alloc, Zero);
    for place in 0..count {
        driver.edit(0, Delay::Transport, &[(4 * place + 4, One)])?;
    }
    Ok(driver)
}

/// Takes the first transaction, and returns its time; `None` if there is none up to `LATEST`.
fn take_next(driver: &mut Driver) -> Option<u64>
    ensures time { IfSome result (λ now. now ≤ LATEST) }
    ensures later { IfSome result (λ now. RisesFrom now driver.new.pending) }
{
    let now = driver.next()?;
    if now > LATEST {
        return None;
    }
    driver.take(now);
    Some(now)
}

/// One element in each step, of the value that was taken or of the opposite one.
fn assign_each(
    driver: &mut Driver,
    mechanism: Delay,
    delay: u64,
    other: bool,
    count: u64,
) -> Result<(), AllocError>
    requires reject { IsWithin mechanism delay }
    requires delay { delay ≤ LATEST }
{
    for _step in 0..count {
        let Some(now) = take_next(driver) else {
            break;
        };
        let value = if other {
            driver.value().not()
        } else {
            driver.value()
        };
        driver.edit(now, mechanism, &[(delay, value)])?;
    }
    Ok(())
}

/// A pulse in each step, then an element that rejects both its edges.
fn reject_pulses(driver: &mut Driver, delay: u64, count: u64) -> Result<(), AllocError>
    requires above { 4 ≤ delay }
    requires delay { delay ≤ LATEST }
{
    for _step in 0..count {
        let Some(now) = take_next(driver) else {
            break;
        };
        driver.edit(now, Delay::Transport, &[(delay - 2, Zero), (delay - 1, X)])?;
        driver.edit(now, Delay::Inertial { reject: 3 }, &[(delay, One)])?;
    }
    Ok(())
}

/// A pulse in each step, then an element that rejects its first edge and keeps its second.
fn close_gaps(driver: &mut Driver, delay: u64, count: u64) -> Result<(), AllocError>
    requires above { 8 ≤ delay }
    requires delay { delay ≤ LATEST }
{
    for _step in 0..count {
        let _ = take_next(driver);
        let Some(now) = take_next(driver) else {
            break;
        };
        driver.edit(
            now,
            Delay::Transport,
            &[(delay - 6, Zero), (delay - 4, One)],
        )?;
        driver.edit(now, Delay::Inertial { reject: 7 }, &[(delay, One)])?;
    }
    Ok(())
}

/// `count` steps with this number of pending transactions.
fn make_steps(driver: &mut Driver, way: Way, pending: u64, count: u64) -> Result<(), AllocError>
    requires some { 1 ≤ pending }
    requires most { pending ≤ MOST }
{
    let delay = 4 * pending;
    match way {
        Way::Transport => assign_each(driver, Delay::Transport, delay, true, count),
        Way::Equal => assign_each(
            driver,
            Delay::Inertial { reject: delay },
            delay,
            false,
            count,
        ),
        Way::Rejection => reject_pulses(driver, delay, count),
        Way::Gap => close_gaps(driver, delay.max(8), count),
    }
}

/// The time that the steps take.
fn timed<R: Clock>(
    rt: &R,
    driver: &mut Driver,
    way: Way,
    pending: u64,
    count: u64,
) -> Result<Duration>
    requires some { 1 ≤ pending }
    requires most { pending ≤ MOST }
{
    let start = Instant::now(rt)?;
    make_steps(driver, way, pending, count)?;
    let took = start.elapsed(rt)?;
    Ok(took)
}

/// Prints the time, and what is left in the driver.
fn print_times<R: Print + Eprint>(
    rt: &R,
    way: Way,
    pending: u64,
    took: Duration,
    driver: &Driver,
) -> Result<()> {
    let name = way.name();
    eprintln!(rt; "{name}, {pending} pending: {took:?}")?;
    let left = driver.pending().len();
    let next = driver.next();
    println!(rt; "{name}, {pending} pending: {left} left, the next at {next:?}")?;
    Ok(())
}

/// Times one way with one number of pending transactions.
fn report<R: Print + Eprint + Clock + AllocGlobal>(
    rt: &R,
    way: Way,
    pending: u64,
    count: u64,
) -> Result<()>
    requires some { 1 ≤ pending }
    requires most { pending ≤ MOST }
{
    let mut driver = filled(rt.alloc(), pending)?;
    let took = timed(rt, &mut driver, way, pending, count)?;
    print_times(rt, way, pending, took, &driver)
}

/// Times each way with each number of pending transactions; a gap needs two.
pub fn run<R: Print + Eprint + Clock + AllocGlobal>(rt: &R, count: u64) -> Result<()> {
    for pending in PENDING {
        let pending = pending.clamp(1, MOST);
        for way in &WAYS {
            report(rt, *way, pending, count)?;
        }
        if pending > 1 {
            report(rt, Way::Gap, pending, count)?;
        }
    }
    Ok(())
}
