//! Rows of calls of a queue of times. A call that finds no memory is made once more, with the same
//! queue.

ghost use Rattle.std.specs.Prelude.{◌≡◌, ◌<◌, length, Some, IfOk};
ghost use Rattle.sim_containers.specs.Times.{earliest};

use sim_containers::TimeQueue;
use std::alloc::{AllocError, Global};

/// Sets or clears the time of a driver.
fn put(queue: &mut TimeQueue, driver: usize, time: Option<u64>) -> Result<(), AllocError>
    requires { driver < length queue.old }
    ensures { length queue.new ≡ length queue.old }
{
    match queue.put(driver, time) {
        Err(_refused) => queue.put(driver, time),
        done => done,
    }
}

/// Removes the drivers with the least time.
fn take_due(alloc: Global, queue: &mut TimeQueue, time: u64) -> Result<Vec<usize>, AllocError>
    requires { earliest queue.old ≡ Some time }
    ensures { length queue.new ≡ length queue.old }
{
    match queue.take_due(alloc, time) {
        Err(_refused) => queue.take_due(alloc, time),
        taken => taken,
    }
}

/// Puts drivers 1 and 2 at 3, then driver 1 at 9.
fn put_two(queue: &mut TimeQueue) -> Result<(), AllocError>
    requires { length queue.old ≡ 3 }
    ensures { length queue.new ≡ 3 }
{
    put(queue, 1, Some(3))?;
    put(queue, 2, Some(3))?;
    put(queue, 1, Some(9))
}

/// A queue of three drivers.
fn new(alloc: Global) -> Result<TimeQueue, AllocError>
    ensures { IfOk result (λ queue. length queue ≡ 3) }
{
    match TimeQueue::new(alloc, 3) {
        Err(_refused) => TimeQueue::new(alloc, 3),
        made => made,
    }
}

/// A queue with driver 0 at 5 and these two.
fn three(alloc: Global) -> Result<TimeQueue, AllocError>
    ensures { IfOk result (λ queue. length queue ≡ 3) }
{
    let mut queue = new(alloc)?;
    put(&mut queue, 0, Some(5))?;
    put_two(&mut queue)?;
    Ok(queue)
}

/// Whether driver 2 is due at 3.
fn is_due(alloc: Global, queue: &mut TimeQueue) -> Result<bool, AllocError>
    ensures { length queue.new ≡ length queue.old }
{
    if queue.least() != Some(3) {
        return Ok(false);
    }
    Ok(take_due(alloc, queue, 3)?.as_slice() == [2].as_slice())
}

/// Whether driver 0 is due next, at 5, and once its time is cleared, driver 1 at 9.
fn goes_on(queue: &mut TimeQueue) -> Result<bool, AllocError>
    requires { length queue.old ≡ 3 }
{
    let is_next = queue.least() == Some(5);
    put(queue, 0, None)?;
    Ok(queue.least() == Some(9) && is_next)
}

/// Whether each driver is taken at the time that was put last.
pub fn is_queue(alloc: Global) -> Result<bool, AllocError> {
    let mut queue = three(alloc)?;
    let is_taken = is_due(alloc, &mut queue)?;
    Ok(goes_on(&mut queue)? && is_taken)
}
