//! Executes the body of one process, in place, in flat lists.

ghost use Rattle.std.specs.Prelude.{◌≡◌, ◌<◌, ◌≤◌, ◌-◌, ◌++◌, [], false, Ok, length, take, drop, slice_range, slice_index_or, slice_set};
ghost use Rattle.sim_store_share.specs.Executions.{IsBodyExecuted, IsBodyReady};
ghost use Rattle.sim_store_share.specs.Executions as spec;
ghost use Rattle.sim_store_share.specs.Shares.{own_at};

use crate::reading::Reading;
use sim_containers::{RowArray, bounds};
use sim_exec_code::Frame;
use sim_flat_design::Held;
use sim_store_nets::Seen;
use sim_wave::Driver;
use std::alloc::{AllocError, Global};

/// Executes the body of the process with a number by its code. Its drivers and variables are between these bounds.
/// Returns whether anything may have changed.
fn execute_between(
    alloc: Global,
    reading: &Reading,
    number: usize,
    frame: &mut Frame,
    drivers: &mut [Driver],
    owned: (usize, usize),
    variables: &mut [Held],
    held: (usize, usize),
) -> Result<bool, AllocError>
    requires executable { IsBodyReady reading.now number frame.old
        (record { drivers = slice_range drivers.old owned.0 owned.1; variables = slice_range variables.old held.0 held.1 }) }
    requires owned { (owned.0 ≤ owned.1) × (owned.1 ≤ length drivers.old) }
    requires held { (held.0 ≤ held.1) × (held.1 ≤ length variables.old) }
    ensures frame { frame.new ≡ frame.old }
    ensures drivers { drivers.new ≡ take owned.0 drivers.old ++ slice_range drivers.new owned.0 owned.1 ++ drop owned.1 drivers.old }
    ensures variables { variables.new ≡ take held.0 variables.old ++ slice_range variables.new held.0 held.1 ++ drop held.1 variables.old }
    ensures done { IsBodyExecuted reading.now number result
        (record { drivers = slice_range drivers.old owned.0 owned.1; variables = slice_range variables.old held.0 held.1 })
        (record { drivers = slice_range drivers.new owned.0 owned.1; variables = slice_range variables.new held.0 held.1 }) }
{
    let process = &reading.processes[number];
    let nets = Seen {
        object_nets: process.nets(),
        values: reading.nets.values,
        values_before: reading.nets.values_before,
    };
    let places = Seen {
        object_nets: reading.codes.nets(number),
        values: reading.nets.values,
        values_before: reading.nets.values_before,
    };
    reading.codes.execute(
        alloc,
        &nets,
        &places,
        reading.time,
        number,
        process.body(),
        frame,
        &mut drivers[owned.0..owned.1],
        &mut variables[held.0..held.1],
    )
}

/// The same. Its drivers and variables are at the same place of both lists.
pub(crate) fn execute_in_rows(
    alloc: Global,
    reading: &Reading,
    number: usize,
    frame: &mut Frame,
    drivers: &mut RowArray<Driver>,
    variables: &mut RowArray<Held>,
) -> Result<bool, AllocError>
    requires from { reading.now.first ≤ number }
    requires executable { IsBodyReady reading.now number frame.old (own_at drivers.old variables.old (number - reading.now.first)) }
    requires drivers { number - reading.now.first < length drivers.old }
    requires variables { number - reading.now.first < length variables.old }
    ensures frame { frame.new ≡ frame.old }
    ensures drivers { drivers.new ≡ slice_set drivers.old (number - reading.now.first) (slice_index_or drivers.new (number - reading.now.first) []) }
    ensures variables { variables.new ≡ slice_set variables.old (number - reading.now.first) (slice_index_or variables.new (number - reading.now.first) []) }
    ensures done { IsBodyExecuted reading.now number result (own_at drivers.old variables.old (number - reading.now.first))
        (own_at drivers.new variables.new (number - reading.now.first)) }
{
    let place = number - reading.first;
    let owned = bounds(drivers.starts.as_slice(), place);
    let held = bounds(variables.starts.as_slice(), place);
    execute_between(
        alloc,
        reading,
        number,
        frame,
        drivers.flat.as_mut_slice(),
        owned,
        variables.flat.as_mut_slice(),
        held,
    )
}

/// Whether anything may have changed: an execution that failed may have been carried out in part.
pub(crate) fn may_have_changed(done: &Result<bool, AllocError>) -> bool
    ensures { result ≡ false → done.now ≡ Ok false }
{
    match done {
        Ok(done) => *done,
        Err(_) => true,
    }
}

/// Only whether an execution failed.
pub(crate) fn as_done(done: Result<bool, AllocError>) -> Result<(), AllocError>
    ensures { result ≡ spec.without_value done }
{
    match done {
        Ok(_) => Ok(()),
        Err(error) => Err(error),
    }
}
