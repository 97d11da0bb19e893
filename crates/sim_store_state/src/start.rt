//! The state of a design before any process is executed (IEEE 1076-2008, 14.7.5.2).

ghost use Rattle.std.specs.Prelude.{[], ◌≡◌, ◌+◌, ◌≤◌, map, length, take, drop, IfOk};
ghost use Rattle.std.specs.List.{All};
ghost use Rattle.sim_flat_design.specs.declared.design.DriverOf.{DriverOf as driver_of};
ghost use Rattle.sim_standard.specs.Initialization as at_start;
ghost use Rattle.sim_standard.specs.State.{all_drivers, driver_values};

use sim_containers::RowArray;
use sim_flat_design::{Design, DriverOf, Held, Process};
use sim_logic::Logic;
use sim_store_share::Share;
use sim_wave::Driver;
use std::alloc::{AllocError, Global};

/// Drivers with their initial values and no pending transactions.
fn idle_drivers(alloc: Global, drivers: &[DriverOf]) -> Result<Vec<Driver>, AllocError>
    ensures { IfOk result (λ v. v.items ≡ map (λ (d : driver_of). record { value = d.first; pending = [] }) drivers.now) }
{
    drivers
        .iter()
        .map(|driver| Driver::new(alloc, driver.first))
        .collect(alloc)
}

/// The drivers of a process.
fn drivers_of<'a>(drivers: &'a [DriverOf], process: &Process) -> &'a [DriverOf]
    requires { process.now.first_driver + process.now.body.drivers ≤ length drivers.now }
    ensures { result.now ≡ take process.now.body.drivers (drop process.now.first_driver drivers.now) }
{
    let first = process.first_driver();
    &drivers[first..first + process.body().drivers()]
}

/// The initial drivers of a process.
fn own_drivers(
    alloc: Global,
    drivers: &[DriverOf],
    process: &Process,
) -> Result<Vec<Driver>, AllocError>
    requires { process.now.first_driver + process.now.body.drivers ≤ length drivers.now }
    ensures { IfOk result (λ v. v.items ≡ (at_start.first_owned drivers.now process.now).drivers) }
{
    idle_drivers(alloc, drivers_of(drivers, process))
}

/// The initial drivers of each process.
fn first_drivers(
    alloc: Global,
    drivers: &[DriverOf],
    processes: &[Process],
) -> Result<RowArray<Driver>, AllocError>
    requires { All (λ p. p.first_driver + p.body.drivers ≤ length drivers.now) processes.now }
    ensures { IfOk result (λ r. r ≡ map (λ p. (at_start.first_owned drivers.now p).drivers) processes.now) }
{
    let mut rows = RowArray::new(alloc)?;
    for process in processes {
        rows.append(own_drivers(alloc, drivers, process)?)?;
    }
    Ok(rows)
}

/// The initial variables of each process.
fn first_variables(alloc: Global, processes: &[Process]) -> Result<RowArray<Held>, AllocError>
    ensures { IfOk result (λ r. r ≡ map (λ p. p.body.variables) processes.now) }
{
    let mut rows = RowArray::new(alloc)?;
    for process in processes {
        rows.push_row(process.body().variables())?;
    }
    Ok(rows)
}

/// The initial drivers and variables of each process.
fn first_owned(
    alloc: Global,
    design: &Design,
) -> Result<(RowArray<Driver>, RowArray<Held>), AllocError>
    ensures drivers { IfOk result (λ r. r.0 ≡ map (λ p. (at_start.first_owned design.now.drivers p).drivers) design.now.processes) }
    ensures variables { IfOk result (λ r. r.1 ≡ map (λ p. p.body.variables) design.now.processes) }
{
    let drivers = first_drivers(alloc, design.drivers(), design.processes())?;
    let variables = first_variables(alloc, design.processes())?;
    Ok((drivers, variables))
}

/// The value of each driver.
fn driving_values(alloc: Global, drivers: &[Driver]) -> Result<Vec<Logic>, AllocError>
    ensures { IfOk result (λ v. v.items ≡ driver_values drivers.now) }
{
    let mut values = Vec::with_capacity(alloc, drivers.len())?;
    for driver in drivers {
        values.push(driver.value())?;
    }
    Ok(values)
}

/// The drivers and variables of the processes at first, and the value of each driver.
#[derive(Drop)]
pub struct FirstContents {
    pub share: Share,
    pub driving: Vec<Logic>,
}

/// The initial contents for a design.
pub fn first_contents(alloc: Global, design: &Design) -> Result<FirstContents, AllocError>
    ensures owned { IfOk result (λ r. r.share ≡ map (at_start.first_owned design.now.drivers) design.now.processes) }
    ensures driving { IfOk result (λ r. r.driving.items ≡ driver_values (all_drivers r.share)) }
{
    let (drivers, variables) = first_owned(alloc, design)?;
    let driving = driving_values(alloc, drivers.flat())?;
    let share = Share::first(alloc, drivers, variables)?;
    Ok(FirstContents { share, driving })
}
