//! Jobs: processes to be executed, each with its part of a state.

ghost use Rattle.std.specs.Prelude.{◌≡◌, ◌↔◌, suc, map, IsTrue};
ghost use Rattle.std.specs.List.{All};
ghost use Rattle.sim_wave.specs.Rising.{RisesFrom};
ghost use Rattle.sim_exec_statements.specs.Ready.{holds_bit};

use sim_flat_design::{Held, Process};
use sim_logic::LATEST;
use sim_standard::NetView;
use sim_wave::Driver;
use std::marker::Model;

/// A process to be executed once, with all that it needs: the number of cycles completed, the time
/// in femtoseconds, a view of each net that the process reads, its variables and its drivers. The
/// process is shared; the lists are the job's own.
pub struct Job {
    cycle: usize,
    number: usize,
    time: u64,
    process: Process,
    views: Vec<NetView>,
    variables: Vec<Held>,
    drivers: Vec<Driver>,
}

/// Written by hand so that code which drops it needs no proof about its contents.
impl Drop for Job {
    fn drop(self) {
        let Job {
            cycle: _,
            number: _,
            time: _,
            process,
            views,
            variables,
            drivers,
        } = self;
        drop(process);
        drop(views);
        drop(variables);
        drop(drivers);
    }
}

impl Model for Job {
    ghost use Rattle.std.specs.Coded.{codes};
    ghost use Rattle.sim_flat_design.specs.contracts.expression.LogicExpression as logic;
    ghost use Rattle.sim_flat_design.specs.contracts.expression.BooleanExpression as boolean;
    ghost use Rattle.sim_flat_design.specs.contracts.statement.Statement as statement;
    ghost use Rattle.sim_exec.specs.Jobs.{Job, IsJob};

    ghost Value = { Job };

    ghost coded = { Prim.hlevel (codes, logic.the_row.coded, boolean.the_row.coded, statement.the_row.coded) };

    ghost view = { λ j. record {
      cycle = j.cycle;
      number = j.number;
      time = j.time;
      process = j.process;
      views = j.views.items;
      owned = record { drivers = j.drivers.items; variables = j.variables.items };
    } };

    ghost invariant = { λ j. IsJob j.time j.process j.views.items (record { drivers = j.drivers.items; variables = j.variables.items }) };
}

/// Whether a variable is of type std_ulogic.
fn holds_bit(held: &Held) -> bool
    ensures { result ≡ holds_bit held.now }
{
    matches!(held, Held::Bit(_))
}

/// Whether two variables are of the same type.
fn are_of_one_type(held: &Held, other: &Held) -> bool
    ensures { IsTrue result ↔ (holds_bit held.now ≡ holds_bit other.now) }
{
    holds_bit(held) == holds_bit(other)
}

/// Whether two lists have the same number of variables, of the same types in the same order.
fn are_alike(variables: &[Held], others: &[Held]) -> bool
    ensures { IsTrue result ↔ (map holds_bit variables.now ≡ map holds_bit others.now) }
{
    if variables.len() != others.len() {
        return false;
    }
    for (i, held) in variables.iter().enumerate() {
        let other = &others[i];
        if !are_of_one_type(held, other) {
            return false;
        }
    }
    true
}

/// Whether all pending transactions of these drivers are after a time.
fn are_later(drivers: &[Driver], time: u64) -> bool
    ensures { IsTrue result ↔ All (λ d. RisesFrom (suc time) d.pending) drivers.now }
{
    drivers.iter().all(|driver| is_later(driver, time))
}

/// Whether all pending transactions of a driver are after a time.
fn is_later(driver: &Driver, time: u64) -> bool
    ensures { IsTrue result ↔ RisesFrom (suc time) driver.now.pending }
{
    match driver.pending() {
        [] => true,
        [first, ..] => first.0 > time,
    }
}

impl Job {
    ghost use Rattle.std.specs.Prelude.{◌≡◌, ◌↔◌, IsTrue};
    ghost use Rattle.sim_exec.specs.Jobs.{IsJob};

    /// Returns true if the lists fit the process: a view of each net that it reads, in the order of
    /// net numbers; its variables, each of its type, and its drivers, in the order of the body. The
    /// time is at most 2^62 - 1 fs, and all pending transactions are after it.
    pub fn fits(
        time: u64,
        process: &Process,
        views: &[NetView],
        variables: &[Held],
        drivers: &[Driver],
    ) -> bool
        ensures { IsTrue result ↔ IsJob time process.now views.now (record { drivers = drivers.now; variables = variables.now }) }
    {
        views.len() == process.reads().len()
            && time <= LATEST
            && drivers.len() == process.body().drivers()
            && are_alike(variables, process.body().variables())
            && are_later(drivers, time)
    }

    /// The job of the process with this number. Its lists fit the process, see `fits`.
    pub fn new(
        cycle: usize,
        number: usize,
        time: u64,
        process: Process,
        views: Vec<NetView>,
        variables: Vec<Held>,
        drivers: Vec<Driver>,
    ) -> Job
        requires { IsJob time process views.items (record { drivers = drivers.items; variables = variables.items }) }
        ensures { result ≡ record {
          cycle = cycle;
          number = number;
          time = time;
          process = process;
          views = views.items;
          owned = record { drivers = drivers.items; variables = variables.items };
        } }
    {
        Job {
            cycle,
            number,
            time,
            process,
            views,
            variables,
            drivers,
        }
    }

    /// The number of cycles completed.
    pub fn cycle(&self) -> usize
        ensures { result ≡ self.now.cycle }
    {
        self.cycle
    }

    /// The number of the process.
    pub fn number(&self) -> usize
        ensures { result ≡ self.now.number }
    {
        self.number
    }

    /// The time of the cycle, in femtoseconds.
    pub fn time(&self) -> u64
        ensures { result ≡ self.now.time }
    {
        self.time
    }

    /// The process to be executed.
    pub fn process(&self) -> &Process
        ensures { result.now ≡ self.now.process }
    {
        &self.process
    }

    /// A view of each net that the process reads, in the order of net numbers. The whole job fits
    /// its process.
    pub fn views(&self) -> &[NetView]
        ensures value { result.now ≡ self.now.views }
        ensures fits { IsJob self.now.time self.now.process self.now.views self.now.owned }
    {
        self.views.as_slice()
    }

    /// The variables of the process.
    pub fn variables(&self) -> &[Held]
        ensures { result.now ≡ self.now.owned.variables }
    {
        self.variables.as_slice()
    }

    /// The drivers of the process.
    pub fn drivers(&self) -> &[Driver]
        ensures { result.now ≡ self.now.owned.drivers }
    {
        self.drivers.as_slice()
    }
}
