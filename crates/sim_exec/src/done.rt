//! Executed jobs.

ghost use Rattle.std.specs.Prelude.{◌≡◌, IfOk};
ghost use Rattle.sim_exec.specs.Jobs.{IsDone};
ghost use Rattle.sim_flat_design.specs.Processes.{rising};
ghost use Rattle.sim_standard.specs.State.{net_at};
ghost use Rattle.sim_standard.specs.Processes.{object_net, place_in};

use crate::idle::assign_nothing;
use crate::job::Job;
use sim_exec_statements::{Nets, execute};
use sim_flat_design::{Held, Process};
use sim_logic::Logic;
use sim_standard::NetView;
use sim_wave::Driver;
use std::alloc::{AllocError, Global};
use std::marker::Model;

/// A placeholder for a net of which a job has no view: no body reads it.
const UNSEEN: NetView = NetView {
    value: Logic::U,
    event: false,
    before: Logic::U,
};

/// The index of a number in an ascending list, or the length of the list if it is not there.
fn place_in(numbers: &[usize], number: usize) -> usize
    requires { rising numbers.now ≡ numbers.now }
    ensures { result ≡ place_in numbers.now number }
{
    match numbers.binary_search(&number) {
        Ok(place) => place,
        Err(_) => numbers.len(),
    }
}

/// The net at an index, or the placeholder.
fn net_at(nets: &[NetView], place: usize) -> NetView
    ensures { result ≡ net_at nets.now place }
{
    match nets.get(place) {
        Some(net) => *net,
        None => UNSEEN,
    }
}

/// How a job sees the nets.
#[derive(Drop)]
struct Sight<'a> {
    process: &'a Process,
    views: &'a [NetView],
}

impl Nets for Sight<'_> {
    ghost look = { λ s object. net_at s.views.now (place_in s.process.now.reads (object_net s.process.now object)) };

    fn view(&self, object: usize) -> NetView {
        let net = self.process.nets().get(object).copied().unwrap_or(0);
        net_at(self.views, place_in(self.process.reads(), net))
    }
}

/// The drivers and variables of a process after an execution.
#[derive(Drop)]
pub struct Results {
    pub drivers: Vec<Driver>,
    pub variables: Vec<Held>,
}

impl Model for Results {
    ghost use Rattle.sim_standard.specs.State.{Owned};

    ghost Value = { Owned };

    ghost view = { λ r. record { drivers = r.drivers.items; variables = r.variables.items } };
}

/// An executed job, with the drivers and variables that its process leaves: those that the meaning
/// of the process gives on the job's part of a state.
///
/// If nothing was assigned, nothing is copied. In contracts, a `Done` is its job, which determines
/// the rest.
pub struct Done {
    job: Job,
    /// The new drivers and variables, or `None` if nothing was assigned.
    results: Option<Results>,
}

/// Written by hand so that code which drops it needs no proof about its contents.
impl Drop for Done {
    fn drop(self) {
        let Done { job, results } = self;
        drop(job);
        drop(results);
    }
}

impl Model for Done {
    ghost use Rattle.std.specs.Coded.{codes};
    ghost use Rattle.sim_flat_design.specs.contracts.expression.LogicExpression as logic;
    ghost use Rattle.sim_flat_design.specs.contracts.expression.BooleanExpression as boolean;
    ghost use Rattle.sim_flat_design.specs.contracts.statement.Statement as statement;
    ghost use Rattle.sim_exec.specs.Jobs.{Job, IsDone};

    ghost Value = { Job };

    ghost coded = { Prim.hlevel (codes, logic.the_row.coded, boolean.the_row.coded, statement.the_row.coded) };

    ghost view = { λ d. d.job };

    ghost invariant = { λ d. IsDone d.job d.results };
}

/// Copies the drivers.
fn copies(alloc: Global, drivers: &[Driver]) -> Result<Vec<Driver>, AllocError>
    ensures { IfOk result (λ v. v.items ≡ drivers.now) }
{
    let mut copied = Vec::with_capacity(alloc, drivers.len())?;
    for driver in drivers {
        copied.push(driver.try_copy()?)?;
    }
    Ok(copied)
}

/// Executes a job on copies of its drivers and variables; `None` if it assigns nothing.
fn executed(alloc: Global, job: &Job) -> Result<Option<Results>, AllocError>
    ensures { IfOk result (λ r. IsDone job.now r) }
{
    let nets = Sight {
        process: job.process(),
        views: job.views(),
    };
    let body = job.process().body();
    if assign_nothing(&nets, job.variables(), body.statements()) {
        return Ok(None);
    }
    let mut drivers = copies(alloc, job.drivers())?;
    let mut variables = Vec::from_slice(alloc, job.variables())?;
    execute(
        alloc,
        &nets,
        job.time(),
        body,
        drivers.as_mut_slice(),
        variables.as_mut_slice(),
    )?;
    Ok(Some(Results { drivers, variables }))
}

impl Done {
    ghost use Rattle.std.specs.Prelude.{◌≡◌, MatchResult};
    ghost use Rattle.std.specs.Option.{MatchOption};
    ghost use Rattle.sim_exec_statements.specs.Ready.{IsReady};
    ghost use Rattle.sim_exec.specs.Jobs.{result_of};

    /// Executes a job once, from the first statement of its process to the last. If allocation
    /// fails, the job is returned unchanged.
    pub fn run(alloc: Global, job: Job) -> Result<Done, (AllocError, Job)>
        ensures { MatchResult result (λ d. d ≡ job) (λ e. e.1 ≡ job) }
    {
        match executed(alloc, &job) {
            Ok(results) => Ok(Done { job, results }),
            Err(error) => Err((error, job)),
        }
    }

    /// The job that was executed.
    pub fn job(&self) -> &Job
        ensures { result.now ≡ self.now }
    {
        &self.job
    }

    /// The drivers of the process after the execution.
    pub fn drivers(&self) -> &[Driver]
        ensures { result.now ≡ (result_of self.now).drivers }
    {
        match &self.results {
            None => self.job.drivers(),
            Some(results) => results.drivers.as_slice(),
        }
    }

    /// The variables of the process after the execution.
    pub fn variables(&self) -> &[Held]
        ensures { result.now ≡ (result_of self.now).variables }
    {
        match &self.results {
            None => self.job.variables(),
            Some(results) => results.variables.as_slice(),
        }
    }

    /// The job, and the drivers and variables after the execution, or `None` if they are those of
    /// the job.
    pub fn into_parts(self) -> (Job, Option<Results>)
        ensures job { result.0 ≡ self }
        ensures results { MatchOption result.1 (result_of self ≡ self.owned) (λ r. r ≡ result_of self) }
        ensures ready { IsReady self.process.body self.time (result_of self) }
    {
        let Done { job, results } = self;
        (job, results)
    }
}
