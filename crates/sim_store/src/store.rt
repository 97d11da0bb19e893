//! The store of a run (IEEE 1076-2008, 14.7.5).

ghost use Rattle.std.specs.Prelude.{◌≡◌, ◌≢◌, ◌<◌, ◌≤◌, Ok, Err, Some, None, suc, drop, length, true};
ghost use Rattle.std.specs.Prelude.{MatchOption, MatchResult, IfSome, IfOk, IfErr, OnOk, OnErr};
ghost use Rattle.sim_flat_design.specs.Designs.{most};
ghost use Rattle.sim_logic.specs.Time.{largest_time};
ghost use Rattle.std.specs.List.{All};
ghost use Rattle.sim_standard.specs.State.{net_at};
ghost use Rattle.sim_standard.specs.Agreement.{total_of, value_by};
ghost use Rattle.sim_standard.specs.Records.{IsNamed, records_to};
ghost use Rattle.sim_standard.specs.Cycle.{CycleAt};
ghost use Rattle.sim_store_simulation.specs.Simulation as simulations;
ghost use Rattle.sim_store.specs.Run as runs;
ghost use Rattle.sim_store_state.specs.Log.{no_past};
ghost use Rattle.sim_store.specs.WaveStore as spec;
ghost use Rattle.sim_store.specs.declared.error.StoreError.TheVariants as refusal;
ghost use Rattle.sim_store.specs.declared.store.Step.TheVariants as step;

use crate::error::StoreError;
use crate::run::Run;
use sim_exec::{Done, Job};
use sim_flat_design::Design;
use sim_logic::Logic;
use sim_store_simulation::{Simulation, records_from};
use sim_store_state::{Log, Record};
use std::alloc::{AllocError, Global};
use std::marker::Model;

/// The step by which a store went on.
#[derive(Clone, Copy, Debug, PartialEq, Eq)]
pub enum Step {
    /// It began one more cycle, with one more record.
    Next,
    /// It began the phase of postponed processes: the due ones that are not postponed have been
    /// executed, and no delta cycle follows, so those that wait are now due (14.7.5.3 h). There is no
    /// new record.
    Postponed,
    /// A postponed process causes a delta cycle, which is an error (14.7.5.3 h): the run has ended.
    PostponedDelta,
    /// Nothing is pending up to the stop time: the run has ended.
    Finished,
    /// The run needs more cycles than the limit: it has ended.
    LimitReached,
}

/// How far a run has come.
#[derive(Clone, Copy, Debug, PartialEq, Eq)]
pub struct Look {
    /// The number of records.
    pub records: usize,
    /// The time of the last cycle, in femtoseconds.
    pub time: u64,
    /// Its delta number: the number of cycles before it at this time.
    pub delta: u64,
    /// The number of events in the cycles after the initialization.
    pub events: u64,
}

/// Refuses a process that is not due, or has been executed in this phase.
fn check(simulation: &Simulation, number: usize) -> Result<(), StoreError>
    ensures { MatchResult result (λ _. simulations.IsMissing simulation.now number) (spec.IsNotMissing simulation.now number) }
{
    if !simulation.is_due(number) {
        return Err(StoreError::NotDue);
    }
    if simulation.is_deposited(number) {
        return Err(StoreError::Twice);
    }
    Ok(())
}

/// The state of a run, and its history. By its type, what is recorded is what the simulation cycle
/// of its design gives, one process at a time, and the way the run ended is its outcome.
pub struct WaveStore {
    run: Run,
}

/// Written by hand so that code which drops it needs no proof about its contents.
impl Drop for WaveStore {
    fn drop(self) {
        let WaveStore { run } = self;
        drop(run);
    }
}

impl Model for WaveStore {
    ghost use Rattle.std.specs.Coded.{codes};
    ghost use Rattle.sim_flat_design.specs.contracts.expression.LogicExpression as logic;
    ghost use Rattle.sim_flat_design.specs.contracts.expression.BooleanExpression as boolean;
    ghost use Rattle.sim_flat_design.specs.contracts.statement.Statement as statement;
    ghost use Rattle.std.specs.Prelude.{◌≡◌};
    ghost use Rattle.sim_store.specs.WaveStore.{WaveStore};

    ghost Value = { WaveStore };

    ghost coded = { Prim.hlevel (codes, logic.the_row.coded, boolean.the_row.coded, statement.the_row.coded) };

    ghost view = { λ s. s.run.store };

    ghost invariant = { λ s. s.run.given ≡ 0 };
}

impl WaveStore {
    /// The store of a design after its initialization (14.7.5.2): record 0 has every net, and all
    /// processes are due, the postponed ones after the others. The stop time is in femtoseconds;
    /// the limit is the number of cycles that the run may have. The design is returned with
    /// `StopTooLate`, if the stop time is above 2^62 - 1, and with `Memory`.
    pub fn new(
        alloc: Global,
        design: Design,
        stop: u64,
        limit: u32,
    ) -> Result<WaveStore, (StoreError, Design)>
        ensures ok { IfOk result (λ s. (stop ≤ largest_time) × (s ≡ spec.begun design stop limit)) }
        ensures err { IfErr result (λ e. spec.IsNewRefusal stop e.0 × (e.1 ≡ design)) }
    {
        let run = Run::new(alloc, design, stop, limit)?;
        Ok(WaveStore { run })
    }

    /// The job of a due process that has not been executed. Refusals: `Ended`, `NotDue`, `Twice`,
    /// `Memory`, in this order.
    pub fn job(&self, alloc: Global, process: usize) -> Result<Job, StoreError>
        ensures ok { IfOk result (λ job. spec.IsOpen self.now × simulations.IsMissing self.now.simulation process
            × simulations.IsJobOf self.now.simulation process job) }
        ensures err { IfErr result (spec.IsJobRefusal self.now process) }
    {
        if self.run.ended().is_some() {
            return Err(StoreError::Ended);
        }
        check(self.run.simulation(), process)?;
        let job = self.run.simulation().job(alloc, process)?;
        Ok(job)
    }

    /// Takes the result of a process: it owns what its execution gave, and nothing else changes. It
    /// takes no memory. Refusals: `Ended`, `Stale`, `NotDue`, `Twice`, `Foreign`, in this order;
    /// the result is then returned.
    pub fn deposit(&mut self, done: Done) -> Result<(), (StoreError, Done)>
        ensures ok { OnOk result (spec.IsTaken self.old done × (self.new ≡ spec.deposited self.old done.number)) }
        ensures err { IfErr result (λ e. spec.IsDepositRefusal self.old done e.0 × (e.1 ≡ done)) }
        ensures kept { OnErr result (self.new ≡ self.old) }
    {
        match self.accept(done.job()) {
            Err(error) => Err((error, done)),
            Ok(()) => {
                self.run.deposit(done);
                Ok(())
            }
        }
    }

    /// Returns whether the result of a job would be taken, or why not.
    fn accept(&self, job: &Job) -> Result<(), StoreError>
        ensures { MatchResult result (λ _. spec.IsTaken self.now job.now) (λ e. spec.IsDepositRefusal self.now job.now e) }
    {
        if self.run.ended().is_some() {
            return Err(StoreError::Ended);
        }
        if job.cycle() != self.run.simulation().cycles() {
            return Err(StoreError::Stale);
        }
        check(self.run.simulation(), job.number())?;
        if !self.run.simulation().is_own(job) {
            return Err(StoreError::Foreign);
        }
        Ok(())
    }

    /// Executes all due processes that have not been executed, in place and in rising order of
    /// their numbers, on this thread. If allocation fails, the store is lost: the process that
    /// needed memory may have been executed in part.
    pub fn execute_due(self, alloc: Global) -> Result<WaveStore, AllocError>
        ensures same { IfOk result (λ s. s ≡ spec.with_deposited self s.simulation.deposited) }
        ensures complete { IfOk result (λ s. simulations.IsComplete s.simulation) }
    {
        let run = self.into_run().execute_due(alloc)?;
        Ok(WaveStore { run })
    }

    /// Carries the run on to its end, on this thread: in each phase, executes all due processes in
    /// place and in rising order. If allocation fails, `Memory`, the store is lost.
    pub fn run_to_end(self, alloc: Global) -> Result<WaveStore, StoreError>
        ensures same { IfOk result (spec.IsSameRun self) }
        ensures ended { IfOk result (λ s. s.ended ≢ None) }
        ensures err { IfErr result (λ e. e ≡ refusal.Memory) }
    {
        let run = self.into_run().run_to_end(alloc)?;
        Ok(WaveStore { run })
    }

    /// The run, with all its records.
    pub fn into_run(self) -> Run
        ensures { result ≡ runs.whole self }
    {
        let WaveStore { run } = self;
        run
    }

    /// The store of a run of which no records were given away.
    pub fn of_run(run: Run) -> WaveStore
        requires { run.given ≡ 0 }
        ensures { result ≡ run.store }
    {
        WaveStore { run }
    }

    /// Goes on once all due processes have been executed (14.7.5.3): to the postponed processes of
    /// the cycle, `Postponed`, or to the next cycle, `Next`. It answers `PostponedDelta` if a
    /// postponed process causes a delta cycle, `Finished` if nothing is pending up to the stop
    /// time, and `LimitReached` if the limit would be passed; the run has then ended, and its
    /// records stay. Refusals: `Ended`, `Missing` with the least process not executed, `Memory`, in
    /// this order. Only lists of the store grow, and they keep their allocator.
    pub fn advance(&mut self, alloc: Global) -> Result<Step, StoreError>
        ensures ok { IfOk result (λ s. spec.IsAdvanced self.old self.new s) }
        ensures err { IfErr result (spec.IsAdvanceRefusal self.old) }
        ensures kept { OnErr result (self.new ≡ self.old) }
    {
        self.run.advance(alloc)
    }

    /// How the run ended; `None` if it has not.
    pub fn ended(&self) -> Option<Step>
        ensures value { result ≡ self.now.ended }
        ensures end { MatchOption result Unit (λ s. simulations.IsExecuted self.now.simulation × spec.HasEnd self.now s) }
    {
        self.run.ended()
    }

    /// The design.
    pub fn design(&self) -> &Design
        ensures { result.now ≡ self.now.simulation.design }
    {
        self.run.design()
    }

    /// The stop time, in femtoseconds.
    pub fn stop(&self) -> u64
        ensures { result ≡ self.now.stop }
    {
        self.run.stop()
    }

    /// The number of cycles that the run may have.
    pub fn limit(&self) -> u32
        ensures { result ≡ self.now.limit }
    {
        self.run.limit()
    }

    /// The numbers of the processes that this phase executes, rising, whether or not they have been
    /// executed; none if the run has ended.
    pub fn due(&self) -> &[usize]
        ensures value { result.now ≡ spec.due_of self.now }
        ensures few { length result.now ≤ most }
    {
        if self.run.ended().is_some() {
            return &[];
        }
        self.run.simulation().due()
    }

    /// How far the run has come. It also shows that the run is within its bounds, and that the
    /// waveforms of its drivers rise.
    pub fn look(&self) -> Look
        ensures value { result ≡ spec.look_of self.now }
        ensures within { spec.IsWithin self.now }
        ensures rising { simulations.AreRising self.now.simulation }
    {
        self.run.look()
    }

    /// The value of the net with a number, which is that of its last change in the records; `None`
    /// if out of range.
    pub fn value(&self, net: usize) -> Option<Logic>
        ensures value { MatchOption result (length self.now.simulation.design.nets ≤ net)
            (λ v. (net < length self.now.simulation.design.nets) × (v ≡ (net_at (simulations.reached self.now.simulation).nets net).value)) }
        ensures records { IfSome result (λ v. value_by (records_to self.now.simulation.design self.now.simulation.cycles) net ≡ Some v) }
    {
        self.run.simulation().value(net)
    }

    /// The number of events of the net with a number after the initialization, which is its number
    /// of changes in the records after the first; `None` if out of range.
    pub fn total(&self, net: usize) -> Option<u64>
        ensures { MatchOption result (length self.now.simulation.design.nets ≤ net)
            (λ t. (net < length self.now.simulation.design.nets)
            × (t ≡ total_of (records_to self.now.simulation.design self.now.simulation.cycles) net)) }
    {
        self.run.simulation().total(net)
    }

    /// The log of all records, not copied: entries from which the time and the delta number of each
    /// and its changes, in net order, are read one after another. Record 0 has every net.
    pub fn history(&self) -> &Log
        ensures records { result.now.records ≡ records_to self.now.simulation.design self.now.simulation.cycles }
        ensures named { All (IsNamed (length self.now.simulation.design.nets)) result.now.records }
        ensures past { result.now.past ≡ no_past }
    {
        self.run.log()
    }

    /// The records from a number on; none if the number is that of all records. Refusals: `Behind`
    /// if there are fewer records, `Memory`, in this order.
    pub fn records_since(&self, alloc: Global, number: usize) -> Result<Vec<Record>, StoreError>
        ensures ok { IfOk result (λ v. (number ≤ suc self.now.simulation.cycles)
            × (v.items ≡ drop number (records_to self.now.simulation.design self.now.simulation.cycles))) }
        ensures named { IfOk result (λ v. All (IsNamed (length self.now.simulation.design.nets)) v.items) }
        ensures err { IfErr result (spec.IsRecordsRefusal self.now number) }
    {
        self.run.simulation().each_cycle_is_recorded();
        let log = self.run.log();
        let records = log.len();
        if number > records {
            return Err(StoreError::Behind { records });
        }
        let found = records_from(alloc, log, number)?;
        Ok(found)
    }
}
