//! A run that goes on (IEEE 1076-2008, 14.7.5).

ghost use Rattle.std.specs.Prelude.{◌≡◌, ◌≢◌, ◌<◌, ◌≤◌, ◌^◌, Some, None, suc, length, true};
ghost use Rattle.std.specs.Prelude.{MatchOption, MatchResult, IfOk, IfErr, OnOk, OnErr};
ghost use Rattle.sim_logic.specs.Time.{largest_time};
ghost use Rattle.std.specs.List.{All};
ghost use Rattle.sim_standard.specs.Records.{IsNamed};
ghost use Rattle.sim_standard.specs.Cycle.{CycleAt};
ghost use Rattle.sim_store_simulation.specs.Simulation as simulations;
ghost use Rattle.sim_store_state.specs.Log.{no_past};
ghost use Rattle.sim_store.specs.Handing as hands;
ghost use Rattle.sim_store.specs.Run as spec;
ghost use Rattle.sim_store.specs.WaveStore as store;
ghost use Rattle.sim_store.specs.declared.error.StoreError.TheVariants as refusal;
ghost use Rattle.sim_store.specs.declared.store.Step.TheVariants as step;

use crate::design_type::DesignType;
use crate::error::StoreError;
use crate::handed_out::{HandedOutStore, hand_out_phase};
use crate::order::Order;
use crate::store::{Look, Step};
use sim_exec::Done;
use sim_flat_design::Design;
use sim_logic::LATEST;
use sim_store_simulation::{Simulation, Upcoming};
use sim_store_state::Log;
use std::alloc::{AllocError, Global};
use std::marker::Model;

/// A run, and those of its records that were not given away. By its type, these are what the
/// simulation cycle of its design gives after the ones that were, one process at a time, and the
/// way the run ended is its outcome.
pub struct Run {
    simulation: Simulation,
    log: Log,
    stop: u64,
    limit: u32,
    ended: Option<Step>,
}

/// Written by hand so that code which drops it needs no proof about its contents.
impl Drop for Run {
    fn drop(self) {
        let Run {
            simulation,
            log,
            stop: _,
            limit: _,
            ended: _,
        } = self;
        drop(simulation);
        drop(log);
    }
}

impl Model for Run {
    ghost use Rattle.std.specs.Coded.{codes};
    ghost use Rattle.sim_flat_design.specs.contracts.expression.LogicExpression as logic;
    ghost use Rattle.sim_flat_design.specs.contracts.expression.BooleanExpression as boolean;
    ghost use Rattle.sim_flat_design.specs.contracts.statement.Statement as statement;
    ghost use Rattle.sim_store.specs.Run.{Run};
    ghost use Rattle.sim_store.specs.WaveStore.{IsStore};
    ghost use Rattle.sim_store_simulation.specs.Simulation.{IsLogged};

    ghost Value = { Run };

    ghost coded = { Prim.hlevel (codes, logic.the_row.coded, boolean.the_row.coded, statement.the_row.coded) };

    ghost view = { λ s. record {
      store = record { simulation = s.simulation; stop = s.stop; limit = s.limit; ended = s.ended };
      given = s.log.past.records;
    } };

    ghost invariant = { λ s. IsStore (record { simulation = s.simulation; stop = s.stop; limit = s.limit; ended = s.ended })
        × IsLogged s.simulation s.log };
}

impl Run {
    /// The run of a design after its initialization (14.7.5.2). The stop time is in femtoseconds; the
    /// limit is the number of cycles that the run may have. The design is returned with
    /// `StopTooLate`, if the stop time is above 2^62 - 1, and with `Memory`.
    pub fn new(
        alloc: Global,
        design: Design,
        stop: u64,
        limit: u32,
    ) -> Result<Run, (StoreError, Design)>
        ensures ok { IfOk result (λ r. (stop ≤ largest_time) × (r ≡ spec.whole (store.begun design stop limit))) }
        ensures err { IfErr result (λ e. store.IsNewRefusal stop e.0 × (e.1 ≡ design)) }
    {
        if stop > LATEST {
            return Err((StoreError::StopTooLate, design));
        }
        match Simulation::begin(alloc, design) {
            Err((_error, design)) => Err((StoreError::Memory, design)),
            Ok((simulation, log)) => Ok(Run::open(simulation, log, stop, limit)),
        }
    }

    /// A run that has not ended, with its log.
    pub(crate) fn open(simulation: Simulation, log: Log, stop: u64, limit: u32) -> Run
        requires log { simulations.IsLogged simulation log }
        requires bounds { store.IsStore (record { simulation = simulation; stop = stop; limit = limit; ended = None }) }
        ensures { result ≡ record {
          store = record { simulation = simulation; stop = stop; limit = limit; ended = None };
          given = log.past.records;
        } }
    {
        Run {
            simulation,
            log,
            stop,
            limit,
            ended: None,
        }
    }

    /// Executes all due processes that have not been executed, in place and in rising order of
    /// their numbers, on this thread. If allocation fails, the run is lost: the process that needed
    /// memory may have been executed in part.
    #[inline(always)]
    pub fn execute_due(self, alloc: Global) -> Result<Run, AllocError>
        ensures same { IfOk result (λ r. r ≡ spec.with_executed self r.store.simulation.deposited) }
        ensures complete { IfOk result (λ r. simulations.IsComplete r.store.simulation) }
    {
        if self.ended.is_some() {
            return Ok(self);
        }
        let Run {
            simulation,
            log,
            stop,
            limit,
            ended,
        } = self;
        let simulation = simulation.execute_due(alloc)?;
        Ok(Run {
            simulation,
            log,
            stop,
            limit,
            ended,
        })
    }

    /// Carries the run on to its end, on this thread: in each phase, executes all due processes in
    /// place and in rising order. If allocation fails, `Memory`, the run is lost.
    pub fn run_to_end(self, alloc: Global) -> Result<Run, StoreError>
        ensures same { IfOk result (λ r. store.IsSameRun self.store r.store × (r.given ≡ self.given)) }
        ensures ended { IfOk result (λ r. r.store.ended ≢ None) }
        ensures err { IfErr result (λ e. e ≡ refusal.Memory) }
    {
        let mut run = self;
        while run.ended().is_none() {
            run = run.execute_due(alloc)?;
            let _step = run.go_on()?;
        }
        Ok(run)
    }

    /// The same run, with what its processes own divided into about this many shares, each of which
    /// is handed out by itself. If allocation fails, it is lost.
    pub fn divide(self, alloc: Global, shares: usize) -> Result<Run, AllocError>
        ensures { IfOk result (λ r. r ≡ self) }
    {
        let Run {
            simulation,
            log,
            stop,
            limit,
            ended,
        } = self;
        let simulation = simulation.divide(alloc, shares)?;
        Ok(Run {
            simulation,
            log,
            stop,
            limit,
            ended,
        })
    }

    /// Whether the run has not ended, and no process has been executed in this phase.
    pub fn is_untouched(&self) -> bool
        ensures { result ≡ true → hands.IsUntouched self.now.store }
    {
        if self.ended.is_some() {
            return false;
        }
        self.simulation.is_untouched()
    }

    /// About how many steps it takes to execute a process. It is a hint for dividing work among
    /// threads, and nothing is promised of it.
    pub fn mean_length(&self) -> usize {
        self.simulation.mean_length()
    }

    /// Whether at least so many due processes have something to do: those not known to lack the edge
    /// without which they do nothing. It is a hint for dividing work among threads, and nothing is
    /// promised of it.
    pub fn has_busy(&self, least: usize) -> bool {
        self.simulation.has_busy(least)
    }

    /// Hands out what the processes own, so that due ones can be executed elsewhere: all processes,
    /// in their order, each share in one order. If allocation fails, the run is lost.
    pub fn hand_out<D: DesignType>(
        self,
        alloc: Global,
    ) -> Result<(HandedOutStore<D>, Vec<Order<D>>), AllocError>
        requires design { self.store.simulation.design ≡ D.design }
        requires untouched { hands.IsUntouched self.store }
        ensures run { IfOk result (λ r. r.0.run ≡ self) }
        ensures orders { IfOk result (λ r. hands.AreAll r.0 r.1.items) }
    {
        let Run {
            simulation,
            log,
            stop,
            limit,
            ended: _,
        } = self;
        hand_out_phase::<D>(alloc, simulation, log, stop, limit)
    }

    /// Goes on once all due processes have been executed (14.7.5.3): to the postponed processes of
    /// the cycle, `Postponed`, or to the next cycle, `Next`. It answers `PostponedDelta` if a
    /// postponed process causes a delta cycle, `Finished` if nothing is pending up to the stop
    /// time, and `LimitReached` if the limit would be passed; the run has then ended, and its
    /// records stay. Refusals: `Ended`, `Missing` with the least process not executed, `Memory`, in
    /// this order. Only lists of the store grow, and they keep their allocator.
    pub fn advance(&mut self, _alloc: Global) -> Result<Step, StoreError>
        ensures ok { IfOk result (λ s. store.IsAdvanced self.old.store self.new.store s) }
        ensures err { IfErr result (store.IsAdvanceRefusal self.old.store) }
        ensures kept { OnErr result (self.new ≡ self.old) }
        ensures given { self.new.given ≡ self.old.given }
    {
        if let Some(_step) = self.ended {
            return Err(StoreError::Ended);
        }
        if let Some(process) = self.simulation.missing() {
            return Err(StoreError::Missing { process });
        }
        self.go_on()
    }

    /// Goes on once all due processes have been executed.
    fn go_on(&mut self) -> Result<Step, StoreError>
        requires open { store.IsOpen self.old.store }
        requires complete { simulations.IsComplete self.old.store.simulation }
        ensures ok { IfOk result (λ s. store.WentOn self.old.store self.new.store s) }
        ensures err { IfErr result (λ e. e ≡ refusal.Memory) }
        ensures kept { OnErr result (self.new ≡ self.old) }
        ensures given { self.new.given ≡ self.old.given }
    {
        match self.simulation.upcoming()? {
            // h) No delta cycle follows: postponed processes that wait are executed.
            Upcoming::Postponed => {
                self.simulation.begin_postponed();
                Ok(Step::Postponed)
            }
            // h.5) One of them has caused a delta cycle, which is an error.
            Upcoming::PostponedDelta => Ok(self.end(Step::PostponedDelta)),
            // a) The next cycle is carried out, or simulation is complete.
            Upcoming::Cycle(time) if time <= self.stop => self.go_to(time),
            _ => Ok(self.end(Step::Finished)),
        }
    }

    /// Begins the cycle at this time, in femtoseconds, if the limit allows it.
    fn go_to(&mut self, time: u64) -> Result<Step, StoreError>
        requires open { store.IsOpen self.old.store }
        requires executed { simulations.IsExecuted self.old.store.simulation }
        requires next { simulations.next_after self.old.store.simulation ≡ Some (CycleAt time) }
        requires until { time ≤ self.old.store.stop }
        ensures ok { IfOk result (λ s. store.WentOn self.old.store self.new.store s) }
        ensures err { IfErr result (λ e. e ≡ refusal.Memory) }
        ensures kept { OnErr result (self.new ≡ self.old) }
        ensures given { self.new.given ≡ self.old.given }
    {
        if self.simulation.cycles() == self.limit as usize {
            return Ok(self.end(Step::LimitReached));
        }
        self.simulation.go_on(time, &mut self.log)?;
        Ok(Step::Next)
    }

    /// Ends the run.
    fn end(&mut self, step: Step) -> Step
        requires executed { simulations.IsExecuted self.old.store.simulation }
        requires end { store.HasEnd self.old.store step }
        ensures step { result ≡ step }
        ensures ended { self.new ≡ record { store = store.ended_as self.old.store step; given = self.old.given } }
    {
        self.ended = Some(step);
        step
    }

    /// Takes the result of a due process that has not been executed: it owns what its execution gave,
    /// and nothing else changes. It takes no memory.
    pub(crate) fn deposit(&mut self, done: Done)
        requires { store.IsTaken self.old.store done }
        ensures { self.new ≡ record { store = store.deposited self.old.store done.number; given = self.old.given } }
    {
        self.simulation.deposit(done);
    }

    /// How the run ended; `None` if it has not.
    pub fn ended(&self) -> Option<Step>
        ensures value { result ≡ self.now.store.ended }
        ensures end { MatchOption result Unit (λ s. simulations.IsExecuted self.now.store.simulation × store.HasEnd self.now.store s) }
    {
        self.ended
    }

    /// The simulation.
    pub(crate) fn simulation(&self) -> &Simulation
        ensures { result.now ≡ self.now.store.simulation }
    {
        &self.simulation
    }

    /// The design.
    pub fn design(&self) -> &Design
        ensures { result.now ≡ self.now.store.simulation.design }
    {
        self.simulation.design()
    }

    /// The stop time, in femtoseconds.
    pub fn stop(&self) -> u64
        ensures { result ≡ self.now.store.stop }
    {
        self.stop
    }

    /// The number of cycles that the run may have.
    pub fn limit(&self) -> u32
        ensures { result ≡ self.now.store.limit }
    {
        self.limit
    }

    /// Shows that the run is within its bounds, and that the initialization and each cycle have a
    /// record.
    pub fn is_within_bounds(&self)
        ensures within { store.IsWithin self.now.store }
        ensures recorded { length (spec.records_of self.now) ≡ suc self.now.store.simulation.cycles }
        ensures given { self.now.given ≤ suc self.now.store.simulation.cycles }
    {
        let _time = self.simulation.time();
        self.simulation.each_cycle_is_recorded();
    }

    /// How far the run has come. It also shows that the run is within its bounds, and that the
    /// waveforms of its drivers rise.
    pub fn look(&self) -> Look
        ensures value { result ≡ store.look_of self.now.store }
        ensures within { store.IsWithin self.now.store }
        ensures rising { simulations.AreRising self.now.store.simulation }
    {
        let _limit = self.limit();
        self.simulation.each_cycle_is_recorded();
        let (time, delta) = self.simulation.time();
        let past = self.log.past();
        Look {
            records: past.records + self.log.len(),
            time,
            delta,
            events: self.simulation.events(past.changes + self.log.count()),
        }
    }

    /// The log of those records that were not given away, not copied.
    pub fn log(&self) -> &Log
        ensures records { result.now.records ≡ spec.rest_of self.now }
        ensures named { All (IsNamed (length self.now.store.simulation.design.nets)) result.now.records }
        ensures past { self.now.given ≡ 0 → result.now.past ≡ no_past }
        ensures early { result.now.past.delta < 2 ^ 63 }
    {
        let _limit = self.limit();
        self.simulation.each_cycle_is_recorded();
        &self.log
    }

    /// Gives those records away.
    pub fn give(&mut self, alloc: Global) -> Log
        ensures records { result.records ≡ spec.rest_of self.old }
        ensures named { All (IsNamed (length self.old.store.simulation.design.nets)) result.records }
        ensures early { result.past.delta < 2 ^ 63 }
        ensures given { self.new ≡ record { store = self.old.store; given = suc self.old.store.simulation.cycles } }
    {
        let _limit = self.limit();
        self.simulation.each_cycle_is_recorded();
        let last = self.simulation.time();
        self.log.give(alloc, last)
    }
}
