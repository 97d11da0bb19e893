//! A simulation of a design, so far (IEEE 1076-2008, 14.7.5).

ghost use Rattle.std.specs.Prelude.{ℕ, suc, ◌≡◌, ◌<◌, ◌≤◌, ◌^◌, ◌+◌, ◌*◌, Some, None, Option, true, false, [], ◌∷◌, length, replicate, drop, take};
ghost use Rattle.std.specs.Prelude.{not, ◌==◌, ◌&&◌, if◌then◌else◌, slice_set, MatchOption, MatchResult, IfSome, IfOk, IfErr, OnOk, OnErr, ◌↔◌, IsTrue};
ghost use Rattle.std.specs.List.{All};
ghost use Rattle.std.specs.Option.{option_eq};
ghost use Rattle.sim_flat_design.specs.Designs.{most};
ghost use Rattle.sim_flat_design.specs.Processes.{IsProcess};
ghost use Rattle.sim_exec_code.specs.Codes.{AreCodesOf};
ghost use Rattle.sim_store_state.specs.InTurn as turn;
ghost use Rattle.sim_standard.specs.Initialization.{first_state};
ghost use Rattle.sim_store_state.specs.FlatState.{flat_state_of};
ghost use Rattle.sim_standard.specs.Records.{IsNamed, all_changes, event_count, records_to};
ghost use Rattle.sim_standard.specs.State.{driver_values, net_at, owned_at};
ghost use Rattle.sim_logic.specs.Time.{largest_time};
ghost use Rattle.sim_standard.specs.Agreement.{total_of, value_by};
ghost use Rattle.sim_store_simulation.specs.Contents.{AreFirst, IsAtStart, IsOf, IsWith, simulation_of, unmarked_of};
ghost use Rattle.sim_store_simulation.specs.Simulation as spec;
ghost use Rattle.sim_store_state.specs.Log.{no_past};
ghost use Rattle.sim_standard.specs.Cycle.{CycleAt};
ghost use Rattle.sim_standard.specs.Midway.{updated_in};
ghost use Rattle.sim_store_simulation.specs.declared.phase.Phase.TheVariants as phase;

use crate::due::Due;
use crate::phase::{Phase, Upcoming};
use crate::waiting::Waiting;
use sim_containers::{NumberSet, RisingRows};
use sim_exec::{Codes, Done, Frame, Job, Results};
use sim_flat_design::{Design, Process};
use sim_logic::Logic;
use sim_store_state::{FlatState, Log, Past, sensitive};
use std::alloc::{AllocError, Global};
use std::marker::Model;

/// The delta number, which is our own, of a cycle at `time` after one at `last`, both in
/// femtoseconds.
fn next_delta(time: u64, last: u64, delta: u64) -> u64
    requires { delta + 1 < 2 ^ 64 }
    ensures { result ≡ (if time == last then delta + 1 else 0) }
{
    if time == last { delta + 1 } else { 0 }
}

/// Shows what the type of a process guarantees.
fn is_process(process: &Process)
    ensures { IsProcess process.now }
{
    let _sensitivity = process.sensitivity();
    let _reads = process.reads();
    let _nets = process.nets();
}

/// Shows what the types of processes guarantee.
fn are_processes(processes: &[Process])
    ensures { All IsProcess processes.now }
{
    for process in processes {
        is_process(process);
    }
}

/// Replaces what an executed process owned by its results, if it has any. It takes no memory.
fn put_results(state: &mut FlatState, number: usize, results: Option<Results>)
    requires at { number < length state.old.owned }
    requires drivers { MatchOption results Unit (λ r. length r.drivers ≡ length (owned_at state.old.owned number).drivers) }
    requires values { MatchOption results Unit (λ r. driver_values r.drivers ≡ driver_values (owned_at state.old.owned number).drivers) }
    requires variables { MatchOption results Unit (λ r. length r.variables ≡ length (owned_at state.old.owned number).variables) }
    ensures { state.new ≡ record state.old {
      owned = slice_set state.old.owned number (spec.kept_or (owned_at state.old.owned number) results);
    } }
{
    if let Some(results) = results {
        state.put(number, results.drivers, results.variables);
    }
}

/// The step that comes after a phase, given whether a delta cycle would follow, whether a process
/// waits, and the first pending time.
fn upcoming(phase: Phase, is_delta: bool, is_waited: bool, next: Option<u64>) -> Upcoming
    ensures { result ≡ spec.upcoming_of phase is_delta is_waited next }
{
    match (phase, next) {
        // h) No delta cycle follows: postponed processes that wait are executed.
        (Phase::NonPostponed, _) if !is_delta && is_waited => Upcoming::Postponed,
        // h.5) The time is calculated again: one of them has caused a delta cycle.
        (Phase::Postponed, _) if is_delta => Upcoming::PostponedDelta,
        (_, Some(time)) => Upcoming::Cycle(time),
        (_, None) => Upcoming::Nothing,
    }
}

/// At the end of a cycle, no process waits any more if those that waited have been executed.
fn leave(waiting: &mut Waiting, phase: Phase)
    ensures postponed { waiting.new.postponed ≡ waiting.old.postponed }
    ensures sized { length waiting.new.waiting ≡ length waiting.old.waiting }
    ensures left { (p : ℕ) → spec.those_in waiting.new.waiting p ≡ spec.is_left phase (spec.those_in waiting.old.waiting p) }
{
    match phase {
        Phase::NonPostponed => {}
        Phase::Postponed => waiting.clear(),
    }
}

/// A design, compiled once: for each net the processes sensitive to it, for each process its code,
/// and a frame to execute code on.
#[derive(Drop)]
pub struct Compiled {
    pub sensitive: RisingRows,
    pub codes: Codes,
    pub frame: Frame,
}

/// All of a simulation besides its design, without its invariant, which need not hold while
/// processes are being executed: the number of cycles, the time (in femtoseconds) and delta number
/// of the last one, the compiled design, the state, and marks of processes and nets.
#[derive(Drop)]
pub struct Contents {
    pub cycles: usize,
    pub time: u64,
    pub delta: u64,
    pub compiled: Compiled,
    pub state: FlatState,
    /// Which processes are now executed.
    pub phase: Phase,
    pub due: Due,
    pub waiting: Waiting,
    pub deposited: NumberSet,
    /// Whether all due processes have been executed in this phase, even if not in `deposited`.
    pub all_executed: bool,
    pub totals: Vec<u64>,
}

/// A log with the record of the first state of a design.
fn first_log(alloc: Global, state: &FlatState, design: &Design) -> Result<Log, AllocError>
    requires { state.now ≡ flat_state_of design.now (first_state design.now) }
    ensures records { IfOk result (λ l. l.records ≡ records_to design.now 0) }
    ensures past { IfOk result (λ l. l.past ≡ no_past) }
    ensures last { IfOk result (λ l. l.last ≡ (0, 0)) }
{
    let mut log = Log::new(alloc, Past::none());
    log.reserve(design.nets().len())?;
    state.record_all(&mut log, 0, 0);
    Ok(log)
}

/// The processes of a design that are executed first, and the postponed ones, which wait.
fn parted(alloc: Global, design: &Design) -> Result<(Due, Waiting), AllocError>
    ensures parted { IfOk result (λ m. spec.AreParted design.now m.0 m.1.waiting) }
    ensures postponed { IfOk result (λ m. spec.ArePostponed design.now m.1.postponed) }
{
    let processes = design.processes();
    let mut waiting = Waiting::of(alloc, processes)?;
    let due = Due::first(alloc, processes.len(), &mut waiting)?;
    Ok((due, waiting))
}

/// The processes that are due, wait or have been executed, and the number of events of each net.
#[derive(Drop)]
struct FirstMarks {
    due: Due,
    waiting: Waiting,
    deposited: NumberSet,
    totals: Vec<u64>,
}

/// The marks of a design at first: the due processes and the waiting ones; none has been executed,
/// and no net has had an event.
fn marks(alloc: Global, design: &Design) -> Result<FirstMarks, AllocError>
    ensures parted { IfOk result (λ m. spec.AreParted design.now m.due m.waiting.waiting) }
    ensures postponed { IfOk result (λ m. spec.ArePostponed design.now m.waiting.postponed) }
    ensures deposited { IfOk result (λ m. m.deposited ≡ replicate (length design.now.processes) false) }
    ensures totals { IfOk result (λ m. m.totals.items ≡ replicate (length design.now.nets) 0) }
{
    let (due, waiting) = parted(alloc, design)?;
    let deposited = NumberSet::new(alloc, design.processes().len())?;
    let mut totals = Vec::new(alloc);
    totals.resize(design.nets().len(), 0)?;
    Ok(FirstMarks {
        due,
        waiting,
        deposited,
        totals,
    })
}

/// Compiles a design.
fn compile(alloc: Global, design: &Design) -> Result<Compiled, AllocError>
    ensures { IfOk result (λ l. spec.AreCompiled design.now l.sensitive l.codes l.frame) }
{
    let sensitive = sensitive(alloc, design)?;
    let codes = Codes::of(alloc, design.processes())?;
    let frame = codes.frame(alloc)?;
    Ok(Compiled {
        sensitive,
        codes,
        frame,
    })
}

/// All of these together, at time 0.
fn joined(marks: FirstMarks, compiled: Compiled, state: FlatState) -> Contents
    ensures start { IsAtStart result }
    ensures compiled { result.compiled ≡ compiled }
    ensures state { result.state ≡ state }
    ensures marks { (result.due ≡ marks.due) × (result.waiting ≡ marks.waiting) }
    ensures none { (result.deposited ≡ marks.deposited) × (result.totals ≡ marks.totals) }
{
    Contents {
        cycles: 0,
        time: 0,
        delta: 0,
        compiled,
        state,
        phase: Phase::NonPostponed,
        due: marks.due,
        waiting: marks.waiting,
        deposited: marks.deposited,
        all_executed: false,
        totals: marks.totals,
    }
}

/// The contents of the simulation of a design at first: the compiled design, the first state, the
/// processes that are due, and no event of any net.
fn prepared(alloc: Global, design: &Design) -> Result<Contents, AllocError>
    ensures start { IfOk result IsAtStart }
    ensures contents { IfOk result (λ m. AreFirst design.now m) }
{
    let marks = marks(alloc, design)?;
    let compiled = compile(alloc, design)?;
    let state = FlatState::first(alloc, design)?;
    Ok(joined(marks, compiled, state))
}

/// The same in a box, so that it stays in place when the simulation is moved.
fn boxed(alloc: Global, design: &Design) -> Result<Box<Contents>, AllocError>
    ensures start { IfOk result (λ m. IsAtStart m.value) }
    ensures contents { IfOk result (λ m. AreFirst design.now m.value) }
{
    let contents = prepared(alloc, design)?;
    let contents = Box::new(alloc, contents)?;
    Ok(contents)
}

/// The same, with a log of the first state.
fn begun(alloc: Global, design: &Design) -> Result<(Box<Contents>, Log), AllocError>
    ensures start { IfOk result (λ r. IsAtStart r.0.value) }
    ensures contents { IfOk result (λ r. AreFirst design.now r.0.value) }
    ensures records { IfOk result (λ r. r.1.records ≡ records_to design.now 0) }
    ensures past { IfOk result (λ r. r.1.past ≡ no_past) }
    ensures last { IfOk result (λ r. r.1.last ≡ (0, 0)) }
{
    let contents = boxed(alloc, design)?;
    let log = first_log(alloc, &contents.state, design)?;
    Ok((contents, log))
}

/// The contents, with what the processes own divided into about this many shares.
fn divided(alloc: Global, contents: Contents, shares: usize) -> Result<Contents, AllocError>
    ensures { IfOk result (λ m. m ≡ contents) }
{
    let state = contents.state.divide(alloc, shares)?;
    Ok(Contents {
        cycles: contents.cycles,
        time: contents.time,
        delta: contents.delta,
        compiled: contents.compiled,
        state,
        phase: contents.phase,
        due: contents.due,
        waiting: contents.waiting,
        deposited: contents.deposited,
        all_executed: contents.all_executed,
        totals: contents.totals,
    })
}

/// Begins a phase, in which no process has been executed yet.
fn begin_phase(contents: &mut Contents, phase: Phase)
    ensures { contents.new ≡ record contents.old {
      phase = phase;
      deposited = replicate (length contents.old.deposited) false;
      all_executed = false;
    } }
{
    contents.phase = phase;
    contents.deposited.clear();
    contents.all_executed = false;
}

/// The due processes that are not marked, in rising order.
fn unmarked(alloc: Global, due: &Due, marked: &NumberSet) -> Result<Vec<usize>, AllocError>
    ensures { IfOk result (λ v. v.items ≡ unmarked_of due.now marked.now) }
{
    let mut numbers = Vec::new(alloc);
    for number in due.numbers() {
        if !marked.contains(*number) {
            numbers.push(*number)?;
        }
    }
    Ok(numbers)
}

/// Executes all due processes, none of which has been executed in this phase, in place and in
/// rising order. None is marked by itself.
fn execute_listed(alloc: Global, design: &Design, contents: &mut Contents) -> Result<(), AllocError>
    requires of { IsWith design.now contents.old contents.old.deposited }
    requires fresh { (p : ℕ) → spec.those_in contents.old.deposited p ≡ false }
    ensures of { OnOk result (IsOf design.now contents.new) }
    ensures same { OnOk result (simulation_of design.now contents.new
        ≡ spec.with_marks (simulation_of design.now contents.old) (simulation_of design.now contents.new).deposited) }
    ensures complete { OnOk result (spec.IsComplete (simulation_of design.now contents.new)) }
{
    let compiled = &mut contents.compiled;
    contents.state.execute(
        alloc,
        design.processes(),
        contents.due.numbers(),
        contents.time,
        &compiled.codes,
        &mut compiled.frame,
    )?;
    contents.all_executed = true;
    Ok(())
}

/// The same where some have been executed, and are marked.
fn execute_unmarked(
    alloc: Global,
    design: &Design,
    contents: &mut Contents,
) -> Result<(), AllocError>
    requires of { IsWith design.now contents.old contents.old.deposited }
    requires marked { contents.old.all_executed ≡ false }
    ensures of { OnOk result (IsOf design.now contents.new) }
    ensures same { OnOk result (simulation_of design.now contents.new
        ≡ spec.with_marks (simulation_of design.now contents.old) (simulation_of design.now contents.new).deposited) }
    ensures complete { OnOk result (spec.IsComplete (simulation_of design.now contents.new)) }
{
    let numbers = unmarked(alloc, &contents.due, &contents.deposited)?;
    let compiled = &mut contents.compiled;
    contents.state.execute(
        alloc,
        design.processes(),
        numbers.as_slice(),
        contents.time,
        &compiled.codes,
        &mut compiled.frame,
    )?;
    contents.all_executed = true;
    Ok(())
}

/// Executes all due processes that have not been executed in this phase, in place and in rising
/// order (14.7.5.3 f.3, h.4).
fn execute_all(alloc: Global, design: &Design, contents: &mut Contents) -> Result<(), AllocError>
    requires { IsOf design.now contents.old }
    ensures of { OnOk result (IsOf design.now contents.new) }
    ensures same { OnOk result (simulation_of design.now contents.new
        ≡ spec.with_marks (simulation_of design.now contents.old) (simulation_of design.now contents.new).deposited) }
    ensures complete { OnOk result (spec.IsComplete (simulation_of design.now contents.new)) }
{
    if contents.all_executed {
        return Ok(());
    }
    if contents.deposited.is_empty() {
        execute_listed(alloc, design, contents)
    } else {
        execute_unmarked(alloc, design, contents)
    }
}

/// A simulation of a design, so far. By its type, it holds what the simulation cycle gives.
pub struct Simulation {
    design: Design,
    /// In a box, so that moving a simulation moves little.
    contents: Box<Contents>,
}

/// Written by hand so that code which drops it needs no proof about its contents.
impl Drop for Simulation {
    fn drop(self) {
        let Simulation { design, contents } = self;
        drop(design);
        drop(contents);
    }
}

impl Model for Simulation {
    ghost use Rattle.std.specs.Coded.{codes};
    ghost use Rattle.sim_flat_design.specs.contracts.expression.LogicExpression as logic;
    ghost use Rattle.sim_flat_design.specs.contracts.expression.BooleanExpression as boolean;
    ghost use Rattle.sim_flat_design.specs.contracts.statement.Statement as statement;
    ghost use Rattle.sim_store_simulation.specs.Simulation.{Simulation};
    ghost use Rattle.sim_store_simulation.specs.Contents.{IsOf, simulation_of};

    ghost Value = { Simulation };

    ghost coded = { Prim.hlevel (codes, logic.the_row.coded, boolean.the_row.coded, statement.the_row.coded) };

    ghost view = { λ s. simulation_of s.design s.contents.value };

    ghost invariant = { λ s. IsOf s.design s.contents.value };
}

impl Simulation {
    ghost use Rattle.std.specs.Prelude.{◌≡◌, ◌↔◌, IsTrue, Some, false, length, replicate};
    ghost use Rattle.std.specs.Prelude.{IfErr, IfOk, IfSome, OnOk, OnErr, MatchOption, MatchResult};

    /// The simulation of a design at its start, and a log in which the initialization is recorded
    /// (14.7.5.2): each process is due or, if it is postponed, waits. If allocation fails, the design
    /// is returned.
    pub fn begin(alloc: Global, design: Design) -> Result<(Simulation, Log), (AllocError, Design)>
        ensures ok { IfOk result (λ r. r.0 ≡ record {
          design = design;
          cycles = 0;
          phase = phase.NonPostponed;
          deposited = replicate (length design.processes) false;
        }) }
        ensures log { IfOk result (λ r. spec.IsLogged r.0 r.1) }
        ensures past { IfOk result (λ r. r.1.past ≡ no_past) }
        ensures err { IfErr result (λ e. e.1 ≡ design) }
    {
        let _nets = design.nets();
        let _drivers = design.drivers();
        are_processes(design.processes());
        match begun(alloc, &design) {
            Err(error) => Err((error, design)),
            Ok((contents, log)) => Ok((Simulation { design, contents }, log)),
        }
    }

    /// The job of a due process that has not been executed: a copy of its part of the state.
    pub fn job(&self, alloc: Global, number: usize) -> Result<Job, AllocError>
        requires { spec.IsMissing self.now number }
        ensures { IfOk result (λ job. spec.IsJobOf self.now number job) }
    {
        let process = &self.design.processes()[number];
        let contents = &*self.contents;
        let part = contents.state.part(alloc, number, process.reads())?;
        let process = process.try_copy()?;
        Ok(Job::new(
            contents.cycles,
            number,
            contents.time,
            process,
            part.views,
            part.variables,
            part.drivers,
        ))
    }

    /// Whether the next cycle, at this pending time, is a delta cycle for which postponed processes
    /// wait. They never wait in the initialization, nor is their zero delay an error there (own).
    fn is_delta(&self, next: Option<u64>) -> bool
        ensures { result ≡ (not (self.now.cycles == 0) && option_eq ◌==◌ next (Some (spec.updated_last self.now).time)) }
    {
        self.cycles() != 0 && next == Some(self.contents.time)
    }

    /// The step that comes after all due processes have been executed (14.7.5.3 g, h): the phase of
    /// postponed processes, or what follows the cycle.
    pub fn upcoming(&mut self) -> Result<Upcoming, AllocError>
        requires { spec.IsComplete self.old }
        ensures same { self.new ≡ self.old }
        ensures value { IfOk result (spec.IsUpcoming self.old) }
    {
        let contents = &mut *self.contents;
        // g), h.5) The time of the next cycle.
        let next = contents.state.next()?;
        let is_waited = !contents.waiting.is_empty();
        let phase = contents.phase;
        Ok(upcoming(phase, self.is_delta(next), is_waited, next))
    }

    /// Begins the phase of postponed processes: those that wait are due (14.7.5.3 h.4).
    pub fn begin_postponed(&mut self)
        requires complete { spec.IsComplete self.old }
        requires phase { self.old.phase ≡ phase.NonPostponed }
        requires next { spec.ArePostponedNext self.old.design self.old.cycles (spec.updated_last self.old) }
        ensures { self.new ≡ spec.in_postponed_phase self.old }
    {
        let contents = &mut *self.contents;
        // h.4) The postponed processes that have resumed are executed.
        contents.due.take(&contents.waiting);
        begin_phase(contents, Phase::Postponed);
    }

    /// The number of cycles completed, without the initialization.
    pub fn cycles(&self) -> usize
        ensures { result ≡ self.now.cycles }
    {
        self.contents.cycles
    }

    /// Whether this phase executes the process with a number.
    pub fn is_due(&self, number: usize) -> bool
        ensures { IsTrue result ↔ spec.IsDue self.now number }
    {
        self.contents.due.has(number)
    }

    /// Whether the process with a number has been executed in this phase.
    pub fn is_deposited(&self, number: usize) -> bool
        ensures { result ≡ spec.those_in self.now.deposited number }
    {
        let contents = &*self.contents;
        if contents.all_executed {
            return contents.due.has(number);
        }
        contents.deposited.contains(number)
    }

    /// Whether a job matches the one now due for its process, apart from its cycle number. It takes
    /// no memory.
    pub fn is_own(&self, job: &Job) -> bool
        requires at { job.now.number < length self.now.design.processes }
        requires fresh { spec.those_in self.now.deposited job.now.number ≡ false }
        ensures { IsTrue result ↔ spec.IsOwn self.now job.now }
    {
        let process = &self.design.processes()[job.number()];
        let contents = &*self.contents;
        if job.time() != contents.time {
            return false;
        }
        if !process.same(job.process()) {
            return false;
        }
        contents.state.is_part(
            job.number(),
            process.reads(),
            job.views(),
            job.variables(),
            job.drivers(),
        )
    }

    /// Takes the result of a due process that has not been executed: the process owns what its
    /// execution gave. Nothing else changes.
    pub fn deposit(&mut self, done: Done)
        requires own { spec.IsOwn self.old done }
        requires missing { spec.IsMissing self.old done.number }
        ensures one { self.new ≡ spec.with_one self.old done.number }
        ensures gone { spec.IsMissing self.new done.number → ⊥ }
    {
        let (job, results) = done.into_parts();
        let number = job.number();
        let contents = &mut *self.contents;
        put_results(&mut contents.state, number, results);
        contents.deposited.insert(number);
    }

    /// Begins the next cycle, at this time in femtoseconds, once all processes of the last one have
    /// been executed: updates drivers and nets, and resumes processes (14.7.5.3 a, c, d, f.2). The
    /// log gets its record. If allocation fails, nothing changes.
    pub fn go_on(&mut self, time: u64, log: &mut Log) -> Result<(), AllocError>
        requires executed { spec.IsExecuted self.old }
        requires next { spec.next_after self.old ≡ Some (CycleAt time) }
        requires early { time ≤ largest_time }
        requires bound { self.old.cycles < 2 ^ 32 }
        requires last { log.old.last ≡ spec.place_of self.old }
        ensures ok { OnOk result ((self.new ≡ spec.after self.old) × ((spec.reached self.new).time ≡ time)) }
        ensures log { spec.IsLogged self.old log.old → spec.IsLogged self.new log.new }
        ensures past { log.new.past ≡ log.old.past }
        ensures err { OnErr result (self.new ≡ self.old) }
    {
        let nets = self.design.nets().len();
        let contents = &mut *self.contents;
        log.reserve(nets)?;
        contents.cycles += 1;
        // a) The time becomes that of the next cycle.
        contents.delta = next_delta(time, contents.time, contents.delta);
        contents.time = time;
        // c), d) Active drivers take their transactions, and their nets are updated.
        contents
            .state
            .update(time, contents.delta, log, contents.totals.as_mut_slice());
        leave(&mut contents.waiting, contents.phase);
        // f.2) Processes sensitive to a net with an event resume.
        contents
            .due
            .find(log, &contents.compiled.sensitive, &mut contents.waiting);
        begin_phase(contents, Phase::NonPostponed);
        Ok(())
    }

    /// The design.
    pub fn design(&self) -> &Design
        ensures { result.now ≡ self.now.design }
    {
        &self.design
    }

    /// The least due process that has not been executed in this phase.
    pub fn missing(&self) -> Option<usize>
        ensures { MatchOption result (spec.IsComplete self.now) (spec.IsLeastMissing self.now) }
    {
        let contents = &*self.contents;
        if contents.all_executed {
            return None;
        }
        contents.due.next_beside(&contents.deposited, 0)
    }

    /// Executes all due processes that have not been executed in this phase, in place and in rising
    /// order. If allocation fails, the simulation is lost: a process may have been executed in part.
    #[inline(always)]
    pub fn execute_due(self, alloc: Global) -> Result<Simulation, AllocError>
        ensures same { IfOk result (λ s. s ≡ spec.with_marks self s.deposited) }
        ensures complete { IfOk result spec.IsComplete }
    {
        let Simulation { design, contents } = self;
        let mut contents = contents;
        execute_all(alloc, &design, &mut contents)?;
        Ok(Simulation { design, contents })
    }

    /// Its design, and what it holds besides.
    pub fn into_contents(self) -> (Design, Contents)
        ensures of { IsOf result.0 result.1 }
        ensures same { simulation_of result.0 result.1 ≡ self }
    {
        let Simulation { design, contents } = self;
        let contents = Box::into_inner(contents);
        (design, contents)
    }

    /// The simulation of this design that holds this.
    pub fn of_contents(
        alloc: Global,
        design: Design,
        contents: Contents,
    ) -> Result<Simulation, AllocError>
        requires { IsOf design contents }
        ensures { IfOk result (λ s. s ≡ simulation_of design contents) }
    {
        let contents = Box::new(alloc, contents)?;
        Ok(Simulation { design, contents })
    }

    /// The same simulation, with what its processes own divided into about this many shares, which
    /// can be handed out. If allocation fails, it is lost.
    pub fn divide(self, alloc: Global, shares: usize) -> Result<Simulation, AllocError>
        ensures { IfOk result (λ s. s ≡ self) }
    {
        let (design, contents) = self.into_contents();
        let contents = divided(alloc, contents, shares)?;
        Simulation::of_contents(alloc, design, contents)
    }

    /// Whether no process has been executed in this phase.
    pub fn is_untouched(&self) -> bool
        ensures { result ≡ true → (p : ℕ) → spec.those_in self.now.deposited p ≡ false }
    {
        let contents = &*self.contents;
        if contents.all_executed {
            return false;
        }
        contents.deposited.is_empty()
    }

    /// About how many steps it takes to execute a process. It is a hint for dividing work among
    /// threads, and nothing is promised of it.
    pub fn mean_length(&self) -> usize {
        self.contents.compiled.codes.mean_length()
    }

    /// Whether about so many due processes have something to do. Nothing is promised of it.
    pub fn has_busy(&self, least: usize) -> bool {
        let compiled = &self.contents.compiled;
        let due = self.contents.due.numbers();
        self.contents.state.has_busy(least, due, &compiled.codes)
    }

    /// The numbers of the processes that this phase executes, rising.
    pub fn due(&self) -> &[usize]
        ensures value { result.now ≡ spec.due_numbers self.now }
        ensures few { length result.now ≤ most }
    {
        let _processes = self.design.processes();
        self.contents.due.numbers()
    }

    /// The time, in femtoseconds, and the delta number of the last cycle.
    pub fn time(&self) -> (u64, u64)
        ensures value { result ≡ ((spec.reached self.now).time, (spec.reached self.now).delta) }
        ensures slow { result.1 ≤ self.now.cycles }
        ensures there { updated_in self.now.design self.now.cycles ≡ Some (spec.updated_last self.now) }
        ensures rising { spec.AreRising self.now }
    {
        let contents = &*self.contents;
        (contents.time, contents.delta)
    }

    /// The value of a net, that of its last change in the records; `None` if out of range.
    pub fn value(&self, net: usize) -> Option<Logic>
        ensures value { MatchOption result (length self.now.design.nets ≤ net)
            (λ v. (net < length self.now.design.nets) × (v ≡ (net_at (spec.reached self.now).nets net).value)) }
        ensures records { IfSome result (λ v. value_by (records_to self.now.design self.now.cycles) net ≡ Some v) }
    {
        self.contents.state.value(net)
    }

    /// The number of events of a net after the initialization; `None` if out of range.
    pub fn total(&self, net: usize) -> Option<u64>
        ensures { MatchOption result (length self.now.design.nets ≤ net)
            (λ t. (net < length self.now.design.nets) × (t ≡ total_of (records_to self.now.design self.now.cycles) net)) }
    {
        self.contents.totals.get(net).copied()
    }

    /// The number of events in the cycles after the initialization, by the number of changes in all
    /// records.
    pub fn events(&self, changes: usize) -> u64
        requires { changes ≡ length (all_changes (records_to self.now.design self.now.cycles)) }
        ensures { result ≡ event_count (records_to self.now.design self.now.cycles) }
    {
        (changes - self.design.nets().len()) as u64
    }

    /// Shows that there is a record of the initialization and one of each cycle, how many changes
    /// they have at most, and that each change is of a net.
    pub fn each_cycle_is_recorded(&self)
        ensures count { length (records_to self.now.design self.now.cycles) ≡ suc self.now.cycles }
        ensures few { length (all_changes (records_to self.now.design self.now.cycles)) ≤ suc self.now.cycles * most }
        ensures named { All (IsNamed (length self.now.design.nets)) (records_to self.now.design self.now.cycles) }
    {
        let _contents = &*self.contents;
    }
}
