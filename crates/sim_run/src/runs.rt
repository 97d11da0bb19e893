//! A whole run of a design, by threads that share its store under a lock.
ghost use Rattle.std.specs.Prelude.{◌≡◌, ◌≢◌, ◌≤◌, ◌⊎◌, ◌↔◌, IsTrue, None, Some, IfOk, IfErr, MatchOption, MatchResult, false};
ghost use Rattle.sim_logic.specs.Time.{largest_time};
ghost use Rattle.sim_standard.specs.Behaviour.{behaviour_of};
ghost use Rattle.sim_run_session.specs.declared.error.RunError.TheVariants as refusal;
ghost use Rattle.sim_run_session.specs.Run.{Finishes, IsRefusalAlone, IsRunOf, history_of};
ghost use Rattle.sim_run.specs.Run.{IsAnswer, IsRunRefusal};

use crate::finished::Finished;
use sim_flat_design::Design;
use sim_run_options::Options;
use sim_run_session::{Hints, RunError, begun_run, finished_run, run_without_lock};
use sim_run_workers::{Carried, Gate, run_to_end};
use sim_store::{Step, WaveStore};
use std::alloc::Global;
use std::sync::{Mutex, Wait};
use std::thread::Threads;

/// Whether a store is the store of the run of a design with these options.
fn is_run_of(run: &WaveStore, design: &Design, options: &Options) -> bool
    ensures { IsTrue result ↔ IsRunOf design.now options.now run.now }
{
    if run.stop() != options.stop {
        return false;
    }
    if run.limit() != options.limit {
        return false;
    }
    run.design().same(design)
}

/// A store that came out of a lock, if it is that of this run and the run has ended.
fn own_run(run: WaveStore, design: &Design, options: &Options) -> Result<WaveStore, RunError>
    ensures ok { IfOk result (λ r. IsRunOf design.now options.now r × (r.ended ≢ None)) }
    ensures err { IfErr result (λ e. (e ≡ refusal.Stranger) × (IsRunOf design.now options.now run → run.ended ≡ None)) }
{
    if !is_run_of(&run, design, options) {
        return Err(RunError::Stranger);
    }
    match run.ended() {
        None => Err(RunError::Stranger),
        Some(_) => Ok(run),
    }
}

/// The store in the lock once workers have carried a store to its end. It may be any store, as far
/// as is known here.
fn carried_on<R: Threads + Wait + Sync, G: Gate + Sync>(
    rt: &R,
    alloc: Global,
    run: WaveStore,
    workers: usize,
    gate: &G,
) -> Result<WaveStore, RunError>
    ensures { IfErr result (λ e. (e ≡ refusal.Stranger) ⊎ (e ≡ refusal.Memory)) }
{
    let store = Mutex::new(run);
    match run_to_end(rt, alloc, &store, workers, gate)? {
        Carried::ToEnd => Ok(store.into_inner()),
        Carried::ToStranger => Err(RunError::Stranger),
    }
}

/// The store of a run carried to its end by the workers of the options, which report to the gate.
fn run_shared<R: Threads + Wait + Sync, G: Gate + Sync>(
    rt: &R,
    alloc: Global,
    design: &Design,
    options: &Options,
    gate: &G,
) -> Result<WaveStore, RunError>
    requires { options.now.stop ≤ largest_time }
    ensures ok { IfOk result (λ run. IsRunOf design.now options.now run × (run.ended ≢ None)) }
    ensures err { IfErr result (λ e. (e ≡ refusal.Stranger) ⊎ (e ≡ refusal.Memory)) }
{
    let copy = design.try_copy()?;
    let run = begun_run(alloc, copy, options)?;
    let run = carried_on(rt, alloc, run, options.workers, gate)?;
    own_run(run, design, options)
}

/// The store of a finished run of a design, carried out by several workers, up to the stop time and
/// within the limit.
pub fn run_by_workers<R: Threads + Wait + Sync, G: Gate + Sync>(
    rt: &R,
    alloc: Global,
    design: Design,
    options: &Options,
    gate: &G,
) -> Result<WaveStore, RunError>
    requires { options.now.stop ≤ largest_time }
    ensures finished { IfOk result (λ run. Finishes (behaviour_of design) options.now (history_of run)) }
    ensures refused { IfErr result (λ e. (e ≡ refusal.Stranger) ⊎ IsRefusalAlone (behaviour_of design) options.now e) }
{
    let run = run_shared(rt, alloc, &design, options, gate)?;
    finished_run(run)
}

/// The history of a store under a lock if its run has ended, `None` if it goes on. `Stranger` if,
/// and only if, the store is not that of the run of this design with these options, which is
/// checked first.
fn answer_of(
    alloc: Global,
    run: &WaveStore,
    design: &Design,
    options: &Options,
) -> Result<Option<Finished>, RunError>
    ensures answer { MatchResult result (λ found. MatchOption found (run.now.ended ≡ None) (λ history. Finishes (behaviour_of design.now) options.now history))
        (λ e. (e ≢ refusal.Options) × IsRunRefusal (behaviour_of design.now) options.now e) }
    ensures stranger { IfErr result (λ e. (e ≡ refusal.Stranger) ↔ (IsRunOf design.now options.now run.now → ⊥)) }
{
    if !is_run_of(run, design, options) {
        return Err(RunError::Stranger);
    }
    match run.ended() {
        None => Ok(None),
        Some(Step::LimitReached) => Err(RunError::CycleLimit {
            limit: options.limit,
        }),
        Some(Step::PostponedDelta) => Err(RunError::PostponedDelta),
        Some(_) => {
            let finished = Finished::of(alloc, run)?;
            Ok(Some(finished))
        }
    }
}

/// The store of a finished run of a design, carried out by workers that share the store if the gate
/// watches, otherwise by a team if there are several workers, otherwise on the calling thread.
fn run_either<R: Threads + Wait + Sync, G: Gate + Sync>(
    rt: &R,
    alloc: Global,
    design: &Design,
    options: &Options,
    gate: &G,
) -> Result<WaveStore, RunError>
    requires { options.now.stop ≤ largest_time }
    ensures finished { IfOk result (λ run. Finishes (behaviour_of design.now) options.now (history_of run)) }
    ensures refused { IfErr result (λ e. (e ≢ refusal.Options) × IsRunRefusal (behaviour_of design.now) options.now e) }
{
    if !gate.watches() {
        return run_without_lock(rt, alloc, design, options, Hints::measured());
    }
    let copy = design.try_copy()?;
    run_by_workers(rt, alloc, copy, options, gate)
}

/// Runs a design from its initialization to the end of its run, and returns its history. Its
/// processes are executed by as many workers as the options say; each execution is reported to the
/// gate if it watches. If it does not, no lock is taken: each worker executes a share of the
/// processes that resume in a cycle; a single worker executes all on the calling thread. The
/// refusals: `Options` if an option is out of its range, `CycleLimit` if the run needs more cycles
/// than the limit, `PostponedDelta` if a postponed process makes a delta cycle follow, `Memory`.
pub fn run<R: Threads + Wait + Sync, G: Gate + Sync>(
    rt: &R,
    alloc: Global,
    design: &Design,
    options: &Options,
    gate: &G,
) -> Result<Finished, RunError>
    ensures { IsAnswer (behaviour_of design.now) options.now result }
{
    if !options.are_in_range() {
        return Err(RunError::Options);
    }
    let run = run_either(rt, alloc, design, options, gate)?;
    Finished::of(alloc, &run)
}

/// Carries on the run of a store under a lock from its present state to its end, and returns its
/// history. Other threads may look at the store meanwhile, or carry it on as well; it stays in the
/// lock. Its design, stop time and limit are compared with the caller's under the first lock and
/// under the last. The refusals: `Options` if an option is out of its range, `Stranger` if the
/// store is not that of this run, `CycleLimit` if the run needs more cycles than the limit,
/// `PostponedDelta` if a postponed process makes a delta cycle follow, and `Memory`, after which
/// the call may be repeated.
pub fn run_in<R: Threads + Wait + Sync, G: Gate + Sync>(
    rt: &R,
    alloc: Global,
    store: &Mutex<WaveStore>,
    design: &Design,
    options: &Options,
    gate: &G,
) -> Result<Finished, RunError>
    ensures { IsAnswer (behaviour_of design.now) options.now result }
{
    if !options.are_in_range() {
        return Err(RunError::Options);
    }
    if !is_run_of(&store.lock(rt), design, options) {
        return Err(RunError::Stranger);
    }
    for _ in rt.forever() {
        if let Carried::ToStranger = run_to_end(rt, alloc, store, options.workers, gate)? {
            return Err(RunError::Stranger);
        }
        let found = answer_of(alloc, &store.lock(rt), design, options)?;
        if let Some(finished) = found {
            return Ok(finished);
        }
    }
    unreachable!()
}
