//! A whole run of a design: on the calling thread, or by a team of threads.
ghost use Rattle.std.specs.Prelude.{◌≡◌, ◌≢◌, ◌≤◌, ◌⊎◌, None, IfOk, IfErr, IfSome, OnOk, OnErr};
ghost use Rattle.std.specs.Io.KnownBytes.{Appends};
ghost use Rattle.sim_run_listing.specs.Listing.{listing};
ghost use Rattle.sim_run_listing.specs.Writing.{AppendsPart};
ghost use Rattle.sim_logic.specs.Time.{largest_time};
ghost use Rattle.sim_standard.specs.Behaviour.{behaviour_of};
ghost use Rattle.sim_store.specs.WaveStore as store;
ghost use Rattle.sim_run_session.specs.declared.error.RunError.TheVariants as refusal;
ghost use Rattle.sim_run_session.specs.Run.{Finishes, IsCut, IsRefusalAlone, IsRunOf, history_of};

use crate::error::RunError;
use crate::team::carry_to_end;
use sim_flat_design::Design;
use sim_run_listing::write_log;
use sim_run_options::Options;
use sim_run_team::Hints;
use sim_store::{Step, WaveStore};
use std::alloc::Global;
use std::io::Write;
use std::sync::Wait;
use std::thread::Threads;

/// The store of a design at the start of its run.
pub fn begun_run(alloc: Global, design: Design, options: &Options) -> Result<WaveStore, RunError>
    requires { options.now.stop ≤ largest_time }
    ensures ok { IfOk result (λ run. IsRunOf design options.now run) }
    ensures err { IfErr result (λ e. e ≡ refusal.Memory) }
{
    match WaveStore::new(alloc, design, options.stop, options.limit) {
        Ok(run) => Ok(run),
        // The stop time is not too late, so memory ran out.
        Err(_refusal) => Err(RunError::Memory),
    }
}

/// The store of a run carried to its end on the calling thread. Nothing is copied, and no lock is
/// taken.
fn run_in_place(alloc: Global, design: Design, options: &Options) -> Result<WaveStore, RunError>
    requires { options.now.stop ≤ largest_time }
    ensures ok { IfOk result (λ run. IsRunOf design options.now run × (run.ended ≢ None)) }
    ensures err { IfErr result (λ e. e ≡ refusal.Memory) }
{
    let run = begun_run(alloc, design, options)?;
    match run.run_to_end(alloc) {
        Ok(run) => Ok(run),
        // It refuses only because memory ran out.
        Err(_refusal) => Err(RunError::Memory),
    }
}

/// The store of a run that has ended, if it is finished.
pub fn finished_run(run: WaveStore) -> Result<WaveStore, RunError>
    requires { run.ended ≢ None }
    ensures finished { IfOk result (λ r. (r ≡ run) × store.HasEnd run Step.Finished) }
    ensures refused { IfErr result (λ e. ((e ≡ refusal.CycleLimit run.limit) × store.HasEnd run Step.LimitReached)
        ⊎ ((e ≡ refusal.PostponedDelta) × store.HasEnd run Step.PostponedDelta)) }
{
    match run.ended() {
        Some(Step::LimitReached) => Err(RunError::CycleLimit { limit: run.limit() }),
        Some(Step::PostponedDelta) => Err(RunError::PostponedDelta),
        _ => Ok(run),
    }
}

/// The store of a finished run, carried out on the calling thread up to the stop time and within
/// the limit.
pub fn run_alone(alloc: Global, design: Design, options: &Options) -> Result<WaveStore, RunError>
    requires { options.now.stop ≤ largest_time }
    ensures finished { IfOk result (λ run. Finishes (behaviour_of design) options.now (history_of run)) }
    ensures refused { IfErr result (IsRefusalAlone (behaviour_of design) options.now) }
{
    let run = run_in_place(alloc, design, options)?;
    finished_run(run)
}

/// The store of a run carried to its end by a team of threads, each of which executes a share of
/// the processes that resume. `None` if the team fails or memory runs out: then nothing is known of
/// the run.
fn run_in_shares<R: Threads + Wait + Sync>(
    rt: &R,
    alloc: Global,
    design: Design,
    options: &Options,
    hints: Hints,
) -> Option<WaveStore>
    requires { options.now.stop ≤ largest_time }
    ensures { IfSome result (λ run. IsRunOf design options.now run × (run.ended ≢ None)) }
{
    let run = begun_run(alloc, design, options).ok()?;
    let ended = carry_to_end(rt, alloc, run.into_run(), options.workers, hints)?;
    Some(WaveStore::of_run(ended))
}

/// The store of a finished run, carried out by a team of threads without a gate, up to the stop
/// time and within the limit. `None` if the team fails or memory runs out: then the run must begin
/// again on the calling thread, so lack of memory is no refusal here.
pub fn run_by_team<R: Threads + Wait + Sync>(
    rt: &R,
    alloc: Global,
    design: Design,
    options: &Options,
    hints: Hints,
) -> Result<Option<WaveStore>, RunError>
    requires { options.now.stop ≤ largest_time }
    ensures finished { IfOk result (λ found. IfSome found (λ run. Finishes (behaviour_of design) options.now (history_of run))) }
    ensures cut { IfErr result (IsCut (behaviour_of design) options.now) }
{
    let Some(run) = run_in_shares(rt, alloc, design, options, hints) else {
        return Ok(None);
    };
    let run = finished_run(run)?;
    Ok(Some(run))
}

/// The store of a finished run of a copy of a design, carried out by a team of threads. `None` if
/// the team fails or memory runs out.
fn run_copy_by_team<R: Threads + Wait + Sync>(
    rt: &R,
    alloc: Global,
    design: &Design,
    options: &Options,
    hints: Hints,
) -> Result<Option<WaveStore>, RunError>
    requires { options.now.stop ≤ largest_time }
    ensures finished { IfOk result (λ found. IfSome found (λ run. Finishes (behaviour_of design.now) options.now (history_of run))) }
    ensures cut { IfErr result (IsCut (behaviour_of design.now) options.now) }
{
    match design.try_copy() {
        Ok(copy) => run_by_team(rt, alloc, copy, options, hints),
        Err(_no_memory) => Ok(None),
    }
}

/// The store of a finished run without a lock, carried out by a team if there are several workers
/// and otherwise, or if the team fails, on the calling thread. So for any number of workers,
/// `Memory` means that the calling thread alone has too little.
pub fn run_without_lock<R: Threads + Wait + Sync>(
    rt: &R,
    alloc: Global,
    design: &Design,
    options: &Options,
    hints: Hints,
) -> Result<WaveStore, RunError>
    requires { options.now.stop ≤ largest_time }
    ensures finished { IfOk result (λ run. Finishes (behaviour_of design.now) options.now (history_of run)) }
    ensures refused { IfErr result (IsRefusalAlone (behaviour_of design.now) options.now) }
{
    if options.workers > 1 {
        let found = run_copy_by_team(rt, alloc, design, options, hints)?;
        if let Some(run) = found {
            return Ok(run);
        }
    }
    let copy = design.try_copy()?;
    run_alone(alloc, copy, options)
}

/// Writes the listing of a store's history, from its log and the nets of its design. A table of the
/// short names is made; if memory is refused, all names are taken from the nets.
pub fn write_run<W: Write>(alloc: Global, run: &WaveStore, out: &mut W) -> Result<(), RunError>
    ensures ok { OnOk result (Appends (W.contents out.old) (W.contents out.new) (listing (history_of run.now).names (history_of run.now).records)) }
    ensures part { OnErr result (AppendsPart (W.contents out.old) (W.contents out.new) (listing (history_of run.now).names (history_of run.now).records)) }
    ensures err { IfErr result (λ e. e ≡ refusal.Write) }
{
    write_log(
        alloc,
        run.design().nets(),
        run.history(),
        run.look().events,
        out,
    )?;
    Ok(())
}
