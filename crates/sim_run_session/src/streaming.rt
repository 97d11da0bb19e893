//! A run whose lines are written while it goes on, so that it keeps few records.
ghost use Rattle.std.specs.Prelude.{◌≡◌, ◌≢◌, ◌≤◌, ◌<◌, ◌⊎◌, ◌++◌, None, Some, IfOk, IfErr, IfSome, MatchOption, OnOk, OnErr, ℕ, List, Option};
ghost use Rattle.std.specs.Io.KnownBytes.{Appends};
ghost use Rattle.sim_run_listing.specs.Listing.{last_line};
ghost use Rattle.sim_run_listing.specs.Writing.{AppendsPart};
ghost use Rattle.sim_logic.specs.Time.{largest_time};
ghost use Rattle.sim_standard.specs.Behaviour.{behaviour_of};
ghost use Rattle.sim_store.specs.Run as runs;
ghost use Rattle.sim_store.specs.WaveStore as store;
ghost use Rattle.sim_store.specs.WaveStore.{IsSameRun};
ghost use Rattle.sim_run_session.specs.declared.error.RunError.TheVariants as refusal;
ghost use Rattle.sim_run_session.specs.Run.{IsRunOf};
ghost use Rattle.sim_run_session.specs.Streaming as spec;
ghost use Rattle.sim_run_session.specs.Streaming.{AreTheirNames, Continues, Stops};

use crate::beside::carry_and_write;
use crate::error::RunError;
use crate::names::Names;
use crate::team::{Plan, carry_on, planned};
use sim_flat_design::Design;
use sim_run_listing::{KnownNames, Totals, write_last_records, write_records};
use sim_run_options::Options;
use sim_run_team::Hints;
use sim_store::{Run, Step};
use std::alloc::Global;
use std::io::Write;
use std::sync::Wait;
use std::thread::Threads;

/// How many entries a log has for each thread when its lines are written: 512 KiB.
const PIECE: usize = 65_536;

/// Writes the lines of the records that a run has not given away.
fn write_rest<W: Write>(run: &Run, known: &KnownNames, out: &mut W) -> Result<(), RunError>
    requires { AreTheirNames run.now known.now }
    ensures ok { OnOk result (Appends (W.contents out.old) (W.contents out.new) (spec.lines_in run.now (runs.rest_of run.now))) }
    ensures part { OnErr result (AppendsPart (W.contents out.old) (W.contents out.new) (spec.lines_in run.now (runs.rest_of run.now))) }
    ensures err { IfErr result (λ e. e ≡ refusal.Write) }
{
    write_records(run.design().nets(), known, run.log(), out)?;
    Ok(())
}

/// Writes the lines of the records that a run has, and gives these away.
fn write_piece<W: Write>(
    alloc: Global,
    run: &mut Run,
    known: &KnownNames,
    out: &mut W,
) -> Result<(), RunError>
    requires { AreTheirNames run.old known.now }
    ensures same { run.new.store ≡ run.old.store }
    ensures ok { OnOk result (Continues run.old (W.contents out.old) run.new (W.contents out.new)) }
    ensures failed { OnErr result (Stops run.old (W.contents out.old) (W.contents out.new)) }
    ensures err { IfErr result (λ e. e ≡ refusal.Write) }
{
    run.is_within_bounds();
    write_rest(run, known, out)?;
    let _written = run.give(alloc);
    Ok(())
}

/// Writes the lines of the records that a run has not given away, and the last line.
fn write_end<W: Write>(run: &Run, known: &KnownNames, out: &mut W) -> Result<(), RunError>
    requires { AreTheirNames run.now known.now }
    ensures ok { OnOk result (Appends (W.contents out.old) (W.contents out.new)
        (spec.lines_in run.now (runs.rest_of run.now) ++ last_line (runs.records_of run.now))) }
    ensures part { OnErr result (AppendsPart (W.contents out.old) (W.contents out.new)
        (spec.lines_in run.now (runs.rest_of run.now) ++ last_line (runs.records_of run.now))) }
    ensures err { IfErr result (λ e. e ≡ refusal.Write) }
{
    run.is_within_bounds();
    let look = run.look();
    let totals = Totals {
        cycles: look.records - 1,
        events: look.events,
    };
    write_last_records(run.design().nets(), known, run.log(), totals, out)?;
    Ok(())
}

/// Why a run that has ended was cut short; `None` if it is finished.
fn refusal_of(run: &Run) -> Option<RunError>
    requires { run.now.store.ended ≢ None }
    ensures { MatchOption result (store.HasEnd run.now.store Step.Finished) (spec.IsCutRun run.now) }
{
    match run.ended() {
        Some(Step::LimitReached) => Some(RunError::CycleLimit { limit: run.limit() }),
        Some(Step::PostponedDelta) => Some(RunError::PostponedDelta),
        _ => None,
    }
}

/// Writes what is left of the listing of a run that was cut short for this reason.
fn cut_listing<W: Write>(
    run: &Run,
    options: &Options,
    known: &KnownNames,
    reason: RunError,
    out: &mut W,
) -> Result<(), RunError>
    requires names { AreTheirNames run.now known.now }
    requires of { IsRunOf run.now.store.simulation.design options.now run.now.store }
    requires cut { spec.IsCutRun run.now reason }
    ensures { (begin : Option (List ℕ)) → spec.HasListed run.now begin (W.contents out.old)
        → spec.IsListed (behaviour_of run.now.store.simulation.design) options.now begin (W.contents out.new) result }
{
    run.is_within_bounds();
    match write_rest(run, known, out) {
        Ok(()) => Err(reason),
        Err(failed) => Err(failed),
    }
}

/// Writes what is left of the listing of a run that is finished.
fn finish_listing<W: Write>(
    run: &Run,
    options: &Options,
    known: &KnownNames,
    out: &mut W,
) -> Result<(), RunError>
    requires names { AreTheirNames run.now known.now }
    requires of { IsRunOf run.now.store.simulation.design options.now run.now.store }
    requires finished { store.HasEnd run.now.store Step.Finished }
    ensures { (begin : Option (List ℕ)) → spec.HasListed run.now begin (W.contents out.old)
        → spec.IsListed (behaviour_of run.now.store.simulation.design) options.now begin (W.contents out.new) result }
{
    write_end(run, known, out)
}

/// Writes what is left of the listing of a run that has ended.
fn end_listing<W: Write>(
    run: &Run,
    options: &Options,
    known: &KnownNames,
    out: &mut W,
) -> Result<(), RunError>
    requires ended { run.now.store.ended ≢ None }
    requires names { AreTheirNames run.now known.now }
    requires of { IsRunOf run.now.store.simulation.design options.now run.now.store }
    ensures { (begin : Option (List ℕ)) → spec.HasListed run.now begin (W.contents out.old)
        → spec.IsListed (behaviour_of run.now.store.simulation.design) options.now begin (W.contents out.new) result }
{
    match refusal_of(run) {
        Some(reason) => cut_listing(run, options, known, reason, out),
        None => finish_listing(run, options, known, out),
    }
}

/// Carries a run to its end by the threads of a plan, and writes the lines of its records piece by
/// piece.
fn carry_and_list<R: Threads + Wait + Sync, W: Write>(
    rt: &R,
    alloc: Global,
    run: Run,
    plan: Plan,
    known: &KnownNames,
    out: &mut W,
) -> Result<Run, RunError>
    requires { AreTheirNames run known.now }
    ensures same { IfOk result (λ r. IsSameRun run.store r.store × (r.store.ended ≢ None)) }
    ensures listed { IfOk result (λ r. Continues run (W.contents out.old) r (W.contents out.new)) }
    ensures stopped { OnErr result (Stops run (W.contents out.old) (W.contents out.new)) }
    ensures err { IfErr result (λ e. (e ≡ refusal.Memory) ⊎ (e ≡ refusal.Write)) }
{
    let mut run = run;
    for _turn in rt.forever() {
        if run.ended().is_some() {
            return Ok(run);
        }
        run.is_within_bounds();
        let Some(next) = carry_on(rt, alloc, run, plan) else {
            return Err(RunError::Memory);
        };
        run = next;
        write_piece(alloc, &mut run, known, out)?;
    }
    unreachable!()
}

/// The same; where there may be another thread, that one writes the lines meanwhile.
fn carry_and_list_by<R: Threads + Wait + Sync, W: Write + Send>(
    rt: &R,
    alloc: Global,
    run: Run,
    plan: Plan,
    known: &KnownNames,
    out: &mut W,
) -> Result<Run, RunError>
    requires { AreTheirNames run known.now }
    ensures same { IfOk result (λ r. IsSameRun run.store r.store × (r.store.ended ≢ None)) }
    ensures listed { IfOk result (λ r. Continues run (W.contents out.old) r (W.contents out.new)) }
    ensures stopped { OnErr result (Stops run (W.contents out.old) (W.contents out.new)) }
    ensures err { IfErr result (λ e. (e ≡ refusal.Memory) ⊎ (e ≡ refusal.Write)) }
{
    if !plan.is_shared {
        return carry_and_list(rt, alloc, run, plan, known, out);
    }
    match Names::of(alloc, run.design().nets()) {
        Ok(names) => carry_and_write(rt, alloc, run, plan, &names, out),
        Err(_no_memory) => carry_and_list(rt, alloc, run, plan, known, out),
    }
}

/// The same for a run of which no records were given away, with the rest of its listing.
fn list_run<R: Threads + Wait + Sync, W: Write + Send>(
    rt: &R,
    alloc: Global,
    run: Run,
    options: &Options,
    plan: Plan,
    out: &mut W,
) -> Result<(), RunError>
    requires whole { run.given ≡ 0 }
    requires of { IsRunOf run.store.simulation.design options.now run.store }
    ensures { spec.IsListed (behaviour_of run.store.simulation.design) options.now (W.contents out.old) (W.contents out.new) result }
{
    let known = KnownNames::of(alloc, run.design().nets());
    match carry_and_list_by(rt, alloc, run, plan, &known, out) {
        Ok(run) => end_listing(&run, options, &known, out),
        Err(failed) => Err(failed),
    }
}

/// The run of a design with these options at its start, and the plan by which it is carried on.
fn begun<R: Threads>(
    rt: &R,
    alloc: Global,
    design: Design,
    options: &Options,
    hints: Hints,
) -> Option<(Plan, Run)>
    requires { options.now.stop ≤ largest_time }
    ensures of { IfSome result (λ r. (r.1.store.simulation.design ≡ design) × IsRunOf design options.now r.1.store) }
    ensures whole { IfSome result (λ r. r.1.given ≡ 0) }
{
    let run = Run::new(alloc, design, options.stop, options.limit).ok()?;
    planned(rt, alloc, run, options.workers, hints, PIECE)
}

/// Runs a design, and writes its listing meanwhile: when many records have been made, their lines are
/// written, and the records given away. So it takes no more memory the longer it runs. The refusals:
/// `CycleLimit` and `PostponedDelta`, once the lines up to there have been written; `Memory`, if
/// memory runs out in any thread, and `Write`, after the first of the lines.
pub fn run_and_list<R: Threads + Wait + Sync, W: Write + Send>(
    rt: &R,
    alloc: Global,
    design: Design,
    options: &Options,
    hints: Hints,
    out: &mut W,
) -> Result<(), RunError>
    requires { options.now.stop ≤ largest_time }
    ensures { spec.IsListed (behaviour_of design) options.now (W.contents out.old) (W.contents out.new) result }
{
    match begun(rt, alloc, design, options, hints) {
        // The stop time is not too late, so memory ran out.
        None => Err(RunError::Memory),
        Some((plan, run)) => list_run(rt, alloc, run, options, plan, out),
    }
}
