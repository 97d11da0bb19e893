//! Lines that another thread writes while the run goes on.
ghost use Rattle.std.specs.Prelude.{◌≡◌, ◌≢◌, ◌<◌, ◌^◌, ◌⊎◌, None, IfErr, IfOk, IfSome, OnErr, OnOk, flat_map, length};
ghost use Rattle.std.specs.Io.KnownBytes.{Appends};
ghost use Rattle.std.specs.List.{All};
ghost use Rattle.sim_standard.specs.Behaviour.{behaviour_of};
ghost use Rattle.sim_standard.specs.Records.{IsNamed};
ghost use Rattle.sim_store.specs.WaveStore.{IsSameRun};
ghost use Rattle.sim_run_listing.specs.Listing.{lines_of};
ghost use Rattle.sim_run_listing.specs.Writing.{AppendsPart};
ghost use Rattle.sim_run_session.specs.declared.error.RunError.TheVariants as refusal;
ghost use Rattle.sim_run_session.specs.Streaming.{Continues, HasGoneOn, Stops};

use crate::error::RunError;
use crate::names::Names;
use crate::team::{Plan, carry_on};
use sim_store::{Log, Past, Run};
use std::alloc::Global;
use std::io::Write;
use std::sync::Wait;
use std::thread::{Threads, join_mut};

/// A part of a run, and the names of its nets.
#[derive(Clone, Copy)]
struct Part<'a> {
    names: &'a Names,
    log: &'a Log,
}

/// Carries on the run at a place; none is left there if the team fails.
fn carry_place<R: Threads + Wait + Sync>(rt: &R, alloc: Global, place: &mut Option<Run>, plan: Plan)
    ensures { IfSome place.new (λ next. IfSome place.old (λ run. HasGoneOn run next)) }
{
    let Some(run) = place.take() else {
        return;
    };
    *place = carry_on(rt, alloc, run, plan);
}

/// Carries on a run, while another thread writes the lines of a part of it. Where there is no thread,
/// this one does both. `Write` if a write fails, otherwise `Memory` if the team fails.
fn carry_beside<R: Threads + Wait + Sync, W: Write + Send>(
    rt: &R,
    alloc: Global,
    run: Run,
    plan: Plan,
    part: Part<'_>,
    out: &mut W,
) -> Result<Run, RunError>
    requires named { All (IsNamed (length part.names.now)) part.log.now.records }
    requires early { part.log.now.past.delta < 2 ^ 63 }
    ensures on { IfOk result (HasGoneOn run) }
    ensures all { OnOk result (Appends (W.contents out.old) (W.contents out.new) (flat_map (lines_of part.entry.names.now) part.entry.log.now.records)) }
    ensures some { OnErr result (
        Appends (W.contents out.old) (W.contents out.new) (flat_map (lines_of part.entry.names.now) part.entry.log.now.records)
        ⊎ AppendsPart (W.contents out.old) (W.contents out.new) (flat_map (lines_of part.entry.names.now) part.entry.log.now.records)) }
    ensures err { IfErr result (λ e. (e ≡ refusal.Memory) ⊎ (e ≡ refusal.Write)) }
{
    let mut run = Some(run);
    let place = &mut run;
    let Part { names, log } = part;
    let (written, _carried) = join_mut(
        rt,
        &mut || -> Result<(), RunError>
            requires { All (IsNamed (length names.now)) log.now.records × (log.now.past.delta < 2 ^ 63) }
            ensures ok { OnOk result (Appends (W.contents out.entry.now) (W.contents out.exit.now)
                (flat_map (lines_of names.entry.now) log.entry.now.records)) }
            ensures part { OnErr result (AppendsPart (W.contents out.entry.now) (W.contents out.exit.now)
                (flat_map (lines_of names.entry.now) log.entry.now.records)) }
            ensures err { IfErr result (λ e. e ≡ refusal.Write) }
        { names.write(log, out) },
        &mut || -> ()
            ensures { IfSome place.exit.now (λ next. IfSome place.entry.now (λ run. HasGoneOn run next)) }
        { carry_place(rt, alloc, place, plan) },
    );
    if let Err(failed) = written {
        return Err(failed);
    }
    match run {
        Some(next) => Ok(next),
        None => Err(RunError::Memory),
    }
}

/// Carries a run to its end by the threads of a plan, while another thread writes the lines of its
/// records piece by piece.
pub fn carry_and_write<R: Threads + Wait + Sync, W: Write + Send>(
    rt: &R,
    alloc: Global,
    run: Run,
    plan: Plan,
    names: &Names,
    out: &mut W,
) -> Result<Run, RunError>
    requires { names.now ≡ (behaviour_of run.store.simulation.design).names }
    ensures same { IfOk result (λ r. IsSameRun run.store r.store × (r.store.ended ≢ None)) }
    ensures listed { IfOk result (λ r. Continues run (W.contents out.old) r (W.contents out.new)) }
    ensures stopped { OnErr result (Stops run (W.contents out.old) (W.contents out.new)) }
    ensures err { IfErr result (λ e. (e ≡ refusal.Memory) ⊎ (e ≡ refusal.Write)) }
{
    let mut run = run;
    let mut piece = Log::new(alloc, Past::none());
    for _turn in rt.forever() {
        run.is_within_bounds();
        if run.ended().is_some() {
            names.write(&piece, out)?;
            return Ok(run);
        }
        let part = Part { names, log: &piece };
        run = carry_beside(rt, alloc, run, plan, part, out)?;
        run.is_within_bounds();
        piece = run.give(alloc);
    }
    unreachable!()
}
