//! From the text of a design to its listing.
ghost use Rattle.std.specs.Prelude.{◌≡◌, ◌≢◌, ◌↔◌, true, false, Err, OnOk, IfErr, IfSome, MatchResult};
ghost use Rattle.std.specs.Io.KnownBytes.{Keeps};
ghost use Rattle.sim_run_options.specs.Options.{are_in_range, are_in_range_within};
ghost use Rattle.sim_run_session.specs.Run.{Finishes, Lists, ListsPart, history_of};
ghost use Rattle.sim_run_session.specs.Streaming.{HasWritten};
ghost use Rattle.sim_run_session.specs.Simulation.{IsDesignOf, IsDesignWithin, HasDesign, HasDesignWithin, IsOfText, IsRefusal, IsRefusalWithin};

use crate::error::RunError;
use crate::runs::{run_alone, run_by_team, write_run};
use crate::settings::Settings;
use crate::streaming::run_and_list;
use sim_flat::flatten_within;
use sim_flat_design::Design;
use sim_run_options::{Limits, Options};
use sim_run_team::Hints;
use sim_store::WaveStore;
use sim_text::parse_within;
use std::alloc::Global;
use std::io::Write;
use std::sync::Wait;
use std::thread::Threads;

/// Reads a text, and elaborates its design under the top of the options. It refuses with `Text` or
/// `Flat`, as `simulate_within` does, in this order.
pub fn elaborate_within(
    alloc: Global,
    source: &[u8],
    options: &Options,
    limits: Limits,
) -> Result<Design, RunError>
    ensures only { IfErr result IsOfText }
    ensures value { MatchResult result (λ design. IsDesignWithin limits source.now options.now design)
        (λ e. IsRefusalWithin limits source.now options.now e) }
{
    let file = parse_within(alloc, source, limits.bytes())?;
    let design = flatten_within(alloc, &file, options.top.as_str(), limits.design())?;
    Ok(design)
}

/// The same within the limits of a run that asks for no others.
pub fn elaborate(alloc: Global, source: &[u8], options: &Options) -> Result<Design, RunError>
    ensures only { IfErr result IsOfText }
    ensures value { MatchResult result (λ design. IsDesignOf source.now options.now design) (λ e. IsRefusal source.now options.now e) }
{
    elaborate_within(alloc, source, options, Limits::Standard)
}

/// The store of a text's finished run, carried out by a team of threads. `None` if the team fails
/// or memory runs out in the run; lack of memory is a refusal only for the text and its
/// elaboration.
fn run_text_by_team<R: Threads + Wait + Sync>(
    rt: &R,
    alloc: Global,
    source: &[u8],
    options: &Options,
    settings: Settings,
) -> Result<Option<WaveStore>, RunError>
    requires { are_in_range_within settings.limits options.now.stop options.now.limit options.now.workers ≡ true }
    ensures { MatchResult result
        (λ found. IfSome found (λ run. HasDesignWithin settings.limits source.now options.now (λ design. Finishes design options.now (history_of run))))
        (λ e. IsRefusalWithin settings.limits source.now options.now e) }
{
    let design = elaborate_within(alloc, source, options, settings.limits)?;
    run_by_team(rt, alloc, design, options, settings.hints)
}

/// The store of a text's finished run, carried out on the calling thread.
fn run_text_alone(
    alloc: Global,
    source: &[u8],
    options: &Options,
    settings: Settings,
) -> Result<WaveStore, RunError>
    requires { are_in_range_within settings.limits options.now.stop options.now.limit options.now.workers ≡ true }
    ensures { MatchResult result (λ run. HasDesignWithin settings.limits source.now options.now (λ design. Finishes design options.now (history_of run)))
        (λ e. IsRefusalWithin settings.limits source.now options.now e) }
{
    let design = elaborate_within(alloc, source, options, settings.limits)?;
    run_alone(alloc, design, options)
}

/// The store of a text's finished run. If the team fails, which loses what the processes own, the
/// run begins again on the calling thread.
fn run_text<R: Threads + Wait + Sync>(
    rt: &R,
    alloc: Global,
    source: &[u8],
    options: &Options,
    settings: Settings,
) -> Result<WaveStore, RunError>
    requires { are_in_range_within settings.limits options.now.stop options.now.limit options.now.workers ≡ true }
    ensures { MatchResult result (λ run. HasDesignWithin settings.limits source.now options.now (λ design. Finishes design options.now (history_of run)))
        (λ e. IsRefusalWithin settings.limits source.now options.now e) }
{
    if options.workers > 1 {
        let found = run_text_by_team(rt, alloc, source, options, settings)?;
        if let Some(run) = found {
            return Ok(run);
        }
    }
    run_text_alone(alloc, source, options, settings)
}

/// Simulates the design in a text, and writes its listing. The refusals, in the order of the
/// checks: `Options` if the stop time, the limit or the number of workers is out of its range;
/// `Text` if the text is at fault, or memory ran out while it was read (see `sim_text::parse`);
/// `Flat` if the design is at fault, or memory ran out while it was elaborated (see
/// `sim_flat::flatten`); `CycleLimit` if the run needs more cycles than the limit; `PostponedDelta`
/// if a postponed process makes a delta cycle follow (14.7.5.3 h); `Write` if a write fails or
/// writes nothing. `Memory` if memory ran out in the run. After `Write`, a prefix of the listing
/// has been written, otherwise nothing.
pub fn simulate<R: Threads + Wait + Sync, W: Write>(
    rt: &R,
    alloc: Global,
    source: &[u8],
    options: &Options,
    out: &mut W,
) -> Result<(), RunError>
    ensures options { (result ≡ Err RunError.Options) ↔ (are_in_range options.now.stop options.now.limit options.now.workers ≡ false) }
    ensures listed { OnOk result (HasDesign source.now options.now (λ design. Lists design options.now (W.contents out.old) (W.contents out.new))) }
    // If a write failed, the run is finished, and a proper prefix of its listing was written.
    ensures part { result ≡ Err RunError.Write → HasDesign source.now options.now (λ design.
        ListsPart design options.now (W.contents out.old) (W.contents out.new)) }
    // Every other refusal has its reason, and nothing was written.
    ensures refused { IfErr result (λ e. e ≢ RunError.Write → IsRefusal source.now options.now e) }
    ensures quiet { IfErr result (λ e. e ≢ RunError.Write → Keeps (W.contents out.old) (W.contents out.new)) }
{
    let settings = Settings {
        limits: Limits::Standard,
        hints: Hints::measured(),
    };
    simulate_within(rt, alloc, source, options, settings, out)
}

/// The same within the limits of the settings: `Options`, `Text` and `Flat` follow them.
pub fn simulate_within<R: Threads + Wait + Sync, W: Write>(
    rt: &R,
    alloc: Global,
    source: &[u8],
    options: &Options,
    settings: Settings,
    out: &mut W,
) -> Result<(), RunError>
    ensures options { (result ≡ Err RunError.Options) ↔ (are_in_range_within settings.limits options.now.stop options.now.limit options.now.workers ≡ false) }
    ensures listed { OnOk result (HasDesignWithin settings.limits source.now options.now (λ design.
        Lists design options.now (W.contents out.old) (W.contents out.new))) }
    // If a write failed, the run is finished, and a proper prefix of its listing was written.
    ensures part { result ≡ Err RunError.Write → HasDesignWithin settings.limits source.now options.now (λ design.
        ListsPart design options.now (W.contents out.old) (W.contents out.new)) }
    // Every other refusal has its reason, and nothing was written.
    ensures refused { IfErr result (λ e. e ≢ RunError.Write → IsRefusalWithin settings.limits source.now options.now e) }
    ensures quiet { IfErr result (λ e. e ≢ RunError.Write → Keeps (W.contents out.old) (W.contents out.new)) }
{
    if !options.are_in_range_within(settings.limits) {
        return Err(RunError::Options);
    }
    let run = run_text(rt, alloc, source, options, settings)?;
    write_run(alloc, &run, out)
}

/// Simulates the design in a text, and writes its listing while the run goes on, so that no more
/// memory is needed the longer it runs. The text is dropped as soon as it has been elaborated. The
/// refusals are those of `simulate_within`. After `CycleLimit` and `PostponedDelta` the lines of all
/// records up to there have been written; after `Memory`, if memory runs out in any thread, and
/// `Write` the first of the lines; otherwise nothing.
pub fn simulate_streaming<R: Threads + Wait + Sync, W: Write + Send>(
    rt: &R,
    alloc: Global,
    source: Vec<u8>,
    options: &Options,
    settings: Settings,
    out: &mut W,
) -> Result<(), RunError>
    ensures options { (result ≡ Err RunError.Options) ↔ (are_in_range_within settings.limits options.now.stop options.now.limit options.now.workers ≡ false) }
    ensures listed { OnOk result (HasDesignWithin settings.limits source.items options.now (λ design.
        Lists design options.now (W.contents out.old) (W.contents out.new))) }
    ensures refused { IfErr result (λ e. e ≢ RunError.Write → IsRefusalWithin settings.limits source.items options.now e) }
    ensures written { IfErr result (HasWritten true settings.limits source.items options.now (W.contents out.old) (W.contents out.new)) }
{
    if !options.are_in_range_within(settings.limits) {
        return Err(RunError::Options);
    }
    let design = elaborate_within(alloc, source.as_slice(), options, settings.limits)?;
    drop(source);
    run_and_list(rt, alloc, design, options, settings.hints, out)
}
