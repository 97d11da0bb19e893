//! The program, for any reader and two writers.
ghost use Rattle.std.specs.Prelude.{◌≡◌, ◌≢◌, ◌≤◌, ◌<◌, ◌⊎◌, ◌↔◌, false, Err, codes, OnOk, IfOk, IfErr, [], ◌∷◌, map, string_bytes};
ghost use Rattle.std.specs.Io.KnownBytes.{Appends, Keeps};
ghost use Rattle.std.specs.Str.Parse.{starts_with_minus};
ghost use Rattle.sim_text_tokens.specs.Pieces.{Text};
ghost use Rattle.sim_run_options.specs.Asks.{AreRefused, limits_of, streams};
ghost use Rattle.sim_run_options.specs.Limits.{bytes_of};
ghost use Rattle.sim_run_options.specs.Options.{are_in_range_within};
ghost use Rattle.sim_run_session.specs.declared.error.RunError.TheVariants as refusal;
ghost use Rattle.sim_run_session.specs.declared.program.Failure.TheVariants as failure;
ghost use Rattle.sim_run_session.specs.Run.{Lists};
ghost use Rattle.sim_run_session.specs.Streaming.{HasWritten, IsCutAfter, IsStopped};
ghost use Rattle.sim_run_session.specs.Session.{AreInRange, ReadsSource, HasText, HasRun, HasOptions, HasHelp, HasLeft, IsAnswerTo, IsFailure, status_of};
ghost use Rattle.sim_run_session.specs.Simulation.{HasDesignWithin, IsRefusalWithin, IsRefusedText};
ghost use Rattle.sim_run_listing.specs.Writing.{AppendsPart};

use crate::error::RunError;
use crate::settings::Settings;
use crate::simulation::{simulate_streaming, simulate_within};
use arrayvec::ArrayVec;
use sim_flat::FlatError;
use sim_run_listing::write_whole;
use sim_run_options::{CliFault, Limits, Request, read_request};
use sim_run_team::Hints;
use sim_text::TextError;
use std::alloc::Global;
use std::io::{Read, Write};
use std::sync::Wait;
use std::thread::Threads;
use thiserror::Error;

/// The number of bytes that a read asks for.
const CHUNK: usize = 16_384;

/// More bytes than any line on standard error has.
const LONGEST_LINE: usize = 64;

/// Why a run that the words ask for has no listing.
#[derive(Clone, Copy, Debug, Error)]
pub enum Failure {
    /// A read failed, or there were too many of them.
    #[error("Read")]
    Read,
    /// Memory ran out.
    #[error("Memory")]
    Memory,
    /// A refusal of the run.
    #[error("{0}")]
    Run(RunError),
}

/// The exit status: 1 for a fault of the text or design, 2 for the options, 3 for a run that is cut
/// short, 4 for memory and streams.
fn status_of_failure(failure: Failure) -> u8
    ensures { result ≡ status_of failure }
{
    match failure {
        Failure::Run(RunError::Text(TextError::Memory) | RunError::Flat(FlatError::Memory)) => 4,
        Failure::Run(RunError::Text(_) | RunError::Flat(_)) => 1,
        Failure::Run(RunError::Options) => 2,
        Failure::Run(RunError::CycleLimit { .. } | RunError::PostponedDelta | RunError::Stranger) =>
            3,
        Failure::Read | Failure::Memory | Failure::Run(RunError::Write | RunError::Memory) => 4,
    }
}

/// The remaining input, up to one byte more than a text may have, which is enough to see that it is
/// too long. Each read gives at least one byte, so half as many would do.
fn read_source<R: Read>(alloc: Global, input: &mut R, limits: Limits) -> Result<Vec<u8>, Failure>
    ensures source { IfOk result (λ text. ReadsSource (bytes_of limits) (R.remaining input.old) (R.remaining input.new) text.items) }
    ensures failed { IfErr result (λ f. (f ≡ Failure.Read) ⊎ (f ≡ Failure.Memory)) }
{
    let most = limits.bytes() + 1;
    let mut text = Vec::new(alloc);
    let mut chunk = [0; CHUNK];
    for _ in 0..2 * most {
        let room = CHUNK.min(most - text.len());
        match input.read(&mut chunk[..room]) {
            Ok(0) => return Ok(text),
            Ok(count) => {
                if text.extend_from_slice(&chunk[..count]).is_err() {
                    return Err(Failure::Memory);
                }
                if text.len() == most {
                    return Ok(text);
                }
            }
            Err(_) => return Err(Failure::Read),
        }
    }
    Err(Failure::Read)
}

/// Writes the listing of the run that is asked for of a text: while it goes on, if the words say so,
/// and otherwise at its end.
fn list<T: Threads + Wait + Sync, W: Write + Send>(
    rt: &T,
    alloc: Global,
    source: Vec<u8>,
    request: &Request,
    hints: Hints,
    out: &mut W,
) -> Result<(), RunError>
    ensures options { (result ≡ Err RunError.Options) ↔ (are_in_range_within request.now.limits request.now.options.stop
        request.now.options.limit request.now.options.workers ≡ false) }
    ensures listed { OnOk result (HasDesignWithin request.now.limits source.items request.now.options (λ design.
        Lists design request.now.options (W.contents out.old) (W.contents out.new))) }
    ensures refused { IfErr result (λ e. e ≢ RunError.Write → IsRefusalWithin request.now.limits source.items request.now.options e) }
    ensures written { IfErr result (HasWritten request.now.streams request.now.limits source.items request.now.options
        (W.contents out.old) (W.contents out.new)) }
{
    let settings = Settings {
        limits: request.limits,
        hints,
    };
    if request.streams {
        return simulate_streaming(rt, alloc, source, &request.options, settings, out);
    }
    simulate_within(
        rt,
        alloc,
        source.as_slice(),
        &request.options,
        settings,
        out,
    )
}

/// Reads the source, and writes the listing of its run.
fn carry_out<T: Threads + Wait + Sync, R: Read, W: Write + Send>(
    rt: &T,
    alloc: Global,
    request: &Request,
    hints: Hints,
    input: &mut R,
    out: &mut W,
) -> Result<(), Failure>
    ensures range { OnOk result (AreInRange request.now.limits request.now.options) }
    ensures listed { OnOk result (HasText (R.remaining input.old) (λ text. HasDesignWithin request.now.limits text request.now.options (λ design.
        Lists design request.now.options (W.contents out.old) (W.contents out.new)))) }
    ensures failed { IfErr result (λ f. IsFailure request.now.limits (R.remaining input.old) request.now.options f) }
    ensures left { IfErr result (HasLeft request.now.streams request.now.limits (R.remaining input.old) request.now.options
        (W.contents out.old) (W.contents out.new)) }
{
    let source = read_source(alloc, input, request.limits)?;
    match list(rt, alloc, source, request, hints, out) {
        Ok(()) => Ok(()),
        Err(refusal) => Err(Failure::Run(refusal)),
    }
}

/// Writes the line on standard error. A failure to write it is ignored.
fn tell<E: Write>(err: &mut E, failure: Failure) {
    let mut line = ArrayVec::<u8, LONGEST_LINE>::new();
    let _ = writeln!(line, "vsim: {failure}");
    let _ = write_whole(err, line.as_slice());
}

/// Writes the text of the help. A failed write is reported like that of a listing.
fn show<W: Write, E: Write>(out: &mut W, err: &mut E, text: &str) -> u8
    ensures { ((result ≡ 0) × Appends (W.contents out.old) (W.contents out.new) text.now)
        ⊎ ((result ≡ 4) × AppendsPart (W.contents out.old) (W.contents out.new) text.now) }
{
    if write_whole(out, text.as_bytes()).is_ok() {
        return 0;
    }
    tell(err, Failure::Run(RunError::Write));
    4
}

/// Answers words that give no options.
fn explain<W: Write, E: Write>(fault: &CliFault, out: &mut W, err: &mut E) -> u8
    ensures { IsAnswerTo fault.now result (W.contents out.old) (W.contents out.new) }
{
    match fault {
        CliFault::Help(text) => show(out, err, text.as_str()),
        CliFault::Refused(text) => {
            let _ = write_whole(err, text.as_bytes());
            2
        }
        CliFault::Memory => {
            tell(err, Failure::Memory);
            4
        }
    }
}

/// The whole program. It takes its words without its own name, reads the source from `input`,
/// writes the listing to `out`, or a line `vsim: ` with the text of the refusal to `err`, and
/// returns its status: 0 if the listing was written, 1 if the text was refused, 2 if the words or
/// the options were refused, 3 if the run needs more cycles than the limit or a postponed process
/// makes a delta cycle follow, 4 if memory ran out, or reading or writing failed. This holds for
/// any number of workers. With `--stream` lines are written while the run goes on. It reads at most one byte more than a text may have, by at most twice as
/// many reads: 1,048,577 and 2,097,154, and with `--large` 268,435,457 and 536,870,914.
///
/// If the words ask for help, its text goes to `out`, with status 0; if they are refused, the lines
/// of `clap` that say why go to `err`. In both cases nothing is read.
pub fn session<T: Threads + Wait + Sync, R: Read, W: Write + Send, E: Write>(
    rt: &T,
    alloc: Global,
    words: Vec<String>,
    input: &mut R,
    out: &mut W,
    err: &mut E,
) -> u8
    ensures status { result ≤ 4 }
    ensures success { result ≡ 0 → HasRun (map string_bytes words.items) (R.remaining input.old) (λ text options.
        HasDesignWithin (limits_of (map string_bytes words.items)) text options (λ design. Lists design options (W.contents out.old) (W.contents out.new)))
        ⊎ HasHelp (map string_bytes words.items) (λ help. Appends (W.contents out.old) (W.contents out.new) help) }
    ensures text { result ≡ 1 → HasRun (map string_bytes words.items) (R.remaining input.old) (λ text options.
        IsRefusedText (limits_of (map string_bytes words.items)) text options) }
    ensures words { result ≡ 2 → AreRefused (map string_bytes words.items) ⊎ HasOptions (map string_bytes words.items) (λ options.
        are_in_range_within (limits_of (map string_bytes words.items)) options.stop options.limit options.workers ≡ false) }
    // `--top NAME` alone is not refused.
    ensures alone { (name : Text) → map string_bytes words.items ≡ codes "--top" ∷ name ∷ [] → starts_with_minus name ≡ false → result ≢ 2 }
    // The run is cut short: nothing was written or, with `--stream`, the lines up to there.
    ensures limit { result ≡ 3 → HasRun (map string_bytes words.items) (R.remaining input.old) (λ text options.
        HasDesignWithin (limits_of (map string_bytes words.items)) text options (λ design.
        IsCutAfter (streams (map string_bytes words.items)) design options (W.contents out.old) (W.contents out.new))) }
    ensures quiet { 0 < result → result < 3 → Keeps (W.contents out.old) (W.contents out.new) }
    // Memory ran out, or reading or writing failed: nothing was written, or a proper prefix of the
    // listing or of the help; with `--stream` also the first of the lines of a run that goes on.
    ensures stopped { result ≡ 4 → Keeps (W.contents out.old) (W.contents out.new)
        ⊎ (HasRun (map string_bytes words.items) (R.remaining input.old) (λ text options.
        HasDesignWithin (limits_of (map string_bytes words.items)) text options (λ design.
        IsStopped (streams (map string_bytes words.items)) design options (W.contents out.old) (W.contents out.new)))
        ⊎ HasHelp (map string_bytes words.items) (λ help. AppendsPart (W.contents out.old) (W.contents out.new) help)) }
{
    session_with_hints(rt, alloc, words, Hints::measured(), input, out, err)
}

/// The same, with the caller's hints on when to hand out work to other threads. No answer depends
/// on them.
pub fn session_with_hints<T: Threads + Wait + Sync, R: Read, W: Write + Send, E: Write>(
    rt: &T,
    alloc: Global,
    words: Vec<String>,
    hints: Hints,
    input: &mut R,
    out: &mut W,
    err: &mut E,
) -> u8
    ensures status { result ≤ 4 }
    ensures success { result ≡ 0 → HasRun (map string_bytes words.items) (R.remaining input.old) (λ text options.
        HasDesignWithin (limits_of (map string_bytes words.items)) text options (λ design. Lists design options (W.contents out.old) (W.contents out.new)))
        ⊎ HasHelp (map string_bytes words.items) (λ help. Appends (W.contents out.old) (W.contents out.new) help) }
    ensures text { result ≡ 1 → HasRun (map string_bytes words.items) (R.remaining input.old) (λ text options.
        IsRefusedText (limits_of (map string_bytes words.items)) text options) }
    ensures words { result ≡ 2 → AreRefused (map string_bytes words.items) ⊎ HasOptions (map string_bytes words.items) (λ options.
        are_in_range_within (limits_of (map string_bytes words.items)) options.stop options.limit options.workers ≡ false) }
    // `--top NAME` alone is not refused.
    ensures alone { (name : Text) → map string_bytes words.items ≡ codes "--top" ∷ name ∷ [] → starts_with_minus name ≡ false → result ≢ 2 }
    // The run is cut short: nothing was written or, with `--stream`, the lines up to there.
    ensures limit { result ≡ 3 → HasRun (map string_bytes words.items) (R.remaining input.old) (λ text options.
        HasDesignWithin (limits_of (map string_bytes words.items)) text options (λ design.
        IsCutAfter (streams (map string_bytes words.items)) design options (W.contents out.old) (W.contents out.new))) }
    ensures quiet { 0 < result → result < 3 → Keeps (W.contents out.old) (W.contents out.new) }
    // Memory ran out, or reading or writing failed: nothing was written, or a proper prefix of the
    // listing or of the help; with `--stream` also the first of the lines of a run that goes on.
    ensures stopped { result ≡ 4 → Keeps (W.contents out.old) (W.contents out.new)
        ⊎ (HasRun (map string_bytes words.items) (R.remaining input.old) (λ text options.
        HasDesignWithin (limits_of (map string_bytes words.items)) text options (λ design.
        IsStopped (streams (map string_bytes words.items)) design options (W.contents out.old) (W.contents out.new)))
        ⊎ HasHelp (map string_bytes words.items) (λ help. AppendsPart (W.contents out.old) (W.contents out.new) help)) }
{
    let request = match read_request(alloc, words) {
        Ok(request) => request,
        Err(fault) => return explain(&fault, out, err),
    };
    match carry_out(rt, alloc, &request, hints, input, out) {
        Ok(()) => 0,
        Err(failure) => {
            tell(err, failure);
            status_of_failure(failure)
        }
    }
}
