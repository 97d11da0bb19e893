//! Finds where a run of a netlist violates the checks of timing of an SDF file: `vsim_check --sdf
//! FILE --netlist JSON --map MAP < LISTING`.
#![tactic(auto)]

mod command;
mod failure;
mod listing;
mod report;

use crate::command::{Notice, Options, command_line, make_notice, make_options};
use crate::failure::Failure;
use crate::listing::{Run, Trouble};
use crate::report::{Report, note};
use clap::ArgMatches;
use std::alloc::Global;
use std::io::{self, BufWriter, Read, Write, writer};
use std::process::ExitCode;
use std::{env, fs, str};
use vsim_check_plan::{Plan, Said, make_plan};
use vsim_netlist_cells::{Connections, read_connections};
use vsim_netlist_design::{CheckList, Delays, Draft, Fault};
use vsim_netlist_sdf::{Corner, read_check_file};
use vsim_waves_listing::{self, Pieces, SourceMap, read_map};
use vsim_waves_words::read_time;

/// The output of `--version`. In the copy that is built, the script `build` fills in this line.
const VERSION: &str = "vsim_check 1.0.0, sources unknown, toolchain unknown
";

/// The message for a lack of memory.
const NO_MEMORY: &str = "vsim_check: memory allocation failed
";

/// The message for words that are not valid UTF-8, as `clap` words it.
const NO_TEXT: &str = "error: invalid UTF-8 was detected in one or more arguments

For more information, try '--help'.
";

/// The exit status if there is a violation.
const VIOLATED: u8 = 1;

/// The files that say what is checked.
#[derive(Drop)]
struct Inputs {
    delays: Box<Delays>,
    checks: CheckList,
    connections: Connections,
}

/// A refusal that is put together from these parts.
fn refused(rt: &HostRuntime, parts: &[&str]) -> Failure {
    Failure::Input(Fault::of(rt.alloc(), parts))
}

/// The text of a file.
fn read_file(rt: &HostRuntime, path: &str) -> Result<String, Failure> {
    match fs::read_to_string(rt, path) {
        Ok(text) => Ok(text),
        Err(fault) => Err(Failure::of_reading(fault, path)),
    }
}

/// The bytes of a file.
fn read_bytes(rt: &HostRuntime, path: &str) -> Result<Vec<u8>, Failure> {
    match fs::read(rt, path) {
        Ok(bytes) => Ok(bytes),
        Err(fault) => Err(Failure::of_reading(fault, path)),
    }
}

/// The corner with a name.
fn corner(rt: &HostRuntime, word: &str) -> Result<Corner, Failure> {
    match word {
        "min" => Ok(Corner::Minimum),
        "typ" | "" => Ok(Corner::Typical),
        "max" => Ok(Corner::Maximum),
        _ => Err(refused(rt, &["--corner: '", word, "' is none of min, typ and max"])),
    }
}

/// The time from which on is checked, in femtoseconds.
fn from(rt: &HostRuntime, word: &str) -> Result<u64, Failure> {
    if word.is_empty() {
        return Ok(0);
    }
    match read_time(word.as_bytes(), b"") {
        Some(time) => Ok(time),
        None => Err(refused(rt, &["--from: '", word, "' is no time, as 100ns is"])),
    }
}

/// The path of a file that has to be given.
fn path<'a>(rt: &HostRuntime, option: &str, path: &'a str) -> Result<&'a str, Failure> {
    if path.is_empty() {
        return Err(refused(rt, &[option, " FILE is wanted: see --help"]));
    }
    Ok(path)
}

/// The delays and checks of the SDF file.
fn checks(rt: &HostRuntime, options: &Options<'_>) -> Result<(Box<Delays>, CheckList), Failure> {
    let corner = corner(rt, options.corner)?;
    let text = read_bytes(rt, path(rt, "--sdf", options.sdf)?)?;
    match read_check_file(rt.alloc(), text.as_slice(), corner) {
        Ok(checks) => Ok(checks),
        Err(fault) => Err(Failure::Input(fault)),
    }
}

/// The refusal of a map, on a line.
fn no_map(rt: &HostRuntime, line: usize, fault: vsim_waves_listing::Fault) -> Failure {
    match fault {
        vsim_waves_listing::Fault::Refused(told) => refused_at(rt, "the map", line, told),
        vsim_waves_listing::Fault::Stream(fault) => Failure::of_streams(fault, "the map"),
    }
}

/// A refusal of a line of an input.
fn refused_at(rt: &HostRuntime, what: &str, line: usize, told: &str) -> Failure {
    let mut text = Draft::of(rt.alloc(), what);
    text.push(": ");
    text.push_shown(&line);
    text.push_all(&[": ", told]);
    Failure::Input(Fault::of_draft(text))
}

/// The map.
fn map(rt: &HostRuntime, options: &Options<'_>) -> Result<SourceMap, Failure> {
    let text = read_file(rt, path(rt, "--map", options.map)?)?;
    match read_map(rt.alloc(), text.as_str()) {
        Ok(map) => Ok(map),
        Err((line, fault)) => Err(no_map(rt, line, fault)),
    }
}

/// Reads the connections of the cells of the map's module.
fn read_pins(
    rt: &HostRuntime,
    options: &Options<'_>,
    map: &SourceMap,
) -> Result<Connections, Failure> {
    let text = read_file(rt, path(rt, "--netlist", options.netlist)?)?;
    let top = map.top.as_str();
    let top = if top.is_empty() { None } else { Some(top) };
    match read_connections(rt.alloc(), text.as_str(), top) {
        Ok(connections) => Ok(connections),
        Err(fault) => Err(Failure::Input(fault.about(rt.alloc(), &["the netlist"]))),
    }
}

/// Reads the files that say what is checked.
fn read_inputs(
    rt: &HostRuntime,
    options: &Options<'_>,
    map: &SourceMap,
) -> Result<Inputs, Failure> {
    let (delays, checks) = checks(rt, options)?;
    let connections = read_pins(rt, options, map)?;
    Ok(Inputs {
        delays,
        checks,
        connections,
    })
}

/// The checks of signals.
fn planned(rt: &HostRuntime, inputs: &Inputs, map: &SourceMap) -> Result<Plan, Failure> {
    let (delays, checks) = (inputs.delays.as_ref(), &inputs.checks);
    match make_plan(rt.alloc(), delays, checks, &inputs.connections, map) {
        Ok(plan) if plan.labels.is_empty() => {
            Err(refused(rt, &["the SDF file: it has nothing to check"]))
        }
        Ok(plan) => Ok(plan),
        Err(fault) => Err(Failure::Input(fault)),
    }
}

/// Tells what is not checked, if standard error can be written.
fn warn(rt: &HostRuntime, inputs: &Inputs) -> Result<(), Failure> {
    let text = note(rt.alloc(), inputs.delays.as_ref(), &inputs.checks)?;
    let _told = rt.eprint(text.as_str());
    Ok(())
}

/// The refusal of a signal that a listing lacks.
fn lacking(rt: &HostRuntime, name: &[u8]) -> Failure {
    let name = str::from_utf8(name).unwrap_or("");
    refused(
        rt,
        &["the listing: it lacks a signal that the map names: ", name],
    )
}

/// Why a listing was not checked up to its end.
fn failure_of<R: Read>(rt: &HostRuntime, run: &Run<R>, trouble: Trouble) -> Failure {
    match trouble {
        Trouble::Memory => Failure::of_memory(),
        Trouble::Reading(vsim_waves_listing::Fault::Stream(fault)) => {
            Failure::of_streams(fault, "standard input")
        }
        Trouble::Reading(vsim_waves_listing::Fault::Refused(told)) | Trouble::Line(told) => {
            refused_at(rt, "the listing", run.line(), told)
        }
        Trouble::Writing(fault) => Failure::of_streams(fault, "writing"),
        Trouble::Lacking(signal) => lacking(rt, run.name(signal)),
    }
}

/// Checks a listing, and writes what was found, also if it is refused.
fn check<R: Read, W: Write>(
    rt: &HostRuntime,
    run: &mut Run<R>,
    report: &mut Report<'_, W>,
) -> Result<u8, Failure> {
    let checked = match run.carry_out(report) {
        Ok(()) => report.end(),
        Err(trouble) => {
            let _written = report.flush();
            return Err(failure_of(rt, run, trouble));
        }
    };
    match checked.and(report.flush()) {
        Ok(()) => Ok(if report.number() > 0 { VIOLATED } else { 0 }),
        Err(fault) => Err(Failure::of_streams(fault, "writing")),
    }
}

/// Checks the listing on standard input, and returns the exit status.
fn check_listing(rt: &HostRuntime, inputs: &Inputs, plan: Plan, from: u64) -> Result<u8, Failure> {
    let (watched, labels) = plan.into_parts();
    let said = Said {
        delays: inputs.delays.as_ref(),
        checks: &inputs.checks,
        connections: &inputs.connections,
        labels: labels.as_slice(),
    };
    let alloc = rt.alloc();
    let pieces = Pieces::new(alloc, rt.reader())?;
    let mut run = Run::new(alloc, pieces, watched, from)?;
    check_with(rt, &mut run, said)
}

/// Checks a listing, with what is said of violations.
fn check_with<R: Read>(rt: &HostRuntime, run: &mut Run<R>, said: Said<'_>) -> Result<u8, Failure> {
    let out = match BufWriter::new(rt.alloc(), writer(rt)) {
        Ok(out) => out,
        Err(fault) => return Err(Failure::of_streams(fault, "writing")),
    };
    let mut report = Report::new(rt.alloc(), out, said)?;
    check(rt, run, &mut report)
}

/// Checks the listing on standard input by the files of the options.
fn answer_options(rt: &HostRuntime, options: &Options<'_>) -> Result<u8, Failure> {
    let from = from(rt, options.from)?;
    let map = map(rt, options)?;
    let inputs = read_inputs(rt, options, &map)?;
    answer_inputs(rt, &inputs, &map, from)
}

/// Checks the listing on standard input by files that were read.
fn answer_inputs(
    rt: &HostRuntime,
    inputs: &Inputs,
    map: &SourceMap,
    from: u64,
) -> Result<u8, Failure> {
    let plan = planned(rt, inputs, map)?;
    warn(rt, inputs)?;
    check_listing(rt, inputs, plan, from)
}

/// Writes the help or the version.
fn tell(rt: &HostRuntime, text: &str) -> Result<u8, Failure> {
    match rt.print(text) {
        Ok(()) => Ok(0),
        Err(fault) => Err(Failure::of_streams(fault, "writing")),
    }
}

/// Reports invalid arguments, if standard error can be written.
fn refuse(rt: &HostRuntime, text: &str) -> Result<u8, Failure> {
    let _reported = rt.eprint(text);
    Ok(2)
}

/// Carries out valid arguments and returns the exit status.
fn answer_matches(rt: &HostRuntime, matches: &ArgMatches<'_>) -> Result<u8, Failure> {
    if matches.get_flag("version") {
        return tell(rt, VERSION);
    }
    answer_options(rt, &make_options(matches))
}

/// Answers invalid arguments, or a request for help, and returns the exit status.
fn answer_notice(rt: &HostRuntime, notice: Notice) -> Result<u8, Failure> {
    match notice {
        Notice::Help(text) => tell(rt, text.as_str()),
        Notice::Refused(text) => refuse(rt, text.as_str()),
        Notice::Memory => Err(Failure::of_memory()),
    }
}

/// Carries out the words after the program's name and returns the exit status.
fn answer_words(rt: &HostRuntime, words: &[String]) -> Result<u8, Failure> {
    let command = match command_line(rt.alloc()) {
        Ok(command) => command,
        Err(_lack) => return Err(Failure::of_memory()),
    };
    match command.try_get_matches_from(words) {
        Ok(matches) => answer_matches(rt, &matches),
        Err(error) => answer_notice(rt, make_notice(rt.alloc(), error)),
    }
}

/// The words after the program's name.
fn words(rt: &HostRuntime) -> io::Result<Vec<String>> {
    let words = env::args(rt)?.skip(1).collect(rt.alloc())?;
    Ok(words)
}

/// Carries out the arguments and returns the exit status.
fn answer(rt: &HostRuntime) -> Result<u8, Failure> {
    match words(rt) {
        Ok(words) => answer_words(rt, words.as_slice()),
        Err(fault) if fault.kind() == io::ErrorKind::InvalidData => refuse(rt, NO_TEXT),
        Err(fault) => Err(Failure::of_streams(fault, "the command line")),
    }
}

/// Reports a failure, if standard error can be written, and returns the exit status.
fn fail(rt: &HostRuntime, failure: &Failure) -> ExitCode {
    let _reported = match failure {
        Failure::Input(Fault::Refused(text)) => eprintln!(rt; "vsim_check: {}", text.as_str()),
        Failure::Input(Fault::Memory) => rt.eprint(NO_MEMORY),
        Failure::Streams(fault, _) => eprintln!(rt; "vsim_check: {fault:#}"),
    };
    ExitCode::from(failure.status())
}

fn main(rt: HostRuntime) -> ExitCode {
    match answer(&rt) {
        Ok(status) => ExitCode::from(status),
        Err(failure) => fail(&rt, &failure),
    }
}
