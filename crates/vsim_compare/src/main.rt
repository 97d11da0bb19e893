//! Compares two listings of vsim, or a listing and a VCD: `vsim_compare [OPTIONS] A B`. It tells
//! the first difference and how much differs.
#![tactic(auto)]

mod clock;
mod comparison;
mod failure;
mod options;
mod pairs;
mod report;
mod source;

use crate::clock::{Clock, find_clock};
use crate::comparison::Comparison;
use crate::failure::Failure;
use crate::options::{Options, Request, read_request};
use crate::pairs::{Sides, find_sides, make_board, names_alone};
use crate::report::write_report;
use crate::source::{Source, open_source};
use std::io::{self, BufWriter, Write, writer};
use std::process::ExitCode;
use std::{env, fs};
use vsim_waves_listing::{SourceMap, read_map};

/// The output of `--version`. The script `build` fills in the sources and the toolchain in its copy.
const VERSION: &str = "vsim_compare 1.0.0, sources unknown, toolchain unknown";

const USAGE: &str = "Usage: vsim_compare [OPTIONS] A B

For more information, try '--help'.";

/// The text of `--help`.
const HELP: &str = "Compares two listings of vsim, or a listing and a VCD.

Usage: vsim_compare [OPTIONS] A B

Options:
      --settled                Compare the last values of each time alone
      --at-edges <CLK>         Compare the values before each edge of a clock of A;
                               'rising' or 'falling' behind it takes those alone
      --from <TIME>            Compare from this time on, as 10ns; without a unit it is
                               in femtoseconds
      --nets <LIST>            Compare these nets alone, as 'q,u1.*'
      --ignore-unknown <SIDE>  Unknown values of A, B or both are as any other
      --map <FILE>             The map from vsim_netlist: the listing has a netlist's nets
      --scope <SCOPE>          The scope of the VCD, else the one with most nets of A
  -h, --help                   Print help
  -V, --version                Print version

Inputs:
  A and B are files. Of two listings, nets are compared at each delta cycle; where
  a VCD or a map is given, at each time, and only 0, 1, X and Z count (L is 0, H is
  1). Of two listings, a map is that of A.

Output:
  The first difference, as TIME NET VALUE-IN-A VALUE-IN-B, with the time in
  femtoseconds; how many nets differ, and in how many changes; the nets that one
  side alone has. Those count as differences where both are listings, without
  --map and --at-edges.

Status:
  0  nothing differs
  1  something differs
  2  the command line is refused
  3  an input is damaged, or has no last line 'done', or there is nothing to compare
  4  memory was refused, or reading or writing failed

Example:
  vsim_compare --map uart.map --at-edges clk --ignore-unknown B uart.listing rtl.vcd";

/// The message for words that are not valid UTF-8.
const NO_TEXT: &str = "error: invalid UTF-8 was detected in one or more arguments

For more information, try '--help'.";

/// The text of a file.
fn read_file(rt: &HostRuntime, path: &str) -> Result<String, Failure> {
    match fs::read_to_string(rt, path) {
        Ok(text) => Ok(text),
        Err(fault) if fault.kind() == io::ErrorKind::InvalidData => {
            Err(Failure::of_whole("it is no text", path))
        }
        Err(fault) => Err(Failure::of_stream(fault, path)),
    }
}

/// The map of a netlist, if one is given.
fn read_source_map(rt: &HostRuntime, path: Option<&str>) -> Result<Option<SourceMap>, Failure> {
    let Some(path) = path else {
        return Ok(None);
    };
    let text = read_file(rt, path)?;
    match read_map(rt.alloc(), text.as_str()) {
        Ok(map) => Ok(Some(map)),
        Err((line, fault)) => Err(Failure::of_input(fault, path, line)),
    }
}

/// The clock, if one is asked for.
fn clock_of(options: &Options<'_>, sides: &Sides) -> Result<Option<Clock>, Failure> {
    let Some(name) = options.clock else {
        return Ok(None);
    };
    match find_clock(&sides.here, name, options.edge) {
        Some(clock) => Ok(Some(clock)),
        None => Err(Failure::of_whole("A has no such net of one bit", name)),
    }
}

/// The exit status of a comparison that was written.
const SAME: u8 = 0;

const DIFFERENT: u8 = 1;

/// The two inputs.
struct Inputs<'a> {
    here: Source<'a>,
    there: Source<'a>,
}

/// Written by hand so that code which drops it needs no proof about its contents.
impl Drop for Inputs<'_> {
    fn drop(self) {
        let Inputs { here, there } = self;
        drop(here);
        drop(there);
    }
}

/// What one side alone has.
struct Alone {
    here: Vec<Vec<u8>>,
    there: Vec<Vec<u8>>,
}

/// Written by hand so that code which drops it needs no proof about its contents.
impl Drop for Alone {
    fn drop(self) {
        let Alone { here, there } = self;
        drop(here);
        drop(there);
    }
}

/// The path at a place of the two.
fn path<'a>(options: &Options<'a>, place: usize) -> &'a str {
    options.files.get(place).copied().unwrap_or("")
}

/// Opens both inputs.
fn open_inputs<'a>(rt: &HostRuntime, options: &Options<'a>) -> Result<Inputs<'a>, Failure> {
    let here = open_source(rt, path(options, 0))?;
    let there = open_source(rt, path(options, 1))?;
    Ok(Inputs { here, there })
}

/// Whether only 0, 1, X and Z count.
fn is_reduced(options: &Options<'_>, inputs: &Inputs<'_>) -> bool {
    options.map.is_some() || inputs.here.is_vcd() || inputs.there.is_vcd()
}

/// Reads what precedes the changes of both inputs.
fn read_heads(
    rt: &HostRuntime,
    options: &Options<'_>,
    inputs: &mut Inputs<'_>,
) -> Result<(), Failure> {
    let is_reduced = is_reduced(options, inputs);
    let is_settled = is_reduced || options.is_settled || options.clock.is_some();
    inputs.here.read_head(rt.alloc(), is_settled)?;
    inputs.there.read_head(rt.alloc(), is_settled)
}

/// The nets that one side alone has.
fn find_alone(rt: &HostRuntime, options: &Options<'_>, sides: &Sides) -> Result<Alone, Failure> {
    let here = names_alone(rt.alloc(), options.nets, &sides.here, &sides.there)?;
    let there = names_alone(rt.alloc(), options.nets, &sides.there, &sides.here)?;
    Ok(Alone { here, there })
}

/// Writes the result of a comparison, and returns the exit status.
fn tell_result(
    rt: &HostRuntime,
    comparison: &Comparison,
    alone: &Alone,
    is_strict: bool,
) -> Result<u8, Failure> {
    let (here, there) = (alone.here.as_slice(), alone.there.as_slice());
    let clock = comparison.clock.as_ref();
    match write_out(rt, comparison, clock, here, there) {
        Ok(()) => {}
        Err(fault) => return Err(Failure::of_stream(fault, "writing")),
    }
    let is_short = is_strict && !(here.is_empty() && there.is_empty());
    let differs = is_short || comparison.board.first().is_some();
    Ok(if differs { DIFFERENT } else { SAME })
}

/// Writes the result of a comparison on standard output.
fn write_out(
    rt: &HostRuntime,
    comparison: &Comparison,
    clock: Option<&Clock>,
    here: &[Vec<u8>],
    there: &[Vec<u8>],
) -> io::Result<()> {
    let mut out = BufWriter::new(rt.alloc(), writer(rt))?;
    write_report(&mut out, &comparison.board, clock, here, there)?;
    out.flush()
}

/// Refuses a comparison of nothing.
fn demand_nets(comparison: &Comparison) -> Result<(), Failure> {
    if comparison.board.nets().is_empty() {
        return Err(Failure::of_whole("no net of those asked for is in both", "nothing to compare"));
    }
    Ok(())
}

/// Refuses a comparison before no edge.
fn demand_edges(comparison: &Comparison) -> Result<(), Failure> {
    match comparison.clock {
        Some(clock) if clock.edges == 0 => {
            Err(Failure::of_whole("the clock has no such edge", "nothing to compare"))
        }
        _ => Ok(()),
    }
}

/// The comparison of what both sides offer.
fn make_comparison(
    rt: &HostRuntime,
    options: &Options<'_>,
    inputs: &Inputs<'_>,
    sides: &Sides,
) -> Result<Comparison, Failure> {
    let clock = clock_of(options, sides)?;
    let counts = (inputs.here.count(), inputs.there.count());
    let is_reduced = is_reduced(options, inputs);
    let board = make_board(rt.alloc(), options, sides, counts, is_reduced)?;
    let comparison = Comparison::new(rt.alloc(), board, clock, options.from);
    demand_nets(&comparison)?;
    Ok(comparison)
}

/// What both sides offer, by the map if there is one.
fn make_sides(
    rt: &HostRuntime,
    options: &Options<'_>,
    inputs: &Inputs<'_>,
) -> Result<Sides, Failure> {
    let map = read_source_map(rt, options.map)?;
    find_sides(
        rt.alloc(),
        options,
        &inputs.here,
        &inputs.there,
        map.as_ref(),
    )
}

/// Carries out a comparison.
fn carry_out(inputs: &mut Inputs<'_>, comparison: &mut Comparison) -> Result<(), Failure> {
    comparison.run(&mut inputs.here, &mut inputs.there)?;
    comparison.finish()?;
    demand_edges(comparison)
}

/// Compares the inputs of which the heads are read, and returns the exit status.
fn compare(
    rt: &HostRuntime,
    options: &Options<'_>,
    inputs: &mut Inputs<'_>,
) -> Result<u8, Failure> {
    let sides = make_sides(rt, options, inputs)?;
    let alone = find_alone(rt, options, &sides)?;
    let mut comparison = make_comparison(rt, options, inputs, &sides)?;
    drop(sides);
    compare_all(rt, options, inputs, &mut comparison, &alone)
}

/// The same, given what is compared.
fn compare_all(
    rt: &HostRuntime,
    options: &Options<'_>,
    inputs: &mut Inputs<'_>,
    comparison: &mut Comparison,
    alone: &Alone,
) -> Result<u8, Failure> {
    let is_strict = !is_reduced(options, inputs) && options.clock.is_none();
    carry_out(inputs, comparison)?;
    tell_result(rt, comparison, alone, is_strict)
}

/// Answers options, and returns the exit status.
fn answer_options(rt: &HostRuntime, options: &Options<'_>) -> Result<u8, Failure> {
    let mut inputs = open_inputs(rt, options)?;
    read_heads(rt, options, &mut inputs)?;
    compare(rt, options, &mut inputs)
}

/// Prints a text on standard output.
fn tell(rt: &HostRuntime, text: &str) -> Result<u8, Failure> {
    match rt.println(text) {
        Ok(()) => Ok(0),
        Err(fault) => Err(Failure::of_stream(fault, "writing")),
    }
}

/// Reports invalid arguments, if standard error can be written.
fn refuse(rt: &HostRuntime, reason: &str, word: &str) -> Result<u8, Failure> {
    let _reported = if word.is_empty() {
        eprintln!(rt; "error: {reason}\n\n{USAGE}")
    } else {
        eprintln!(rt; "error: {reason} '{word}'\n\n{USAGE}")
    };
    Ok(2)
}

/// Carries out the words after the program's name and returns the exit status.
fn answer_words(rt: &HostRuntime, words: &[String]) -> Result<u8, Failure> {
    match read_request(rt.alloc(), words)? {
        Request::Comparison(options) => answer_options(rt, &options),
        Request::Help => tell(rt, HELP),
        Request::Version => tell(rt, VERSION),
        Request::Refused(reason, word) => refuse(rt, reason, word),
    }
}

/// The words after the program's name.
fn words(rt: &HostRuntime) -> io::Result<Vec<String>> {
    let words = env::args(rt)?.skip(1).collect(rt.alloc())?;
    Ok(words)
}

/// Reports words that are no text, if standard error can be written.
fn refuse_text(rt: &HostRuntime) -> Result<u8, Failure> {
    let _reported = rt.eprintln(NO_TEXT);
    Ok(2)
}

/// Carries out the arguments and returns the exit status.
fn answer(rt: &HostRuntime) -> Result<u8, Failure> {
    match words(rt) {
        Ok(words) => answer_words(rt, words.as_slice()),
        Err(fault) if fault.kind() == io::ErrorKind::InvalidData => refuse_text(rt),
        Err(fault) => Err(Failure::of_stream(fault, "the command line")),
    }
}

fn main(rt: HostRuntime) -> ExitCode {
    match answer(&rt) {
        Ok(status) => ExitCode::from(status),
        Err(failure) => {
            let (status, error) = failure.parts();
            let _reported = eprintln!(rt; "vsim_compare: {error:#}");
            ExitCode::from(status)
        }
    }
}
