//! Makes a text for vsim from a netlist of Yosys: `vsim_netlist [--stimuli FILE] .. <
//! NETLIST.json`, with stimuli and delays, and a map from which `vsim_waves` takes the names of the
//! source.
#![tactic(auto)]

mod annotation;
mod command;
mod conversion;
mod delay_list;
mod failure;
mod map;
mod text;
mod undriven;

use crate::command::{Notice, Options, command_line, make_notice, make_options};
use crate::conversion::convert;
use crate::failure::Failure;
use crate::text::Written;
use clap::ArgMatches;
use std::io::{self, BufWriter, Write, writer};
use std::process::ExitCode;
use std::{env, fs};
use vsim_netlist_design::{Delays, Fault, Library};
use vsim_netlist_liberty::read_library;
use vsim_netlist_sdf::{Corner, read_delay_file};

/// The output of `--version`. In the copy that is built, the script `build` fills in this line.
const VERSION: &str = "vsim_netlist 1.0.0, sources unknown, toolchain unknown
";

/// The note about clocks that gates or registers drive.
const DERIVED: &str = "vsim_netlist: gates or registers make clocks. Without delays what they clock
may see new data: give --delays dff=.. and --hold.
";

/// The message for a lack of memory.
const NO_MEMORY: &str = "vsim_netlist: memory allocation failed
";

/// The message for words that are not valid UTF-8, as `clap` words it.
const NO_TEXT: &str = "error: invalid UTF-8 was detected in one or more arguments

For more information, try '--help'.
";

/// The text of a file.
fn read_file(rt: &HostRuntime, path: &str) -> Result<String, Failure> {
    match fs::read_to_string(rt, path) {
        Ok(text) => Ok(text),
        Err(fault) => Err(Failure::of_reading(fault, path)),
    }
}

/// Writes the map, if requested.
fn write_map(rt: &HostRuntime, path: Option<&str>, map: &str) -> Result<(), Failure> {
    let Some(path) = path else {
        return Ok(());
    };
    match fs::write(rt, path, map) {
        Ok(()) => Ok(()),
        Err(fault) => Err(Failure::of_streams(fault, path)),
    }
}

/// Writes a text on standard output.
fn write_out(rt: &HostRuntime, text: &str) -> io::Result<()> {
    let mut out = BufWriter::new(rt.alloc(), writer(rt))?;
    out.write_all(text.as_bytes())?;
    out.flush()
}

/// Writes a text on standard output, or reports that it could not be written.
fn write_text(rt: &HostRuntime, text: &str) -> Result<(), Failure> {
    match write_out(rt, text) {
        Ok(()) => Ok(()),
        Err(fault) => Err(Failure::of_streams(fault, "writing")),
    }
}

/// Warns of what nothing drives and of clocks that gates or registers drive, if standard error can
/// be written.
fn warn(rt: &HostRuntime, options: &Options<'_>, written: &Written) {
    let _told = rt.eprint(written.undriven.as_str());
    let _noted = rt.eprint(written.passed.as_str());
    if written.derived_clocks > 0 && !options.is_timed() {
        let _warned = rt.eprint(DERIVED);
    }
}

/// Writes the name of an entity on standard output, in a line of its own.
fn write_entity(rt: &HostRuntime, entity: &str) -> Result<(), Failure> {
    match rt.println(entity) {
        Ok(()) => Ok(()),
        Err(fault) => Err(Failure::of_streams(fault, "writing")),
    }
}

/// Writes the text and the map, or the name of the entity and the map if that name is requested.
fn write_all(rt: &HostRuntime, options: &Options<'_>, written: &Written) -> Result<(), Failure> {
    write_map(rt, options.map(), written.map.as_str())?;
    if options.names_entity {
        return write_entity(rt, written.entity.as_str());
    }
    warn(rt, options, written);
    write_text(rt, written.text.as_str())
}

/// The text of the stimuli, if they are given.
fn read_stimuli(rt: &HostRuntime, options: &Options<'_>) -> Result<Option<String>, Failure> {
    match options.stimuli() {
        Some(path) => Ok(Some(read_file(rt, path)?)),
        None => Ok(None),
    }
}

/// The bytes of a file.
fn read_bytes(rt: &HostRuntime, path: &str) -> Result<Vec<u8>, Failure> {
    match fs::read(rt, path) {
        Ok(bytes) => Ok(bytes),
        Err(fault) => Err(Failure::of_reading(fault, path)),
    }
}

/// Adds the cells of a Liberty file to a library.
fn put_cells(rt: &HostRuntime, library: &mut Library, path: &str) -> Result<(), Failure> {
    let text = read_bytes(rt, path)?;
    match read_library(rt.alloc(), library, path, text.as_slice()) {
        Ok(()) => Ok(()),
        Err(fault) => Err(Failure::Conversion(fault)),
    }
}

/// The library of all Liberty files.
fn library(rt: &HostRuntime, options: &Options<'_>) -> Result<Library, Failure> {
    let mut library = Library::new(rt.alloc());
    for path in options.liberty {
        put_cells(rt, &mut library, *path)?;
    }
    Ok(library)
}

/// The corner with a name.
fn corner(rt: &HostRuntime, word: &str) -> Result<Corner, Failure> {
    match word {
        "min" => Ok(Corner::Minimum),
        "typ" | "" => Ok(Corner::Typical),
        "max" => Ok(Corner::Maximum),
        _ => {
            let told = ["--corner: '", word, "' is none of min, typ and max"];
            Err(Failure::Conversion(Fault::of(rt.alloc(), told.as_slice())))
        }
    }
}

/// The delays of a file.
fn read_delays(rt: &HostRuntime, path: &str, corner: Corner) -> Result<Box<Delays>, Failure> {
    let text = read_bytes(rt, path)?;
    match read_delay_file(rt.alloc(), text.as_slice(), corner) {
        Ok(delays) => Ok(delays),
        Err(fault) => Err(Failure::Conversion(fault)),
    }
}

/// The delays of the file that is named, if one is.
fn delays(rt: &HostRuntime, options: &Options<'_>) -> Result<Option<Box<Delays>>, Failure> {
    let corner = corner(rt, options.corner)?;
    match options.sdf() {
        Some(path) => Ok(Some(read_delays(rt, path, corner)?)),
        None => Ok(None),
    }
}

/// Makes the text of a netlist, or tells why there is none.
fn converted(
    rt: &HostRuntime,
    options: &Options<'_>,
    netlist: &str,
    stimuli: Option<&str>,
) -> Result<Written, Failure> {
    let library = library(rt, options)?;
    let delays = delays(rt, options)?;
    let delays = match &delays {
        Some(delays) => Some(delays.as_ref()),
        None => None,
    };
    match convert(rt.alloc(), options, &library, delays, netlist, stimuli) {
        Ok(written) => Ok(written),
        Err(fault) => Err(Failure::Conversion(fault)),
    }
}

/// Makes the text of a netlist.
fn answer_text(rt: &HostRuntime, options: &Options<'_>, netlist: &str) -> Result<(), Failure> {
    let stimuli = read_stimuli(rt, options)?;
    let of_stimuli = match &stimuli {
        Some(text) => Some(text.as_str()),
        None => None,
    };
    let written = converted(rt, options, netlist, of_stimuli)?;
    write_all(rt, options, &written)
}

/// Makes the text of the netlist on standard input.
fn answer_netlist(rt: &HostRuntime, options: &Options<'_>) -> Result<(), Failure> {
    match io::read_to_string(rt.alloc(), rt.reader()) {
        Ok(netlist) => answer_text(rt, options, netlist.as_str()),
        Err(fault) => Err(Failure::of_reading(fault, "standard input")),
    }
}

/// Writes the help or the version.
fn tell(rt: &HostRuntime, text: &str) -> Result<u8, Failure> {
    write_text(rt, text)?;
    Ok(0)
}

/// Reports invalid arguments, if standard error can be written.
fn refuse(rt: &HostRuntime, text: &str) -> Result<u8, Failure> {
    let _reported = rt.eprint(text);
    Ok(2)
}

/// Carries out valid arguments and returns the exit status.
fn answer_matches(rt: &HostRuntime, matches: &ArgMatches<'_>) -> Result<u8, Failure> {
    if matches.get_flag("version") {
        return tell(rt, VERSION);
    }
    answer_netlist(rt, &make_options(matches))?;
    Ok(0)
}

/// Answers invalid arguments, or a request for help, and returns the exit status.
fn answer_notice(rt: &HostRuntime, notice: Notice) -> Result<u8, Failure> {
    match notice {
        Notice::Help(text) => tell(rt, text.as_str()),
        Notice::Refused(text) => refuse(rt, text.as_str()),
        Notice::Memory => Err(Failure::of_memory()),
    }
}

/// Carries out the words after the program's name and returns the exit status.
fn answer_words(rt: &HostRuntime, words: &[String]) -> Result<u8, Failure> {
    let command = match command_line(rt.alloc()) {
        Ok(command) => command,
        Err(_lack) => return Err(Failure::of_memory()),
    };
    match command.try_get_matches_from(words) {
        Ok(matches) => answer_matches(rt, &matches),
        Err(error) => answer_notice(rt, make_notice(rt.alloc(), error)),
    }
}

/// The words after the program's name.
fn words(rt: &HostRuntime) -> io::Result<Vec<String>> {
    let words = env::args(rt)?.skip(1).collect(rt.alloc())?;
    Ok(words)
}

/// Carries out the arguments and returns the exit status.
fn answer(rt: &HostRuntime) -> Result<u8, Failure> {
    match words(rt) {
        Ok(words) => answer_words(rt, words.as_slice()),
        Err(fault) if fault.kind() == io::ErrorKind::InvalidData => refuse(rt, NO_TEXT),
        Err(fault) => Err(Failure::of_streams(fault, "the command line")),
    }
}

/// Reports a failure, if standard error can be written, and returns the exit status.
fn fail(rt: &HostRuntime, failure: &Failure) -> ExitCode {
    let _reported = match failure {
        Failure::Conversion(Fault::Refused(text)) => {
            eprintln!(rt; "vsim_netlist: {}", text.as_str())
        }
        Failure::Conversion(Fault::Memory) => rt.eprint(NO_MEMORY),
        Failure::Streams(fault, _) => eprintln!(rt; "vsim_netlist: {fault:#}"),
    };
    ExitCode::from(failure.status())
}

fn main(rt: HostRuntime) -> ExitCode {
    match answer(&rt) {
        Ok(status) => ExitCode::from(status),
        Err(failure) => fail(&rt, &failure),
    }
}
