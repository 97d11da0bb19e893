//! The command line, read by `clap`.

use clap::error::ErrorKind;
use clap::{Arg, ArgAction, ArgMatches, Command};
use std::alloc::{AllocError, Global};

/// The purpose of the program.
const ABOUT: &str = "Finds where a run of a netlist violates the checks of timing of an SDF file.";

/// The part of the help after the options.
const MORE: &str = "Input:
  The listing of vsim comes by standard input. The netlist is the JSON from which
  vsim_netlist made the text and the map.

Output:
  A line for each violation, TIME INSTANCE CHECK NEEDED FOUND PINS, with times in
  femtoseconds, as '20000000 u7 SETUP 183000 120000 D (posedge CLK)', and a line
  with the numbers of checks and violations. A check is SETUP, HOLD, RECOVERY,
  REMOVAL or WIDTH.

Status:
  0  there is no violation, or help or the version was asked for
  1  there is one
  2  the command line or an input is refused
  4  memory was refused, or reading or writing failed

Example:
  vsim_netlist --liberty cells.lib --sdf uart.sdf --corner max --stimuli uart.vcd
    --map uart.map < uart.json > uart.vhd
  vsim --top uart --limit 1000000 < uart.vhd > uart.listing
  vsim_check --sdf uart.sdf --corner max --netlist uart.json --map uart.map
    --from 100ns < uart.listing";

/// The values of the options. Those that are not given are empty.
#[derive(Clone, Copy)]
pub(crate) struct Options<'a> {
    pub(crate) sdf: &'a str,
    pub(crate) corner: &'a str,
    pub(crate) netlist: &'a str,
    pub(crate) map: &'a str,
    pub(crate) from: &'a str,
}

/// A message about the arguments, in place of an answer: help, a refusal, or that there is no
/// memory for them.
pub(crate) enum Notice {
    Help(String),
    Refused(String),
    Memory,
}

/// An option with a value.
fn valued<'a>(alloc: Global, name: &'a str, value: &'a str, help: &'a str) -> Arg<'a> {
    Arg::new(alloc, name)
        .long(name)
        .action(ArgAction::Set)
        .value_name(value)
        .help(help)
}

/// The option of the version.
fn version<'a>(alloc: Global) -> Arg<'a> {
    Arg::new(alloc, "version")
        .long("version")
        .short('V')
        .action(ArgAction::SetTrue)
        .help("Print version")
}

/// The options with a value, in the order of the help: the name of each, that of its value, and its
/// help.
static VALUED: [(&str, &str, &str); 5] = [
    ("sdf", "FILE", "The file with the checks"),
    (
        "netlist",
        "FILE",
        "The netlist, as write_json of Yosys wrote it",
    ),
    ("map", "FILE", "The map from vsim_netlist"),
    (
        "corner",
        "CORNER",
        "Which limits: min, typ (the default) or max",
    ),
    ("from", "TIME", "Check from this time on, as 100ns"),
];

/// Adds all options with a value.
fn with_valued<'a>(alloc: Global, command: Command<'a>) -> Result<Command<'a>, AllocError> {
    let mut command = command;
    for (name, value, help) in &VALUED {
        command = command.arg(valued(alloc, *name, *value, *help))?;
    }
    Ok(command)
}

/// The command line of the program, without its name.
pub(crate) fn command_line<'a>(alloc: Global) -> Result<Command<'a>, AllocError> {
    let command = Command::new(alloc, "vsim_check")
        .about(ABOUT)
        .after_help(MORE)
        .no_binary_name(true);
    let command = with_valued(alloc, command)?;
    command.arg(version(alloc))
}

/// The value of an option; empty if it is not given.
fn value<'a>(matches: &'a ArgMatches<'_>, name: &str) -> &'a str {
    match matches.get_str(name) {
        Some(value) => value,
        None => "",
    }
}

/// The values of the options in valid arguments.
pub(crate) fn make_options<'a>(matches: &'a ArgMatches<'_>) -> Options<'a> {
    Options {
        sdf: value(matches, "sdf"),
        corner: value(matches, "corner"),
        netlist: value(matches, "netlist"),
        map: value(matches, "map"),
        from: value(matches, "from"),
    }
}

/// The message for invalid arguments, or for a request for help.
pub(crate) fn make_notice(alloc: Global, error: clap::Error) -> Notice {
    let kind = error.kind();
    let Ok(text) = error.to_string(alloc) else {
        return Notice::Memory;
    };
    match kind {
        ErrorKind::DisplayHelp => Notice::Help(text),
        ErrorKind::OutOfMemory => Notice::Memory,
        _ => Notice::Refused(text),
    }
}
