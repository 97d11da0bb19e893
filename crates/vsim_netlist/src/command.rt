//! The command line, read by `clap`.

use clap::error::ErrorKind;
use clap::{Arg, ArgAction, ArgMatches, Command};
use std::alloc::{AllocError, Global};

/// The purpose of the program.
const ABOUT: &str = "Makes a text for vsim of a netlist that Yosys wrote by write_json.";

/// The part of the help after the options.
const MORE: &str = "Input:
  The netlist comes by standard input. It is flat, and of Yosys' own gates:
      yosys -p 'read_verilog uart.v; synth -flatten -top uart;
        abc -g AND,OR,XOR,NAND,NOR,XNOR,MUX; opt_clean; write_json uart.json'
  or of cells of a library, by dfflibmap -liberty FILE and abc -liberty FILE.

Stimuli:
  A VCD, or lines TIME INPUT VALUE, as '10ns data 0xA5' or '5ns clk 1', and at
  last 'end TIME'. A clock of constant period becomes a statement; all other
  inputs change one delta cycle after it, or later by --hold.

Delays:
  A gate is buf, not, and, nand, or, nor, xor, xnor, andnot, ornot, mux, nmux,
  mux4, mux8, mux16, aoi3, oai3, aoi4, oai4, lut, tbuf, dff or latch. A delay is
  as 40ps, or 40ps/55ps to rise and to fall. Without it a gate is a delta cycle.
  A cell of a library takes that of the gate that its function is, else others.

Status:
  0  the text is written, or help or the version was asked for
  1  the netlist, a library, its stimuli or a delay is refused
  2  the command line is refused
  4  memory was refused, or reading or writing failed

Example:
  vsim_netlist --stimuli uart.vcd --map uart.map < uart.json > uart.vhd
  vsim --top uart --limit 1000000 < uart.vhd > uart.listing
  vsim_waves --map uart.map < uart.listing > gates.vcd";

/// The values of the options. Those that are not given are empty.
#[derive(Clone, Copy)]
pub(crate) struct Options<'a> {
    top: &'a str,
    stimuli: &'a str,
    scope: &'a str,
    /// The Liberty files.
    pub(crate) liberty: &'a [&'a str],
    sdf: &'a str,
    pub(crate) corner: &'a str,
    /// The level with which registers begin.
    pub(crate) initial: &'a str,
    pub(crate) delays: &'a str,
    pub(crate) hold: &'a str,
    map: &'a str,
    /// Whether the text is for `vsim --large`.
    pub(crate) is_large: bool,
    pub(crate) names_entity: bool,
}

/// A message about the arguments, in place of a text: help, a refusal, or that there is no memory
/// for them.
pub(crate) enum Notice {
    Help(String),
    Refused(String),
    Memory,
}

/// The value of an option; `None` if it is empty.
fn given(value: &str) -> Option<&str> {
    if value.is_empty() { None } else { Some(value) }
}

impl<'a> Options<'a> {
    /// The module to simulate.
    pub(crate) fn top(&self) -> Option<&'a str> {
        given(self.top)
    }

    /// The file of the stimuli.
    pub(crate) fn stimuli(&self) -> Option<&'a str> {
        given(self.stimuli)
    }

    /// The scope of the stimuli.
    pub(crate) fn scope(&self) -> Option<&'a str> {
        given(self.scope)
    }

    /// The file of the delays.
    pub(crate) fn sdf(&self) -> Option<&'a str> {
        given(self.sdf)
    }

    /// The file of the map.
    pub(crate) fn map(&self) -> Option<&'a str> {
        given(self.map)
    }

    /// Whether delays or a hold time are given.
    pub(crate) fn is_timed(&self) -> bool {
        !self.delays.is_empty() || !self.hold.is_empty() || !self.sdf.is_empty()
    }
}

/// The options with a value, in the order of the help: the name of each, that of its value, and its
/// help.
static VALUED: [(&str, &str, &str); 10] = [
    (
        "top",
        "NAME",
        "The module, if not the one that is marked as the top",
    ),
    (
        LIBERTY,
        "FILE",
        "A library of cells; several are one library",
    ),
    ("sdf", "FILE", "The delays of the libraries' cells"),
    (
        "corner",
        "CORNER",
        "Which delays: min, typ (the default) or max",
    ),
    (
        "init",
        "LEVEL",
        "With what registers and latches begin: 0 or 1",
    ),
    ("stimuli", "FILE", "How the inputs change: a VCD, or lines"),
    (
        "scope",
        "SCOPE",
        "The scope of the VCD, else the deepest that fits",
    ),
    ("delays", "LIST", "As nand=40ps,dff=200ps/180ps,others=60ps"),
    (
        "hold",
        "TIME",
        "How much later inputs that are no clocks change",
    ),
    ("map", "FILE", "Write the map for vsim_waves --map"),
];

/// The option that may be given several times.
const LIBERTY: &str = "liberty";

/// An option with a value.
fn valued<'a>(alloc: Global, name: &'a str, value: &'a str, help: &'a str) -> Arg<'a> {
    let action = if name == LIBERTY {
        ArgAction::Append
    } else {
        ArgAction::Set
    };
    Arg::new(alloc, name)
        .long(name)
        .action(action)
        .value_name(value)
        .help(help)
}

/// Adds all options with a value.
fn with_valued<'a>(alloc: Global, command: Command<'a>) -> Result<Command<'a>, AllocError> {
    let mut command = command;
    for (name, value, help) in &VALUED {
        command = command.arg(valued(alloc, *name, *value, *help))?;
    }
    Ok(command)
}

/// The option for the name of the entity.
fn entity<'a>(alloc: Global) -> Arg<'a> {
    Arg::new(alloc, "entity")
        .long("entity")
        .action(ArgAction::SetTrue)
        .help("Print the name of the text's entity, for vsim --top, and no text")
}

/// The option for the larger limits of vsim.
fn large<'a>(alloc: Global) -> Arg<'a> {
    Arg::new(alloc, "large")
        .long("large")
        .action(ArgAction::SetTrue)
        .help("Take what vsim --large takes: longer texts and larger designs")
}

/// The option of the version.
fn version<'a>(alloc: Global) -> Arg<'a> {
    Arg::new(alloc, "version")
        .long("version")
        .short('V')
        .action(ArgAction::SetTrue)
        .help("Print version")
}

/// Adds the flags.
fn with_flags<'a>(alloc: Global, command: Command<'a>) -> Result<Command<'a>, AllocError> {
    let command = command.arg(large(alloc))?.arg(entity(alloc))?;
    command.arg(version(alloc))
}

/// The command line of the program, without its name.
pub(crate) fn command_line<'a>(alloc: Global) -> Result<Command<'a>, AllocError> {
    let command = Command::new(alloc, "vsim_netlist")
        .about(ABOUT)
        .after_help(MORE)
        .no_binary_name(true);
    let command = with_valued(alloc, command)?;
    with_flags(alloc, command)
}

/// The value of an option; empty if it is not given.
fn value<'a>(matches: &'a ArgMatches<'_>, name: &str) -> &'a str {
    match matches.get_str(name) {
        Some(value) => value,
        None => "",
    }
}

/// The values of an option that may be given several times.
fn values<'a>(matches: &'a ArgMatches<'_>, name: &str) -> &'a [&'a str] {
    let Some(values) = matches.get_strs(name) else {
        return &[];
    };
    values
}

/// The values of the options in valid arguments.
pub(crate) fn make_options<'a>(matches: &'a ArgMatches<'_>) -> Options<'a> {
    Options {
        top: value(matches, "top"),
        stimuli: value(matches, "stimuli"),
        scope: value(matches, "scope"),
        liberty: values(matches, "liberty"),
        sdf: value(matches, "sdf"),
        corner: value(matches, "corner"),
        initial: value(matches, "init"),
        delays: value(matches, "delays"),
        hold: value(matches, "hold"),
        map: value(matches, "map"),
        is_large: matches.get_flag("large"),
        names_entity: matches.get_flag("entity"),
    }
}

/// The message for invalid arguments, or for a request for help.
pub(crate) fn make_notice(alloc: Global, error: clap::Error) -> Notice {
    let kind = error.kind();
    let Ok(text) = error.to_string(alloc) else {
        return Notice::Memory;
    };
    match kind {
        ErrorKind::DisplayHelp => Notice::Help(text),
        ErrorKind::OutOfMemory => Notice::Memory,
        _ => Notice::Refused(text),
    }
}
