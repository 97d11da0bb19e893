//! The command line, as `clap` parses it.
ghost use Rattle.std.specs.Prelude.{◌≡◌, ◌∷◌, [], IfOk, Some, false};
ghost use Rattle.clap.specs.Simple.{with_rule};
ghost use Rattle.clap.specs.Words.{rule_of, app_of};
ghost use Rattle.sim_run_options.specs.Asks.{top_rule, stop_rule, large_rule, limit_rule, stream_rule, workers_rule, valued, program};

use clap::builder::ValueParser;
use clap::{Arg, ArgAction, Command, value_parser};
use std::alloc::{AllocError, Global};

/// The purpose of the program.
const ABOUT: &str = "Reads a design in a subset of VHDL from standard input, simulates it, and lists
every change of a signal on standard output.";

/// The part of the help after the options.
const MORE: &str = "Input:
  One design file of at most 1048576 bytes. --top names the entity to simulate,
  with its last architecture. Its design has at most 65536 nets, processes and
  drivers, and 16384 instances. With --large the text may have 268435456 bytes and
  the design 1000000 of each; --limit is then 4294967295 by default and at most.

Listing:
  First one line for each signal with its initial value, then one for each
  change:
      TIME DELTA NAME VALUE
  TIME is in femtoseconds. DELTA counts the simulation cycles at one time, from 0.
  NAME is in lower case, with the labels of its instances in front, as in
  u1.u2.s. VALUE is one of U X 0 1 Z W L H and -. The last line is
      done CYCLES EVENTS
  with the number of simulation cycles and of changes after the initialization.
  With --stream lines are written while the run goes on, so a run that is cut
  short (status 3 or 4) has written the lines up to there.

Status:
  0  the run has finished, or help was requested
  1  the text or its design is refused
  2  the command line is refused, or an option is out of its range
  3  the run needs more simulation cycles than the limit, or a postponed process
     causes a delta cycle
  4  out of memory, or reading or writing failed
  A refusal goes to standard error, as in 'vsim: Syntax at 77', where the number is
  a byte offset in the input. vsim_explain shows the place, and says what to do.

Example:
  With the file pulse.vhd
      entity t is end;
      architecture a of t is
        signal s : std_logic := '0';
      begin
        s <= '1' after 5 ns;
      end;
  the command
      vsim --top t < pulse.vhd
  prints
      0 0 s 0
      5000000 0 s 1
      done 1 1";

/// An option with one value. `value` is its placeholder in the help.
fn valued_argument<'a>(alloc: Global, name: &'a str, value: &'a str) -> Arg<'a>
    ensures rule { rule_of result ≡ valued name.now }
    ensures local { result.global ≡ false }
{
    Arg::new(alloc, name)
        .long(name)
        .action(ArgAction::Set)
        .value_name(value)
}

/// An option with one number, with its parser, its default and its help.
fn number_argument<'a>(
    alloc: Global,
    name: &'a str,
    value: &'a str,
    parser: ValueParser<'a>,
    default: &'a str,
    help: &'a str,
) -> Arg<'a>
    ensures rule { rule_of result ≡ record (valued name.now) { parser = Some parser.entry; defaults = default.now ∷ [] } }
    ensures local { result.global ≡ false }
{
    valued_argument(alloc, name, value)
        .value_parser(parser)
        .default_value(default)
        .help(help)
}

/// `--top NAME`, which is required.
fn top_argument<'a>(alloc: Global) -> Arg<'a>
    ensures rule { rule_of result ≡ top_rule }
    ensures local { result.global ≡ false }
{
    valued_argument(alloc, "top", "NAME")
        .required(true)
        .help("The top entity, in upper or lower case")
}

/// `--stop FS`, by default the latest time.
fn stop_argument<'a>(alloc: Global) -> Arg<'a>
    ensures rule { rule_of result ≡ stop_rule }
    ensures local { result.global ≡ false }
{
    let latest = "4611686018427387903";
    let help = "The stop time in femtoseconds, at most the default";
    number_argument(alloc, "stop", "FS", value_parser!(u64), latest, help)
}

/// `--limit N`; its default depends on `--large`.
fn limit_argument<'a>(alloc: Global) -> Arg<'a>
    ensures rule { rule_of result ≡ limit_rule }
    ensures local { result.global ≡ false }
{
    let help = "The limit of simulation cycles, 1 to 1000000 [default: 10000]";
    valued_argument(alloc, "limit", "N")
        .value_parser(value_parser!(u32))
        .help(help)
}

/// `--workers N`, by default 1.
fn workers_argument<'a>(alloc: Global) -> Arg<'a>
    ensures rule { rule_of result ≡ workers_rule }
    ensures local { result.global ≡ false }
{
    let help = "The most threads, 1 to 16; several can shorten a run with long process bodies";
    number_argument(alloc, "workers", "N", value_parser!(usize), "1", help)
}

/// `--large`.
fn large_argument<'a>(alloc: Global) -> Arg<'a>
    ensures rule { rule_of result ≡ large_rule }
    ensures local { result.global ≡ false }
{
    Arg::new(alloc, "large")
        .long("large")
        .action(ArgAction::SetTrue)
        .help("Larger limits of the text, the design and the cycles")
}

/// `--stream`.
fn stream_argument<'a>(alloc: Global) -> Arg<'a>
    ensures rule { rule_of result ≡ stream_rule }
    ensures local { result.global ≡ false }
{
    Arg::new(alloc, "stream")
        .long("stream")
        .action(ArgAction::SetTrue)
        .help("Write lines while the run goes on, and keep none")
}

/// A command with the options that take a number.
fn with_numbers<'a>(alloc: Global, command: Command<'a>) -> Result<Command<'a>, AllocError>
    ensures { IfOk result (λ c. app_of c ≡ with_rule (with_rule (with_rule (app_of command.entry) stop_rule) limit_rule) workers_rule) }
{
    command
        .arg(stop_argument(alloc))?
        .arg(limit_argument(alloc))?
        .arg(workers_argument(alloc))
}

/// A command with the flags.
fn with_flags<'a>(alloc: Global, command: Command<'a>) -> Result<Command<'a>, AllocError>
    ensures { IfOk result (λ c. app_of c ≡ with_rule (with_rule (app_of command.entry) large_rule) stream_rule) }
{
    command
        .arg(large_argument(alloc))?
        .arg(stream_argument(alloc))
}

/// The command line of the program, whose words do not include its name.
pub(crate) fn command_line<'a>(alloc: Global) -> Result<Command<'a>, AllocError>
    ensures { IfOk result (λ c. app_of c ≡ program) }
{
    let command = Command::new(alloc, "vsim")
        .about(ABOUT)
        .after_help(MORE)
        .no_binary_name(true)
        .arg(top_argument(alloc))?;
    let numbered = with_numbers(alloc, command)?;
    with_flags(alloc, numbered)
}
