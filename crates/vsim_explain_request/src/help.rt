//! The messages of `vsim` about its words, adapted to `vsim_explain`.

use std::alloc::{AllocError, Global};

/// The first lines of the help of `vsim`.
const ABOUT_VSIM: &str =
    "Reads a design in a subset of VHDL from standard input, simulates it, and lists
every change of a signal on standard output.
";

/// The same lines of this program's help.
const ABOUT: &str = "Explains in plain words what vsim answers to a design, on standard output. The
design is in files, which are one text in their order, or on standard input.
";

/// The end of the usage of `vsim`, and that of this program.
const USAGE_OF_VSIM: &str = "[OPTIONS] --top <NAME>\n";

const USAGE: &str = "[OPTIONS] --top <NAME> [FILE]...\n";

/// This program's own options, placed before that for the help.
const OWN_OPTIONS: &str = "
      --check        Check the text and its design, and run nothing
      --json         Write refusals and warnings alone, for tools: an object of JSON a line
      --listing      Write the listing to standard output, as far as it goes if the run is
                     cut short, and the explanation to standard error
  -h, --help ";

/// Where `vsim` writes refusals, and where this program does.
const ERRORS_OF_VSIM: &str =
    "  A refusal goes to standard error, as in 'vsim: Syntax at 77', where the number is
  a byte offset in the input. vsim_explain shows the place, and says what to do.
";

const ERRORS: &str =
    "  A refusal goes to standard output, as in 'design.vhd:7:5: error: Syntax at 77',
  with the file, the line and the column; only a refused command line goes to
  standard error. After a fault of the design those of other statements follow, up
  to one in a declaration, and at most twenty in all. With --json each refusal, that
  of a command line too, and each warning is a line: an object with file, line,
  column, kind (error or warning), code, message and advice. Without a place its
  file, line and column are null.
";

/// The example of `vsim`, and that of this program.
const EXAMPLE_OF_VSIM: &str = "      vsim --top t < pulse.vhd
  prints
      0 0 s 0
      5000000 0 s 1
      done 1 1";

const EXAMPLE: &str = "      vsim_explain --top t pulse.vhd
  prints
      The run finished after 1 cycles with 1 events.
      There are no delta cycles.
      The nets that change most, and how often:
               1 s";

/// The message for a stop time that is refused.
const FEMTOSECONDS: &str = "
--stop is a whole number of femtoseconds: 10ns is 10000000, and 1us is 1000000000.
";

/// The message for words that are refused, after that of `clap`.
const REFUSED: &str = "
The design is read from files or from standard input: vsim_explain --top NAME design.vhd
";

/// A message of `vsim` about its words, with this program's name and files in the line of usage.
fn renamed(alloc: Global, text: &str) -> Result<String, AllocError> {
    let text = text.replace(alloc, "Usage: vsim ", "Usage: vsim_explain ")?;
    text.replace(alloc, USAGE_OF_VSIM, USAGE)
}

/// The help of `vsim` with what this program is, and where it writes refusals.
fn own_sections(alloc: Global, text: &str) -> Result<String, AllocError> {
    let text = text.replace(alloc, ABOUT_VSIM, ABOUT)?;
    let text = text.replace(alloc, ERRORS_OF_VSIM, ERRORS)?;
    text.replace(alloc, EXAMPLE_OF_VSIM, EXAMPLE)
}

/// The help of `vsim`, adapted to this program and with its own options.
pub fn own_help(alloc: Global, text: &str) -> Result<String, AllocError> {
    let text = renamed(alloc, text)?;
    let text = own_sections(alloc, text.as_str())?;
    text.replace(alloc, "\n  -h, --help ", OWN_OPTIONS)
}

/// The refusal of words by `vsim`, adapted to this program.
pub fn own_refusal(alloc: Global, text: &str) -> Result<String, AllocError> {
    let mut text = renamed(alloc, text)?;
    if text.contains("--stop") {
        text.push_str(FEMTOSECONDS)?;
    }
    text.push_str(REFUSED)?;
    Ok(text)
}
