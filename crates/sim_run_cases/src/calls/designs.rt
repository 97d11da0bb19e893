//! Rows of calls that concern a command line and a design.

use sim_run::{CliFault, Design, Options, RunError, elaborate, read_options};
use std::alloc::{AllocError, Global};

/// An instance with a constant and an open port.
const OPEN: &str = "entity t is end;architecture a of t is begin \
u:entity work.l port map(i=>'1',o=>open); end;entity l is port(i:in std_logic;o:out std_logic);end;\
architecture a of l is begin o<=i;end;";

/// An instance within another, whose labels are too long for one piece of a path.
const LONG: &str = "entity t is end;architecture a of t is begin \
a_label_that_takes_more_than_half_a_piece:entity work.m; end;entity m is end;\
architecture a of m is begin another_label_with_more_than_forty_letters:entity work.n; end;\
entity n is end;architecture a of n is signal q:std_logic; begin end;";

/// Names, and the numbers of their nets in that design.
static NAMES: [(&str, Option<usize>); 5] = [
    (
        "a_label_that_takes_more_than_half_a_piece.another_label_with_more_than_forty_letters.q",
        Some(0),
    ),
    (
        "a_label_that_takes_more_than_half_a_piece.another_label_with_more_than_forty_letters.",
        None,
    ),
    (
        "a_label_that_takes_more_than_half_a_piece.another_label_with_more_than_forty_letterz.q",
        None,
    ),
    ("a_label_that_takes_more_than_half_a_piece.q", None),
    ("another_label_with_more_than_forty_letters.q", None),
];

/// A signal with two ports that drive it, both assigned in the same process.
const TWO_PORTS: &str = "entity t is end;architecture a of t is signal s:std_logic;begin \
u:entity work.e port map(s,s); end;entity e is port(p,q:out std_logic);end;architecture a of e is \
begin process(all) begin p<='0';q<='1';end process;end;";

/// The words of a command line that names the top alone.
fn words(alloc: Global) -> Result<Vec<String>, AllocError> {
    let mut words = Vec::new(alloc);
    for word in ["--top", "t"] {
        words.push(String::from_str(alloc, word)?)?;
    }
    Ok(words)
}

/// Whether these are the options of a command line that names the top `t` alone.
fn are_defaults(options: &Options) -> bool {
    options.top.as_str() == "t"
        && options.stop == 4_611_686_018_427_387_903
        && options.limit == 10_000
        && options.workers == 1
}

/// Whether the words of a command line are read.
pub fn are_read(alloc: Global) -> Result<bool, RunError> {
    let words = words(alloc)?;
    match read_options(alloc, words) {
        Ok(options) => Ok(are_defaults(&options)),
        Err(CliFault::Memory) => Err(RunError::Memory),
        Err(_other) => Ok(false),
    }
}

/// Whether nets are found by their exact names, and a copy is the same design.
fn is_named(design: &Design) -> Result<bool, AllocError> {
    let copy = design.try_copy()?;
    Ok(copy.same(design) && design.net_named("u.o") == Some(1) && design.net_named("U.O").is_none())
}

/// Whether the nets of an instance are found in its design and in a copy.
pub fn has_nets(alloc: Global, options: &Options) -> Result<bool, RunError> {
    let design = elaborate(alloc, OPEN.as_bytes(), options)?;
    Ok(is_named(&design)?)
}

/// Whether a net is found by its whole name only, and a copy is the same design.
fn is_named_in_pieces(design: &Design) -> Result<bool, AllocError> {
    let copy = design.try_copy()?;
    Ok(copy.same(design) && NAMES.iter().all(|row| design.net_named(row.0) == row.1))
}

/// Whether the net below long labels is found in its design.
pub fn has_long_names(alloc: Global, options: &Options) -> Result<bool, RunError> {
    let design = elaborate(alloc, LONG.as_bytes(), options)?;
    Ok(is_named_in_pieces(&design)?)
}

/// Whether each driving port has a driver.
pub fn has_drivers(alloc: Global, options: &Options) -> Result<bool, RunError> {
    let design = elaborate(alloc, TWO_PORTS.as_bytes(), options)?;
    Ok(design.drivers().len() == 2)
}
