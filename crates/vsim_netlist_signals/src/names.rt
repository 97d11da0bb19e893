//! The names of signals in a text.

use std::alloc::{AllocError, Global};
use std::collections::HashSet;
use vsim_netlist_design::Draft;

/// Names that no signal may have: reserved words of VHDL, and predeclared names.
static RESERVED: [&str; 113] = [
    "abs",
    "access",
    "after",
    "alias",
    "all",
    "and",
    "architecture",
    "array",
    "assert",
    "assume",
    "attribute",
    "begin",
    "block",
    "body",
    "buffer",
    "bus",
    "case",
    "component",
    "configuration",
    "constant",
    "context",
    "cover",
    "default",
    "disconnect",
    "downto",
    "else",
    "elsif",
    "end",
    "entity",
    "exit",
    "fairness",
    "file",
    "for",
    "force",
    "function",
    "generate",
    "generic",
    "group",
    "guarded",
    "if",
    "impure",
    "in",
    "inertial",
    "inout",
    "is",
    "label",
    "library",
    "linkage",
    "literal",
    "loop",
    "map",
    "mod",
    "nand",
    "new",
    "next",
    "nor",
    "not",
    "null",
    "of",
    "on",
    "open",
    "or",
    "others",
    "out",
    "package",
    "parameter",
    "port",
    "postponed",
    "procedure",
    "process",
    "property",
    "protected",
    "pure",
    "range",
    "record",
    "register",
    "reject",
    "release",
    "rem",
    "report",
    "restrict",
    "return",
    "rol",
    "ror",
    "select",
    "sequence",
    "severity",
    "shared",
    "signal",
    "sla",
    "sll",
    "sra",
    "srl",
    "strong",
    "subtype",
    "then",
    "to",
    "transport",
    "type",
    "unaffected",
    "units",
    "until",
    "use",
    "variable",
    "vmode",
    "vprop",
    "vunit",
    "wait",
    "when",
    "while",
    "with",
    "xnor",
    "xor",
];

/// The names in the packages that each design sees.
static PREDEFINED: [&str; 35] = [
    "bit",
    "boolean",
    "character",
    "error",
    "failure",
    "false",
    "falling_edge",
    "fs",
    "hr",
    "ieee",
    "integer",
    "min",
    "ms",
    "natural",
    "netlist",
    "note",
    "now",
    "ns",
    "positive",
    "ps",
    "real",
    "rising_edge",
    "sec",
    "std",
    "std_logic",
    "std_ulogic",
    "string",
    "time",
    "to_bit",
    "true",
    "us",
    "warning",
    "work",
    "x01",
    "ux01",
];

/// The names in use, and the number of the next short one.
#[derive(Drop)]
pub struct Names {
    alloc: Global,
    taken: HashSet<String>,
    next: u64,
    /// Whether memory sufficed so far.
    is_whole: bool,
}

/// The letter or digit with a number below 36.
fn digit(number: u64) -> char {
    let byte = number.checked_rem(36).unwrap_or(0) as u8;
    if byte < 26 {
        char::from(b'a' + byte)
    } else {
        char::from(b'0' + (byte - 26))
    }
}

/// The short name with a number: a letter, then letters and digits.
fn short(alloc: Global, number: u64) -> Draft {
    let mut name = Draft::new(alloc);
    name.push_char(digit(number % 26));
    let mut left = number / 26;
    for _ in 0..u64::BITS {
        if left == 0 {
            break;
        }
        name.push_char(digit((left - 1) % 36));
        left = (left - 1) / 36;
    }
    name
}

/// A name of the source in VHDL: letters and digits, with an underscore for any other character.
fn plain_name(alloc: Global, source: &Draft) -> Draft {
    let mut name = Draft::new(alloc);
    let text = source.read_for(&mut name);
    name.push(if starts_plain(text) { "" } else { "s" });
    let mut has_gap = false;
    for byte in text.as_bytes() {
        let is_plain = byte.is_ascii_alphanumeric();
        if is_plain {
            push_plain(&mut name, *byte, has_gap);
        }
        has_gap = !is_plain;
    }
    name
}

/// Adds a letter or digit, after an underscore for the other characters before it.
fn push_plain(name: &mut Draft, byte: u8, has_gap: bool) {
    if has_gap && !name.so_far().is_empty() {
        name.push("_");
    }
    name.push_char(char::from(byte.to_ascii_lowercase()));
}

/// Whether a name begins with a letter.
fn starts_plain(source: &str) -> bool {
    match source.as_bytes().first() {
        Some(byte) => byte.is_ascii_alphabetic(),
        None => false,
    }
}

impl Names {
    /// Only reserved names are in use.
    pub fn new(alloc: Global) -> Names {
        let mut names = Names {
            alloc,
            taken: HashSet::new(alloc),
            next: 0,
            is_whole: true,
        };
        names.reserve(&RESERVED);
        names.reserve(&PREDEFINED);
        names
    }

    /// Adds names to those in use.
    pub(crate) fn reserve(&mut self, words: &[&str]) {
        for word in words {
            if self.take(word).is_err() {
                self.lack();
            }
        }
    }

    /// Notes that memory did not suffice.
    pub fn lack(&mut self) {
        self.is_whole = false;
    }

    /// Whether memory sufficed for all names.
    pub fn is_whole(&self) -> bool {
        self.is_whole
    }

    /// Reserves a name. Returns `false` if it is in use.
    fn take(&mut self, name: &str) -> Result<bool, AllocError> {
        let name = String::from_str(self.alloc, name)?;
        Ok(self.taken.insert(name)?)
    }

    /// Reserves a name that was put together, and returns it, unless it is in use.
    fn take_draft(&mut self, name: Draft) -> Result<Option<String>, AllocError> {
        let name = name.finish()?;
        let is_new = self.take(name.as_str())?;
        Ok(if is_new { Some(name) } else { None })
    }

    /// A new name, or an empty one where memory did not suffice, which is noted.
    fn noted(&mut self, name: Result<String, AllocError>) -> String {
        match name {
            Ok(name) => name,
            Err(_) => {
                self.lack();
                String::new(self.alloc)
            }
        }
    }

    /// A new short name, if there is memory.
    fn find_fresh(&mut self) -> Result<String, AllocError> {
        for _ in 0..u64::MAX {
            let name = short(self.alloc, self.next);
            self.next = self.next.saturating_add(1);
            if let Some(name) = self.take_draft(name)? {
                return Ok(name);
            }
        }
        Err(AllocError)
    }

    /// A new name that ends in a number, if there is memory.
    fn find_numbered(&mut self, name: &str) -> Result<String, AllocError> {
        for number in 2..u64::MAX {
            let mut other = Draft::of(self.alloc, name);
            other.push("_");
            other.push_shown(&number);
            if let Some(other) = self.take_draft(other)? {
                return Ok(other);
            }
        }
        Err(AllocError)
    }

    /// A new name, as near as possible to one of the source, if there is memory.
    fn find_like(&mut self, source: &Draft) -> Result<String, AllocError> {
        let name = plain_name(self.alloc, source).finish()?;
        if self.take(name.as_str())? {
            return Ok(name);
        }
        self.find_numbered(name.as_str())
    }

    /// A new short name.
    pub fn fresh(&mut self) -> String {
        let name = self.find_fresh();
        self.noted(name)
    }

    /// A new name, as near as possible to one of the source.
    pub fn like(&mut self, source: &Draft) -> String {
        let name = self.find_like(source);
        self.noted(name)
    }
}
