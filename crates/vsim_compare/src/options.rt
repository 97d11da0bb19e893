//! The words of the command line.

use std::alloc::{AllocError, Global};
use vsim_waves_words::read_time;

/// Which edges of a clock count.
#[derive(Clone, Copy, PartialEq, Eq)]
pub enum Edge {
    Both,
    Rising,
    Falling,
}

/// What is to be compared, and how.
pub struct Options<'a> {
    pub files: Vec<&'a str>,
    pub map: Option<&'a str>,
    pub scope: Option<&'a str>,
    pub nets: Option<&'a str>,
    pub clock: Option<&'a str>,
    pub edge: Edge,
    pub from: u64,
    pub is_settled: bool,
    /// Whether an unknown value of the first input, or of the second, is as any other.
    pub ignores_here: bool,
    pub ignores_there: bool,
}

/// Written by hand so that code which drops it needs no proof about its contents.
impl Drop for Options<'_> {
    fn drop(self) {
        let Options {
            files,
            map: _,
            scope: _,
            nets: _,
            clock: _,
            edge: _,
            from: _,
            is_settled: _,
            ignores_here: _,
            ignores_there: _,
        } = self;
        drop(files);
    }
}

/// What the command line asks for.
pub enum Request<'a> {
    Comparison(Options<'a>),
    Help,
    Version,
    /// Words that are refused: why, and the word.
    Refused(&'static str, &'a str),
}

/// An option whose value follows.
#[derive(Clone, Copy, PartialEq, Eq)]
enum Valued {
    Map,
    Scope,
    Nets,
    Clock,
    From,
    Unknown,
}

/// What the next word may be.
#[derive(Clone, Copy, PartialEq, Eq)]
enum Awaited {
    Any,
    /// The value of an option.
    Value(Valued),
    /// The edges of the clock that was named, or any word.
    Edge,
}

/// The option of a word that takes a value.
fn option_of(word: &str) -> Option<Valued> {
    Some(match word {
        "--map" => Valued::Map,
        "--scope" => Valued::Scope,
        "--nets" => Valued::Nets,
        "--at-edges" => Valued::Clock,
        "--from" => Valued::From,
        "--ignore-unknown" => Valued::Unknown,
        _ => return None,
    })
}

impl<'a> Options<'a> {
    /// Nothing was said.
    fn new(alloc: Global) -> Options<'a> {
        Options {
            files: Vec::new(alloc),
            map: None,
            scope: None,
            nets: None,
            clock: None,
            edge: Edge::Both,
            from: 0,
            is_settled: false,
            ignores_here: false,
            ignores_there: false,
        }
    }

    /// Sets whose unknown values are as any other; `false` if a word names no side.
    fn ignore(&mut self, side: &str) -> bool {
        match side {
            "A" | "a" => self.ignores_here = true,
            "B" | "b" => self.ignores_there = true,
            "both" => {
                self.ignores_here = true;
                self.ignores_there = true;
            }
            _ => return false,
        }
        true
    }

    /// Sets the time from which on is compared; `false` if a word is no time.
    fn begin(&mut self, time: &str) -> bool {
        match read_time(time.as_bytes(), b"") {
            Some(time) => {
                self.from = time;
                true
            }
            None => false,
        }
    }

    /// Takes the value of an option; `false` if it is none.
    fn set(&mut self, option: Valued, value: &'a str) -> bool {
        match option {
            Valued::Map => self.map = Some(value),
            Valued::Scope => self.scope = Some(value),
            Valued::Nets => self.nets = Some(value),
            Valued::Clock => self.clock = Some(value),
            Valued::From => return self.begin(value),
            Valued::Unknown => return self.ignore(value),
        }
        true
    }

    /// Takes the edges of a clock; `false` if a word names none.
    fn set_edge(&mut self, word: &str) -> bool {
        match word {
            "rising" => self.edge = Edge::Rising,
            "falling" => self.edge = Edge::Falling,
            _ => return false,
        }
        true
    }

    /// Takes a path; `false` if there are two.
    fn add_file(&mut self, path: &'a str) -> Result<bool, AllocError> {
        if self.files.len() >= 2 {
            return Ok(false);
        }
        self.files.push(path)?;
        Ok(true)
    }
}

/// What follows the value of an option.
fn behind(option: Valued) -> Awaited {
    if option == Valued::Clock {
        Awaited::Edge
    } else {
        Awaited::Any
    }
}

/// Why a word is refused.
type Reason = Option<&'static str>;

/// Takes the value of an option.
fn take_value<'a>(options: &mut Options<'a>, option: Valued, value: &'a str) -> Reason {
    if options.set(option, value) {
        None
    } else {
        Some("invalid value")
    }
}

/// Takes a word that is an option or a path. Tells what may follow.
fn take_word<'a>(
    options: &mut Options<'a>,
    word: &'a str,
) -> Result<(Awaited, Reason), AllocError> {
    if word == "--settled" {
        options.is_settled = true;
        return Ok((Awaited::Any, None));
    }
    if let Some(option) = option_of(word) {
        return Ok((Awaited::Value(option), None));
    }
    if let Some((name, value)) = word.split_once('=') {
        if let Some(option) = option_of(name) {
            return Ok((behind(option), take_value(options, option, value)));
        }
    }
    let is_option = word.len() > 1 && word.starts_with("-");
    if !is_option && options.add_file(word)? {
        return Ok((Awaited::Any, None));
    }
    Ok((Awaited::Any, Some("unexpected argument")))
}

/// Takes a word. Tells what may follow.
fn take<'a>(
    options: &mut Options<'a>,
    awaited: Awaited,
    word: &'a str,
) -> Result<(Awaited, Reason), AllocError> {
    match awaited {
        Awaited::Value(option) => Ok((behind(option), take_value(options, option, word))),
        Awaited::Edge if options.set_edge(word) => Ok((Awaited::Any, None)),
        Awaited::Edge | Awaited::Any => take_word(options, word),
    }
}

/// The request of words that were all taken.
fn make_request<'a>(options: Options<'a>, awaited: Awaited) -> Request<'a> {
    if let Awaited::Value(_) = awaited {
        return Request::Refused("a value is missing behind the last word", "");
    }
    if options.files.len() < 2 {
        return Request::Refused("two files are wanted", "");
    }
    Request::Comparison(options)
}

/// Reads the words behind the program's name.
pub fn read_request(alloc: Global, words: &[String]) -> Result<Request<'_>, AllocError> {
    let mut options = Options::new(alloc);
    let mut awaited = Awaited::Any;
    for word in words {
        let word = word.as_str();
        match word {
            "--help" | "-h" => return Ok(Request::Help),
            "--version" | "-V" => return Ok(Request::Version),
            _ => {}
        }
        let (next, reason) = take(&mut options, awaited, word)?;
        if let Some(reason) = reason {
            return Ok(Request::Refused(reason, word));
        }
        awaited = next;
    }
    Ok(make_request(options, awaited))
}
