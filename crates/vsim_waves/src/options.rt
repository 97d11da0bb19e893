//! The words of the command line.

use vsim_waves_words::read_time;

/// How a listing is turned into waves.
#[derive(Clone, Copy)]
pub struct Options<'a> {
    pub has_deltas: bool,
    pub is_partial: bool,
    pub map: Option<&'a str>,
    pub scope: Option<&'a str>,
    /// Whether a picture is asked for, and what it shows.
    pub is_drawn: bool,
    pub from: Option<u64>,
    pub to: Option<u64>,
    pub nets: Option<&'a str>,
}

/// What the command line asks for.
#[derive(Clone, Copy)]
pub enum Request<'a> {
    Waves(Options<'a>),
    Help,
    Version,
    /// Words that are refused.
    Refused,
}

/// What the next word is.
#[derive(Clone, Copy, PartialEq, Eq)]
enum Awaited {
    Option,
    Map,
    Scope,
    From,
    To,
    Nets,
}

/// Whether a word can name a scope: printable, without blanks.
fn is_scope(word: &str) -> bool {
    !word.is_empty() && word.bytes().all(|byte| byte.is_ascii_graphic())
}

/// Takes an option that has no value; `false` if it is none, or is there already.
fn take_flag(options: &mut Options<'_>, word: &str) -> bool {
    let flag = match word {
        "--deltas" => &mut options.has_deltas,
        "--partial" => &mut options.is_partial,
        "--svg" => &mut options.is_drawn,
        _ => return false,
    };
    let is_new = !*flag;
    *flag = true;
    is_new
}

/// Takes an option. Tells what the next word is, unless it is refused.
fn take_option(options: &mut Options<'_>, word: &str) -> Option<Awaited> {
    match word {
        "--map" if options.map.is_none() => Some(Awaited::Map),
        "--scope" if options.scope.is_none() => Some(Awaited::Scope),
        "--from" if options.from.is_none() => Some(Awaited::From),
        "--to" if options.to.is_none() => Some(Awaited::To),
        "--nets" if options.nets.is_none() => Some(Awaited::Nets),
        _ if take_flag(options, word) => Some(Awaited::Option),
        _ => None,
    }
}

/// Takes a word. Tells what the next one is, unless it is refused.
fn take<'a>(options: &mut Options<'a>, awaited: Awaited, word: &'a str) -> Option<Awaited> {
    match awaited {
        Awaited::Option => return take_option(options, word),
        Awaited::Map => options.map = Some(word),
        Awaited::Scope if is_scope(word) => options.scope = Some(word),
        Awaited::Scope => return None,
        Awaited::From => options.from = Some(read_time(word.as_bytes(), b"")?),
        Awaited::To => options.to = Some(read_time(word.as_bytes(), b"")?),
        Awaited::Nets => options.nets = Some(word),
    }
    Some(Awaited::Option)
}

/// Whether options go together.
fn fit(options: &Options<'_>) -> bool {
    if options.is_drawn {
        return !options.has_deltas && options.scope.is_none();
    }
    let is_cut = options.from.is_some() || options.to.is_some() || options.nets.is_some();
    !is_cut && !(options.has_deltas && options.map.is_some())
}

/// The request of words that were all taken.
fn make_request<'a>(options: Options<'a>, awaited: Awaited) -> Request<'a> {
    if awaited == Awaited::Option && fit(&options) {
        Request::Waves(options)
    } else {
        Request::Refused
    }
}

/// Reads the words behind the program's name.
pub fn read_request(words: &[String]) -> Request<'_> {
    let mut options = Options {
        has_deltas: false,
        is_partial: false,
        map: None,
        scope: None,
        is_drawn: false,
        from: None,
        to: None,
        nets: None,
    };
    let mut awaited = Awaited::Option;
    for word in words {
        match word.as_str() {
            "--help" | "-h" => return Request::Help,
            "--version" | "-V" => return Request::Version,
            _ => {}
        }
        let Some(next) = take(&mut options, awaited, word.as_str()) else {
            return Request::Refused;
        };
        awaited = next;
    }
    make_request(options, awaited)
}
