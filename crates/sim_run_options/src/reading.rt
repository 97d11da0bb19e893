//! Words read as options.
ghost use Rattle.std.specs.Prelude.{◌≡◌, ◌∷◌, [], false, codes, MatchResult, map, string_bytes};
ghost use Rattle.sim_run_options.specs.Asks.{Asks, AsksFor, Explains, IsDefault, IsUsual, limits_in, streams_in};
ghost use Rattle.std.specs.Str.Parse.{starts_with_minus};
ghost use Rattle.clap.specs.Matches.{found_of};
ghost use Rattle.clap.specs.Walk.{Text, rows_of};

use crate::command::command_line;
use crate::fault::{CliFault, fault_of_error};
use crate::limits::Limits;
use crate::options::Options;
use clap::ArgMatches;
use std::alloc::Global;

/// A run that words ask for.
#[derive(Debug, Drop)]
pub struct Request {
    /// The options of the run.
    pub options: Options,
    /// How large it may be.
    pub limits: Limits,
    /// Whether lines are written while the run goes on.
    pub streams: bool,
}

/// The limits that the words ask for: `clap` gives a flag that is among them the text `true`.
fn limits_of(matches: &ArgMatches<'_>) -> Limits
    ensures { result ≡ limits_in (rows_of (found_of matches.now)) }
{
    match matches.get_str("large") {
        Some(text) if text == "true" => Limits::Large,
        _ => Limits::Standard,
    }
}

/// Whether the words ask for lines to be written while the run goes on.
fn streams(matches: &ArgMatches<'_>) -> bool
    ensures { result ≡ streams_in (rows_of (found_of matches.now)) }
{
    match matches.get_str("stream") {
        Some(text) if text == "true" => true,
        _ => false,
    }
}

/// Reads the words of a command line, without the program's name:
/// `--top NAME [--stop FS] [--limit N] [--workers N] [--large] [--stream]` in any order, or `--help`.
pub fn read_request(alloc: Global, words: Vec<String>) -> Result<Request, CliFault>
    ensures read { MatchResult result (AsksFor (map string_bytes words.items)) (Explains (map string_bytes words.items)) }
    ensures alone { (name : Text) → map string_bytes words.items ≡ codes "--top" ∷ name ∷ [] → starts_with_minus name ≡ false
        → MatchResult result (IsUsual name) (λ f. f ≡ CliFault.Memory) }
{
    let Ok(command) = command_line(alloc) else {
        return Err(CliFault::Memory);
    };
    let matches = match command.try_get_matches_from(words.as_slice()) {
        Ok(matches) => matches,
        Err(error) => return Err(fault_of_error(alloc, error)),
    };
    let Ok(top) = String::from_str(alloc, matches.get_str("top").unwrap()) else {
        return Err(CliFault::Memory);
    };
    let limits = limits_of(&matches);
    let options = Options {
        top,
        stop: matches.get_one::<u64>("stop").unwrap(),
        limit: matches
            .get_one::<u32>("limit")
            .unwrap_or(limits.usual_cycles()),
        workers: matches.get_one::<usize>("workers").unwrap(),
    };
    Ok(Request {
        options,
        limits,
        streams: streams(&matches),
    })
}

/// The options of the run that the words ask for, as `read_request` reads them.
pub fn read_options(alloc: Global, words: Vec<String>) -> Result<Options, CliFault>
    ensures read { MatchResult result (Asks (map string_bytes words.items)) (Explains (map string_bytes words.items)) }
    ensures alone { (name : Text) → map string_bytes words.items ≡ codes "--top" ∷ name ∷ [] → starts_with_minus name ≡ false
        → MatchResult result (IsDefault name) (λ f. f ≡ CliFault.Memory) }
{
    let request = read_request(alloc, words)?;
    Ok(request.options)
}
