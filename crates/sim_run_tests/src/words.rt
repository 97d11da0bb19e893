//! Command lines: the right words are accepted, with these values; the texts of refusals and of the
//! help, which no contract says.

use sim_run_options::{CliFault, Limits, Request, read_options, read_request};
use std::alloc::{AllocError, Global};
use std::test::Fail;

/// A line of words; the top, the stop time, the limit and the number of workers that it gives;
/// whether it asks for a large run, and for lines while it goes on, and whether the others are in
/// its ranges.
type Row<'a> = (&'a str, &'a str, u64, u32, usize, bool, bool, bool);

/// Lines that are accepted.
static TAKEN: [Row<'_>; 11] = [
    (
        "--top t",
        "t",
        4_611_686_018_427_387_903,
        10_000,
        1,
        false,
        false,
        true,
    ),
    (
        "--top t --stop 12000000 --limit 2 --workers 16",
        "t",
        12_000_000,
        2,
        16,
        false,
        false,
        true,
    ),
    (
        "--limit=7 --top=Adder",
        "Adder",
        4_611_686_018_427_387_903,
        7,
        1,
        false,
        false,
        true,
    ),
    (
        "--top=",
        "",
        4_611_686_018_427_387_903,
        10_000,
        1,
        false,
        false,
        true,
    ),
    (
        "--top t --stop 18446744073709551615 --limit 0 --workers 17",
        "t",
        18_446_744_073_709_551_615,
        0,
        17,
        false,
        false,
        false,
    ),
    (
        "--top t --limit 1000001",
        "t",
        4_611_686_018_427_387_903,
        1_000_001,
        1,
        false,
        false,
        false,
    ),
    (
        "--large --top t",
        "t",
        4_611_686_018_427_387_903,
        4_294_967_295,
        1,
        true,
        false,
        true,
    ),
    (
        "--top t --limit 1000001 --large",
        "t",
        4_611_686_018_427_387_903,
        1_000_001,
        1,
        true,
        false,
        true,
    ),
    (
        "--top t --limit 0 --large",
        "t",
        4_611_686_018_427_387_903,
        0,
        1,
        true,
        false,
        false,
    ),
    (
        "--stream --top t",
        "t",
        4_611_686_018_427_387_903,
        10_000,
        1,
        false,
        true,
        true,
    ),
    (
        "--top t --large --workers 2 --stream",
        "t",
        4_611_686_018_427_387_903,
        4_294_967_295,
        2,
        true,
        true,
        true,
    ),
];

/// Lines that are refused, and parts of the refusal.
static REFUSED: [(&str, &[&str]); 17] = [
    ("", &[]),
    ("t", &[]),
    ("--top", &[]),
    ("--top t u", &[]),
    ("--top t --top t", &[]),
    (
        "--top t --limit 5000000000",
        &["'5000000000'", "'--limit <N>'"],
    ),
    ("--top t --limit ten", &[]),
    ("--top t --stop -1", &[]),
    ("--top t --stop 18446744073709551616", &[]),
    ("--top t --workers 1.5", &[]),
    ("--top -t", &[]),
    ("--top t --version", &[]),
    ("--stop 5", &[]),
    ("--top t --large --large", &[]),
    ("--top t --large=true", &[]),
    ("--top t --stream --stream", &[]),
    ("--top t --stream=false", &[]),
];

/// Lines that ask for the help.
static HELP: [&str; 3] = ["--help", "-h", "--top t --help"];

/// Parts of the help.
static PARTS: [&str; 10] = [
    "Usage: vsim [OPTIONS] --top <NAME>\n",
    "--stop <FS>",
    "--limit <N>",
    "--workers <N>",
    "--large",
    "--stream",
    "TIME DELTA NAME VALUE",
    "done CYCLES EVENTS",
    "3  the run needs more simulation cycles than the limit",
    "vsim --top t < pulse.vhd",
];

/// The words of a line.
fn words(alloc: Global, line: &str) -> Result<Vec<String>, AllocError> {
    let mut words = Vec::new(alloc);
    for word in line.split_ascii_whitespace() {
        words.push(String::from_str(alloc, word)?)?;
    }
    Ok(words)
}

/// The run or the fault of a line of words.
fn read(alloc: Global, line: &str) -> Result<Result<Request, CliFault>, AllocError> {
    Ok(read_request(alloc, words(alloc, line)?))
}

/// Whether the line of a row is accepted, with its values.
fn is_taken(alloc: Global, row: &Row<'_>) -> Result<bool, AllocError> {
    let (line, top, stop, limit, workers, is_large, is_streaming, in_range) = *row;
    match read(alloc, line)? {
        Ok(
            Request {
                options,
                limits,
                streams,
            },
        ) => Ok(
            options.top.as_str() == top
                && options.stop == stop
                && options.limit == limit
                && options.workers == workers
                && matches!(limits, Limits::Large) == is_large
                && streams == is_streaming
                && options.are_in_range_within(limits) == in_range,
        ),
        Err(_) => Ok(false),
    }
}

/// Whether a text contains each of these parts.
fn has_all(text: &str, parts: &[&str]) -> bool {
    for part in parts {
        if !text.contains(*part) {
            return false;
        }
    }
    true
}

/// Whether a line is refused, with a text that contains these parts.
fn is_refused(alloc: Global, line: &str, parts: &[&str]) -> Result<bool, AllocError> {
    match read(alloc, line)? {
        Err(CliFault::Refused(text)) => Ok(has_all(text.as_str(), parts)),
        _ => Ok(false),
    }
}

/// Whether a line asks for the help, and this contains its parts.
fn is_help(alloc: Global, line: &str) -> Result<bool, AllocError> {
    match read(alloc, line)? {
        Err(CliFault::Help(text)) => Ok(has_all(text.as_str(), &PARTS)),
        _ => Ok(false),
    }
}

#[test]
fn valid_words_are_accepted(rt: HostRuntime) -> Result<(), Fail> {
    for row in &TAKEN {
        assert!(rt; is_taken(rt.alloc(), row)?, "{}", row.0);
    }
    Ok(())
}

#[test]
fn options_alone_are_those_of_the_run(rt: HostRuntime) -> Result<(), Fail> {
    let words = words(rt.alloc(), "--large --top t")?;
    let is_right = match read_options(rt.alloc(), words) {
        Ok(options) => options.limit == u32::MAX && !options.are_in_range(),
        Err(_) => false,
    };
    assert!(rt; is_right);
    Ok(())
}

#[test]
fn invalid_words_are_refused(rt: HostRuntime) -> Result<(), Fail> {
    for (line, parts) in &REFUSED {
        assert!(rt; is_refused(rt.alloc(), line, parts)?, "{line}");
    }
    Ok(())
}

#[test]
fn help_is_given_if_asked_for(rt: HostRuntime) -> Result<(), Fail> {
    for line in &HELP {
        assert!(rt; is_help(rt.alloc(), line)?, "{line}");
    }
    Ok(())
}
