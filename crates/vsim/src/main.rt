//! Simulates a VHDL design: `vsim --top NAME` reads its text from standard input and writes the
//! listing of its signal changes to standard output.
#![tactic(auto)]

use sim_run_session::session;
use std::alloc::Global;
use std::io::Write;
use std::process::ExitCode;
use std::{env, io};

/// The text of `--version`. The script `build` fills in the sources and the toolchain in its copy.
const VERSION: &[u8] = b"vsim 1.0.0, sources unknown, toolchain unknown\n";

/// The message for words that are not valid UTF-8, as `clap` words it.
const NO_TEXT: &[u8] = b"error: invalid UTF-8 was detected in one or more arguments

For more information, try '--help'.
";

/// The words after the program's name.
fn words(rt: &HostRuntime, alloc: Global) -> io::Result<Vec<String>> {
    let words = env::args(rt)?.skip(1).collect(alloc)?;
    Ok(words)
}

/// Whether the words ask for the version.
fn ask_for_version(words: &[String]) -> bool {
    match words.first() {
        Some(first) => first.as_str() == "--version" || first.as_str() == "-V",
        None => false,
    }
}

/// Writes the version, and returns the exit status.
fn tell_version(rt: &HostRuntime) -> ExitCode {
    let mut out = rt.stdout();
    if out.write_all(VERSION).is_ok() {
        return ExitCode::SUCCESS;
    }
    let _reported = rt.stderr().write_all(b"vsim: Write\n");
    ExitCode::from(4)
}

/// Passes the words and the standard streams to `session`, whose status is the exit status.
fn main(rt: HostRuntime) -> ExitCode {
    let alloc = rt.alloc();
    let mut err = rt.stderr();
    let words = match words(&rt, alloc) {
        Ok(words) => words,
        Err(fault) if fault.kind() == io::ErrorKind::InvalidData => {
            let _reported = err.write_all(NO_TEXT);
            return ExitCode::from(2);
        }
        // No other error can occur.
        Err(_out_of_memory) => {
            let _reported = err.write_all(b"vsim: Memory\n");
            return ExitCode::from(4);
        }
    };
    if ask_for_version(words.as_slice()) {
        drop(words);
        return tell_version(&rt);
    }
    let mut input = rt.reader();
    let mut out = rt.stdout();
    ExitCode::from(session(&rt, alloc, words, &mut input, &mut out, &mut err))
}
