//! `tokens N` and `parse N`: N times, cuts the text on standard input into its tokens, or reads it
//! as a design file, and drops the result.

use anyhow::Result;
use sim_text::{TextError, parse, tokens};
use std::alloc::Global;
use std::io::Read;
use std::rt::Clock;
use std::time::Instant;

/// The text on standard input.
pub fn source<R: Input + AllocGlobal>(rt: &R) -> Result<Vec<u8>> {
    let mut text = Vec::new(rt.alloc());
    rt.reader().read_to_end(&mut text)?;
    Ok(text)
}

/// A step that is timed, and what it counts.
#[derive(Clone, Copy)]
pub enum Step {
    /// the lexer: tokens
    Tokens,
    /// the lexer and the parser after it: design units
    Parse,
}

impl Step {
    /// The word of the command line.
    fn name(self) -> &'static str {
        match self {
            Step::Tokens => "tokens",
            Step::Parse => "parse",
        }
    }

    /// The name of what is counted.
    fn counted(self) -> &'static str {
        match self {
            Step::Tokens => "tokens",
            Step::Parse => "units",
        }
    }

    /// Takes the step on a text, and counts the result.
    fn count(self, alloc: Global, text: &[u8]) -> Result<usize, TextError> {
        match self {
            Step::Tokens => count_tokens(alloc, text),
            Step::Parse => count_units(alloc, text),
        }
    }
}

/// The number of tokens of a text.
fn count_tokens(alloc: Global, text: &[u8]) -> Result<usize, TextError> {
    let found = tokens(alloc, text)?;
    Ok(found.len())
}

/// The number of design units of a text.
fn count_units(alloc: Global, text: &[u8]) -> Result<usize, TextError> {
    let found = parse(alloc, text)?;
    Ok(found.units().len())
}

/// The number that a step counts, and the microseconds that it takes.
fn timed<R: Clock + AllocGlobal>(rt: &R, step: Step, text: &[u8]) -> Result<(usize, u128)> {
    let start = Instant::now(rt)?;
    let found = step.count(rt.alloc(), text)?;
    let took = start.elapsed(rt)?.as_micros();
    Ok((found, took))
}

/// Times a step.
fn report<R: Print + Eprint + Clock + AllocGlobal>(rt: &R, step: Step, text: &[u8]) -> Result<()> {
    let (found, took) = timed(rt, step, text)?;
    eprintln!(rt; "{}: {took} us", step.name())?;
    println!(rt; "{}: {found}", step.counted())?;
    Ok(())
}

/// Times a step `count` times, on the same text.
pub fn run<R: Print + Eprint + Input + Clock + AllocGlobal>(
    rt: &R,
    step: Step,
    count: u64,
) -> Result<()> {
    let text = source(rt)?;
    for _ in 0..count {
        report(rt, step, text.as_slice())?;
    }
    Ok(())
}
