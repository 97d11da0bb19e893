//! Explains the answer of `vsim`: `vsim_explain --top NAME design.vhd`, called as `vsim` is or with
//! files. For a refusal it shows the line and column, and says in plain words what the fault means
//! and how to mend it; for a run, how far it came and which nets change most.
#![tactic(auto)]

mod changes;
mod cut_short;
mod cycles;
mod refusals;
mod runs;

use crate::refusals::{write_options, write_refusals};
use crate::runs::tell_run;
use anyhow::{Context, Result};
use sim_flat::FlatError;
use sim_flat_design::Design;
use sim_run_session::{RunError, elaborate_within};
use sim_text::TextError;
use std::alloc::Global;
use std::io::{self, BufWriter, Write, writer};
use std::process::ExitCode;
use vsim_explain_request::{Asked, Request, read_command_line};
use vsim_explain_source::{Source, read_source};

/// The text of `--version`. The script `build` fills in the sources and the toolchain in its copy.
const VERSION: &str = "vsim_explain 1.0.0, sources unknown, toolchain unknown";

/// The answer to a text that is only checked.
const NO_FAULT: &[u8] = b"No fault in the text or its design.\n";

/// The exit status of `vsim` for a refusal of a text.
fn status_of(refusal: RunError) -> u8 {
    match refusal {
        RunError::Text(TextError::Memory) | RunError::Flat(FlatError::Memory) => 4,
        RunError::Text(_) | RunError::Flat(_) => 1,
        _ => 4,
    }
}

/// Writes that a text and its design have no fault, unless only faults are wanted.
fn write_no_fault<W: Write>(words: &mut W, request: &Request) -> io::Result<()> {
    if request.is_json {
        return Ok(());
    }
    words.write_all(NO_FAULT)
}

/// Writes the answer to a design, and returns the exit status.
fn answer_design<L: Write, W: Write>(
    alloc: Global,
    source: Source<'_>,
    design: Design,
    request: &Request,
    listing: &mut L,
    words: &mut W,
) -> Result<u8> {
    if request.is_check {
        drop(design);
        write_no_fault(words, request)?;
        return Ok(0);
    }
    tell_run(alloc, source, design, request, listing, words)
}

/// Writes the answer to a text, and returns the exit status.
fn answer_text<L: Write, W: Write>(
    alloc: Global,
    source: Source<'_>,
    request: &Request,
    listing: &mut L,
    words: &mut W,
) -> Result<u8> {
    match elaborate_within(alloc, source.text, &request.options, request.limits) {
        Ok(design) => answer_design(alloc, source, design, request, listing, words),
        Err(refusal) => {
            write_refusals(alloc, words, source, request, refusal)?;
            Ok(status_of(refusal))
        }
    }
}

/// Writes the answer to the files or standard input, and returns the exit status.
fn answer_request<L: Write, W: Write>(
    rt: &HostRuntime,
    request: &Request,
    listing: &mut L,
    words: &mut W,
) -> Result<u8> {
    if !request.options.are_in_range_within(request.limits) {
        write_options(rt.alloc(), words, request)?;
        return Ok(2);
    }
    let (mut text, mut parts) = (Vec::new(rt.alloc()), Vec::new(rt.alloc()));
    // One byte more than a text may have is enough to see that it is too long.
    let most = request.limits.bytes() as u64 + 1;
    read_source(rt, request.files.as_slice(), most, &mut text, &mut parts)?;
    let source = Source {
        text: text.as_slice(),
        parts: parts.as_slice(),
    };
    answer_text(rt.alloc(), source, request, listing, words)
}

/// Writes what two streams still hold.
fn flush_both<O: Write, E: Write>(out: &mut O, errors: &mut E) -> Result<()> {
    out.flush().context("writing")?;
    errors.flush().context("writing")
}

/// Writes the answer to a request, with its listing and its words to a stream each.
fn answer_apart(rt: &HostRuntime, request: &Request) -> Result<u8> {
    let mut out = BufWriter::new(rt.alloc(), writer(rt))?;
    let mut errors = BufWriter::new(rt.alloc(), rt.stderr())?;
    let status = if request.listing {
        answer_request(rt, request, &mut out, &mut errors)
    } else {
        answer_request(rt, request, &mut errors, &mut out)
    };
    flush_both(&mut out, &mut errors)?;
    status
}

/// Answers the command line, and returns the exit status.
fn answer(rt: &HostRuntime) -> Result<u8> {
    match read_command_line(rt, VERSION)? {
        Asked::Explanation(request) => answer_apart(rt, &request),
        Asked::Answered(status) => Ok(status),
    }
}

fn main(rt: HostRuntime) -> Result<ExitCode> {
    match answer(&rt) {
        Ok(status) => Ok(ExitCode::from(status)),
        Err(fault) => {
            eprintln!(rt; "vsim_explain: {fault:#}")?;
            Ok(ExitCode::from(4))
        }
    }
}
