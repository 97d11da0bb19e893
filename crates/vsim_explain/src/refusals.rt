//! The explanation of a refusal, for people or for tools.

use sim_flat::FlatError;
use sim_run_session::{RunError, elaborate_within};
use std::alloc::Global;
use std::io::{self, Write};
use vsim_explain_names::{write_more_of_design, write_more_of_text};
use vsim_explain_refusals::{Explanation, explain_design, explain_text, nowhere};
use vsim_explain_request::{Request, write_ranges};
use vsim_explain_source::Source;
use vsim_explain_statements::{take_out, without_comments};

/// The most refusals that are explained.
const MOST: usize = 20;

/// The explanation of a lack of memory outside the text and its design.
const MEMORY: &str = "There is not enough memory.";

/// The explanation of a refusal of a text.
fn explain(source: Source<'_>, refusal: RunError) -> Explanation {
    match refusal {
        RunError::Text(fault) => explain_text(source.text, fault),
        RunError::Flat(fault) => explain_design(source.text, fault),
        _ => nowhere(MEMORY),
    }
}

/// Writes what the text itself says about a refusal under a top.
fn write_more<W: Write>(
    alloc: Global,
    out: &mut W,
    source: Source<'_>,
    top: &str,
    refusal: RunError,
) -> io::Result<()> {
    match refusal {
        RunError::Text(fault) => write_more_of_text(alloc, out, source.text, fault),
        RunError::Flat(fault) => write_more_of_design(alloc, out, source.text, top, fault),
        _ => Ok(()),
    }
}

/// Writes a refusal of a text under a top, and its explanation.
fn write_words<W: Write>(
    alloc: Global,
    out: &mut W,
    source: Source<'_>,
    top: &str,
    refusal: RunError,
) -> io::Result<()> {
    let explanation = explain(source, refusal);
    explanation.write_head(out, source, &refusal)?;
    explanation.write_advice(out, source)?;
    write_more(alloc, out, source, top, refusal)
}

/// Writes the line of JSON of a refusal of a text under a top.
fn write_line<W: Write>(
    alloc: Global,
    out: &mut W,
    source: Source<'_>,
    top: &str,
    refusal: RunError,
) -> io::Result<()> {
    let explanation = explain(source, refusal);
    let mut advice = Vec::new(alloc);
    explanation.write_advice(&mut advice, source)?;
    write_more(alloc, &mut advice, source, top, refusal)?;
    let place = explanation.place(source);
    vsim_explain_json::write_refusal(alloc, out, place, &refusal, advice.as_slice())
}

/// Writes the explanation of a refusal of a text.
fn write_refusal<W: Write>(
    alloc: Global,
    out: &mut W,
    source: Source<'_>,
    request: &Request,
    refusal: RunError,
) -> io::Result<()> {
    let top = request.options.top.as_str();
    if request.is_json {
        write_line(alloc, out, source, top, refusal)
    } else {
        write_words(alloc, out, source, top, refusal)
    }
}

/// The first fault of a design without the statement that has this one, if there is such a statement.
fn next_fault(
    alloc: Global,
    text: &mut Vec<u8>,
    request: &Request,
    fault: FlatError,
) -> Option<FlatError> {
    let at = explain_design(text.as_slice(), fault).at()?;
    if !take_out(text, at) {
        return None;
    }
    match elaborate_within(alloc, text.as_slice(), &request.options, request.limits) {
        Err(RunError::Flat(FlatError::Memory)) => None,
        Err(RunError::Flat(next)) => Some(next),
        _ => None,
    }
}

/// Writes the explanations of the faults of a design after the first one.
fn write_others<W: Write>(
    alloc: Global,
    out: &mut W,
    source: Source<'_>,
    request: &Request,
    first: FlatError,
) -> io::Result<()> {
    let Ok(mut text) = without_comments(alloc, source.text) else {
        return Ok(());
    };
    let mut fault = first;
    for _turn in 1..MOST {
        let Some(next) = next_fault(alloc, &mut text, request, fault) else {
            break;
        };
        write_refusal(alloc, out, source, request, RunError::Flat(next))?;
        fault = next;
    }
    Ok(())
}

/// Writes the explanation of the refusal of a text by `vsim`, and after it those of the faults of
/// the design that do not follow from it, at most twenty in all.
pub fn write_refusals<W: Write>(
    alloc: Global,
    out: &mut W,
    source: Source<'_>,
    request: &Request,
    first: RunError,
) -> io::Result<()> {
    write_refusal(alloc, out, source, request, first)?;
    match first {
        RunError::Flat(fault) => write_others(alloc, out, source, request, fault),
        _ => Ok(()),
    }
}

/// Writes the line of JSON of options that are out of range.
fn write_options_line<W: Write>(alloc: Global, out: &mut W, request: &Request) -> io::Result<()> {
    let mut advice = Vec::new(alloc);
    write_ranges(&mut advice, &request.options, request.limits)?;
    vsim_explain_json::write_refusal(alloc, out, None, &RunError::Options, advice.as_slice())
}

/// Writes that options are out of range.
pub fn write_options<W: Write>(alloc: Global, out: &mut W, request: &Request) -> io::Result<()> {
    if request.is_json {
        return write_options_line(alloc, out, request);
    }
    let refusal = RunError::Options;
    writeln!(out, "error: {refusal}")?;
    write_ranges(out, &request.options, request.limits)
}
