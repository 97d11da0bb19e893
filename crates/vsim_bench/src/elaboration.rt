//! `elaboration N TOP`: N times, reads the text on standard input as a design file, flattens it
//! under its entity TOP, and drops the results.

use crate::reading::source;
use anyhow::{Result, bail};
use sim_flat::{FlatError, flatten};
use sim_text::parse;
use sim_text::tree::DesignFile;
use std::alloc::Global;
use std::rt::Clock;
use std::time::Instant;

/// The size of a flat design.
#[derive(Clone, Copy)]
struct Size {
    nets: usize,
    processes: usize,
    drivers: usize,
}

/// Flattens a design file, and drops the design.
fn flattened(alloc: Global, file: &DesignFile, top: &str) -> Result<Size, FlatError> {
    let design = flatten(alloc, file, top)?;
    Ok(Size {
        nets: design.nets().len(),
        processes: design.processes().len(),
        drivers: design.drivers().len(),
    })
}

/// Prints the size of the design of a file, or its fault.
fn print_size<R: Print>(rt: &R, found: Result<Size, FlatError>) -> Result<()> {
    match found {
        Ok(size) => println!(rt;
            "{} nets, {} processes, {} drivers",
            size.nets, size.processes, size.drivers
        )?,
        Err(fault) => println!(rt; "refused: {fault}")?,
    }
    Ok(())
}

/// Times the flattening of a file, and prints the size of the design or its fault.
fn report_flattening<R: Print + Eprint + Clock + AllocGlobal>(
    rt: &R,
    file: &DesignFile,
    top: &str,
) -> Result<()> {
    let start = Instant::now(rt)?;
    let found = flattened(rt.alloc(), file, top);
    let took = start.elapsed(rt)?.as_micros();
    eprintln!(rt; "flatten: {took} us")?;
    print_size(rt, found)
}

/// Times the flattening of a file whose reading began at this time.
fn report_file<R: Print + Eprint + Clock + AllocGlobal>(
    rt: &R,
    start: Instant,
    file: &DesignFile,
    top: &str,
) -> Result<()> {
    let took = start.elapsed(rt)?.as_micros();
    eprint!(rt; "parse: {took} us, ")?;
    report_flattening(rt, file, top)
}

/// Times one reading and one flattening, each by itself. The design is dropped within the time of
/// the flattening, the tree after both.
fn report<R: Print + Eprint + Clock + AllocGlobal>(rt: &R, text: &[u8], top: &str) -> Result<()> {
    let start = Instant::now(rt)?;
    match parse(rt.alloc(), text) {
        Ok(file) => report_file(rt, start, &file, top),
        Err(fault) => bail!("no design file: {fault}"),
    }
}

/// Times the parser, and elaboration after it.
pub fn run<R: Print + Eprint + Input + Clock + AllocGlobal>(
    rt: &R,
    count: u64,
    top: &str,
) -> Result<()> {
    let text = source(rt)?;
    for _ in 0..count {
        report(rt, text.as_slice(), top)?;
    }
    Ok(())
}
