//! Options out of range.

use sim_logic::LATEST;
use sim_run_options::{Limits, Options};
use std::io::{self, Write};

/// Writes a line for a stop time that is too late.
fn write_stop<W: Write>(out: &mut W, stop: u64) -> io::Result<()> {
    if stop <= LATEST {
        return Ok(());
    }
    writeln!(
        out,
        "--stop is {stop}, but must be at most {LATEST} femtoseconds."
    )
}

/// Writes a line for a limit that is out of range.
fn write_limit<W: Write>(out: &mut W, limit: u32, limits: Limits) -> io::Result<()> {
    let most = limits.cycles();
    if (1..=most).contains(&limit) {
        return Ok(());
    }
    writeln!(
        out,
        "--limit is {limit}, but must be from 1 to {most} cycles."
    )
}

/// Writes a line for a number of workers that is out of range.
fn write_workers<W: Write>(out: &mut W, workers: usize) -> io::Result<()> {
    if (1..=16).contains(&workers) {
        return Ok(());
    }
    writeln!(
        out,
        "--workers is {workers}, but must be from 1 to 16 threads."
    )
}

/// Writes a line for each option that is out of range.
pub fn write_ranges<W: Write>(out: &mut W, options: &Options, limits: Limits) -> io::Result<()> {
    write_stop(out, options.stop)?;
    write_limit(out, options.limit, limits)?;
    write_workers(out, options.workers)
}
