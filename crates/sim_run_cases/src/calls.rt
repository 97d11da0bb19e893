//! The public calls, one after another, on a text.
//!
//! A call that finds no memory is repeated once, with what it gave back. So if a single request for
//! memory is refused, the listing is that of a run with ample memory: `tests/refusals.py --gate`
//! refuses each request in turn.

mod claims;
mod designs;
mod drivers;
mod elaboration;
mod execution;
mod job;
mod queue;
mod rows;
mod stores;
mod whole;

use crate::calls::elaboration::{design_of, tree_of};
use crate::calls::execution::{finished, make_codes, run, store_of};
use crate::calls::rows::work_each;
use crate::calls::whole::list_by_each;
use anyhow::{Context, Result, bail};
use sim_run::{Options, WaveStore, write_listing};
use sim_store::Step;
use std::alloc::{AllocError, Global};
use std::io::{self, Read, writer};
use std::sync::Wait;
use std::thread::Threads;

/// One byte more than a text may have: enough to see that it is too long.
const MOST_BYTES: u64 = 1_048_577;

/// Reads the text.
fn read_source<R: AllocGlobal + Input>(rt: &R) -> io::Result<Vec<u8>> {
    let mut source = Vec::new(rt.alloc());
    rt.reader().take(MOST_BYTES).read_to_end(&mut source)?;
    Ok(source)
}

/// The store of a text at the start of its run.
fn begin(alloc: Global, source: &[u8], options: &Options) -> Result<WaveStore> {
    let tree = tree_of(alloc, source)?;
    let design = design_of(alloc, &tree, options.top.as_str())?;
    match store_of(alloc, design, options) {
        Ok(store) => Ok(store),
        Err((fault, _design)) => bail!("{fault}"),
    }
}

/// Writes the listing of a run that has ended.
fn write<R: AllocGlobal + Print>(rt: &R, store: &WaveStore) -> Result<()> {
    let finished = finished(rt.alloc(), store)?;
    if write_listing(&finished, &mut writer(rt)).is_err() {
        bail!("writing");
    }
    Ok(())
}

/// Writes the listing of a run that has ended with this step, or why it is cut short.
fn tell_end<R: AllocGlobal + Print>(rt: &R, store: &WaveStore, step: Step) -> Result<()> {
    match step {
        Step::LimitReached => println!(rt; "CycleLimit {}", store.limit())?,
        Step::PostponedDelta => println!(rt; "PostponedDelta")?,
        _ => return write(rt, store),
    }
    Ok(())
}

/// Carries a run to its end, and writes its listing, or why it is cut short.
fn list<R: AllocGlobal + Print>(rt: &R, mut store: WaveStore) -> Result<()> {
    make_codes(rt.alloc(), store.design())?;
    let step = run(rt.alloc(), &mut store)?;
    tell_end(rt, &store, step)
}

/// Prints the listing of a text by single calls.
fn list_by_single_calls<R: AllocGlobal + Print>(
    rt: &R,
    source: &[u8],
    options: &Options,
) -> Result<()> {
    let store = begin(rt.alloc(), source, options)?;
    list(rt, store)
}

/// The options of a run of the top `t` by one worker, up to 100 ns and in at most 1,000 cycles.
pub fn defaults(alloc: Global) -> Result<Options, AllocError> {
    Ok(Options {
        top: String::from_str(alloc, "t")?,
        stop: 100_000_000,
        limit: 1_000,
        workers: 1,
    })
}

/// The same options for two workers.
fn shared(alloc: Global, options: &Options) -> Result<Options, AllocError> {
    Ok(Options {
        top: String::from_str(alloc, options.top.as_str())?,
        stop: options.stop,
        limit: options.limit,
        workers: 2,
    })
}

/// Prints the listing of the text on standard input by single calls, and then by each of the calls
/// that carry out a whole run.
pub fn list_by_calls<R: Threads + Wait + Sync + AllocGlobal + Input + Print>(
    rt: &R,
    options: &Options,
) -> Result<()> {
    let source = read_source(rt).context("reading")?;
    let source = source.as_slice();
    let shared = shared(rt.alloc(), options).context("reading")?;
    list_by_single_calls(rt, source, options)?;
    list_by_each(rt, source, options, &shared)
}

/// Makes rows of calls that are made alone.
pub fn work_rows<R: Threads + Sync + AllocGlobal + Print>(rt: &R) -> Result<()> {
    let options = defaults(rt.alloc()).context("reading")?;
    work_each(rt, &options)
}
