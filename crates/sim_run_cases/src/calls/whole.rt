//! Calls that carry out a whole run.

use anyhow::Result;
use sim_run::{
    Design, Finished, FlatError, Open, Options, RunError, TextError, WaveStore, elaborate, run,
    run_in, simulate, write_listing,
};
use std::alloc::Global;
use std::io::writer;
use std::sync::{Mutex, Wait};
use std::thread::Threads;

/// The calls.
#[derive(Clone, Copy)]
enum Call {
    Simulate,
    Run,
    RunIn,
}

/// Each call with its name.
static CALLS: [(Call, &str); 3] = [
    (Call::Simulate, "simulate"),
    (Call::Run, "run"),
    (Call::RunIn, "run_in"),
];

/// The store of a design at the start of its run, under a lock.
fn store_of(
    alloc: Global,
    design: &Design,
    options: &Options,
) -> Result<Mutex<WaveStore>, RunError> {
    match WaveStore::new(alloc, design.try_copy()?, options.stop, options.limit) {
        Ok(store) => Ok(Mutex::new(store)),
        Err(_refused) => Err(RunError::Memory),
    }
}

/// Lists the run of a design.
fn list_run<R: Threads + Wait + Sync + AllocGlobal + Print>(
    rt: &R,
    design: &Design,
    options: &Options,
) -> Result<(), RunError> {
    let finished = run(rt, rt.alloc(), design, options, &Open)?;
    write_listing(&finished, &mut writer(rt))
}

/// The run of a store under a lock. If a worker finds no memory, this is printed, and the run of
/// the same store goes on.
fn carry_on<R: Threads + Wait + Sync + AllocGlobal + Print>(
    rt: &R,
    store: &Mutex<WaveStore>,
    design: &Design,
    options: &Options,
) -> Result<Finished, RunError> {
    match run_in(rt, rt.alloc(), store, design, options, &Open) {
        Err(RunError::Memory) => {
            println!(rt; "! run_in: {:?}", RunError::Memory).map_err(|_unwritten| RunError::Write)?;
            run_in(rt, rt.alloc(), store, design, options, &Open)
        }
        answer => answer,
    }
}

/// Lists the run of a store under a lock.
fn list_run_in<R: Threads + Wait + Sync + AllocGlobal + Print>(
    rt: &R,
    design: &Design,
    options: &Options,
) -> Result<(), RunError> {
    let store = store_of(rt.alloc(), design, options)?;
    let finished = carry_on(rt, &store, design, options)?;
    write_listing(&finished, &mut writer(rt))
}

/// Lists the run of a text by a call.
fn list_by<R: Threads + Wait + Sync + AllocGlobal + Print>(
    rt: &R,
    source: &[u8],
    options: &Options,
    call: Call,
) -> Result<(), RunError> {
    match call {
        Call::Simulate => simulate(rt, rt.alloc(), source, options, &mut writer(rt)),
        Call::Run => list_run(rt, &elaborate(rt.alloc(), source, options)?, options),
        Call::RunIn => list_run_in(rt, &elaborate(rt.alloc(), source, options)?, options),
    }
}

/// Whether an error is lack of memory: for the text, the design or the run.
fn is_memory(fault: RunError) -> bool {
    matches!(
        fault,
        RunError::Text(TextError::Memory) | RunError::Flat(FlatError::Memory) | RunError::Memory
    )
}

/// Prints why a run is cut short. Other errors are passed on.
fn tell_end<R: Print>(rt: &R, answer: Result<(), RunError>) -> Result<()> {
    match answer {
        Err(RunError::CycleLimit { limit }) => println!(rt; "CycleLimit {limit}")?,
        Err(RunError::PostponedDelta) => println!(rt; "PostponedDelta")?,
        answer => answer?,
    }
    Ok(())
}

/// Lists the run of a text by a call. If the call finds no memory, this is printed, and it is
/// repeated once.
fn list<R: Threads + Wait + Sync + AllocGlobal + Print>(
    rt: &R,
    source: &[u8],
    options: &Options,
    call: Call,
    name: &str,
) -> Result<()> {
    match list_by(rt, source, options, call) {
        Err(fault) if is_memory(fault) => {
            println!(rt; "! {name}: {fault:?}")?;
            tell_end(rt, list_by(rt, source, options, call))
        }
        answer => tell_end(rt, answer),
    }
}

/// Lists the run of a text by each call in turn: under a lock by several workers, otherwise by one.
pub fn list_by_each<R: Threads + Wait + Sync + AllocGlobal + Print>(
    rt: &R,
    source: &[u8],
    alone: &Options,
    shared: &Options,
) -> Result<()> {
    for (call, name) in CALLS.iter() {
        let options = match call {
            Call::RunIn => shared,
            _ => alone,
        };
        list(rt, source, options, *call, name)?;
    }
    Ok(())
}
