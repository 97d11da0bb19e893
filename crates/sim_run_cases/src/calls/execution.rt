//! Calls that carry on a run. A call that finds no memory is made once more, with what it gave
//! back.

use anyhow::{Result, bail};
use sim_exec::{Code, Done, Job};
use sim_flat_design::Process;
use sim_run::{Design, Finished, Options, Record, RunError, WaveStore};
use sim_store::{Step, StoreError};
use std::alloc::{AllocError, Global};

/// The store of a design at the start of its run.
pub fn store_of(
    alloc: Global,
    design: Design,
    options: &Options,
) -> Result<WaveStore, (StoreError, Design)> {
    let (stop, limit) = (options.stop, options.limit);
    match WaveStore::new(alloc, design, stop, limit) {
        Err((StoreError::Memory, design)) => WaveStore::new(alloc, design, stop, limit),
        made => made,
    }
}

/// The job of a process.
pub fn job_of(alloc: Global, store: &WaveStore, process: usize) -> Result<Job, StoreError> {
    match store.job(alloc, process) {
        Err(StoreError::Memory) => store.job(alloc, process),
        job => job,
    }
}

/// The result of a job.
pub fn result_of(alloc: Global, job: Job) -> Result<Done, (AllocError, Job)> {
    match Done::run(alloc, job) {
        Err((_, job)) => Done::run(alloc, job),
        done => done,
    }
}

/// Executes a process.
fn execute(alloc: Global, store: &mut WaveStore, process: usize) -> Result<()> {
    let job = job_of(alloc, store, process)?;
    let Ok(done) = result_of(alloc, job) else {
        bail!("Memory");
    };
    match store.deposit(done) {
        Ok(()) => Ok(()),
        Err((fault, _)) => bail!("{fault}"),
    }
}

/// Executes the process at an index of those that are due.
fn execute_at(alloc: Global, store: &mut WaveStore, place: usize) -> Result<()> {
    match store.due().get(place).copied() {
        Some(process) => execute(alloc, store, process),
        None => Ok(()),
    }
}

/// Executes the processes that are due.
fn execute_due(alloc: Global, store: &mut WaveStore) -> Result<()> {
    for place in 0..store.due().len() {
        execute_at(alloc, store, place)?;
    }
    Ok(())
}

/// Goes on to the next phase of a run.
pub fn advance(alloc: Global, store: &mut WaveStore) -> Result<Step, StoreError> {
    match store.advance(alloc) {
        Err(StoreError::Memory) => store.advance(alloc),
        step => step,
    }
}

/// The records of a run from a number on.
pub fn records_since(
    alloc: Global,
    store: &WaveStore,
    number: usize,
) -> Result<Vec<Record>, StoreError> {
    match store.records_since(alloc, number) {
        Err(StoreError::Memory) => store.records_since(alloc, number),
        records => records,
    }
}

/// Reads all records of a run, and checks their number against a look at it.
fn check_records(alloc: Global, store: &WaveStore) -> Result<()> {
    let records = records_since(alloc, store, 0)?;
    if records.len() != store.look().records {
        bail!("records are missing");
    }
    Ok(())
}

/// The code of a process.
pub fn code_of(alloc: Global, process: &Process) -> Result<Code, AllocError> {
    match Code::of(alloc, process) {
        Err(_refused) => Code::of(alloc, process),
        code => code,
    }
}

/// Makes the code of each process of a design.
pub fn make_codes(alloc: Global, design: &Design) -> Result<()> {
    for process in design.processes() {
        let _code = code_of(alloc, process)?;
    }
    Ok(())
}

/// Carries a run to its end, and returns how it ends.
pub fn run(alloc: Global, store: &mut WaveStore) -> Result<Step> {
    // (in each cycle, postponed processes have a phase after that of the others)
    let most = 2 * u64::from(store.limit()) + 2;
    for _part in 0..most {
        execute_due(alloc, store)?;
        let step = advance(alloc, store)?;
        if !matches!(step, Step::Next | Step::Postponed) {
            check_records(alloc, store)?;
            return Ok(step);
        }
    }
    bail!("the run has no end")
}

/// The history of a run.
pub fn finished(alloc: Global, store: &WaveStore) -> Result<Finished, RunError> {
    match Finished::of(alloc, store) {
        Err(RunError::Memory) => Finished::of(alloc, store),
        found => found,
    }
}
