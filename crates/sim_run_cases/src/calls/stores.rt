//! Rows of calls of a store. A call that finds no memory is made once more, with the same store.

use crate::calls::execution::{self, advance, job_of, records_since, result_of};
use crate::calls::rows::TOGGLE;
use sim_exec::Done;
use sim_run::{Options, RunError, WaveStore, elaborate};
use sim_store::{Look, Step, StoreError};
use std::alloc::Global;

/// Two drivers that contradict each other.
const TWO_DRIVERS: &str =
    "entity t is end;architecture a of t is signal s:std_logic;begin s <= '0'; s <= '1'; end;";

/// One signal, changed once.
const ONCE: &str =
    "entity t is end;architecture a of t is signal s:std_logic:='0';begin s <= '1' after 5 ns; end;";

/// A conditional waveform, whose condition is evaluated once before and once after it changes.
const CHOICE: &str =
    "entity t is end;architecture a of t is signal a,q:std_logic:='0';begin a <= '1' after 1 ns; \
q <= '1' after 8 ns when a = '0' else '1' after 9 ns; end;";

/// No process and no signal.
const EMPTY: &str = "entity t is end;architecture a of t is begin end;";

/// A time after the latest one, in femtoseconds.
const TOO_LATE: u64 = 4_611_686_018_427_387_904;

/// Lack of memory as the refusal of a run. No row has another refusal here.
fn of_run(fault: StoreError) -> RunError {
    match fault {
        StoreError::Memory => RunError::Memory,
        _ => RunError::Stranger,
    }
}

/// The store of a text at the start of its run.
fn store_of(alloc: Global, text: &str, options: &Options) -> Result<WaveStore, RunError> {
    let design = elaborate(alloc, text.as_bytes(), options)?;
    match execution::store_of(alloc, design, options) {
        Ok(store) => Ok(store),
        Err((fault, _design)) => Err(of_run(fault)),
    }
}

/// The result of a process.
fn done_of(alloc: Global, store: &WaveStore, process: usize) -> Result<Done, StoreError> {
    let job = job_of(alloc, store, process)?;
    match result_of(alloc, job) {
        Ok(done) => Ok(done),
        Err((_refused, _job)) => Err(StoreError::Memory),
    }
}

/// The results of these processes.
fn results_of(
    alloc: Global,
    store: &WaveStore,
    processes: &[usize],
) -> Result<Vec<Done>, StoreError> {
    let mut results = Vec::new(alloc);
    for process in processes {
        let done = done_of(alloc, store, *process)?;
        if results.push(done).is_err() {
            return Err(StoreError::Memory);
        }
    }
    Ok(results)
}

/// The refusal of a result, if it is refused.
fn deposit(store: &mut WaveStore, done: Done) -> Option<StoreError> {
    match store.deposit(done) {
        Ok(()) => None,
        Err((fault, _done)) => Some(fault),
    }
}

/// The refusal to go on, if there is one other than lack of memory.
fn refusal(alloc: Global, store: &mut WaveStore) -> Result<Option<StoreError>, StoreError> {
    match advance(alloc, store) {
        Ok(_step) => Ok(None),
        Err(StoreError::Memory) => Err(StoreError::Memory),
        Err(fault) => Ok(Some(fault)),
    }
}

/// The processes whose results are given back, one after another.
static PROCESSES: [usize; 4] = [0, 0, 1, 1];

/// For each of them, the refusal to go on before it, and the refusal of its result.
static REFUSALS: [(Option<StoreError>, Option<StoreError>); 4] = [
    (Some(StoreError::Missing { process: 0 }), None),
    (
        Some(StoreError::Missing { process: 1 }),
        Some(StoreError::Twice),
    ),
    (Some(StoreError::Missing { process: 1 }), None),
    (None, Some(StoreError::Stale)),
];

/// Whether a store refuses these results, and going on, as it should.
fn refuses(alloc: Global, store: &mut WaveStore, results: Vec<Done>) -> Result<bool, StoreError> {
    let mut right = true;
    for (done, wanted) in results.into_iter().zip(REFUSALS.iter()) {
        let going = refusal(alloc, store)?;
        let taking = deposit(store, done);
        right = right && going == wanted.0 && taking == wanted.1;
    }
    Ok(right)
}

/// The same, for results of its own.
fn refuses_own(alloc: Global, store: &mut WaveStore) -> Result<bool, StoreError> {
    let results = results_of(alloc, store, PROCESSES.as_slice())?;
    refuses(alloc, store, results)
}

/// Whether missing, repeated and late results are refused.
pub fn refuses_results(alloc: Global, options: &Options) -> Result<bool, RunError> {
    let mut store = store_of(alloc, TWO_DRIVERS, options)?;
    refuses_own(alloc, &mut store).map_err(of_run)
}

/// Whether a store refuses the result of another one.
fn is_foreign(alloc: Global, store: &mut WaveStore, other: &WaveStore) -> Result<bool, StoreError> {
    let done = done_of(alloc, other, 0)?;
    Ok(deposit(store, done) == Some(StoreError::Foreign))
}

/// Whether a result of another design is refused.
pub fn refuses_strangers(alloc: Global, options: &Options) -> Result<bool, RunError> {
    let mut store = store_of(alloc, ONCE, options)?;
    let other = store_of(alloc, TWO_DRIVERS, options)?;
    is_foreign(alloc, &mut store, &other).map_err(of_run)
}

/// Executes the process at an index of those that are due.
fn execute(alloc: Global, store: &mut WaveStore, place: usize) -> Result<(), StoreError> {
    let Some(process) = store.due().get(place).copied() else {
        return Ok(());
    };
    let done = done_of(alloc, store, process)?;
    match deposit(store, done) {
        None => Ok(()),
        Some(fault) => Err(fault),
    }
}

/// Executes the processes that are due, and goes on.
fn go_on(alloc: Global, store: &mut WaveStore) -> Result<Step, StoreError> {
    for place in 0..store.due().len() {
        execute(alloc, store, place)?;
    }
    advance(alloc, store)
}

/// The most cycles of a row.
const MOST: u32 = 10;

/// Carries a run to its end.
fn end(alloc: Global, store: &mut WaveStore) -> Result<(), StoreError> {
    for _part in 0..MOST {
        if go_on(alloc, store)? == Step::Finished {
            break;
        }
    }
    Ok(())
}

/// The end of the run of the conditional waveform.
const END: Look = Look {
    records: 4,
    time: 10_000_000,
    delta: 0,
    events: 2,
};

/// Whether a run that has ended reports how far it came, and has no more records.
fn tells(alloc: Global, store: &mut WaveStore) -> Result<bool, StoreError> {
    end(alloc, store)?;
    let none = records_since(alloc, store, 4)?;
    let is_behind = matches!(
        records_since(alloc, store, 9),
        Err(StoreError::Behind { records: 4 })
    );
    Ok(store.look() == END && none.is_empty() && is_behind)
}

/// Whether a run that has ended is reported correctly.
pub fn tells_its_end(alloc: Global, options: &Options) -> Result<bool, RunError> {
    let mut store = store_of(alloc, CHOICE, options)?;
    tells(alloc, &mut store).map_err(of_run)
}

/// Whether a store has no job for a process that is not due.
fn has_no_job(alloc: Global, store: &WaveStore) -> Result<bool, StoreError> {
    match job_of(alloc, store, 0) {
        Err(StoreError::Memory) => Err(StoreError::Memory),
        Err(StoreError::NotDue) => Ok(store.due().is_empty()),
        _ => Ok(false),
    }
}

/// Whether there is no job after the flip-flop has changed, which nothing reads.
fn comes_to_rest(alloc: Global, store: &mut WaveStore) -> Result<bool, StoreError> {
    go_on(alloc, store)?;
    go_on(alloc, store)?;
    has_no_job(alloc, store)
}

/// Whether processes that are not due have no job.
pub fn refuses_jobs(alloc: Global, options: &Options) -> Result<bool, RunError> {
    let mut store = store_of(alloc, TOGGLE, options)?;
    comes_to_rest(alloc, &mut store).map_err(of_run)
}

/// Whether a run without processes ends at once, and does not go on.
fn ends(alloc: Global, store: &mut WaveStore) -> Result<bool, StoreError> {
    let step = advance(alloc, store)?;
    let after = refusal(alloc, store)?;
    Ok(step == Step::Finished && after == Some(StoreError::Ended))
}

/// Whether a run that has ended does not go on.
pub fn refuses_more(alloc: Global, options: &Options) -> Result<bool, RunError> {
    let mut store = store_of(alloc, EMPTY, options)?;
    ends(alloc, &mut store).map_err(of_run)
}

/// Whether a stop time after the latest time is refused.
pub fn refuses_late_stops(alloc: Global, options: &Options) -> Result<bool, RunError> {
    let design = elaborate(alloc, EMPTY.as_bytes(), options)?;
    match WaveStore::new(alloc, design, TOO_LATE, options.limit) {
        Ok(_store) => Ok(false),
        Err((StoreError::StopTooLate, _design)) => Ok(true),
        Err((fault, _design)) => Err(of_run(fault)),
    }
}
