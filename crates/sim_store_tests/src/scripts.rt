//! Calls of a store, one after another, and its answers, as a line.

use crate::jobs::like;
use crate::line::Line;
use crate::texts::{flat, go_on};
use sim_exec::{Done, Job};
use sim_logic::Logic;
use sim_run::Finished;
use sim_store::{Look, Step, WaveStore};
use std::alloc::{AllocError, Global};

/// A call of a store.
#[derive(Clone, Copy)]
pub enum Call {
    /// Goes on.
    Advance,
    /// Takes the job of a process, executes it, and keeps the result.
    Run(usize),
    /// The same in the first cycle, with another value for the net at an index of its views.
    RunSeeing(usize, usize, Logic),
    /// Gives back the result that was kept at an index.
    Deposit(usize),
    /// The processes that are due.
    Due,
    /// How the run has ended.
    Ended,
    /// How far the run has come.
    Look,
    /// The records from a number on.
    Records(usize),
    /// The value of a net.
    Value(usize),
    /// The number of events of a net.
    Total(usize),
    /// How far the run has come, the processes that are due, and all records.
    State,
    /// The stop time, the limit, and the number of processes.
    Bounds,
    /// The names, records, cycles and events of a copy of the history.
    History,
}

/// A text, a stop time, a limit, and a number of cycles that come first; then the calls, and the
/// expected answers.
pub type Script<'a> = (&'a str, u64, u32, usize, &'a [Call], &'a str);

/// Results that are kept to be given back.
pub type KeptResults = Vec<Option<Done>>;

/// Executes a job, and keeps the result.
fn keep(line: &mut Line, alloc: Global, kept: &mut KeptResults, job: Job) {
    match kept.push(Done::run(alloc, job).ok()) {
        Ok(()) => line.put("done"),
        Err(_refused) => line.put("no memory"),
    }
}

/// Takes the job of a process, executes it, and keeps the result.
fn run(line: &mut Line, alloc: Global, store: &WaveStore, kept: &mut KeptResults, process: usize) {
    match store.job(alloc, process) {
        Err(refusal) => line.put_refusal(refusal),
        Ok(job) => keep(line, alloc, kept, job),
    }
}

/// A job like that of a process, with another value for the net at an index of its views.
fn job_like(
    alloc: Global,
    store: &WaveStore,
    process: usize,
    place: usize,
    value: Logic,
) -> Option<Job> {
    match store.job(alloc, process) {
        Err(_refused) => None,
        Ok(job) => like(alloc, store.design(), &job, place, value),
    }
}

/// Executes a job, if there is one, and keeps the result.
fn keep_any(line: &mut Line, alloc: Global, kept: &mut KeptResults, job: Option<Job>) {
    match job {
        None => line.put("none"),
        Some(job) => keep(line, alloc, kept, job),
    }
}

/// The result that was kept at an index.
fn kept_at(kept: &mut [Option<Done>], place: usize) -> Option<Done> {
    match kept.get_mut(place) {
        None => None,
        Some(done) => done.take(),
    }
}

/// Gives back a result.
fn deposit(line: &mut Line, store: &mut WaveStore, done: Option<Done>) {
    match done {
        None => line.put("none"),
        Some(done) => match store.deposit(done) {
            Ok(()) => line.put("done"),
            Err((refusal, _done)) => line.put_refusal(refusal),
        },
    }
}

/// Goes on.
fn advance(line: &mut Line, alloc: Global, store: &mut WaveStore) {
    match store.advance(alloc) {
        Ok(step) => line.put_step(step),
        Err(refusal) => line.put_refusal(refusal),
    }
}

/// Appends the processes that are due.
fn put_due(line: &mut Line, due: &[usize]) {
    for process in due {
        line.put_number(*process as u64);
        line.put(" ");
    }
}

/// Appends how a run has ended, if it has.
fn put_ended(line: &mut Line, ended: Option<Step>) {
    match ended {
        Some(step) => line.put_step(step),
        None => line.put("none"),
    }
}

/// Appends how far a run has come.
fn put_look(line: &mut Line, look: Look) {
    line.put_number(look.records as u64);
    line.put(" ");
    line.put_cycle(look.time, look.delta, &[]);
    line.put_number(look.events);
}

/// Appends the records from a number on, or the refusal.
fn put_records(line: &mut Line, alloc: Global, store: &WaveStore, number: usize) {
    match store.records_since(alloc, number) {
        Ok(records) => line.put_records(records.as_slice()),
        Err(refusal) => line.put_refusal(refusal),
    }
}

/// Appends how far a run has come, the processes that are due, and all records.
fn put_state(line: &mut Line, alloc: Global, store: &WaveStore) {
    put_look(line, store.look());
    line.put(";");
    put_due(line, store.due());
    line.put(";");
    put_records(line, alloc, store, 0);
}

/// Appends a value, if there is one.
fn put_value(line: &mut Line, value: Option<Logic>) {
    match value {
        Some(value) => line.put_value(value),
        None => line.put("none"),
    }
}

/// Appends a number, if there is one.
fn put_total(line: &mut Line, total: Option<u64>) {
    match total {
        Some(total) => line.put_number(total),
        None => line.put("none"),
    }
}

/// Appends the stop time, the limit, and the number of processes.
fn put_bounds(line: &mut Line, store: &WaveStore) {
    line.put_number(store.stop());
    line.put(" ");
    line.put_number(store.limit() as u64);
    line.put(" ");
    line.put_number(store.design().processes().len() as u64);
}

/// Appends a copy of a history.
fn put_finished(line: &mut Line, copy: &Finished) {
    for name in copy.names() {
        line.put(name.as_str());
        line.put(" ");
    }
    line.put_records(copy.records());
    line.put_number(copy.cycles() as u64);
    line.put(" ");
    line.put_number(copy.events());
}

/// Appends a copy of a store's history.
fn put_history(line: &mut Line, alloc: Global, store: &WaveStore) {
    match Finished::of(alloc, store) {
        Ok(copy) => put_finished(line, &copy),
        Err(_refused) => line.put("no memory"),
    }
}

/// Makes one call, and appends its answer.
fn put_answer(
    line: &mut Line,
    alloc: Global,
    store: &mut WaveStore,
    kept: &mut KeptResults,
    call: Call,
) {
    match call {
        Call::Advance => advance(line, alloc, store),
        Call::Run(process) => run(line, alloc, store, kept, process),
        Call::RunSeeing(process, place, value) => {
            keep_any(
                line,
                alloc,
                kept,
                job_like(alloc, store, process, place, value),
            )
        }
        Call::Deposit(place) => deposit(line, store, kept_at(kept.as_mut_slice(), place)),
        Call::Due => put_due(line, store.due()),
        Call::Ended => put_ended(line, store.ended()),
        Call::Look => put_look(line, store.look()),
        Call::Records(number) => put_records(line, alloc, store, number),
        Call::Value(net) => put_value(line, store.value(net)),
        Call::Total(net) => put_total(line, store.total(net)),
        Call::State => put_state(line, alloc, store),
        Call::Bounds => put_bounds(line, store),
        Call::History => put_history(line, alloc, store),
    }
}

/// Makes calls, one after another. They can use results that were kept before.
pub fn put_answers(
    line: &mut Line,
    alloc: Global,
    store: &mut WaveStore,
    kept: &mut KeptResults,
    calls: &[Call],
) {
    for call in calls {
        put_answer(line, alloc, store, kept, *call);
        line.put(";");
    }
}

/// Follows a script with a store of its own. It can use results that were kept before.
pub fn follow(line: &mut Line, alloc: Global, kept: &mut KeptResults, script: &Script<'_>) {
    let Some(design) = flat(alloc, script.0) else {
        return line.put("no design");
    };
    match WaveStore::new(alloc, design, script.1, script.2) {
        Err((refusal, _design)) => line.put_refusal(refusal),
        Ok(store) => {
            let mut store = store;
            go_on(alloc, &mut store, script.3);
            put_answers(line, alloc, &mut store, kept, script.4);
        }
    }
}
