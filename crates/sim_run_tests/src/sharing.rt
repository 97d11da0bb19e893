//! A store at which other threads look, or that several carry on together.

use crate::records::{begin_toggling, events, toggle};
use crate::texts::{TOGGLE, design, options, store};
use sim_run::{Open, WaveStore, run_in};
use std::alloc::Global;
use std::sync::{Mutex, Wait};
use std::test::Fail;
use std::thread::{self, Threads, join};

/// The most looks of a thread at a run that does not end.
const MOST_LOOKS: u32 = 100_000_000;

/// Carries on a store by two workers; returns whether its history is complete.
fn runs<R: Threads + Wait + Sync>(rt: &R, alloc: Global, store: &Mutex<WaveStore>) -> Option<bool> {
    let design = design(alloc, TOGGLE)?;
    let options = options(alloc, 10, 2)?;
    let finished = run_in(rt, alloc, store, &design, &options, &Open).ok()?;
    Some(toggle(finished.records()) && finished.events() == 5)
}

/// One look at a store: the number of its records, or `None` if they are not the first of the whole
/// run.
fn seen(alloc: Global, store: &WaveStore) -> Option<usize> {
    let look = store.look();
    let records = store.records_since(alloc, 0).ok()?;
    let fits = begin_toggling(records.as_slice())
        && records.len() == look.records
        && events(records.as_slice()) == look.events;
    if fits { Some(look.records) } else { None }
}

/// Looks at a store until its run has ended; returns whether each history was a beginning of the
/// whole, and none shorter than an earlier one.
fn watches<R: Wait>(rt: &R, alloc: Global, store: &Mutex<WaveStore>) -> Option<bool> {
    let mut longest = 0;
    for _look in 0..MOST_LOOKS {
        let records = seen(alloc, &store.lock(rt))?;
        if records < longest {
            return Some(false);
        }
        longest = records;
        if store.lock(rt).ended().is_some() {
            return Some(true);
        }
        thread::yield_now();
    }
    None
}

/// The records that a run has, and those that a thread sees which looks at it.
fn run_and_watch<R: Threads + Wait + Sync>(
    rt: &R,
    alloc: Global,
    store: &Mutex<WaveStore>,
) -> (Option<bool>, Option<bool>) {
    join(rt, || runs(rt, alloc, store), || watches(rt, alloc, store))
}

/// The records that two runs of one store have, at the same time.
fn run_twice<R: Threads + Wait + Sync>(
    rt: &R,
    alloc: Global,
    store: &Mutex<WaveStore>,
) -> (Option<bool>, Option<bool>) {
    join(rt, || runs(rt, alloc, store), || runs(rt, alloc, store))
}

/// Whether a run, and a thread that looks at it, see the same history.
fn are_watched<R: Threads + Wait + Sync>(rt: &R, alloc: Global) -> Option<bool> {
    let store = Mutex::new(store(alloc, TOGGLE, 10)?);
    let (run, look) = run_and_watch(rt, alloc, &store);
    Some(run? && look?)
}

/// Whether two runs of one store at the same time have the same history.
fn are_one<R: Threads + Wait + Sync>(rt: &R, alloc: Global) -> Option<bool> {
    let store = Mutex::new(store(alloc, TOGGLE, 10)?);
    let (one, other) = run_twice(rt, alloc, &store);
    Some(one? && other?)
}

#[test]
fn observers_see_prefixes_of_one_history(rt: HostRuntime) -> Result<(), Fail> {
    assert_eq!(rt; are_watched(&rt, rt.alloc()), Some(true));
    Ok(())
}

#[test]
fn two_runs_of_one_store_have_one_history(rt: HostRuntime) -> Result<(), Fail> {
    assert_eq!(rt; are_one(&rt, rt.alloc()), Some(true));
    Ok(())
}
