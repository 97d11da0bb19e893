//! Runs of a store under a lock, by one worker and by several: the answer, and the store that stays
//! in the lock.

use crate::gates::Crowd;
use crate::records::are_equal;
use crate::texts::{ENDLESS, EXCHANGE, ONCE, TOGGLE, TWO_DRIVERS, design, options, store};
use sim_run::{Finished, Open, Record, RunError, WaveStore, run_in, write_listing};
use std::alloc::Global;
use std::sync::{Mutex, Wait};
use std::test::Fail;
use std::thread::Threads;

/// A text, its cycle limit, and the listing of its run, or the reason why it has none.
struct Row {
    text: &'static str,
    limit: u32,
    listing: &'static [u8],
    refusal: Option<RunError>,
}

/// A pulse that an inertial delay of 5 ns swallows.
const PULSE: &str =
    "entity t is end;architecture a of t is signal a,q:std_logic;begin a <= '0', '1' after 10 ns, '0' after 13 ns; \
q <= a after 5 ns; end;";

/// A postponed process that waits for a delta cycle to pass.
const WAITING: &str =
    "entity t is end;architecture a of t is signal a,b,q:std_logic:='0';begin a <= '1' after 1 ns; b <= a; \
postponed process(a,b) variable v:std_logic:='0'; begin v := not v; q <= v after 1 ns; end postponed process; end;";

/// A postponed process that makes a delta cycle follow.
const DELTA: &str =
    "entity t is end;architecture a of t is signal a,q:std_logic:='0';begin a <= '1' after 1 ns; postponed q <= a; end;";

/// A postponed assignment, which is executed in the initialization.
const AT_ONCE: &str =
    "entity t is end;architecture a of t is signal s:std_logic:='0';begin postponed s <= '1'; end;";

/// A postponed process whose edge has passed when it is executed.
const LATE: &str =
    "entity t is end;architecture a of t is signal a,b,q:std_logic:='0';begin a <= '1' after 1 ns; b <= a; \
postponed process(a) begin if rising_edge(a) then q <= '1' after 1 ns; end if; end process; end;";

static ROWS: [Row; 11] = [
    Row {
        text: TWO_DRIVERS,
        limit: 10,
        listing: b"0 0 s U\n0 1 s X\ndone 1 1\n",
        refusal: None,
    },
    Row {
        text: PULSE,
        limit: 10,
        listing: b"0 0 a U\n0 0 q U\n0 1 a 0\n5000000 0 q 0\n10000000 0 a 1\n13000000 0 a 0\ndone 4 4\n",
        refusal: None,
    },
    Row {
        text: TOGGLE,
        limit: 10,
        listing: b"0 0 clk 0\n0 0 q U\n5000000 0 clk 1\n5000000 1 q 1\n10000000 0 clk 0\n15000000 0 clk 1\n15000000 1 q 0\ndone 5 5\n",
        refusal: None,
    },
    Row {
        text: EXCHANGE,
        limit: 10,
        listing: b"0 0 clk 0\n0 0 a 0\n0 0 b 1\n5000000 0 clk 1\n5000000 1 a 1\n5000000 1 b 0\ndone 2 3\n",
        refusal: None,
    },
    Row {
        text: WAITING,
        limit: 10,
        listing: b"0 0 a 0\n0 0 b 0\n0 0 q 0\n1000000 0 a 1\n1000000 0 q 1\n1000000 1 b 1\n2000000 0 q 0\ndone 4 4\n",
        refusal: None,
    },
    Row {
        text: AT_ONCE,
        limit: 10,
        listing: b"0 0 s 0\n0 1 s 1\ndone 1 1\n",
        refusal: None,
    },
    Row {
        text: LATE,
        limit: 10,
        listing: b"0 0 a 0\n0 0 b 0\n0 0 q 0\n1000000 0 a 1\n1000000 1 b 1\ndone 3 2\n",
        refusal: None,
    },
    Row {
        text: DELTA,
        limit: 10,
        listing: b"",
        refusal: Some(RunError::PostponedDelta),
    },
    Row {
        text: DELTA,
        limit: 2,
        listing: b"",
        refusal: Some(RunError::PostponedDelta),
    },
    Row {
        text: DELTA,
        limit: 1,
        listing: b"",
        refusal: Some(RunError::CycleLimit { limit: 1 }),
    },
    Row {
        text: ENDLESS,
        limit: 10,
        listing: b"",
        refusal: Some(RunError::CycleLimit { limit: 10 }),
    },
];

/// Whether a history has this listing.
fn is_listed(alloc: Global, finished: &Finished, listing: &[u8]) -> bool {
    let mut out = Vec::new(alloc);
    let written = write_listing(finished, &mut out);
    written == Ok(()) && out.as_slice() == listing
}

/// Whether a store has ended with exactly these records.
fn is_whole(alloc: Global, store: &WaveStore, records: &[Record]) -> bool {
    match store.records_since(alloc, 0) {
        Ok(found) => store.ended().is_some() && are_equal(found.as_slice(), records),
        Err(_refusal) => false,
    }
}

/// Whether the run of a row by this many workers gives the right answer, and leaves the whole run
/// in the lock.
fn is_answered<R: Threads + Wait + Sync>(
    rt: &R,
    alloc: Global,
    row: &Row,
    workers: usize,
) -> Option<bool> {
    let store = Mutex::new(store(alloc, row.text, row.limit)?);
    let design = design(alloc, row.text)?;
    let options = options(alloc, row.limit, workers)?;
    match run_in(rt, alloc, &store, &design, &options, &Open) {
        Ok(finished) => Some(
            row.refusal.is_none()
                && is_listed(alloc, &finished, row.listing)
                && is_whole(alloc, &store.lock(rt), finished.records()),
        ),
        Err(refusal) => Some(row.refusal == Some(refusal)),
    }
}

/// The index of the first row that this many workers answer wrongly.
fn first_wrong<R: Threads + Wait + Sync>(rt: &R, alloc: Global, workers: usize) -> Option<usize> {
    for (place, row) in ROWS.iter().enumerate() {
        if is_answered(rt, alloc, row, workers) != Some(true) {
            return Some(place);
        }
    }
    None
}

#[test]
fn results_do_not_depend_on_the_number_of_workers(rt: HostRuntime) -> Result<(), Fail> {
    for workers in [1, 2, 16] {
        assert_eq!(rt; first_wrong(&rt, rt.alloc(), workers), None);
    }
    Ok(())
}

/// The number of records of a stranger's store after a run refused it.
fn left_to_a_stranger<R: Threads + Wait + Sync>(rt: &R, alloc: Global) -> Option<usize> {
    let store = Mutex::new(store(alloc, ONCE, 10)?);
    let design = design(alloc, TWO_DRIVERS)?;
    let options = options(alloc, 10, 2)?;
    match run_in(rt, alloc, &store, &design, &options, &Open) {
        Err(RunError::Stranger) => Some(store.lock(rt).look().records),
        _ => None,
    }
}

#[test]
fn the_store_of_another_run_stays_as_it_was(rt: HostRuntime) -> Result<(), Fail> {
    assert_eq!(rt; left_to_a_stranger(&rt, rt.alloc()), Some(1));
    Ok(())
}

/// Sixteen processes, all of which are due at the start.
const SIXTEEN: &str =
    "entity t is end;architecture a of t is signal s:std_logic;begin s<='0';s<='0';s<='0';s<='0';s<='0';s<='0';s<='0';s<='0';\
s<='0';s<='0';s<='0';s<='0';s<='0';s<='0';s<='0';s<='0'; end;";

/// Whether a run by sixteen workers is complete, and all of them are about to execute a process at
/// the same time.
fn is_crowded<R: Threads + Wait + Sync>(
    rt: &R,
    alloc: Global,
    store: &Mutex<WaveStore>,
) -> Option<bool> {
    let design = design(alloc, SIXTEEN)?;
    let options = options(alloc, 10, 16)?;
    let gate = Crowd::new(16);
    let finished = run_in(rt, alloc, store, &design, &options, &gate).ok()?;
    Some(gate.is_met() && is_listed(alloc, &finished, b"0 0 s U\n0 1 s 0\ndone 1 1\n"))
}

/// The same for a new store.
fn is_crowded_at_once<R: Threads + Wait + Sync>(rt: &R, alloc: Global) -> Option<bool> {
    let store = Mutex::new(store(alloc, SIXTEEN, 10)?);
    is_crowded(rt, alloc, &store)
}

#[test]
fn sixteen_workers_execute_sixteen_processes_at_once(rt: HostRuntime) -> Result<(), Fail> {
    assert_eq!(rt; is_crowded_at_once(&rt, rt.alloc()), Some(true));
    Ok(())
}
