//! Gates that watch.

use sim_run::Gate;
use std::sync::atomic::{AtomicU64, Ordering};
use std::thread;

/// The number of looks of a held process for the other one.
const MOST_TURNS: u32 = 100_000_000;

/// Counts executions.
#[derive(Drop)]
pub struct Counting {
    calls: AtomicU64,
}

impl Counting {
    pub fn new() -> Counting {
        Counting {
            calls: AtomicU64::new(0),
        }
    }

    /// How many there were.
    pub fn calls(&self) -> u64 {
        self.calls.load(Ordering::SeqCst)
    }
}

impl Gate for Counting {
    fn before(&self, _process: usize) {
        self.calls.fetch_add(1, Ordering::SeqCst);
    }
}

/// Holds one process until another is about to be executed for the first time, and counts the
/// executions of three processes.
#[derive(Drop)]
pub struct Meeting {
    held: usize,
    awaited: usize,
    has_come: AtomicU64,
    is_missed: AtomicU64,
    first: Counting,
    second: Counting,
    third: Counting,
}

impl Meeting {
    pub fn new(held: usize, awaited: usize) -> Meeting {
        Meeting {
            held,
            awaited,
            has_come: AtomicU64::new(0),
            is_missed: AtomicU64::new(0),
            first: Counting::new(),
            second: Counting::new(),
            third: Counting::new(),
        }
    }

    /// Whether the other process came while the first was held.
    pub fn is_met(&self) -> bool {
        self.has_come.load(Ordering::SeqCst) == 1 && self.is_missed.load(Ordering::SeqCst) == 0
    }

    /// The number of executions of each process.
    pub fn calls(&self) -> (u64, u64, u64) {
        (self.first.calls(), self.second.calls(), self.third.calls())
    }

    /// Waits until the other has come.
    fn hold(&self) {
        for _turn in 0..MOST_TURNS {
            if self.has_come.load(Ordering::SeqCst) == 1 {
                return;
            }
            thread::yield_now();
        }
        self.is_missed.store(1, Ordering::SeqCst);
    }

    /// Counts an execution.
    fn count(&self, process: usize) {
        match process {
            0 => self.first.before(process),
            1 => self.second.before(process),
            _ => self.third.before(process),
        }
    }
}

impl Gate for Meeting {
    fn before(&self, process: usize) {
        self.count(process);
        if process == self.awaited {
            self.has_come.store(1, Ordering::SeqCst);
        }
        if process == self.held {
            self.hold();
        }
    }
}

/// Holds each process until this many are about to be executed.
#[derive(Drop)]
pub struct Crowd {
    awaited: u64,
    come: Counting,
    is_missed: AtomicU64,
}

impl Crowd {
    pub fn new(awaited: u64) -> Crowd {
        Crowd {
            awaited,
            come: Counting::new(),
            is_missed: AtomicU64::new(0),
        }
    }

    /// Whether all came while the first was held.
    pub fn is_met(&self) -> bool {
        self.come.calls() >= self.awaited && self.is_missed.load(Ordering::SeqCst) == 0
    }
}

impl Gate for Crowd {
    fn before(&self, process: usize) {
        self.come.before(process);
        for _turn in 0..MOST_TURNS {
            if self.come.calls() >= self.awaited {
                return;
            }
            thread::yield_now();
        }
        self.is_missed.store(1, Ordering::SeqCst);
    }
}
