//! A board on which threads announce themselves.

use std::sync::atomic::{AtomicU64, Ordering};
use std::thread;

/// The number of looks of a thread for the others: it waits some seconds, and not forever.
const MOST_TURNS: u32 = 20_000_000;

/// The number of threads that have arrived.
#[derive(Drop)]
pub struct Board {
    arrived: AtomicU64,
}

impl Board {
    /// An empty board.
    pub fn new() -> Board {
        Board {
            arrived: AtomicU64::new(0),
        }
    }

    /// Records an arrival.
    pub fn arrive(&self) {
        self.arrived.fetch_add(1, Ordering::SeqCst);
    }

    /// Waits until this many have arrived; returns whether they have.
    pub fn has(&self, awaited: u64) -> bool {
        for _turn in 0..MOST_TURNS {
            if self.arrived.load(Ordering::SeqCst) >= awaited {
                return true;
            }
            thread::yield_now();
        }
        false
    }
}
