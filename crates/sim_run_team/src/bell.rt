//! Waiting for another thread.

use std::sync::Wait;
use std::sync::atomic::{AtomicU64, Ordering};

/// Wakes a sleeping thread. A thread that waits announces it, looks once more, and sleeps; another
/// one rings after its message is there. So no message is missed.
#[derive(Drop)]
pub struct Bell {
    /// 1 if a thread sleeps or is about to.
    asleep: AtomicU64,
}

impl Bell {
    /// A bell that no thread waits for.
    pub fn new() -> Bell {
        Bell {
            asleep: AtomicU64::new(0),
        }
    }

    /// Wakes the sleeping thread. If none sleeps, this costs one load.
    #[inline(always)]
    pub fn ring(&self) {
        if self.asleep.load(Ordering::SeqCst) != 0 {
            self.wake();
        }
    }

    /// Wakes the sleeping thread.
    #[inline(never)]
    fn wake(&self) {
        self.asleep.store(0, Ordering::SeqCst);
        self.asleep.wake_one();
    }

    /// Announces that the calling thread is about to sleep.
    pub fn announce(&self) {
        self.asleep.store(1, Ordering::SeqCst);
    }

    /// Withdraws the announcement.
    pub fn withdraw(&self) {
        self.asleep.store(0, Ordering::SeqCst);
    }

    /// Sleeps until the bell rings, if it has not rung since the announcement.
    pub fn sleep<R: Wait>(&self, rt: &R) {
        self.asleep.park(rt, 1);
    }
}
