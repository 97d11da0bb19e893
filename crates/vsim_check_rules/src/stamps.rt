//! The times of events that have been.

use std::alloc::{AllocError, Global};
use std::collections::VecDeque;

/// The last time of an event, among those that lie back far enough.
#[derive(Drop)]
pub(crate) struct Stamps {
    /// How far an event has to lie back, in femtoseconds.
    age: u64,
    last: Option<u64>,
    /// Later times, which are not old enough yet. Where any event is old enough, there are none.
    waiting: VecDeque<u64>,
}

impl Stamps {
    /// No event has been.
    pub(crate) fn new(alloc: Global, age: u64) -> Stamps {
        Stamps {
            age,
            last: None,
            waiting: VecDeque::new(alloc),
        }
    }

    /// Whether the first of the times that wait is old enough at a time.
    fn is_due(&self, now: u64) -> bool {
        match self.waiting.front() {
            Some(first) => *first <= now.saturating_sub(self.age) && self.age <= now,
            None => false,
        }
    }

    /// Goes on to a time, and returns the last time that is old enough then.
    pub(crate) fn last(&mut self, now: u64) -> Option<u64> {
        for _ in 0..self.waiting.len() {
            if !self.is_due(now) {
                break;
            }
            self.last = self.waiting.pop_front();
        }
        self.last
    }

    /// Notes an event at a time, which is not before those that were noted.
    pub(crate) fn note(&mut self, now: u64) -> Result<(), AllocError> {
        if self.age == 0 {
            self.last = Some(now);
            return Ok(());
        }
        let _last = self.last(now);
        self.waiting.push_back(now)?;
        Ok(())
    }
}
