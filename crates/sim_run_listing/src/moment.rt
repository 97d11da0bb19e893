//! The place of a walk through the entries of a log, among times and delta numbers.
ghost use Rattle.std.specs.Prelude.{◌≡◌, ◌+◌, ◌^◌, ◌<◌, ◌≤◌, length, [], ◌∷◌};
ghost use Rattle.sim_store_state.specs.Log.{count_times};
ghost use Rattle.sim_run_listing.specs.Moments.{moment_after, in_next_delta, start_of, at_next_time};

use crate::head::Head;
use sim_store_state::{Entry, Past};

/// The time and the delta number of a record, and how many times have begun up to it.
#[derive(Drop)]
pub struct Moment {
    pub time: u64,
    pub delta: u64,
    pub passed: usize,
}

impl Moment {
    /// The moment of the last record that was given away. The start of a line is set to it.
    pub fn new(head: &mut Head, past: Past) -> Moment
        ensures value { result ≡ record { time = past.time; delta = past.delta; passed = 0 } }
        ensures head { head.new.text ≡ start_of result }
    {
        head.set(past.time, past.delta);
        Moment {
            time: past.time,
            delta: past.delta,
            passed: 0,
        }
    }

    /// Goes on to a record of a delta cycle, and sets the start of its lines.
    #[inline(always)]
    fn next_delta(&mut self, head: &mut Head)
        requires { self.old.delta + 1 < 2 ^ 64 }
        ensures moment { self.new ≡ in_next_delta self.old }
        ensures head { head.new.text ≡ start_of self.new }
    {
        self.delta += 1;
        head.set(self.time, self.delta);
    }

    /// Goes on to a record at the next time, and sets the start of its lines.
    #[inline(always)]
    fn next_time(&mut self, head: &mut Head, times: &[u64])
        requires { self.old.passed < length times.now }
        ensures moment { self.new ≡ at_next_time times.now self.old }
        ensures head { head.new.text ≡ start_of self.new }
    {
        self.time = times[self.passed];
        self.passed += 1;
        self.delta = 0;
        head.set(self.time, 0);
    }

    /// Goes on to the record that begins with an entry, if one does, and sets the start of its
    /// lines.
    #[inline(always)]
    pub fn pass(&mut self, head: &mut Head, times: &[u64], entry: Entry)
        requires few { self.old.delta + 1 < 2 ^ 64 }
        requires times { self.old.passed + count_times (entry ∷ []) ≤ length times.now }
        requires head { head.old.text ≡ start_of self.old }
        ensures moment { self.new ≡ moment_after times.now self.old entry }
        ensures head { head.new.text ≡ start_of self.new }
    {
        match entry {
            Entry::Change(_, _) => {}
            Entry::Delta(_, _) | Entry::QuietDelta => self.next_delta(head),
            Entry::Time(_, _) | Entry::QuietTime => self.next_time(head, times),
        }
    }
}
