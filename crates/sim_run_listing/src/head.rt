//! The start of a line.

ghost use Rattle.std.specs.Prelude.{◌≡◌, ◌+◌, ◌%◌, ◌<◌, ◌≤◌, ◌++◌, length, take, codes, decimal, true};

use crate::copying::{copy_to, put_chunk};
use itoa::{Buffer, write_digits};
use std::marker::Model;

/// The number of bytes that are copied for a start, which has at most this many.
pub const WIDTH: usize = 48;

/// Where the digits of the time end.
const TIME_END: usize = 20;

/// The number of digits at the end of a time that are not written anew, if those of the time before
/// are the same. Most times of a run end alike, since they are whole nanoseconds in femtoseconds.
const LOW_DIGITS: usize = 6;

/// The number of values that these digits can have. A time below it may have fewer digits.
const LOW_VALUES: u64 = 1_000_000;

/// Where the digits of the delta number start.
const DELTA: usize = 21;

/// The start of each line of a cycle: two numbers. The digits of the time stay for the next cycle.
#[derive(Drop)]
pub struct Head {
    bytes: [u8; 68],
    start: usize,
    end: usize,
    time: u64,
    /// The value of the last six digits of the time.
    low: u64,
}

impl Model for Head {
    ghost use Rattle.std.specs.Prelude.{◌≡◌, ◌%◌, ◌≤◌, ◌++◌, slice_range, codes, decimal};
    ghost use Rattle.sim_run_listing.specs.Head.{TimedText};

    ghost Value = { TimedText };

    ghost view = { λ s. record { time = s.time; text = slice_range s.bytes s.start s.end } };

    ghost invariant = { λ s. (s.start ≤ 20) × (21 ≤ s.end) × (s.end ≤ 42) × (slice_range s.bytes s.start 21 ≡ decimal s.time ++ codes " ")
        × (s.low ≡ s.time % 1000000) };
}

impl Head {
    /// A start with the digits of time 0.
    pub fn new() -> Head {
        Head {
            bytes: *b"00000000000000000000 00000000000000000000000000000000000000000000000",
            start: 19,
            end: DELTA,
            time: 0,
            low: 0,
        }
    }

    /// Writes all digits of a time.
    #[inline(never)]
    fn set_all_digits(&mut self, time: u64, low: u64)
        requires { low ≡ time % LOW_VALUES }
        ensures { self.new.time ≡ time }
    {
        self.start = write_digits(time, &mut self.bytes, TIME_END);
        self.bytes[TIME_END] = b' ';
        self.time = time;
        self.low = low;
    }

    /// Writes the digits of a time before its last six, which the time before has left there.
    #[inline(always)]
    fn set_high_digits(&mut self, time: u64)
        requires long { (LOW_VALUES ≤ time) × (LOW_VALUES ≤ self.old.time) }
        requires same { self.old.time % LOW_VALUES ≡ time % LOW_VALUES }
        ensures { self.new.time ≡ time }
    {
        self.start = write_digits(time / LOW_VALUES, &mut self.bytes, TIME_END - LOW_DIGITS);
        self.time = time;
    }

    /// Whether the last six digits of a time are there, and others before them in both times.
    #[inline(always)]
    fn has_low_digits(&self, time: u64, low: u64) -> bool
        requires { low ≡ time % LOW_VALUES }
        ensures long { result ≡ true → (LOW_VALUES ≤ time) × (LOW_VALUES ≤ self.now.time) }
        ensures same { result ≡ true → self.now.time % LOW_VALUES ≡ time % LOW_VALUES }
    {
        if low != self.low {
            return false;
        }
        if time < LOW_VALUES {
            return false;
        }
        self.time >= LOW_VALUES
    }

    /// Writes the digits of a time.
    fn set_time(&mut self, time: u64)
        ensures { self.new.time ≡ time }
    {
        let low = time % LOW_VALUES;
        if self.has_low_digits(time, low) {
            self.set_high_digits(time);
        } else {
            self.set_all_digits(time, low);
        }
    }

    /// Writes the digits of a time, unless they are there.
    #[inline(always)]
    fn keep_time(&mut self, time: u64)
        ensures { self.new.time ≡ time }
    {
        if self.time != time {
            self.set_time(time);
        }
    }

    /// Writes a delta number of any length after the time.
    #[inline(never)]
    fn set_long_delta(&mut self, delta: u64)
        ensures { self.new.text ≡ decimal self.old.time ++ codes " " ++ decimal delta ++ codes " " }
    {
        let mut text = Buffer::new();
        let digits = text.format(delta).as_bytes();
        let end = DELTA + digits.len();
        copy_to(&mut self.bytes, DELTA, digits);
        self.bytes[end] = b' ';
        self.end = end + 1;
    }

    /// Writes a delta number of one digit after the time.
    #[inline(always)]
    fn set_short_delta(&mut self, delta: u64)
        requires { delta < 10 }
        ensures { self.new.text ≡ decimal self.old.time ++ codes " " ++ decimal delta ++ codes " " }
    {
        self.bytes[DELTA] = b'0' + delta as u8;
        self.bytes[DELTA + 1] = b' ';
        self.end = DELTA + 2;
    }

    /// Writes `TIME DELTA `.
    #[inline(always)]
    pub fn set(&mut self, time: u64, delta: u64)
        ensures { self.new.text ≡ decimal time ++ codes " " ++ decimal delta ++ codes " " }
    {
        self.keep_time(time);
        if delta < 10 {
            self.set_short_delta(delta);
        } else {
            self.set_long_delta(delta);
        }
    }

    /// The text.
    pub fn as_slice(&self) -> &[u8]
        ensures { result.now ≡ self.now.text }
    {
        &self.bytes[self.start..self.end]
    }

    /// The number of bytes of the text.
    #[inline(always)]
    pub fn len(&self) -> usize
        ensures value { result ≡ length self.now.text }
        ensures fits { length self.now.text ≤ WIDTH }
    {
        self.end - self.start
    }

    /// Copies the text to a place. The bytes behind it may be any then.
    #[inline(always)]
    pub fn copy_to(&self, to: &mut [u8], at: usize)
        requires { at + WIDTH ≤ length to.old }
        ensures { take (at + length self.now.text) to.new ≡ take at to.old ++ self.now.text }
    {
        let bytes = &self.bytes[self.start..self.start + WIDTH];
        put_chunk::<WIDTH>(&mut to[at..at + WIDTH], bytes);
    }
}
