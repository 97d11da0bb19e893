//! Sets of numbers below a bound, as bits.

ghost use Rattle.std.specs.Prelude.{◌≡◌, ◌<◌, length, false, replicate, slice_set, IfOk, MatchOption};
ghost use Rattle.sim_containers.specs.Words.{IsNext, NoneFrom};
ghost use Rattle.sim_containers.specs.Numbers.{is_in};

use crate::words::{clear_used, mark, mark_other, next_number, zeros};
use std::alloc::{AllocError, Global};
use std::marker::Model;

/// A set of numbers below a bound, as bits in words. In contracts it is a list that says for each
/// number whether it is a member. `tops` has a bit for each word, set if the word is not 0, so that
/// a walk over the members skips the other words.
pub struct BitSet {
    words: Vec<u64>,
    tops: Vec<u64>,
    count: usize,
    /// Above every member, so that a walk ends right after the last one.
    end: usize,
}

/// Written by hand so that code which drops it needs no proof about its contents.
impl Drop for BitSet {
    fn drop(self) {
        let BitSet {
            words,
            tops,
            count: _,
            end: _,
        } = self;
        drop(words);
        drop(tops);
    }
}

impl Model for BitSet {
    ghost use Rattle.std.specs.Prelude.{Bool, List};
    ghost use Rattle.sim_containers.specs.Numbers.{set_of, IsBitSet};

    ghost Value = { List Bool };

    ghost view = { λ set. set_of set.words.items set.count };

    ghost invariant = { λ set. IsBitSet set.words.items set.tops.items set.count set.end };
}

impl BitSet {
    /// The empty set of numbers below `count`.
    pub fn new(alloc: Global, count: usize) -> Result<BitSet, AllocError>
        ensures { IfOk result (λ set. set ≡ replicate count false) }
    {
        let words = zeros(alloc, count / 64 + 1)?;
        let tops = zeros(alloc, count / 4096 + 1)?;
        Ok(BitSet {
            words,
            tops,
            count,
            end: 0,
        })
    }

    /// Adds or removes a number. A number above all members needs no removal.
    pub fn put(&mut self, number: usize, is_member: bool)
        requires { number < length self.old }
        ensures { self.new ≡ slice_set self.old number is_member }
    {
        if !is_member && number >= self.end {
            return;
        }
        let was_used = self.words[number / 64] != 0;
        mark(&mut self.words, number, is_member);
        let is_used = self.words[number / 64] != 0;
        mark_other(&mut self.tops, number / 64, was_used, is_used);
        self.end = self.end.max(number + 1);
    }

    /// The least member that is at least `from`. A walk over the members is
    /// `while let Some(number) = set.next(from) { ..; from = number + 1; }`.
    pub fn next(&self, from: usize) -> Option<usize>
        ensures { MatchOption result (NoneFrom (is_in self.now) from) (IsNext (is_in self.now) from) }
    {
        if from >= self.end {
            return None;
        }
        next_number(self.words.as_slice(), self.tops.as_slice(), from)
    }

    /// Removes all members. It touches only words in use.
    #[inline(never)]
    pub fn clear(&mut self)
        ensures { self.new ≡ replicate (length self.old) false }
    {
        if self.end == 0 {
            return;
        }
        clear_used(&mut self.words, &mut self.tops, self.end / 64);
        self.end = 0;
    }
}
