//! Sets of numbers below a bound that are replaced as a whole and then walked.

ghost use Rattle.std.specs.Prelude.{ℕ, ◌≡◌, ◌==◌, ◌<◌, [], length, true, false, replicate, slice_index_or, IfOk, MatchOption};
ghost use Rattle.sim_containers.specs.Words.{IsNext, NoneFrom};
ghost use Rattle.sim_containers.specs.Numbers.{is_among, is_beside, is_in, members, RiseWithin};

use crate::numbers::{NumberSet, at_place, is_place, place_from, push_each};
use crate::rising_rows::RisingRows;
use std::alloc::{AllocError, Global};
use std::marker::Model;

/// A set of numbers below a bound, held as the list of its members, which rises. In contracts it is
/// a list that says for each number whether it is a member. Members are not added one by one: for
/// that there is `NumberSet`.
pub struct NumberList {
    numbers: Vec<usize>,
    bound: usize,
}

/// Written by hand so that code which drops it needs no proof about its contents.
impl Drop for NumberList {
    fn drop(self) {
        let NumberList { numbers, bound: _ } = self;
        drop(numbers);
    }
}

impl Model for NumberList {
    ghost use Rattle.std.specs.Prelude.{Bool, List, vec_capacity};
    ghost use Rattle.sim_containers.specs.Numbers.{IsListOf, set_with};

    ghost Value = { List Bool };

    ghost view = { λ list. set_with list.numbers.items list.bound };

    ghost invariant = { λ list. IsListOf list.numbers.items (vec_capacity list.numbers) list.bound };
}

impl NumberList {
    /// The empty set of numbers below `count`.
    pub fn new(alloc: Global, count: usize) -> Result<NumberList, AllocError>
        ensures { IfOk result (λ list. list ≡ replicate count false) }
    {
        let numbers = Vec::with_capacity(alloc, count)?;
        Ok(NumberList {
            numbers,
            bound: count,
        })
    }

    /// The bound.
    pub fn len(&self) -> usize
        ensures { result ≡ length self.now }
    {
        self.bound
    }

    /// The members, in order.
    #[inline(always)]
    pub fn numbers(&self) -> &[usize]
        ensures { result.now ≡ members self.now }
    {
        self.numbers.as_slice()
    }

    /// Whether a number is a member, which is found by halving. Numbers beyond the bound are not.
    pub fn contains(&self, number: usize) -> bool
        ensures { result ≡ is_in self.now number }
    {
        match self.next(number) {
            Some(next) => next == number,
            None => false,
        }
    }

    /// The least member that is at least `from`, which is found by halving.
    pub fn next(&self, from: usize) -> Option<usize>
        ensures { MatchOption result (NoneFrom (is_in self.now) from) (IsNext (is_in self.now) from) }
    {
        let place = place_from(self.numbers.as_slice(), from);
        at_place(self.numbers.as_slice(), place)
    }

    /// The same. It is fast if the result is at `place`.
    #[inline(always)]
    pub fn next_at(&self, place: usize, from: usize) -> Option<usize>
        ensures { MatchOption result (NoneFrom (is_in self.now) from) (IsNext (is_in self.now) from) }
    {
        if is_place(self.numbers.as_slice(), place, from) {
            return Some(self.numbers[place]);
        }
        self.next(from)
    }

    /// The least member that is at least `from` and not a member of another set.
    pub fn next_beside(&self, others: &NumberSet, from: usize) -> Option<usize>
        ensures { MatchOption result (NoneFrom (is_beside self.now others.now) from) (IsNext (is_beside self.now others.now) from) }
    {
        let first = place_from(self.numbers.as_slice(), from);
        find_beside(self, others, first, from)
    }

    /// Removes all members.
    #[inline(always)]
    pub fn clear(&mut self)
        ensures { self.new ≡ replicate (length self.old) false }
    {
        self.numbers.clear();
    }

    /// Makes a number the only member, if it is below the bound.
    #[inline(always)]
    pub fn set_only(&mut self, number: usize)
        ensures sized { length self.new ≡ length self.old }
        ensures only { (n : ℕ) → n < length self.old → is_in self.new n ≡ (number == n) }
    {
        self.numbers.clear();
        if number < self.bound {
            self.numbers.push_reserved(number);
        }
    }

    /// Makes the members those of another set. It takes no memory.
    #[inline(always)]
    pub fn set_from(&mut self, set: &NumberSet)
        requires { length set.now ≡ length self.old }
        ensures { self.new ≡ set.now }
    {
        set.list(&mut self.numbers);
    }

    /// Makes the numbers of a list the members, if it is known to rise and to be below the bound;
    /// returns whether it is. If not, nothing changes. It takes no memory, and looks at no number.
    #[inline(always)]
    pub fn set_rising(&mut self, rows: &RisingRows, number: usize) -> bool
        ensures sized { length self.new ≡ length self.old }
        ensures rising { result ≡ true → (n : ℕ) → is_in self.new n ≡ is_among (slice_index_or rows.now number []) n }
        ensures same { result ≡ false → self.new ≡ self.old }
    {
        if !rows.rises(number, self.bound) {
            return false;
        }
        self.set_to(rows.row(number));
        true
    }

    /// Makes these numbers the members, which rise and are below the bound.
    #[inline(always)]
    fn set_to(&mut self, numbers: &[usize])
        requires { RiseWithin 0 (length self.old) numbers.now }
        ensures sized { length self.new ≡ length self.old }
        ensures members { (n : ℕ) → is_in self.new n ≡ is_among numbers.now n }
    {
        if numbers.len() == 1 {
            let number = numbers[0];
            if number < self.len() {
                self.set_only(number);
                return;
            }
        }
        self.set_several(numbers);
    }

    /// The same, for any number of numbers.
    #[inline(never)]
    fn set_several(&mut self, numbers: &[usize])
        requires { RiseWithin 0 (length self.old) numbers.now }
        ensures sized { length self.new ≡ length self.old }
        ensures members { (n : ℕ) → is_in self.new n ≡ is_among numbers.now n }
    {
        self.numbers.clear();
        push_each(&mut self.numbers, numbers);
    }
}

/// Whether numbers rise and are below a bound.
pub(crate) fn rise_below(mut numbers: &[usize], bound: usize) -> bool
    ensures { result ≡ true → RiseWithin 0 bound numbers.entry.now }
{
    let mut least = 0;
    while let [number, rest @ ..] = numbers {
        if *number < least || *number >= bound {
            return false;
        }
        least = *number + 1;
        numbers = rest;
    }
    true
}

/// The least member that is at least `from` and not a member of another set. The members from
/// `from` on begin at `first`.
fn find_beside(list: &NumberList, others: &NumberSet, first: usize, from: usize) -> Option<usize>
    ensures { MatchOption result (NoneFrom (is_beside list.now others.now) from) (IsNext (is_beside list.now others.now) from) }
{
    let _count = list.len();
    let mut place = first;
    let mut least = from;
    while let Some(number) = list.next_at(place, least) {
        if !others.contains(number) {
            return Some(number);
        }
        place = place.wrapping_add(1);
        least = number + 1;
    }
    None
}
