//! Sets of numbers below a bound, with a list of their members.

ghost use Rattle.std.specs.Prelude.{ℕ, ◌≡◌, ◌<◌, ◌≤◌, ◌-◌, ◌↔◌, length, true, false, []};
ghost use Rattle.std.specs.Prelude.{replicate, slice_set, slice_index_or, vec_capacity, vec_len, IfNone, IfOk, IfSome, IsTrue, MatchOption};
ghost use Rattle.std.specs.List.{insert};
ghost use Rattle.sim_containers.specs.Words.{IsNext, IsOnly, NoneFrom};
ghost use Rattle.sim_containers.specs.Numbers.{is_in, members};

use crate::bit_set::BitSet;
use crate::stamps::Stamps;
use std::alloc::{AllocError, Global};
use std::marker::Model;
use std::mem;

/// A number keeps the list in order if it belongs before at most this many members.
const NEAR: usize = 8;

/// A set of numbers below a bound. In contracts it is a list that says for each number whether it
/// is a member. The members are also in `list`, in order, while `is_listed`, and otherwise in
/// `bits`; the other of the two is empty. So a walk and a clear cost as much as there are members,
/// whatever their order of insertion.
pub struct NumberSet {
    marks: Stamps,
    list: Vec<usize>,
    is_listed: bool,
    /// Above every member.
    end: usize,
    bits: BitSet,
}

/// Written by hand so that code which drops it needs no proof about its contents.
impl Drop for NumberSet {
    fn drop(self) {
        let NumberSet {
            marks,
            list,
            is_listed: _,
            end: _,
            bits,
        } = self;
        drop(marks);
        drop(list);
        drop(bits);
    }
}

impl Model for NumberSet {
    ghost use Rattle.std.specs.Prelude.{Bool, List, vec_capacity};
    ghost use Rattle.sim_containers.specs.Numbers.{IsListed};

    ghost Value = { List Bool };

    ghost view = { λ set. set.marks };

    ghost invariant = { λ set. IsListed set.marks set.bits set.list.items (vec_capacity set.list) set.is_listed set.end };
}

impl NumberSet {
    /// The empty set of numbers below `count`.
    pub fn new(alloc: Global, count: usize) -> Result<NumberSet, AllocError>
        ensures { IfOk result (λ set. set ≡ replicate count false) }
    {
        let marks = Stamps::new(alloc, count)?;
        let bits = BitSet::new(alloc, count)?;
        let list = Vec::with_capacity(alloc, count)?;
        Ok(NumberSet {
            marks,
            list,
            is_listed: true,
            end: 0,
            bits,
        })
    }

    /// The set of all numbers below `count`.
    pub fn full(alloc: Global, count: usize) -> Result<NumberSet, AllocError>
        ensures { IfOk result (λ set. set ≡ replicate count true) }
    {
        let mut set = NumberSet::new(alloc, count)?;
        insert_all(&mut set);
        Ok(set)
    }

    /// The bound.
    pub fn len(&self) -> usize
        ensures { result ≡ length self.now }
    {
        self.marks.len()
    }

    /// Whether there is no member.
    pub fn is_empty(&self) -> bool
        ensures { IsTrue result ↔ (self.now ≡ replicate (length self.now) false) }
    {
        match self.next_at(0, 0) {
            None => true,
            Some(_) => false,
        }
    }

    /// Whether there is no member, as far as is known without a search: nothing was added since the
    /// set was cleared.
    #[inline(always)]
    pub(crate) fn is_clear(&self) -> bool
        ensures { IsTrue result → self.now ≡ replicate (length self.now) false }
    {
        if self.end > 0 {
            return false;
        }
        true
    }

    /// Whether a number is a member. Numbers beyond the bound are not.
    pub fn contains(&self, number: usize) -> bool
        ensures { result ≡ is_in self.now number }
    {
        self.marks.contains(number)
    }

    /// Exchanges two sets. It does so field by field, since a move of a whole set is a call.
    #[inline(always)]
    pub fn swap(&mut self, other: &mut NumberSet)
        ensures first { self.new ≡ other.old }
        ensures second { other.new ≡ self.old }
    {
        mem::swap(&mut self.marks, &mut other.marks);
        mem::swap(&mut self.list, &mut other.list);
        mem::swap(&mut self.is_listed, &mut other.is_listed);
        mem::swap(&mut self.end, &mut other.end);
        mem::swap(&mut self.bits, &mut other.bits);
    }

    /// The only member. If there is one, this may still be `None`, unless the members were added in
    /// order since the set was empty.
    #[inline(always)]
    pub fn only(&self) -> Option<usize>
        ensures { IfSome result (IsOnly (is_in self.now)) }
    {
        if self.list.len() == 1 {
            return Some(self.list[0]);
        }
        None
    }

    /// The members, in order, if they were added nearly in order since the set was empty.
    #[inline(always)]
    pub fn listed(&self) -> Option<&[usize]>
        ensures { IfSome result (λ list. list.now ≡ members self.now) }
    {
        if self.is_listed {
            return Some(self.list.as_slice());
        }
        None
    }

    /// Adds a number. It takes no memory.
    #[inline(always)]
    pub fn insert(&mut self, number: usize)
        requires { number < length self.old }
        ensures { self.new ≡ slice_set self.old number true }
    {
        if number >= self.end {
            if self.is_listed {
                list_last(&mut self.list, &self.marks, number);
                self.marks.insert(number);
                self.end = number + 1;
                return;
            }
        }
        self.insert_within(number);
    }

    /// The same, for a number that may belong before others.
    #[inline(never)]
    fn insert_within(&mut self, number: usize)
        requires { number < length self.old }
        ensures { self.new ≡ slice_set self.old number true }
    {
        if self.marks.contains(number) {
            return;
        }
        if self.is_listed {
            if list_one(&mut self.list, &self.marks, number) {
                self.marks.insert(number);
                self.end = self.end.max(number + 1);
                return;
            }
        }
        self.insert_unlisted(number);
    }

    /// Adds a number to a set that is no longer listed.
    #[inline(always)]
    fn insert_unlisted(&mut self, number: usize)
        requires { number < length self.old }
        ensures { self.new ≡ slice_set self.old number true }
    {
        spill(&mut self.bits, &mut self.list, &self.marks, self.is_listed);
        self.is_listed = false;
        self.bits.put(number, true);
        self.marks.insert(number);
        self.end = self.end.max(number + 1);
    }

    /// Removes a number.
    #[inline(always)]
    pub fn remove(&mut self, number: usize)
        requires { number < length self.old }
        ensures { self.new ≡ slice_set self.old number false }
    {
        if number >= self.end {
            return;
        }
        self.take_out(number);
    }

    /// The same, for a number that may be a member.
    #[inline(never)]
    fn take_out(&mut self, number: usize)
        requires { number < length self.old }
        ensures { self.new ≡ slice_set self.old number false }
    {
        if !self.marks.contains(number) {
            return;
        }
        spill(&mut self.bits, &mut self.list, &self.marks, self.is_listed);
        self.is_listed = false;
        self.bits.put(number, false);
        self.marks.remove(number);
    }

    /// Adds or removes a number.
    pub fn put(&mut self, number: usize, is_member: bool)
        requires { number < length self.old }
        ensures { self.new ≡ slice_set self.old number is_member }
    {
        if is_member {
            self.insert(number);
        } else {
            self.remove(number);
        }
    }

    /// The least member that is at least `from`. A walk over the members is
    /// `while let Some(number) = set.next(from) { ..; from = number + 1; }`.
    #[inline(never)]
    pub fn next(&self, from: usize) -> Option<usize>
        ensures { MatchOption result (NoneFrom (is_in self.now) from) (IsNext (is_in self.now) from) }
    {
        if self.is_listed {
            let place = place_from(self.list.as_slice(), from);
            let found = at_place(self.list.as_slice(), place);
            return found;
        }
        self.bits.next(from)
    }

    /// The same. It is fast if the result is at `place` in the list. A walk is
    /// `while let Some(number) = set.next_at(place, from) { ..; place = place.wrapping_add(1);
    /// from = number + 1; }`, with 0 for both at first.
    #[inline(always)]
    pub fn next_at(&self, place: usize, from: usize) -> Option<usize>
        ensures { MatchOption result (NoneFrom (is_in self.now) from) (IsNext (is_in self.now) from) }
    {
        if from >= self.end {
            return None;
        }
        if is_place(self.list.as_slice(), place, from) {
            return Some(self.list[place]);
        }
        self.next(from)
    }

    /// Removes all members. It visits them only if their order was lost.
    #[inline(always)]
    pub fn clear(&mut self)
        ensures { self.new ≡ replicate (length self.old) false }
    {
        if self.end == 0 {
            return;
        }
        self.marks.clear();
        self.list.clear();
        clear_marked(&mut self.bits, self.is_listed);
        self.is_listed = true;
        self.end = 0;
    }

    /// Makes the set equal to another one. It visits members alone.
    pub fn copy_from(&mut self, others: &NumberSet)
        requires { length others.now ≡ length self.old }
        ensures { self.new ≡ others.now }
    {
        self.clear();
        insert_each(self, others);
    }

    /// Replaces the contents of `numbers` by the members, in order. It takes no memory.
    #[inline(always)]
    pub fn list(&self, numbers: &mut Vec<usize>)
        requires { length self.now ≤ vec_capacity numbers.old }
        ensures numbers { numbers.new.items ≡ members self.now }
        ensures capacity { vec_capacity numbers.old ≤ vec_capacity numbers.new }
    {
        if let [only] = self.list.as_slice() {
            numbers.clear();
            numbers.push_reserved(*only);
            return;
        }
        self.list_all(numbers);
    }

    /// The same, for any number of members.
    #[inline(never)]
    fn list_all(&self, numbers: &mut Vec<usize>)
        requires { length self.now ≤ vec_capacity numbers.old }
        ensures numbers { numbers.new.items ≡ members self.now }
        ensures capacity { vec_capacity numbers.old ≤ vec_capacity numbers.new }
    {
        numbers.clear();
        if self.is_listed {
            push_each(numbers, self.list.as_slice());
            return;
        }
        push_marked(numbers, &self.bits);
    }
}

/// The index in an ascending list at which a number belongs, if it is near the end.
fn place_for(list: &[usize], number: usize) -> Option<usize>
    ensures { IfSome result (λ k. (k ≤ length list.now)
        × ((i : ℕ) → i < length list.now → k ≤ i → number ≤ slice_index_or list.now i 0)
        × (0 < k → slice_index_or list.now (k - 1) 0 ≤ number)) }
{
    let mut place = list.len();
    for _turn in 0..NEAR {
        if place == 0 {
            return Some(0);
        }
        if list[place - 1] <= number {
            return Some(place);
        }
        place -= 1;
    }
    None
}

/// Inserts a number into a list that has room for it.
fn put_before(list: &mut Vec<usize>, place: usize, number: usize)
    requires place { place ≤ vec_len list.old }
    requires room { vec_len list.old < vec_capacity list.old }
    ensures items { list.new.items ≡ insert list.old.items place number }
    ensures capacity { vec_capacity list.old ≤ vec_capacity list.new }
{
    if place == list.len() {
        list.push_reserved(number);
        return;
    }
    match list.insert(place, number) {
        Ok(()) => {}
        Err(_) => unreachable!(),
    }
}

/// Appends a new member to the list of a set that has no member from it on.
#[inline(always)]
fn list_last(list: &mut Vec<usize>, set: &Stamps, number: usize)
    requires at { number < length set.now }
    requires none { NoneFrom (is_in set.now) number }
    requires listed { list.old.items ≡ members set.now }
    requires room { length set.now ≤ vec_capacity list.old }
    ensures listed { list.new.items ≡ members (slice_set set.now number true) }
    ensures capacity { vec_capacity list.new ≡ vec_capacity list.old }
{
    let _count = set.len();
    list.push_reserved(number);
}

/// Inserts a new member into the list if it belongs near the end; returns whether it does.
#[inline(never)]
fn list_one(list: &mut Vec<usize>, set: &Stamps, number: usize) -> bool
    requires at { number < length set.now }
    requires fresh { is_in set.now number ≡ false }
    requires listed { list.old.items ≡ members set.now }
    requires room { length set.now ≤ vec_capacity list.old }
    ensures listed { result ≡ true → list.new.items ≡ members (slice_set set.now number true) }
    ensures same { result ≡ false → list.new.items ≡ list.old.items }
    ensures capacity { vec_capacity list.old ≤ vec_capacity list.new }
{
    match place_for(list.as_slice(), number) {
        Some(place) => {
            put_before(list, place, number);
            true
        }
        None => false,
    }
}

/// Whether the members from a number on begin at an index of an ascending list.
#[inline(always)]
pub(crate) fn is_place(list: &[usize], place: usize, from: usize) -> bool
    ensures within { result ≡ true → place < length list.now }
    ensures from { result ≡ true → from ≤ slice_index_or list.now place 0 }
    ensures before { result ≡ true → 0 < place → slice_index_or list.now (place - 1) 0 < from }
{
    if place >= list.len() {
        return false;
    }
    if list[place] < from {
        return false;
    }
    place == 0 || list[place - 1] < from
}

/// The index at which the members from a number on begin in an ascending list.
pub(crate) fn place_from(list: &[usize], from: usize) -> usize
    ensures within { result ≤ length list.now }
    ensures from { result < length list.now → from ≤ slice_index_or list.now result 0 }
    ensures before { 0 < result → slice_index_or list.now (result - 1) 0 < from }
{
    let mut low = 0;
    let mut high = list.len();
    while low < high {
        let middle = low + (high - low) / 2;
        if list[middle] < from {
            low = middle + 1;
        } else {
            high = middle;
        }
    }
    low
}

/// The number at an index of a list.
#[inline(always)]
pub(crate) fn at_place(list: &[usize], place: usize) -> Option<usize>
    ensures some { IfSome result (λ n. (place < length list.now) × (n ≡ slice_index_or list.now place 0)) }
    ensures none { IfNone result (length list.now ≤ place) }
{
    if place < list.len() {
        Some(list[place])
    } else {
        None
    }
}

/// Moves the members from the list, if there is one, to the bits.
#[inline(always)]
fn spill(bits: &mut BitSet, list: &mut Vec<usize>, set: &Stamps, is_listed: bool)
    requires listed { is_listed ≡ true → list.old.items ≡ members set.now }
    requires clear { is_listed ≡ true → bits.old ≡ replicate (length set.now) false }
    requires marked { is_listed ≡ false → bits.old ≡ set.now }
    requires unlisted { is_listed ≡ false → list.old.items ≡ [] }
    ensures bits { bits.new ≡ set.now }
    ensures list { list.new.items ≡ [] }
    ensures capacity { vec_capacity list.new ≡ vec_capacity list.old }
{
    if !is_listed {
        return;
    }
    put_each(bits, list.as_slice(), set);
    list.clear();
}

/// Adds the members of a set, which are listed, to bits that are clear.
#[inline(never)]
fn put_each(bits: &mut BitSet, numbers: &[usize], set: &Stamps)
    requires listed { numbers.now ≡ members set.now }
    requires clear { bits.old ≡ replicate (length set.now) false }
    ensures { bits.new ≡ set.now }
{
    let _count = set.len();
    for place in 0..numbers.len() {
        bits.put(numbers[place], true);
    }
}

/// Appends the members of the bits to an empty list.
fn push_marked(list: &mut Vec<usize>, bits: &BitSet)
    requires empty { length list.old.items ≡ 0 }
    requires room { length bits.now ≤ vec_capacity list.old }
    ensures items { list.new.items ≡ members bits.now }
    ensures capacity { vec_capacity list.new ≡ vec_capacity list.old }
{
    let mut from = 0;
    while let Some(number) = bits.next(from) {
        list.push_reserved(number);
        from = number + 1;
    }
}

/// Clears bits, unless they are known to be clear.
#[inline(always)]
fn clear_marked(bits: &mut BitSet, is_clear: bool)
    requires { is_clear ≡ true → bits.old ≡ replicate (length bits.old) false }
    ensures { bits.new ≡ replicate (length bits.old) false }
{
    if is_clear {
        return;
    }
    bits.clear();
}

/// Adds each number below the bound.
fn insert_all(set: &mut NumberSet)
    ensures { set.new ≡ replicate (length set.old) true }
{
    for number in 0..set.len() {
        set.insert(number);
    }
}

/// Adds each member of another set.
fn insert_each(set: &mut NumberSet, others: &NumberSet)
    requires none { set.old ≡ replicate (length others.now) false }
    ensures { set.new ≡ others.now }
{
    let _count = others.len();
    let mut place = 0;
    let mut from = 0;
    while let Some(number) = others.next_at(place, from) {
        set.insert(number);
        place = place.wrapping_add(1);
        from = number + 1;
    }
}

/// Appends numbers to an empty list.
pub(crate) fn push_each(list: &mut Vec<usize>, numbers: &[usize])
    requires empty { length list.old.items ≡ 0 }
    requires room { length numbers.now ≤ vec_capacity list.old }
    ensures items { list.new.items ≡ numbers.now }
    ensures capacity { vec_capacity list.old ≤ vec_capacity list.new }
{
    match list.extend_from_slice(numbers) {
        Ok(()) => {}
        Err(_) => unreachable!(),
    }
}
