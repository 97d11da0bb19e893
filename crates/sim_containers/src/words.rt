//! Numbers as bits, 64 in each word.

ghost use Rattle.std.specs.Prelude.{ℕ, ◌≡◌, ◌≢◌, ◌<◌, ◌/◌, ◌%◌, ◌^◌, length, true, false, not, slice_index, IfOk, MatchOption, ◌≤◌, ◌*◌};
ghost use Rattle.sim_containers.specs.Words.{has, has_bit, uses, AreTops, IsNext, NoneFrom};

use std::alloc::{AllocError, Global};

/// The position of the least bit of a word.
fn lowest(word: u64) -> usize
    requires { 0 < word }
    ensures within { result < 64 }
    ensures here { has_bit word result ≡ true }
    ensures before { (i : ℕ) → i < result → has_bit word i ≡ false }
{
    word.trailing_zeros() as usize
}

/// The word with a bit set or cleared.
fn with(word: u64, place: usize, is_set: bool) -> u64
    requires { place < 64 }
    ensures here { has_bit result place ≡ is_set }
    ensures others { (i : ℕ) → i < 64 → i ≢ place → has_bit result i ≡ has_bit word i }
{
    if is_set {
        word | 1 << place
    } else {
        word & !(1 << place)
    }
}

/// The first bit of a word from a position on.
fn next_bit(word: u64, from: usize) -> Option<usize>
    requires { from < 64 }
    ensures { MatchOption result (NoneFrom (has_bit word) from) (λ i. (i < 64) × IsNext (has_bit word) from i) }
{
    let rest = word >> from;
    if rest == 0 {
        return None;
    }
    Some(from + lowest(rest))
}

/// Adds or removes a number.
pub fn mark(words: &mut Vec<u64>, number: usize, is_member: bool)
    requires { number / 64 < length words.old.items }
    ensures len { length words.new.items ≡ length words.old.items }
    ensures here { has words.new.items number ≡ is_member }
    ensures others { (m : ℕ) → m ≢ number → has words.new.items m ≡ has words.old.items m }
    ensures words { (k : ℕ) → k ≢ number / 64 → slice_index words.new.items k ≡ slice_index words.old.items k }
{
    let place = number / 64;
    let word = with(words[place], number % 64, is_member);
    words[place] = word;
}

/// Adds or removes a number, given whether it is a member now. It writes nothing if that does not
/// change.
pub fn mark_other(words: &mut Vec<u64>, number: usize, was_member: bool, is_member: bool)
    requires at { number / 64 < length words.old.items }
    requires was { has words.old.items number ≡ was_member }
    ensures len { length words.new.items ≡ length words.old.items }
    ensures here { has words.new.items number ≡ is_member }
    ensures others { (m : ℕ) → m ≢ number → has words.new.items m ≡ has words.old.items m }
{
    if was_member != is_member {
        mark(words, number, is_member);
    }
}

/// The first word in use from an index on.
fn next_used(words: &[u64], from: usize) -> Option<usize>
    ensures { MatchOption result (NoneFrom (uses words.now) from) (IsNext (uses words.now) from) }
{
    let mut place = from;
    while place < words.len() {
        if words[place] != 0 {
            return Some(place);
        }
        place += 1;
    }
    None
}

/// The first number from one on, by a search word by word.
fn next_top(tops: &[u64], from: usize) -> Option<usize>
    requires { (n : ℕ) → has tops.now n ≡ true → n < 2 ^ 64 }
    ensures { MatchOption result (NoneFrom (has tops.now) from) (IsNext (has tops.now) from) }
{
    let place = from / 64;
    if place >= tops.len() {
        return None;
    }
    if let Some(found) = next_bit(tops[place], from % 64) {
        return Some(place * 64 + found);
    }
    match next_used(tops, place + 1) {
        Some(further) => {
            let bit = lowest(tops[further]);
            Some(further * 64 + bit)
        }
        None => None,
    }
}

/// The first number from one on, if the rest of its own word has none. It is out of line to keep
/// the frequent case short.
#[inline(never)]
fn next_further(words: &[u64], tops: &[u64], from: usize) -> Option<usize>
    requires fits { (n : ℕ) → has words.now n ≡ true → n < 2 ^ 64 }
    requires tops { AreTops words.now tops.now }
    requires rest { NoneFrom (has_bit (slice_index words.now (from / 64))) (from % 64) }
    ensures { MatchOption result (NoneFrom (has words.now) from) (IsNext (has words.now) from) }
{
    match next_top(tops, from / 64 + 1) {
        Some(further) => {
            let bit = lowest(words[further]);
            Some(further * 64 + bit)
        }
        None => None,
    }
}

/// The first number from one on. The tops say which words are in use.
pub fn next_number(words: &[u64], tops: &[u64], from: usize) -> Option<usize>
    requires within { from / 64 < length words.now }
    requires fits { (n : ℕ) → has words.now n ≡ true → n < 2 ^ 64 }
    requires tops { AreTops words.now tops.now }
    ensures { MatchOption result (NoneFrom (has words.now) from) (IsNext (has words.now) from) }
{
    let place = from / 64;
    if let Some(found) = next_bit(words[place], from % 64) {
        return Some(place * 64 + found);
    }
    next_further(words, tops, from)
}

/// This number of words without a member.
pub fn zeros(alloc: Global, count: usize) -> Result<Vec<u64>, AllocError>
    ensures len { IfOk result (λ words. length words.items ≡ count) }
    ensures none { IfOk result (λ words. (k : ℕ) → slice_index words.items k ≡ 0) }
{
    let words = Vec::from_elem(alloc, 0, count)?;
    Ok(words)
}

/// Clears each word in use, and its top. No word after `last` is in use.
pub fn clear_used(words: &mut Vec<u64>, tops: &mut Vec<u64>, last: usize)
    requires room { length words.old.items ≤ 64 * length tops.old.items }
    requires tops { AreTops words.old.items tops.old.items }
    requires last { (k : ℕ) → last < k → slice_index words.old.items k ≡ 0 }
    ensures len { length words.new.items ≡ length words.old.items }
    ensures none { (k : ℕ) → slice_index words.new.items k ≡ 0 }
    ensures tops_len { length tops.new.items ≡ length tops.old.items }
    ensures no_tops { (k : ℕ) → has tops.new.items k ≡ false }
{
    let mut from = 0;
    while from <= last {
        match next_top(tops.as_slice(), from) {
            Some(place) => {
                words[place] = 0;
                mark(tops, place, false);
                from = place + 1;
            }
            None => return,
        }
    }
}
