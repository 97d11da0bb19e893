//! The heap of times. It has an entry for each time that a driver was given; some are stale.

ghost use Rattle.std.specs.Prelude.{◌≡◌, ◌≢◌, ◌<◌, ◌≤◌, ◌+◌, ◌∷◌, ℕ, [], length, true, false, Option, None, Some, OnOk, OnErr, IsOk, IfSome};
ghost use Rattle.std.specs.Prelude.{IfNone, replicate, slice_index_or};
ghost use Rattle.std.specs.List.{Contains};
ghost use Rattle.std.specs.List.Sorted.{IsPermutation};
ghost use Rattle.std.specs.BinaryHeap.{heap_items, heap_len, heap_capacity, IsHeap};
ghost use Rattle.sim_containers.specs.Times.{cleared, is_at, those_at, time_of};
ghost use Rattle.sim_containers.specs.Entries.{Entry, entry, entry_cmp, is_live, HasLiveTop, IsTaking, NoneBefore, StandsBut};

use crate::numbers::NumberSet;
use std::alloc::AllocError;
use std::cmp::Reverse;
use std::collections::BinaryHeap;

/// The entries: a time in femtoseconds and a driver each, least first.
pub type Heap = BinaryHeap<Reverse<(u64, usize)>>;

/// Whether a time is there and is `time`.
pub fn is_time(found: Option<u64>, time: u64) -> bool
    ensures { result ≡ is_at time found }
{
    match found {
        Some(found) => found == time,
        None => false,
    }
}

/// Whether a driver has this time.
fn has_time(times: &[Option<u64>], time: u64, driver: usize) -> bool
    ensures { result ≡ is_at time (time_of times.now driver) }
{
    match times.get(driver) {
        Some(found) => is_time(*found, time),
        None => false,
    }
}

/// Whether the first entry is stale.
fn has_stale_top(heap: &Heap, times: &[Option<u64>]) -> bool
    ensures live { result ≡ false → HasLiveTop times.now (heap_items heap.now) }
    ensures some { result ≡ true → 0 < heap_len heap.now }
    ensures stale { result ≡ true → (x : Entry) → is_live times.now (slice_index_or (heap_items heap.now) 0 x) ≡ false }
{
    match heap.peek() {
        None => false,
        Some(Reverse((time, driver))) => !has_time(times, *time, *driver),
    }
}

/// Removes the first entry.
fn pop_top(heap: &mut Heap) -> Reverse<(u64, usize)>
    requires some { 0 < heap_len heap.old }
    requires order { IsHeap entry_cmp (heap_items heap.old) }
    ensures order { IsHeap entry_cmp (heap_items heap.new) }
    ensures top { result ≡ slice_index_or (heap_items heap.old) 0 result }
    ensures permutation { IsPermutation (heap_items heap.old) (result ∷ heap_items heap.new) }
    ensures len { heap_len heap.new + 1 ≡ heap_len heap.old }
{
    match heap.pop() {
        Some(entry) => entry,
        None => unreachable(),
    }
}

/// Removes stale entries from the top.
pub fn drop_stale(heap: &mut Heap, times: &[Option<u64>], now: u64, later: u64)
    requires order { IsHeap entry_cmp (heap_items heap.old) }
    requires stands { StandsBut now later times.now (heap_items heap.old) }
    ensures order { IsHeap entry_cmp (heap_items heap.new) }
    ensures stands { StandsBut now later times.now (heap_items heap.new) }
    ensures live { HasLiveTop times.now (heap_items heap.new) }
{
    while has_stale_top(heap, times) {
        pop_top(heap);
    }
}

/// Adds an entry for the time of a driver, if it has a time other than `now` and `later`.
pub fn add_entry(
    heap: &mut Heap,
    now: u64,
    later: u64,
    driver: usize,
    time: Option<u64>,
) -> Result<(), AllocError>
    requires order { IsHeap entry_cmp (heap_items heap.old) }
    ensures order { IsHeap entry_cmp (heap_items heap.new) }
    ensures kept { (e : Entry) → Contains (heap_items heap.old) e → Contains (heap_items heap.new) e }
    ensures added { OnOk result ((t : ℕ) → time ≡ Some t → t ≢ now → t ≢ later → Contains (heap_items heap.new) (entry t driver)) }
    ensures len { heap_len heap.new ≤ heap_len heap.old + 1 }
    ensures capacity { heap_capacity heap.old ≤ heap_capacity heap.new }
    ensures room { heap_len heap.old < heap_capacity heap.old → IsOk result }
    ensures err { OnErr result (heap_items heap.new ≡ heap_items heap.old) }
{
    match time {
        Some(time) if time != now && time != later => {
            heap.push(Reverse((time, driver)))?;
            Ok(())
        }
        _ => Ok(()),
    }
}

/// Adds such an entry to a heap that has room for it.
fn add_in_room(heap: &mut Heap, now: u64, later: u64, driver: usize, time: Option<u64>)
    requires room { heap_len heap.old < heap_capacity heap.old }
    requires order { IsHeap entry_cmp (heap_items heap.old) }
    ensures order { IsHeap entry_cmp (heap_items heap.new) }
    ensures kept { (e : Entry) → Contains (heap_items heap.old) e → Contains (heap_items heap.new) e }
    ensures added { (t : ℕ) → time ≡ Some t → t ≢ now → t ≢ later → Contains (heap_items heap.new) (entry t driver) }
    ensures len { heap_len heap.new ≤ heap_len heap.old + 1 }
    ensures capacity { heap_capacity heap.old ≤ heap_capacity heap.new }
{
    match add_entry(heap, now, later, driver, time) {
        Ok(()) => {}
        Err(_) => unreachable(),
    }
}

/// Makes the heap anew from the times, without stale entries.
fn rebuild(heap: &mut Heap, times: &[Option<u64>], now: u64, later: u64)
    requires { length times.now ≤ heap_capacity heap.old }
    ensures order { IsHeap entry_cmp (heap_items heap.new) }
    ensures stands { StandsBut now later times.now (heap_items heap.new) }
    ensures len { heap_len heap.new ≤ length times.now }
{
    heap.clear();
    for driver in 0..times.len() {
        add_in_room(heap, now, later, driver, times[driver]);
    }
}

/// Removes stale entries: all of them if they are more than half, else those at the top.
pub fn trim(heap: &mut Heap, times: &[Option<u64>], now: u64, later: u64)
    requires order { IsHeap entry_cmp (heap_items heap.old) }
    requires stands { StandsBut now later times.now (heap_items heap.old) }
    ensures order { IsHeap entry_cmp (heap_items heap.new) }
    ensures stands { StandsBut now later times.now (heap_items heap.new) }
    ensures live { HasLiveTop times.now (heap_items heap.new) }
{
    if heap.len() / 2 > times.len() {
        rebuild(heap, times, now, later);
        drop_stale(heap, times, now, later);
        return;
    }
    drop_stale(heap, times, now, later);
}

/// The first entry, if its time is at most `time`.
fn first_due(heap: &Heap, time: u64) -> Option<(u64, usize)>
    ensures some { IfSome result (λ due. (0 < heap_len heap.now) × (due.0 ≤ time)
        × ((x : Entry) → slice_index_or (heap_items heap.now) 0 x ≡ entry due.0 due.1)) }
    ensures none { IsHeap entry_cmp (heap_items heap.now) → IfNone result ((t d : ℕ)
        → Contains (heap_items heap.now) (entry t d) → time < t) }
{
    match heap.peek() {
        None => None,
        Some(Reverse((found, driver))) => {
            if *found <= time {
                Some((*found, *driver))
            } else {
                None
            }
        }
    }
}

/// Removes the first entry, whose time is at most `time`, and takes its driver if the entry is not
/// stale.
fn take_first(
    heap: &mut Heap,
    times: &[Option<u64>],
    now: u64,
    later: u64,
    time: u64,
    first: (u64, usize),
    taken: &mut NumberSet,
)
    requires some { 0 < heap_len heap.old }
    requires order { IsHeap entry_cmp (heap_items heap.old) }
    requires first { (x : Entry) → slice_index_or (heap_items heap.old) 0 x ≡ entry first.0 first.1 }
    requires due { first.0 ≤ time }
    requires none_before { NoneBefore time times.now }
    requires taking { IsTaking now later time times.now taken.old (heap_items heap.old) }
    ensures order { IsHeap entry_cmp (heap_items heap.new) }
    ensures taking { IsTaking now later time times.now taken.new (heap_items heap.new) }
    ensures len { heap_len heap.new + 1 ≡ heap_len heap.old }
{
    let (found, driver) = first;
    pop_top(heap);
    if !has_time(times, found, driver) {
        return;
    }
    taken.insert(driver);
}

/// Takes the drivers with the least time, which is neither `now` nor `later`, from the heap.
pub fn take_least(
    heap: &mut Heap,
    times: &[Option<u64>],
    now: u64,
    later: u64,
    time: u64,
    taken: &mut NumberSet,
)
    requires order { IsHeap entry_cmp (heap_items heap.old) }
    requires stands { StandsBut now later times.now (heap_items heap.old) }
    requires none_before { NoneBefore time times.now }
    requires other { time ≢ now }
    requires beyond { time ≢ later }
    requires empty { taken.old ≡ replicate (length times.now) false }
    ensures order { IsHeap entry_cmp (heap_items heap.new) }
    ensures taken { taken.new ≡ those_at time times.now }
    ensures stands { StandsBut now later (cleared time times.now) (heap_items heap.new) }
{
    while let Some(first) = first_due(heap, time) {
        take_first(heap, times, now, later, time, first, taken);
    }
}

/// The least time in the heap.
pub fn top_time(heap: &Heap) -> Option<u64>
    ensures some { IfSome result (λ time. (0 < length (heap_items heap.now)) × ((x : Entry) → (slice_index_or (heap_items heap.now) 0 x).0.0 ≡ time)) }
    ensures none { IfNone result (heap_items heap.now ≡ []) }
    ensures least { IsHeap entry_cmp (heap_items heap.now) → IfSome result (λ time. (t d : ℕ) → Contains (heap_items heap.now) (entry t d) → time ≤ t) }
{
    match heap.peek() {
        None => None,
        Some(Reverse((time, _))) => Some(*time),
    }
}
