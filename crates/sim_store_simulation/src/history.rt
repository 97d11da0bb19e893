//! Records of a log.

ghost use Rattle.std.specs.Prelude.{ℕ, ◌≡◌, ◌≤◌, ◌<◌, ◌+◌, ◌^◌, ◌++◌, ◌∷◌, List, [], length, drop, take, IfOk, OnOk};
ghost use Rattle.sim_store_state.specs.Log.{begun, changes_of, count_times, delta_after, no_past, records_after, time_with};
ghost use Rattle.sim_store_simulation.specs.History.{count_leading, count_records, last_time, records_beyond};
ghost use Rattle.sim_store_simulation.specs.History as spec;

use sim_logic::Logic;
use sim_store_state::{Entry, Log, Record};
use sqlite_items::Items;
use std::alloc::{AllocError, Global};

/// A place between two entries of a log: how many times have begun before it, and the time, in
/// femtoseconds, and the delta number of the record before it.
#[derive(Clone, Copy)]
struct Place {
    times: usize,
    time: u64,
    delta: u64,
}

/// The time with a number.
fn time_at(times: &[u64], number: usize) -> u64
    ensures { result ≡ time_with times.now number }
{
    match times.get(number) {
        Some(time) => *time,
        None => 0,
    }
}

/// The last of this number of times. The simulation starts at time 0.
fn last_time(times: &[u64], count: usize) -> u64
    ensures { result ≡ last_time times.now count }
{
    if count == 0 {
        return 0;
    }
    time_at(times, count - 1)
}

/// How many records begin with an entry: one or none.
fn records_of(entry: Entry) -> usize
    ensures { result ≡ count_records (entry ∷ []) }
{
    match entry {
        Entry::Change(_, _) => 0,
        Entry::Delta(_, _) | Entry::Time(_, _) | Entry::QuietDelta | Entry::QuietTime => 1,
    }
}

/// How many times begin with an entry: one or none.
fn times_of(entry: Entry) -> usize
    ensures { result ≡ count_times (entry ∷ []) }
{
    match entry {
        Entry::Change(_, _) | Entry::Delta(_, _) | Entry::QuietDelta => 0,
        Entry::Time(_, _) | Entry::QuietTime => 1,
    }
}

/// The place after one more entry.
fn passed(place: Place, times: &[u64], entry: Entry) -> Place
    requires times { place.times + 1 < 2 ^ 64 }
    requires delta { place.delta + 1 < 2 ^ 64 }
    ensures { result ≡ spec.passed times.now place entry }
{
    match entry {
        Entry::Change(_, _) => place,
        Entry::Delta(_, _) | Entry::QuietDelta => Place {
            times: place.times,
            time: place.time,
            delta: place.delta + 1,
        },
        Entry::Time(_, _) | Entry::QuietTime => Place {
            times: place.times + 1,
            time: time_at(times, place.times),
            delta: 0,
        },
    }
}

/// The place of the first entry from a place on with which a record begins; without one, how many
/// entries there are.
fn next_record(entries: &[Entry], from: usize) -> usize
    requires { from ≤ length entries.now }
    ensures place { result ≡ from + count_leading (drop from entries.now) }
    ensures within { result ≤ length entries.now }
{
    for place in from..entries.len() {
        if records_of(entries[place]) != 0 {
            return place;
        }
    }
    entries.len()
}

/// Appends the change that an entry notes, if it notes one, with the net by its number.
fn push_change(changes: &mut Vec<(usize, Logic)>, entry: Entry) -> Result<(), AllocError>
    ensures { OnOk result (changes.new.items ≡ changes.old.items ++ changes_of (entry ∷ [])) }
{
    match entry.change() {
        None => Ok(()),
        Some((net, value)) => {
            changes.push((net as usize, value))?;
            Ok(())
        }
    }
}

/// The changes of these entries, with each net by its number.
fn changes(alloc: Global, entries: &[Entry]) -> Result<Vec<(usize, Logic)>, AllocError>
    ensures { IfOk result (λ v. v.items ≡ changes_of entries.now) }
{
    let mut changes = Vec::with_capacity(alloc, entries.len())?;
    for entry in entries {
        push_change(&mut changes, *entry)?;
    }
    Ok(changes)
}

/// The record that these entries note, after the first of which this is the place.
fn record(alloc: Global, place: Place, entries: &[Entry]) -> Result<Record, AllocError>
    ensures { IfOk result (λ r. r ≡ begun place.time place.delta (changes_of entries.now)) }
{
    let changes = changes(alloc, entries)?;
    Ok(Record {
        time: place.time,
        delta: place.delta,
        changes: Items::from_vec(changes),
    })
}

/// The records that begin at an entry or later, of which there are about `count`. The place is the
/// one before that entry.
fn records_after(
    alloc: Global,
    times: &[u64],
    entries: &[Entry],
    from: usize,
    before: Place,
    count: usize,
) -> Result<Vec<Record>, AllocError>
    requires within { from ≤ length entries.now }
    requires times { before.times ≤ from }
    requires delta { before.delta ≤ from }
    ensures { IfOk result (λ v. v.items ≡ records_beyond times.now before (drop from entries.now)) }
{
    let mut records = Vec::with_capacity(alloc, count)?;
    let mut place = before;
    let mut start = next_record(entries, from);
    while start < entries.len() {
        let end = next_record(entries, start + 1);
        place = passed(place, times, entries[start]);
        let record = record(alloc, place, &entries[start..end])?;
        records.push(record)?;
        start = end;
    }
    Ok(records)
}

/// The number of entries before the record with a number, and how many times begin in them, given
/// how many times and records there are in all. The entries are read from the end.
fn entries_before(entries: &[Entry], times: usize, records: usize, number: usize) -> (usize, usize)
    requires number { number ≤ records }
    requires times { count_times entries.now ≡ times }
    requires records { count_records entries.now ≡ records }
    ensures within { result.0 ≤ length entries.now }
    ensures times { count_times (take result.0 entries.now) ≡ result.1 }
    ensures records { count_records (take result.0 entries.now) ≡ number }
{
    let mut place = entries.len();
    let mut passed = times;
    let mut left = records;
    while number < left {
        place -= 1;
        passed -= times_of(entries[place]);
        left -= records_of(entries[place]);
    }
    (place, passed)
}

/// The delta number of the last record in these entries. They are read from the end, to the one
/// with which its time begins.
fn last_delta(entries: &[Entry]) -> u64
    ensures { result ≡ delta_after 0 entries.now }
{
    let mut delta = 0;
    for place in (0..entries.len()).rev() {
        if times_of(entries[place]) != 0 {
            return delta;
        }
        delta += records_of(entries[place]) as u64;
    }
    delta
}

/// The delta number before an entry with which a record begins. If that record is at a new time, or
/// there is none, any number serves, and no entries are read.
fn delta_before(entries: &[Entry], from: usize) -> u64
    requires { from ≤ length entries.now }
    ensures few { result ≤ from }
    ensures same { (times : List ℕ) (n time : ℕ) → records_after times n time result (drop from entries.now)
        ≡ records_after times n time (delta_after 0 (take from entries.now)) (drop from entries.now) }
{
    if from == entries.len() {
        return 0;
    }
    if times_of(entries[from]) != 0 {
        return 0;
    }
    last_delta(&entries[..from])
}

/// The records from a number on, of a log of a whole run. Earlier records are read only if they are
/// at the time of the first of these.
pub fn records_from(alloc: Global, log: &Log, number: usize) -> Result<Vec<Record>, AllocError>
    requires past { log.now.past ≡ no_past }
    requires number { number ≤ length log.now.records }
    ensures { IfOk result (λ v. v.items ≡ drop number log.now.records) }
{
    let (times, entries) = log.lists();
    let count = log.len();
    let (from, passed) = entries_before(entries, times.len(), count, number);
    let before = Place {
        times: passed,
        time: last_time(times, passed),
        delta: delta_before(entries, from),
    };
    records_after(alloc, times, entries, from, before, count - number)
}
