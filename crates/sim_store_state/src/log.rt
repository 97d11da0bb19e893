//! The records of a run, in flat lists.

ghost use Rattle.std.specs.Prelude.{ℕ, suc, ◌≡◌, ◌≢◌, ◌≤◌, ◌<◌, ◌+◌, ◌-◌, ◌^◌, ◌==◌, List, [], ◌∷◌, ◌++◌, length, map, drop, slice_set};
ghost use Rattle.std.specs.Prelude.{Bool, true, false, if◌then◌else◌, MatchOption, OnOk, vec_len, vec_capacity};
ghost use Rattle.std.specs.List.{enumerate_from};
ghost use Rattle.sim_store_nets.specs.Lists.{AreUnresolved, IsUnresolved, net_from, resolved_by};
ghost use Rattle.sim_store_nets.specs.Nets.{value_at, views_of};
ghost use Rattle.sim_standard.specs.Records.{all_changes, changes_from};
ghost use Rattle.sim_store_state.specs.Counting.{AreCountable, AreCounted, change_of};
ghost use Rattle.sim_store_state.specs.Log.{changed, changes_before, changes_of, count_times, last_record, past_after, recorded, records_in};
ghost use Rattle.sim_store_state.specs.Log.{HasRoom, IsNext, IsRecorded, IsSameLog};
ghost use Rattle.sim_store_state.specs.Log as spec;

use sim_logic::Logic;
use sim_store_nets::{UpdateLists, Values};
use std::alloc::{AllocError, Global};
use std::marker::Model;
use std::mem;

/// An entry of a log, in eight bytes: a change, which is the new value of a net and its number, and
/// whether a record begins with it. A record without changes has an entry of its own.
#[derive(Clone, Copy)]
pub enum Entry {
    /// One more change in the same record.
    Change(Logic, u32),
    /// The first change of a record at the time of the one before: that of a delta cycle.
    Delta(Logic, u32),
    /// The first change of a record at the next time.
    Time(Logic, u32),
    /// A record of a delta cycle in which nothing changes.
    QuietDelta,
    /// A record at the next time in which nothing changes.
    QuietTime,
}

const _: () = prove!(std::mem::size_of::<Entry>() == 8);

impl Entry {
    /// The change that the entry notes, if it notes one.
    #[inline(always)]
    pub fn change(self) -> Option<(u32, Logic)>
        ensures { MatchOption result (changes_of (self ∷ []) ≡ []) (λ c. changes_of (self ∷ []) ≡ (c.0, c.1) ∷ []) }
    {
        match self {
            Entry::Change(value, net) | Entry::Delta(value, net) | Entry::Time(value, net) => {
                Some((net, value))
            }
            Entry::QuietDelta | Entry::QuietTime => None,
        }
    }
}

/// Appends a change, and counts it.
#[inline(always)]
fn append_change(entries: &mut Vec<Entry>, net: usize, value: Logic, totals: &mut [u64])
    requires few { net < 2 ^ 32 }
    requires room { vec_len entries.old < vec_capacity entries.old }
    requires countable { AreCountable 1 totals.old }
    ensures capacity { vec_capacity entries.new ≡ vec_capacity entries.old }
    ensures appended { entries.new.items ≡ entries.old.items ++ changed (net, value) ∷ [] }
    ensures counted { AreCounted ((net, value) ∷ []) totals.old totals.new }
{
    entries.push_reserved(Entry::Change(value, net as u32));
    if net < totals.len() {
        totals[net] += 1;
    }
}

/// A net without an event takes the value of its sources. If it is a new one, the change is appended
/// and counted.
#[inline(always)]
fn resolve_net(
    entries: &mut Vec<Entry>,
    values: &mut Values,
    lists: &UpdateLists,
    net: usize,
    totals: &mut [u64],
)
    requires unresolved { IsUnresolved lists.now values.old net }
    requires few { net < 2 ^ 32 }
    requires room { vec_len entries.old < vec_capacity entries.old }
    requires countable { AreCountable 1 totals.old }
    ensures values { values.new ≡ record values.old { present = slice_set values.old.present net (net_from lists.now net) } }
    ensures capacity { vec_capacity entries.new ≡ vec_capacity entries.old }
    ensures appended { entries.new.items ≡ entries.old.items ++ map changed (change_of net (net_from lists.now net) (value_at values.old.before net)) }
    ensures counted { AreCounted (change_of net (net_from lists.now net) (value_at values.old.before net)) totals.old totals.new }
{
    if let Some(value) = values.resolve(lists, net) {
        append_change(entries, net, value, totals);
    }
}

/// Nets that may have an event take the values of their sources (14.7.5.3 d), in net order; the
/// others have them already. Changes are appended and counted. It looks only at touched nets; a
/// single one costs no loop.
fn append_changes(
    entries: &mut Vec<Entry>,
    values: &mut Values,
    lists: &UpdateLists,
    totals: &mut [u64],
)
    requires unresolved { AreUnresolved lists.now values.old }
    requires few { length values.old.present < 2 ^ 32 }
    requires room { vec_len entries.old + length values.old.present ≤ vec_capacity entries.old }
    requires countable { AreCountable (length values.old.present) totals.old }
    ensures values { values.new ≡ resolved_by lists.now values.old }
    ensures capacity { vec_capacity entries.new ≡ vec_capacity entries.old }
    ensures appended { entries.new.items ≡ entries.old.items ++ map changed (changes_from 0 (views_of values.new.present values.new.before)) }
    ensures counted { AreCounted (changes_from 0 (views_of values.new.present values.new.before)) totals.old totals.new }
{
    let nets = lists.touched();
    if nets.len() == 1 {
        resolve_net(entries, values, lists, nets[0], totals);
        return;
    }
    for place in 0..nets.len() {
        resolve_net(entries, values, lists, nets[place], totals);
    }
}

/// Appends the value of each net.
fn append_values(entries: &mut Vec<Entry>, values: &[Logic])
    requires few { length values.now < 2 ^ 32 }
    requires room { vec_len entries.old + length values.now ≤ vec_capacity entries.old }
    ensures appended { entries.new.items ≡ entries.old.items ++ map changed (enumerate_from 0 values.now) }
    ensures capacity { vec_capacity entries.new ≡ vec_capacity entries.old }
{
    for number in 0..values.len() {
        entries.push_reserved(Entry::Change(values[number], number as u32));
    }
}

/// The entry of the first change of a record, at a new time or not.
#[inline(always)]
fn first(is_time: bool, net: u32, value: Logic) -> Entry
    ensures { result ≡ spec.first is_time (net, value) }
{
    if is_time {
        Entry::Time(value, net)
    } else {
        Entry::Delta(value, net)
    }
}

/// The entry of a record without changes, at a new time or not.
fn quiet(is_time: bool) -> Entry
    ensures { result ≡ spec.quiet is_time }
{
    if is_time {
        Entry::QuietTime
    } else {
        Entry::QuietDelta
    }
}

/// Makes the entries from a place on, which are changes, those of a record.
#[inline(always)]
fn begin_entries(entries: &mut Vec<Entry>, start: usize, is_time: bool)
    requires room { vec_len entries.old < vec_capacity entries.old }
    ensures { (before : List Entry) (changes : List (ℕ × Logic)) → entries.old.items ≡ before ++ map changed changes → start ≡ length before
        → entries.new.items ≡ before ++ recorded is_time changes }
{
    match entries.get(start).copied() {
        Some(Entry::Change(value, net)) => entries[start] = first(is_time, net, value),
        _ => entries.push_reserved(quiet(is_time)),
    }
}

/// Makes the entries from a place on, which are changes, those of a record with this time and delta
/// number.
#[inline(always)]
fn begin_record(times: &mut Vec<u64>, entries: &mut Vec<Entry>, start: usize, time: u64, delta: u64)
    requires time { vec_len times.old < vec_capacity times.old }
    requires room { vec_len entries.old < vec_capacity entries.old }
    ensures times { times.new.items ≡ (if delta == 0 then times.old.items ++ time ∷ [] else times.old.items) }
    ensures entries { (before : List Entry) (changes : List (ℕ × Logic)) → entries.old.items ≡ before ++ map changed changes → start ≡ length before
        → entries.new.items ≡ before ++ recorded (delta == 0) changes }
{
    let is_time = delta == 0;
    if is_time {
        times.push_reserved(time);
    }
    begin_entries(entries, start, is_time);
}

/// The records of a run that were given away: how many there are, how many changes they have, and
/// the time, in femtoseconds, and the delta number of the last one.
#[derive(Clone, Copy)]
pub struct Past {
    pub records: usize,
    pub changes: usize,
    pub time: u64,
    pub delta: u64,
}

impl Past {
    /// No records. A run starts at time 0.
    pub fn none() -> Past
        ensures { result ≡ spec.no_past }
    {
        Past {
            records: 0,
            changes: 0,
            time: 0,
            delta: 0,
        }
    }
}

/// Records of a run: entries, and the times at which records begin. So a record of one change takes
/// 8 bytes, and 16 if it is the first at its time.
pub struct Log {
    /// The records before these.
    past: Past,
    times: Vec<u64>,
    entries: Vec<Entry>,
    /// How many records there are.
    records: usize,
    /// How many changes they have.
    changes: usize,
    /// Where the entries of the last record start.
    last: usize,
}

/// Written by hand so that code which drops it needs no proof about its contents.
impl Drop for Log {
    fn drop(self) {
        let Log {
            past: _,
            times,
            entries,
            records: _,
            changes: _,
            last: _,
        } = self;
        drop(times);
        drop(entries);
    }
}

impl Model for Log {
    ghost use Rattle.std.specs.Prelude.{◌-◌, vec_len, vec_capacity};
    ghost use Rattle.sim_store_state.specs.Log.{Logged, last_in, records_in, IsLog};

    ghost Value = { Logged };

    ghost view = { λ s. record {
      records = records_in s.past s.times.items s.entries.items;
      past = s.past;
      last = last_in s.past s.times.items s.entries.items;
      times_room = vec_capacity s.times - vec_len s.times;
      entries_room = vec_capacity s.entries - vec_len s.entries;
    } };

    ghost invariant = { λ s. IsLog s.past s.times.items s.entries.items s.records s.changes s.last };
}

impl Log {
    /// A log without records, after those that were given away. It takes no memory.
    pub fn new(alloc: Global, past: Past) -> Log
        ensures records { result.records ≡ [] }
        ensures past { result.past ≡ past }
        ensures last { result.last ≡ (past.time, past.delta) }
    {
        Log {
            past,
            times: Vec::new(alloc),
            entries: Vec::new(alloc),
            records: 0,
            changes: 0,
            last: 0,
        }
    }

    /// The number of records.
    pub fn len(&self) -> usize
        ensures { result ≡ length self.now.records }
    {
        self.records
    }

    /// The number of changes in all records.
    pub fn count(&self) -> usize
        ensures { result ≡ length (all_changes self.now.records) }
    {
        self.changes
    }

    /// The records before these, which were given away.
    pub fn past(&self) -> Past
        ensures { result ≡ self.now.past }
    {
        self.past
    }

    /// The times at which records begin, and the entries, by which the records are read.
    pub fn lists(&self) -> (&[u64], &[Entry])
        ensures records { records_in self.now.past result.0.now result.1.now ≡ self.now.records }
        ensures times { count_times result.1.now ≡ length result.0.now }
        ensures begins { changes_before result.1.now ≡ [] }
    {
        (self.times.as_slice(), self.entries.as_slice())
    }

    /// The entries of the last record.
    pub fn last(&self) -> &[Entry]
        requires { 0 < length self.now.records }
        ensures { changes_of result.now ≡ (last_record self.now.records).changes }
    {
        &self.entries[self.last..]
    }

    /// Gives its records away, of which the last has this time and delta number. Those to come are
    /// after them.
    pub fn give(&mut self, alloc: Global, last: (u64, u64)) -> Log
        requires last { last ≡ self.old.last }
        requires records { self.old.past.records + length self.old.records < 2 ^ 64 }
        requires changes { self.old.past.changes + length (all_changes self.old.records) < 2 ^ 64 }
        ensures given { result ≡ self.old }
        ensures empty { self.new.records ≡ [] }
        ensures past { self.new.past ≡ past_after self.old.past self.old.records last }
        ensures last { self.new.last ≡ last }
    {
        let past = Past {
            records: self.past.records + self.records,
            changes: self.past.changes + self.changes,
            time: last.0,
            delta: last.1,
        };
        mem::replace(self, Log::new(alloc, past))
    }

    /// Whether it has at least so many entries: one for each change, and one for each record without
    /// changes.
    #[inline(always)]
    pub fn has_entries(&self, least: usize) -> bool {
        self.entries.len() >= least
    }

    /// Makes room for a record of at most this number of changes. The records stay.
    pub fn reserve(&mut self, changes: usize) -> Result<(), AllocError>
        requires few { changes < 2 ^ 32 }
        ensures same { IsSameLog self.old self.new }
        ensures room { OnOk result (HasRoom self.new changes) }
    {
        self.times.reserve(1)?;
        self.entries.reserve(changes + 1)?;
        Ok(())
    }

    /// Nets that may have an event take the values of their sources (14.7.5.3 d). Those with a new
    /// one are counted, and appended as a record. There is room for it, so it takes no memory.
    pub(crate) fn append(
        &mut self,
        time: u64,
        delta: u64,
        values: &mut Values,
        lists: &UpdateLists,
        totals: &mut [u64],
    )
        requires unresolved { AreUnresolved lists.now values.old }
        requires few { length values.old.present < 2 ^ 32 }
        requires next { IsNext self.old.last time delta }
        requires room { HasRoom self.old (length values.old.present) }
        requires countable { AreCountable (length values.old.present) totals.old }
        ensures values { values.new ≡ resolved_by lists.now values.old }
        ensures recorded { IsRecorded self.old self.new (record {
          time = time;
          delta = delta;
          changes = changes_from 0 (views_of values.new.present values.new.before);
        }) }
        ensures counted { AreCounted (changes_from 0 (views_of values.new.present values.new.before)) totals.old totals.new }
    {
        let start = self.entries.len();
        append_changes(&mut self.entries, values, lists, totals);
        self.changes += self.entries.len() - start;
        begin_record(&mut self.times, &mut self.entries, start, time, delta);
        self.records += 1;
        self.last = start;
    }

    /// Appends a record of all nets. There is room for it, so it takes no memory.
    pub(crate) fn append_all(&mut self, time: u64, delta: u64, values: &[Logic])
        requires few { length values.now < 2 ^ 32 }
        requires next { IsNext self.old.last time delta }
        requires room { HasRoom self.old (length values.now) }
        ensures { IsRecorded self.old self.new (record { time = time; delta = delta; changes = enumerate_from 0 values.now }) }
    {
        let start = self.entries.len();
        append_values(&mut self.entries, values);
        self.changes += self.entries.len() - start;
        begin_record(&mut self.times, &mut self.entries, start, time, delta);
        self.records += 1;
        self.last = start;
    }
}
