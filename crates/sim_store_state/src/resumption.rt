//! Which processes a cycle resumes (IEEE 1076-2008, 14.7.5.3 f).

ghost use Rattle.std.specs.Prelude.{ℕ, ◌≡◌, ◌<◌, ◌||◌, ◌&&◌, ◌==◌, ◌∷◌, true, [], List, length, slice_index_or, IfOk, OnOk};
ghost use Rattle.sim_flat_design.specs.Processes.{Process as process_value};
ghost use Rattle.sim_standard.specs.declared.net_view.NetView.{NetView};
ghost use Rattle.sim_standard.specs.Records.{changes_from};
ghost use Rattle.sim_standard.specs.Processes.{process_at};
ghost use Rattle.sim_containers.specs.Numbers.{is_in};
ghost use Rattle.sim_store_state.specs.Log.{changes_of};
ghost use Rattle.sim_store_state.specs.Sensitive.{AreSensitive, is_resumed_by, has_event_in};
ghost use Rattle.sim_standard.specs.Orders.{is_among};

use crate::log::Entry;
use sim_containers::{NumberList, NumberSet, RisingRows, RowArray};
use sim_flat_design::{Design, Process};
use sim_store_nets::{add, empty_lists, in_rows, insert_each};
use sqlite_items::Items;
use std::alloc::{AllocError, Global};

/// Adds a process to those sensitive to each net of its list.
fn add_process(
    sensitive: &mut [Items<usize>],
    number: usize,
    sensitivity: &[usize],
) -> Result<(), AllocError>
    ensures { OnOk result ((n p : ℕ) → n < length sensitive.old
        → is_among (slice_index_or sensitive.new n []) p ≡ (is_among (slice_index_or sensitive.old n []) p || (is_among sensitivity.now n && (number == p)))) }
{
    for net in sensitivity {
        add(sensitive, *net, number)?;
    }
    Ok(())
}

/// Adds these processes to those sensitive to each net.
fn add_processes(sensitive: &mut [Items<usize>], processes: &[Process]) -> Result<(), AllocError>
    ensures { OnOk result ((n p : ℕ) → n < length sensitive.old
        → is_among (slice_index_or sensitive.new n []) p ≡ (is_among (slice_index_or sensitive.old n []) p
        || is_among (process_at processes.now p).sensitivity n)) }
{
    for number in 0..processes.len() {
        add_process(sensitive, number, processes[number].sensitivity())?;
    }
    Ok(())
}

/// For each net of a design, the processes sensitive to it. The time is proportional to the number
/// of nets plus the length of all sensitivity lists.
pub fn sensitive(alloc: Global, design: &Design) -> Result<RisingRows, AllocError>
    ensures value { IfOk result (λ r. AreSensitive design.now.processes r) }
    ensures nets { IfOk result (λ r. length r ≡ length design.now.nets) }
{
    let processes = design.processes();
    let mut lists = empty_lists(alloc, design.nets().len())?;
    add_processes(lists.as_mut_slice(), processes)?;
    rising_rows(alloc, lists.as_slice(), processes.len())
}

/// These lists of process numbers as rows, of which it is known which rise.
fn rising_rows(
    alloc: Global,
    lists: &[Items<usize>],
    processes: usize,
) -> Result<RisingRows, AllocError>
    ensures { IfOk result (λ r. r ≡ lists.now) }
{
    let rows = in_rows(alloc, lists)?;
    RisingRows::of(alloc, rows, processes)
}

/// The processes sensitive to the net with a number; none if there is no such net.
fn sensitive_to(sensitive: &RowArray<usize>, net: usize) -> &[usize]
    ensures { result.now ≡ slice_index_or sensitive.now net [] }
{
    if net >= sensitive.len() {
        return &[];
    }
    sensitive.row(net)
}

/// Resumes the processes sensitive to the net of an entry, if it notes a change.
fn resume_entry(resumed: &mut NumberSet, entry: Entry, sensitive: &RowArray<usize>)
    ensures sized { length resumed.new ≡ length resumed.old }
    ensures members { (p : ℕ) → p < length resumed.old
        → is_in resumed.new p ≡ (is_resumed_by sensitive.now (changes_of (entry ∷ [])) p || is_in resumed.old p) }
{
    match entry.change() {
        None => {}
        Some((net, _value)) => insert_each(resumed, sensitive_to(sensitive, net as usize)),
    }
}

/// Resumes the processes sensitive to a net of these entries.
fn resume_sensitive(resumed: &mut NumberSet, entries: &[Entry], sensitive: &RowArray<usize>)
    ensures sized { length resumed.new ≡ length resumed.old }
    ensures members { (p : ℕ) → p < length resumed.old
        → is_in resumed.new p ≡ (is_resumed_by sensitive.now (changes_of entries.now) p || is_in resumed.old p) }
{
    for entry in entries {
        resume_entry(resumed, *entry, sensitive);
    }
}

/// Finds the processes that resume in a cycle with these entries (14.7.5.3 f.2): those sensitive to
/// a net with an event, and no others. It looks only at nets that changed.
pub fn find_resumed(resumed: &mut NumberSet, entries: &[Entry], sensitive: &RowArray<usize>)
    ensures sized { length resumed.new ≡ length resumed.old }
    ensures found { (nets : List NetView) (processes : List process_value) (p : ℕ) → changes_of entries.now ≡ changes_from 0 nets
        → length sensitive.now ≡ length nets
        → AreSensitive processes sensitive.now → p < length resumed.old
        → is_in resumed.new p ≡ has_event_in nets (process_at processes p).sensitivity }
{
    resumed.clear();
    resume_sensitive(resumed, entries, sensitive);
}

/// The same, if a single net changed and the numbers of the processes sensitive to it are known to
/// rise; returns whether that is so. They are copied at once.
#[inline(always)]
pub fn find_resumed_by_one(
    resumed: &mut NumberList,
    entries: &[Entry],
    sensitive: &RisingRows,
) -> bool
    ensures sized { length resumed.new ≡ length resumed.old }
    ensures found { result ≡ true → (nets : List NetView) (processes : List process_value) (p : ℕ) → changes_of entries.now ≡ changes_from 0 nets
        → length sensitive.now ≡ length nets → AreSensitive processes sensitive.now
        → is_in resumed.new p ≡ has_event_in nets (process_at processes p).sensitivity }
{
    let [only] = entries else {
        return false;
    };
    match only.change() {
        None => false,
        Some((net, _value)) => resumed.set_rising(sensitive, net as usize),
    }
}
