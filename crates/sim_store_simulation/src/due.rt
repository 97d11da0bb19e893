//! The processes that are due.

ghost use Rattle.std.specs.Prelude.{ℕ, ◌≡◌, ◌<◌, ◌&&◌, ◌||◌, not, List, length, ◌+◌, ◌-◌, ◌^◌, IfOk, IfSome, MatchOption};
ghost use Rattle.sim_flat_design.specs.Processes.{Process};
ghost use Rattle.sim_containers.specs.Numbers.{is_beside};
ghost use Rattle.sim_containers.specs.Words.{IsNext, NoneFrom};
ghost use Rattle.sim_standard.specs.Processes.{process_at};
ghost use Rattle.sim_standard.specs.declared.net_view.NetView.{NetView};
ghost use Rattle.sim_standard.specs.Records.{changes_from};
ghost use Rattle.sim_store_state.specs.Log.{record_at};
ghost use Rattle.sim_store_state.specs.Sensitive.{AreSensitive, has_event_in};
ghost use Rattle.sim_store_simulation.specs.Simulation.{listed, those_in};

use crate::waiting::Waiting;
use sim_containers::{NumberList, NumberSet, RisingRows};
use sim_store_state::{Log, find_resumed, find_resumed_by_one};
use std::alloc::{AllocError, Global};
use std::marker::Model;

/// Which processes are due. Contracts see for each process whether it is due.
pub struct Due {
    list: NumberList,
    /// In which they are gathered, if several nets have an event.
    set: NumberSet,
}

/// Written by hand so that code which drops it needs no proof about its contents.
impl Drop for Due {
    fn drop(self) {
        let Due { list, set } = self;
        drop(list);
        drop(set);
    }
}

impl Model for Due {
    ghost use Rattle.std.specs.Prelude.{◌≡◌, List, Bool, length};

    ghost Value = { List Bool };

    ghost view = { λ d. d.list };

    ghost invariant = { λ d. length d.set ≡ length d.list };
}

impl Due {
    /// All of this number of processes except the postponed ones, which wait (14.7.5.2).
    pub fn first(alloc: Global, count: usize, waiting: &mut Waiting) -> Result<Due, AllocError>
        requires { length waiting.old.postponed ≡ count }
        ensures postponed { waiting.new.postponed ≡ waiting.old.postponed }
        ensures waiting_sized { length waiting.new.waiting ≡ length waiting.old.waiting }
        ensures sized { IfOk result (λ d. length d ≡ count) }
        ensures due { IfOk result (λ d. (p : ℕ) → p < count → those_in d p ≡ not (those_in waiting.old.postponed p)) }
        ensures moved { IfOk result (λ _. (p : ℕ) → p < count → those_in waiting.new.waiting p
            ≡ (those_in waiting.old.waiting p || those_in waiting.old.postponed p)) }
    {
        let mut set = NumberSet::full(alloc, count)?;
        let mut list = NumberList::new(alloc, count)?;
        waiting.set_aside(&mut set);
        list.set_from(&set);
        Ok(Due { list, set })
    }

    /// Whether the process with a number is due.
    pub fn has(&self, number: usize) -> bool
        ensures { result ≡ those_in self.now number }
    {
        self.list.contains(number)
    }

    /// The first due process from a number on that is not in another set.
    pub fn next_beside(&self, others: &NumberSet, from: usize) -> Option<usize>
        ensures value { MatchOption result (NoneFrom (is_beside self.now others.now) from) (IsNext (is_beside self.now others.now) from) }
        ensures bound { IfSome result (λ n. n + 1 < 2 ^ 64) }
    {
        let _count = self.list.len();
        self.list.next_beside(others, from)
    }

    /// The numbers of the due processes, rising.
    pub fn numbers(&self) -> &[usize]
        ensures { result.now ≡ listed self.now }
    {
        self.list.numbers()
    }

    /// Finds the processes due in the cycle of the last record: those sensitive to a net with
    /// an event, except the postponed ones, which wait (14.7.5.3 f.2). It takes no memory.
    pub fn find(&mut self, log: &Log, sensitive: &RisingRows, waiting: &mut Waiting)
        requires begun { 0 < length log.now.records }
        requires processes { length waiting.old.postponed ≡ length self.old }
        ensures postponed { waiting.new.postponed ≡ waiting.old.postponed }
        ensures waiting_sized { length waiting.new.waiting ≡ length waiting.old.waiting }
        ensures sized { length self.new ≡ length self.old }
        ensures found { (nets : List NetView) (processes : List Process) (p : ℕ)
            → (record_at log.now.records (length log.now.records - 1)).changes ≡ changes_from 0 nets → length sensitive.now ≡ length nets
            → AreSensitive processes sensitive.now → p < length self.old
            → those_in self.new p ≡ (has_event_in nets (process_at processes p).sensitivity && not (those_in waiting.old.postponed p)) }
        ensures moved { (nets : List NetView) (processes : List Process) (p : ℕ)
            → (record_at log.now.records (length log.now.records - 1)).changes ≡ changes_from 0 nets → length sensitive.now ≡ length nets
            → AreSensitive processes sensitive.now → p < length self.old
            → those_in waiting.new.waiting p ≡ (those_in waiting.old.waiting p
            || (has_event_in nets (process_at processes p).sensitivity && those_in waiting.old.postponed p)) }
    {
        // f.2) Processes resume; the postponed ones wait for h.4.
        let entries = log.last();
        if !waiting.has_postponed() {
            if find_resumed_by_one(&mut self.list, entries, sensitive) {
                return;
            }
        }
        find_resumed(&mut self.set, entries, sensitive.rows());
        waiting.set_aside(&mut self.set);
        self.list.set_from(&self.set);
    }

    /// Makes the waiting processes due, and no others. It takes no memory.
    pub fn take(&mut self, waiting: &Waiting)
        requires { length waiting.now.waiting ≡ length self.old }
        ensures sized { length self.new ≡ length self.old }
        ensures same { (p : ℕ) → those_in self.new p ≡ those_in waiting.now.waiting p }
    {
        waiting.copy_to(&mut self.set);
        self.list.set_from(&self.set);
    }
}
