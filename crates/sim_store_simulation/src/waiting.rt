//! The postponed processes that wait (IEEE 1076-2008, 14.7.5.3 h).

ghost use Rattle.std.specs.Prelude.{ℕ, ◌≡◌, ◌<◌, ◌&&◌, ◌||◌, not, false, List, Some, length, slice_index_or, IfOk, IsTrue, ◌↔◌};
ghost use Rattle.sim_flat_design.specs.Processes.{Process as process_value};
ghost use Rattle.sim_standard.specs.Processes.{process_at};
ghost use Rattle.sim_containers.specs.Numbers.{is_in};

use sim_containers::NumberSet;
use sim_flat_design::Process;
use std::alloc::{AllocError, Global};
use std::marker::Model;

/// Which processes of a design are postponed, and which of these have resumed and have not been
/// executed since.
pub struct Waiting {
    postponed: NumberSet,
    waiting: NumberSet,
}

/// Written by hand so that code which drops it needs no proof about its contents.
impl Drop for Waiting {
    fn drop(self) {
        let Waiting { postponed, waiting } = self;
        drop(postponed);
        drop(waiting);
    }
}

impl Model for Waiting {
    ghost use Rattle.std.specs.Prelude.{◌≡◌, length};
    ghost use Rattle.sim_store_simulation.specs.Waiting.{Waiting};

    ghost Value = { Waiting };

    ghost view = { λ w. record { postponed = w.postponed; waiting = w.waiting } };

    ghost invariant = { λ w. length w.postponed ≡ length w.waiting };
}

/// Makes the postponed ones of these processes the members of a set.
fn mark_postponed(set: &mut NumberSet, processes: &[Process])
    requires { length set.old ≡ length processes.now }
    ensures sized { length set.new ≡ length processes.now }
    ensures marked { (p : ℕ) → p < length processes.now → is_in set.new p ≡ (process_at processes.now p).postponed }
{
    for number in 0..processes.len() {
        set.put(number, processes[number].postponed());
    }
}

/// Moves the postponed members of a set to the waiting ones.
fn set_aside(set: &mut NumberSet, postponed: &NumberSet, waiting: &mut NumberSet)
    requires postponed { length postponed.now ≡ length set.old }
    requires waiting { length waiting.old ≡ length set.old }
    ensures sized { length set.new ≡ length set.old }
    ensures waiting_sized { length waiting.new ≡ length waiting.old }
    ensures left { (p : ℕ) → is_in set.new p ≡ (is_in set.old p && not (is_in postponed.now p)) }
    ensures moved { (p : ℕ) → is_in waiting.new p ≡ (is_in waiting.old p || (is_in set.old p && is_in postponed.now p)) }
{
    let _count = set.len();
    let mut place = 0;
    let mut from = 0;
    while let Some(number) = set.next_at(place, from) {
        let is_postponed = postponed.contains(number);
        waiting.put(number, waiting.contains(number) | is_postponed);
        set.put(number, !is_postponed);
        place = place.wrapping_add(1);
        from = number + 1;
    }
}

impl Waiting {
    /// The postponed ones of these processes, none of which waits.
    pub fn of(alloc: Global, processes: &[Process]) -> Result<Waiting, AllocError>
        ensures postponed_sized { IfOk result (λ w. length w.postponed ≡ length processes.now) }
        ensures postponed { IfOk result (λ w. (p : ℕ) → p < length processes.now → is_in w.postponed p ≡ (process_at processes.now p).postponed) }
        ensures waiting_sized { IfOk result (λ w. length w.waiting ≡ length processes.now) }
        ensures none { IfOk result (λ w. (p : ℕ) → is_in w.waiting p ≡ false) }
    {
        let mut postponed = NumberSet::new(alloc, processes.len())?;
        let waiting = NumberSet::new(alloc, processes.len())?;
        mark_postponed(&mut postponed, processes);
        Ok(Waiting { postponed, waiting })
    }

    /// Takes the postponed members out of a set; they wait.
    pub fn set_aside(&mut self, set: &mut NumberSet)
        requires { length self.old.postponed ≡ length set.old }
        ensures postponed { self.new.postponed ≡ self.old.postponed }
        ensures sized { length set.new ≡ length set.old }
        ensures waiting_sized { length self.new.waiting ≡ length self.old.waiting }
        ensures left { (p : ℕ) → is_in set.new p ≡ (is_in set.old p && not (is_in self.old.postponed p)) }
        ensures moved { (p : ℕ) → is_in self.new.waiting p
            ≡ (is_in self.old.waiting p || (is_in set.old p && is_in self.old.postponed p)) }
    {
        if self.postponed.is_empty() {
            return;
        }
        set_aside(set, &self.postponed, &mut self.waiting);
    }

    /// Whether a process is postponed.
    pub fn has_postponed(&self) -> bool
        ensures { result ≡ false → (p : ℕ) → is_in self.now.postponed p ≡ false }
    {
        !self.postponed.is_empty()
    }

    /// Whether no process waits.
    pub fn is_empty(&self) -> bool
        ensures { IsTrue result ↔ ((p : ℕ) → is_in self.now.waiting p ≡ false) }
    {
        self.waiting.is_empty()
    }

    /// Makes the waiting processes the members of a set.
    pub fn copy_to(&self, set: &mut NumberSet)
        requires { length self.now.waiting ≡ length set.old }
        ensures sized { length set.new ≡ length set.old }
        ensures same { (p : ℕ) → is_in set.new p ≡ is_in self.now.waiting p }
    {
        set.copy_from(&self.waiting);
    }

    /// No process waits any more.
    pub fn clear(&mut self)
        ensures postponed { self.new.postponed ≡ self.old.postponed }
        ensures sized { length self.new.waiting ≡ length self.old.waiting }
        ensures none { (p : ℕ) → is_in self.new.waiting p ≡ false }
    {
        self.waiting.clear();
    }
}
