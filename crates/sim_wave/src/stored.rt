//! Any number of pending transactions.

ghost use Rattle.std.specs.Prelude.{◌≡◌, ◌+◌, ◌-◌, ◌<◌, ◌≤◌, [], ◌∷◌, length, drop, All, IfOk, IsOk, OnOk, OnErr};
ghost use Rattle.sim_logic.specs.declared.logic.Logic as logic;
ghost use Rattle.sim_standard.specs.Drivers.{Transaction as transaction, transaction_at};
ghost use Rattle.sim_standard.specs.Editing.{edited};
ghost use Rattle.sim_wave.specs.Rising.{RisesFrom, IsWithin};
ghost use Rattle.sim_logic.specs.Time.{largest_time};

use crate::driver::{IN_PLACE, Transaction};
use crate::edit::{Run, Transactions, close_gap, kept_by, rewrite};
use sim_standard::Delay;
use smallvec::SmallVec;
use std::alloc::{AllocError, Global};
use std::marker::Model;

/// Pending transactions, earliest first: those of the list from `head` on. Those before `head` have
/// been taken. They are removed once they are at least as many as the others, so that no more
/// transactions are moved than were taken. A run of equal values is remembered, so that an inertial
/// assignment does not search it again.
#[derive(Drop)]
pub(crate) struct Stored {
    list: Transactions,
    head: usize,
    run: Run,
}

impl Model for Stored {
    ghost use Rattle.std.specs.Prelude.{List, ◌+◌, ◌≤◌, drop, length};
    ghost use Rattle.sim_standard.specs.Drivers.{Transaction};
    ghost use Rattle.sim_wave.specs.Run.{IsRun};
    ghost use Rattle.sim_wave.specs.declared.driver.TheConstants.{IN_PLACE};

    ghost Value = { List Transaction };

    ghost view = { λ stored. drop stored.head stored.list.items };

    ghost invariant = { λ stored. (stored.head ≤ length stored.list.items)
        × (stored.head + IN_PLACE ≤ stored.list.capacity)
        × IsRun stored.list.items stored.run.start stored.run.end stored.run.value };
}

impl Stored {
    /// Two transactions, without an allocation.
    pub(crate) fn of_two(alloc: Global, first: Transaction, second: Transaction) -> Stored
        ensures { result ≡ first ∷ (second ∷ []) }
    {
        Stored {
            list: SmallVec::from_buf(alloc, [first, second]),
            head: 0,
            run: Run::none(),
        }
    }

    /// A copy of the transactions.
    pub(crate) fn copy_of(alloc: Global, transactions: &[Transaction]) -> Result<Stored, AllocError>
        ensures ok { IfOk result (λ stored. stored ≡ transactions.now) }
        ensures in_place { length transactions.now ≤ IN_PLACE → IsOk result }
    {
        let mut list = SmallVec::with_capacity(alloc, transactions.len())?;
        list.extend_from_slice(transactions)?;
        Ok(Stored {
            list,
            head: 0,
            run: Run::none(),
        })
    }

    /// Returns true if the transactions stand in an allocation. Speed alone depends on it.
    pub(crate) fn is_allocated(&self) -> bool {
        self.list.spilled()
    }

    /// The transactions, earliest first.
    pub(crate) fn as_slice(&self) -> &[Transaction]
        ensures { result.now ≡ self.now }
    {
        &self.list.as_slice()[self.head..]
    }

    /// Removes the first transaction.
    pub(crate) fn remove_first(&mut self)
        requires { 0 < length self.old }
        ensures { self.new ≡ drop 1 self.old }
    {
        let len = self.list.len();
        let head = self.head + 1;
        if head < len - head {
            self.head = head;
            return;
        }
        close_gap(&mut self.list, 0, head);
        self.run = self.run.after(head);
        self.head = 0;
    }

    /// Carries out a signal assignment, as `Driver::edit` does.
    pub(crate) fn edit(
        &mut self,
        now: u64,
        delay: Delay,
        elements: &[Transaction],
    ) -> Result<(), AllocError>
        requires some { 0 < length elements.now }
        requires delays { All (λ (element : transaction). element.0 ≤ largest_time) elements.now }
        requires now { now ≤ largest_time }
        requires reject { IsWithin delay (transaction_at elements.now 0).0 }
        requires rises { RisesFrom 0 self.old }
        ensures ok { OnOk result (self.new ≡ edited self.old now delay elements.now) }
        ensures err { OnErr result (self.new ≡ self.old) }
        ensures in_place { length (edited self.old now delay elements.now) ≤ IN_PLACE
            → IsOk result }
    {
        let (delay_of_first, value) = elements[0];
        let first = (now + delay_of_first, value);
        let len = self.list.len();
        let kept = kept_by(self.as_slice(), self.run.after(self.head), delay, first);
        let kept = kept.beyond(self.head);
        self.list
            .reserve(elements.len().saturating_sub(len - kept.len()))?;
        rewrite(&mut self.list, kept, now, elements);
        self.run = Run {
            start: kept.front,
            end: self.list.len() - (elements.len() - 1),
            value,
        };
        Ok(())
    }
}
