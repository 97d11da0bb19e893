//! The pending transactions of a driver. Up to two need no allocation.

ghost use Rattle.std.specs.Prelude.{◌≡◌, ◌+◌, ◌-◌, ◌<◌, ◌≤◌, [], ◌∷◌, ◌++◌, length, take, drop, All, IfOk, IsOk, OnOk, OnErr};
ghost use Rattle.sim_standard.specs.Drivers.{Transaction as transaction, transaction_at};
ghost use Rattle.std.specs.List.{remove_range};
ghost use Rattle.sim_standard.specs.Editing.{edited};
ghost use Rattle.sim_wave.specs.Rising.{RisesFrom, scheduled, IsWithin};
ghost use Rattle.sim_wave.specs.Pending.{transactions_of};
ghost use Rattle.sim_logic.specs.Time.{largest_time};

use crate::driver::{IN_PLACE, Transaction};
use crate::edit::{KeptTransactions, Run, kept_by};
use crate::stored::Stored;
use sim_standard::Delay;
use std::alloc::{AllocError, Global};

/// Pending transactions, earliest first: at most one, or those of a list. `Many` holds up to two in
/// the driver itself and more in an allocation. A driver that has once had more than two keeps that
/// room.
#[derive(Drop)]
pub(crate) enum Pending {
    Few(Option<Transaction>),
    Many(Stored),
}

impl Pending {
    /// The transactions, earliest first.
    pub(crate) fn as_slice(&self) -> &[Transaction]
        ensures { result.now ≡ transactions_of self.now }
    {
        match self {
            Pending::Few(None) => &[],
            Pending::Few(Some(only)) => std::slice::from_ref(only),
            Pending::Many(stored) => stored.as_slice(),
        }
    }

    /// Returns true if there is room for more than two transactions, which is to be kept. Speed alone
    /// depends on it.
    pub(crate) fn is_allocated(&self) -> bool {
        match self {
            Pending::Few(_) => false,
            Pending::Many(stored) => stored.is_allocated(),
        }
    }

    /// Makes this the only transaction.
    #[inline(always)]
    pub(crate) fn set(&mut self, only: Transaction)
        ensures { transactions_of self.new ≡ only ∷ [] }
    {
        match self {
            Pending::Few(few) => *few = Some(only),
            Pending::Many(_) => *self = Pending::Few(Some(only)),
        }
    }

    /// A copy of the transactions.
    pub(crate) fn copy_of(
        alloc: Global,
        transactions: &[Transaction],
    ) -> Result<Pending, AllocError>
        ensures ok { IfOk result (λ pending. transactions_of pending ≡ transactions.now) }
        ensures in_place { length transactions.now ≤ IN_PLACE → IsOk result }
    {
        match transactions {
            [] => Ok(Pending::Few(None)),
            [only] => Ok(Pending::Few(Some(*only))),
            _ => Ok(Pending::Many(Stored::copy_of(alloc, transactions)?)),
        }
    }

    /// The transactions that are kept, followed by the elements: at most two in all.
    fn of_kept(
        alloc: Global,
        few: &[Transaction],
        kept: KeptTransactions,
        now: u64,
        elements: &[Transaction],
    ) -> Pending
        requires some { 0 < length elements.now }
        requires within { kept.end ≤ length few.now }
        requires two { kept.front + (kept.end - kept.back) + length elements.now ≤ 2 }
        requires now { now ≤ largest_time }
        requires delays { All (λ (element : transaction). element.0 ≤ largest_time) elements.now }
        ensures { transactions_of result
            ≡ remove_range (take kept.end few.now) kept.front kept.back ++ scheduled now elements.now }
    {
        let first = (now + elements[0].0, elements[0].1);
        if elements.len() == 2 {
            let second = (now + elements[1].0, elements[1].1);
            return Pending::Many(Stored::of_two(alloc, first, second));
        }
        if kept.front == 1 {
            return Pending::Many(Stored::of_two(alloc, few[0], first));
        }
        if kept.back < kept.end {
            return Pending::Many(Stored::of_two(alloc, few[kept.back], first));
        }
        Pending::Few(Some(first))
    }

    /// Removes the first transaction.
    pub(crate) fn remove_first(&mut self)
        requires { 0 < length (transactions_of self.old) }
        ensures { transactions_of self.new ≡ drop 1 (transactions_of self.old) }
    {
        match self {
            Pending::Few(few) => *few = None,
            Pending::Many(stored) => {
                stored.remove_first();
                if !stored.is_allocated() {
                    match stored.as_slice() {
                        [] => *self = Pending::Few(None),
                        [only] => *self = Pending::Few(Some(*only)),
                        _ => {}
                    }
                }
            }
        }
    }

    /// Carries out a signal assignment, as `Driver::edit` does. It is out of line to keep the fast
    /// paths there small.
    #[inline(never)]
    pub(crate) fn edit(
        &mut self,
        alloc: Global,
        now: u64,
        delay: Delay,
        elements: &[Transaction],
    ) -> Result<(), AllocError>
        requires some { 0 < length elements.now }
        requires delays { All (λ (element : transaction). element.0 ≤ largest_time) elements.now }
        requires now { now ≤ largest_time }
        requires reject { IsWithin delay (transaction_at elements.now 0).0 }
        requires rises { RisesFrom 0 (transactions_of self.old) }
        ensures ok { OnOk result (transactions_of self.new
            ≡ edited (transactions_of self.old) now delay elements.now) }
        ensures err { OnErr result (transactions_of self.new ≡ transactions_of self.old) }
        ensures in_place { length (edited (transactions_of self.old) now delay elements.now)
            ≤ IN_PLACE → IsOk result }
    {
        if let Pending::Many(stored) = self {
            if stored.is_allocated() {
                return stored.edit(now, delay, elements);
            }
        }
        let few = self.as_slice();
        let (delay_of_first, value) = elements[0];
        let kept = kept_by(few, Run::none(), delay, (now + delay_of_first, value));
        if kept.len() + elements.len() <= IN_PLACE {
            *self = Pending::of_kept(alloc, few, kept, now, elements);
            return Ok(());
        }
        let mut stored = Stored::copy_of(alloc, few)?;
        stored.edit(now, delay, elements)?;
        *self = Pending::Many(stored);
        Ok(())
    }
}
