//! The driver of a process for a signal (IEEE 1076-2008, 14.7.2).

ghost use Rattle.std.specs.Prelude.{suc, ◌∷◌, ◌≡◌, ◌↔◌, ◌<◌, ◌≤◌, [], length, All, Some, IsTrue, IfOk, IsOk, OnOk, OnErr};
ghost use Rattle.sim_standard.specs.Drivers.{taken, Transaction as transaction, transaction_at};
ghost use Rattle.sim_standard.specs.Editing.{edited};
ghost use Rattle.sim_logic.specs.Time.{largest_time};
ghost use Rattle.sim_standard.specs.declared.delay.Delay.TheVariants as delays;
ghost use Rattle.sim_wave.specs.Rising.{next_of, RisesFrom, IsWithin};

use crate::edit::keeps;
use crate::pending::Pending;
use crate::stored::Stored;
use sim_logic::Logic;
use sim_standard::Delay;
use std::alloc::{AllocError, Global};
use std::marker::Model;

/// A time in femtoseconds, absolute or as a delay, and the value that a driver takes then.
pub type Transaction = (u64, Logic);

/// The number of pending transactions that a driver holds itself, without an allocation.
pub const IN_PLACE: usize = 2;

/// The time of the first of these transactions, if there is one.
#[inline(never)]
fn first_time(transactions: &[Transaction]) -> Option<u64>
    ensures { result ≡ next_of transactions.now }
{
    match transactions.first() {
        None => None,
        Some(transaction) => Some(transaction.0),
    }
}

/// A driver: its current value and its pending transactions, whose times strictly ascend.
pub struct Driver {
    value: Logic,
    alloc: Global,
    pending: Pending,
}

/// Written by hand so that code which drops it needs no proof about its contents.
impl Drop for Driver {
    fn drop(self) {
        let Driver {
            value: _,
            alloc: _,
            pending,
        } = self;
        drop(pending);
    }
}

impl Model for Driver {
    ghost use Rattle.sim_standard.specs.Drivers.{DriverState};

    ghost Value = { DriverState };

    ghost use Rattle.sim_wave.specs.Rising.{RisesFrom};
    ghost use Rattle.sim_wave.specs.Pending.{transactions_of};

    ghost view = { λ driver. record {
      value = driver.value;
      pending = transactions_of driver.pending;
    } };

    ghost invariant = { λ driver. RisesFrom 0 (transactions_of driver.pending) };
}

impl Driver {
    /// A driver with this value and nothing pending.
    pub fn new(alloc: Global, value: Logic) -> Driver
        ensures { result ≡ record { value = value; pending = [] } }
    {
        Driver {
            value,
            alloc,
            pending: Pending::Few(None),
        }
    }

    /// The current value.
    pub fn value(&self) -> Logic
        ensures { result ≡ self.now.value }
    {
        self.value
    }

    /// The pending transactions, earliest first.
    pub fn pending(&self) -> &[Transaction]
        ensures value { result.now ≡ self.now.pending }
        ensures rises { RisesFrom 0 result.now }
    {
        self.pending.as_slice()
    }

    /// The time of the first pending transaction in femtoseconds, if there is one.
    #[inline(always)]
    pub fn next(&self) -> Option<u64>
        ensures { result ≡ next_of self.now.pending }
    {
        match &self.pending {
            Pending::Few(None) => None,
            Pending::Few(Some(only)) => Some(only.0),
            Pending::Many(stored) => first_time(stored.as_slice()),
        }
    }

    /// Takes the first pending transaction if its time is `time` in femtoseconds; returns whether
    /// it did. If none was earlier than `time`, those that remain are later.
    #[inline(always)]
    pub fn take(&mut self, time: u64) -> bool
        ensures due { IsTrue result ↔ (next_of self.old.pending ≡ Some time) }
        ensures after { self.new ≡ taken time self.old }
        ensures later { IsTrue result → RisesFrom (suc time) self.new.pending }
        ensures past { RisesFrom time self.old.pending → RisesFrom (suc time) self.new.pending }
    {
        if let Pending::Few(few) = &mut self.pending {
            let (due, value) = match few {
                None => return false,
                Some(only) => *only,
            };
            if due != time {
                return false;
            }
            self.value = value;
            *few = None;
            return true;
        }
        self.take_first(time)
    }

    /// The same, whatever is pending. It is out of line to keep the frequent case short.
    #[inline(never)]
    fn take_first(&mut self, time: u64) -> bool
        ensures due { IsTrue result ↔ (next_of self.old.pending ≡ Some time) }
        ensures after { self.new ≡ taken time self.old }
        ensures later { IsTrue result → RisesFrom (suc time) self.new.pending }
        ensures past { RisesFrom time self.old.pending → RisesFrom (suc time) self.new.pending }
    {
        let first = match self.pending.as_slice().first() {
            None => return false,
            Some(first) => *first,
        };
        if first.0 != time {
            return false;
        }
        self.value = first.1;
        self.pending.remove_first();
        true
    }

    /// A driver with the same value and the same pending transactions.
    pub fn try_copy(&self) -> Result<Driver, AllocError>
        ensures ok { IfOk result (λ driver. driver ≡ self.now) }
        ensures in_place { length self.now.pending ≤ IN_PLACE → IsOk result }
    {
        let pending = Pending::copy_of(self.alloc, self.pending.as_slice())?;
        Ok(Driver {
            value: self.value,
            alloc: self.alloc,
            pending,
        })
    }

    /// Returns true if both drivers have the same value and the same pending transactions.
    pub fn same(&self, other: &Driver) -> bool
        ensures { IsTrue result ↔ (self.now ≡ other.now) }
    {
        self.value == other.value && self.pending.as_slice() == other.pending.as_slice()
    }

    /// Assigns one element without delay at the time `now` in femtoseconds: it replaces all pending
    /// transactions (IEEE 1076-2008, 10.5.2.2). If memory runs out, nothing changes.
    #[inline(always)]
    pub fn assign_now(&mut self, now: u64, value: Logic) -> Result<(), AllocError>
        requires now { now ≤ largest_time }
        requires later { RisesFrom now self.old.pending }
        ensures ok { OnOk result (self.new ≡ record self.old { pending = (now, value) ∷ [] }) }
        ensures same { edited self.old.pending now (delays.Inertial 0) ((0, value) ∷ []) ≡ (now, value) ∷ [] }
        ensures err { OnErr result (self.new ≡ self.old) }
        ensures later { RisesFrom now self.new.pending }
    {
        if let Pending::Few(_) = &self.pending {
            self.pending.set((now, value));
            return Ok(());
        }
        self.edit(now, Delay::Inertial { reject: 0 }, &[(0, value)])
    }

    /// Carries out a signal assignment at the time `now` (IEEE 1076-2008, 10.5.2.2). Each element
    /// is a delay and a value. Times and delays are in femtoseconds. If memory runs out, nothing
    /// changes.
    pub fn edit(
        &mut self,
        now: u64,
        delay: Delay,
        elements: &[Transaction],
    ) -> Result<(), AllocError>
        requires some { 0 < length elements.now }
        requires rise { RisesFrom 0 elements.now }
        requires delays { All (λ (element : transaction). element.0 ≤ largest_time) elements.now }
        requires now { now ≤ largest_time }
        requires reject { IsWithin delay (transaction_at elements.now 0).0 }
        requires later { RisesFrom now self.old.pending }
        ensures ok { OnOk result (self.new
            ≡ record self.old { pending = edited self.old.pending now delay elements.now }) }
        ensures err { OnErr result (self.new ≡ self.old) }
        ensures later { RisesFrom now self.new.pending }
        ensures in_place { length (edited self.old.pending now delay elements.now) ≤ IN_PLACE
            → IsOk result }
    {
        if let [only] = elements {
            let new = (now + only.0, only.1);
            match &self.pending {
                Pending::Few(None) => {
                    self.pending.set(new);
                    return Ok(());
                }
                Pending::Few(Some(old)) => {
                    if keeps(*old, delay, new) {
                        self.pending = Pending::Many(Stored::of_two(self.alloc, *old, new));
                        return Ok(());
                    }
                    self.pending.set(new);
                    return Ok(());
                }
                Pending::Many(_) => {}
            }
        }
        self.pending.edit(self.alloc, now, delay, elements)
    }
}
