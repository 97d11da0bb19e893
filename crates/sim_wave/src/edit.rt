//! The editing of a projected output waveform by a signal assignment (IEEE 1076-2008, 10.5.2.2).

ghost use Rattle.std.specs.Prelude.{ℕ, ◌≡◌, ◌≢◌, ◌+◌, ◌-◌, ◌<◌, ◌≤◌, ◌++◌, ◌↔◌, [], ◌∷◌, length, take, All, IsTrue};
ghost use Rattle.std.specs.List.{remove_range};
ghost use Rattle.sim_logic.specs.declared.logic.Logic as logic;
ghost use Rattle.sim_standard.specs.Drivers.{Transaction as transaction, transaction_at};
ghost use Rattle.sim_standard.specs.Editing.{before, kept_of};
ghost use Rattle.sim_wave.specs.Rising.{RisesFrom, scheduled, IsWithin};
ghost use Rattle.sim_wave.specs.Run.{IsRun};
ghost use Rattle.sim_logic.specs.Time.{largest_time};
ghost use Rattle.smallvec.specs.SmallVec.{small_vec_len};

use crate::driver::{IN_PLACE, Transaction};
use sim_logic::Logic;
use sim_standard::Delay;
use smallvec::SmallVec;

/// A list of transactions, earliest first.
pub(crate) type Transactions = SmallVec<Transaction, IN_PLACE>;

/// A run of transactions of equal value in a list: those from `start` up to `end`.
#[derive(Clone, Copy)]
pub(crate) struct Run {
    pub(crate) start: usize,
    pub(crate) end: usize,
    pub(crate) value: Logic,
}

impl Run {
    /// The empty run.
    pub(crate) fn none() -> Run
        ensures { result ≡ record { start = 0; end = 0; value = logic.Logic.U } }
    {
        Run {
            start: 0,
            end: 0,
            value: Logic::U,
        }
    }

    /// The same run once the first `count` transactions of the list are removed.
    pub(crate) fn after(self, count: usize) -> Run
        ensures { result ≡ record {
          start = self.start - count;
          end = self.end - count;
          value = self.value;
        } }
    {
        Run {
            start: self.start.saturating_sub(count),
            end: self.end.saturating_sub(count),
            value: self.value,
        }
    }

    /// The start of the run if it reaches `end` and has this value, else `end`.
    fn start_before(self, end: usize, value: Logic) -> usize
        ensures within { result ≤ end }
        ensures start { result < end → self.start ≡ result }
        ensures end { result < end → end ≤ self.end }
        ensures value { result < end → self.value ≡ value }
    {
        if self.start < end && end <= self.end && self.value == value {
            self.start
        } else {
            end
        }
    }
}

/// The old transactions that an edit keeps: those before `front`, and from `back` up to `end`.
#[derive(Clone, Copy)]
pub(crate) struct KeptTransactions {
    pub(crate) front: usize,
    pub(crate) back: usize,
    pub(crate) end: usize,
    ghost order: { (front ≤ back) × (back ≤ end) },
}

impl KeptTransactions {
    /// The number of transactions that are kept.
    pub(crate) fn len(self) -> usize
        ensures { result ≡ self.front + (self.end - self.back) }
    {
        self.front + (self.end - self.back)
    }

    /// The same for a list with `count` more transactions in front, all of which are kept.
    pub(crate) fn beyond(self, count: usize) -> KeptTransactions
        requires { count + self.end ≤ usize.MAX }
        ensures front { result.front ≡ count + self.front }
        ensures back { result.back ≡ count + self.back }
        ensures end { result.end ≡ count + self.end }
    {
        KeptTransactions {
            front: count + self.front,
            back: count + self.back,
            end: count + self.end,
        }
    }
}

/// The number of transactions before `time`, among the first `end`.
fn count_before(pending: &[Transaction], end: usize, time: u64) -> usize
    requires rises { RisesFrom 0 pending.now }
    requires within { end ≤ length pending.now }
    ensures within { result ≤ end }
    ensures below { (k : ℕ) → k < result → (transaction_at pending.now k).0 < time }
    ensures above { (k : ℕ) → result ≤ k → k < end → time ≤ (transaction_at pending.now k).0 }
{
    let mut place = end;
    while place > 0 && pending[place - 1].0 >= time {
        place -= 1;
    }
    place
}

/// Returns true if the transaction is not before `limit` and has this value.
fn continues(transaction: Transaction, limit: u64, value: Logic) -> bool
    ensures { IsTrue result ↔ ((limit ≤ transaction.0) × (transaction.1 ≡ value)) }
{
    transaction.0 >= limit && transaction.1 == value
}

/// The start of the chain of transactions of this value that reaches `end`. The remembered run is
/// not searched again, and before it the search stops at `limit`, before which every transaction is
/// marked.
fn chain_start(pending: &[Transaction], run: Run, end: usize, limit: u64, value: Logic) -> usize
    requires run { IsRun pending.now run.start run.end run.value }
    requires within { end ≤ length pending.now }
    ensures within { result ≤ end }
    ensures chain { IsRun pending.now result end value }
    ensures broken { 0 < result → limit ≤ (transaction_at pending.now (result - 1)).0
        → (transaction_at pending.now (result - 1)).1 ≢ value }
{
    let mut place = run.start_before(end, value);
    while place > 0 && continues(pending[place - 1], limit, value) {
        place -= 1;
    }
    place
}

/// The old transactions that the delay keeps, where `first` is the first new one.
pub(crate) fn kept_by(
    pending: &[Transaction],
    run: Run,
    delay: Delay,
    first: Transaction,
) -> KeptTransactions
    requires rises { RisesFrom 0 pending.now }
    requires run { IsRun pending.now run.start run.end run.value }
    requires within { IsWithin delay first.0 }
    ensures within { result.end ≤ length pending.now }
    ensures kept { remove_range (take result.end pending.now) result.front result.back
        ≡ kept_of delay first (before first.0 pending.now) }
    ensures chain { IsRun pending.now result.back result.end first.1 }
{
    let end = count_before(pending, pending.len(), first.0);
    let reject = match delay {
        Delay::Transport => return KeptTransactions {
            front: end,
            back: end,
            end,
        },
        Delay::Inertial { reject } => reject,
    };
    let limit = first.0 - reject;
    let back = chain_start(pending, run, end, limit, first.1);
    let front = count_before(pending, back, limit);
    KeptTransactions { front, back, end }
}

/// Removes the transactions from `front` up to `back`.
pub(crate) fn close_gap(list: &mut Transactions, front: usize, back: usize)
    requires order { front ≤ back }
    requires within { back ≤ small_vec_len list.old }
    ensures items { list.new.items ≡ remove_range list.old.items front back }
    ensures capacity { list.new.capacity ≡ list.old.capacity }
{
    if front < back {
        let len = list.len();
        list.as_mut_slice().copy_within(back.., front);
        list.truncate(len - (back - front));
    }
}

/// Appends the elements, each at `now` plus its delay.
fn append(list: &mut Transactions, now: u64, elements: &[Transaction])
    requires room { small_vec_len list.old + length elements.now ≤ list.old.capacity }
    requires now { now ≤ largest_time }
    requires delays { All (λ (element : transaction). element.0 ≤ largest_time) elements.now }
    ensures items { list.new.items ≡ list.old.items ++ scheduled now elements.now }
    ensures capacity { list.new.capacity ≡ list.old.capacity }
{
    for (delay, value) in elements {
        list.push_reserved((now + *delay, *value));
    }
}

/// Removes what is not kept, and appends the elements to a list that has room for them.
pub(crate) fn rewrite(
    list: &mut Transactions,
    kept: KeptTransactions,
    now: u64,
    elements: &[Transaction],
)
    requires within { kept.end ≤ small_vec_len list.old }
    requires room { kept.front + (kept.end - kept.back) + length elements.now
        ≤ list.old.capacity }
    requires now { now ≤ largest_time }
    requires delays { All (λ (element : transaction). element.0 ≤ largest_time) elements.now }
    ensures items { list.new.items
        ≡ remove_range (take kept.end list.old.items) kept.front kept.back
        ++ scheduled now elements.now }
    ensures capacity { list.new.capacity ≡ list.old.capacity }
{
    list.truncate(kept.end);
    close_gap(list, kept.front, kept.back);
    append(list, now, elements);
}

/// Returns true if the delay keeps `old`, the only pending transaction, when `new` is assigned.
pub(crate) fn keeps(old: Transaction, delay: Delay, new: Transaction) -> bool
    requires { IsWithin delay new.0 }
    ensures { IsTrue result ↔ (kept_of delay new (before new.0 (old ∷ [])) ≡ old ∷ []) }
{
    if old.0 >= new.0 {
        return false;
    }
    match delay {
        Delay::Transport => true,
        Delay::Inertial { reject } => old.0 < new.0 - reject || old.1 == new.1,
    }
}
