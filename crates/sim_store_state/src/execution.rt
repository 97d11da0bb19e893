//! Executes processes in place, in their shares (IEEE 1076-2008, 14.7.5.3 f, h).

ghost use Rattle.std.specs.Prelude.{ℕ, ◌≡◌, ◌<◌, ◌≤◌, ◌+◌, length, take, IfOk, OnOk};
ghost use Rattle.std.specs.List.{All};
ghost use Rattle.sim_containers.specs.RowArray.{joined};
ghost use Rattle.sim_store_nets.specs.Nets.{views_of};
ghost use Rattle.sim_store_share.specs.InTurn.{AreExecuted, IsTurn, nets_in};
ghost use Rattle.sim_store_state.specs.InTurn.{AreInShares, AreKeptIn};

use crate::flat_state::place_of;
use sim_exec::{Codes, Frame};
use sim_flat_design::Process;
use sim_store_nets::Values;
use sim_store_share::{Reading, Share};
use std::alloc::{AllocError, Global};

/// The input of all processes.
#[inline(always)]
pub fn reading_of<'a>(
    values: &'a Values,
    processes: &'a [Process],
    codes: &'a Codes,
    time: u64,
) -> Reading<'a>
    ensures nets { nets_in result ≡ views_of values.now.present values.now.before }
    ensures processes { result.processes.now ≡ processes.now }
    ensures codes { result.codes.now ≡ codes.now }
    ensures time { result.time ≡ time }
    ensures first { result.first ≡ 0 }
{
    let nets = values.seen();
    Reading {
        nets,
        processes,
        codes,
        time,
        first: 0,
    }
}

/// The number of these, from the front on, that are among the `count` numbers from `first` on.
#[inline(always)]
fn count_within(numbers: &[usize], first: usize, count: usize) -> usize
    ensures within { result ≤ length numbers.now }
    ensures each { All (λ (n : ℕ). (first ≤ n) × (n < first + count)) (take result numbers.now) }
{
    let mut place = 0;
    while place < numbers.len() && numbers[place] >= first && numbers[place] - first < count {
        place += 1;
    }
    place
}

/// Executes the first of these processes, and those that follow it in its share. Returns how many.
fn execute_in_one(
    alloc: Global,
    shares: &mut [Share],
    reading: &Reading,
    numbers: &[usize],
    frame: &mut Frame,
) -> Result<usize, AllocError>
    requires any { 0 < length numbers.now }
    requires here { AreInShares reading.now frame.old numbers.now shares.old }
    ensures frame { frame.new ≡ frame.old }
    ensures some { IfOk result (λ count. 0 < count) }
    ensures turn { IfOk result (IsTurn reading.now numbers.now (joined shares.old) (joined shares.new)) }
    ensures kept { AreKeptIn reading.now numbers.now shares.old shares.new }
{
    let number = numbers[0];
    let (place, inside) = place_of(shares, number);
    let first = number - inside;
    let share = &mut shares[place];
    let count = 1 + count_within(&numbers[1..], first, share.len());
    let here = Reading {
        nets: reading.nets,
        processes: reading.processes,
        codes: reading.codes,
        time: reading.time,
        first,
    };
    share.execute(alloc, &here, &numbers[..count], frame)?;
    Ok(count)
}

/// Executes these processes, in order. If allocation fails, some may have been executed, and none
/// must be executed again.
#[inline(never)]
fn execute_in_several(
    alloc: Global,
    shares: &mut [Share],
    reading: &Reading,
    numbers: &[usize],
    frame: &mut Frame,
) -> Result<(), AllocError>
    requires { AreInShares reading.now frame.old numbers.now shares.old }
    ensures frame { frame.new ≡ frame.old }
    ensures executed { OnOk result (AreExecuted reading.now numbers.now (joined shares.old) (joined shares.new)) }
    ensures kept { AreKeptIn reading.now numbers.now shares.old shares.new }
{
    let mut place = 0;
    while place < numbers.len() {
        place += execute_in_one(alloc, shares, reading, &numbers[place..], frame)?;
    }
    Ok(())
}

/// The same; with a single share, none has to be looked for.
#[inline(always)]
pub fn execute_in_shares(
    alloc: Global,
    shares: &mut [Share],
    reading: &Reading,
    numbers: &[usize],
    frame: &mut Frame,
) -> Result<(), AllocError>
    requires { AreInShares reading.now frame.old numbers.now shares.old }
    ensures frame { frame.new ≡ frame.old }
    ensures executed { OnOk result (AreExecuted reading.now numbers.now (joined shares.old) (joined shares.new)) }
    ensures kept { AreKeptIn reading.now numbers.now shares.old shares.new }
{
    if shares.len() == 1 {
        return shares[0].execute(alloc, reading, numbers, frame);
    }
    execute_in_several(alloc, shares, reading, numbers, frame)
}
