//! Executes processes of a share, one after another, in place.

ghost use Rattle.std.specs.Prelude.{◌≡◌, ◌<◌, ◌≤◌, ◌-◌, [], ◌∷◌, true, false, length, take, slice_set, IfOk, IfSome, OnOk};
ghost use Rattle.std.specs.List.{All};
ghost use Rattle.sim_logic.specs.Time.{largest_time};
ghost use Rattle.sim_wave.specs.Rising.{RisesFrom};
ghost use Rattle.sim_exec_code.specs.Codes as code;
ghost use Rattle.sim_exec_code.specs.Guards.{is_missing};
ghost use Rattle.sim_standard.specs.State.{net_at, owned_at};
ghost use Rattle.sim_store_share.specs.Assignments.{AreAssigned, IsAssigned};
ghost use Rattle.sim_store_share.specs.InTurn.{AreExecuted, AreKept, IsExecutable, IsReading, IsTurn, nets_in};
ghost use Rattle.sim_store_nets.specs.Nets.{views_of};

use crate::body::{as_done, execute_in_rows, may_have_changed};
use crate::reading::Reading;
use crate::rows::item_mut;
use crate::share::{Share, tell};
use sim_exec_code::{Codes, Frame, SingleAssignment};
use sim_store_nets::ByNumber;
use sim_wave::Driver;
use std::alloc::{AllocError, Global};

/// The number of processes at the front of these that lack the edge that guards them all. It is not
/// inlined, so that the loop that asks it keeps its registers.
#[inline(never)]
fn count_idle(reading: &Reading, numbers: &[usize]) -> usize
    ensures within { result ≤ length numbers.now }
    ensures idle { All (code.DoesNothing reading.now.codes.now (net_at (nets_in reading.now))) (take result numbers.now) }
{
    reading.codes.count_idle(&reading.nets, numbers)
}

/// The first process with the edge of the process with a number, if the first of the others is known
/// to have that edge too.
#[inline(always)]
fn first_alike(codes: &Codes, number: usize, others: &[usize]) -> Option<u32>
    ensures { IfSome result (λ first. code.edge_at codes.now.edges first ≡ code.edge_at codes.now.edges number) }
{
    match others.first() {
        None => None,
        Some(other) => codes.first_alike(number, *other),
    }
}

/// The number of processes at the front of these that are known to lack the edge for which the process
/// with a number waits.
#[inline(always)]
fn count_idle_after(reading: &Reading, codes: &Codes, number: usize, others: &[usize]) -> usize
    requires { codes.now ≡ reading.now.codes.now }
    ensures within { result ≤ length others.now }
    ensures idle { All (code.DoesNothing reading.now.codes.now (net_at (nets_in reading.now))) (take result others.now) }
{
    if first_alike(codes, number, others).is_some() {
        count_idle(reading, others)
    } else {
        0
    }
}

/// Carries out an assignment on its driver, which is known to be without delay if `NOW`. Returns also
/// the first pending time of the driver after that.
#[inline(always)]
fn assign_to<const NOW: bool>(
    nets: &ByNumber,
    time: u64,
    quick: &SingleAssignment,
    driver: &mut Driver,
) -> (Result<(), AllocError>, Option<u64>)
    requires delay { NOW ≡ true → quick.now.is_now ≡ true }
    requires time { time ≤ largest_time }
    requires pending { RisesFrom time driver.old.pending }
    ensures { IsAssigned (net_at (views_of nets.now.values.now nets.now.values_before.now)) time quick.now result.0 result.1 driver.old driver.new }
{
    if NOW {
        quick.execute_now(nets, time, driver)
    } else {
        quick.execute(nets, time, driver)
    }
}

impl Share {
    /// Carries out the assignment of the process at a place, whose body is that alone. It is known to
    /// be without delay if `NOW`. If allocation fails, nothing changes.
    #[inline(always)]
    fn assign<const NOW: bool>(
        &mut self,
        nets: &ByNumber,
        time: u64,
        place: usize,
        quick: &SingleAssignment,
    ) -> Result<(), AllocError>
        requires delay { NOW ≡ true → quick.now.is_now ≡ true }
        requires time { time ≤ largest_time }
        requires at { place < length self.old }
        requires pending { All (λ d. RisesFrom time d.pending) (owned_at self.old place).drivers }
        ensures alone { self.new ≡ slice_set self.old place (record (owned_at self.old place) { drivers = (owned_at self.new place).drivers }) }
        ensures assigned { AreAssigned (net_at (views_of nets.now.values.now nets.now.values_before.now)) time quick.now result
            (owned_at self.old place).drivers (owned_at self.new place).drivers }
    {
        let (start, end) = self.drivers.row_bounds(place);
        let position = quick.driver();
        if position >= end - start {
            return Ok(());
        }
        let own = start + position;
        let (done, next) = assign_to::<NOW>(nets, time, quick, item_mut(&mut self.drivers, own));
        self.times.put(own, next);
        done
    }

    /// Executes those of these processes, from the first on, whose bodies are assignments without delay
    /// under the edge of the process `alike`, which is not missing. Returns how many. The edge is not
    /// tested again. It is not inlined, so that its loop has the registers.
    #[inline(never)]
    fn execute_alike(
        &mut self,
        reading: &Reading,
        numbers: &[usize],
        alike: u32,
    ) -> Result<usize, AllocError>
        requires reading { IsReading reading.now }
        requires edge { is_missing (net_at (nets_in reading.now)) (code.edge_at reading.now.codes.now.edges alike) ≡ false }
        requires each { All (IsExecutable reading.now self.old) numbers.now }
        ensures turn { IfOk result (IsTurn reading.now numbers.now self.old self.new) }
        ensures kept { AreKept reading.now numbers.now self.old self.new }
    {
        let Reading {
            nets,
            processes: _,
            codes,
            time,
            first,
        } = *reading;
        let mut place = 0;
        while place < numbers.len() {
            let number = numbers[place];
            let Some(quick) = codes.quick_alike(alike, number) else {
                return Ok(place);
            };
            self.assign::<true>(&nets, time, number - first, quick)?;
            place += 1;
        }
        Ok(place)
    }

    /// Executes those of these processes, from the first on, whose bodies are assignments under the edge
    /// of the process with a number, as far as is known. The edge is not missing. Returns how many.
    #[inline(always)]
    fn execute_after(
        &mut self,
        reading: &Reading,
        codes: &Codes,
        number: usize,
        others: &[usize],
    ) -> Result<usize, AllocError>
        requires reading { IsReading reading.now }
        requires codes { codes.now ≡ reading.now.codes.now }
        requires edge { is_missing (net_at (nets_in reading.now)) (code.edge_at codes.now.edges number) ≡ false }
        requires each { All (IsExecutable reading.now self.old) others.now }
        ensures turn { IfOk result (IsTurn reading.now others.now self.old self.new) }
        ensures kept { AreKept reading.now others.now self.old self.new }
    {
        let Some(alike) = first_alike(codes, number, others) else {
            return Ok(0);
        };
        self.execute_alike(reading, others, alike)
    }

    /// Executes the body of the process with a number by its code.
    #[inline(never)]
    fn execute_body(
        &mut self,
        alloc: Global,
        reading: &Reading,
        number: usize,
        frame: &mut Frame,
    ) -> Result<(), AllocError>
        requires reading { IsReading reading.now }
        requires frame { code.FitsAll reading.now.codes.now.codes frame.old }
        requires here { IsExecutable reading.now self.old number }
        ensures frame { frame.new ≡ frame.old }
        ensures done { OnOk result (AreExecuted reading.now (number ∷ []) self.old self.new) }
        ensures kept { AreKept reading.now (number ∷ []) self.old self.new }
    {
        let done = execute_in_rows(
            alloc,
            reading,
            number,
            frame,
            &mut self.drivers,
            &mut self.variables,
        );
        if !may_have_changed(&done) {
            return Ok(());
        }
        let (start, end) = self.drivers.row_bounds(number - reading.first);
        tell(&mut self.times, &self.drivers, start, end);
        as_done(done)
    }

    /// Executes the first of these processes, or passes over those that lack its edge, from the first
    /// on, as far as is known. Returns how many.
    #[inline(always)]
    fn execute_coded(
        &mut self,
        alloc: Global,
        reading: &Reading,
        numbers: &[usize],
        frame: &mut Frame,
    ) -> Result<usize, AllocError>
        requires any { 0 < length numbers.now }
        requires reading { IsReading reading.now }
        requires frame { code.FitsAll reading.now.codes.now.codes frame.old }
        requires each { All (IsExecutable reading.now self.old) numbers.now }
        ensures frame { frame.new ≡ frame.old }
        ensures some { IfOk result (λ count. 0 < count) }
        ensures turn { IfOk result (IsTurn reading.now numbers.now self.old self.new) }
        ensures kept { AreKept reading.now numbers.now self.old self.new }
    {
        let idle = count_idle(reading, numbers);
        if idle > 0 {
            return Ok(idle);
        }
        self.execute_body(alloc, reading, numbers[0], frame)?;
        Ok(1)
    }

    /// Executes these of its processes, in order, unless they lack the edge without which they do
    /// nothing. Those that wait for the same edge are executed, or passed over, together. If
    /// allocation fails, some may have been executed, and none must be executed again.
    #[inline(always)]
    pub fn execute(
        &mut self,
        alloc: Global,
        reading: &Reading,
        numbers: &[usize],
        frame: &mut Frame,
    ) -> Result<(), AllocError>
        requires reading { IsReading reading.now }
        requires frame { code.FitsAll reading.now.codes.now.codes frame.old }
        requires each { All (IsExecutable reading.now self.old) numbers.now }
        ensures frame { frame.new ≡ frame.old }
        ensures executed { OnOk result (AreExecuted reading.now numbers.now self.old self.new) }
        ensures kept { AreKept reading.now numbers.now self.old self.new }
    {
        let Reading {
            nets,
            processes: _,
            codes,
            time,
            first,
        } = *reading;
        let mut place = 0;
        while place < numbers.len() {
            let number = numbers[place];
            let Some(quick) = codes.quick(number) else {
                place += self.execute_coded(alloc, reading, &numbers[place..], frame)?;
                continue;
            };
            place += 1;
            if quick.is_idle(&nets) {
                place += count_idle_after(reading, codes, number, &numbers[place..]);
                continue;
            }
            self.assign::<false>(&nets, time, number - first, quick)?;
            if !quick.has_edge() {
                continue;
            }
            place += self.execute_after(reading, codes, number, &numbers[place..])?;
        }
        Ok(())
    }
}
