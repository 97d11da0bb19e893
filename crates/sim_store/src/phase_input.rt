//! The input that all threads read while the processes of a phase are executed.

ghost use Rattle.std.specs.Prelude.{ℕ, ◌≡◌, ◌<◌, ◌≤◌, ◌+◌, length, slice_index_or, IfOk, OnOk};
ghost use Rattle.sim_exec_code.specs.Codes.{FitsAll};
ghost use Rattle.sim_store.specs.Handing as spec;
ghost use Rattle.sim_store_simulation.specs.Simulation.{reached};

use crate::design_type::DesignType;
use sim_exec::{Codes, Frame};
use sim_flat_design::Design;
use sim_store_nets::Values;
use sim_store_share::{Reading, Share};
use sim_store_simulation::{Due, Phase};
use std::alloc::{AllocError, Global};
use std::marker::{Model, PhantomData};

/// The values that are read during a phase, after a number of cycles. The time is in femtoseconds.
#[derive(Drop)]
pub struct PhaseFields {
    pub(crate) cycles: usize,
    pub(crate) phase: Phase,
    pub(crate) time: u64,
    pub(crate) design: Design,
    pub(crate) codes: Codes,
    pub(crate) values: Values,
    pub(crate) due: Due,
}

/// The same; by its type it belongs to the design named by D.
#[derive(Drop)]
pub struct PhaseInput<D: DesignType> {
    pub(crate) fields: PhaseFields,
    pub(crate) of: PhantomData<D>,
}

impl<D: DesignType> Model for PhaseInput<D> {
    ghost use Rattle.sim_store.specs.Handing.{PhaseInput, IsPhaseInput};

    ghost Value = { PhaseInput };

    ghost view = { λ f. record {
      cycles = f.fields.cycles;
      phase = f.fields.phase;
      time = f.fields.time;
      codes = f.fields.codes;
      values = f.fields.values;
      due = f.fields.due;
    } };

    ghost invariant = { λ f. IsPhaseInput D.design f.fields.design (record {
      cycles = f.fields.cycles;
      phase = f.fields.phase;
      time = f.fields.time;
      codes = f.fields.codes;
      values = f.fields.values;
      due = f.fields.due;
    }) };
}

/// The place among rising numbers of the first from a number on.
fn place_from(numbers: &[usize], from: usize) -> usize
    requires { (i j : ℕ) → i < j → j < length numbers.now → slice_index_or numbers.now i 0 < slice_index_or numbers.now j 0 }
    ensures within { result ≤ length numbers.now }
    ensures below { (k : ℕ) → k < result → slice_index_or numbers.now k 0 < from }
    ensures above { (k : ℕ) → result ≤ k → k < length numbers.now → from ≤ slice_index_or numbers.now k 0 }
{
    match numbers.binary_search(&from) {
        Ok(place) => place,
        Err(place) => place,
    }
}

impl<D: DesignType> PhaseInput<D> {
    /// The number of cycles completed.
    pub fn cycles(&self) -> usize
        ensures { result ≡ self.now.cycles }
    {
        self.fields.cycles
    }

    /// The phase.
    pub fn phase(&self) -> Phase
        ensures { result ≡ self.now.phase }
    {
        self.fields.phase
    }

    /// The number of processes.
    pub fn count(&self) -> usize
        ensures count { result ≡ length D.design.processes }
        ensures all { length (reached (spec.at_input D.design self.now)).owned ≡ length D.design.processes }
    {
        self.fields.design.processes().len()
    }

    /// A frame on which each process may be executed: the one that was kept, if it is long enough.
    pub fn frame(&self, alloc: Global, kept: Option<Frame>) -> Result<Frame, AllocError>
        ensures { IfOk result (FitsAll self.now.codes.codes) }
    {
        match kept {
            Some(frame) if self.fields.codes.fits(&frame) => Ok(frame),
            _ => self.fields.codes.frame(alloc),
        }
    }

    /// The due processes among `count` from a number on, rising.
    pub fn due(&self, from: usize, count: usize) -> &[usize]
        requires { from + count ≤ length D.design.processes }
        ensures { result.now ≡ spec.due_from (spec.at_input D.design self.now) from count }
    {
        let _processes = self.fields.design.processes().len();
        let numbers = self.fields.due.numbers();
        let start = place_from(numbers, from);
        let end = place_from(numbers, from + count);
        &numbers[start..end]
    }

    /// Executes the due processes of a share, the first of which has this number. If allocation
    /// fails, none must be executed again.
    pub fn execute(
        &self,
        alloc: Global,
        from: usize,
        frame: &mut Frame,
        share: &mut Share,
    ) -> Result<(), AllocError>
        requires range { spec.IsRange (spec.at_input D.design self.now) (reached (spec.at_input D.design self.now)).owned from share.old }
        requires frame { FitsAll self.now.codes.codes frame.old }
        ensures frame { frame.new ≡ frame.old }
        ensures range { OnOk result (spec.IsRange (spec.at_input D.design self.now) (spec.completed (spec.at_input D.design self.now)).owned from share.new) }
        ensures count { length share.new ≡ length share.old }
    {
        let numbers = self.due(from, share.len());
        let reading = Reading {
            nets: self.fields.values.seen(),
            processes: self.fields.design.processes(),
            codes: &self.fields.codes,
            time: self.fields.time,
            first: from,
        };
        share.execute(alloc, &reading, numbers, frame)
    }
}
