//! A share of the processes, handed out to be executed, and the answer to it.

ghost use Rattle.std.specs.Prelude.{◌≡◌, IfOk, length};
ghost use Rattle.std.specs.Arc.{arc_value};
ghost use Rattle.sim_store.specs.Handing as spec;
ghost use Rattle.sim_store_simulation.specs.Simulation.{reached};

use crate::design_type::DesignType;
use crate::phase_input::PhaseInput;
use sim_exec::Frame;
use sim_store_share::Share;
use sim_store_simulation::Phase;
use std::alloc::{AllocError, Global};
use std::marker::{Model, PhantomData};
use std::sync::Arc;

/// The drivers and variables of a range of processes at the beginning of a phase, the number of the
/// first one, and the input that they read. Contracts see the number.
pub struct Order<D: DesignType> {
    from: usize,
    share: Share,
    input: Arc<PhaseInput<D>, Global>,
}

/// Written by hand so that code which drops it needs no proof about its contents.
impl<D: DesignType> Drop for Order<D> {
    fn drop(self) {
        let Order {
            from: _,
            share,
            input,
        } = self;
        drop(share);
        drop(input);
    }
}

impl<D: DesignType> Model for Order<D> {
    ghost use Rattle.std.specs.Arc.{arc_value};
    ghost use Rattle.sim_store.specs.Handing.{IsRange, Range, at_input};
    ghost use Rattle.sim_store_simulation.specs.Simulation.{reached};

    ghost Value = { Range };

    ghost view = { λ o. record { cycles = (arc_value o.input).cycles; phase = (arc_value o.input).phase; from = o.from; owned = o.share } };

    ghost invariant = { λ o. IsRange (at_input D.design (arc_value o.input)) (reached (at_input D.design (arc_value o.input))).owned o.from o.share };
}

/// The drivers and variables of a range of processes once those that are due in a phase have been
/// executed. By its type it belongs to the design named by D.
#[derive(Drop)]
pub struct Answer<D: DesignType> {
    cycles: usize,
    phase: Phase,
    from: usize,
    share: Share,
    of: PhantomData<D>,
}

impl<D: DesignType> Model for Answer<D> {
    ghost use Rattle.sim_store.specs.Handing.{IsRange, Range, at_phase, completed};

    ghost Value = { Range };

    ghost view = { λ a. record { cycles = a.cycles; phase = a.phase; from = a.from; owned = a.share } };

    ghost invariant = { λ a. IsRange (at_phase D.design a.cycles a.phase) (completed (at_phase D.design a.cycles a.phase)).owned a.from a.share };
}

/// Executes the due processes of a share, on a frame that was kept, or on a new one; it is kept after
/// that.
fn executed<D: DesignType>(
    alloc: Global,
    input: &PhaseInput<D>,
    from: usize,
    share: Share,
    kept: &mut Option<Frame>,
) -> Result<Share, AllocError>
    requires range { spec.IsRange (spec.at_input D.design input.now) (reached (spec.at_input D.design input.now)).owned from share }
    ensures range { IfOk result (spec.IsRange (spec.at_input D.design input.now) (spec.completed (spec.at_input D.design input.now)).owned from) }
    ensures count { IfOk result (λ done. length done ≡ length share) }
{
    let mut share = share;
    let mut frame = input.frame(alloc, kept.take())?;
    input.execute(alloc, from, &mut frame, &mut share)?;
    *kept = Some(frame);
    Ok(share)
}

/// The answer to an order for these processes.
fn answered<D: DesignType>(
    alloc: Global,
    input: &PhaseInput<D>,
    from: usize,
    share: Share,
    kept: &mut Option<Frame>,
) -> Result<Answer<D>, AllocError>
    requires range { spec.IsRange (spec.at_input D.design input.now) (reached (spec.at_input D.design input.now)).owned from share }
    ensures { IfOk result (spec.IsAnswer (record { cycles = input.now.cycles; phase = input.now.phase; from = from; owned = share })) }
{
    let share = executed(alloc, input, from, share, kept)?;
    Ok(Answer::new(input.cycles(), input.phase(), from, share))
}

impl<D: DesignType> Order<D> {
    /// An order for these processes, with what they own at the beginning of the phase.
    pub fn new(from: usize, share: Share, input: Arc<PhaseInput<D>, Global>) -> Order<D>
        requires { spec.IsRange (spec.at_input D.design (arc_value input)) (reached (spec.at_input D.design (arc_value input))).owned from share }
        ensures { result ≡ record { cycles = (arc_value input).cycles; phase = (arc_value input).phase; from = from; owned = share } }
    {
        Order { from, share, input }
    }

    /// The number of the first process.
    pub fn from(&self) -> usize
        ensures { result ≡ self.now.from }
    {
        self.from
    }

    /// The number of processes.
    pub fn len(&self) -> usize
        ensures { result ≡ length self.now.owned }
    {
        self.share.len()
    }

    /// Whether at least this many of these processes are due, so that it is worth handing out.
    pub fn is_worthwhile(&self, least: usize) -> bool {
        self.input.due(self.from, self.share.len()).len() >= least
    }

    /// Executes the due processes. A frame that is kept from one order to the next is not made
    /// anew. If allocation fails, the share is lost.
    pub fn execute(self, alloc: Global, kept: &mut Option<Frame>) -> Result<Answer<D>, AllocError>
        ensures { IfOk result (spec.IsAnswer self) }
    {
        let Order { from, share, input } = self;
        answered(alloc, &input, from, share, kept)
    }
}

impl<D: DesignType> Answer<D> {
    /// The answer with the drivers and variables of these processes, once the due ones have been
    /// executed.
    fn new(cycles: usize, phase: Phase, from: usize, share: Share) -> Answer<D>
        requires { spec.IsRange (spec.at_phase D.design cycles phase) (spec.completed (spec.at_phase D.design cycles phase)).owned from share }
        ensures { result ≡ record { cycles = cycles; phase = phase; from = from; owned = share } }
    {
        Answer {
            cycles,
            phase,
            from,
            share,
            of: PhantomData,
        }
    }

    /// The number of cycles completed.
    pub fn cycles(&self) -> usize
        ensures { result ≡ self.now.cycles }
    {
        self.cycles
    }

    /// The phase.
    pub fn phase(&self) -> Phase
        ensures { result ≡ self.now.phase }
    {
        self.phase
    }

    /// The number of the first process.
    pub fn from(&self) -> usize
        ensures { result ≡ self.now.from }
    {
        self.from
    }

    /// The number of processes.
    pub fn len(&self) -> usize
        ensures { result ≡ length self.now.owned }
    {
        self.share.len()
    }

    /// The drivers and variables of the processes.
    pub fn into_share(self) -> Share
        ensures share { result ≡ self.owned }
        ensures range { spec.IsRange (spec.at_phase D.design self.cycles self.phase)
            (spec.completed (spec.at_phase D.design self.cycles self.phase)).owned self.from self.owned }
    {
        self.share
    }
}
