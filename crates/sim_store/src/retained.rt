//! The rest of a simulation while a phase is handed out, and how it is put together again.

ghost use Rattle.std.specs.Prelude.{ℕ, ◌≡◌, false, length};
ghost use Rattle.sim_store.specs.Handing as spec;
ghost use Rattle.sim_store.specs.Retained.{IsRetained, retained_of};
ghost use Rattle.sim_store_simulation.specs.Contents.{IsOf, simulation_of};
ghost use Rattle.sim_store_simulation.specs.Simulation as simulations;
ghost use Rattle.sim_containers.specs.RowArray.{joined};
ghost use Rattle.sim_store_state.specs.FlatState.{AreShares, counts};

use crate::design_type::DesignType;
use crate::phase_input::{PhaseFields, PhaseInput};
use sim_containers::{NumberSet, RisingRows};
use sim_exec::Frame;
use sim_flat_design::Design;
use sim_store_nets::UpdateLists;
use sim_store_share::Share;
use sim_store_simulation::{Compiled, Contents, Waiting};
use sim_store_state::FlatState;
use std::marker::PhantomData;

/// The contents of a simulation, except the input of a phase and the drivers and variables of its
/// processes.
#[derive(Drop)]
pub struct RetainedContents {
    pub delta: u64,
    pub sensitive: RisingRows,
    pub frame: Frame,
    pub lists: UpdateLists,
    pub waiting: Waiting,
    pub deposited: NumberSet,
    pub all_executed: bool,
    pub totals: Vec<u64>,
}

/// Takes apart what a simulation holds, with no process executed in this phase.
pub fn split_contents<D: DesignType>(
    design: Design,
    contents: Contents,
) -> (PhaseInput<D>, Vec<Share>, RetainedContents)
    requires design { design ≡ D.design }
    requires of { IsOf design contents }
    requires fresh { (p : ℕ) → simulations.those_in (simulation_of design contents).deposited p ≡ false }
    ensures same { retained_of D.design result.0 result.2 ≡ simulation_of design contents }
    ensures range { spec.IsRange (spec.at_input D.design result.0) (simulations.reached (spec.at_input D.design result.0)).owned 0 (joined result.1.items) }
    ensures all { length (joined result.1.items) ≡ length D.design.processes }
    ensures shares { AreShares (counts result.1.items) }
    ensures retained { IsRetained D.design result.0 result.2 }
{
    let (values, shares, lists) = contents.state.into_parts();
    let Compiled {
        sensitive,
        codes,
        frame,
    } = contents.compiled;
    let fields = PhaseFields {
        cycles: contents.cycles,
        phase: contents.phase,
        time: contents.time,
        design,
        codes,
        values,
        due: contents.due,
    };
    let input = PhaseInput {
        fields,
        of: PhantomData,
    };
    let retained = RetainedContents {
        delta: contents.delta,
        sensitive,
        frame,
        lists,
        waiting: contents.waiting,
        deposited: contents.deposited,
        all_executed: contents.all_executed,
        totals: contents.totals,
    };
    (input, shares, retained)
}

/// Puts it together again from its shares, once all due processes have been executed.
pub fn join_contents<D: DesignType>(
    input: PhaseInput<D>,
    shares: Vec<Share>,
    retained: RetainedContents,
) -> (Design, Contents)
    requires retained { IsRetained D.design input retained }
    requires range { spec.IsRange (spec.at_input D.design input) (spec.completed (spec.at_input D.design input)).owned 0 (joined shares.items) }
    requires all { length (joined shares.items) ≡ length D.design.processes }
    requires shares { AreShares (counts shares.items) }
    ensures of { IsOf result.0 result.1 }
    ensures same { simulation_of result.0 result.1
        ≡ simulations.with_marks (retained_of D.design input retained) (simulation_of result.0 result.1).deposited }
    ensures complete { simulations.IsComplete (simulation_of result.0 result.1) }
{
    let PhaseInput { fields, of: _ } = input;
    let PhaseFields {
        cycles,
        phase,
        time,
        design,
        codes,
        values,
        due,
    } = fields;
    let state = FlatState::of_parts(values, shares, retained.lists);
    let contents = Contents {
        cycles,
        time,
        delta: retained.delta,
        compiled: Compiled {
            sensitive: retained.sensitive,
            codes,
            frame: retained.frame,
        },
        state,
        phase,
        due,
        waiting: retained.waiting,
        deposited: retained.deposited,
        all_executed: true,
        totals: retained.totals,
    };
    (design, contents)
}
