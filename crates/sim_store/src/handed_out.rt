//! A run with a phase handed out.

ghost use Rattle.std.specs.Prelude.{ℕ, ◌≡◌, None, false, length, IfErr, IfOk};
ghost use Rattle.std.specs.Arc.{arc_value};
ghost use Rattle.sim_store.specs.Handing as spec;
ghost use Rattle.sim_store.specs.Retained.{IsRetained, retained_of};
ghost use Rattle.sim_store_simulation.specs.Simulation as simulations;
ghost use Rattle.sim_store.specs.Run as runs;
ghost use Rattle.sim_store.specs.WaveStore as store;
ghost use Rattle.sim_store.specs.declared.error.HandOutError.TheVariants as reason;
ghost use Rattle.sim_containers.specs.RowArray.{joined};
ghost use Rattle.sim_store_state.specs.FlatState.{AreShares, counts};

use crate::design_type::DesignType;
use crate::error::HandOutError;
use crate::handing::{lengths_of, orders_of, shares_of};
use crate::order::{Answer, Order};
use crate::phase_input::PhaseInput;
use crate::retained::{RetainedContents, join_contents, split_contents};
use crate::run::Run;
use sim_store_share::Share;
use sim_store_simulation::Simulation;
use sim_store_state::Log;
use std::alloc::{AllocError, Global};
use std::marker::Model;
use std::sync::Arc;

/// The rest of a run while a phase is handed out. Contracts see the run that was handed out,
/// and the number of processes of each order.
pub struct HandedOutStore<D: DesignType> {
    input: Arc<PhaseInput<D>, Global>,
    retained: RetainedContents,
    log: Log,
    parts: Vec<usize>,
    stop: u64,
    limit: u32,
}

/// Written by hand so that code which drops it needs no proof about its contents.
impl<D: DesignType> Drop for HandedOutStore<D> {
    fn drop(self) {
        let HandedOutStore {
            input,
            retained,
            log,
            parts,
            stop: _,
            limit: _,
        } = self;
        drop(input);
        drop(retained);
        drop(log);
        drop(parts);
    }
}

impl<D: DesignType> Model for HandedOutStore<D> {
    ghost use Rattle.std.specs.Prelude.{◌≡◌, None, length, sum};
    ghost use Rattle.std.specs.Arc.{arc_value};
    ghost use Rattle.std.specs.Coded.{codes};
    ghost use Rattle.sim_flat_design.specs.contracts.expression.LogicExpression as logic;
    ghost use Rattle.sim_flat_design.specs.contracts.expression.BooleanExpression as boolean;
    ghost use Rattle.sim_flat_design.specs.contracts.statement.Statement as statement;
    ghost use Rattle.sim_store.specs.Handing.{HandedOutStore};
    ghost use Rattle.sim_store.specs.Retained.{IsRetained, retained_of};
    ghost use Rattle.sim_store.specs.WaveStore.{IsStore};
    ghost use Rattle.sim_store_simulation.specs.Simulation.{IsLogged};
    ghost use Rattle.sim_store_state.specs.FlatState.{AreShares};

    ghost Value = { HandedOutStore };

    ghost coded = { Prim.hlevel (codes, logic.the_row.coded, boolean.the_row.coded, statement.the_row.coded) };

    ghost view = { λ r. record {
      run = record {
        store = record { simulation = retained_of D.design (arc_value r.input) r.retained; stop = r.stop; limit = r.limit; ended = None };
        given = r.log.past.records;
      };
      parts = r.parts.items;
    } };

    ghost invariant = { λ r. IsRetained D.design (arc_value r.input) r.retained
        × IsStore (record { simulation = retained_of D.design (arc_value r.input) r.retained; stop = r.stop; limit = r.limit; ended = None })
        × AreShares r.parts.items × (sum r.parts.items ≡ length D.design.processes) × IsLogged (retained_of D.design (arc_value r.input) r.retained) r.log };
}

/// The orders for all processes, and the number of processes of each.
fn orders_and_lengths<D: DesignType>(
    alloc: Global,
    shares: Vec<Share>,
    input: &Arc<PhaseInput<D>, Global>,
) -> Result<(Vec<Order<D>>, Vec<usize>), AllocError>
    requires range { spec.IsRange (spec.at_input D.design (arc_value input.now))
        (simulations.reached (spec.at_input D.design (arc_value input.now))).owned 0 (joined shares.items) }
    requires all { length (joined shares.items) ≡ length D.design.processes }
    ensures orders { IfOk result (λ r. spec.AreParts (arc_value input.now).cycles (arc_value input.now).phase r.1.items r.0.items) }
    ensures lengths { IfOk result (λ r. r.1.items ≡ counts shares.items) }
{
    let orders = orders_of(alloc, shares, input)?;
    let lengths = lengths_of(alloc, orders.as_slice())?;
    Ok((orders, lengths))
}

/// The input that all threads share, with the orders for all processes and the number of processes
/// of each.
fn shared_input<D: DesignType>(
    alloc: Global,
    input: PhaseInput<D>,
    shares: Vec<Share>,
) -> Result<(Arc<PhaseInput<D>, Global>, Vec<Order<D>>, Vec<usize>), AllocError>
    requires range { spec.IsRange (spec.at_input D.design input) (simulations.reached (spec.at_input D.design input)).owned 0 (joined shares.items) }
    requires all { length (joined shares.items) ≡ length D.design.processes }
    ensures input { IfOk result (λ r. arc_value r.0 ≡ input) }
    ensures orders { IfOk result (λ r. spec.AreParts input.cycles input.phase r.2.items r.1.items) }
    ensures lengths { IfOk result (λ r. r.2.items ≡ counts shares.items) }
{
    let input = Arc::new(alloc, input)?;
    let (orders, parts) = orders_and_lengths(alloc, shares, &input)?;
    Ok((input, orders, parts))
}

/// Hands out a phase of a simulation with this log, stop time, in femtoseconds, and limit.
pub fn hand_out_phase<D: DesignType>(
    alloc: Global,
    simulation: Simulation,
    log: Log,
    stop: u64,
    limit: u32,
) -> Result<(HandedOutStore<D>, Vec<Order<D>>), AllocError>
    requires design { simulation.design ≡ D.design }
    requires fresh { (p : ℕ) → simulations.those_in simulation.deposited p ≡ false }
    requires log { simulations.IsLogged simulation log }
    requires bounds { store.IsStore (record { simulation = simulation; stop = stop; limit = limit; ended = None }) }
    ensures run { IfOk result (λ r. r.0.run ≡ record {
      store = record { simulation = simulation; stop = stop; limit = limit; ended = None };
      given = log.past.records;
    }) }
    ensures orders { IfOk result (λ r. spec.AreAll r.0 r.1.items) }
{
    let (design, contents) = simulation.into_contents();
    let (input, shares, retained) = split_contents::<D>(design, contents);
    let (input, orders, parts) = shared_input(alloc, input, shares)?;
    let handed_out = HandedOutStore {
        input,
        retained,
        log,
        parts,
        stop,
        limit,
    };
    Ok((handed_out, orders))
}

/// The input that was shared, and the drivers and variables of all processes according to the
/// answers to all orders. `parts` has the number of processes of each order.
fn collect_answers<D: DesignType>(
    alloc: Global,
    input: Arc<PhaseInput<D>, Global>,
    parts: Vec<usize>,
    answers: Vec<Answer<D>>,
) -> Result<(PhaseInput<D>, Vec<Share>), HandOutError>
    ensures input { IfOk result (λ r. r.0 ≡ arc_value input) }
    ensures range { IfOk result (λ r. spec.IsRange (spec.at_input D.design (arc_value input))
        (spec.completed (spec.at_input D.design (arc_value input))).owned 0 (joined r.1.items)) }
    ensures counts { IfOk result (λ r. counts r.1.items ≡ parts.items) }
    ensures err { IfErr result (λ e. e ≡ reason.Stranger
        → spec.AreParts (arc_value input).cycles (arc_value input).phase parts.items answers.items → ⊥) }
{
    let shares = shares_of(alloc, &input, parts.as_slice(), answers)?;
    match Arc::try_unwrap(input) {
        Ok(input) => Ok((input, shares)),
        Err(_input) => Err(HandOutError::OrderLeft),
    }
}

/// The simulation again, once all due processes have been executed.
fn simulation_of<D: DesignType>(
    alloc: Global,
    input: PhaseInput<D>,
    shares: Vec<Share>,
    retained: RetainedContents,
) -> Result<Simulation, AllocError>
    requires retained { IsRetained D.design input retained }
    requires range { spec.IsRange (spec.at_input D.design input) (spec.completed (spec.at_input D.design input)).owned 0 (joined shares.items) }
    requires all { length (joined shares.items) ≡ length D.design.processes }
    requires shares { AreShares (counts shares.items) }
    ensures same { IfOk result (λ s. s ≡ simulations.with_marks (retained_of D.design input retained) s.deposited) }
    ensures complete { IfOk result simulations.IsComplete }
{
    let (design, contents) = join_contents(input, shares, retained);
    let simulation = Simulation::of_contents(alloc, design, contents)?;
    Ok(simulation)
}

impl<D: DesignType> HandedOutStore<D> {
    /// The run again, from the answers to all orders, in their order. All due processes have been
    /// executed. Refusals: `Stranger` if the answers are not these, `OrderLeft` if an order still
    /// exists, which contracts cannot see, `Memory`. The run is then lost.
    pub fn take_back(self, alloc: Global, answers: Vec<Answer<D>>) -> Result<Run, HandOutError>
        ensures same { IfOk result (λ r. r ≡ runs.with_executed self.run r.store.simulation.deposited) }
        ensures complete { IfOk result (λ r. simulations.IsComplete r.store.simulation) }
        ensures err { IfErr result (λ e. e ≡ reason.Stranger → spec.AreAll self answers.items → ⊥) }
    {
        let HandedOutStore {
            input,
            retained,
            log,
            parts,
            stop,
            limit,
        } = self;
        let (input, shares) = collect_answers(alloc, input, parts, answers)?;
        let simulation = simulation_of(alloc, input, shares, retained)?;
        Ok(Run::open(simulation, log, stop, limit))
    }
}
