//! Handing out a phase of a cycle: the orders, what stays here, and putting both together again.

ghost use Rattle.std.specs.Prelude.{◌≡◌, ◌++◌, [], ◌∷◌, Decides, IfErr, IfOk, OnOk, length};
ghost use Rattle.std.specs.Arc.{arc_value};
ghost use Rattle.sim_store.specs.Handing as spec;
ghost use Rattle.sim_store_simulation.specs.Simulation as simulations;
ghost use Rattle.sim_store.specs.declared.error.HandOutError.TheVariants as reason;
ghost use Rattle.sim_containers.specs.RowArray.{joined};
ghost use Rattle.sim_store_state.specs.FlatState.{counts};

use crate::design_type::DesignType;
use crate::error::HandOutError;
use crate::order::{Answer, Order};
use crate::phase_input::PhaseInput;
use sim_store_share::Share;
use std::alloc::{AllocError, Global};
use std::sync::Arc;

/// The order for the processes of a share, the first of which has this number.
fn order_of<D: DesignType>(
    input: &Arc<PhaseInput<D>, Global>,
    from: usize,
    share: Share,
) -> Result<Order<D>, AllocError>
    requires { spec.IsRange (spec.at_input D.design (arc_value input.now))
        (simulations.reached (spec.at_input D.design (arc_value input.now))).owned from share }
    ensures { IfOk result (λ o. o ≡ record {
      cycles = (arc_value input.now).cycles;
      phase = (arc_value input.now).phase;
      from = from;
      owned = share;
    }) }
{
    let theirs = Arc::try_clone(input)?;
    Ok(Order::new(from, share, theirs))
}

/// The orders for all processes, in the order of their numbers.
pub fn orders_of<D: DesignType>(
    alloc: Global,
    shares: Vec<Share>,
    input: &Arc<PhaseInput<D>, Global>,
) -> Result<Vec<Order<D>>, AllocError>
    requires range { spec.IsRange (spec.at_input D.design (arc_value input.now))
        (simulations.reached (spec.at_input D.design (arc_value input.now))).owned 0 (joined shares.items) }
    requires all { length (joined shares.items) ≡ length D.design.processes }
    ensures { IfOk result (λ v. spec.AreParts (arc_value input.now).cycles (arc_value input.now).phase (counts shares.items) v.items) }
{
    let count = shares.len();
    let mut orders = Vec::with_capacity(alloc, count)?;
    let mut shares = shares;
    let mut to = input.count();
    for _turn in 0..count {
        let Some(share) = shares.pop() else {
            unreachable!()
        };
        to -= share.len();
        let order = order_of(input, to, share)?;
        orders.push(order)?;
    }
    orders.as_mut_slice().reverse();
    Ok(orders)
}

/// The number of processes of each order.
pub fn lengths_of<D: DesignType>(
    alloc: Global,
    orders: &[Order<D>],
) -> Result<Vec<usize>, AllocError>
    ensures { IfOk result (λ v. v.items ≡ spec.lengths orders.now) }
{
    orders.iter().map(|order| order.len()).collect(alloc)
}

/// Whether an answer is of the phase read here, and for this many processes from this one on.
fn is_next<D: DesignType>(
    answer: &Answer<D>,
    input: &PhaseInput<D>,
    from: usize,
    count: usize,
) -> bool
    ensures { Decides result ((answer.now.cycles ≡ input.now.cycles) × (answer.now.phase ≡ input.now.phase)
        × (answer.now.from ≡ from) × (length answer.now.owned ≡ count)) }
{
    answer.cycles() == input.cycles()
        && answer.phase() == input.phase()
        && answer.from() == from
        && answer.len() == count
}

/// Appends a share.
fn add(shares: &mut Vec<Share>, share: Share) -> Result<(), AllocError>
    ensures { OnOk result (shares.new.items ≡ shares.old.items ++ share ∷ []) }
{
    shares.push(share)?;
    Ok(())
}

/// The drivers and variables of all processes, according to the answers to all orders of the phase
/// read here, which had this many processes each.
pub fn shares_of<D: DesignType>(
    alloc: Global,
    input: &PhaseInput<D>,
    parts: &[usize],
    answers: Vec<Answer<D>>,
) -> Result<Vec<Share>, HandOutError>
    ensures range { IfOk result (λ s. spec.IsRange (spec.at_input D.design input.now)
        (spec.completed (spec.at_input D.design input.now)).owned 0 (joined s.items)) }
    ensures counts { IfOk result (λ s. counts s.items ≡ parts.now) }
    ensures err { IfErr result (λ e. e ≡ reason.Stranger → spec.AreParts input.now.cycles input.now.phase parts.now answers.items → ⊥) }
{
    let _count = input.count();
    let mut shares = Vec::with_capacity(alloc, parts.len())?;
    let mut from = 0;
    for answer in answers {
        let number = shares.len();
        if number == parts.len() {
            return Err(HandOutError::Stranger);
        }
        if !is_next(&answer, input, from, parts[number]) {
            return Err(HandOutError::Stranger);
        }
        from += parts[number];
        add(&mut shares, answer.into_share())?;
    }
    if shares.len() != parts.len() {
        return Err(HandOutError::Stranger);
    }
    Ok(shares)
}
