//! Orders that wait for one another.

use crate::board::Board;
use sim_run_team::Work;
use std::alloc::{AllocError, Global};
use std::sync::Arc;

/// An order to arrive, and to wait until this many have arrived. The answer is its number, or none.
#[derive(Drop)]
pub struct Visit {
    pub number: usize,
    pub awaited: u64,
    pub answers: bool,
    pub board: Arc<Board, Global>,
}

/// The work of visits.
pub struct Visits {}

impl Work for Visits {
    type Order = Visit;

    type Answer = usize;

    type Kept = ();

    ghost number_of_order = { λ v. v.number };

    ghost number_of_answer = { λ n. n };

    fn at_first() {}

    fn order_number(order: &Visit) -> usize {
        order.number
    }

    fn answer_number(answer: &usize) -> usize {
        *answer
    }

    fn is_large(order: &Visit, least: usize) -> bool {
        order.number >= least
    }

    fn carry_out(_alloc: Global, order: Visit, _kept: &mut ()) -> Option<usize> {
        order.board.arrive();
        if order.answers && order.board.has(order.awaited) {
            Some(order.number)
        } else {
            None
        }
    }
}

/// Visits numbered from 0, each of which waits until this many have arrived. The one with the
/// number `silent` has no answer.
pub fn orders(
    alloc: Global,
    count: usize,
    awaited: u64,
    silent: Option<usize>,
    board: &Arc<Board, Global>,
) -> Result<Vec<Visit>, AllocError> {
    let mut orders = Vec::new(alloc);
    for number in 0..count {
        orders.push(Visit {
            number,
            awaited,
            answers: silent != Some(number),
            board: Arc::try_clone(board)?,
        })?;
    }
    Ok(orders)
}
