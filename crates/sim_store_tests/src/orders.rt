//! Phases that are handed out, executed share by share, and taken back.

ghost use Rattle.std.specs.Prelude.{◌≡◌, IfSome};

use crate::line::Line;
use crate::scripts::Call::{Advance, State, Total, Value};
use crate::scripts::put_answers;
use crate::texts::{EXCHANGE, IDLE, NOTHING, POSTPONED, flat, go_on};
use sim_flat_design::Design;
use sim_logic::LATEST;
use sim_store::{Answer, DesignType, HandOutError, HandedOutStore, Order, Run, WaveStore};
use std::alloc::{AllocError, Global};
use std::marker::Brand;
use std::test::Fail;

/// The answers that are given back.
#[derive(Clone, Copy)]
enum Given {
    /// Those to all orders, in order.
    Own,
    /// These, with the first two exchanged.
    Exchanged,
    /// These without the last.
    LastMissing,
    /// Those to the orders of another store.
    OfOther,
    /// The same, while the store's own orders still exist.
    OfOtherOwnLeft,
}

/// A text; the number of phases before one is handed out; the number of phases of another store,
/// whose answers may be given back; which answers are; and the result. An empty result means that
/// the store goes on as if all processes had been executed in it.
type Row<'a> = (&'a str, usize, usize, Given, &'a str);

static ROWS: [Row<'_>; 13] = [
    (EXCHANGE, 0, 0, Given::Own, ""),
    (EXCHANGE, 1, 1, Given::Own, ""),
    (EXCHANGE, 2, 2, Given::Own, ""),
    (POSTPONED, 0, 0, Given::Own, ""),
    (POSTPONED, 1, 1, Given::Own, ""),
    (EXCHANGE, 1, 1, Given::OfOther, ""),
    (EXCHANGE, 1, 1, Given::OfOtherOwnLeft, "OrderLeft"),
    (EXCHANGE, 1, 1, Given::Exchanged, "Stranger"),
    (EXCHANGE, 1, 1, Given::LastMissing, "Stranger"),
    (EXCHANGE, 1, 0, Given::OfOther, "Stranger"),
    (EXCHANGE, 0, 1, Given::OfOther, "Stranger"),
    (POSTPONED, 1, 0, Given::OfOther, "Stranger"),
    (POSTPONED, 0, 1, Given::OfOtherOwnLeft, "Stranger"),
];

/// A text, the number of phases before one is handed out, and the number of shares, which is also
/// that of orders. The store goes on as if all processes had been executed in it, undivided: in one
/// share, in shares of one process each, without processes, and where the last share has none due.
static DIVIDED: [(&str, usize, usize); 8] = [
    (EXCHANGE, 1, 1),
    (EXCHANGE, 1, 2),
    (EXCHANGE, 2, 100),
    (POSTPONED, 1, 2),
    (NOTHING, 0, 1),
    (NOTHING, 0, 4),
    (IDLE, 1, 2),
    (IDLE, 3, 2),
];

/// The run of a copy of a design after some phases, with its processes in this many shares.
fn begun(alloc: Global, design: &Design, phases: usize, shares: usize) -> Option<Run>
    ensures design { IfSome result (λ r. r.store.simulation.design ≡ design.now) }
    ensures whole { IfSome result (λ r. r.given ≡ 0) }
{
    let copy = design.try_copy().ok()?;
    let mut store = WaveStore::new(alloc, copy, LATEST, 100).ok()?;
    go_on(alloc, &mut store, phases);
    let run = store.into_run().divide(alloc, shares).ok()?;
    if !run.design().same(design) {
        return None;
    }
    Some(run)
}

/// The answers to orders, in their order.
fn answers_to<D: DesignType>(
    alloc: Global,
    orders: Vec<Order<D>>,
) -> Result<Vec<Answer<D>>, AllocError> {
    let mut answers = Vec::new(alloc);
    let mut frame = None;
    for order in orders {
        let answer = order.execute(alloc, &mut frame)?;
        answers.push(answer)?;
    }
    Ok(answers)
}

/// Exchanges the first two answers, or removes the last one.
fn change<D: DesignType>(given: Given, answers: Vec<Answer<D>>) -> Vec<Answer<D>> {
    let mut answers = answers;
    match given {
        Given::Exchanged if answers.len() > 1 => answers.as_mut_slice().swap(0, 1),
        Given::LastMissing => {
            let _last = answers.pop();
        }
        _ => {}
    }
    answers
}

/// The answers that are given back, and the orders that still exist.
fn answers_given<D: DesignType>(
    alloc: Global,
    given: Given,
    own: Vec<Order<D>>,
    others: Vec<Order<D>>,
) -> Result<(Vec<Answer<D>>, Vec<Order<D>>), AllocError> {
    let (executed, left) = match given {
        Given::OfOther => (others, Vec::new(alloc)),
        Given::OfOtherOwnLeft => (others, own),
        _ => (own, others),
    };
    let answers = answers_to(alloc, executed)?;
    Ok((change(given, answers), left))
}

/// Appends what can be read of a store, and what it answers when it advances.
fn put_next(line: &mut Line, alloc: Global, store: WaveStore) {
    let mut store = store;
    let mut kept = Vec::new(alloc);
    let calls = [Advance, State, Value(0), Value(1), Total(1), Advance];
    put_answers(line, alloc, &mut store, &mut kept, calls.as_slice());
}

/// Takes a phase back, and appends the result.
fn put_taken_back<D: DesignType>(
    line: &mut Line,
    alloc: Global,
    handed_out: HandedOutStore<D>,
    answers: Vec<Answer<D>>,
)
    requires { handed_out.run.given ≡ 0 }
{
    match handed_out.take_back(alloc, answers) {
        Ok(run) => put_next(line, alloc, WaveStore::of_run(run)),
        Err(HandOutError::Stranger) => line.put("Stranger"),
        Err(HandOutError::OrderLeft) => line.put("OrderLeft"),
        Err(HandOutError::Memory) => line.put("Memory"),
    }
}

/// A run of which a phase is handed out, and the orders; `None` if memory runs out.
fn handed<D: DesignType>(alloc: Global, run: Run) -> Option<(HandedOutStore<D>, Vec<Order<D>>)>
    requires { run.store.simulation.design ≡ D.design }
    ensures { IfSome result (λ r. r.0.run.given ≡ run.given) }
{
    if !run.is_untouched() {
        return None;
    }
    run.hand_out::<D>(alloc).ok()
}

/// The orders alone.
fn orders_of<D: DesignType>(alloc: Global, run: Run) -> Option<Vec<Order<D>>>
    requires { run.store.simulation.design ≡ D.design }
{
    let (_handed_out, orders) = handed::<D>(alloc, run)?;
    Some(orders)
}

/// Hands out a phase of a run and one of another, and appends the result of the answers.
fn put_handed<D: DesignType>(line: &mut Line, alloc: Global, own: Run, other: Run, given: Given)
    requires own { own.store.simulation.design ≡ D.design }
    requires whole { own.given ≡ 0 }
    requires other { other.store.simulation.design ≡ D.design }
{
    let Some(others) = orders_of::<D>(alloc, other) else {
        return line.put("no orders of the other");
    };
    let Some((handed_out, orders)) = handed::<D>(alloc, own) else {
        return line.put("no orders");
    };
    match answers_given(alloc, given, orders, others) {
        Err(_refused) => line.put("no memory"),
        Ok((answers, _left)) => put_taken_back(line, alloc, handed_out, answers),
    }
}

/// The result of a row.
fn put_row(line: &mut Line, alloc: Global, design: &Design, row: &Row<'_>) {
    let Some(own) = begun(alloc, design, row.1, 3) else {
        return line.put("no store");
    };
    let Some(other) = begun(alloc, design, row.2, 3) else {
        return line.put("no store");
    };
    put_handed::<Brand>(line, alloc, own, other, row.3);
}

/// The result if all processes are executed in the store.
fn put_executed(line: &mut Line, alloc: Global, design: &Design, phases: usize) {
    let Some(run) = begun(alloc, design, phases, 1) else {
        return line.put("no store");
    };
    match WaveStore::of_run(run).execute_due(alloc) {
        Ok(store) => put_next(line, alloc, store),
        Err(_refused) => line.put("no memory"),
    }
}

/// Appends the expected result of a row.
fn put_wanted(line: &mut Line, alloc: Global, design: &Design, row: &Row<'_>) {
    if row.4.is_empty() {
        put_executed(line, alloc, design, row.1);
    } else {
        line.put(row.4);
    }
}

/// The result of a row of divided stores.
fn put_divided(line: &mut Line, alloc: Global, design: &Design, row: &(&str, usize, usize)) {
    let Some(own) = begun(alloc, design, row.1, row.2) else {
        return line.put("no store");
    };
    let Some(other) = begun(alloc, design, row.1, 1) else {
        return line.put("no store");
    };
    put_handed::<Brand>(line, alloc, own, other, Given::Own);
}

/// The results of divided stores, and those of stores that execute all processes themselves.
fn divided(alloc: Global) -> (Line, Line) {
    let mut found = Line::new(alloc);
    let mut wanted = Line::new(alloc);
    for row in DIVIDED.iter() {
        match flat(alloc, row.0) {
            None => found.put("no design"),
            Some(design) => {
                put_divided(&mut found, alloc, &design, row);
                put_executed(&mut wanted, alloc, &design, row.1);
            }
        }
        found.put("\n");
        wanted.put("\n");
    }
    (found, wanted)
}

/// The results of all rows, and the expected ones.
fn handed_out(alloc: Global) -> (Line, Line) {
    let mut found = Line::new(alloc);
    let mut wanted = Line::new(alloc);
    for row in ROWS.iter() {
        match flat(alloc, row.0) {
            None => found.put("no design"),
            Some(design) => {
                put_row(&mut found, alloc, &design, row);
                put_wanted(&mut wanted, alloc, &design, row);
            }
        }
        found.put("\n");
        wanted.put("\n");
    }
    (found, wanted)
}

#[test]
fn phases_are_handed_out_and_taken_back(rt: HostRuntime) -> Result<(), Fail> {
    let (found, wanted) = handed_out(rt.alloc());
    assert_eq!(rt; found.whole()?.as_str(), wanted.whole()?.as_str());
    Ok(())
}

#[test]
fn any_number_of_shares_leaves_the_same_store(rt: HostRuntime) -> Result<(), Fail> {
    let (found, wanted) = divided(rt.alloc());
    assert_eq!(rt; found.whole()?.as_str(), wanted.whole()?.as_str());
    Ok(())
}
