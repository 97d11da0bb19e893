//! Answers and refusals of stores.

use crate::line::Line;
use crate::scripts::Call::{
    Advance, Bounds, Deposit, Due, Ended, History, Look, Records, Run, RunSeeing, State, Total,
    Value,
};
use crate::scripts::{Script, follow};
use crate::texts::{CHOICE, EMPTY, EXCHANGE, ONCE, POSTPONED, TOGGLE, TWO_DRIVERS};
use sim_logic::{LATEST, Logic};
use std::alloc::Global;
use std::test::Fail;

/// Each script has a store and results of its own: processes that are missing, and results that
/// come twice or late; a postponed process, and the delta cycle that it causes; a process that is
/// not due; a run that has ended; as many cycles as the limit, and one more; the latest stop time,
/// and a later one; processes sensitive to what changed, and processes that read each other see the
/// values before the cycle; an ended run is read, and its history copied; record 0 has every net; a
/// store has its bounds; a result of a changed input, and then the right one; an ended run takes
/// and hands out nothing. A refusal leaves the store unchanged.
static SCRIPTS: [Script<'_>; 15] = [
    (
        TWO_DRIVERS,
        LATEST,
        10,
        0,
        &[
            Advance,
            Run(0),
            Run(0),
            Run(1),
            Run(1),
            Deposit(0),
            Advance,
            Deposit(1),
            Deposit(2),
            Advance,
            Deposit(3),
        ],
        "Missing 0;done;done;done;done;done;Missing 1;Twice;done;Next;Stale;",
    ),
    (
        POSTPONED,
        LATEST,
        10,
        0,
        &[
            Advance,
            Run(1),
            Run(0),
            Deposit(0),
            Advance,
            Look,
            Due,
            Run(0),
            Run(1),
            Deposit(1),
            Advance,
        ],
        "Missing 0;NotDue;done;done;Postponed;1 0+0,0;1 ;NotDue;done;done;Next;",
    ),
    (
        POSTPONED,
        LATEST,
        10,
        3,
        &[
            Due,
            Advance,
            Ended,
            Run(1),
            Deposit(0),
            Advance,
            Ended,
            Look,
            Due,
        ],
        ";Postponed;none;done;done;PostponedDelta;PostponedDelta;3 1000000+0,1;;",
    ),
    (
        TOGGLE,
        LATEST,
        10,
        2,
        &[Due, Run(0), Run(2)],
        ";NotDue;NotDue;",
    ),
    (
        EMPTY,
        LATEST,
        10,
        0,
        &[Advance, Advance, Run(0)],
        "Finished;Ended;Ended;",
    ),
    (
        ONCE,
        LATEST,
        1,
        0,
        &[Run(0), Deposit(0), Advance, Advance],
        "done;done;Next;Finished;",
    ),
    (
        ONCE,
        LATEST,
        0,
        0,
        &[Run(0), Deposit(0), Advance, Advance],
        "done;done;LimitReached;Ended;",
    ),
    (ONCE, LATEST, 10, 0, &[], ""),
    (ONCE, LATEST + 1, 10, 0, &[], "StopTooLate"),
    (
        EXCHANGE,
        LATEST,
        10,
        1,
        &[
            Due,
            Run(2),
            Run(1),
            Deposit(0),
            Deposit(1),
            Advance,
            Records(2),
            Value(1),
            Value(3),
            Total(0),
            Total(1),
            Total(3),
        ],
        "1 2 ;done;done;done;done;Next;5000000+1 1=1 2=0,;1;none;1;1;none;",
    ),
    (
        CHOICE,
        LATEST,
        10,
        4,
        &[Ended, Due, Look, Records(4), Records(9), Bounds, History],
        "Finished;;4 10000000+0,2;;Behind 4;4611686018427387903 10 2;\
a q 0+0 0=0 1=0,1000000+0 0=1,8000000+0 1=1,10000000+0,3 2;",
    ),
    (
        TWO_DRIVERS,
        LATEST,
        10,
        1,
        &[Records(0)],
        "0+0 0=U,0+1 0=X,;",
    ),
    (
        ONCE,
        LATEST,
        7,
        0,
        &[Bounds, Ended],
        "4611686018427387903 7 1;none;",
    ),
    (
        EXCHANGE,
        LATEST,
        10,
        1,
        &[
            RunSeeing(1, 1, Logic::Zero),
            Run(1),
            State,
            Deposit(0),
            State,
            Deposit(1),
        ],
        "done;done;2 5000000+0,1;1 2 ;0+0 0=0 1=0 2=1,5000000+0 0=1,;\
Foreign;2 5000000+0,1;1 2 ;0+0 0=0 1=0 2=1,5000000+0 0=1,;done;",
    ),
    (
        ONCE,
        LATEST,
        10,
        0,
        &[
            Run(0),
            Run(0),
            Deposit(0),
            Advance,
            Advance,
            State,
            Deposit(1),
            State,
            Advance,
            Run(0),
            State,
        ],
        "done;done;done;Next;Finished;2 5000000+0,1;;0+0 0=0,5000000+0 0=1,;\
Ended;2 5000000+0,1;;0+0 0=0,5000000+0 0=1,;Ended;Ended;2 5000000+0,1;;0+0 0=0,5000000+0 0=1,;",
    ),
];

/// One result for two stores: it is foreign to the second, where the result is still missing.
static FOREIGN: [Script<'_>; 2] = [
    (TWO_DRIVERS, LATEST, 10, 0, &[Run(0)], "done;"),
    (
        ONCE,
        LATEST,
        10,
        0,
        &[Deposit(0), Advance],
        "Foreign;Missing 0;",
    ),
];

/// The answers of stores to the scripts, and those that the scripts expect.
fn followed(alloc: Global) -> (Line, Line) {
    let mut found = Line::new(alloc);
    let mut wanted = Line::new(alloc);
    for script in SCRIPTS.iter() {
        let mut kept = Vec::new(alloc);
        follow(&mut found, alloc, &mut kept, script);
        found.put("\n");
        wanted.put(script.5);
        wanted.put("\n");
    }
    (found, wanted)
}

/// The answers of two stores, one after the other; the second also gets results of the first.
fn handed_on(alloc: Global) -> (Line, Line) {
    let mut found = Line::new(alloc);
    let mut wanted = Line::new(alloc);
    let mut kept = Vec::new(alloc);
    for script in FOREIGN.iter() {
        follow(&mut found, alloc, &mut kept, script);
        wanted.put(script.5);
    }
    (found, wanted)
}

#[test]
fn stores_answer_their_calls(rt: HostRuntime) -> Result<(), Fail> {
    let (found, wanted) = followed(rt.alloc());
    assert_eq!(rt; found.whole()?.as_str(), wanted.whole()?.as_str());
    Ok(())
}

#[test]
fn a_result_of_another_store_is_foreign(rt: HostRuntime) -> Result<(), Fail> {
    let (found, wanted) = handed_on(rt.alloc());
    assert_eq!(rt; found.whole()?.as_str(), wanted.whole()?.as_str());
    Ok(())
}
