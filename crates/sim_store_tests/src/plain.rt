//! A store compared with a plain program of the standard's cycle, which looks at every driver, net
//! and process in each cycle.

use crate::line::Line;
use crate::reference::{Snapshot, snapshots};
use crate::scripts::Call::Records;
use crate::scripts::follow;
use crate::texts::{CHOICE, EXCHANGE, ONCE, PULSES, SETTLED, TOGGLE, TWO_DRIVERS, flat};
use sim_logic::LATEST;
use std::alloc::Global;
use std::test::Fail;

/// The number of cycles that are compared.
const CYCLES: usize = 40;

/// Appends what the plain program leaves in each cycle.
fn put_snapshots(line: &mut Line, snapshots: &[Snapshot]) {
    for snapshot in snapshots {
        line.put_cycle(snapshot.time, snapshot.delta, snapshot.changes.as_slice());
    }
}

/// Appends what the plain program makes of a text.
fn put_plain(line: &mut Line, alloc: Global, text: &str) {
    if let Some(design) = flat(alloc, text) {
        match snapshots(alloc, &design, CYCLES) {
            Some(snapshots) => put_snapshots(line, snapshots.as_slice()),
            None => line.put("no memory"),
        }
    }
    line.put(";\n");
}

/// The texts.
static TEXTS: [&str; 7] = [ONCE, TWO_DRIVERS, EXCHANGE, TOGGLE, CHOICE, PULSES, SETTLED];

/// Appends what a store records of a text.
fn put_recorded(line: &mut Line, alloc: Global, text: &str) {
    let mut kept = Vec::new(alloc);
    let script = (text, LATEST, 1_000, CYCLES, [Records(0)].as_slice(), "");
    follow(line, alloc, &mut kept, &script);
    line.put("\n");
}

/// The records of a store for each text, and those of the plain program.
fn both(alloc: Global) -> (Line, Line) {
    let mut recorded = Line::new(alloc);
    let mut plain = Line::new(alloc);
    for text in TEXTS.iter() {
        put_recorded(&mut recorded, alloc, text);
        put_plain(&mut plain, alloc, text);
    }
    (recorded, plain)
}

#[test]
fn a_store_records_what_the_plain_cycle_leaves(rt: HostRuntime) -> Result<(), Fail> {
    let (recorded, plain) = both(rt.alloc());
    assert_eq!(rt; recorded.whole()?.as_str(), plain.whole()?.as_str());
    Ok(())
}
