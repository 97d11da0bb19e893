//! Histories, compared with expected ones.

use sim_logic::Logic;
use sim_run::Record;

/// The times of the cycles of the toggling flip-flop, and what they change.
const TOGGLED: [(u64, u64, &[(usize, Logic)]); 6] = [
    (0, 0, &[(0, Logic::Zero), (1, Logic::U)]),
    (5_000_000, 0, &[(0, Logic::One)]),
    (5_000_000, 1, &[(1, Logic::One)]),
    (10_000_000, 0, &[(0, Logic::Zero)]),
    (15_000_000, 0, &[(0, Logic::One)]),
    (15_000_000, 1, &[(1, Logic::Zero)]),
];

/// Whether two lists of changes are equal.
fn are_same(changes: &[(usize, Logic)], others: &[(usize, Logic)]) -> bool {
    for (change, other) in changes.iter().zip(others) {
        if change.0 != other.0 || change.1 != other.1 {
            return false;
        }
    }
    changes.len() == others.len()
}

/// Whether two lists of records are equal.
pub fn are_equal(records: &[Record], others: &[Record]) -> bool {
    for (record, other) in records.iter().zip(others) {
        if record.time != other.time
            || record.delta != other.delta
            || !are_same(record.changes.as_slice(), other.changes.as_slice())
        {
            return false;
        }
    }
    records.len() == others.len()
}

/// Whether these are the first records of the toggling flip-flop.
pub fn begin_toggling(records: &[Record]) -> bool {
    for (record, (time, delta, changes)) in records.iter().zip(&TOGGLED) {
        if record.time != *time
            || record.delta != *delta
            || !are_same(record.changes.as_slice(), changes)
        {
            return false;
        }
    }
    records.len() <= TOGGLED.len()
}

/// Whether these are all of its records.
pub fn toggle(records: &[Record]) -> bool {
    records.len() == TOGGLED.len() && begin_toggling(records)
}

/// The number of changes after the first record.
pub fn events(records: &[Record]) -> u64 {
    let mut count = 0u64;
    for record in records {
        count = count.wrapping_add(record.changes.len() as u64);
    }
    count.wrapping_sub(2)
}
