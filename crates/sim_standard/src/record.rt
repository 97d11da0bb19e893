//! The changes of a simulation cycle.

use sim_logic::Logic;
use sqlite_items::Items;

/// The time and the delta number of a simulation cycle, and the nets that have an event in it, each
/// with its new value, in net order. Record 0 is the initialization: it has every net.
#[derive(Debug, Drop)]
pub struct Record {
    /// In femtoseconds.
    pub time: u64,
    /// The number of cycles before it at this time, the initialization included; our own.
    pub delta: u64,
    pub changes: Items<(usize, Logic)>,
}
