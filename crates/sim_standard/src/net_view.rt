//! A net in a simulation cycle.

use sim_logic::Logic;

/// A net as processes see it in a cycle (IEEE 1076-2008, 14.7.3).
#[derive(Clone, Copy, Debug, PartialEq, Eq)]
pub struct NetView {
    pub value: Logic,
    /// Whether this cycle changed the value (14.7.3.4).
    pub event: bool,
    /// The value before this cycle, event or not. It is not `S'LAST_VALUE`.
    pub before: Logic,
}
