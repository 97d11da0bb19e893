//! The delay mechanisms of a signal assignment.

/// How an assignment treats the transactions that are pending (IEEE 1076-2008, 10.5.2.1).
#[derive(Clone, Copy, Debug, PartialEq, Eq)]
pub enum Delay {
    /// A wire: each pulse passes, however short.
    Transport,
    /// A gate: pulses shorter than `reject` femtoseconds are rejected.
    Inertial { reject: u64 },
}
