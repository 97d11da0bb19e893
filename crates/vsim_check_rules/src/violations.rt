//! Violations.

/// The part of a check that is violated.
#[derive(Clone, Copy, PartialEq, Eq, PartialOrd, Ord)]
pub enum Demand {
    /// Time before the reference of a window: setup or removal.
    Before,
    /// Time after the reference of a window: hold or recovery.
    After,
    Width,
}

/// A violation of a check, given by its index: the time in femtoseconds that it needs, and the time
/// that there was.
#[derive(Clone, Copy, PartialEq, Eq, PartialOrd, Ord)]
pub struct Violation {
    pub check: usize,
    pub demand: Demand,
    pub needed: u64,
    pub found: u64,
}

/// The time between two, if it is less than what is needed.
pub(crate) fn too_short(needed: i64, from: u64, to: u64) -> Option<(u64, u64)> {
    let needed = u64::try_from(needed).unwrap_or(0);
    let found = to.saturating_sub(from);
    if found < needed {
        Some((needed, found))
    } else {
        None
    }
}
