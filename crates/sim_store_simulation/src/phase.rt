//! The two phases in which a cycle executes processes (IEEE 1076-2008, 14.7.5.3 f.3, h.4).

/// Which processes a phase executes.
#[derive(Clone, Copy, PartialEq, Eq)]
pub enum Phase {
    /// Those that resumed and are not postponed.
    NonPostponed,
    /// The postponed ones that wait, if no delta cycle follows.
    Postponed,
}

/// The step that comes after all processes of a phase have been executed.
#[derive(Clone, Copy)]
pub enum Upcoming {
    /// The phase of postponed processes.
    Postponed,
    /// A delta cycle caused by a postponed process, which is an error.
    PostponedDelta,
    /// Nothing is pending.
    Nothing,
    /// A cycle at this time, in femtoseconds.
    Cycle(u64),
}
