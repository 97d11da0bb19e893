//! Levels and edges.

use vsim_netlist_design::{Edge, Level};

/// A level as checks see it: high impedance is unknown (IEEE 1364, 15.4: z is as x).
pub(crate) fn seen(level: Level) -> Level {
    match level {
        Level::HighImpedance => Level::Unknown,
        _ => level,
    }
}

/// The edge of a change between two levels; `None` if they are the same. A change from 0 to unknown
/// and one from there to 1 rise, those the other way fall (IEEE 1364, 15.4).
pub(crate) fn edge_of(old: Level, new: Level) -> Option<Edge> {
    if old == new {
        return None;
    }
    match (old, new) {
        (Level::Zero, _) | (_, Level::One) => Some(Edge::Rising),
        _ => Some(Edge::Falling),
    }
}

/// Whether an edge is one of those that count.
pub(crate) fn counts(edge: Edge, wanted: Edge) -> bool {
    wanted == Edge::Both || wanted == edge
}

/// The edge that ends a pulse.
pub(crate) fn opposite(edge: Edge) -> Edge {
    match edge {
        Edge::Rising => Edge::Falling,
        Edge::Falling => Edge::Rising,
        Edge::Both => Edge::Both,
    }
}

/// The level of a negation.
pub(crate) fn negated(level: Level) -> Level {
    match level {
        Level::Zero => Level::One,
        Level::One => Level::Zero,
        _ => Level::Unknown,
    }
}

/// The level of an and.
pub(crate) fn both(left: Level, right: Level) -> Level {
    match (left, right) {
        (Level::Zero, _) | (_, Level::Zero) => Level::Zero,
        (Level::One, Level::One) => Level::One,
        _ => Level::Unknown,
    }
}

/// The level of an or.
pub(crate) fn either(left: Level, right: Level) -> Level {
    match (left, right) {
        (Level::One, _) | (_, Level::One) => Level::One,
        (Level::Zero, Level::Zero) => Level::Zero,
        _ => Level::Unknown,
    }
}

/// The level of an exclusive or.
pub(crate) fn differs(left: Level, right: Level) -> Level {
    match (left, right) {
        (Level::Zero, Level::One) | (Level::One, Level::Zero) => Level::One,
        (Level::Zero, Level::Zero) | (Level::One, Level::One) => Level::Zero,
        _ => Level::Unknown,
    }
}
