//! The delays that a file has of an output or of a wire, one entry after another.

use crate::delays::{DelayEntry, Delayed, Delays, Edge, Path, Times, When};
use crate::lists::push;
use std::alloc::{AllocError, Global};

/// The delays of the paths to an output from a pin, or from all pins.
#[derive(Clone, Copy)]
pub struct Arc {
    pub from: Option<usize>,
    pub edge: Edge,
    pub when: When,
    pub times: Times,
}

/// The most paths to an output.
const MOST: usize = 1_000;

/// No delays.
const NO_TIMES: Times = Times {
    rise: None,
    fall: None,
    off: None,
    has_off: false,
};

/// The delays of the paths to an output, or that there are too many.
#[derive(Drop)]
pub enum Arcs {
    Known(Vec<Arc>),
    TooMany,
}

/// A time after an entry that may give it or add to it.
fn changed(old: Option<i64>, new: Option<i64>, is_increment: bool) -> Option<i64> {
    match new {
        None => old,
        Some(time) if is_increment => Some(old.unwrap_or(0).saturating_add(time)),
        Some(time) => Some(time),
    }
}

impl Times {
    /// The delays after an entry.
    pub fn after(self, entry: &DelayEntry) -> Times {
        let (new, is_increment) = (entry.times, entry.is_increment);
        let off = if new.has_off { new.off } else { new.rise };
        Times {
            rise: changed(self.rise, new.rise, is_increment),
            fall: changed(self.fall, new.fall, is_increment),
            off: changed(self.off, off, is_increment),
            has_off: new.has_off || is_increment && self.has_off,
        }
    }
}

impl Arc {
    /// Whether an entry for these paths is one for the paths of another as well.
    fn covers(&self, arc: &Arc) -> bool {
        (self.from.is_none() || self.from == arc.from)
            && (self.edge == Edge::Both || self.edge == arc.edge)
            && (self.when == When::Always || self.when == arc.when)
    }

    /// Whether two are of the same paths.
    fn is_like(&self, arc: &Arc) -> bool {
        self.from == arc.from && self.edge == arc.edge && self.when == arc.when
    }
}

/// The paths of an entry, if it is one for an output.
fn arc_of(entry: &DelayEntry, output: usize) -> Option<Arc> {
    let (from, edge, when) = match entry.delayed {
        Delayed::Path(
            Path {
                from,
                edge,
                to,
                when,
            },
        ) if to == output => (Some(from), edge, when),
        Delayed::Device(to) if to.unwrap_or(output) == output => (None, Edge::Both, When::Always),
        _ => return None,
    };
    Some(Arc {
        from,
        edge,
        when,
        times: NO_TIMES.after(entry),
    })
}

/// Whether one of these is of the same paths as another one.
fn has_like(arcs: &[Arc], wanted: &Arc) -> bool {
    for arc in arcs {
        if arc.is_like(wanted) {
            return true;
        }
    }
    false
}

/// Changes all paths that an entry is for.
fn change(arcs: &mut Vec<Arc>, entry: &DelayEntry, wanted: &Arc) {
    for arc in arcs.iter_mut() {
        if wanted.covers(arc) {
            arc.times = arc.times.after(entry);
        }
    }
}

/// Takes an entry. Returns `false` if there are too many paths.
fn take(arcs: &mut Vec<Arc>, entry: &DelayEntry, output: usize) -> Result<bool, AllocError> {
    let Some(wanted) = arc_of(entry, output) else {
        return Ok(true);
    };
    change(arcs, entry, &wanted);
    if !has_like(arcs.as_slice(), &wanted) {
        push(arcs, wanted)?;
    }
    Ok(arcs.len() <= MOST)
}

/// The paths to an output, by entries in the order of the file.
pub fn arcs_to(alloc: Global, entries: &[DelayEntry], output: usize) -> Result<Arcs, AllocError> {
    let mut arcs = Vec::new(alloc);
    for entry in entries {
        if !take(&mut arcs, entry, output)? {
            return Ok(Arcs::TooMany);
        }
    }
    Ok(Arcs::Known(arcs))
}

/// The delays of the wires to an input, by entries in the order of the file; `None` if there are
/// none.
pub fn wire_to(entries: &[DelayEntry], input: usize) -> Option<Times> {
    let mut found = None;
    for entry in entries {
        match entry.delayed {
            Delayed::Port(pin) | Delayed::Wire(pin, _) if pin == input => {
                found = Some(found.unwrap_or(NO_TIMES).after(entry));
            }
            _ => {}
        }
    }
    found
}

/// Two lists of entries, as far as they have been joined.
struct Joining<'a> {
    first: &'a [DelayEntry],
    second: &'a [DelayEntry],
}

impl Drop for Joining<'_> {
    fn drop(self) {
        let Joining {
            first: _,
            second: _,
        } = self;
    }
}

impl Joining<'_> {
    /// Takes the next entry of the first list.
    fn take_first(&mut self) -> Option<DelayEntry> {
        let (entry, rest) = self.first.split_first()?;
        self.first = rest;
        Some(*entry)
    }

    /// Takes the next entry of the second list.
    fn take_second(&mut self) -> Option<DelayEntry> {
        let (entry, rest) = self.second.split_first()?;
        self.second = rest;
        Some(*entry)
    }

    /// Takes the entry that comes first in the file.
    fn take(&mut self) -> Option<DelayEntry> {
        match (self.first, self.second) {
            ([], _) => self.take_second(),
            ([first, ..], [second, ..]) if second.place < first.place => self.take_second(),
            _ => self.take_first(),
        }
    }
}

/// The entries of two lists in the order of the file.
fn joined(
    alloc: Global,
    first: &[DelayEntry],
    second: &[DelayEntry],
) -> Result<Vec<DelayEntry>, AllocError> {
    let mut joining = Joining { first, second };
    let mut entries = Vec::new(alloc);
    for _ in 0..u64::MAX {
        let Some(entry) = joining.take() else {
            break;
        };
        push(&mut entries, entry)?;
    }
    Ok(entries)
}

impl Delays {
    /// The entries of an instance, and of all cells of its kind, in the order of the file.
    pub fn entries(
        &self,
        alloc: Global,
        instance: &str,
        kind: &str,
    ) -> Result<Vec<DelayEntry>, AllocError> {
        joined(
            alloc,
            self.instances.entries(instance),
            self.kinds.entries(kind),
        )
    }
}
