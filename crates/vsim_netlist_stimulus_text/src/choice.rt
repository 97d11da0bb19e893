//! Which inputs take fewer bytes in the table of a clock than as waveforms.

use crate::clock::{Clock, edge_for, edges_in_direction, fits, is_any_late, later_changes};
use crate::table::{assignment_of, edge_bytes, element_of};
use crate::targets::LATE;
use std::alloc::{AllocError, Global};
use std::collections::HashMap;
use vsim_netlist_design::{Change, push};
use vsim_netlist_signals::Signals;

/// How often inputs are weighed: where some leave the table, others may be alone at their edges.
const ROUNDS: usize = 4;

/// For each edge, how many of the inputs in a table change there.
type Uses = HashMap<usize, usize>;

/// Counts one more change at an edge.
fn count(uses: &mut Uses, edge: usize) -> Result<(), AllocError> {
    let before = uses.get(&edge).copied().unwrap_or(0);
    uses.insert(edge, before.saturating_add(1))?;
    Ok(())
}

/// Counts the changes of an input.
fn count_changes(uses: &mut Uses, clock: &Clock, changes: &[Change]) -> Result<(), AllocError> {
    for change in later_changes(changes) {
        if let Some(edge) = edge_for(clock, change.time) {
            count(uses, edge.number)?;
        }
    }
    Ok(())
}

/// Counts the changes of the inputs that are in the table.
fn uses_of(
    alloc: Global,
    clock: &Clock,
    inputs: &[(usize, &[Change])],
    chosen: &[bool],
) -> Result<Uses, AllocError> {
    let mut uses = HashMap::new(alloc);
    for ((_, changes), is_chosen) in inputs.iter().zip(chosen) {
        if *is_chosen {
            count_changes(&mut uses, clock, changes)?;
        }
    }
    Ok(uses)
}

/// Whether one input alone changes at the edge at a time.
fn is_alone(uses: &Uses, clock: &Clock, time: u64) -> bool {
    match edge_for(clock, time) {
        Some(edge) => uses.get(&edge.number).copied() == Some(1),
        None => false,
    }
}

/// Whether an input takes fewer bytes in the table, with the edges that it alone needs.
fn belongs(signals: &Signals, uses: &Uses, clock: &Clock, net: usize, changes: &[Change]) -> bool {
    let edge = edge_bytes(edges_in_direction(clock), uses.len());
    let mut in_table = if is_any_late(clock, changes) { LATE } else { 0 };
    let mut as_waveform = 0usize;
    for change in later_changes(changes) {
        if is_alone(uses, clock, change.time) {
            in_table = in_table.saturating_add(edge);
        }
        in_table = in_table.saturating_add(assignment_of(signals, net, change.level));
        as_waveform = as_waveform.saturating_add(element_of(change.time));
    }
    in_table <= as_waveform
}

/// Takes the inputs from the table that do not belong there. Returns whether any did not.
fn leave(
    signals: &Signals,
    uses: &Uses,
    clock: &Clock,
    inputs: &[(usize, &[Change])],
    chosen: &mut [bool],
) -> bool {
    let mut is_changed = false;
    for ((net, changes), is_chosen) in inputs.iter().zip(chosen.iter_mut()) {
        if *is_chosen && !belongs(signals, uses, clock, *net, changes) {
            *is_chosen = false;
            is_changed = true;
        }
    }
    is_changed
}

/// The inputs that change only with the edges of a clock in one direction, or after them.
fn at_edges(
    alloc: Global,
    clock: &Clock,
    inputs: &[(usize, &[Change])],
    rises: bool,
) -> Result<Vec<bool>, AllocError> {
    let mut chosen = Vec::new(alloc);
    for (_, changes) in inputs {
        push(&mut chosen, fits(clock, changes, rises))?;
    }
    Ok(chosen)
}

/// For each input, whether its changes are to be in the table of the edges of a clock in one
/// direction. An input that is mostly alone at its edges has waveforms.
pub(crate) fn chosen(
    alloc: Global,
    signals: &Signals,
    clock: &Clock,
    inputs: &[(usize, &[Change])],
    rises: bool,
) -> Result<Vec<bool>, AllocError> {
    let mut chosen = at_edges(alloc, clock, inputs, rises)?;
    for _ in 0..ROUNDS {
        let uses = uses_of(alloc, clock, inputs, chosen.as_slice())?;
        if !leave(signals, &uses, clock, inputs, chosen.as_mut_slice()) {
            break;
        }
    }
    Ok(chosen)
}
