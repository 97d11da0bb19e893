//! The nets that change most.

use crate::cycles::write_name;
use anyhow::Result;
use sim_flat_design::Design;
use sim_store::{Record, WaveStore};
use std::alloc::{AllocError, Global};
use std::io::{self, Write};

/// The number of nets that are listed.
const MOST_NETS: usize = 10;

/// Counts the changes of a record.
fn count(counts: &mut Vec<u64>, record: &Record) {
    for (net, _) in record.changes.as_slice() {
        if let Some(changes) = counts.get_mut(*net) {
            *changes = changes.saturating_add(1);
        }
    }
}

/// For each net, the number of its changes in these records.
fn count_changes(alloc: Global, nets: usize, records: &[Record]) -> Result<Vec<u64>, AllocError> {
    let mut counts = vec![in alloc; 0; nets]?;
    for record in records {
        count(&mut counts, record);
    }
    Ok(counts)
}

/// For each net of a run, the number of its changes after the initialization.
fn totals_of(alloc: Global, store: &WaveStore) -> Result<Vec<u64>, AllocError> {
    let mut counts = Vec::new(alloc);
    for net in 0..store.design().nets().len() {
        counts.push(store.total(net).unwrap_or(0))?;
    }
    Ok(counts)
}

/// The net that changes most, if any changes; the first of several.
fn busiest(counts: &[u64]) -> Option<usize> {
    let mut found = None;
    let mut most = 0;
    for (net, changes) in counts.iter().enumerate() {
        if *changes > most {
            most = *changes;
            found = Some(net);
        }
    }
    found
}

/// Writes the name of a net, and the number of its changes.
fn write_net<W: Write>(out: &mut W, design: &Design, net: usize, changes: u64) -> io::Result<()> {
    write!(out, "{changes:>10} ")?;
    write_name(out, design, net)?;
    out.write_all(b"\n")
}

/// Writes the nets that change most, in order, and clears their counts.
fn write_busiest<W: Write>(out: &mut W, design: &Design, counts: &mut Vec<u64>) -> io::Result<()> {
    for _turn in 0..MOST_NETS {
        let Some(net) = busiest(counts.as_slice()) else {
            break;
        };
        let changes = counts.get(net).copied().unwrap_or(0);
        write_net(out, design, net, changes)?;
        if let Some(it) = counts.get_mut(net) {
            *it = 0;
        }
    }
    Ok(())
}

/// Writes the nets that change most in these records, the first record excluded.
pub fn write_changes<W: Write>(
    alloc: Global,
    out: &mut W,
    design: &Design,
    records: &[Record],
) -> Result<()> {
    let later = match records {
        [_, later @ ..] => later,
        [] => records,
    };
    let mut counts = count_changes(alloc, design.nets().len(), later)?;
    write_busiest(out, design, &mut counts)?;
    Ok(())
}

/// Writes the nets that change most in a run.
pub fn write_totals<W: Write>(alloc: Global, out: &mut W, store: &WaveStore) -> Result<()> {
    let mut counts = totals_of(alloc, store)?;
    write_busiest(out, store.design(), &mut counts)?;
    Ok(())
}
