//! Cycles, in the form of a listing.

use sim_flat_design::Design;
use sim_logic::Logic;
use sim_store::Record;
use std::io::{self, Write};

/// Writes the name of a net.
pub fn write_name<W: Write>(out: &mut W, design: &Design, net: usize) -> io::Result<()> {
    let Some(it) = design.nets().get(net) else {
        return Ok(());
    };
    let (path, simple_name) = it.name_pieces();
    for piece in path {
        out.write_all(piece.as_str().as_bytes())?;
    }
    out.write_all(simple_name.as_bytes())
}

/// Writes the line of a change.
fn write_change<W: Write>(
    out: &mut W,
    design: &Design,
    record: &Record,
    net: usize,
    value: Logic,
) -> io::Result<()> {
    let (time, delta) = (record.time, record.delta);
    write!(out, "{time} {delta} ")?;
    write_name(out, design, net)?;
    out.write_all(&[b' ', value.to_byte(), b'\n'])
}

/// Writes the lines of the first changes of a cycle, at most `most`.
fn write_first<W: Write>(
    out: &mut W,
    design: &Design,
    record: &Record,
    most: usize,
) -> io::Result<()> {
    for (net, value) in record.changes.as_slice().iter().take(most) {
        write_change(out, design, record, *net, *value)?;
    }
    Ok(())
}

/// Writes the lines of a cycle, at most `most`, and how many more there are.
fn write_cycle<W: Write>(
    out: &mut W,
    design: &Design,
    record: &Record,
    most: usize,
) -> io::Result<()> {
    write_first(out, design, record, most)?;
    let more = record.changes.as_slice().len().saturating_sub(most);
    if more == 0 {
        return Ok(());
    }
    let (time, delta) = (record.time, record.delta);
    writeln!(out, "{time} {delta} and {more} more")
}

/// Writes cycles in the form of a listing, with at most `most` lines each.
pub fn write_cycles<W: Write>(
    out: &mut W,
    design: &Design,
    records: &[Record],
    most: usize,
) -> io::Result<()> {
    for record in records {
        write_cycle(out, design, record, most)?;
    }
    Ok(())
}
