//! What is told of a comparison.

use crate::clock::Clock;
use std::io::{self, Write};
use vsim_compare_board::Board;

/// The most names of nets of one side that are told.
const MOST: usize = 5;

/// Writes the letters of a net, the highest index first.
fn write_letters<W: Write>(out: &mut W, letters: &[u8]) -> io::Result<()> {
    for letter in letters.iter().rev() {
        out.write_all(&[*letter])?;
    }
    Ok(())
}

/// Writes the first difference: time, net, value here, value there.
fn write_first<W: Write>(out: &mut W, board: &Board) -> io::Result<()> {
    let Some(first) = board.first() else {
        return Ok(());
    };
    let Some(net) = board.nets().get(first.net) else {
        return Ok(());
    };
    let time = first.at.time;
    write!(out, "{time} ")?;
    write_values(
        out,
        net.name.as_slice(),
        first.here.as_slice(),
        first.there.as_slice(),
    )
}

/// Writes a net, and its values here and there.
fn write_values<W: Write>(out: &mut W, name: &[u8], here: &[u8], there: &[u8]) -> io::Result<()> {
    out.write_all(name)?;
    out.write_all(b" ")?;
    write_both(out, here, there)
}

/// Writes the values here and there.
fn write_both<W: Write>(out: &mut W, here: &[u8], there: &[u8]) -> io::Result<()> {
    write_letters(out, here)?;
    out.write_all(b" ")?;
    write_letters(out, there)?;
    out.write_all(b"\n")
}

/// Writes how much was compared, and how much of it differs.
fn write_counts<W: Write>(out: &mut W, board: &Board) -> io::Result<()> {
    let (counts, all) = (board.counts(), board.nets().len());
    let (nets, differing, compared) = (counts.nets, counts.differing, counts.compared);
    write!(
        out,
        "{nets} of {all} nets differ, in {differing} of {compared} changes"
    )
}

/// Writes the delta cycle of the first difference, where it is not the first of its time.
fn write_delta<W: Write>(out: &mut W, board: &Board) -> io::Result<()> {
    match board.first() {
        Some(first) if first.at.delta > 0 => {
            let delta = first.at.delta;
            write!(out, ", first in delta cycle {delta}")
        }
        _ => Ok(()),
    }
}

/// Writes before how many edges values were compared.
fn write_edges<W: Write>(out: &mut W, clock: Option<&Clock>) -> io::Result<()> {
    match clock {
        Some(clock) => {
            let edges = clock.edges;
            let ending = if edges == 1 { "" } else { "s" };
            write!(out, ", before {edges} edge{ending}")
        }
        None => Ok(()),
    }
}

/// Writes the nets that one side alone has.
fn write_alone<W: Write>(out: &mut W, side: &str, names: &[Vec<u8>]) -> io::Result<()> {
    if names.is_empty() {
        return Ok(());
    }
    let count = names.len();
    write!(out, "only in {side}, {count}:")?;
    for name in names.iter().take(MOST) {
        out.write_all(b" ")?;
        out.write_all(name.as_slice())?;
    }
    if count > MOST {
        out.write_all(b" ..\n")
    } else {
        out.write_all(b"\n")
    }
}

/// Writes the result of a comparison.
pub fn write_report<W: Write>(
    out: &mut W,
    board: &Board,
    clock: Option<&Clock>,
    here: &[Vec<u8>],
    there: &[Vec<u8>],
) -> io::Result<()> {
    write_first(out, board)?;
    write_totals(out, board, clock)?;
    write_sides(out, here, there)
}

/// Writes the line of what was counted.
fn write_totals<W: Write>(out: &mut W, board: &Board, clock: Option<&Clock>) -> io::Result<()> {
    write_counts(out, board)?;
    write_delta(out, board)?;
    write_edges(out, clock)?;
    out.write_all(b"\n")
}

/// Writes the nets that each side alone has.
fn write_sides<W: Write>(out: &mut W, here: &[Vec<u8>], there: &[Vec<u8>]) -> io::Result<()> {
    write_alone(out, "A", here)?;
    write_alone(out, "B", there)
}
