//! The picture as a whole.

use crate::row::Row;
use crate::scale::{Scale, in_units};
use crate::shapes::{Span, Tenths, letter_of, write_level, write_unknown, write_value};
use std::io::{self, Write};

/// The height of what is above the rows, of a row, and of what is below them, in pixels.
const ABOVE: u64 = 12;

const ROW: u64 = 34;

const BELOW: u64 = 26;

/// The width of what is right of the waves, in tenths of a pixel.
const BESIDE: u64 = 140;

/// The most lines of the grid that are written.
const LINES: u64 = 10;

/// What stands for a byte that a text of a picture may not have.
fn escape_of(byte: u8) -> Option<&'static [u8]> {
    match byte {
        b'<' => Some(b"&lt;"),
        b'>' => Some(b"&gt;"),
        b'&' => Some(b"&amp;"),
        _ => None,
    }
}

/// Writes a text in which `<`, `>` and `&` stand for themselves.
fn write_escaped<W: Write>(out: &mut W, text: &[u8]) -> io::Result<()> {
    for byte in text {
        match escape_of(*byte) {
            Some(escape) => out.write_all(escape)?,
            None => out.write_all(&[*byte])?,
        }
    }
    Ok(())
}

/// Writes what the file begins with.
fn write_head<W: Write>(out: &mut W, width: u64, height: u64) -> io::Result<()> {
    writeln!(
        out,
        "<svg xmlns=\"http://www.w3.org/2000/svg\" viewBox=\"0 0 {width} {height}\" \
         width=\"{width}\" height=\"{height}\" font-family=\"monospace\" font-size=\"12\">"
    )?;
    writeln!(
        out,
        "  <rect width=\"{width}\" height=\"{height}\" fill=\"white\"/>"
    )
}

/// Writes a line of the grid, and its time.
fn write_line<W: Write>(
    out: &mut W,
    scale: Scale,
    time: u64,
    step: u64,
    bottom: u64,
) -> io::Result<()> {
    let place = Tenths(scale.place(time));
    let (number, unit) = in_units(time, step);
    let line = bottom.saturating_add(16);
    writeln!(
        out,
        "  <path d=\"M{place} {ABOVE}V{bottom}\" stroke=\"#ddd\"/>"
    )?;
    writeln!(
        out,
        "  <text x=\"{place}\" y=\"{line}\" text-anchor=\"middle\" fill=\"#555\">{number} {unit}</text>"
    )
}

/// Writes the lines of the grid.
fn write_grid<W: Write>(out: &mut W, scale: Scale, bottom: u64) -> io::Result<()> {
    let step = scale.step();
    let mut time = scale.first_line(step);
    for _ in 0..LINES {
        if time > scale.to {
            break;
        }
        write_line(out, scale, time, step, bottom)?;
        time = time.saturating_add(step);
    }
    Ok(())
}

/// The place of the value of a row at a place among its values.
fn span_of(scale: Scale, row: &Row, place: usize, top: u64) -> Span {
    let left = match row.runs.get(place) {
        Some(run) => scale.place(run.from),
        None => scale.left,
    };
    let right = match row.runs.get(place.saturating_add(1)) {
        Some(run) => scale.place(run.from),
        None => scale.right(),
    };
    Span { left, right, top }
}

/// Writes the areas of the unknown values of a row of one bit.
fn write_areas<W: Write>(out: &mut W, scale: Scale, row: &Row, top: u64) -> io::Result<()> {
    for (place, run) in row.runs.iter().enumerate() {
        if letter_of(run) == b'X' {
            write_unknown(out, span_of(scale, row, place, top))?;
        }
    }
    Ok(())
}

/// Writes the line of a row of one bit.
fn write_levels<W: Write>(out: &mut W, scale: Scale, row: &Row, top: u64) -> io::Result<()> {
    for (place, run) in row.runs.iter().enumerate() {
        let at = span_of(scale, row, place, top);
        write_level(out, letter_of(run), at, place == 0)?;
    }
    Ok(())
}

/// Writes a row of one bit.
fn write_bit<W: Write>(out: &mut W, scale: Scale, row: &Row, top: u64) -> io::Result<()> {
    write_areas(out, scale, row, top)?;
    out.write_all(b"  <path d=\"")?;
    write_levels(out, scale, row, top)?;
    out.write_all(b"\" fill=\"none\" stroke=\"#0a58a8\" stroke-width=\"1.6\"/>\n")
}

/// Writes a row of several bits.
fn write_vector<W: Write>(out: &mut W, scale: Scale, row: &Row, top: u64) -> io::Result<()> {
    for (place, run) in row.runs.iter().enumerate() {
        let at = span_of(scale, row, place, top);
        write_value(out, run.value.as_slice(), at)?;
    }
    Ok(())
}

/// Writes the label of a row.
fn write_label<W: Write>(out: &mut W, scale: Scale, row: &Row, top: u64) -> io::Result<()> {
    let place = Tenths(scale.left.saturating_sub(80));
    let line = top.saturating_add(22);
    write!(
        out,
        "  <text x=\"{place}\" y=\"{line}\" text-anchor=\"end\" fill=\"#222\">"
    )?;
    write_escaped(out, row.label.as_slice())?;
    out.write_all(b"</text>\n")
}

/// Writes a row.
fn write_row<W: Write>(out: &mut W, scale: Scale, row: &Row, top: u64) -> io::Result<()> {
    write_label(out, scale, row, top)?;
    if row.width() == 1 {
        write_bit(out, scale, row, top)
    } else {
        write_vector(out, scale, row, top)
    }
}

/// Writes rows below one another.
fn write_rows<W: Write>(out: &mut W, scale: Scale, rows: &[Row]) -> io::Result<()> {
    let mut top = ABOVE;
    for row in rows {
        write_row(out, scale, row, top)?;
        top = top.saturating_add(ROW);
    }
    Ok(())
}

/// Writes a picture of rows.
pub fn write_picture<W: Write>(out: &mut W, rows: &[Row], scale: Scale) -> io::Result<()> {
    let bottom = (rows.len() as u64)
        .saturating_mul(ROW)
        .saturating_add(ABOVE);
    let width = scale.right().saturating_add(BESIDE) / 10;
    write_head(out, width, bottom.saturating_add(BELOW))?;
    write_grid(out, scale, bottom)?;
    write_rows(out, scale, rows)?;
    out.write_all(b"</svg>\n")
}
