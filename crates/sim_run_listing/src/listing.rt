//! The listing of a run.
ghost use Rattle.std.specs.Prelude.{◌≡◌, ◌++◌, ◌<◌, length, IfSome, OnOk, OnErr, All, map, flat_map, ℕ};
ghost use Rattle.std.specs.List.{concat};
ghost use Rattle.std.specs.Io.KnownBytes.{Appends};
ghost use Rattle.sim_logic.specs.declared.logic.Logic as logic;
ghost use Rattle.sim_standard.specs.Records.{IsNamed, event_count};
ghost use Rattle.sim_run_listing.specs.Listing.{IsHistory, line_of, pieces_of, lines_of, end_of, listing};
ghost use Rattle.sim_run_listing.specs.Writing.{AppendsPart, Gathers};

use crate::block::{Block, put, put_all, put_path, write_out};
use crate::error::WriteError;
use crate::head::Head;
use crate::named::Named;
use itoa::Buffer;
use sim_flat_design::PathPiece;
use sim_logic::Logic;
use sim_standard::Record;
use std::io::Write;

/// Buffers a line, and writes each full block.
#[inline(never)]
fn put_pieces<'a, W: Write>(
    out: &mut W,
    block: &mut Block,
    head: &'a [u8],
    path: &'a [u8],
    simple_name: &'a [u8],
    value: Logic,
) -> Result<(), WriteError>
    ensures ok { OnOk result (Gathers (W.contents out.old) block.old (W.contents out.new) block.new
        (pieces_of head.now (path.now ++ simple_name.now) value)) }
    ensures part { OnErr result (AppendsPart (W.contents out.old) (W.contents out.new) (block.old ++
        pieces_of head.now (path.now ++ simple_name.now) value)) }
{
    let tail = [b' ', value.to_byte(), b'\n'];
    put_all(out, block, &[head, path, simple_name, &tail])
}

/// A line: its start, a name as a path and a simple name, and a value.
fn put_named<W: Write>(
    out: &mut W,
    block: &mut Block,
    head: &Head,
    path: &[u8],
    simple_name: &[u8],
    value: Logic,
) -> Result<(), WriteError>
    ensures ok { OnOk result (Gathers (W.contents out.old) block.old (W.contents out.new) block.new
        (pieces_of head.now.text (path.now ++ simple_name.now) value)) }
    ensures part { OnErr result (AppendsPart (W.contents out.old) (W.contents out.new) (block.old ++
        pieces_of head.now.text (path.now ++ simple_name.now) value)) }
{
    if !block.has_room(path, simple_name) {
        return put_pieces(out, block, head.as_slice(), path, simple_name, value);
    }
    block.gather_line(head, path, simple_name, value);
    Ok(())
}

/// The text of a path of at most one piece; `None` for more.
fn undivided(path: &[PathPiece]) -> Option<&[u8]>
    ensures { IfSome result (λ text. text.now ≡ concat path.now) }
{
    match path {
        [] => Some(&[]),
        [piece] => Some(piece.as_str().as_bytes()),
        _ => None,
    }
}

/// A line: its start, a path of several pieces, the simple name, and a value.
fn put_divided<W: Write>(
    out: &mut W,
    block: &mut Block,
    head: &Head,
    path: &[PathPiece],
    simple_name: &[u8],
    value: Logic,
) -> Result<(), WriteError>
    ensures ok { OnOk result (Gathers (W.contents out.old) block.old (W.contents out.new) block.new
        (pieces_of head.now.text (concat path.now ++ simple_name.now) value)) }
    ensures part { OnErr result (AppendsPart (W.contents out.old) (W.contents out.new) (block.old ++
        pieces_of head.now.text (concat path.now ++ simple_name.now) value)) }
{
    put(out, block, head.as_slice())?;
    put_path(out, block, path)?;
    put_pieces(out, block, &[], &[], simple_name, value)
}

/// The line of a change: `TIME DELTA NAME VALUE`. A call, since the lines of short names in a log
/// are made without it.
#[inline(never)]
pub fn put_line<N: Named, W: Write>(
    out: &mut W,
    block: &mut Block,
    names: &[N],
    head: &Head,
    net: usize,
    value: Logic,
) -> Result<(), WriteError>
    requires { net < length names.now }
    ensures ok { OnOk result (Gathers (W.contents out.old) block.old (W.contents out.new) block.new
        (line_of head.now.text (map N.name_of names.now) (net, value))) }
    ensures part { OnErr result (AppendsPart (W.contents out.old) (W.contents out.new) (block.old ++
        line_of head.now.text (map N.name_of names.now) (net, value))) }
{
    let (path, simple_name) = names[net].name_pieces();
    match undivided(path) {
        Some(path) => put_named(out, block, head, path, simple_name, value),
        None => put_divided(out, block, head, path, simple_name, value),
    }
}

/// The lines of a cycle's changes.
fn put_changes<N: Named, W: Write>(
    out: &mut W,
    block: &mut Block,
    names: &[N],
    head: &Head,
    changes: &[(usize, Logic)],
) -> Result<(), WriteError>
    requires { All (λ (c : ℕ × logic.Logic). c.0 < length names.now) changes.now }
    ensures ok { OnOk result (Gathers (W.contents out.old) block.old (W.contents out.new) block.new
        (flat_map (line_of head.now.text (map N.name_of names.now)) changes.now)) }
    ensures part { OnErr result (AppendsPart (W.contents out.old) (W.contents out.new) (block.old ++
        flat_map (line_of head.now.text (map N.name_of names.now)) changes.now)) }
{
    for change in changes {
        let (net, value) = *change;
        put_line(out, block, names, head, net, value)?;
    }
    Ok(())
}

/// The lines of a cycle.
fn put_record<N: Named, W: Write>(
    out: &mut W,
    block: &mut Block,
    names: &[N],
    head: &mut Head,
    cycle: &Record,
) -> Result<(), WriteError>
    requires { IsNamed (length names.now) cycle.now }
    ensures ok { OnOk result (Gathers (W.contents out.old) block.old (W.contents out.new) block.new
        (lines_of (map N.name_of names.now) cycle.now)) }
    ensures part { OnErr result (AppendsPart (W.contents out.old) (W.contents out.new) (block.old ++
        lines_of (map N.name_of names.now) cycle.now)) }
{
    head.set(cycle.time, cycle.delta);
    put_changes(out, block, names, head, cycle.changes.as_slice())
}

/// The lines of all cycles.
fn put_records<N: Named, W: Write>(
    out: &mut W,
    block: &mut Block,
    names: &[N],
    records: &[Record],
) -> Result<(), WriteError>
    requires { All (IsNamed (length names.now)) records.now }
    ensures ok { OnOk result (Gathers (W.contents out.old) block.old (W.contents out.new) block.new
        (flat_map (lines_of (map N.name_of names.now)) records.now)) }
    ensures part { OnErr result (AppendsPart (W.contents out.old) (W.contents out.new)
        (block.old ++ flat_map (lines_of (map N.name_of names.now)) records.now)) }
{
    let mut head = Head::new();
    for each in records {
        put_record(out, block, names, &mut head, each)?;
    }
    Ok(())
}

/// The last line: `done CYCLES EVENTS`.
fn put_last<W: Write>(
    out: &mut W,
    block: &mut Block,
    cycles: usize,
    events: u64,
) -> Result<(), WriteError>
    ensures ok { OnOk result (Gathers (W.contents out.old) block.old (W.contents out.new) block.new (end_of cycles events)) }
    ensures part { OnErr result (AppendsPart (W.contents out.old) (W.contents out.new) (block.old ++ end_of cycles events)) }
{
    let mut cycles_text = Buffer::new();
    let mut events_text = Buffer::new();
    let cycles = cycles_text.format(cycles).as_bytes();
    let events = events_text.format(events).as_bytes();
    put_all(out, block, &[b"done ", cycles, b" ", events, b"\n"])
}

/// Writes what is buffered, and the last line.
pub fn finish<W: Write>(
    out: &mut W,
    block: &mut Block,
    cycles: usize,
    events: u64,
) -> Result<(), WriteError>
    ensures ok { OnOk result (Appends (W.contents out.old) (W.contents out.new) (block.old ++ end_of cycles events)) }
    ensures part { OnErr result (AppendsPart (W.contents out.old) (W.contents out.new) (block.old ++ end_of cycles events)) }
{
    put_last(out, block, cycles, events)?;
    write_out(out, block)
}

/// Writes the listing of a run: for each record, in order, a line `TIME DELTA NAME VALUE` for each
/// of its changes, with the time in femtoseconds, and finally `done CYCLES EVENTS`. `names` are
/// those of the nets by number, `events` counts the changes after the first record. The lines are
/// written in blocks of 32 KiB; nothing is allocated. `WriteError` if a write fails or writes
/// nothing: then a prefix of the listing has been written.
pub fn write_listing<N: Named, W: Write>(
    names: &[N],
    records: &[Record],
    events: u64,
    out: &mut W,
) -> Result<(), WriteError>
    requires history { IsHistory (map N.name_of names.now) records.now }
    requires events { events ≡ event_count records.now }
    ensures ok { OnOk result (Appends (W.contents out.old) (W.contents out.new) (listing (map N.name_of names.now) records.now)) }
    ensures part { OnErr result (AppendsPart (W.contents out.old) (W.contents out.new) (listing (map N.name_of names.now) records.now)) }
{
    let mut block = Block::new();
    put_records(out, &mut block, names, records)?;
    finish(out, &mut block, records.len() - 1, events)
}
