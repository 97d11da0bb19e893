//! The listing of a store's log, as a whole or in parts.
ghost use Rattle.std.specs.Prelude.{◌≡◌, ◌++◌, ◌<◌, ◌^◌, length, [], ◌∷◌, OnOk, OnErr, All, map, flat_map, ℕ};
ghost use Rattle.std.specs.Io.KnownBytes.{Appends};
ghost use Rattle.sim_logic.specs.declared.logic.Logic as logic;
ghost use Rattle.sim_standard.specs.Records.{IsNamed, event_count};
ghost use Rattle.sim_store_state.specs.Log.{changes_of};
ghost use Rattle.sim_run_listing.specs.Listing.{IsHistory, end_of, line_of, lines_of, listing};
ghost use Rattle.sim_run_listing.specs.ShortNames.{AreNames};
ghost use Rattle.sim_run_listing.specs.Writing.{AppendsPart, Gathers};

use crate::block::{Block, write_out};
use crate::error::WriteError;
use crate::head::Head;
use crate::listing::{finish, put_line};
use crate::moment::Moment;
use crate::named::Named;
use crate::short_name::{KnownNames, ShortName};
use sim_logic::Logic;
use sim_store_state::{Entry, Log};
use std::alloc::Global;
use std::io::Write;

/// The line of a change, without a call for a name that is known to be short.
#[inline(always)]
fn put_change<N: Named, W: Write>(
    out: &mut W,
    block: &mut Block,
    names: &[N],
    known: &[ShortName],
    head: &Head,
    change: (usize, Logic),
) -> Result<(), WriteError>
    requires net { change.0 < length names.now }
    requires known { AreNames (map N.name_of names.now) known.now }
    ensures ok { OnOk result (Gathers (W.contents out.old) block.old (W.contents out.new) block.new
        (line_of head.now.text (map N.name_of names.now) change)) }
    ensures part { OnErr result (AppendsPart (W.contents out.old) (W.contents out.new) (block.old ++
        line_of head.now.text (map N.name_of names.now) change)) }
{
    let (net, value) = change;
    if let Some(name) = known.get(net) {
        if block.gather_short(head, name, value) {
            return Ok(());
        }
    }
    put_line(out, block, names, head, net, value)
}

/// The line of the change that an entry notes, if it notes one.
#[inline(always)]
fn put_entry<N: Named, W: Write>(
    out: &mut W,
    block: &mut Block,
    names: &[N],
    known: &[ShortName],
    head: &Head,
    entry: Entry,
) -> Result<(), WriteError>
    requires named { All (λ (c : ℕ × logic.Logic). c.0 < length names.now) (changes_of (entry ∷ [])) }
    requires known { AreNames (map N.name_of names.now) known.now }
    ensures ok { OnOk result (Gathers (W.contents out.old) block.old (W.contents out.new) block.new
        (flat_map (line_of head.now.text (map N.name_of names.now)) (changes_of (entry ∷ [])))) }
    ensures part { OnErr result (AppendsPart (W.contents out.old) (W.contents out.new) (block.old ++
        flat_map (line_of head.now.text (map N.name_of names.now)) (changes_of (entry ∷ [])))) }
{
    match entry.change() {
        Some((net, value)) => {
            let change = (net as usize, value);
            put_change(out, block, names, known, head, change)
        }
        None => Ok(()),
    }
}

/// The lines of a log's records.
fn put_entries<N: Named, W: Write>(
    out: &mut W,
    block: &mut Block,
    names: &[N],
    known: &[ShortName],
    log: &Log,
) -> Result<(), WriteError>
    requires named { All (IsNamed (length names.now)) log.now.records }
    requires known { AreNames (map N.name_of names.now) known.now }
    requires early { log.now.past.delta < 2 ^ 63 }
    ensures ok { OnOk result (Gathers (W.contents out.old) block.old (W.contents out.new) block.new
        (flat_map (lines_of (map N.name_of names.now)) log.now.records)) }
    ensures part { OnErr result (AppendsPart (W.contents out.old) (W.contents out.new) (block.old ++
        flat_map (lines_of (map N.name_of names.now)) log.now.records)) }
{
    let (times, entries) = log.lists();
    let mut head = Head::new();
    let mut moment = Moment::new(&mut head, log.past());
    for entry in entries {
        moment.pass(&mut head, times, *entry);
        put_entry(out, block, names, known, &head, *entry)?;
    }
    Ok(())
}

/// Writes the lines of a log's records: for each record, in order, a line `TIME DELTA NAME VALUE`
/// for each of its changes. The log may be a part of a run, after records that were given away.
/// `names` are those of the nets by number. The lines are written in blocks of 32 KiB, of which the
/// last may be shorter; nothing is allocated. `WriteError` if a write fails or writes nothing: then
/// a prefix of the lines has been written.
pub fn write_records<N: Named, W: Write>(
    names: &[N],
    known: &KnownNames,
    log: &Log,
    out: &mut W,
) -> Result<(), WriteError>
    requires named { All (IsNamed (length names.now)) log.now.records }
    requires known { AreNames (map N.name_of names.now) known.now }
    requires early { log.now.past.delta < 2 ^ 63 }
    ensures ok { OnOk result (Appends (W.contents out.old) (W.contents out.new)
        (flat_map (lines_of (map N.name_of names.now)) log.now.records)) }
    ensures part { OnErr result (AppendsPart (W.contents out.old) (W.contents out.new)
        (flat_map (lines_of (map N.name_of names.now)) log.now.records)) }
{
    let mut block = Block::new();
    put_entries(out, &mut block, names, known.as_slice(), log)?;
    write_out(out, &mut block)
}

/// What the last line of a listing says.
#[derive(Clone, Copy)]
pub struct Totals {
    pub cycles: usize,
    pub events: u64,
}

/// Writes the lines of a log's records, as `write_records` does, and then the last line of the
/// listing, `done CYCLES EVENTS`. The log is the last part of a run.
pub fn write_last_records<N: Named, W: Write>(
    names: &[N],
    known: &KnownNames,
    log: &Log,
    totals: Totals,
    out: &mut W,
) -> Result<(), WriteError>
    requires named { All (IsNamed (length names.now)) log.now.records }
    requires known { AreNames (map N.name_of names.now) known.now }
    requires early { log.now.past.delta < 2 ^ 63 }
    ensures ok { OnOk result (Appends (W.contents out.old) (W.contents out.new)
        (flat_map (lines_of (map N.name_of names.now)) log.now.records ++ end_of totals.cycles totals.events)) }
    ensures part { OnErr result (AppendsPart (W.contents out.old) (W.contents out.new)
        (flat_map (lines_of (map N.name_of names.now)) log.now.records ++ end_of totals.cycles totals.events)) }
{
    let mut block = Block::new();
    put_entries(out, &mut block, names, known.as_slice(), log)?;
    finish(out, &mut block, totals.cycles, totals.events)
}

/// Writes the listing of a store's log, as `write_listing` writes that of records: for each record,
/// in order, a line `TIME DELTA NAME VALUE` for each of its changes, and finally `done CYCLES
/// EVENTS`. `names` are those of the nets by number, `events` counts the changes after the first
/// record. A table of the short names is made; if memory is refused, all are taken from `names`.
/// `WriteError` if a write fails or writes nothing: then a prefix of the listing has been written.
pub fn write_log<N: Named, W: Write>(
    alloc: Global,
    names: &[N],
    log: &Log,
    events: u64,
    out: &mut W,
) -> Result<(), WriteError>
    requires history { IsHistory (map N.name_of names.now) log.now.records }
    requires events { events ≡ event_count log.now.records }
    requires early { log.now.past.delta < 2 ^ 63 }
    ensures ok { OnOk result (Appends (W.contents out.old) (W.contents out.new) (listing (map N.name_of names.now) log.now.records)) }
    ensures part { OnErr result (AppendsPart (W.contents out.old) (W.contents out.new) (listing (map N.name_of names.now) log.now.records)) }
{
    let known = KnownNames::of(alloc, names);
    let totals = Totals {
        cycles: log.len() - 1,
        events,
    };
    write_last_records(names, &known, log, totals, out)
}
