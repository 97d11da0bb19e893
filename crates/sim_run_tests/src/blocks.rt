//! Listings that are written in blocks.
ghost use Rattle.std.specs.Prelude.{◌≡◌, ◌<◌, length, All, IfOk, ℕ};
ghost use Rattle.sim_logic.specs.declared.logic.Logic as logic;
ghost use Rattle.sim_standard.specs.Records.{IsNamed, event_count};

use crate::streams::Failing;
use sim_logic::Logic;
use sim_run::{Finished, Record, write_listing};
use sqlite_items::Items;
use std::alloc::{AllocError, Global};
use std::test::Fail;

/// A record with `count` changes of net 0 to '1'.
fn record(alloc: Global, time: u64, count: usize) -> Result<Record, AllocError>
    ensures length { IfOk result (λ r. length r.changes ≡ count) }
    ensures named { IfOk result (λ r. All (λ (c : ℕ × logic.Logic). c.0 < 1) r.changes) }
{
    let mut changes = Items::new(alloc);
    for _made in 0..count {
        changes.push((0, Logic::One))?;
    }
    Ok(Record {
        time,
        delta: 0,
        changes,
    })
}

/// The name of net 0.
fn names(alloc: Global) -> Result<Vec<String>, AllocError>
    ensures { IfOk result (λ v. length v.items ≡ 1) }
{
    let name = String::from_str(alloc, "s")?;
    let names = vec![in alloc; name]?;
    Ok(names)
}

/// The initialization and a record with 40,000 events.
fn records(alloc: Global) -> Result<Vec<Record>, AllocError>
    ensures begun { IfOk result (λ v. 0 < length v.items) }
    ensures named { IfOk result (λ v. All (IsNamed 1) v.items) }
    ensures events { IfOk result (λ v. event_count v.items ≡ 40000) }
{
    let first = record(alloc, 0, 1)?;
    let second = record(alloc, 5, 40_000)?;
    let records = vec![in alloc; first, second]?;
    Ok(records)
}

/// Whether this is the listing, written with few calls.
fn is_written_in_blocks(out: &Failing) -> bool {
    let written = out.taken.as_slice();
    written.len() == 8 + 40_000 * 8 + 13
        && written.starts_with(b"0 0 s 1\n5 0 s 1\n5 0 s 1\n")
        && written.ends_with(b"5 0 s 1\ndone 1 40000\n")
        && out.calls <= written.len().div_ceil(4096)
}

/// Whether a run of one net has a cycle and these events.
fn has_numbers(finished: &Finished) -> bool {
    finished.cycles() == 1
        && finished.events() == 40_000
        && finished.names().len() == 1
        && finished.records().len() == 2
}

/// Whether the listing of the records is written in blocks.
fn is_listed(alloc: Global) -> Result<bool, AllocError> {
    let names = names(alloc)?;
    let finished = Finished::new(names, records(alloc)?, 40_000);
    let mut out = Failing::new(alloc, usize::MAX, usize::MAX);
    let is_whole = write_listing(&finished, &mut out).is_ok();
    Ok(is_whole && is_written_in_blocks(&out) && has_numbers(&finished))
}

#[test]
fn a_long_listing_is_written_in_blocks(rt: HostRuntime) -> Result<(), Fail> {
    assert!(rt; is_listed(rt.alloc())?);
    Ok(())
}
