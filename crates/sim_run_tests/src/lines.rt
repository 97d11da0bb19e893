//! Listings to a writer that accepts one byte at a time.

ghost use Rattle.std.specs.Prelude.{◌≡◌, ◌<◌, length, All, IfOk, ℕ};
ghost use Rattle.sim_logic.specs.declared.logic.Logic as logic;
ghost use Rattle.sim_standard.specs.Records.{IsNamed, event_count};

use sim_flat_design::{InstancePath, Net};
use sim_logic::Logic;
use sim_run_listing::{WriteError, write_listing, write_whole};
use sim_store_state::{Log, Past, Record};
use sqlite_items::Items;
use std::alloc::{AllocError, Global};
use std::io;
use std::io::Write;
use std::test::Fail;

/// A writer that accepts one byte at a time, and a limited number in all.
#[derive(Drop)]
struct Narrow {
    bytes: Vec<u8>,
    room: usize,
}

impl Write for Narrow {
    fn write(&mut self, buf: &[u8]) -> io::Result<usize> {
        if buf.is_empty() || self.bytes.len() >= self.room {
            return Ok(0);
        }
        self.bytes.push(buf[0])?;
        Ok(1)
    }

    fn flush(&mut self) -> io::Result<()> {
        Ok(())
    }
}

/// The change of net 0 to this value.
fn changes(alloc: Global, value: Logic) -> Result<Items<(usize, Logic)>, AllocError>
    ensures length { IfOk result (λ found. length found ≡ 1) }
    ensures named { IfOk result (λ found. All (λ (c : ℕ × logic.Logic). c.0 < 1) found) }
{
    let mut found = Items::new(alloc);
    found.push((0, value))?;
    Ok(found)
}

/// A record in which net 0 gets this value.
fn record(alloc: Global, time: u64, value: Logic) -> Result<Record, AllocError>
    ensures length { IfOk result (λ r. length r.changes ≡ 1) }
    ensures named { IfOk result (λ r. All (λ (c : ℕ × logic.Logic). c.0 < 1) r.changes) }
{
    Ok(Record {
        time,
        delta: 0,
        changes: changes(alloc, value)?,
    })
}

/// The name of net 0.
fn names(alloc: Global) -> Result<Vec<String>, AllocError>
    ensures { IfOk result (λ v. length v.items ≡ 1) }
{
    let name = String::from_str(alloc, "s")?;
    let names = vec![in alloc; name]?;
    Ok(names)
}

/// Two records, with one event.
fn records(alloc: Global) -> Result<Vec<Record>, AllocError>
    ensures begun { IfOk result (λ v. 0 < length v.items) }
    ensures named { IfOk result (λ v. All (IsNamed 1) v.items) }
    ensures events { IfOk result (λ v. event_count v.items ≡ 1) }
{
    let first = record(alloc, 0, Logic::Zero)?;
    let second = record(alloc, 5_000_000, Logic::One)?;
    let records = vec![in alloc; first, second]?;
    Ok(records)
}

/// The lines of two records that a writer with this room took, and how it ended.
fn listed(alloc: Global, room: usize) -> Result<(Vec<u8>, Result<(), WriteError>), AllocError> {
    let names = names(alloc)?;
    let records = records(alloc)?;
    let mut out = Narrow {
        bytes: Vec::new(alloc),
        room,
    };
    let ended = write_listing(names.as_slice(), records.as_slice(), 1, &mut out);
    Ok((out.bytes, ended))
}

/// The number of bytes that a writer accepts in all, what it then has, and how the listing ends.
static LISTINGS: [(usize, &[u8], Result<(), WriteError>); 4] = [
    (1_000, b"0 0 s 0\n5000000 0 s 1\ndone 1 1\n", Ok(())),
    (31, b"0 0 s 0\n5000000 0 s 1\ndone 1 1\n", Ok(())),
    (10, b"0 0 s 0\n50", Err(WriteError)),
    (0, b"", Err(WriteError)),
];

#[test]
fn each_change_has_a_line_until_the_writer_is_full(rt: HostRuntime) -> Result<(), Fail> {
    for (room, bytes, ended) in &LISTINGS {
        let (written, end) = listed(rt.alloc(), *room)?;
        assert_eq!(rt; end, *ended, "{room}");
        assert_eq!(rt; written.as_slice(), *bytes, "{room}");
    }
    Ok(())
}

/// The path of an instance `u` of the top.
fn path(alloc: Global) -> Result<InstancePath, AllocError> {
    let top = InstancePath::top(alloc)?;
    top.below(alloc, "u")
}

/// Net 0, which is in that instance.
fn nets(alloc: Global) -> Result<Vec<Net>, AllocError>
    ensures { IfOk result (λ v. length v.items ≡ 1) }
{
    let path = path(alloc)?;
    let net = Net::new(alloc, &path, "s", Items::new(alloc))?;
    let nets = vec![in alloc; net]?;
    Ok(nets)
}

/// The lines of the records with the names of nets.
fn listed_by_nets(alloc: Global) -> Result<Vec<u8>, AllocError> {
    let nets = nets(alloc)?;
    let records = records(alloc)?;
    let mut out = Vec::new(alloc);
    let _ended = write_listing(nets.as_slice(), records.as_slice(), 1, &mut out);
    Ok(out)
}

#[test]
fn the_path_of_a_net_precedes_its_simple_name(rt: HostRuntime) -> Result<(), Fail> {
    let written = listed_by_nets(rt.alloc())?;
    let expected = b"0 0 u.s 0\n5000000 0 u.s 1\ndone 1 1\n".as_slice();
    assert!(rt; written.as_slice() == expected);
    Ok(())
}

/// Whether all bytes are written.
fn goes_out_whole(alloc: Global) -> bool {
    let mut out = Vec::new(alloc);
    let ended = write_whole(&mut out, b"done");
    ended.is_ok() && out.as_slice() == b"done".as_slice()
}

#[test]
fn all_bytes_are_written(rt: HostRuntime) {
    assert!(rt; goes_out_whole(rt.alloc()));
}

#[test]
fn a_log_begins_with_no_records(rt: HostRuntime) {
    assert!(rt; Log::new(rt.alloc(), Past::none()).len() == 0);
}
