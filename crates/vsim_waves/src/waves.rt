//! The values of nets over time.

use crate::draft::{Change, Draft, ROOM};
use crate::hierarchy::{declare, enter, leave};
use std::alloc::{AllocError, Global};
use std::io::{self, Write};
use vsim_waves_listing::{Moment, Names, label_of};

/// How far a listing has been read.
#[derive(Clone, Copy, PartialEq, Eq)]
enum Stage {
    /// The first lines, which name all nets.
    Names,
    /// Changes.
    Changes,
    /// The last line.
    Done,
}

/// The letter of a net's value, and of the value written last, which is 0 at first.
#[derive(Clone, Copy)]
struct Shown {
    value: u8,
    written: u8,
    change: Change,
    /// Where the last label of its name begins.
    label: usize,
}

/// The part of a listing that has been read. All changes before the last time are written.
#[derive(Drop)]
pub struct Waves {
    has_deltas: bool,
    scope: String,
    stage: Stage,
    names: Names,
    nets: Vec<Shown>,
    /// The nets that changed at the last moment, possibly more than once.
    changed: Vec<usize>,
    last: Moment,
    /// The last time that was written.
    stamp: Option<u64>,
    draft: Draft,
}

/// Writes what precedes the nets.
fn write_head<W: Write>(out: &mut W, scope: &str) -> io::Result<()> {
    out.write_all(b"$version vsim_waves $end\n$timescale 1 fs $end\n")?;
    writeln!(out, "$scope module {scope} $end")
}

/// Puts the value of a net, if it differs from the value put last: `0`, `1`, `x` and `z` as usual in
/// a VCD, the others in the same way.
#[inline(always)]
fn put_change(draft: &mut Draft, nets: &mut Vec<Shown>, number: usize) {
    let Some(net) = nets.get_mut(number) else {
        return;
    };
    if net.written != net.value {
        net.written = net.value;
        draft.put_change(net.value.to_ascii_lowercase(), &net.change);
    }
}

/// Puts the values of these nets, which have room.
fn put_changes(draft: &mut Draft, nets: &mut Vec<Shown>, changed: &[usize]) {
    for number in changed {
        put_change(draft, nets, *number);
    }
}

/// Writes the values of these nets, behind what was put, which is a time at most.
fn write_changes<W: Write>(
    out: &mut W,
    draft: &mut Draft,
    nets: &mut Vec<Shown>,
    changed: &[usize],
) -> io::Result<()> {
    for part in changed.chunks(ROOM) {
        put_changes(draft, nets, part);
        draft.flush(out)?;
    }
    Ok(())
}

/// A path without the dot behind it, or a label, as text.
fn text_of(bytes: &[u8]) -> &str {
    str::from_utf8(bytes.strip_suffix(b".").unwrap_or(bytes)).unwrap_or("")
}

/// The path of a net's name, with the dot behind it, and its last label. Where there is no such net,
/// both are empty.
#[inline(always)]
fn parts<'a>(names: &'a Names, nets: &[Shown], number: usize) -> (&'a [u8], &'a [u8]) {
    let (Some(net), Some(name)) = (nets.get(number), names.get(number)) else {
        return (&[], &[]);
    };
    match name.split_at_checked(net.label) {
        Some(parts) => parts,
        None => (&[], &[]),
    }
}

/// Writes what was put, and then goes from the scopes of a path to those of the next.
fn go_on<W: Write>(out: &mut W, draft: &mut Draft, path: &[u8], next: &[u8]) -> io::Result<()> {
    draft.flush(out)?;
    leave(out, text_of(path), text_of(next))?;
    enter(out, text_of(path), text_of(next))
}

impl Waves {
    /// Waves of which nothing has been read.
    pub fn new(alloc: Global, has_deltas: bool, scope: String) -> Result<Waves, AllocError> {
        let draft = Draft::new(alloc)?;
        Ok(Waves {
            has_deltas,
            scope,
            stage: Stage::Names,
            names: Names::new(alloc),
            nets: Vec::new(alloc),
            changed: Vec::new(alloc),
            last: Moment { time: 0, delta: 0 },
            stamp: None,
            draft,
        })
    }

    /// Whether the last line has been read.
    pub fn is_done(&self) -> bool {
        self.stage == Stage::Done
    }

    /// Adds a net with its initial value; `false` if its name can be none, or is that of another net.
    /// The last step is that it has a name, so this can be tried again where memory was short.
    fn add(&mut self, alloc: Global, name: &[u8], value: u8) -> Result<bool, AllocError> {
        let Some(label) = label_of(name) else {
            return Ok(false);
        };
        self.put_next(label, value)?;
        self.names.add(alloc, name)
    }

    /// Puts the net that is named next behind those that have names.
    fn put_next(&mut self, label: usize, value: u8) -> Result<(), AllocError> {
        let number = self.names.len();
        self.changed.push(number)?;
        self.nets.truncate(number);
        let change = Change::new(number);
        self.nets.push(Shown {
            value,
            written: 0,
            change,
            label,
        })?;
        Ok(())
    }

    /// Sets the value of the net with a number.
    #[inline(always)]
    fn put(&mut self, number: usize, value: u8) -> Result<(), AllocError> {
        if let Some(net) = self.nets.get_mut(number) {
            net.value = value;
        }
        self.changed.push(number)?;
        Ok(())
    }

    /// Writes what precedes all values, once all nets are named.
    fn begin<W: Write>(&mut self, out: &mut W) -> io::Result<()> {
        if self.stage != Stage::Names {
            return Ok(());
        }
        self.stage = Stage::Changes;
        write_head(out, self.scope.as_str())?;
        self.write_nets(out)?;
        out.write_all(b"$upscope $end\n$enddefinitions $end\n")
    }

    /// Writes the scopes and variables of all nets. A listing has them path by path, so that each
    /// scope is entered once.
    fn write_nets<W: Write>(&mut self, out: &mut W) -> io::Result<()> {
        let nets = self.nets.as_slice();
        for (number, net) in nets.iter().enumerate() {
            let (last, _) = parts(&self.names, nets, number.wrapping_sub(1));
            let (path, label) = parts(&self.names, nets, number);
            if path != last || !self.draft.has_room_for(label) {
                go_on(out, &mut self.draft, last, path)?;
            }
            if !self.draft.put_declaration(&net.change, label) {
                declare(out, number, 1, text_of(label))?;
            }
        }
        let (last, _) = parts(&self.names, nets, nets.len().wrapping_sub(1));
        go_on(out, &mut self.draft, last, &[])
    }

    /// The time under which the last moment is written. It is always later than the one before it.
    fn next_stamp(&self) -> u64 {
        let own = if self.has_deltas {
            self.last.time.saturating_add(self.last.delta)
        } else {
            self.last.time
        };
        match self.stamp {
            Some(stamp) => own.max(stamp.saturating_add(1)),
            None => own,
        }
    }

    /// Writes the changes of the last moment.
    fn write<W: Write>(&mut self, out: &mut W) -> io::Result<()> {
        self.flush(out)?;
        let stamp = self.next_stamp();
        self.draft.put_time(stamp);
        match self.stamp {
            None => self.write_first(out)?,
            Some(_) => self.write_changed(out)?,
        }
        self.stamp = Some(stamp);
        self.changed.clear();
        Ok(())
    }

    /// Writes the values of the nets that changed, behind what was put, which is a time at most.
    fn write_changed<W: Write>(&mut self, out: &mut W) -> io::Result<()> {
        write_changes(
            out,
            &mut self.draft,
            &mut self.nets,
            self.changed.as_slice(),
        )
    }

    /// Writes the values of all nets, with which a VCD begins.
    fn write_first<W: Write>(&mut self, out: &mut W) -> io::Result<()> {
        self.flush(out)?;
        out.write_all(b"$dumpvars\n")?;
        self.write_changed(out)?;
        out.write_all(b"$end\n")
    }

    /// Puts the changes of the last moment into the draft; `false` if it has no room for them, or if
    /// they are the first values.
    fn put_changed(&mut self) -> bool {
        if self.stamp.is_none() || !self.draft.has_room(self.changed.len()) {
            return false;
        }
        let stamp = self.next_stamp();
        self.draft.put_time(stamp);
        put_changes(&mut self.draft, &mut self.nets, self.changed.as_slice());
        self.stamp = Some(stamp);
        self.changed.clear();
        true
    }

    /// Writes what was put into the draft.
    pub fn flush<W: Write>(&mut self, out: &mut W) -> io::Result<()> {
        self.draft.flush(out)
    }

    /// Whether a moment is written separately from the last one.
    fn is_apart(&self, at: Moment) -> bool {
        at.time != self.last.time || (self.has_deltas && at.delta != self.last.delta)
    }

    /// Whether a moment is earlier than the last one.
    fn is_before(&self, at: Moment) -> bool {
        at.time < self.last.time || (at.time == self.last.time && at.delta < self.last.delta)
    }

    /// Takes a change, unless something is to be written or refused first; `false` if it was not
    /// taken.
    pub fn take(&mut self, alloc: Global, at: Moment, name: &[u8], value: u8) -> bool {
        match self.stage {
            Stage::Names => self.take_first(alloc, at, name, value),
            Stage::Changes => self.take_later(at, name, value),
            Stage::Done => false,
        }
    }

    /// The same for a first value.
    fn take_first(&mut self, alloc: Global, at: Moment, name: &[u8], value: u8) -> bool {
        let is_first = at.time == 0 && at.delta == 0;
        is_first && matches!(self.add(alloc, name, value), Ok(true))
    }

    /// The same for a change behind the first values.
    fn take_later(&mut self, at: Moment, name: &[u8], value: u8) -> bool {
        if self.is_before(at) {
            return false;
        }
        let Some(number) = self.names.find(name) else {
            return false;
        };
        if self.is_apart(at) && !self.put_changed() {
            return false;
        }
        self.last = at;
        self.put(number, value).is_ok()
    }

    /// Takes a change; `false` if no change at this moment or of this net is allowed here.
    pub fn change<W: Write>(
        &mut self,
        alloc: Global,
        out: &mut W,
        at: Moment,
        name: &[u8],
        value: u8,
    ) -> io::Result<bool> {
        if at.time == 0 && at.delta == 0 {
            return Ok(self.stage == Stage::Names && self.add(alloc, name, value)?);
        }
        let Some(number) = self.names.find(name) else {
            return Ok(false);
        };
        if self.stage == Stage::Done || self.is_before(at) {
            return Ok(false);
        }
        self.go_to(out, at)?;
        self.put(number, value)?;
        Ok(true)
    }

    /// Goes on to a moment. Changes at an earlier one are written.
    fn go_to<W: Write>(&mut self, out: &mut W, at: Moment) -> io::Result<()> {
        self.begin(out)?;
        if self.is_apart(at) {
            self.write(out)?;
        }
        self.last = at;
        Ok(())
    }

    /// Takes the last line; `false` if there was one already.
    pub fn end<W: Write>(&mut self, out: &mut W) -> io::Result<bool> {
        if self.stage == Stage::Done {
            return Ok(false);
        }
        self.begin(out)?;
        self.write(out)?;
        self.stage = Stage::Done;
        Ok(true)
    }
}
