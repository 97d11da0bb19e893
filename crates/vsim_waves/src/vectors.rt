//! The values of the variables of a source, from time to time.

use crate::hierarchy::{declare_in, leave, write_identifier};
use std::alloc::{AllocError, Global};
use std::io::{self, Write};
use vsim_waves_listing::{MapBit, Moment, SourceMap, Variable};

/// The value that is shown of a variable, and whether it may have changed since.
#[derive(Drop)]
struct Shown {
    written: String,
    is_changed: bool,
}

/// The values read from a listing, as variables of its map.
#[derive(Drop)]
pub struct Vectors {
    alloc: Global,
    map: SourceMap,
    /// The value of each signal, and the variables that have it.
    values: Vec<u8>,
    users: Vec<Vec<usize>>,
    shown: Vec<Shown>,
    changed: Vec<usize>,
    time: u64,
    is_begun: bool,
    is_done: bool,
}

/// The value of a signal as a VCD has it.
fn value_of(value: u8) -> u8 {
    match value {
        b'0' | b'L' => b'0',
        b'1' | b'H' => b'1',
        b'Z' => b'z',
        _ => b'x',
    }
}

/// The path of a name, which is empty at the top, and the label that ends it. A name that begins
/// with a backslash is a label, with the dots in it.
fn parts(name: &str) -> (&str, &str) {
    if name.starts_with('\\') {
        return ("", name);
    }
    name.rsplit_once('.').unwrap_or(("", name))
}

/// The users of each signal.
fn users(alloc: Global, map: &SourceMap) -> Result<Vec<Vec<usize>>, AllocError> {
    let mut users = Vec::new(alloc);
    for _ in 0..map.signals.len() {
        users.push(Vec::new(alloc))?;
    }
    for (number, variable) in map.variables.iter().enumerate() {
        add_user(&mut users, number, variable)?;
    }
    Ok(users)
}

/// Adds a variable to the users of its signals.
fn add_user(
    users: &mut Vec<Vec<usize>>,
    number: usize,
    variable: &Variable,
) -> Result<(), AllocError> {
    for bit in variable.bits.iter() {
        if let MapBit::Signal(place) = *bit {
            if let Some(list) = users.get_mut(place) {
                list.push(number)?;
            }
        }
    }
    Ok(())
}

/// The shown state of each variable at first: nothing is written yet, and all are to be written.
fn nothing_shown(alloc: Global, count: usize) -> Result<Vec<Shown>, AllocError> {
    let mut shown = Vec::new(alloc);
    for _ in 0..count {
        shown.push(Shown {
            written: String::new(alloc),
            is_changed: true,
        })?;
    }
    Ok(shown)
}

/// The numbers below a count.
fn numbers(alloc: Global, count: usize) -> Result<Vec<usize>, AllocError> {
    (0..count).collect(alloc)
}

/// The value of a variable, the highest bit first.
fn text_of(alloc: Global, variable: &Variable, values: &[u8]) -> Result<String, AllocError> {
    let mut text = String::new(alloc);
    for bit in variable.bits.iter().rev() {
        let byte = match *bit {
            MapBit::Constant(byte) => byte,
            MapBit::Absent => b'x',
            MapBit::Signal(place) => values.get(place).copied().unwrap_or(b'x'),
        };
        text.push(char::from(byte))?;
    }
    Ok(text)
}

/// Writes a value of a variable.
fn write_value<W: Write>(out: &mut W, number: usize, text: &str) -> io::Result<()> {
    if text.len() > 1 {
        write!(out, "b{text} ")?;
    } else {
        out.write_all(text.as_bytes())?;
    }
    write_identifier(out, number)?;
    out.write_all(b"\n")
}

/// The label of a variable, with its range where it has more than one bit.
fn label_of(alloc: Global, variable: &Variable) -> Result<String, AllocError> {
    let (_, label) = parts(variable.name.as_str());
    let width = variable.bits.len();
    if width < 2 {
        return String::from_str(alloc, label);
    }
    let low = variable.offset;
    let high = low.saturating_add_unsigned(width as u64).saturating_sub(1);
    if variable.is_up {
        format!(in alloc; "{label} [{low}:{high}]")
    } else {
        format!(in alloc; "{label} [{high}:{low}]")
    }
}

impl Vectors {
    /// Nothing was read.
    pub fn new(alloc: Global, map: SourceMap) -> Result<Vectors, AllocError> {
        let users = users(alloc, &map)?;
        let values = vec![in alloc; b'x'; map.signals.len()]?;
        let shown = nothing_shown(alloc, map.variables.len())?;
        let changed = Vec::new(alloc);
        Ok(Vectors {
            alloc,
            map,
            values,
            users,
            shown,
            changed,
            time: 0,
            is_begun: false,
            is_done: false,
        })
    }

    /// Names the outermost scope.
    pub fn rename(&mut self, scope: &str) -> Result<(), AllocError> {
        self.map.top = String::from_str(self.alloc, scope)?;
        Ok(())
    }

    /// Whether the last line was read.
    pub fn is_done(&self) -> bool {
        self.is_done
    }

    /// The paths of variables with their numbers, in the order of paths.
    fn by_path(&self) -> Result<Vec<(String, usize)>, AllocError> {
        let mut paths = Vec::new(self.alloc);
        for (number, variable) in self.map.variables.iter().enumerate() {
            let (path, _) = parts(variable.name.as_str());
            paths.push((String::from_str(self.alloc, path)?, number))?;
        }
        paths.sort()?;
        Ok(paths)
    }

    /// Declares the variable with a number, behind one of another path.
    fn declare<W: Write>(
        &self,
        out: &mut W,
        last: &str,
        path: &str,
        number: usize,
    ) -> io::Result<()> {
        let Some(variable) = self.map.variables.get(number) else {
            return Ok(());
        };
        let label = label_of(self.alloc, variable)?;
        let width = variable.bits.len();
        declare_in(out, last, path, number, width, label.as_str())
    }

    /// Declares all variables, in their scopes.
    fn write_variables<W: Write>(&self, out: &mut W) -> io::Result<()> {
        let paths = self.by_path()?;
        let mut last = "";
        for (path, number) in paths.iter() {
            self.declare(out, last, path.as_str(), *number)?;
            last = path.as_str();
        }
        leave(out, last, "")
    }

    /// Writes what comes before the values.
    fn write_head<W: Write>(&self, out: &mut W) -> io::Result<()> {
        let top = self.map.top.as_str();
        out.write_all(b"$version vsim_waves $end\n$timescale 1 fs $end\n")?;
        writeln!(out, "$scope module {top} $end")?;
        self.write_variables(out)?;
        out.write_all(b"$upscope $end\n$enddefinitions $end\n")
    }

    /// Writes the value of a variable, if it is another than the one that was written last.
    fn write_change<W: Write>(&mut self, out: &mut W, number: usize) -> io::Result<()> {
        let Some(variable) = self.map.variables.get(number) else {
            return Ok(());
        };
        let text = text_of(self.alloc, variable, self.values.as_slice())?;
        let Some(shown) = self.shown.get_mut(number) else {
            return Ok(());
        };
        shown.is_changed = false;
        if shown.written == text {
            return Ok(());
        }
        write_value(out, number, text.as_str())?;
        shown.written = text;
        Ok(())
    }

    /// Writes the changes of a time.
    fn write<W: Write>(&mut self, out: &mut W) -> io::Result<()> {
        let changed = std::mem::replace(&mut self.changed, Vec::new(self.alloc));
        if changed.is_empty() {
            return Ok(());
        }
        let time = self.time;
        writeln!(out, "#{time}")?;
        self.write_changes(out, changed.as_slice())
    }

    /// Writes the values of these variables.
    fn write_changes<W: Write>(&mut self, out: &mut W, changed: &[usize]) -> io::Result<()> {
        for number in changed {
            self.write_change(out, *number)?;
        }
        Ok(())
    }

    /// Goes on to a time: what is of an earlier one is written.
    fn go_to<W: Write>(&mut self, out: &mut W, time: u64) -> io::Result<()> {
        if !self.is_begun {
            self.is_begun = true;
            self.changed = numbers(self.alloc, self.map.variables.len())?;
            self.write_head(out)?;
        }
        if time != self.time {
            self.write(out)?;
            self.time = time;
        }
        Ok(())
    }

    /// The variables of a signal may have changed.
    fn note(&mut self, place: usize) -> Result<(), AllocError> {
        let Some(users) = self.users.get(place) else {
            return Ok(());
        };
        for number in users.iter() {
            if let Some(shown) = self.shown.get_mut(*number) {
                if !shown.is_changed {
                    shown.is_changed = true;
                    self.changed.push(*number)?;
                }
            }
        }
        Ok(())
    }

    /// A change; `false` where none of that moment may stand there.
    pub fn change<W: Write>(
        &mut self,
        out: &mut W,
        at: Moment,
        name: &str,
        value: u8,
    ) -> io::Result<bool> {
        if self.is_done || at.time < self.time {
            return Ok(false);
        }
        self.go_to(out, at.time)?;
        let Some(place) = self.map.signals.get_index_of(name) else {
            return Ok(true);
        };
        if let Some(shown) = self.values.get_mut(place) {
            *shown = value_of(value);
        }
        self.note(place)?;
        Ok(true)
    }

    /// The last line; `false` where one was read already.
    pub fn end<W: Write>(&mut self, out: &mut W) -> io::Result<bool> {
        if self.is_done {
            return Ok(false);
        }
        self.go_to(out, self.time)?;
        self.write(out)?;
        self.is_done = true;
        let end = self.map.end;
        if end > self.time {
            writeln!(out, "#{end}")?;
        }
        Ok(true)
    }
}
