//! The map that `vsim_netlist --map` writes: which signals of a listing the variables of a source
//! are made of.

use crate::fault::Fault;
use indexmap::IndexSet;
use std::alloc::{AllocError, Global};

/// A bit of a variable: a signal, by its place among those of the map, the same value for ever, or
/// nothing.
#[derive(Clone, Copy)]
pub enum MapBit {
    Signal(usize),
    Constant(u8),
    Absent,
}

/// A variable of the source, with its bits, the lowest index first.
pub struct Variable {
    pub name: String,
    pub offset: i64,
    pub is_up: bool,
    pub bits: Vec<MapBit>,
}

/// Written by hand so that code which drops it needs no proof about its contents.
impl Drop for Variable {
    fn drop(self) {
        let Variable {
            name,
            offset: _,
            is_up: _,
            bits,
        } = self;
        drop(name);
        drop(bits);
    }
}

/// A map: the module, the time at which the stimuli end, signals and variables.
pub struct SourceMap {
    pub top: String,
    pub end: u64,
    pub signals: IndexSet<String>,
    pub variables: Vec<Variable>,
}

/// Written by hand so that code which drops it needs no proof about its contents.
impl Drop for SourceMap {
    fn drop(self) {
        let SourceMap {
            top,
            end: _,
            signals,
            variables,
        } = self;
        drop(top);
        drop(signals);
        drop(variables);
    }
}

/// The beginning of the first line, before the version of the map; the entity may follow.
const HEAD: &str = "vsim_netlist map ";

/// The version of a map that is read.
const VERSION: &str = "1";

/// Refuses a first line that is none of a map, or that of another version.
fn demand_version(line: &str) -> Result<(), Fault> {
    let Some(rest) = line.strip_prefix(HEAD) else {
        return Err(Fault::Refused("it is no map of vsim_netlist"));
    };
    let (version, _entity) = rest.split_once(' ').unwrap_or((rest, ""));
    match version {
        VERSION => Ok(()),
        _ => Err(Fault::Refused("it is a map of another version, and version 1 is wanted")),
    }
}

/// The bit that a word is: a literal, a dash, or the name of a signal.
fn bit(alloc: Global, signals: &mut IndexSet<String>, word: &str) -> Result<MapBit, AllocError> {
    Ok(match word {
        "'0'" => MapBit::Constant(b'0'),
        "'1'" => MapBit::Constant(b'1'),
        "'Z'" => MapBit::Constant(b'z'),
        "'X'" => MapBit::Constant(b'x'),
        "-" => MapBit::Absent,
        _ => {
            let (place, _) = signals.insert_full(String::from_str(alloc, word)?)?;
            MapBit::Signal(place)
        }
    })
}

/// The bits behind the head of a variable.
fn bits(
    alloc: Global,
    signals: &mut IndexSet<String>,
    words: &str,
) -> Result<Vec<MapBit>, AllocError> {
    let mut bits = Vec::new(alloc);
    for word in words.split_ascii_whitespace() {
        bits.push(bit(alloc, signals, word)?)?;
    }
    Ok(bits)
}

impl SourceMap {
    /// Nothing was read.
    fn new(alloc: Global) -> SourceMap {
        SourceMap {
            top: String::new(alloc),
            end: 0,
            signals: IndexSet::new(alloc),
            variables: Vec::new(alloc),
        }
    }

    /// Takes a variable, of what stands behind its word.
    fn take_variable(&mut self, alloc: Global, text: &str) -> Result<(), Fault> {
        let mut parts = text.splitn(4, ' ');
        let (name, offset) = (parts.next(), parts.next());
        let (direction, words) = (parts.next(), parts.next().unwrap_or(""));
        let (Some(name), Some(offset), Some(direction)) = (name, offset, direction) else {
            return Err(Fault::Refused("a variable is cut off"));
        };
        let Ok(offset) = offset.parse::<i64>() else {
            return Err(Fault::Refused("an index is no number"));
        };
        let bits = bits(alloc, &mut self.signals, words)?;
        self.add(alloc, name, offset, direction == "to", bits)?;
        Ok(())
    }

    /// Adds a variable.
    fn add(
        &mut self,
        alloc: Global,
        name: &str,
        offset: i64,
        is_up: bool,
        bits: Vec<MapBit>,
    ) -> Result<(), AllocError> {
        let name = String::from_str(alloc, name)?;
        self.variables.push(Variable {
            name,
            offset,
            is_up,
            bits,
        })?;
        Ok(())
    }

    /// Takes the time at which the stimuli end.
    fn take_end(&mut self, time: &str) -> Result<(), Fault> {
        let Ok(time) = time.parse::<u64>() else {
            return Err(Fault::Refused("the end is no number"));
        };
        self.end = time;
        Ok(())
    }

    /// Takes a line but the first.
    fn take(&mut self, alloc: Global, line: &str) -> Result<(), Fault> {
        match line.split_once(' ') {
            Some(("end", time)) => self.take_end(time),
            Some(("top", name)) => {
                self.top = String::from_str(alloc, name)?;
                Ok(())
            }
            Some(("var", text)) => self.take_variable(alloc, text),
            _ => Err(Fault::Refused("it is no line of a map")),
        }
    }
}

/// Reads a map, or gives the number of the line at fault.
pub fn read_map(alloc: Global, text: &str) -> Result<SourceMap, (usize, Fault)> {
    let mut map = SourceMap::new(alloc);
    for (index, line) in text.lines().enumerate() {
        let taken = if index > 0 {
            map.take(alloc, line)
        } else {
            demand_version(line)
        };
        if let Err(fault) = taken {
            return Err((index.saturating_add(1), fault));
        }
    }
    Ok(map)
}
