//! The delays of a file in the standard delay format, by instance and path.

use crate::library::Step;
use crate::lists::push;
use std::alloc::{AllocError, Global};
use std::collections::HashMap;

/// The edges of an input after which a path has its delay.
#[derive(Clone, Copy, PartialEq, Eq)]
pub enum Edge {
    Both,
    Rising,
    Falling,
}

/// When a path has its delay: always, while a condition holds, given by its index, or while none
/// does.
#[derive(Clone, Copy, PartialEq, Eq)]
pub enum When {
    Always,
    Holds(usize),
    Otherwise,
}

/// A pin of an instance, both by their indices.
#[derive(Clone, Copy, PartialEq, Eq)]
pub struct PinPlace {
    pub instance: usize,
    pub pin: usize,
}

/// A path from an input to an output, which are indices of pins.
#[derive(Clone, Copy, PartialEq, Eq)]
pub struct Path {
    pub from: usize,
    pub edge: Edge,
    pub to: usize,
    pub when: When,
}

/// What a delay is of.
#[derive(Clone, Copy, PartialEq, Eq)]
pub enum Delayed {
    Path(Path),
    /// The wire to an input, from all that drive it.
    Port(usize),
    /// The wire to an input from a pin.
    Wire(usize, PinPlace),
    /// All paths to an output, or all to any.
    Device(Option<usize>),
}

/// Delays in femtoseconds: to `1`, to `0`, and to high impedance if that has one of its own. `None`
/// leaves what there was.
#[derive(Clone, Copy, PartialEq, Eq)]
pub struct Times {
    pub rise: Option<i64>,
    pub fall: Option<i64>,
    pub off: Option<i64>,
    pub has_off: bool,
}

/// An entry of a file: it gives delays, or adds to those before it.
#[derive(Clone, Copy)]
pub struct DelayEntry {
    pub delayed: Delayed,
    pub times: Times,
    pub is_increment: bool,
    pub line: usize,
    /// The number of entries before it.
    pub place: usize,
}

/// The entries of an instance or of a kind of cells in the order of the file, and the line that
/// first names it.
#[derive(Drop)]
pub struct DelayList {
    pub name: String,
    pub line: usize,
    /// The kind of cells that an instance is of, and the line that says so.
    pub kind: Option<(usize, usize)>,
    pub entries: Vec<DelayEntry>,
}

/// Lists by the names of what they are of.
#[derive(Drop)]
pub struct DelayTable {
    pub lists: Vec<DelayList>,
    places: HashMap<String, usize>,
}

/// Names without repetition.
#[derive(Drop)]
pub struct NameList {
    pub names: Vec<String>,
    places: HashMap<String, usize>,
}

/// A condition: its inputs, which are indices of pins, and its steps on them.
#[derive(Drop)]
pub struct Condition {
    pub inputs: Vec<usize>,
    pub steps: Vec<Step>,
}

/// How often a file has an entry that has no effect.
#[derive(Clone, Copy)]
pub struct Passed {
    pub name: &'static str,
    pub count: usize,
}

/// The delays of a file.
pub struct Delays {
    pub instances: DelayTable,
    /// The delays of all cells of a kind.
    pub kinds: DelayTable,
    pub pins: NameList,
    pub kind_names: NameList,
    pub conditions: Vec<Condition>,
    /// What has no effect.
    pub passed: Vec<Passed>,
    /// How many delays are negative and count as 0.
    pub negative: usize,
}

/// Written by hand so that code which drops it needs no proof about its contents.
impl Drop for Delays {
    fn drop(self) {
        let Delays {
            instances,
            kinds,
            pins,
            kind_names,
            conditions,
            passed,
            negative: _,
        } = self;
        drop(instances);
        drop(kinds);
        drop(pins);
        drop(kind_names);
        drop(conditions);
        drop(passed);
    }
}

/// The number of entries up to which a list grows by one.
const FEW: usize = 8;

/// A list without entries.
fn empty_list(alloc: Global, name: &str, line: usize) -> Result<DelayList, AllocError> {
    let name = String::from_str(alloc, name)?;
    Ok(DelayList {
        name,
        line,
        kind: None,
        entries: Vec::new(alloc),
    })
}

/// Notes the index of the last of some items by its name, and returns it.
fn note_place(
    alloc: Global,
    places: &mut HashMap<String, usize>,
    name: &str,
    count: usize,
) -> Result<usize, AllocError> {
    let name = String::from_str(alloc, name)?;
    let place = count.saturating_sub(1);
    places.insert(name, place)?;
    Ok(place)
}

/// Adds an entry. Lists of few entries, as most are, take no more room than these.
fn push_entry(entries: &mut Vec<DelayEntry>, entry: DelayEntry) -> Result<(), AllocError> {
    if entries.len() < FEW {
        entries.reserve_exact(1)?;
    }
    push(entries, entry)
}

impl DelayTable {
    /// No lists.
    pub fn new(alloc: Global) -> DelayTable {
        DelayTable {
            lists: Vec::new(alloc),
            places: HashMap::new(alloc),
        }
    }

    /// The index of the list with a name.
    pub fn find(&self, name: &str) -> Option<usize> {
        match self.places.get(name) {
            Some(place) => Some(*place),
            None => None,
        }
    }

    /// The entries of the list with a name.
    pub fn entries(&self, name: &str) -> &[DelayEntry] {
        let Some(place) = self.places.get(name) else {
            return &[];
        };
        let Some(list) = self.lists.get(*place) else {
            return &[];
        };
        list.entries.as_slice()
    }

    /// The kind of the list with a name, and the line that says so, if any does.
    pub fn kind(&self, name: &str) -> Option<(usize, usize)> {
        match self.lists.get(self.find(name)?) {
            Some(list) => list.kind,
            None => None,
        }
    }

    /// Adds a list without entries. Its name is new.
    fn add(&mut self, alloc: Global, name: &str, line: usize) -> Result<usize, AllocError> {
        let list = empty_list(alloc, name, line)?;
        push(&mut self.lists, list)?;
        note_place(alloc, &mut self.places, name, self.lists.len())
    }

    /// The index of the list with a name, which is added if there is none.
    pub fn place(&mut self, alloc: Global, name: &str, line: usize) -> Result<usize, AllocError> {
        match self.find(name) {
            Some(place) => Ok(place),
            None => self.add(alloc, name, line),
        }
    }

    /// Notes the kind of the list at an index, on a line. Returns the kind that it has, if that is
    /// another.
    pub fn set_kind(&mut self, place: usize, kind: usize, line: usize) -> Option<usize> {
        let list = self.lists.get_mut(place)?;
        match list.kind {
            Some((known, _)) if known != kind => return Some(known),
            Some(_) => {}
            None => list.kind = Some((kind, line)),
        }
        None
    }

    /// Adds an entry to the list at an index.
    pub fn put(&mut self, place: usize, entry: DelayEntry) -> Result<(), AllocError> {
        match self.lists.get_mut(place) {
            Some(list) => push_entry(&mut list.entries, entry),
            None => Ok(()),
        }
    }
}

impl NameList {
    /// No names.
    pub fn new(alloc: Global) -> NameList {
        NameList {
            names: Vec::new(alloc),
            places: HashMap::new(alloc),
        }
    }

    /// The index of a name.
    pub fn find(&self, name: &str) -> Option<usize> {
        match self.places.get(name) {
            Some(place) => Some(*place),
            None => None,
        }
    }

    /// The name at an index.
    pub fn name(&self, place: usize) -> &str {
        match self.names.get(place) {
            Some(name) => name.as_str(),
            None => "",
        }
    }

    /// Adds a name, which is new.
    fn add(&mut self, alloc: Global, name: &str) -> Result<usize, AllocError> {
        let copy = String::from_str(alloc, name)?;
        push(&mut self.names, copy)?;
        note_place(alloc, &mut self.places, name, self.names.len())
    }

    /// The index of a name, which is added if it is new.
    pub fn place(&mut self, alloc: Global, name: &str) -> Result<usize, AllocError> {
        match self.find(name) {
            Some(place) => Ok(place),
            None => self.add(alloc, name),
        }
    }
}

/// The place of a name among those of what has no effect.
fn passed_place(passed: &[Passed], name: &str) -> Option<usize> {
    for (place, known) in passed.iter().enumerate() {
        if known.name == name {
            return Some(place);
        }
    }
    None
}

impl Delays {
    /// No delays, in a box: they have many parts, which would be parts of whatever holds them.
    pub fn new(alloc: Global) -> Result<Box<Delays>, AllocError> {
        match Box::new(alloc, Delays::empty(alloc)) {
            Ok(delays) => Ok(delays),
            Err(_lack) => Err(AllocError),
        }
    }

    /// No delays.
    fn empty(alloc: Global) -> Delays {
        Delays {
            instances: DelayTable::new(alloc),
            kinds: DelayTable::new(alloc),
            pins: NameList::new(alloc),
            kind_names: NameList::new(alloc),
            conditions: Vec::new(alloc),
            passed: Vec::new(alloc),
            negative: 0,
        }
    }

    /// Counts an entry that has no effect.
    pub fn pass(&mut self, name: &'static str) -> Result<(), AllocError> {
        match passed_place(self.passed.as_slice(), name) {
            Some(place) => {
                if let Some(known) = self.passed.get_mut(place) {
                    known.count = known.count.saturating_add(1);
                }
                Ok(())
            }
            None => push(&mut self.passed, Passed { name, count: 1 }),
        }
    }
}
