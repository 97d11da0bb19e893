//! Processes that are equal but for their signals.

use crate::instances::{entity, instance_bytes, put_instance};
use crate::shapes::{Catalogue, Shape};
use indexmap::IndexSet;
use std::alloc::{AllocError, Global};
use vsim_netlist_design::{Draft, Level, push};
use vsim_netlist_signals::Statements;

/// The maximum number of instances in a design of vsim.
const MOST: usize = 16_384;

/// A name of the usual length, by which entities are weighed.
const SOME_NAME: &str = "abc";

/// A process, and the place of the one signal that it drives.
#[derive(Drop)]
pub struct TimedProcess {
    pub text: Draft,
    pub output: usize,
}

/// A process of a group: its number, and its inputs in the order of its shape.
#[derive(Drop)]
struct Member {
    number: usize,
    output: usize,
    inputs: Vec<usize>,
}

/// Processes with one shape.
#[derive(Drop)]
struct Group {
    members: Vec<Member>,
    /// The initial value of their outputs.
    initial: Option<Level>,
    /// The number of bytes of the processes.
    bytes: usize,
    /// The number of bytes of instances in their place.
    instance_bytes: usize,
}

/// All groups, by the texts of their shapes and the initial values.
struct Groups {
    alloc: Global,
    keys: IndexSet<String>,
    groups: Vec<Group>,
}

/// Written by hand so that code which drops it needs no proof about its contents.
impl Drop for Groups {
    fn drop(self) {
        let Groups {
            alloc: _,
            keys,
            groups,
        } = self;
        drop(keys);
        drop(groups);
    }
}

/// The key of a group: the initial value in three characters, and the shape.
fn key_of(alloc: Global, initial: Option<Level>, shape: &Draft) -> Result<String, AllocError> {
    let literal = match initial {
        Some(level) => level.literal(),
        None => "'U'",
    };
    let mut key = Draft::of(alloc, literal);
    key.push_draft(shape);
    key.finish()
}

/// The shape in a key.
fn shape_in(key: &str) -> &str {
    match key.char_indices().nth(3) {
        Some((place, _)) => key.get(place..).unwrap_or(""),
        None => "",
    }
}

impl Group {
    /// No processes.
    fn new(alloc: Global, initial: Option<Level>) -> Group {
        Group {
            members: Vec::new(alloc),
            initial,
            bytes: 0,
            instance_bytes: 0,
        }
    }

    /// The number of inputs of a process.
    fn inputs(&self) -> usize {
        match self.members.first() {
            Some(member) => member.inputs.len(),
            None => 0,
        }
    }

    /// Whether an entity and its instances are shorter than the processes.
    fn is_shorter_shared(&self, statements: &mut Statements, shape: &str) -> bool {
        if self.members.len() < 2 {
            return false;
        }
        let alloc = statements.alloc;
        let entity = entity(alloc, SOME_NAME, shape, self.inputs(), self.initial);
        let bytes = entity.read_for(&mut statements.entities).len();
        self.instance_bytes.saturating_add(bytes) < self.bytes
    }
}

impl Groups {
    /// No groups.
    fn new(alloc: Global) -> Groups {
        Groups {
            alloc,
            keys: IndexSet::new(alloc),
            groups: Vec::new(alloc),
        }
    }

    /// The index of the group with a key, which is added if it is new.
    fn place(&mut self, key: String, initial: Option<Level>) -> Result<usize, AllocError> {
        let (place, is_new) = self.keys.insert_full(key)?;
        if is_new {
            push(&mut self.groups, Group::new(self.alloc, initial))?;
        }
        Ok(place)
    }

    /// Adds a process of this length in place of which an instance would have that many bytes.
    fn add(
        &mut self,
        place: usize,
        member: Member,
        bytes: usize,
        instance_bytes: usize,
    ) -> Result<(), AllocError> {
        let Some(group) = self.groups.get_mut(place) else {
            return Ok(());
        };
        group.bytes = group.bytes.saturating_add(bytes);
        group.instance_bytes = group.instance_bytes.saturating_add(instance_bytes);
        push(&mut group.members, member)
    }

    /// Adds a process with its shape.
    fn put(
        &mut self,
        statements: &mut Statements,
        number: usize,
        process: &TimedProcess,
        shape: Shape,
    ) -> Result<(), AllocError> {
        let output = process.output;
        let initial = statements.signals.initial(output);
        let key = key_of(self.alloc, initial, &shape.text)?;
        let place = self.place(key, initial)?;
        let bytes = process.text.read_for(&mut statements.body).len();
        let instance_bytes = instance_bytes(statements, shape.inputs.as_slice(), output);
        let member = Member {
            number,
            output,
            inputs: shape.inputs,
        };
        self.add(place, member, bytes, instance_bytes)
    }

    /// Adds a process, or writes it if it can be in no entity.
    fn take(
        &mut self,
        statements: &mut Statements,
        catalogue: &mut Catalogue,
        number: usize,
        process: &TimedProcess,
    ) -> Result<(), AllocError> {
        let text = process.text.read_for(&mut statements.body);
        let shape = catalogue.shape(text, process.output)?;
        if shape.reads_output {
            statements.body.push_draft(&process.text);
            return Ok(());
        }
        self.put(statements, number, process, shape)
    }

    /// Adds processes by their shapes in a catalogue.
    fn take_each(
        &mut self,
        statements: &mut Statements,
        catalogue: &mut Catalogue,
        processes: &[TimedProcess],
    ) -> Result<(), AllocError> {
        for (number, process) in processes.iter().enumerate() {
            self.take(statements, catalogue, number, process)?;
        }
        Ok(())
    }

    /// Adds processes. Those that can be in no entity are written.
    fn take_all(
        &mut self,
        statements: &mut Statements,
        processes: &[TimedProcess],
    ) -> Result<(), AllocError> {
        let mut catalogue = Catalogue::of(self.alloc, &statements.signals)?;
        self.take_each(statements, &mut catalogue, processes)
    }
}

/// Writes the processes of a group.
fn put_plain(statements: &mut Statements, processes: &[TimedProcess], group: &Group) {
    for member in group.members.iter() {
        if let Some(process) = processes.get(member.number) {
            statements.body.push_draft(&process.text);
        }
    }
}

/// Writes the instances of a group, and their entity.
fn put_shared(statements: &mut Statements, shape: &str, group: &Group) {
    let name = statements.signals.names.fresh();
    let (alloc, name) = (statements.alloc, name.as_str());
    let entity = entity(alloc, name, shape, group.inputs(), group.initial);
    statements.entities.push_draft(&entity);
    for member in group.members.iter() {
        put_instance(statements, name, member.inputs.as_slice(), member.output);
    }
}

/// Writes each group in the shorter way, as far as there may be more instances.
fn put_groups(statements: &mut Statements, processes: &[TimedProcess], groups: &Groups) {
    let mut left = MOST;
    for (key, group) in groups.keys.iter().zip(groups.groups.iter()) {
        let (shape, count) = (shape_in(key.as_str()), group.members.len());
        if count <= left && group.is_shorter_shared(statements, shape) {
            put_shared(statements, shape, group);
            left = left.saturating_sub(count);
        } else {
            put_plain(statements, processes, group);
        }
    }
}

/// Writes processes, each of which drives one signal. Those that are equal but for their signals
/// become instances of one entity where the text is shorter by it.
pub fn put_processes(
    statements: &mut Statements,
    processes: &[TimedProcess],
) -> Result<(), AllocError> {
    let mut groups = Groups::new(statements.alloc);
    groups.take_all(statements, processes)?;
    put_groups(statements, processes, &groups);
    Ok(())
}
