//! Which inputs are written as tables of their changes at the edges of a clock.

use crate::choice::chosen;
use crate::clock::{Clock, edge_for, edges_in_direction, is_any_late, later_changes};
use crate::steps::{clock_of_input, clock_of_steps};
use crate::table::{Table, put_table};
use crate::targets::{Levels, Targets};
use std::alloc::{AllocError, Global};
use vsim_netlist_design::{Change, push};
use vsim_netlist_signals::{Signals, Statements};

/// The bytes that a process takes for the counter of edges, less those of the additional signals
/// that inputs with waveforms have.
const COUNTER: usize = 300;

/// The bytes that a clock takes.
const CLOCK: usize = 100;

/// For how many inputs the steps in which they change are tried.
const TRIES: usize = 8;

/// The tables of a clock: the changes of inputs at its rising and its falling edges.
pub(crate) struct Tables {
    clock: Clock,
    rising: Option<Table>,
    falling: Option<Table>,
    targets: Targets,
}

impl Drop for Tables {
    fn drop(self) {
        let Tables {
            clock: _,
            rising: _rising,
            falling: _falling,
            targets: _targets,
        } = self;
    }
}

/// Adds a change of an input to a table.
fn push_change(
    table: &mut Table,
    clock: &Clock,
    net: usize,
    change: &Change,
) -> Result<(), AllocError> {
    match edge_for(clock, change.time) {
        Some(edge) => table.push(edge, net, *change),
        None => Ok(()),
    }
}

/// Adds the changes of an input to a table. Each inverts one of the signals of which the input is the
/// exclusive or.
fn push_inversions(
    table: &mut Table,
    clock: &Clock,
    net: usize,
    changes: &[Change],
) -> Result<(), AllocError> {
    let mut levels = Levels::of(changes);
    for change in later_changes(changes) {
        let Some(edge) = edge_for(clock, change.time) else {
            continue;
        };
        let level = levels.invert(edge.is_late);
        table.push(edge, net, Change { level, ..*change })?;
    }
    Ok(())
}

/// Adds the changes of an input to a table.
fn push_changes(
    table: &mut Table,
    clock: &Clock,
    net: usize,
    changes: &[Change],
) -> Result<(), AllocError> {
    if is_any_late(clock, changes) {
        return push_inversions(table, clock, net, changes);
    }
    for change in later_changes(changes) {
        push_change(table, clock, net, change)?;
    }
    Ok(())
}

/// Adds the changes of the inputs that are chosen to a table, by their edges.
fn push_inputs(
    table: &mut Table,
    clock: &Clock,
    inputs: &[(usize, &[Change])],
    chosen: &[bool],
) -> Result<(), AllocError> {
    for ((net, changes), is_chosen) in inputs.iter().zip(chosen) {
        if *is_chosen {
            push_changes(table, clock, *net, changes)?;
        }
    }
    table.sort()
}

/// Notes that the inputs that are chosen are assigned.
fn note(
    targets: &mut Targets,
    clock: &Clock,
    inputs: &[(usize, &[Change])],
    chosen: &[bool],
) -> Result<(), AllocError> {
    for ((net, changes), is_chosen) in inputs.iter().zip(chosen) {
        if *is_chosen {
            targets.add(*net, is_any_late(clock, changes))?;
        }
    }
    Ok(())
}

/// The table of those inputs, given by their nets and changes, that change at the edges of a clock in
/// one direction and take fewer bytes there, which it notes; `None` if waveforms are shorter.
fn table_of(
    alloc: Global,
    signals: &Signals,
    clock: &Clock,
    inputs: &[(usize, &[Change])],
    rises: bool,
    targets: &mut Targets,
) -> Result<Option<Table>, AllocError> {
    let chosen = chosen(alloc, signals, clock, inputs, rises)?;
    let mut table = Table::new(alloc);
    push_inputs(&mut table, clock, inputs, chosen.as_slice())?;
    if !table.pays(signals, edges_in_direction(clock), COUNTER) {
        return Ok(None);
    }
    note(targets, clock, inputs, chosen.as_slice())?;
    Ok(Some(table))
}

/// Writes the process of a table, if there is one.
fn put_one(
    statements: &mut Statements,
    table: &Option<Table>,
    targets: &Targets,
    clock: usize,
    condition: &str,
    edges: usize,
) -> Result<(), AllocError> {
    match table {
        Some(table) => put_table(statements, table, targets, clock, condition, edges),
        None => Ok(()),
    }
}

/// Adds the tables of the inputs that change with a clock, given by their nets and changes.
pub(crate) fn add_tables(
    alloc: Global,
    signals: &Signals,
    clock: Clock,
    inputs: &[(usize, &[Change])],
    found: &mut Vec<Tables>,
) -> Result<(), AllocError> {
    let mut tables = Tables::new(alloc, clock);
    tables.fill(alloc, signals, inputs)?;
    push(found, tables)
}

/// Adds the table of inputs that change at the rising edges of a clock that is to be added, if there
/// is one, and returns whether there is one. There is none if waveforms are shorter.
fn add_with_clock(
    alloc: Global,
    signals: &Signals,
    clock: Option<Clock>,
    inputs: &[(usize, &[Change])],
    found: &mut Vec<Tables>,
) -> Result<bool, AllocError> {
    let Some(clock) = clock else {
        return Ok(false);
    };
    let before = found.len();
    add_tables(alloc, signals, clock, inputs, found)?;
    let pays = match found.last() {
        Some(tables) => tables.pay_with_clock(signals),
        None => false,
    };
    if !pays {
        found.truncate(before);
    }
    Ok(pays)
}

/// Adds the table of inputs that change in the steps of one of them, the first for which that is
/// shorter than waveforms, and returns whether one is found soon.
fn add_of_input(
    alloc: Global,
    signals: &Signals,
    inputs: &[(usize, &[Change])],
    found: &mut Vec<Tables>,
) -> Result<bool, AllocError> {
    let mut tried = 0usize;
    for (_, changes) in inputs {
        let clock = clock_of_input(inputs, changes);
        if clock.is_none() {
            continue;
        }
        if tried == TRIES {
            break;
        }
        tried = tried.saturating_add(1);
        if add_with_clock(alloc, signals, clock, inputs, found)? {
            return Ok(true);
        }
    }
    Ok(false)
}

/// Adds the table of inputs that change in steps, from time 0 on or from the first change of one of
/// them, at the rising edges of a clock that is to be added, and returns whether there is one. There
/// is none if waveforms are shorter.
pub(crate) fn add_of_steps(
    alloc: Global,
    signals: &Signals,
    inputs: &[(usize, &[Change])],
    found: &mut Vec<Tables>,
) -> Result<bool, AllocError> {
    if add_with_clock(alloc, signals, clock_of_steps(inputs), inputs, found)? {
        return Ok(true);
    }
    add_of_input(alloc, signals, inputs, found)
}

impl Tables {
    /// Tables without inputs.
    fn new(alloc: Global, clock: Clock) -> Tables {
        Tables {
            clock,
            rising: None,
            falling: None,
            targets: Targets::new(alloc),
        }
    }

    /// Makes the tables of the inputs that change with the clock, given by their nets and changes.
    fn fill(
        &mut self,
        alloc: Global,
        signals: &Signals,
        inputs: &[(usize, &[Change])],
    ) -> Result<(), AllocError> {
        let clock = self.clock;
        self.rising = table_of(alloc, signals, &clock, inputs, true, &mut self.targets)?;
        self.falling = table_of(alloc, signals, &clock, inputs, false, &mut self.targets)?;
        Ok(())
    }

    /// Whether the table of the rising edges is worth a clock that is added for it, and has changes
    /// at half of its edges or more.
    fn pay_with_clock(&self, signals: &Signals) -> bool {
        match &self.rising {
            Some(table) => {
                let edges = edges_in_direction(&self.clock);
                let is_dense = edges / 2 <= table.edges();
                let others = self.targets.late_bytes().saturating_add(COUNTER + CLOCK);
                is_dense && table.pays(signals, edges, others)
            }
            None => false,
        }
    }

    /// The clock of the tables.
    pub(crate) fn clock(&self) -> Clock {
        self.clock
    }

    /// Sets the net of the clock.
    pub(crate) fn set_clock(&mut self, net: usize) {
        self.clock.net = net;
    }

    /// The signals that the tables assign.
    pub(crate) fn targets(&mut self) -> &mut Targets {
        &mut self.targets
    }

    /// Whether a table has the changes of the input with a net.
    pub(crate) fn has(&self, net: usize) -> bool {
        self.targets.has(net)
    }

    /// Writes the processes of the tables.
    pub(crate) fn put(&self, statements: &mut Statements) -> Result<(), AllocError> {
        let clock = self.clock.net;
        let edges = edges_in_direction(&self.clock);
        statements.signals.ensure(clock);
        let targets = &self.targets;
        put_one(
            statements,
            &self.rising,
            targets,
            clock,
            "rising_edge",
            edges,
        )?;
        put_one(
            statements,
            &self.falling,
            targets,
            clock,
            "falling_edge",
            edges,
        )
    }
}
