//! Inputs that change at the edges of a clock, as a process that counts these edges.

ghost use Rattle.std.specs.Prelude.{◌≤◌, length};

use crate::clock::Edge;
use crate::targets::Targets;
use std::alloc::{AllocError, Global};
use vsim_netlist_design::{Change, Draft, Level, push, time_bytes};
use vsim_netlist_signals::{Names, Signals, Statements};

/// The bytes that the tests for an edge take, on average, if there are changes at each edge.
const EDGE: usize = 27;

/// The bytes that the test of one more bit takes.
const BIT: usize = 11;

/// The bytes that an element of a waveform takes besides its time.
const ELEMENT: usize = 10;

/// The bytes of a short name, of which there are many.
const SHORT: usize = 2;

/// The bytes that a copy of a signal takes besides the name of the other one.
const COPY: usize = 6;

/// Whether a signal with a short name, which the input follows, makes the text shorter, for an input
/// with a name of this length that changes this many times.
pub(crate) fn is_relayed(name: usize, changes: usize) -> bool {
    let saved = changes.saturating_mul(name.saturating_sub(SHORT));
    saved > name.saturating_add(COPY)
}

/// A change of the input with a net, or of one of the signals of which it is the exclusive or.
#[derive(Clone, Copy)]
struct Assignment {
    net: usize,
    is_late: bool,
    change: Change,
}

/// The changes of inputs at the edges of a clock in one direction, by the number of the edge, from
/// 0.
pub(crate) struct Table {
    /// For each change, the number of its edge and its index in `changes`.
    order: Vec<(usize, usize)>,
    changes: Vec<Assignment>,
}

impl Drop for Table {
    fn drop(self) {
        let Table {
            order: _order,
            changes: _changes,
        } = self;
    }
}

/// A bit of the counter of edges: its variable, and what it stands for.
#[derive(Drop)]
struct CounterBit {
    name: String,
    weight: usize,
}

impl Table {
    /// An empty table.
    pub(crate) fn new(alloc: Global) -> Table {
        Table {
            order: Vec::new(alloc),
            changes: Vec::new(alloc),
        }
    }

    /// Adds a change at an edge.
    pub(crate) fn push(
        &mut self,
        edge: Edge,
        net: usize,
        change: Change,
    ) -> Result<(), AllocError> {
        push(&mut self.order, (edge.number, self.changes.len()))?;
        let is_late = edge.is_late;
        push(
            &mut self.changes,
            Assignment {
                net,
                is_late,
                change,
            },
        )
    }

    /// Sorts the changes by their edges.
    pub(crate) fn sort(&mut self) -> Result<(), AllocError> {
        self.order.sort()?;
        Ok(())
    }

    /// The number of different edges.
    pub(crate) fn edges(&self) -> usize {
        edge_count(self.order.as_slice())
    }

    /// Whether a process takes fewer bytes than waveforms, given those that it takes apart from
    /// edges and assignments. Changes are sorted.
    /// `all` is the number of edges of the clock.
    pub(crate) fn pays(&self, signals: &Signals, all: usize, others: usize) -> bool {
        let changes = self.changes.as_slice();
        let edges = self.edges();
        let tests = edges.saturating_mul(edge_bytes(all, edges));
        let costs = tests
            .saturating_add(others)
            .saturating_add(assignment_bytes(signals, changes));
        !self.order.is_empty() && costs <= element_bytes(changes)
    }
}

/// The bytes that the tests for an edge take, on average, if this many of all edges have
/// changes: where they are sparse, more bits are tested for each.
pub(crate) fn edge_bytes(all: usize, used: usize) -> usize {
    let mut bytes = EDGE;
    let mut left = all.checked_div(used).unwrap_or(0);
    for _ in 0..usize::BITS {
        if left < 2 {
            break;
        }
        bytes = bytes.saturating_add(BIT);
        left /= 2;
    }
    bytes
}

/// The bytes that the assignment of a level takes; a signal with a short name stands in for one with
/// a longer name.
pub(crate) fn assignment_of(signals: &Signals, net: usize, level: Level) -> usize {
    let name = signals.text(net).len().min(SHORT);
    let value = level_text(signals, level).len();
    name.saturating_add(value.saturating_add(3))
}

/// The bytes that an element of a waveform takes, at a time.
pub(crate) fn element_of(time: u64) -> usize {
    time_bytes(time).saturating_add(ELEMENT)
}

/// The bytes that assignments of the values of these changes take.
fn assignment_bytes(signals: &Signals, changes: &[Assignment]) -> usize {
    let mut bytes = 0usize;
    for it in changes {
        bytes = bytes.saturating_add(assignment_of(signals, it.net, it.change.level));
    }
    bytes
}

/// The bytes that elements of waveforms take for these changes.
fn element_bytes(changes: &[Assignment]) -> usize {
    let mut bytes = 0usize;
    for it in changes {
        bytes = bytes.saturating_add(element_of(it.change.time));
    }
    bytes
}

/// The text of a level: a signal that always has it, if that is shorter than the literal.
fn level_text(signals: &Signals, level: Level) -> &str {
    signals.short_constant(level).unwrap_or(level.literal())
}

/// The number of different edges in changes that are sorted.
fn edge_count(order: &[(usize, usize)]) -> usize {
    let mut count = 0usize;
    let mut before = None;
    for (edge, _) in order {
        if before != Some(*edge) {
            count = count.saturating_add(1);
        }
        before = Some(*edge);
    }
    count
}

/// A counter of this number of edges, highest bit first.
fn counter(alloc: Global, names: &mut Names, edges: usize) -> Result<Vec<CounterBit>, AllocError> {
    let mut bits = Vec::new(alloc);
    let mut weight = highest(edges);
    for _ in 0..usize::BITS {
        if weight == 0 {
            break;
        }
        let name = names.fresh();
        push(&mut bits, CounterBit { name, weight })?;
        weight /= 2;
    }
    Ok(bits)
}

/// The highest power of two that is at most a number; 0 for 0.
fn highest(number: usize) -> usize {
    let mut power = 0;
    let mut left = number;
    for _ in 0..usize::BITS {
        if left == 0 {
            break;
        }
        power = if power == 0 {
            1usize
        } else {
            power.saturating_mul(2)
        };
        left /= 2;
    }
    power
}

/// Whether a bit is set in a number.
fn is_set(bit: &CounterBit, number: usize) -> bool {
    number & bit.weight != 0
}

/// The number of bits, from the highest, in which two numbers are equal.
fn equal_bits(bits: &[CounterBit], number: usize, other: usize) -> usize {
    for (place, bit) in bits.iter().enumerate() {
        if is_set(bit, number) != is_set(bit, other) {
            return place;
        }
    }
    bits.len()
}

/// Adds a name and the part before it.
fn push_part(text: &mut Draft, before: &str, name: &str) {
    text.push(before);
    text.push(name);
}

/// Adds the condition that a bit is as in a number.
fn push_test(text: &mut Draft, word: &str, bit: &CounterBit, number: usize) {
    push_part(text, word, bit.name.as_str());
    text.push(if is_set(bit, number) { "='1'" } else { "='0'" });
}

/// Begins an `if` for each bit of a range.
fn push_ifs(text: &mut Draft, bits: &[CounterBit], number: usize, from: usize, to: usize) {
    for (place, bit) in bits.iter().enumerate() {
        if from <= place && place < to {
            push_test(text, "if ", bit, number);
            text.push("then ");
        }
    }
}

/// Begins one `if` for all bits from an index on.
fn push_last_if(text: &mut Draft, bits: &[CounterBit], number: usize, from: usize) {
    let mut word = "if ";
    for (place, bit) in bits.iter().enumerate() {
        if from <= place {
            push_test(text, word, bit, number);
            word = "and ";
        }
    }
    text.push("then ");
}

/// Ends this number of `if` statements.
fn push_ends(text: &mut Draft, count: usize) {
    for _ in 0..count {
        text.push("end if;");
    }
}

/// Adds the assignment of a level.
fn push_assignment(text: &mut Draft, signals: &Signals, net: usize, level: Level) {
    push_part(text, signals.text(net), "<=");
    push_part(text, level_text(signals, level), ";");
}

/// The process of a table as text: its changes, the signals that they are assigned to, and the bits
/// of its counter.
#[derive(Clone, Copy)]
struct Counted<'a> {
    signals: &'a Signals,
    table: &'a Table,
    targets: &'a Targets,
    bits: &'a [CounterBit],
}

/// The end of the changes at the same edge as the first of a list.
fn end_of_edge(order: &[(usize, usize)], edge: usize) -> usize
    ensures { result ≤ length order.now }
{
    for (place, (other, _)) in order.iter().enumerate() {
        if *other != edge {
            return place;
        }
    }
    order.len()
}

impl Counted<'_> {
    /// Adds the assignment of the change at an index.
    fn push_change(&self, text: &mut Draft, at: usize) {
        if let Some(it) = self.table.changes.get(at) {
            let target = self.targets.signal(it.net, it.is_late);
            push_assignment(text, self.signals, target, it.change.level);
        }
    }

    /// Adds the assignments of changes.
    fn push_assignments(&self, text: &mut Draft, order: &[(usize, usize)]) {
        for (_, at) in order {
            self.push_change(text, *at);
        }
        text.push("\n");
    }

    /// Adds changes under one `if` for all bits from an index on.
    fn push_tested(
        &self,
        text: &mut Draft,
        changes: &[(usize, usize)],
        number: usize,
        tested: usize,
    ) {
        if tested >= self.bits.len() {
            return self.push_assignments(text, changes);
        }
        push_last_if(text, self.bits, number, tested);
        self.push_assignments(text, changes);
        push_ends(text, 1)
    }

    /// Adds the changes at one edge, which is `number`, under the tests of those bits that are not
    /// tested yet. `from` bits have been tested, and `to` are tested for the next edge as well.
    fn push_edge(
        &self,
        text: &mut Draft,
        changes: &[(usize, usize)],
        number: usize,
        from: usize,
        to: usize,
    ) {
        push_ifs(text, self.bits, number, from, to);
        self.push_tested(text, changes, number, from.max(to));
        push_ends(text, from.saturating_sub(to))
    }

    /// Adds the changes of the table, edge by edge. The bits in which an edge is equal to the next
    /// one are tested once for both.
    fn push_edges(&self, text: &mut Draft) {
        let mut rest = self.table.order.as_slice();
        let mut from = 0;
        for _ in 0..self.table.order.len() {
            let Some((number, _)) = rest.first() else {
                break;
            };
            let (changes, others) = rest.split_at(end_of_edge(rest, *number));
            let to = shared(self.bits, *number, others);
            if from > 0 {
                text.push("else ");
            }
            self.push_edge(text, changes, *number, from, to);
            from = to;
            rest = others;
        }
    }

    /// Adds the whole process, which counts the edges of a clock for which a condition holds.
    fn push(&self, text: &mut Draft, clock: usize, condition: &str) {
        push_head(text, self.signals.text(clock), condition, self.bits);
        self.push_edges(text);
        push_tail(text, self.bits);
    }
}

/// The number of bits to be tested for an edge and the next one together: those in which they are
/// equal, and the first in which they differ. 0 for the last edge.
fn shared(bits: &[CounterBit], number: usize, others: &[(usize, usize)]) -> usize {
    match others.first() {
        Some((next, _)) => equal_bits(bits, number, *next).saturating_add(1),
        None => 0,
    }
}

/// Adds the negation of a bit, up to the branch that goes on with the next higher one.
fn push_toggle(text: &mut Draft, name: &str) {
    push_part(text, "if ", name);
    push_part(text, "='0'then ", name);
    push_part(text, ":='1';else ", name);
    text.push(":='0';");
}

/// Adds one to the counter.
fn push_increment(text: &mut Draft, bits: &[CounterBit]) {
    for bit in bits.iter().rev() {
        push_toggle(text, bit.name.as_str());
    }
    push_ends(text, bits.len())
}

/// Adds the declaration of the counter.
fn push_declaration(text: &mut Draft, bits: &[CounterBit]) {
    let mut before = "variable ";
    for bit in bits {
        push_part(text, before, bit.name.as_str());
        before = ",";
    }
    text.push(":std_logic:='0';")
}

/// Adds the part of the process before the changes.
fn push_head(text: &mut Draft, clock: &str, condition: &str, bits: &[CounterBit]) {
    push_part(text, "process(", clock);
    text.push(")");
    push_declaration(text, bits);
    push_part(text, "begin if ", condition);
    push_part(text, "(", clock);
    text.push(")then\n")
}

/// Adds the part of the process after the changes.
fn push_tail(text: &mut Draft, bits: &[CounterBit]) {
    push_increment(text, bits);
    text.push("end if;end process;\n")
}

/// Writes the process of a table. It counts the edges of a clock for which `condition` holds, of
/// which there are at most `edges`.
pub(crate) fn put_table(
    statements: &mut Statements,
    table: &Table,
    targets: &Targets,
    clock: usize,
    condition: &str,
    edges: usize,
) -> Result<(), AllocError> {
    let bits = counter(statements.alloc, &mut statements.signals.names, edges)?;
    statements.count_process();
    let (signals, text) = (&statements.signals, &mut statements.body);
    let counted = Counted {
        signals,
        table,
        targets,
        bits: bits.as_slice(),
    };
    counted.push(text, clock, condition);
    Ok(())
}
