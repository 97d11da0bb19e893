//! Stimuli as statements.

ghost use Rattle.std.specs.Prelude.{◌<◌, length, IfSome};

use crate::clock::{Clock, Edges, is_multiple, later_changes};
use crate::table::is_relayed;
use crate::tables::{Tables, add_of_steps, add_tables};
use crate::waveforms::{
    push_changes, push_first, push_inversion, push_inverted, put_run, put_run_from_unknown,
    put_start,
};
use std::alloc::{AllocError, Global};
use std::slice::Iter;
use vsim_netlist_design::{Bit, Change, Draft, Level, Netlist, Port, Stimuli, push, push_time};
use vsim_netlist_signals::Statements;

/// The minimum number of changes of a clock.
const CLOCK_CHANGES: usize = 6;

/// The minimum number of changes to a level for which a signal that has it takes fewer bytes than
/// the literals: it saves one or two for each, and its declaration takes up to 25.
const FREQUENT: usize = 32;

/// A net of an input, and its changes.
#[derive(Clone, Copy)]
struct Driven<'a> {
    place: usize,
    changes: &'a [Change],
    /// The edges, if the net is a clock.
    edges: Option<Edges>,
}

/// Whether the change of a clock with this number, its value at time 0 being number 0, is at a time.
fn is_at(edges: Edges, time: u64, number: u64) -> bool {
    match (number.checked_sub(1), time.checked_sub(edges.start)) {
        (Some(before), Some(since)) => is_multiple(since, edges.half, before),
        (None, _) => time == 0,
        _ => false,
    }
}

/// Whether a change is the one with this number of a clock.
fn is_edge(change: &Change, first: Level, edges: Edges, number: usize) -> bool {
    let level = match (first, number % 2) {
        (Level::Zero, 0) | (Level::One, 1) => Level::Zero,
        _ => Level::One,
    };
    change.level == level && is_at(edges, change.time, number as u64)
}

/// Whether all changes are those of a clock with these edges.
fn are_of_clock(changes: &[Change], first: Level, edges: Edges) -> bool {
    for (number, change) in changes.iter().enumerate() {
        if !is_edge(change, first, edges, number) {
            return false;
        }
    }
    true
}

/// The edges of a clock that has a value from time 0 on, if these are its changes.
fn edges_of(changes: &[Change]) -> Option<Edges> {
    let [first, second, third, ..] = changes else {
        return None;
    };
    let is_level = first.level == Level::Zero || first.level == Level::One;
    let half = third.time.saturating_sub(second.time);
    let edges = Edges {
        start: second.time,
        half,
    };
    if changes.len() < CLOCK_CHANGES || !is_level || half == 0 {
        return None;
    }
    if are_of_clock(changes, first.level, edges) {
        Some(edges)
    } else {
        None
    }
}

/// Adds the net of a bit with these changes, if it is one.
fn push_net<'a>(
    nets: &mut Vec<Driven<'a>>,
    bit: Bit,
    changes: &'a [Change],
) -> Result<(), AllocError> {
    match bit {
        Bit::Net(place) => push(nets, one(place, changes)),
        Bit::Constant(_) => Ok(()),
    }
}

/// Adds the nets of an input, with the next lists of changes.
fn push_nets<'a>(
    nets: &mut Vec<Driven<'a>>,
    lists: &mut Iter<'a, Vec<Change>>,
    port: &Port,
) -> Result<(), AllocError> {
    for bit in port.bits.iter() {
        let Some(changes) = lists.next() else {
            break;
        };
        push_net(nets, *bit, changes.as_slice())?;
    }
    Ok(())
}

/// The nets of the inputs, in the order of the stimulus bits.
fn driven_nets<'a>(
    alloc: Global,
    netlist: &Netlist,
    stimuli: &'a Stimuli,
) -> Result<Vec<Driven<'a>>, AllocError> {
    let mut nets = Vec::new(alloc);
    let mut lists = stimuli.bits.iter();
    for port in netlist.ports.iter() {
        if port.is_input {
            push_nets(&mut nets, &mut lists, port)?;
        }
    }
    Ok(nets)
}

/// A net with its changes.
fn one(place: usize, changes: &[Change]) -> Driven<'_> {
    Driven {
        place,
        changes,
        edges: edges_of(changes),
    }
}

/// The time of the last change of a net.
fn last(net: &Driven<'_>) -> u64 {
    match net.changes.last() {
        Some(change) => change.time,
        None => 0,
    }
}

/// The time of the last change of any clock.
fn last_edge(nets: &[Driven<'_>]) -> u64 {
    let mut latest = 0;
    for net in nets {
        if net.edges.is_some() {
            latest = last(net).max(latest);
        }
    }
    latest
}

/// Whether a net is a clock that ends before others.
fn ends_early(net: &Driven<'_>, end: u64) -> bool {
    match (net.edges, net.changes.last()) {
        (Some(edges), Some(change)) => change.time.saturating_add(edges.half) <= end,
        (Some(_), None) => true,
        (None, _) => false,
    }
}

/// Clocks that end before others are not written as clocks.
fn leave_whole_clocks(nets: &mut Vec<Driven<'_>>, end: u64) {
    for net in nets.iter_mut() {
        if ends_early(net, end) {
            net.edges = None;
        }
    }
}

/// How stimuli are written.
#[derive(Clone, Copy)]
struct Manner<'a> {
    /// For each net, whether a clock depends on it.
    clocks: &'a [bool],
    /// The hold time of inputs other than clocks, in femtoseconds.
    hold: u64,
    /// The time of the last change of any clock.
    end: u64,
    /// The signal that stops the clocks, if there are any.
    running: Option<usize>,
    /// Whether cells have the delays of paths. Then inputs are unknown until they have their first
    /// values in the second cycle of time 0, and all that change at one time do so in one cycle, so
    /// that a cell sees which of its inputs changed last. None are in tables.
    has_paths: bool,
}

/// The first change of a net is its initial value, if it is at time 0. Returns the changes after
/// it.
fn begin<'a>(statements: &mut Statements, net: &Driven<'a>) -> &'a [Change] {
    if let Some(first) = net.changes.first() {
        if first.time == 0 {
            statements.signals.begin(net.place, first.level);
        }
    }
    later_changes(net.changes)
}

/// Writes a clock that is unknown until it has its first value, and stops when a signal falls, which
/// is not known at first either.
fn put_clock_from_unknown(
    statements: &mut Statements,
    once: &mut Draft,
    net: &Driven<'_>,
    edges: Edges,
    running: usize,
) {
    statements.signals.ensure(net.place);
    statements.count();
    let Some(first) = net.changes.first() else {
        return;
    };
    push_first(statements, net.place, first.level, running);
    let (signals, text) = (&statements.signals, &mut statements.body);
    let (clock, running) = (signals.text(net.place), signals.text(running));
    push_inverted(text, clock, running, edges.half);
    if edges.start != edges.half {
        put_start(statements, once, first.level, edges.start);
    }
    statements.body.push(";\n");
}

/// Writes a clock that stops when a signal falls.
fn put_clock(
    statements: &mut Statements,
    once: &mut Draft,
    net: &Driven<'_>,
    edges: Edges,
    running: usize,
) {
    statements.signals.ensure(net.place);
    let _ = begin(statements, net);
    statements.count();
    let (signals, text) = (&statements.signals, &mut statements.body);
    push_inversion(
        text,
        signals.text(net.place),
        signals.text(running),
        edges.half,
    );
    if let (true, Some(first)) = (edges.start != edges.half, net.changes.first()) {
        put_start(statements, once, first.level, edges.start);
    }
    statements.body.push(";\n");
}

/// Writes that a net follows another one delta cycle later.
fn put_copy(statements: &mut Statements, from: usize, place: usize) {
    statements.signals.ensure(place);
    statements.count();
    statements.push_name(place);
    statements.body.push("<=");
    statements.push_name(from);
    statements.body.push(";\n");
}

/// The level of a net at time 0, if it has one.
fn initial(net: &Driven<'_>) -> Option<Level> {
    match net.changes.first() {
        Some(first) if first.time == 0 => Some(first.level),
        _ => None,
    }
}

/// The signal that a net follows one delta cycle later.
fn put_relay(statements: &mut Statements, net: &Driven<'_>) -> usize {
    let relay = statements.signals.add(initial(net));
    put_copy(statements, relay, net.place);
    relay
}

/// Writes the changes of an input other than a clock of constant period, from its first value on.
fn put_all_changes(
    statements: &mut Statements,
    once: &mut Draft,
    net: &Driven<'_>,
    is_clock: bool,
    hold: u64,
) {
    statements.signals.ensure(net.place);
    if net.changes.is_empty() {
        return;
    }
    statements.count_driver();
    let later = if is_clock { 0 } else { hold };
    push_changes(once, &statements.signals, net.place, net.changes, later);
}

/// Writes the changes of an input other than a clock of constant period.
fn put_changes(
    statements: &mut Statements,
    once: &mut Draft,
    net: &Driven<'_>,
    is_clock: bool,
    hold: u64,
) {
    let rest = begin(statements, net);
    if rest.is_empty() {
        return statements.signals.ensure(net.place);
    }
    let target = if !is_clock && hold == 0 {
        put_relay(statements, net)
    } else {
        statements.signals.ensure(net.place);
        net.place
    };
    statements.count_driver();
    let later = if is_clock { 0 } else { hold };
    push_changes(once, &statements.signals, target, rest, later);
}

/// The clock of the tables: the first one.
fn first_clock(nets: &[Driven<'_>], end: u64) -> Option<Clock> {
    for net in nets {
        if let (Some(edges), Some(first)) = (net.edges, net.changes.first()) {
            return Some(Clock {
                net: net.place,
                first: first.level,
                edges,
                end,
                later: 0,
            });
        }
    }
    None
}

/// Whether a clock depends on a net, given the same of all nets.
fn is_clock(clocks: &[bool], net: &Driven<'_>) -> bool {
    match clocks.get(net.place) {
        Some(is_clock) => *is_clock,
        None => false,
    }
}

/// The inputs that may be in a table: those on which no clock depends.
fn table_inputs<'a>(
    alloc: Global,
    nets: &[Driven<'a>],
    clocks: &[bool],
) -> Result<Vec<(usize, &'a [Change])>, AllocError> {
    let mut inputs = Vec::new(alloc);
    for net in nets {
        if net.edges.is_none() && !is_clock(clocks, net) {
            push(&mut inputs, (net.place, net.changes))?;
        }
    }
    Ok(inputs)
}

/// Writes a clock that is added for tables, delayed by the hold time, and stops at its last edge.
fn put_added_clock(statements: &mut Statements, once: &mut Draft, tables: &mut Tables, hold: u64) {
    let clock = tables.clock();
    let start = clock.edges.start.saturating_add(hold);
    let running = put_run(statements, once, clock.end.saturating_add(hold));
    let net = statements.signals.add(Some(clock.first));
    tables.set_clock(net);
    statements.count();
    let (signals, text) = (&statements.signals, &mut statements.body);
    push_inversion(
        text,
        signals.text(net),
        signals.text(running),
        clock.edges.half,
    );
    if start != clock.edges.half {
        put_start(statements, once, clock.first, start);
    }
    statements.body.push(";\n");
}

/// The inputs that are in no table.
fn inputs_beside<'a>(
    alloc: Global,
    inputs: &[(usize, &'a [Change])],
    tables: &[Tables],
) -> Result<Vec<(usize, &'a [Change])>, AllocError> {
    let mut others = Vec::new(alloc);
    for (net, changes) in inputs {
        if place_with(tables, *net).is_none() {
            push(&mut others, (*net, *changes))?;
        }
    }
    Ok(others)
}

/// The place of the tables that have an input, if there are any.
fn place_with(tables: &[Tables], net: usize) -> Option<usize>
    ensures { IfSome result (λ place. place < length tables.now) }
{
    for place in 0..tables.len() {
        if tables[place].has(net) {
            return Some(place);
        }
    }
    None
}

/// Adds the tables of the inputs that change with the first clock, one delta cycle after its edges;
/// none if there is a hold time.
fn add_clocked(
    statements: &Statements,
    nets: &[Driven<'_>],
    manner: Manner<'_>,
    inputs: &[(usize, &[Change])],
    found: &mut Vec<Tables>,
) -> Result<(), AllocError> {
    match first_clock(nets, manner.end) {
        Some(clock) if manner.hold == 0 => {
            add_tables(statements.alloc, &statements.signals, clock, inputs, found)
        }
        _ => Ok(()),
    }
}

/// The tables of the inputs that change with the first clock, and those of inputs that change in
/// steps.
fn tables(
    statements: &mut Statements,
    once: &mut Draft,
    nets: &[Driven<'_>],
    manner: Manner<'_>,
) -> Result<Vec<Tables>, AllocError> {
    let mut found = Vec::new(statements.alloc);
    if !manner.has_paths {
        let inputs = table_inputs(statements.alloc, nets, manner.clocks)?;
        add_clocked(statements, nets, manner, inputs.as_slice(), &mut found)?;
        add_stepped(statements, once, inputs.as_slice(), manner.hold, &mut found)?;
    }
    Ok(found)
}

/// Adds the table of those inputs that change in steps and are in no other one, with a clock that is
/// added for it.
fn add_stepped(
    statements: &mut Statements,
    once: &mut Draft,
    inputs: &[(usize, &[Change])],
    hold: u64,
    found: &mut Vec<Tables>,
) -> Result<(), AllocError> {
    let others = inputs_beside(statements.alloc, inputs, found.as_slice())?;
    let (alloc, signals) = (statements.alloc, &statements.signals);
    if add_of_steps(alloc, signals, others.as_slice(), found)? {
        put_last_clock(statements, once, found, hold);
    }
    Ok(())
}

/// Writes the clock of the last tables.
fn put_last_clock(
    statements: &mut Statements,
    once: &mut Draft,
    found: &mut Vec<Tables>,
    hold: u64,
) {
    let last = found.len().saturating_sub(1);
    if let Some(tables) = found.get_mut(last) {
        put_added_clock(statements, once, tables, hold);
    }
}

/// Adds that a signal follows another one after a time.
fn push_delayed(text: &mut Draft, target: &str, from: &str, delay: u64) {
    text.push_all(&[target, "<=", from, " after "]);
    push_time(text, delay);
    text.push(";\n");
}

/// Writes that a signal follows another one after a time.
fn put_delayed(statements: &mut Statements, from: usize, place: usize, delay: u64) {
    statements.count();
    let (signals, text) = (&statements.signals, &mut statements.body);
    push_delayed(text, signals.text(place), signals.text(from), delay);
}

/// Adds that a signal is the exclusive or of two others.
fn push_exclusive_or(text: &mut Draft, target: &str, one: &str, other: &str) {
    text.push_all(&[target, "<=", one, " xor ", other, ";\n"]);
}

/// Writes that a net is the exclusive or of two signals.
fn put_exclusive_or(statements: &mut Statements, one: usize, other: usize, place: usize) {
    statements.signals.ensure(place);
    statements.count();
    let (signals, text) = (&statements.signals, &mut statements.body);
    push_exclusive_or(
        text,
        signals.text(place),
        signals.text(one),
        signals.text(other),
    );
}

/// Prepares an input whose changes are with the edges of a clock and a constant time after them. One
/// signal is inverted for the former, another one for the latter.
fn put_late(
    statements: &mut Statements,
    tables: &mut Tables,
    net: &Driven<'_>,
) -> Result<(), AllocError> {
    let own = statements.signals.add(initial(net));
    let late = statements.signals.add(Some(Level::Zero));
    let delayed = statements.signals.add(Some(Level::Zero));
    statements.count_driver();
    put_delayed(statements, late, delayed, tables.clock().later);
    put_exclusive_or(statements, own, delayed, net.place);
    tables.targets().set(net.place, own)?;
    tables.targets().set_late(net.place, late)
}

/// Prepares an input whose changes are in a table.
fn put_in_table(
    statements: &mut Statements,
    tables: &mut Tables,
    net: &Driven<'_>,
) -> Result<(), AllocError> {
    let changes = begin(statements, net).len();
    statements.count_driver();
    if tables.targets().is_late(net.place) {
        return put_late(statements, tables, net);
    }
    if is_relayed(statements.signals.text(net.place).len(), changes) {
        let relay = put_relay(statements, net);
        return tables.targets().set(net.place, relay);
    }
    statements.signals.ensure(net.place);
    Ok(())
}

/// Writes the driver of an input that is no clock of constant period.
fn put_input(
    statements: &mut Statements,
    once: &mut Draft,
    net: &Driven<'_>,
    manner: Manner<'_>,
    tables: &mut [Tables],
) -> Result<(), AllocError> {
    let is_clock = is_clock(manner.clocks, net);
    if !is_clock {
        if let Some(place) = place_with(tables, net.place) {
            return put_in_table(statements, &mut tables[place], net);
        }
    }
    if manner.has_paths {
        put_all_changes(statements, once, net, is_clock, manner.hold);
    } else {
        put_changes(statements, once, net, is_clock, manner.hold);
    }
    Ok(())
}

/// Writes the driver of an input.
fn put_net(
    statements: &mut Statements,
    once: &mut Draft,
    net: &Driven<'_>,
    manner: Manner<'_>,
    tables: &mut [Tables],
) -> Result<(), AllocError> {
    let (Some(edges), Some(running)) = (net.edges, manner.running) else {
        return put_input(statements, once, net, manner, tables);
    };
    if manner.has_paths {
        put_clock_from_unknown(statements, once, net, edges, running);
    } else {
        put_clock(statements, once, net, edges, running);
    }
    Ok(())
}

/// Writes the drivers of the inputs, except the tables.
fn put_nets(
    statements: &mut Statements,
    once: &mut Draft,
    nets: &[Driven<'_>],
    manner: Manner<'_>,
    tables: &mut [Tables],
) -> Result<(), AllocError> {
    for net in nets {
        put_net(statements, once, net, manner, tables)?;
    }
    Ok(())
}

/// Writes the drivers of the inputs.
fn put_inputs(
    statements: &mut Statements,
    once: &mut Draft,
    nets: &[Driven<'_>],
    manner: Manner<'_>,
) -> Result<(), AllocError> {
    let mut tables = tables(statements, once, nets, manner)?;
    put_nets(statements, once, nets, manner, tables.as_mut_slice())?;
    for tables in tables.as_slice() {
        tables.put(statements)?;
    }
    Ok(())
}

/// Adds a process that waits for a signal, with these statements.
fn push_once(text: &mut Draft, never: &str, once: &Draft) {
    text.push("process(");
    text.push(never);
    text.push(")begin\n");
    text.push_draft(once);
    text.push("end process;\n");
}

/// Writes the process that is executed once, with these statements.
fn put_once(statements: &mut Statements, once: &Draft) {
    if once.read_for(&mut statements.body).is_empty() {
        return;
    }
    let never = statements.signals.constant(Level::Zero);
    statements.count_process();
    let (signals, text) = (&statements.signals, &mut statements.body);
    push_once(text, signals.text(never), once);
}

/// The signal that stops the clocks at the time of their last change, if there are any.
fn put_running(
    statements: &mut Statements,
    once: &mut Draft,
    nets: &[Driven<'_>],
    manner: Manner<'_>,
) -> Option<usize> {
    if !has_clock(nets) {
        return None;
    }
    if manner.has_paths {
        return Some(put_run_from_unknown(statements, once, manner.end));
    }
    Some(put_run(statements, once, manner.end))
}

/// Whether any net is a clock.
fn has_clock(nets: &[Driven<'_>]) -> bool {
    for net in nets {
        if net.edges.is_some() {
            return true;
        }
    }
    false
}

/// The number of changes to a level.
fn count_level(changes: &[Change], level: Level) -> usize {
    let mut count = 0usize;
    for change in changes {
        if change.level == level {
            count = count.saturating_add(1);
        }
    }
    count
}

/// Whether inputs other than clocks change to a level often, after time 0.
fn is_frequent(nets: &[Driven<'_>], level: Level) -> bool {
    let mut count = 0usize;
    for net in nets {
        if net.edges.is_none() {
            count = count.saturating_add(count_level(later_changes(net.changes), level));
        }
    }
    FREQUENT <= count
}

/// The inputs of a netlist with their changes.
fn prepared<'a>(
    alloc: Global,
    netlist: &Netlist,
    stimuli: &'a Stimuli,
) -> Result<Vec<Driven<'a>>, AllocError> {
    let mut nets = driven_nets(alloc, netlist, stimuli)?;
    let end = last_edge(nets.as_slice());
    leave_whole_clocks(&mut nets, end);
    Ok(nets)
}

/// The levels to which inputs change so often that signals which always have them make the text of
/// stimuli shorter.
pub fn frequent_levels(
    alloc: Global,
    netlist: &Netlist,
    stimuli: &Stimuli,
) -> Result<Vec<Level>, AllocError> {
    let nets = prepared(alloc, netlist, stimuli)?;
    let mut levels = Vec::new(alloc);
    for level in [Level::Zero, Level::One] {
        if is_frequent(nets.as_slice(), level) {
            push(&mut levels, level)?;
        }
    }
    Ok(levels)
}

/// Writes stimuli, given for each net whether a clock depends on it, and the hold time of inputs
/// other than clocks, in femtoseconds.
pub fn put_stimuli(
    statements: &mut Statements,
    netlist: &Netlist,
    stimuli: &Stimuli,
    clocks: &[bool],
    hold: u64,
) -> Result<(), AllocError> {
    let nets = prepared(statements.alloc, netlist, stimuli)?;
    let end = last_edge(nets.as_slice());
    let manner = Manner {
        clocks,
        hold,
        end,
        running: None,
        has_paths: netlist.has_paths,
    };
    put_driven(statements, nets.as_slice(), manner)
}

/// Writes the drivers of the inputs, and the clocks.
fn put_driven(
    statements: &mut Statements,
    nets: &[Driven<'_>],
    manner: Manner<'_>,
) -> Result<(), AllocError> {
    let mut once = Draft::new(statements.alloc);
    let running = put_running(statements, &mut once, nets, manner);
    let manner = Manner { running, ..manner };
    put_inputs(statements, &mut once, nets, manner)?;
    put_once(statements, &once);
    Ok(())
}
