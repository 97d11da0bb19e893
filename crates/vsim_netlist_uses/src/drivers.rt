//! Nets with several drivers, and nets without one.

use crate::uses::Uses;
use std::alloc::{AllocError, Global};
use vsim_netlist_design::{Bit, Cell, Draft, Fault, Gate, Netlist, Port, Variable};

/// A source that always drives a net: an input, by its index among the ports, or a cell.
#[derive(Clone, Copy)]
enum Source {
    Input(usize),
    Cell(usize),
}

/// Two sources of one net.
#[derive(Clone, Copy)]
struct Clash {
    net: usize,
    first: Source,
    second: Source,
}

/// Notes a source of a net. Returns both if the net has one already.
fn note(sources: &mut Vec<Option<Source>>, net: usize, second: Source) -> Option<Clash> {
    let known = sources.get_mut(net)?;
    match *known {
        Some(first) => Some(Clash { net, first, second }),
        None => {
            *known = Some(second);
            None
        }
    }
}

/// Notes an input as the source of its bits.
fn note_input(sources: &mut Vec<Option<Source>>, port: &Port, place: usize) -> Option<Clash> {
    for bit in port.bits.iter() {
        if let Bit::Net(net) = bit {
            let clash = note(sources, *net, Source::Input(place));
            if clash.is_some() {
                return clash;
            }
        }
    }
    None
}

/// Notes the inputs of a netlist.
fn note_inputs(sources: &mut Vec<Option<Source>>, netlist: &Netlist) -> Option<Clash> {
    for (place, port) in netlist.ports.iter().enumerate() {
        if port.is_input {
            let clash = note_input(sources, port, place);
            if clash.is_some() {
                return clash;
            }
        }
    }
    None
}

/// The net that a cell always drives; none for a three-state buffer.
fn net_of(cell: &Cell) -> Option<usize> {
    match cell {
        Cell::Gate(gate) if gate.gate == Gate::Tristate => None,
        Cell::Gate(gate) => Some(gate.output),
        Cell::Register(register) => Some(register.output),
    }
}

/// Notes the cells of a netlist.
fn note_cells(sources: &mut Vec<Option<Source>>, netlist: &Netlist) -> Option<Clash> {
    for (place, cell) in netlist.cells.iter().enumerate() {
        if let Some(net) = net_of(cell) {
            let clash = note(sources, net, Source::Cell(place));
            if clash.is_some() {
                return clash;
            }
        }
    }
    None
}

/// Two sources of one net, if one has two.
fn first_clash(alloc: Global, netlist: &Netlist) -> Result<Option<Clash>, AllocError> {
    let mut sources = vec![in alloc; None; netlist.nets.len()]?;
    let found = note_inputs(&mut sources, netlist);
    Ok(match found {
        Some(_) => found,
        None => note_cells(&mut sources, netlist),
    })
}

/// Adds the name of a bit of a variable: with its index if the variable has several bits.
pub fn push_bit_name(text: &mut Draft, variable: &Variable, place: usize) {
    text.push(variable.name.as_str());
    if variable.bits.len() > 1 {
        text.push("[");
        let place = i64::try_from(place).unwrap_or(i64::MAX);
        text.push_shown(&variable.offset.saturating_add(place));
        text.push("]");
    }
}

/// The place of a net among the bits of a variable.
fn place_in(variable: &Variable, net: usize) -> Option<usize> {
    for (place, bit) in variable.bits.iter().enumerate() {
        if *bit == Bit::Net(net) {
            return Some(place);
        }
    }
    None
}

/// Adds the name of a net in the source, if it has one.
fn push_net(text: &mut Draft, netlist: &Netlist, net: usize) {
    for variable in netlist.variables.iter() {
        if let Some(place) = place_in(variable, net) {
            push_bit_name(text, variable, place);
            return;
        }
    }
    text.push("a net");
}

/// Adds a source.
fn push_source(text: &mut Draft, netlist: &Netlist, source: Source) {
    match source {
        Source::Input(place) => {
            text.push("input ");
            if let Some(port) = netlist.ports.get(place) {
                text.push(port.name.as_str());
            }
        }
        Source::Cell(place) => {
            if let Some(origin) = netlist.origins.get(place) {
                text.push(origin.as_str());
            }
        }
    }
}

/// The refusal of a net with two sources.
fn refusal(alloc: Global, netlist: &Netlist, clash: Clash) -> Fault {
    let mut text = Draft::new(alloc);
    push_net(&mut text, netlist, clash.net);
    text.push(" is driven by ");
    push_source(&mut text, netlist, clash.first);
    text.push(" and by ");
    push_source(&mut text, netlist, clash.second);
    text.push(", which are no three-state buffers: run tribuf before synth, or remove one of them");
    Fault::of_draft(text)
}

/// Refuses a net that two inputs or cells drive that are no three-state buffers.
pub fn refuse_clashes(alloc: Global, netlist: &Netlist) -> Result<(), Fault> {
    match first_clash(alloc, netlist)? {
        Some(clash) => Err(refusal(alloc, netlist, clash)),
        None => Ok(()),
    }
}

/// Marks the bits of a port as driven.
fn mark_port(driven: &mut Vec<bool>, port: &Port) {
    for bit in port.bits.iter() {
        if let Bit::Net(net) = bit {
            if let Some(mark) = driven.get_mut(*net) {
                *mark = true;
            }
        }
    }
}

/// Marks the bits of inputs as driven.
fn mark_inputs(driven: &mut Vec<bool>, netlist: &Netlist) {
    for port in netlist.ports.iter() {
        if port.is_input {
            mark_port(driven, port);
        }
    }
}

/// For each net, whether an input or a cell drives it.
pub fn driven_nets(alloc: Global, netlist: &Netlist, uses: &Uses) -> Result<Vec<bool>, AllocError> {
    let mut driven = vec![in alloc; false; uses.nets.len()]?;
    for (mark, net) in driven.iter_mut().zip(uses.nets.iter()) {
        *mark = net.drivers > 0;
    }
    mark_inputs(&mut driven, netlist);
    Ok(driven)
}
