//! What a file of delays says that the netlist has not, and what of it has no effect.

use std::alloc::{AllocError, Global};
use vsim_netlist_design::{
    DelayEntry, DelayList, Delayed, Delays, Draft, Fault, Netlist, fault_at,
};

/// Advice for files that name cells differently.
const ADVICE: &str = ": after rename -enumerate, write_json and write_verilog give the same names";

/// The refusal of an instance that the netlist has not.
fn unknown(alloc: Global, list: &DelayList) -> Fault {
    let name = list.name.as_str();
    let told = ["instance ", name, ": the netlist has no such cell", ADVICE];
    fault_at(alloc, list.line, told.as_slice())
}

/// Whether an entry is of a wire that takes time.
fn is_long_wire(entry: &DelayEntry) -> bool {
    match entry.delayed {
        Delayed::Port(_) | Delayed::Wire(_, _) => {
            0 < entry.times.rise.unwrap_or(0) || 0 < entry.times.fall.unwrap_or(0)
        }
        _ => true,
    }
}

/// Refuses delays of the design itself, as those of wires to its ports are, unless they are 0.
fn demand_none(alloc: Global, list: &DelayList) -> Result<(), Fault> {
    for entry in list.entries.iter() {
        if is_long_wire(entry) {
            let told = ["a delay of the design itself is not supported, as of a wire to its port"];
            return Err(fault_at(alloc, entry.line, told.as_slice()));
        }
    }
    Ok(())
}

/// Refuses an instance that the netlist has not.
fn demand_instance(alloc: Global, list: &DelayList, is_there: bool) -> Result<(), Fault> {
    if list.name.is_empty() {
        return demand_none(alloc, list);
    }
    if is_there {
        return Ok(());
    }
    Err(unknown(alloc, list))
}

/// Refuses instances that the netlist has not.
fn demand_each(alloc: Global, delays: &Delays, netlist: &Netlist) -> Result<(), Fault> {
    for (place, list) in delays.instances.lists.iter().enumerate() {
        let is_there = netlist.instances.get(place).copied().unwrap_or(false);
        demand_instance(alloc, list, is_there)?;
    }
    Ok(())
}

/// Refuses delays of what the netlist has not.
pub(crate) fn demand_instances(
    alloc: Global,
    delays: Option<&Delays>,
    netlist: &Netlist,
) -> Result<(), Fault> {
    let Some(delays) = delays else {
        return Ok(());
    };
    match demand_each(alloc, delays, netlist) {
        Ok(()) => Ok(()),
        Err(fault) => Err(fault.about(alloc, &["the SDF file"])),
    }
}

/// Adds a note about what has no effect.
fn push_passed(text: &mut Draft, delays: &Delays) {
    let mut before = "vsim_netlist: the SDF file: without effect: ";
    for passed in delays.passed.iter() {
        text.push_all(&[before, passed.name, " "]);
        text.push_shown(&passed.count);
        before = ", ";
    }
    if !delays.passed.is_empty() {
        text.push("\n");
    }
}

/// A note about what of a file has no effect; empty if all has.
pub(crate) fn note_passed(alloc: Global, delays: Option<&Delays>) -> Result<String, AllocError> {
    let mut text = Draft::new(alloc);
    if let Some(delays) = delays {
        push_passed(&mut text, delays);
        if delays.negative > 0 {
            text.push("vsim_netlist: the SDF file: negative delays, which count as 0: ");
            text.push_shown(&delays.negative);
            text.push("\n");
        }
    }
    text.finish()
}
