//! From a netlist and stimuli to a text and a map.

use crate::annotation::{demand_instances, note_passed};
use crate::command::Options;
use crate::delay_list::{read_delays, read_hold};
use crate::text::{Request, Written, write_text};
use std::alloc::{AllocError, Global};
use vsim_netlist_cells::read_netlist;
use vsim_netlist_design::{Delays, Draft, Fault, Level, Library, Netlist, Port, Stimuli, push};
use vsim_netlist_stimuli::{Input, LATEST, read_stimuli};

/// Adds an input.
fn put_input(inputs: &mut Vec<Input>, port: &Port) -> Result<(), AllocError> {
    let width = port.bits.len();
    let name = port.name.clone()?;
    push(inputs, Input { name, width })
}

/// The inputs of a netlist.
fn inputs(alloc: Global, netlist: &Netlist) -> Result<Vec<Input>, AllocError> {
    let mut inputs = Vec::new(alloc);
    for port in netlist.ports.iter() {
        if port.is_input {
            put_input(&mut inputs, port)?;
        }
    }
    Ok(inputs)
}

/// The stimuli of a netlist, if there are any.
fn stimuli(
    alloc: Global,
    options: &Options<'_>,
    netlist: &Netlist,
    text: Option<&str>,
) -> Result<Option<Stimuli>, Fault> {
    let Some(text) = text else {
        return Ok(None);
    };
    let inputs = inputs(alloc, netlist)?;
    let path = options.stimuli().unwrap_or("");
    match read_stimuli(alloc, text, inputs.as_slice(), options.scope()) {
        Ok(stimuli) => Ok(Some(stimuli)),
        Err(fault) => Err(fault.about(alloc, &[path])),
    }
}

/// The level with which registers and latches begin, if it is given.
fn read_initial(alloc: Global, word: &str) -> Result<Option<Level>, Fault> {
    match word {
        "" => Ok(None),
        "0" => Ok(Some(Level::Zero)),
        "1" => Ok(Some(Level::One)),
        _ => Err(Fault::of(alloc, &["--init: '", word, "' is neither 0 nor 1"])),
    }
}

/// Makes the text of a netlist of cells of a library, with the text of its stimuli, if there are
/// any.
pub(crate) fn convert(
    alloc: Global,
    options: &Options<'_>,
    library: &Library,
    delays: Option<&Delays>,
    text: &str,
    of_stimuli: Option<&str>,
) -> Result<Written, Fault> {
    let initial = read_initial(alloc, options.initial)?;
    match read_netlist(alloc, text, options.top(), library, delays, initial) {
        Ok(netlist) => convert_annotated(alloc, options, &netlist, delays, of_stimuli),
        Err(fault) => Err(fault.about(alloc, &["the netlist"])),
    }
}

/// Makes the text of a netlist that has been read with the delays of a file, if there is one.
fn convert_annotated(
    alloc: Global,
    options: &Options<'_>,
    netlist: &Netlist,
    delays: Option<&Delays>,
    of_stimuli: Option<&str>,
) -> Result<Written, Fault> {
    demand_instances(alloc, delays, netlist)?;
    let passed = note_passed(alloc, delays)?;
    let mut written = convert_netlist(alloc, options, netlist, of_stimuli)?;
    written.passed = passed;
    Ok(written)
}

/// Makes the text of a netlist that has been read.
fn convert_netlist(
    alloc: Global,
    options: &Options<'_>,
    netlist: &Netlist,
    of_stimuli: Option<&str>,
) -> Result<Written, Fault> {
    let stimuli = stimuli(alloc, options, netlist, of_stimuli)?;
    write_netlist(alloc, options, netlist, stimuli.as_ref())
}

/// The time of the last change of any input.
fn last_change(stimuli: &Stimuli) -> u64 {
    let mut latest = 0;
    for changes in stimuli.bits.iter() {
        if let Some(change) = changes.last() {
            latest = change.time.max(latest);
        }
    }
    latest
}

/// The refusal of a hold time that is too long.
fn too_late(alloc: Global) -> Fault {
    let mut text = Draft::of(alloc, "--hold: an input would change after ");
    text.push_shown(&LATEST);
    text.push(" fs, the latest time of vsim");
    Fault::of_draft(text)
}

/// Refuses a hold time by which an input would change after the latest time of vsim.
fn demand_hold(alloc: Global, stimuli: Option<&Stimuli>, hold: u64) -> Result<(), Fault> {
    let last = match stimuli {
        Some(stimuli) => last_change(stimuli),
        None => 0,
    };
    if LATEST.saturating_sub(last) < hold {
        return Err(too_late(alloc));
    }
    Ok(())
}

/// Writes a netlist and its stimuli, with delays.
fn write_netlist(
    alloc: Global,
    options: &Options<'_>,
    netlist: &Netlist,
    stimuli: Option<&Stimuli>,
) -> Result<Written, Fault> {
    let delays = read_delays(alloc, options.delays)?;
    let hold = read_hold(alloc, options.hold)?;
    demand_hold(alloc, stimuli, hold)?;
    let request = Request {
        netlist,
        stimuli,
        delays: delays.as_slice(),
        hold,
        is_large: options.is_large,
    };
    write_text(alloc, &request)
}
