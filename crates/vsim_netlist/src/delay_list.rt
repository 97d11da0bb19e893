//! The delays in `--delays`.

use std::alloc::Global;
use vsim_netlist_design::{Fault, push};
use vsim_netlist_signals::{Delay, NamedDelay};
use vsim_netlist_stimuli::{LATEST, read_time};

/// The names that may have a delay.
static NAMES: [&str; 24] = [
    "buf", "not", "and", "nand", "or", "nor", "xor", "xnor", "andnot", "ornot", "mux", "nmux",
    "mux4", "mux8", "mux16", "aoi3", "oai3", "aoi4", "oai4", "lut", "tbuf", "dff", "latch",
    "others",
];

/// A time in the arguments.
fn time(alloc: Global, text: &str) -> Result<u64, Fault> {
    let Some(time) = read_time(text) else {
        return Err(Fault::of(alloc, &["'", text, "' is no time, as 40ps is"]));
    };
    if time > LATEST / 4 {
        return Err(Fault::of(alloc, &["'", text, "' is too long"]));
    }
    Ok(time)
}

/// A delay: one time, or one to rise and one to fall.
fn delay(alloc: Global, text: &str) -> Result<Delay, Fault> {
    let (rise, fall) = text.split_once('/').unwrap_or((text, text));
    let rise = time(alloc, rise)?;
    let fall = time(alloc, fall)?;
    Ok(Delay { rise, fall })
}

/// Refuses a name that may not have a delay.
fn demand_name(alloc: Global, name: &str) -> Result<(), Fault> {
    for known in &NAMES {
        if *known == name {
            return Ok(());
        }
    }
    Err(Fault::of(alloc, &["there is no gate '", name, "'"]))
}

/// A name with its delay.
fn named(alloc: Global, text: &str) -> Result<NamedDelay, Fault> {
    let Some((name, times)) = text.split_once('=') else {
        return Err(Fault::of(alloc, &["'", text, "' is no delay, as nand=40ps is"]));
    };
    demand_name(alloc, name)?;
    let delay = delay(alloc, times)?;
    let name = String::from_str(alloc, name)?;
    Ok(NamedDelay { name, delay })
}

/// Adds the delay in a part of the list, unless it is empty.
fn put_part(alloc: Global, delays: &mut Vec<NamedDelay>, part: &str) -> Result<(), Fault> {
    if part.is_empty() {
        return Ok(());
    }
    match named(alloc, part) {
        Ok(delay) => Ok(push(delays, delay)?),
        Err(fault) => Err(fault.about(alloc, &["--delays"])),
    }
}

/// Reads the delays, if any.
pub(crate) fn read_delays(alloc: Global, text: &str) -> Result<Vec<NamedDelay>, Fault> {
    let mut delays = Vec::new(alloc);
    for part in text.split(',') {
        put_part(alloc, &mut delays, part)?;
    }
    Ok(delays)
}

/// Reads the hold time, if there is one.
pub(crate) fn read_hold(alloc: Global, text: &str) -> Result<u64, Fault> {
    if text.is_empty() {
        return Ok(0);
    }
    match time(alloc, text) {
        Ok(time) => Ok(time),
        Err(fault) => Err(fault.about(alloc, &["--hold"])),
    }
}
