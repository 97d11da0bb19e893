//! From cells as they are written to what they are.

use crate::functions::read_function;
use crate::pins::Names;
use std::alloc::Global;
use std::collections::HashMap;
use vsim_netlist_design::{
    Conflict, Draft, Fault, Function, Level, LibraryCell, LibraryEntry, LibraryPin, LibraryState,
    fault_at, push,
};
use vsim_netlist_liberty_text::{Formula, WrittenCell, WrittenPin, WrittenState};

/// A fault on a line of a cell.
fn fault_of(alloc: Global, line: usize, cell: &str, told: &str) -> Fault {
    fault_at(alloc, line, &["cell ", cell, ": ", told])
}

/// A fault on a line of a pin.
fn fault_of_pin(alloc: Global, line: usize, cell: &str, pin: &str, told: &str) -> Fault {
    fault_at(alloc, line, &["cell ", cell, ", pin ", pin, ": ", told])
}

/// A fault of a function after its line, its cell and its pin, if it is that of one.
fn placed(alloc: Global, fault: Fault, line: usize, cell: &str, pin: Option<&str>) -> Fault {
    let mut place = Draft::new(alloc);
    place.push_shown(&line);
    place.push_all(&[": cell ", cell]);
    if let Some(pin) = pin {
        place.push_all(&[", pin ", pin]);
    }
    match place.finish() {
        Ok(place) => fault.about(alloc, &[place.as_str()]),
        Err(_lack) => Fault::Memory,
    }
}

/// The first output without a function, if there is one.
fn bare_output<'a>(cell: &WrittenCell<'a>) -> Option<&'a str> {
    for pin in cell.pins.iter() {
        if pin.is_output && pin.function.is_none() {
            return Some(pin.name);
        }
    }
    None
}

/// Refuses a cell with something that is not supported.
fn demand_supported(alloc: Global, cell: &WrittenCell<'_>) -> Result<(), Fault> {
    let Some(found) = cell.unsupported else {
        return Ok(());
    };
    let mut told = Draft::of(alloc, found.told);
    told.push(" is not supported");
    let told = told.finish()?;
    match found.pin.or(bare_output(cell)) {
        Some(pin) => Err(fault_of_pin(alloc, found.line, cell.name, pin, told.as_str())),
        None => Err(fault_of(alloc, found.line, cell.name, told.as_str())),
    }
}

/// The function of a text, if there is one.
fn function(
    alloc: Global,
    names: &Names<'_>,
    formula: Option<Formula<'_>>,
    cell: &str,
    pin: Option<&str>,
) -> Result<Option<Function>, Fault> {
    let Some(formula) = formula else {
        return Ok(None);
    };
    match read_function(alloc, names, formula.text) {
        Ok(function) => Ok(Some(function)),
        Err(fault) => Err(placed(alloc, fault, formula.line, cell, pin)),
    }
}

/// Notes the place of a pin, whose name is new.
fn put_place(
    alloc: Global,
    places: &mut HashMap<String, usize>,
    cell: &str,
    pin: &WrittenPin<'_>,
    place: usize,
) -> Result<(), Fault> {
    if places.get(pin.name).is_some() {
        return Err(fault_of_pin(alloc, pin.line, cell, pin.name, "it is there twice"));
    }
    let name = String::from_str(alloc, pin.name)?;
    let _none = places.insert(name, place).map_err(|_| Fault::Memory)?;
    Ok(())
}

/// The places of the pins of a cell.
fn places(alloc: Global, cell: &WrittenCell<'_>) -> Result<HashMap<String, usize>, Fault> {
    let mut places = HashMap::new(alloc);
    for (place, pin) in cell.pins.iter().enumerate() {
        put_place(alloc, &mut places, cell.name, pin, place)?;
    }
    Ok(places)
}

/// The function of a pin, and the one by which it does not drive.
fn functions_of(
    alloc: Global,
    names: &Names<'_>,
    cell: &str,
    pin: &WrittenPin<'_>,
) -> Result<(Option<Function>, Option<Function>), Fault> {
    let driven = function(alloc, names, pin.function, cell, Some(pin.name))?;
    let three_state = function(alloc, names, pin.three_state, cell, Some(pin.name))?;
    Ok((driven, three_state))
}

/// A pin with its functions.
fn make_pin(
    alloc: Global,
    names: &Names<'_>,
    cell: &str,
    pin: &WrittenPin<'_>,
) -> Result<LibraryPin, Fault> {
    let name = String::from_str(alloc, pin.name)?;
    let (function, three_state) = functions_of(alloc, names, cell, pin)?;
    Ok(LibraryPin {
        name,
        is_output: pin.is_output,
        function,
        three_state,
    })
}

/// The pins of a cell.
fn pins(
    alloc: Global,
    names: &Names<'_>,
    cell: &WrittenCell<'_>,
) -> Result<Vec<LibraryPin>, Fault> {
    let mut pins = Vec::new(alloc);
    for pin in cell.pins.iter() {
        let pin = make_pin(alloc, names, cell.name, pin)?;
        push(&mut pins, pin)?;
    }
    Ok(pins)
}

/// What a letter says of a variable while both clear and preset are active.
fn conflict(alloc: Global, letter: &str, line: usize, cell: &str) -> Result<Conflict, Fault> {
    Ok(match letter {
        "L" => Conflict::Level(Level::Zero),
        "H" => Conflict::Level(Level::One),
        "X" | "" => Conflict::Level(Level::Unknown),
        "N" => Conflict::Kept,
        _ => {
            let told = "a variable that is not L, H, N or X if cleared and preset is not supported";
            return Err(fault_of(alloc, line, cell, told));
        }
    })
}

/// Why a register or latch cannot be simulated, if so, and on which line.
fn trouble(state: &WrittenState<'_>) -> Option<(&'static str, usize)> {
    let (has_clock, has_data) = (state.clock.is_some(), state.data.is_some());
    let is_bare = state.is_latch && state.clear.is_some() && state.preset.is_some();
    let told = match state.other {
        Some((_, line)) => return Some(("a second clock or enable is not supported", line)),
        None if has_clock && has_data => return None,
        None if is_bare && !has_clock && !has_data => return None,
        None if state.is_latch => "a latch has both enable and data_in, or both clear and preset",
        None => "an ff has both clocked_on and next_state",
    };
    Some((told, state.line))
}

/// Adds the functions of a register or latch.
fn fill(
    alloc: Global,
    names: &Names<'_>,
    written: &WrittenState<'_>,
    cell: &str,
    state: &mut LibraryState,
) -> Result<(), Fault> {
    state.clock = function(alloc, names, written.clock, cell, None)?;
    state.data = function(alloc, names, written.data, cell, None)?;
    fill_levels(alloc, names, written, cell, state)
}

/// Adds what clears and presets a register or latch.
fn fill_levels(
    alloc: Global,
    names: &Names<'_>,
    written: &WrittenState<'_>,
    cell: &str,
    state: &mut LibraryState,
) -> Result<(), Fault> {
    state.clear = function(alloc, names, written.clear, cell, None)?;
    state.preset = function(alloc, names, written.preset, cell, None)?;
    Ok(())
}

/// A register or latch without functions.
fn bare_state(
    alloc: Global,
    written: &WrittenState<'_>,
    cell: &str,
) -> Result<LibraryState, Fault> {
    if let Some((told, line)) = trouble(written) {
        return Err(fault_of(alloc, line, cell, told));
    }
    let plain = conflict(alloc, written.of_plain, written.line, cell)?;
    let negated = conflict(alloc, written.of_negated, written.line, cell)?;
    Ok(LibraryState {
        is_latch: written.is_latch,
        clock: None,
        data: None,
        clear: None,
        preset: None,
        plain,
        negated,
    })
}

/// The register or latch of a cell, if it has one.
fn state(
    alloc: Global,
    names: &Names<'_>,
    cell: &WrittenCell<'_>,
) -> Result<Option<LibraryState>, Fault> {
    let Some(written) = cell.state else {
        return Ok(None);
    };
    let mut state = bare_state(alloc, &written, cell.name)?;
    fill(alloc, names, &written, cell.name, &mut state)?;
    Ok(Some(state))
}

/// The names that the functions of a cell may have.
fn names_of<'a>(cell: &WrittenCell<'a>, places: &'a HashMap<String, usize>) -> Names<'a> {
    let (plain, negated) = match &cell.state {
        Some(state) => (state.plain, state.negated),
        None => ("", ""),
    };
    Names {
        places,
        plain,
        negated,
    }
}

/// The pins and the register of a cell.
fn parts(
    alloc: Global,
    cell: &WrittenCell<'_>,
    places: &HashMap<String, usize>,
) -> Result<(Vec<LibraryPin>, Option<LibraryState>), Fault> {
    let names = names_of(cell, places);
    let state = state(alloc, &names, cell)?;
    let pins = pins(alloc, &names, cell)?;
    Ok((pins, state))
}

/// What a cell is.
fn model(alloc: Global, cell: &WrittenCell<'_>) -> Result<LibraryCell, Fault> {
    demand_supported(alloc, cell)?;
    let places = places(alloc, cell)?;
    let (pins, state) = parts(alloc, cell, &places)?;
    Ok(LibraryCell {
        pins,
        places,
        state,
    })
}

/// What a cell is, or why a netlist may not have it.
pub(crate) fn entry_of(
    alloc: Global,
    file: &str,
    cell: &WrittenCell<'_>,
) -> Result<LibraryEntry, Fault> {
    match model(alloc, cell) {
        Ok(model) => Ok(LibraryEntry::Known(model)),
        Err(Fault::Memory) => Err(Fault::Memory),
        Err(Fault::Refused(told)) => {
            let mut text = Draft::of(alloc, file);
            text.push(": ");
            text.push_draft(told.as_ref());
            Ok(LibraryEntry::Refused(text.finish()?))
        }
    }
}
