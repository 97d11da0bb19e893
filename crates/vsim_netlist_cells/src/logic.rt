//! What the logic of a library's cell says of its gates and registers.

use crate::reading::Reading;
use vsim_netlist_design::{
    Conflict, Function, Gate, Level, LibraryPin, LibraryState, Source, Step, Style, Variant,
};

/// The level of a constant, or its negation.
pub(crate) fn level_of(level: Level, is_negated: bool) -> Level {
    match (level, is_negated) {
        (Level::Zero, true) => Level::One,
        (Level::One, true) => Level::Zero,
        _ => level,
    }
}

/// Whether a function has a variable among its inputs.
pub(crate) fn reads(function: &Function, variant: Variant) -> bool {
    for source in function.inputs.iter() {
        if *source == Source::Variable(variant) {
            return true;
        }
    }
    false
}

/// Whether a function, if there is one, has a variable among its inputs.
pub(crate) fn may_read(function: &Option<Function>, variant: Variant) -> bool {
    match function {
        Some(function) => reads(function, variant),
        None => false,
    }
}

/// Whether any function of a register reads a variable.
pub(crate) fn is_read_inside(state: &LibraryState, variant: Variant) -> bool {
    may_read(&state.clock, variant)
        || may_read(&state.data, variant)
        || may_read(&state.clear, variant)
        || may_read(&state.preset, variant)
}

/// Whether the output of a pin is a variable itself.
pub(crate) fn is_variable(pin: &LibraryPin, variant: Variant) -> bool {
    match &pin.function {
        Some(function) if pin.three_state.is_none() => {
            function.gate == Gate::Buf && reads(function, variant)
        }
        _ => false,
    }
}

/// The steps of a function, or of its negation.
pub(crate) fn steps_of(reading: &mut Reading, function: &Function, is_negated: bool) -> Vec<Step> {
    let none = Vec::new(reading.alloc);
    let mut steps = reading.made(function.steps.clone(), none);
    if is_negated && !steps.is_empty() {
        reading.push(&mut steps, Step::Not);
    }
    steps
}

/// The gate of a function, or of its negation.
pub(crate) fn gate_of(function: &Function, is_negated: bool) -> Gate {
    match (function.gate, is_negated) {
        (gate, false) => gate,
        (Gate::Mux, true) => Gate::Nmux,
        (Gate::Nmux, true) => Gate::Mux,
        _ => Gate::Function,
    }
}

/// The level at which a variable is cleared, or preset.
pub(crate) fn level_after(variant: Variant, is_clear: bool) -> Level {
    if is_clear == (variant == Variant::Plain) {
        Level::Zero
    } else {
        Level::One
    }
}

/// What a variable is while its register is both cleared and preset.
pub(crate) fn conflict_of(state: &LibraryState, variant: Variant) -> Conflict {
    match variant {
        Variant::Plain => state.plain,
        Variant::Negated => state.negated,
    }
}

/// Whether a function, if there is one, is an input or its negation.
fn is_plain(function: &Option<Function>) -> bool {
    match function {
        Some(function) => function.steps.len() <= 2 && function.inputs.len() <= 1,
        None => true,
    }
}

/// Whether what controls a register are inputs or their negations, as are the data of a latch.
pub(crate) fn has_plain_controls(state: &LibraryState) -> bool {
    let is_data_plain = !state.is_latch || is_plain(&state.data);
    is_data_plain && is_plain(&state.clock) && is_plain(&state.clear) && is_plain(&state.preset)
}

/// The style of a register, by what it has.
pub(crate) fn style_of(state: &LibraryState) -> Style {
    match (state.clear.is_some(), state.preset.is_some()) {
        _ if state.is_latch && state.clock.is_none() => Style::Bare,
        _ if state.is_latch => Style::Latch,
        (true, true) => Style::SetReset,
        (false, false) => Style::Plain,
        _ => Style::Asynchronous,
    }
}
