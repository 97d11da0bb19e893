//! Which gate computes a function, by its table.

use std::alloc::{AllocError, Global};
use vsim_netlist_design::{Function, Gate, Level, Source, Step, push};

/// The tables of up to six inputs: each bit is the value for one combination of all inputs.
static INPUTS: [u64; 6] = [
    0xaaaa_aaaa_aaaa_aaaa,
    0xcccc_cccc_cccc_cccc,
    0xf0f0_f0f0_f0f0_f0f0,
    0xff00_ff00_ff00_ff00,
    0xffff_0000_ffff_0000,
    0xffff_ffff_0000_0000,
];

/// The orders of three inputs in which one of them comes last.
static TRIPLES: [[usize; 3]; 3] = [[0, 1, 2], [0, 2, 1], [1, 2, 0]];

/// The orders of four inputs in which the first comes with each other one.
static PAIRS: [[usize; 4]; 3] = [[0, 1, 2, 3], [0, 2, 1, 3], [0, 3, 1, 2]];

/// The orders of the inputs of a multiplexer: the one for 0, the one for 1, the one that selects.
static CHOICES: [[usize; 3]; 6] = [
    [0, 1, 2],
    [1, 0, 2],
    [0, 2, 1],
    [2, 0, 1],
    [1, 2, 0],
    [2, 1, 0],
];

/// The table of an input.
fn input(place: usize) -> u64 {
    match INPUTS.get(place) {
        Some(table) => *table,
        None => 0,
    }
}

/// The table of a constant.
fn constant(level: Level) -> u64 {
    if level == Level::One { u64::MAX } else { 0 }
}

/// Takes the last table.
fn taken(tables: &mut Vec<u64>) -> u64 {
    tables.pop().unwrap_or(0)
}

/// The table of the value of a step.
fn table_after(tables: &mut Vec<u64>, step: Step) -> u64 {
    match step {
        Step::Input(place) => input(place),
        Step::Constant(level) => constant(level),
        Step::Not => !taken(tables),
        Step::And => taken(tables) & taken(tables),
        Step::Or => taken(tables) | taken(tables),
        Step::Xor => taken(tables) ^ taken(tables),
    }
}

/// The table of a function.
fn table_of(alloc: Global, steps: &[Step]) -> Result<u64, AllocError> {
    let mut tables = Vec::new(alloc);
    for step in steps {
        let table = table_after(&mut tables, *step);
        push(&mut tables, table)?;
    }
    Ok(taken(&mut tables))
}

/// The gate with a table or with its negation.
fn either(table: u64, of_gate: u64, gate: Gate, negated: Gate) -> Option<Gate> {
    if table == of_gate {
        Some(gate)
    } else if table == !of_gate {
        Some(negated)
    } else {
        None
    }
}

/// The gate of all inputs that are joined by one operator.
fn chained(table: u64, inputs: usize) -> Option<Gate> {
    let (mut all, mut any, mut odd) = (u64::MAX, 0u64, 0u64);
    for place in 0..inputs {
        all &= input(place);
        any |= input(place);
        odd ^= input(place);
    }
    either(table, all, Gate::And, Gate::Nand)
        .or(either(table, any, Gate::Or, Gate::Nor))
        .or(either(table, odd, Gate::Xor, Gate::Xnor))
}

/// The gate of two inputs of which one is negated.
fn half_negated(table: u64) -> Option<Gate> {
    let (a, b) = (input(0), input(1));
    if table == a & !b || table == b & !a {
        Some(Gate::AndNot)
    } else if table == a | !b || table == b | !a {
        Some(Gate::OrNot)
    } else {
        None
    }
}

/// The gate of three inputs, of which two are joined first.
fn of_three(table: u64) -> Option<Gate> {
    for [a, b, c] in &TRIPLES {
        let (a, b, c) = (input(*a), input(*b), input(*c));
        if table == !(a & b | c) {
            return Some(Gate::Aoi3);
        }
        if table == !((a | b) & c) {
            return Some(Gate::Oai3);
        }
    }
    None
}

/// The gate of four inputs, of which two and two are joined first.
fn of_four(table: u64) -> Option<Gate> {
    for [a, b, c, d] in &PAIRS {
        let (a, b, c, d) = (input(*a), input(*b), input(*c), input(*d));
        if table == !(a & b | c & d) {
            return Some(Gate::Aoi4);
        }
        if table == !((a | b) & (c | d)) {
            return Some(Gate::Oai4);
        }
    }
    None
}

/// The gate of one or more inputs with a table, if there is one. Multiplexers are not looked for.
fn gate_of(table: u64, inputs: usize) -> Option<Gate> {
    if inputs == 1 {
        return either(table, input(0), Gate::Buf, Gate::Not);
    }
    if let Some(gate) = chained(table, inputs) {
        return Some(gate);
    }
    match inputs {
        2 => half_negated(table),
        3 => of_three(table),
        4 => of_four(table),
        _ => None,
    }
}

/// The multiplexer with a table, and the order of its inputs.
fn multiplexer(table: u64) -> Option<(Gate, &'static [usize])> {
    for order in &CHOICES {
        let [low, high, select] = order;
        let (low, high, select) = (input(*low), input(*high), input(*select));
        let selected = high & select | low & !select;
        if let Some(gate) = either(table, selected, Gate::Mux, Gate::Nmux) {
            return Some((gate, order.as_slice()));
        }
    }
    None
}

/// The inputs in another order.
fn ordered(alloc: Global, inputs: &[Source], order: &[usize]) -> Result<Vec<Source>, AllocError> {
    let mut found = Vec::new(alloc);
    for place in order {
        if let Some(source) = inputs.get(*place) {
            push(&mut found, *source)?;
        }
    }
    Ok(found)
}

/// The function of a gate of one or more inputs, or of none.
fn plain(table: u64, inputs: Vec<Source>, steps: Vec<Step>) -> Function {
    let count = inputs.len();
    let gate = if count == 0 || INPUTS.len() < count {
        Gate::Function
    } else {
        gate_of(table, count).unwrap_or(Gate::Function)
    };
    Function {
        gate,
        inputs,
        steps,
    }
}

/// The function of a multiplexer.
fn chosen(
    alloc: Global,
    gate: Gate,
    inputs: &[Source],
    order: &[usize],
) -> Result<Function, AllocError> {
    let inputs = ordered(alloc, inputs, order)?;
    Ok(Function {
        gate,
        inputs,
        steps: Vec::new(alloc),
    })
}

/// A function with the gate that computes it.
pub(crate) fn known_function(
    alloc: Global,
    inputs: Vec<Source>,
    steps: Vec<Step>,
) -> Result<Function, AllocError> {
    let table = table_of(alloc, steps.as_slice())?;
    if inputs.len() == 3 {
        if let Some((gate, order)) = multiplexer(table) {
            return chosen(alloc, gate, inputs.as_slice(), order);
        }
    }
    Ok(plain(table, inputs, steps))
}
