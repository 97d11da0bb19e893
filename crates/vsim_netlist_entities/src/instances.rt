//! Entities for processes, and their instances.

use crate::shapes::{INPUT, OUTPUT};
use std::alloc::Global;
use vsim_netlist_design::{Draft, Level};
use vsim_netlist_signals::Statements;

/// What stands before each entity, so that it sees `std_logic`.
const CONTEXT: &str = "library ieee;\nuse ieee.std_logic_1164.all;\n";

/// The length of a name that is yet to be found.
const NAME: usize = 3;

/// Adds the ports for inputs.
fn push_inputs(text: &mut Draft, count: usize) {
    for number in 0..count {
        text.push(if number == 0 { INPUT } else { ",p" });
        text.push_shown(&number);
    }
    if count > 0 {
        text.push(":in std_logic;");
    }
}

/// An entity with a name for a process, given by its shape, the number of its inputs and the initial
/// value of its output.
pub(crate) fn entity(
    alloc: Global,
    name: &str,
    shape: &str,
    inputs: usize,
    initial: Option<Level>,
) -> Draft {
    let mut text = Draft::of(alloc, CONTEXT);
    text.push_all(&["entity ", name, " is port("]);
    push_inputs(&mut text, inputs);
    text.push_all(&[OUTPUT, ":out std_logic"]);
    if let Some(level) = initial {
        text.push_all(&[":=", level.literal()]);
    }
    text.push_all(&[");end;\narchitecture netlist of ", name, " is begin\n"]);
    text.push_all(&[shape, "end;\n"]);
    text
}

/// The number of bytes of an instance, at most, given the names of its inputs and its output.
pub(crate) fn instance_bytes(statements: &Statements, inputs: &[usize], output: usize) -> usize {
    let mut bytes = ":entity work. port map();\n".len();
    bytes = bytes.saturating_add(2 * NAME);
    bytes = bytes.saturating_add(statements.signals.text(output).len());
    for place in inputs {
        let name = statements.signals.text(*place).len();
        bytes = bytes.saturating_add(name).saturating_add(1);
    }
    bytes
}

/// Adds an instance of the entity with a name.
pub(crate) fn put_instance(
    statements: &mut Statements,
    entity: &str,
    inputs: &[usize],
    output: usize,
) {
    let label = statements.signals.names.fresh();
    statements.body.push(label.as_str());
    statements
        .body
        .push_all(&[":entity work.", entity, " port map("]);
    for place in inputs {
        statements.push_name(*place);
        statements.body.push(",");
    }
    statements.push_name(output);
    statements.body.push(");\n");
}
