//! A flat design as one line. Values are in quotes; nets, drivers and processes are given by
//! number, times in femtoseconds.

use crate::line::Line;
use sim_flat_design::statement::Statement;
use sim_flat_design::waveform::Waveform;
use sim_flat_design::{Design, DriverOf, Held, Net, Process, Source};
use sim_logic::Logic;

/// A value in quotes, after a blank.
fn put_quoted(line: &mut Line, value: Logic) {
    line.put(" '");
    line.put_value(value);
    line.put("'");
}

/// A word, and a number after it.
fn put_after(line: &mut Line, word: &str, number: usize) {
    line.put(word);
    line.put_number(number as u64);
}

/// A driver's number, or a constant.
fn put_source(line: &mut Line, source: Source) {
    match source {
        Source::Driver(number) => put_after(line, " ", number),
        Source::Constant(value) => put_quoted(line, value),
    }
}

/// The name of a net.
fn put_name(line: &mut Line, net: &Net) {
    let (path, simple_name) = net.name_pieces();
    for piece in path {
        line.put(piece.as_str());
    }
    line.put(simple_name);
}

/// A name, and the sources in their order.
fn put_net(line: &mut Line, net: &Net) {
    line.put("net ");
    put_name(line, net);
    line.put(" has");
    for source in net.sources() {
        put_source(line, *source);
    }
    line.put("; ");
}

/// A driver: its process, its net and its initial value.
fn put_driver(line: &mut Line, driver: &DriverOf) {
    put_after(line, "driver of ", driver.process);
    put_after(line, " to ", driver.net);
    line.put(" from");
    put_quoted(line, driver.first);
    line.put("; ");
}

/// A word, and numbers after it.
fn put_numbers(line: &mut Line, word: &str, numbers: &[usize]) {
    line.put(word);
    for number in numbers {
        put_after(line, " ", *number);
    }
    line.put(", ");
}

/// The initial value of a variable.
fn put_held(line: &mut Line, held: Held) {
    match held {
        Held::Bit(value) => put_quoted(line, value),
        Held::Truth(true) => line.put(" true"),
        Held::Truth(false) => line.put(" false"),
    }
}

/// The initial values of variables, in order.
fn put_variables(line: &mut Line, variables: &[Held]) {
    line.put("variables");
    for held in variables {
        put_held(line, *held);
    }
    line.put(", ");
}

/// The delays of the elements, without their values.
fn put_times(line: &mut Line, waveform: &Waveform) {
    for element in waveform.elements() {
        line.put(" ");
        line.put_number(element.after.fs());
    }
}

/// A statement: for an assignment, its driver and the times of its last waveform; for others, only
/// a word.
fn put_statement(line: &mut Line, statement: &Statement) {
    match statement {
        Statement::Signal(assignment) => {
            put_after(line, " to ", assignment.driver);
            line.put(" after");
            if let Some(waveform) = &assignment.otherwise {
                put_times(line, waveform);
            }
        }
        Statement::If { .. } => line.put(" if"),
        _ => line.put(" other"),
    }
}

/// The statements of a body, without those of branches.
fn put_statements(line: &mut Line, statements: &[Statement]) {
    line.put("statements");
    for statement in statements {
        put_statement(line, statement);
    }
    line.put("; ");
}

/// A process: its lists of nets, its counts, its variables and its statements.
fn put_process(line: &mut Line, process: &Process) {
    put_numbers(line, "process sensitive", process.sensitivity());
    put_numbers(line, "reads", process.reads());
    put_numbers(line, "nets", process.nets());
    let body = process.body();
    let counts = [body.objects(), body.drivers(), process.first_driver()];
    put_numbers(line, "objects, drivers and the first", &counts);
    put_variables(line, body.variables());
    put_statements(line, body.statements());
}

/// A design: its nets, its drivers and its processes.
pub fn put_design(line: &mut Line, design: &Design) {
    for net in design.nets() {
        put_net(line, net);
    }
    for driver in design.drivers() {
        put_driver(line, driver);
    }
    for process in design.processes() {
        put_process(line, process);
    }
}
