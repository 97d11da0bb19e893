//! Gates and registers with the delays of their paths, each as a process.

use crate::ladders::{TestedPath, choice, tested};
use std::alloc::{AllocError, Global};
use vsim_netlist_design::{Bit, Draft, Level, PathCondition, Timing, push};
use vsim_netlist_entities::TimedProcess;
use vsim_netlist_signals::{Expression, Statements, function_expression, named};

/// The operands of a condition. A constant is a signal.
fn operands(statements: &mut Statements, bits: &[Bit]) -> Result<Vec<Expression>, AllocError> {
    let alloc = statements.alloc;
    let mut operands = Vec::new(alloc);
    for bit in bits {
        push(&mut operands, named(alloc, statements.bit_name(*bit)))?;
    }
    Ok(operands)
}

/// The text of a condition, in parentheses.
fn condition_text(
    statements: &mut Statements,
    condition: &PathCondition,
) -> Result<Draft, AllocError> {
    let alloc = statements.alloc;
    let operands = operands(statements, condition.inputs.as_slice())?;
    let value = function_expression(alloc, condition.steps.as_slice(), operands.as_slice())?;
    let mut text = Draft::of(alloc, "(");
    text.push_draft(&value.text);
    text.push(")");
    Ok(text)
}

/// The texts of conditions.
fn condition_texts(
    statements: &mut Statements,
    conditions: &[PathCondition],
) -> Result<Vec<Draft>, AllocError> {
    let mut texts = Vec::new(statements.alloc);
    for condition in conditions {
        push(&mut texts, condition_text(statements, condition)?)?;
    }
    Ok(texts)
}

/// The paths of a cell, with their tests.
fn tested_paths(
    statements: &mut Statements,
    timing: &Timing,
    conditions: &[Draft],
) -> Result<Vec<TestedPath>, AllocError> {
    let alloc = statements.alloc;
    let mut paths = Vec::new(alloc);
    for path in timing.paths.iter() {
        let name = statements.bit_name(Bit::Net(path.from));
        push(&mut paths, tested(alloc, timing, conditions, path, name))?;
    }
    Ok(paths)
}

/// The assignment of the new value of a net.
fn assignment(
    statements: &mut Statements,
    place: usize,
    timing: &Timing,
    is_tristate: bool,
) -> Result<Draft, AllocError> {
    let conditions = condition_texts(statements, timing.conditions.as_slice())?;
    let paths = tested_paths(statements, timing, conditions.as_slice())?;
    let target = statements.signals.text(place);
    choice(statements.alloc, target, paths.as_slice(), is_tristate)
}

/// A process that computes the new value of a net by these statements.
fn process(alloc: Global, computed: &Draft, assigned: &Draft, initial: Option<Level>) -> Draft {
    let mut text = Draft::of(alloc, "process(all)variable v,n:std_logic");
    if let Some(level) = initial {
        text.push_all(&[":=", level.literal()]);
    }
    text.push(";begin ");
    text.push_draft(computed);
    text.push("if n/=v then ");
    text.push_draft(assigned);
    text.push("v:=n;end if;end process;\n");
    text
}

/// The process of a net whose new value these statements compute. One that may be high impedance is
/// unknown at first.
pub(crate) fn timed(
    statements: &mut Statements,
    place: usize,
    timing: &Timing,
    computed: &Draft,
    initial: Option<Level>,
) -> Result<TimedProcess, AllocError> {
    statements.ensure(place);
    let is_tristate = initial == Some(Level::Unknown);
    let assigned = assignment(statements, place, timing, is_tristate)?;
    statements.count();
    Ok(TimedProcess {
        text: process(statements.alloc, computed, &assigned, initial),
        output: place,
    })
}

/// The computation of a new value.
pub(crate) fn computation(alloc: Global, value: &Expression) -> Draft {
    let mut text = Draft::of(alloc, "n:=");
    text.push_draft(&value.text);
    text.push(";");
    text
}

/// Adds an expression as an operand of a comparison.
fn push_compared(text: &mut Draft, value: &Expression) {
    let is_plain = !value.text.read_for(text).contains(' ');
    text.push(if is_plain { "" } else { "(" });
    text.push_draft(&value.text);
    text.push(if is_plain { "" } else { ")" });
}

/// The computation of a new value that is there while another one enables it, at `1` if the flag is
/// set.
pub(crate) fn enabled_computation(
    alloc: Global,
    value: &Expression,
    enable: &Expression,
    is_high: bool,
) -> Draft {
    let (on, off) = if is_high {
        ("='1'then ", "='0'then n:='Z';else n:='X';end if;")
    } else {
        ("='0'then ", "='1'then n:='Z';else n:='X';end if;")
    };
    let mut text = Draft::of(alloc, "if ");
    push_compared(&mut text, enable);
    text.push(on);
    text.push_draft(&computation(alloc, value));
    text.push("elsif ");
    push_compared(&mut text, enable);
    text.push(off);
    text
}
