//! The codes of processes.

use crate::texts::{CHOICE, EXCHANGE, PULSES, REGISTERS, TOGGLE, flat};
use sim_exec::{Code, Codes};
use sim_flat_design::{Design, Process};
use std::alloc::Global;

/// The number of operations of the code of a process.
fn operations_of(alloc: Global, process: &Process) -> Option<usize> {
    match Code::of(alloc, process) {
        Ok(code) => Some(code.ops()),
        Err(_refused) => None,
    }
}

/// The number of operations of the code of the process with a number.
fn operations_at(alloc: Global, text: &str, number: usize) -> Option<usize> {
    let design = flat(alloc, text)?;
    operations_of(alloc, design.processes().get(number)?)
}

/// Texts, process numbers, and the numbers of expressions in their bodies: values of elements,
/// values assigned to variables, and conditions.
static EXPRESSIONS: [(&str, usize, usize); 7] = [
    (TOGGLE, 0, 1),
    (TOGGLE, 1, 3),
    (EXCHANGE, 1, 2),
    (CHOICE, 1, 3),
    (PULSES, 1, 3),
    (PULSES, 2, 1),
    (PULSES, 3, 2),
];

/// The index of the first process whose code has fewer operations than its body has expressions.
fn first_with_fewer(alloc: Global) -> Option<usize> {
    for (place, row) in EXPRESSIONS.iter().enumerate() {
        match operations_at(alloc, row.0, row.1) {
            Some(operations) if row.2 <= operations => {}
            _ => return Some(place),
        }
    }
    None
}

#[test]
fn a_code_has_an_operation_for_each_expression(rt: HostRuntime) {
    assert_eq!(rt; first_with_fewer(rt.alloc()), None);
}

/// By register, the number of operations of its code: the test of the guard, and the steps that are
/// left under it. A register with a reset has four: the test of the reset, two assignments, and a
/// jump over the second; a negation is one more. The last has five for its body as a whole: two
/// operands, the test of both, an assignment, and the jump behind it.
static REGISTER_OPERATIONS: [usize; 6] = [2, 5, 2, 5, 6, 6];

/// The index of the first register whose code has another number of operations.
fn first_unguarded(alloc: Global) -> Option<usize> {
    for (number, expected) in REGISTER_OPERATIONS.iter().enumerate() {
        match operations_at(alloc, REGISTERS, number) {
            Some(operations) if operations == *expected => {}
            _ => return Some(number),
        }
    }
    None
}

#[test]
fn registers_have_guards(rt: HostRuntime) {
    assert_eq!(rt; first_unguarded(rt.alloc()), None);
}

/// Whether these nets are gathered for the processes and for one more number.
fn are_gathered(codes: &Codes, nets: &[&[usize]]) -> bool {
    for (number, row) in nets.iter().enumerate() {
        if codes.nets(number) != *row {
            return false;
        }
    }
    true
}

/// Whether the processes of a design have codes that gather these nets.
fn are_coded(alloc: Global, design: &Design, nets: &[&[usize]]) -> bool {
    match Codes::of(alloc, design.processes()) {
        Ok(codes) => are_gathered(&codes, nets),
        Err(_refused) => false,
    }
}

/// Texts, and the nets that are gathered for each of their processes and for one more number: those
/// of the edge and of the reset that guard the whole body, and those that are read as values.
static NETS: [(&str, &[&[usize]]); 4] = [
    (TOGGLE, &[&[0], &[0], &[]]),
    (EXCHANGE, &[&[], &[0, 2], &[0, 1], &[]]),
    (CHOICE, &[&[], &[0], &[]]),
    (
        REGISTERS,
        &[
            &[0, 1],
            &[0, 2, 1],
            &[0, 1],
            &[0, 2, 1],
            &[0, 2, 1],
            &[0, 1],
            &[],
        ],
    ),
];

/// The index of the first text whose codes gather other nets.
fn first_other(alloc: Global) -> Option<usize> {
    for (place, row) in NETS.iter().enumerate() {
        match flat(alloc, row.0) {
            Some(design) if are_coded(alloc, &design, row.1) => {}
            _ => return Some(place),
        }
    }
    None
}

#[test]
fn codes_gather_what_bodies_read(rt: HostRuntime) {
    assert_eq!(rt; first_other(rt.alloc()), None);
}
