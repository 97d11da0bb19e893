//! The program's answer to a case.

use crate::case::Case;
use sim_run::{Hints, session_with_hints};
use std::alloc::Global;
use std::sync::Wait;
use std::thread::Threads;

/// How the program's answer compares with the expected one.
#[derive(Clone, Copy, PartialEq, Eq)]
pub enum Comparison {
    Same,
    OtherStatus(u32),
    OtherOutput,
    OtherError,
}

/// The exit status of the program, and the bytes that it writes.
#[derive(Drop)]
pub struct Answer {
    pub status: u32,
    pub output: Vec<u8>,
    pub error: Vec<u8>,
}

/// Runs the program on the words and the text of a case. The hints say when work is handed out.
pub fn answered<R: Threads + Wait + Sync>(
    rt: &R,
    alloc: Global,
    words: Vec<String>,
    hints: Hints,
    text: &[u8],
) -> Answer {
    let mut input = text;
    let mut output = Vec::new(alloc);
    let mut error = Vec::new(alloc);
    let status = session_with_hints(rt, alloc, words, hints, &mut input, &mut output, &mut error);
    Answer {
        status: u32::from(status),
        output,
        error,
    }
}

/// Compares the answer to a case with the expected one.
pub fn compare(case: &Case, answer: &Answer) -> Comparison {
    if answer.status != case.status {
        Comparison::OtherStatus(answer.status)
    } else if case.compares_output && answer.output.as_slice() != case.output.as_slice() {
        Comparison::OtherOutput
    } else if case.compares_error && answer.error.as_slice() != case.error.as_slice() {
        Comparison::OtherError
    } else {
        Comparison::Same
    }
}
