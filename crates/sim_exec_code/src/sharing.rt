//! Processes that share a code.

ghost use Rattle.std.specs.Prelude.{◌≡◌, ◌≤◌, true, List, Option, Some, length, slice_get, IfOk, IfSome};
ghost use Rattle.std.specs.List.{AllZip};
ghost use Rattle.sim_exec_code.specs.Codes as spec;

use crate::code::Code;
use crate::fingerprint::fingerprint;
use sim_flat_design::Process;
use std::alloc::{AllocError, Global};
use std::collections::HashMap;

/// The index of the code for bodies with this fingerprint; if there is none yet, that of a new
/// code, to be made from this process.
fn guess(
    known: &mut HashMap<u64, u32>,
    firsts: &mut Vec<usize>,
    number: u64,
    process: usize,
) -> Result<u32, AllocError> {
    if let Some(code) = known.get(&number) {
        return Ok(*code);
    }
    let code = small(firsts.len())?;
    known.insert(number, code)?;
    firsts.push(process)?;
    Ok(code)
}

/// A number as 32 bits.
pub fn small(number: usize) -> Result<u32, AllocError>
    ensures { IfOk result (λ n. n ≡ number) }
{
    match u32::try_from(number) {
        Ok(small) => Ok(small),
        Err(_) => Err(AllocError),
    }
}

/// The processes from which codes are to be made, and for each process the index of the code that
/// is presumably that of its body.
pub fn guesses(alloc: Global, processes: &[Process]) -> Result<(Vec<usize>, Vec<u32>), AllocError> {
    let mut known = HashMap::new(alloc);
    let mut firsts = Vec::new(alloc);
    let mut found = Vec::with_capacity(alloc, processes.len())?;
    for (i, process) in processes.iter().enumerate() {
        let code = guess(&mut known, &mut firsts, fingerprint(process.body()), i)?;
        found.push(code)?;
    }
    Ok((firsts, found))
}

/// The code of the process with a number; no program if there is no such process.
fn code_of(alloc: Global, processes: &[Process], number: usize) -> Result<Code, AllocError>
    ensures { IfOk result (λ c. spec.IsCodeAt processes.now number c) }
{
    match processes.get(number) {
        None => Ok(Code { program: None }),
        Some(process) => { Code::of(alloc, process) }
    }
}

/// The codes of the processes with these numbers.
pub fn codes_of(
    alloc: Global,
    processes: &[Process],
    numbers: &[usize],
) -> Result<Vec<Code>, AllocError>
    ensures { IfOk result (λ v. AllZip (spec.IsCodeAt processes.now) numbers.now v.items) }
{
    let mut codes = Vec::new(alloc);
    for number in numbers {
        let code = code_of(alloc, processes, *number)?;
        codes.push(code)?;
    }
    Ok(codes)
}

/// The number at an index, if there is one.
fn number_at(numbers: &[usize], place: usize) -> Option<usize>
    ensures { result ≡ slice_get numbers.now place }
{
    numbers.get(place).copied()
}

/// The process with a number, if there is one.
fn with_number(processes: &[Process], number: usize) -> Option<&Process>
    ensures { IfSome result (λ p. slice_get processes.now number ≡ Some p.now) }
{
    processes.get(number)
}

/// The process from which the code at an index was made.
fn first_of<'a>(processes: &'a [Process], firsts: &[usize], code: u32) -> Option<&'a Process>
    ensures { IfSome result (λ p. (codes : List (Option spec.Program)) → AllZip (spec.IsCodeAt processes.now) firsts.now codes
        → spec.IsCodeOf p.now.body (spec.code_at codes code)) }
{
    let first = number_at(firsts, code as usize);
    match first {
        None => None,
        Some(first) => with_number(processes, first),
    }
}

/// Whether a process has the same body as the process from which this code was made.
fn has_body(processes: &[Process], firsts: &[usize], code: u32, process: &Process) -> bool
    ensures { result ≡ true → (codes : List (Option spec.Program)) → AllZip (spec.IsCodeAt processes.now) firsts.now codes
        → spec.IsCodeOf process.now.body (spec.code_at codes code) }
{
    match first_of(processes, firsts, code) {
        None => false,
        Some(first) => first.body().same(process.body()),
    }
}

/// The index of the code of a process: `code` if it is that of its body, else `none`.
fn checked(processes: &[Process], firsts: &[usize], none: u32, code: u32, process: &Process) -> u32
    requires { length firsts.now ≤ none }
    ensures { (codes : List (Option spec.Program)) → AllZip (spec.IsCodeAt processes.now) firsts.now codes
        → spec.IsCodeOf process.now.body (spec.code_at codes result) }
{
    if has_body(processes, firsts, code, process) {
        code
    } else {
        none
    }
}

/// For each process, the index of its code among those made from `firsts`.
pub fn places_of(
    alloc: Global,
    processes: &[Process],
    firsts: &[usize],
    guesses: &[u32],
) -> Result<Vec<u32>, AllocError>
    ensures { IfOk result (λ v. (codes : List (Option spec.Program)) → AllZip (spec.IsCodeAt processes.now) firsts.now codes
        → AllZip (λ p n. spec.IsCodeOf p.body (spec.code_at codes n)) processes.now v.items) }
{
    let none = small(firsts.len())?;
    let mut places = Vec::with_capacity(alloc, processes.len())?;
    for (i, process) in processes.iter().enumerate() {
        let guess = match guesses.get(i) {
            Some(guess) => *guess,
            None => none,
        };
        places.push(checked(processes, firsts, none, guess, process))?;
    }
    Ok(places)
}
