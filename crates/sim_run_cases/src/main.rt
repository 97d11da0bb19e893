//! Runs the program on each case of the files that its words name, and prints the number of cases,
//! and each case whose answer is not the expected one: `sim_run_cases FILE ..`. After a word
//! `--by=N` it does so for each case whose run finishes, with N workers unless the case says how
//! many, and with each phase handed out to them. For a word `--calls` it prints the listing of the
//! text on standard input, by the public calls one after another, for the top, the stop time and the
//! limit of the words `--top=NAME`, `--stop=N` and `--limit=N` before it; for a word `--rows` it
//! makes rows of calls that are made alone.
//!
//! If the first word is `--handed-out`, it is the program itself: the other words are the
//! program's, and so are the streams and the status, and each phase is handed out. All this is one
//! program because each program that contains a whole run proves and links all of it.
//!
//! A file consists of lines. An empty line, or one that begins with `#`, is ignored. Every other
//! line begins with a mark and a blank:
//!
//! | Mark | What follows the blank |
//! |---|---|
//! | `=` | the name of a case, which begins here |
//! | `$` | the words, separated by blanks; without such a line, `--top t` |
//! | `<` | a line of the text; the last one has no line feed |
//! | `+` | more of the text's last line |
//! | `*` | a number, and after a blank more of that line, repeated as many times |
//! | `_` | a number: this many more blanks in that line |
//! | `@` | two numbers, and after a blank more of that line for each number from the first to the
//! second: `{n}` in it is that number, `{n+1}` the next |
//! | `>` | a line that is written to standard output |
//! | `&` | as `@`, a line that is written to standard output for each number |
//! | `!` | a line that is written to standard error |
//! | `?` | the status; without such a line, 0 |
//! | `~` | `>` or `!`: what is written there is not compared |
#![tactic(auto)]

mod calls;
mod case;
mod file;
mod outcome;
mod plan;
mod repeated;
mod way;

use crate::calls::{list_by_calls, work_rows};
use crate::case::Case;
use crate::file::cases;
use crate::outcome::{Comparison, answered, compare};
use crate::plan::Plan;
use crate::way::Way;
use anyhow::{Context, Result};
use sim_run::{Hints, session_with_hints};
use std::alloc::Global;
use std::process::ExitCode;
use std::rt::Files;
use std::sync::Wait;
use std::thread::Threads;
use std::{env, fs};

/// The numbers of cases with the expected answer and with another one.
#[derive(Clone, Copy)]
struct Counts {
    same: u64,
    differ: u64,
}

/// Prints how the answer to a case differs.
fn tell<R: Print>(rt: &R, name: &str, outcome: Comparison) -> Result<()> {
    match outcome {
        Comparison::Same => {}
        Comparison::OtherStatus(status) => println!(rt; "differs in status, {status}: {name}")?,
        Comparison::OtherOutput => println!(rt; "differs in standard output: {name}")?,
        Comparison::OtherError => println!(rt; "differs in standard error: {name}")?,
    }
    Ok(())
}

/// Runs the program on a case.
fn run_case<R: Threads + Wait + Sync + AllocGlobal>(
    rt: &R,
    case: Case,
    hints: Hints,
) -> Result<(String, Comparison)> {
    let mut case = case;
    let words = std::mem::replace(&mut case.words, Vec::new(rt.alloc()));
    let answer = answered(rt, rt.alloc(), words, hints, case.text.as_slice());
    let outcome = compare(&case, &answer);
    Ok((case.name, outcome))
}

/// The counts after one more case.
fn counted(counts: Counts, outcome: Comparison) -> Counts {
    match outcome {
        Comparison::Same => Counts {
            same: counts.same.saturating_add(1),
            ..counts
        },
        _ => Counts {
            differ: counts.differ.saturating_add(1),
            ..counts
        },
    }
}

/// The cases of the file with this name.
fn cases_of<R: AllocGlobal + Files>(rt: &R, name: &str) -> Result<Vec<Case>> {
    let file = fs::read(rt, name).context("a file of cases cannot be read")?;
    cases(rt.alloc(), file.as_slice())
}

/// Runs the program on a case, if it is run in this way, and adds it to the counts.
fn count_case<R: Threads + Wait + Sync + AllocGlobal + Print>(
    rt: &R,
    case: Case,
    way: &Way,
    counts: Counts,
) -> Result<Counts> {
    let mut case = case;
    if !way.takes(rt.alloc(), &mut case)? {
        return Ok(counts);
    }
    let (name, outcome) = run_case(rt, case, way.hints)?;
    tell(rt, name.as_str(), outcome)?;
    Ok(counted(counts, outcome))
}

/// Runs the program on those cases that are run in this way.
fn run_cases<R: Threads + Wait + Sync + AllocGlobal + Print>(
    rt: &R,
    cases: Vec<Case>,
    way: &Way,
) -> Result<Counts> {
    let mut counts = Counts { same: 0, differ: 0 };
    for case in cases {
        counts = count_case(rt, case, way, counts)?;
    }
    Ok(counts)
}

/// Prints the number of cases of a file.
fn tell_counts<R: Print>(rt: &R, name: &str, way: &Way, counts: Counts) -> Result<()> {
    let Counts { same, differ } = counts;
    match &way.workers {
        None => println!(rt; "{name}: {same} as expected, {differ} differ")?,
        Some(workers) => println!(rt; "{name} by {workers}: {same} as expected, {differ} differ")?,
    }
    Ok(())
}

/// Runs the program on the cases of a file.
fn run_file<R: Threads + Wait + Sync + AllocGlobal + Files + Print>(
    rt: &R,
    name: &str,
    way: &Way,
) -> Result<()> {
    let cases = cases_of(rt, name)?;
    let counts = run_cases(rt, cases, way)?;
    tell_counts(rt, name, way, counts)
}

/// Carries out a word.
fn obey<R: Threads + Wait + Sync + AllocGlobal + Files + Input + Print>(
    rt: &R,
    word: &str,
    plan: &Plan,
) -> Result<()> {
    match word {
        "--calls" => list_by_calls(rt, &plan.options),
        "--rows" => work_rows(rt),
        name => run_file(rt, name, &plan.way),
    }
}

/// Carries out each word, in order.
fn obey_all<R: Threads + Wait + Sync + AllocGlobal + Files + Input + Print>(
    rt: &R,
    words: &[String],
) -> Result<()> {
    let mut plan = Plan::new(rt.alloc()).context("reading the words")?;
    for word in words {
        if !plan.put(rt.alloc(), word.as_str())? {
            obey(rt, word.as_str(), &plan)?;
        }
    }
    Ok(())
}

/// Whether the words ask for the program itself, with each phase handed out.
fn are_handed_out(words: &[String]) -> bool {
    match words.first() {
        Some(first) => first.as_str() == "--handed-out",
        None => false,
    }
}

/// The words that the program was given.
fn words_of(rt: &HostRuntime) -> Result<Vec<String>> {
    let words = env::args(rt).context("reading the words")?.skip(1);
    Ok(words.collect(rt.alloc()).context("reading the words")?)
}

/// The words after the first.
fn after_first(alloc: Global, words: Vec<String>) -> Result<Vec<String>> {
    let words = words.into_iter().skip(1);
    Ok(words.collect(alloc).context("reading the words")?)
}

/// Carries out the words: as the program itself with each phase handed out, or by running cases.
fn main(rt: HostRuntime) -> Result<ExitCode> {
    let words = words_of(&rt)?;
    if !are_handed_out(words.as_slice()) {
        obey_all(&rt, words.as_slice())?;
        return Ok(ExitCode::SUCCESS);
    }
    let alloc = rt.alloc();
    let words = after_first(alloc, words)?;
    let hints = Hints::all_handed_out();
    let mut input = rt.reader();
    let mut out = rt.stdout();
    let mut err = rt.stderr();
    let status = session_with_hints(&rt, alloc, words, hints, &mut input, &mut out, &mut err);
    Ok(ExitCode::from(status))
}
