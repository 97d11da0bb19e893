//! Rows of calls that are made alone, with results worked out by hand: of a token, a driver, a
//! queue, claims, a code, a process, a store.

use crate::calls::claims::are_claimed;
use crate::calls::designs::{are_read, has_drivers, has_long_names, has_nets};
use crate::calls::drivers::{are_rejected, is_pulse};
use crate::calls::execution::code_of;
use crate::calls::job::is_toggled;
use crate::calls::queue::is_queue;
use crate::calls::stores::{
    refuses_jobs, refuses_late_stops, refuses_more, refuses_results, refuses_strangers,
    tells_its_end,
};
use anyhow::{Result, bail};
use sim_flat_design::Process;
use sim_run::{Design, Options, RunError, elaborate};
use sim_text_tokens::{Kind, TextError, Token, tokens};
use std::alloc::{AllocError, Global};
use std::thread::Threads;

/// A flip-flop that toggles at each rising edge.
pub const TOGGLE: &str =
    "entity t is end;architecture a of t is signal clk:std_logic:='0'; signal q:std_logic;begin \
clk <= not clk after 5 ns; process (clk) variable v:std_logic:='0'; begin if rising_edge(clk) then v := not v; q <= v; end if; \
end process; end;";

/// The rows, named after what they call.
#[derive(Clone, Copy)]
enum Row {
    Tokens,
    Pulse,
    Rejections,
    Queue,
    Claims,
    Code,
    Process,
    Results,
    Strangers,
    End,
    Jobs,
    More,
    LateStops,
    Words,
    Nets,
    LongNames,
    Drivers,
}

/// Each row with its name.
static ROWS: [(Row, &str); 17] = [
    (Row::Tokens, "tokens"),
    (Row::Pulse, "pulse"),
    (Row::Rejections, "rejections"),
    (Row::Queue, "queue"),
    (Row::Claims, "claims"),
    (Row::Code, "code"),
    (Row::Process, "process"),
    (Row::Results, "results"),
    (Row::Strangers, "strangers"),
    (Row::End, "end"),
    (Row::Jobs, "jobs"),
    (Row::More, "more"),
    (Row::LateStops, "late stops"),
    (Row::Words, "words"),
    (Row::Nets, "nets"),
    (Row::LongNames, "long names"),
    (Row::Drivers, "drivers"),
];

/// Whether a token has this kind, text and place.
fn is_token(token: &Token, kind: Kind, text: &[u8], start: usize, end: usize) -> bool {
    token.kind() == kind && token.text() == text && token.start() == start && token.end() == end
}

/// Whether these are the tokens of `s<='1';`.
fn are_tokens(found: &[Token]) -> bool {
    match found {
        [name, assign, literal, semicolon] => {
            is_token(name, Kind::Word, b"s", 0, 1)
                && is_token(assign, Kind::SignalAssign, b"", 1, 3)
                && is_token(literal, Kind::Literal, b"1", 3, 6)
                && is_token(semicolon, Kind::Semicolon, b"", 6, 7)
        }
        _ => false,
    }
}

/// Whether a text is cut into its tokens.
fn has_tokens(alloc: Global) -> Result<bool, TextError> {
    let found = tokens(alloc, b"s<='1';")?;
    Ok(are_tokens(found.as_slice()))
}

/// The design of the flip-flop.
fn toggle(alloc: Global, options: &Options) -> Result<Design, RunError> {
    elaborate(alloc, TOGGLE.as_bytes(), options)
}

/// Whether the code of a process has an operation for each of its three expressions.
fn is_coded(alloc: Global, process: Option<&Process>) -> Result<bool, AllocError> {
    match process {
        None => Ok(false),
        Some(process) => Ok(code_of(alloc, process)?.ops() >= 3),
    }
}

/// Whether the code of the flip-flop is made.
fn has_code(alloc: Global, options: &Options) -> Result<bool, RunError> {
    let design = toggle(alloc, options)?;
    Ok(is_coded(alloc, design.processes().get(1))?)
}

/// Whether the flip-flop, and a copy of it, are executed.
fn is_executed(alloc: Global, options: &Options) -> Result<bool, RunError> {
    let design = toggle(alloc, options)?;
    Ok(is_toggled(alloc, design.processes().get(1))?)
}

/// The same, with lack of memory as the refusal of a run.
fn of_run(found: Result<bool, AllocError>) -> Result<bool, RunError> {
    Ok(found?)
}

/// Whether a row has the result that was worked out.
fn is_as_worked<R: Threads + Sync>(
    rt: &R,
    alloc: Global,
    options: &Options,
    row: Row,
) -> Result<bool, RunError> {
    match row {
        Row::Tokens => Ok(has_tokens(alloc)?),
        Row::Pulse => of_run(is_pulse(alloc)),
        Row::Rejections => of_run(are_rejected(alloc)),
        Row::Queue => of_run(is_queue(alloc)),
        Row::Claims => of_run(are_claimed(rt, alloc)),
        Row::Code => has_code(alloc, options),
        Row::Process => is_executed(alloc, options),
        Row::Results => refuses_results(alloc, options),
        Row::Strangers => refuses_strangers(alloc, options),
        Row::End => tells_its_end(alloc, options),
        Row::Jobs => refuses_jobs(alloc, options),
        Row::More => refuses_more(alloc, options),
        Row::LateStops => refuses_late_stops(alloc, options),
        Row::Words => are_read(alloc),
        Row::Nets => has_nets(alloc, options),
        Row::LongNames => has_long_names(alloc, options),
        Row::Drivers => has_drivers(alloc, options),
    }
}

/// Whether a row has the result that was worked out. If it finds no memory, this is printed, and it
/// is made once more.
fn is_right<R: Threads + Sync + AllocGlobal + Print>(
    rt: &R,
    options: &Options,
    name: &str,
    row: Row,
) -> Result<bool> {
    match is_as_worked(rt, rt.alloc(), options, row) {
        Ok(right) => Ok(right),
        Err(fault) => {
            println!(rt; "! {name}: {fault:?}")?;
            Ok(is_as_worked(rt, rt.alloc(), options, row)?)
        }
    }
}

/// Makes each row, and prints the number of rows.
pub fn work_each<R: Threads + Sync + AllocGlobal + Print>(rt: &R, options: &Options) -> Result<()> {
    for (row, name) in ROWS.iter() {
        if !is_right(rt, options, name, *row)? {
            bail!("{name}");
        }
    }
    println!(rt; "{} rows as expected", ROWS.len())?;
    Ok(())
}
