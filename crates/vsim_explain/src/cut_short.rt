//! The explanation of a run that is cut short.

use crate::changes::write_changes;
use crate::cycles::write_cycles;
use anyhow::{Result, bail};
use sim_logic::LATEST;
use sim_run_options::Options;
use sim_run_session::RunError;
use sim_store::{Record, Step, WaveStore};
use std::alloc::Global;
use std::io::{self, Write};
use vsim_explain_json::write_refusal;
use vsim_explain_request::Request;

/// The number of last cycles in which changes are counted.
const COUNTED: usize = 100;

/// The number of last cycles that are shown.
const SHOWN: usize = 6;

/// The number of changes that are shown for each of them.
const MOST_SHOWN: usize = 5;

/// Fewer cycles at one time than this are nothing unusual.
const FEW: u64 = 10;

/// This many cycles at one time hardly ever end.
const MANY: u64 = 100;

/// The explanation of a time that does not advance.
const CIRCLE: &[u8] = b"\
    Time does not advance: signals drive one another in a loop without delay. Break the\n\
    loop, or give one of its assignments a delay. See Time and cycles in docs/LANGUAGE.md.\n";

/// The explanation of a limit that is too small to say anything.
const EARLY: &[u8] = b"\
    So few cycles do not show whether time advances. Set a larger --limit.\n\
    See Time and cycles in docs/LANGUAGE.md.\n";

/// The explanation of a run without a stop time.
const NO_STOP: &[u8] = b"\
    Time advances, and there is no --stop: a free-running clock needs one, such as\n\
    --stop 1000000 for 1 ns. Otherwise set a larger --limit.\n\
    See Calling the program in docs/LANGUAGE.md.\n";

/// The explanation of a run that did not reach its stop time.
const STOP_NOT_REACHED: &[u8] = b"\
    Time advances, but has not reached --stop. Set an earlier --stop or a larger --limit,\n\
    which is 10000 by default and at most 1000000.\n\
    See Calling the program in docs/LANGUAGE.md.\n";

/// The explanation of a postponed process that makes a delta cycle follow.
const POSTPONED_DELTA: &[u8] = b"\
    A postponed process or assignment assigns a signal without a delay. It is executed in\n\
    the last cycle at its time, and must not cause another: give the assignment a delay.\n\
    See Postponed processes in docs/LANGUAGE.md.\n";

/// Why a run came no further.
fn meaning(options: &Options, cycles: u64, delta: u64) -> &'static [u8] {
    let most_are_here = delta >= cycles.saturating_sub(delta);
    if delta >= MANY || (delta >= FEW && most_are_here) {
        CIRCLE
    } else if most_are_here {
        EARLY
    } else if options.stop == LATEST {
        NO_STOP
    } else {
        STOP_NOT_REACHED
    }
}

/// The refusal of a run that is cut short.
fn refusal_of(store: &WaveStore) -> RunError {
    match store.ended() {
        Some(Step::PostponedDelta) => RunError::PostponedDelta,
        _ => RunError::CycleLimit {
            limit: store.limit(),
        },
    }
}

/// Writes how far a run came, and what that means.
fn write_look<W: Write>(out: &mut W, options: &Options, store: &WaveStore) -> io::Result<()> {
    let look = store.look();
    let (time, delta, events) = (look.time, look.delta, look.events);
    writeln!(
        out,
        "The run reached {time} fs, delta cycle {delta}, with {events} events."
    )?;
    let cycles = look.records.saturating_sub(1) as u64;
    match refusal_of(store) {
        RunError::PostponedDelta => out.write_all(POSTPONED_DELTA),
        _ => out.write_all(meaning(options, cycles, delta)),
    }
}

/// The last records of a store, at most `most`.
fn last_records(alloc: Global, store: &WaveStore, most: usize) -> Result<Vec<Record>> {
    let first = store.look().records.saturating_sub(most);
    match store.records_since(alloc, first) {
        Ok(records) => Ok(records),
        Err(_) => bail!("out of memory"),
    }
}

/// Writes the nets that change most in the last cycles.
fn write_last_changes<W: Write>(alloc: Global, out: &mut W, store: &WaveStore) -> Result<()> {
    out.write_all(b"The nets that change most in the last 100 cycles, and how often:\n")?;
    let records = last_records(alloc, store, COUNTED + 1)?;
    write_changes(alloc, out, store.design(), records.as_slice())
}

/// Writes the last cycles.
fn write_last_cycles<W: Write>(alloc: Global, out: &mut W, store: &WaveStore) -> Result<()> {
    out.write_all(b"The last cycles of the listing:\n")?;
    let records = last_records(alloc, store, SHOWN)?;
    write_cycles(out, store.design(), records.as_slice(), MOST_SHOWN)?;
    Ok(())
}

/// Writes all cycles.
pub fn write_all_cycles<W: Write>(alloc: Global, out: &mut W, store: &WaveStore) -> Result<()> {
    let records = last_records(alloc, store, usize::MAX)?;
    write_cycles(out, store.design(), records.as_slice(), usize::MAX)?;
    Ok(())
}

/// Writes how far a run came, and the nets that change most.
fn write_state<W: Write>(
    alloc: Global,
    out: &mut W,
    options: &Options,
    store: &WaveStore,
) -> Result<()> {
    write_look(out, options, store)?;
    write_last_changes(alloc, out, store)
}

/// Writes how far a run came, and the last changes of its nets unless the listing is written.
fn write_advice<W: Write>(
    alloc: Global,
    out: &mut W,
    request: &Request,
    store: &WaveStore,
) -> Result<()> {
    write_state(alloc, out, &request.options, store)?;
    if request.listing {
        return Ok(());
    }
    write_last_cycles(alloc, out, store)
}

/// Writes the line of JSON of a run that is cut short.
fn write_line<W: Write>(
    alloc: Global,
    out: &mut W,
    request: &Request,
    store: &WaveStore,
) -> Result<()> {
    let mut advice = Vec::new(alloc);
    write_advice(alloc, &mut advice, request, store)?;
    write_refusal(alloc, out, None, &refusal_of(store), advice.as_slice())?;
    Ok(())
}

/// Writes that a run is cut short, and how far it came.
pub fn write_cut_short<W: Write>(
    alloc: Global,
    out: &mut W,
    request: &Request,
    store: &WaveStore,
) -> Result<()> {
    if request.is_json {
        return write_line(alloc, out, request, store);
    }
    let refusal = refusal_of(store);
    writeln!(out, "{refusal}")?;
    write_advice(alloc, out, request, store)
}
