//! The explanation of a run.

use crate::changes::write_totals;
use crate::cut_short::{write_all_cycles, write_cut_short};
use anyhow::{Result, bail};
use sim_flat_design::Design;
use sim_logic::Logic;
use sim_run_options::Options;
use sim_run_session::write_run;
use sim_store::{Entry, Look, Step, WaveStore};
use sim_text::parse_within;
use std::alloc::Global;
use std::io::{self, Write};
use vsim_explain_findings::{Form, Outcome, write_findings};
use vsim_explain_request::Request;
use vsim_explain_source::Source;

/// The longest sequence of delta cycles, and its time.
#[derive(Clone, Copy)]
struct Deepest {
    delta: u64,
    time: u64,
}

/// The longest sequence of delta cycles of a run; the first of several.
fn longest_sequence(store: &WaveStore) -> Deepest {
    let (times, entries) = store.history().lists();
    let mut later = times.iter();
    let mut now = Deepest { delta: 0, time: 0 };
    let mut found = now;
    for entry in entries {
        match entry {
            Entry::Change(_, _) => {}
            Entry::Delta(_, _) | Entry::QuietDelta => now.delta = now.delta.saturating_add(1),
            Entry::Time(_, _) | Entry::QuietTime => {
                let time = later.next().copied().unwrap_or(now.time);
                now = Deepest { delta: 0, time };
            }
        }
        if now.delta > found.delta {
            found = now;
        }
    }
    found
}

/// Writes the length and time of the longest sequence of delta cycles.
fn write_deepest<W: Write>(out: &mut W, store: &WaveStore) -> io::Result<()> {
    let Deepest { delta, time } = longest_sequence(store);
    if delta == 0 {
        return out.write_all(b"There are no delta cycles.\n");
    }
    writeln!(
        out,
        "The longest sequence of delta cycles is {delta}, at {time} fs."
    )
}

/// Writes the numbers of cycles and events of a run.
fn write_counts<W: Write>(out: &mut W, look: Look) -> io::Result<()> {
    let (cycles, events) = (look.records.saturating_sub(1), look.events);
    writeln!(
        out,
        "The run finished after {cycles} cycles with {events} events."
    )
}

/// Writes the nets that changed most.
fn write_nets<W: Write>(alloc: Global, out: &mut W, store: &WaveStore) -> Result<()> {
    if store.look().events == 0 {
        out.write_all(b"No net changes its value.\n")?;
        return Ok(());
    }
    out.write_all(b"The nets that change most, and how often:\n")?;
    write_totals(alloc, out, store)
}

/// Writes the summary of a finished run, unless only what is wrong is wanted.
fn write_finished<W: Write>(
    alloc: Global,
    out: &mut W,
    request: &Request,
    store: &WaveStore,
) -> Result<()> {
    if request.is_json {
        return Ok(());
    }
    write_counts(out, store.look())?;
    write_deepest(out, store)?;
    write_nets(alloc, out, store)
}

/// The store of a design at the beginning of its run.
fn begun(alloc: Global, design: Design, options: &Options) -> Result<WaveStore> {
    match WaveStore::new(alloc, design, options.stop, options.limit) {
        Ok(store) => Ok(store),
        Err(_) => bail!("out of memory"),
    }
}

/// The store at the end of its run.
fn ended(alloc: Global, store: WaveStore) -> Result<WaveStore> {
    match store.run_to_end(alloc) {
        Ok(store) => Ok(store),
        Err(_) => bail!("out of memory"),
    }
}

/// Writes the listing of a run that has ended, as far as it goes.
fn write_listing<L: Write>(alloc: Global, listing: &mut L, store: &WaveStore) -> Result<()> {
    if store.ended() != Some(Step::Finished) {
        return write_all_cycles(alloc, listing, store);
    }
    write_run(alloc, store, listing)?;
    Ok(())
}

/// The first net of the top that has a value at the end of its run.
fn net_with(store: &WaveStore, value: Logic) -> Option<&str> {
    for (net, it) in store.design().nets().iter().enumerate() {
        let (path, name) = it.name_pieces();
        if path.is_empty() && store.value(net) == Some(value) {
            return Some(name);
        }
    }
    None
}

/// Writes what is probably wrong in a design whose run has finished.
fn write_doubts<W: Write>(
    alloc: Global,
    words: &mut W,
    source: Source<'_>,
    request: &Request,
    store: &WaveStore,
) -> Result<()> {
    let Ok(file) = parse_within(alloc, source.text, source.text.len()) else {
        bail!("out of memory");
    };
    let outcome = Outcome {
        top: request.options.top.as_str(),
        stop: request.options.stop,
        unassigned: net_with(store, Logic::U),
        conflicting: net_with(store, Logic::X),
    };
    let form = Form {
        alloc,
        source,
        is_json: request.is_json,
    };
    write_findings(words, form, &file, &outcome)?;
    Ok(())
}

/// Writes the explanation of a run that has ended, and returns the exit status.
fn write_words<W: Write>(
    alloc: Global,
    source: Source<'_>,
    store: &WaveStore,
    request: &Request,
    words: &mut W,
) -> Result<u8> {
    if store.ended() != Some(Step::Finished) {
        write_cut_short(alloc, words, request, store)?;
        return Ok(3);
    }
    write_finished(alloc, words, request, store)?;
    write_doubts(alloc, words, source, request, store)?;
    Ok(0)
}

/// Runs a design, writes its listing, if it is wanted, and the explanation of its run, and returns
/// the exit status.
pub fn tell_run<L: Write, W: Write>(
    alloc: Global,
    source: Source<'_>,
    design: Design,
    request: &Request,
    listing: &mut L,
    words: &mut W,
) -> Result<u8> {
    let store = begun(alloc, design, &request.options)?;
    let store = ended(alloc, store)?;
    if request.listing {
        write_listing(alloc, listing, &store)?;
    }
    write_words(alloc, source, &store, request, words)
}
