//! The text of a netlist.

use crate::map::make_map;
use crate::undriven::note_undriven;
use std::alloc::{AllocError, Global};
use vsim_netlist_design::{Draft, Fault, Level, Netlist, Stimuli};
use vsim_netlist_gate_text::put_cells;
use vsim_netlist_signals::{NamedDelay, Signals, Statements, make_signals};
use vsim_netlist_stimulus_text::{frequent_levels, put_stimuli};
use vsim_netlist_uses::{
    Clocks, Uses, all_within, driven_nets, refuse_clashes, refuse_loops, wanted_nets,
};

/// What vsim takes.
#[derive(Clone, Copy)]
struct Limits {
    /// The most bytes of a text.
    bytes: usize,
    /// The most nets, processes and drivers of a design.
    objects: usize,
    /// What helps with a text that is too long.
    with_bytes: &'static str,
    /// What helps with a design that is too large.
    with_objects: &'static str,
}

/// What vsim takes without `--large`.
const USUAL: Limits = Limits {
    bytes: 1_048_576,
    objects: 65_536,
    with_bytes: "shorter stimuli, a smaller part of the design or --large help",
    with_objects: "a smaller part of the design or --large helps",
};

/// What it takes with `--large`.
const LARGE: Limits = Limits {
    bytes: 268_435_456,
    objects: 1_000_000,
    with_bytes: "shorter stimuli or a smaller part of the design help",
    with_objects: "a smaller part of the design helps",
};

/// The netlist, and how its text is to be written.
#[derive(Clone, Copy)]
pub(crate) struct Request<'a> {
    pub(crate) netlist: &'a Netlist,
    pub(crate) stimuli: Option<&'a Stimuli>,
    pub(crate) delays: &'a [NamedDelay],
    /// The hold time of inputs other than clocks, in femtoseconds.
    pub(crate) hold: u64,
    /// Whether the text is for `vsim --large`.
    pub(crate) is_large: bool,
}

/// A text, the name of its entity, its map, notes about what nothing drives and about delays without
/// effect, and the number of clocks that gates or registers drive.
pub(crate) struct Written {
    pub(crate) text: String,
    pub(crate) entity: String,
    pub(crate) map: String,
    pub(crate) undriven: String,
    pub(crate) passed: String,
    pub(crate) derived_clocks: usize,
}

/// Written by hand so that code which drops it needs no proof about its contents.
impl Drop for Written {
    fn drop(self) {
        let Written {
            text,
            entity,
            map,
            undriven,
            passed,
            derived_clocks: _,
        } = self;
        drop(text);
        drop(entity);
        drop(map);
        drop(undriven);
        drop(passed);
    }
}

/// The refusal of a number above a limit of vsim.
fn beyond(alloc: Global, count: usize, most: usize, what: &str, advice: &str) -> Fault {
    let mut text = Draft::new(alloc);
    text.push_shown(&count);
    text.push_all(&[" ", what, ", of which vsim takes "]);
    text.push_shown(&most);
    text.push_all(&[": ", advice]);
    Fault::of_draft(text)
}

/// Refuses a number above a limit of vsim.
fn demand(alloc: Global, count: usize, most: usize, what: &str, advice: &str) -> Result<(), Fault> {
    if most < count {
        return Err(beyond(alloc, count, most, what, advice));
    }
    Ok(())
}

/// Refuses a text that exceeds a limit of vsim.
fn demand_limits(statements: &Statements, bytes: usize, limits: Limits) -> Result<(), Fault> {
    let alloc = statements.alloc;
    let (most, advice) = (limits.objects, limits.with_objects);
    demand(alloc, bytes, limits.bytes, "bytes", limits.with_bytes)?;
    demand(alloc, statements.signals.count(), most, "nets", advice)?;
    let processes = statements.processes.max(statements.drivers);
    demand(alloc, processes, most, "processes or drivers", advice)
}

/// Adds the part before the statements.
fn push_head(text: &mut Draft, signals: &Signals) {
    let head = "library ieee;\nuse ieee.std_logic_1164.all;\nentity ";
    let middle = " is end;\narchitecture netlist of ";
    let name = signals.entity.as_str();
    text.push_all(&[head, name, middle, name, " is\n"]);
    signals.push_declarations(text);
    text.push("begin\n");
}

/// The whole text.
fn whole(statements: &Statements) -> Result<String, AllocError> {
    let mut text = Draft::new(statements.alloc);
    text.push_draft(&statements.entities);
    push_head(&mut text, &statements.signals);
    text.push_draft(&statements.body);
    text.push("end;\n");
    if !statements.signals.names.is_whole() {
        text.lack();
    }
    text.finish()
}

/// The whole text, within the limits.
fn limited(statements: &Statements, is_large: bool) -> Result<String, Fault> {
    let limits = if is_large { LARGE } else { USUAL };
    let text = whole(statements)?;
    demand_limits(statements, text.len(), limits)?;
    Ok(text)
}

/// The time at which stimuli end; 0 without stimuli.
fn end(stimuli: Option<&Stimuli>) -> u64 {
    match stimuli {
        Some(stimuli) => stimuli.end,
        None => 0,
    }
}

/// The map, and the note about what nothing drives.
fn map_and_note(
    statements: &Statements,
    request: &Request<'_>,
    uses: &Uses,
) -> Result<(String, String), AllocError> {
    let (alloc, netlist) = (statements.alloc, request.netlist);
    let driven = driven_nets(alloc, netlist, uses)?;
    let (driven, end) = (driven.as_slice(), end(request.stimuli));
    let map = make_map(alloc, netlist, &statements.signals, driven, end)?;
    let note = note_undriven(alloc, netlist, driven)?;
    Ok((map, note))
}

/// Adds the map, the note about what nothing drives, and the name of the entity.
fn fill(
    written: &mut Written,
    statements: &Statements,
    request: &Request<'_>,
    uses: &Uses,
) -> Result<(), AllocError> {
    let (map, undriven) = map_and_note(statements, request, uses)?;
    written.map = map;
    written.undriven = undriven;
    written.entity = String::from_str(statements.alloc, statements.signals.entity.as_str())?;
    Ok(())
}

/// The text alone.
fn with_text(alloc: Global, text: String, derived_clocks: usize) -> Written {
    Written {
        text,
        entity: String::new(alloc),
        map: String::new(alloc),
        undriven: String::new(alloc),
        passed: String::new(alloc),
        derived_clocks,
    }
}

/// The finished text and map.
fn finished(
    statements: &Statements,
    request: &Request<'_>,
    uses: &Uses,
    derived_clocks: usize,
) -> Result<Written, Fault> {
    let text = limited(statements, request.is_large)?;
    let mut written = with_text(statements.alloc, text, derived_clocks);
    fill(&mut written, statements, request, uses)?;
    Ok(written)
}

/// The uses of the nets of a netlist without a loop of wires, and without a net that two inputs or
/// cells drive always.
fn checked_uses(alloc: Global, netlist: &Netlist) -> Result<Uses, Fault> {
    refuse_clashes(alloc, netlist)?;
    let uses = Uses::of(alloc, netlist, false)?;
    refuse_loops(alloc, netlist, &uses)?;
    Ok(uses)
}

/// The uses of the nets, and the clocks. Gates may be nested in registers if no clock comes late.
fn uses(alloc: Global, request: &Request<'_>) -> Result<(Uses, Clocks), Fault> {
    let first = checked_uses(alloc, request.netlist)?;
    let clocks = Clocks::of(alloc, request.netlist, &first)?;
    if clocks.derived > 0 {
        return Ok((first, clocks));
    }
    Ok((Uses::of(alloc, request.netlist, true)?, clocks))
}

/// The levels for which stimuli name a signal.
fn named_levels(alloc: Global, request: &Request<'_>) -> Result<Vec<Level>, AllocError> {
    match request.stimuli {
        Some(stimuli) => frequent_levels(alloc, request.netlist, stimuli),
        None => Ok(Vec::new(alloc)),
    }
}

/// Makes nets unknown at first, unless the source says what they are.
fn begin_unknown(signals: &mut Signals, netlist: &Netlist) {
    for (place, net) in netlist.nets.iter().enumerate() {
        if net.initial.is_none() {
            signals.begin(place, Level::Unknown);
        }
    }
}

/// The signals of the netlist, with names for those that need one.
fn signals(
    alloc: Global,
    request: &Request<'_>,
    uses: &Uses,
    within: &[bool],
) -> Result<Signals, AllocError> {
    let levels = named_levels(alloc, request)?;
    let wanted = wanted_nets(alloc, uses, within)?;
    let (levels, wanted) = (levels.as_slice(), wanted.as_slice());
    let mut signals = make_signals(alloc, request.netlist, levels, wanted);
    if request.netlist.has_paths {
        begin_unknown(&mut signals, request.netlist);
    }
    Ok(signals)
}

/// No statements, with the signals of the netlist.
fn no_statements(
    alloc: Global,
    request: &Request<'_>,
    uses: &Uses,
    within: &[bool],
) -> Result<Statements, AllocError> {
    let signals = signals(alloc, request, uses, within)?;
    Ok(Statements::new(alloc, signals))
}

/// Adds the statements of the stimuli, if there are any.
fn put_inputs(
    statements: &mut Statements,
    request: &Request<'_>,
    clocks: &[bool],
) -> Result<(), AllocError> {
    match request.stimuli {
        Some(stimuli) => put_stimuli(statements, request.netlist, stimuli, clocks, request.hold),
        None => Ok(()),
    }
}

/// Adds the statements of the cells and of the stimuli. Returns the text and the map.
fn filled(
    statements: &mut Statements,
    request: &Request<'_>,
    uses: &Uses,
    clocks: &Clocks,
    within: &[bool],
) -> Result<Written, Fault> {
    put_cells(statements, request.netlist, request.delays, uses, within)?;
    put_inputs(statements, request, clocks.is_before.as_slice())?;
    finished(statements, request, uses, clocks.derived)
}

/// Writes the text of a netlist, given the uses of its nets.
fn write_with(
    alloc: Global,
    request: &Request<'_>,
    uses: &Uses,
    clocks: &Clocks,
) -> Result<Written, Fault> {
    let has_delays = request.netlist.has_paths || !request.delays.is_empty();
    let within = all_within(alloc, request.netlist, uses, has_delays)?;
    let mut statements = no_statements(alloc, request, uses, within.as_slice())?;
    filled(&mut statements, request, uses, clocks, within.as_slice())
}

/// Writes the text of a netlist.
pub(crate) fn write_text(alloc: Global, request: &Request<'_>) -> Result<Written, Fault> {
    let (uses, clocks) = uses(alloc, request)?;
    write_with(alloc, request, &uses, &clocks)
}
