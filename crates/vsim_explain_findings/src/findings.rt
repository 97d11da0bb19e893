//! What is said of what is probably wrong.

use crate::clocks::find_clock;
use crate::drivers::find_driver;
use crate::inputs::find_undriven;
use crate::kinds::Finding;
use crate::sensitivity::find_lacked;
use crate::stops::shortest_delay;
use sim_text_tree::DesignFile;
use sim_text_tree::name::Name;
use std::alloc::{AllocError, Global};
use std::io::{self, Write};
use vsim_explain_json::{Kind, Report};
use vsim_explain_source::Source;

/// The end of a run.
#[derive(Clone, Copy)]
pub struct Outcome<'a> {
    /// The name of the top.
    pub top: &'a str,
    /// The stop time, in femtoseconds.
    pub stop: u64,
    /// A net of the top that is U at the end.
    pub unassigned: Option<&'a str>,
    /// A net of the top that is X at the end.
    pub conflicting: Option<&'a str>,
}

/// How findings are written.
#[derive(Clone, Copy)]
pub struct Form<'a> {
    /// Where memory comes from.
    pub alloc: Global,
    /// The text.
    pub source: Source<'a>,
    /// Whether as lines of JSON.
    pub is_json: bool,
}

/// Writes a warning in the words for people.
fn write_words<W: Write>(
    out: &mut W,
    form: Form<'_>,
    name: &Name,
    kind: Finding,
) -> io::Result<()> {
    let (file, place) = form.source.place(name.at());
    let (line, column) = (place.line, place.column);
    let (name, what) = (name.as_str(), kind.what());
    writeln!(out, "{file}:{line}:{column}: warning: {name} {what}")?;
    place.write_marked(out)?;
    out.write_all(kind.advice().as_bytes())
}

/// Writes a warning as a line of JSON.
fn write_line<W: Write>(out: &mut W, form: Form<'_>, name: &Name, kind: Finding) -> io::Result<()> {
    let place = form.source.place(name.at());
    let (name, what) = (name.as_str(), kind.what());
    let message = format!(in form.alloc; "{name} {what}")?;
    let report = Report {
        place: Some(place),
        kind: Kind::Warning,
        code: kind.code(),
        message: message.as_str(),
        advice: kind.advice().as_bytes(),
    };
    report.write(form.alloc, out)
}

/// Writes a warning about a name that was found.
fn write_found<W: Write>(
    out: &mut W,
    form: Form<'_>,
    found: Option<&Name>,
    kind: Finding,
) -> io::Result<()> {
    match found {
        Some(name) if form.is_json => write_line(out, form, name, kind),
        Some(name) => write_words(out, form, name, kind),
        None => Ok(()),
    }
}

/// Writes a warning about the end of the run.
fn write_end<W: Write>(out: &mut W, form: Form<'_>, message: &str) -> io::Result<()> {
    let advice = Finding::Stop.advice();
    if !form.is_json {
        return write!(out, "warning: {message}\n{advice}");
    }
    let report = Report {
        place: None,
        kind: Kind::Warning,
        code: Finding::Stop.code(),
        message,
        advice: advice.as_bytes(),
    };
    report.write(form.alloc, out)
}

/// Writes that a run ends before the shortest delay of its text.
fn write_stop<W: Write>(
    out: &mut W,
    form: Form<'_>,
    file: &DesignFile,
    stop: u64,
) -> io::Result<()> {
    let least = shortest_delay(file);
    if least == u64::MAX || least <= stop {
        return Ok(());
    }
    let message = format!(in form.alloc;
        "The run ends at {stop} fs, before the shortest delay, which is {least} fs."
    )?;
    write_end(out, form, message.as_str())
}

/// The names that are warned of.
#[derive(Clone, Copy)]
struct Causes<'a> {
    lacked: Option<&'a Name>,
    clock: Option<&'a Name>,
    undriven: Option<&'a Name>,
    unassigned: Option<&'a Name>,
    conflicting: Option<&'a Name>,
}

/// Where a net of the top, if there is one, gets its values.
fn driver<'a>(file: &'a DesignFile, top: &str, net: Option<&str>) -> Option<&'a Name> {
    find_driver(file, top, net?)
}

/// Where the net that is U gets its values, unless a clock or an input is the cause.
fn unassigned<'a>(
    file: &'a DesignFile,
    outcome: &Outcome<'_>,
    is_explained: bool,
) -> Option<&'a Name> {
    if is_explained {
        return None;
    }
    driver(file, outcome.top, outcome.unassigned)
}

/// Looks for what is wrong.
fn look_for<'a>(
    alloc: Global,
    file: &'a DesignFile,
    outcome: &Outcome<'_>,
) -> Result<Causes<'a>, AllocError> {
    let lacked = find_lacked(alloc, file)?;
    let clock = find_clock(file);
    let undriven = find_undriven(file, outcome.top);
    let is_explained = clock.is_some() || undriven.is_some();
    Ok(Causes {
        lacked,
        clock,
        undriven,
        unassigned: unassigned(file, outcome, is_explained),
        conflicting: driver(file, outcome.top, outcome.conflicting),
    })
}

/// Writes what is wrong in the text.
fn write_causes<W: Write>(out: &mut W, form: Form<'_>, causes: Causes<'_>) -> io::Result<()> {
    write_found(out, form, causes.lacked, Finding::Lacked)?;
    write_found(out, form, causes.clock, Finding::Clock)?;
    write_found(out, form, causes.undriven, Finding::Undriven)
}

/// Writes what is wrong with nets at the end of the run.
fn write_nets<W: Write>(out: &mut W, form: Form<'_>, causes: Causes<'_>) -> io::Result<()> {
    write_found(out, form, causes.unassigned, Finding::Unassigned)?;
    write_found(out, form, causes.conflicting, Finding::Conflicting)
}

/// Writes what is probably wrong in a design whose run has finished, each kind at most once.
pub fn write_findings<W: Write>(
    out: &mut W,
    form: Form<'_>,
    file: &DesignFile,
    outcome: &Outcome<'_>,
) -> io::Result<()> {
    let causes = look_for(form.alloc, file, outcome)?;
    write_causes(out, form, causes)?;
    write_nets(out, form, causes)?;
    write_stop(out, form, file, outcome.stop)
}
