//! The lines that tell of violations.

use std::alloc::{AllocError, Global};
use std::io::{self, Write};
use vsim_check_plan::Said;
use vsim_check_rules::Violation;
use vsim_netlist_design::{CheckList, Delays, Draft};

/// The keywords of checks, in the order in which the last line has them.
static KEYWORDS: [&str; 5] = ["SETUP", "HOLD", "RECOVERY", "REMOVAL", "WIDTH"];

/// The number of violations of the checks of a keyword.
#[derive(Clone, Copy)]
struct Count {
    keyword: &'static str,
    number: u64,
}

/// Violations, as they are written.
pub(crate) struct Report<'a, W: Write> {
    alloc: Global,
    out: W,
    said: Said<'a>,
    counts: Vec<Count>,
}

/// Written by hand so that code which drops it needs no proof about its contents.
impl<W: Write + Drop> Drop for Report<'_, W> {
    fn drop(self) {
        let Report {
            alloc: _,
            out,
            said: _,
            counts,
        } = self;
        drop(out);
        drop(counts);
    }
}

/// No violations of the checks of each keyword.
fn no_counts(alloc: Global) -> Result<Vec<Count>, AllocError> {
    let mut counts = Vec::new(alloc);
    for keyword in KEYWORDS.iter() {
        counts.push(Count {
            keyword: *keyword,
            number: 0,
        })?;
    }
    Ok(counts)
}

/// Counts a violation.
fn add_one(counts: &mut Vec<Count>, keyword: &str) {
    for each in counts.iter_mut() {
        if each.keyword == keyword {
            each.number = each.number.saturating_add(1);
        }
    }
}

impl<'a, W: Write> Report<'a, W> {
    /// Nothing was written.
    pub(crate) fn new(alloc: Global, out: W, said: Said<'a>) -> Result<Report<'a, W>, AllocError>
    where
        W: Drop,
    {
        let counts = no_counts(alloc)?;
        Ok(Report {
            alloc,
            out,
            said,
            counts,
        })
    }

    /// Writes a text.
    fn put(&mut self, text: Draft) -> io::Result<()> {
        let text = text.finish()?;
        self.out.write_all(text.as_str().as_bytes())
    }

    /// Writes the violations of a time, in femtoseconds.
    pub(crate) fn write(&mut self, now: u64, found: &[Violation]) -> io::Result<()> {
        for violation in found {
            add_one(&mut self.counts, self.said.keyword(*violation));
            let line = self.said.line(self.alloc, now, *violation);
            self.put(line)?;
        }
        Ok(())
    }

    /// The number of violations.
    pub(crate) fn number(&self) -> u64 {
        let mut number = 0u64;
        for each in self.counts.iter() {
            number = number.saturating_add(each.number);
        }
        number
    }

    /// The last line: the numbers of checks and of violations.
    fn summary(&self) -> Draft {
        let mut text = Draft::of(self.alloc, "checks ");
        text.push_shown(&self.said.labels.len());
        text.push(", violations ");
        text.push_shown(&self.number());
        let mut before = ": ";
        for each in self.counts.iter() {
            if each.number > 0 {
                text.push_all(&[before, each.keyword, " "]);
                text.push_shown(&each.number);
                before = ", ";
            }
        }
        text.push("\n");
        text
    }

    /// Writes the last line.
    pub(crate) fn end(&mut self) -> io::Result<()> {
        let summary = self.summary();
        self.put(summary)
    }

    /// Writes what was not written yet.
    pub(crate) fn flush(&mut self) -> io::Result<()> {
        self.out.flush()
    }
}

/// Adds what a file has that is not checked.
fn push_left_out(text: &mut Draft, alloc: Global, delays: &Delays) -> Result<(), AllocError> {
    let mut before = "vsim_check: the SDF file: not checked: ";
    let left_out = delays.left_out(alloc)?;
    for passed in left_out.iter() {
        text.push_all(&[before, passed.name, " "]);
        text.push_shown(&passed.count);
        before = ", ";
    }
    if !left_out.is_empty() {
        text.push("\n");
    }
    Ok(())
}

/// A note about what a file has that is not checked; empty if there is nothing.
pub(crate) fn note(
    alloc: Global,
    delays: &Delays,
    checks: &CheckList,
) -> Result<String, AllocError> {
    let mut text = Draft::new(alloc);
    push_left_out(&mut text, alloc, delays)?;
    if checks.negative > 0 {
        text.push("vsim_check: the SDF file: negative limits, which count as 0: ");
        text.push_shown(&checks.negative);
        text.push("\n");
    }
    text.finish()
}
