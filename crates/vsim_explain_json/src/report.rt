//! A refusal or warning, and its line.

use serde::Serialize;
use serde_json::to_string;
use std::alloc::{AllocError, Global};
use std::fmt::Display;
use std::io::{self, Write};
use vsim_explain_source::Place;

/// Whether what is reported refuses a design, or is only probably wrong.
#[derive(Clone, Copy)]
pub enum Kind {
    Error,
    Warning,
}

/// A refusal or warning.
#[derive(Clone, Copy)]
pub struct Report<'a> {
    /// The name of a file, and the place in it that the report is about.
    pub place: Option<(&'a str, Place<'a>)>,
    pub kind: Kind,
    /// The name of this kind of fault, which is the same for all faults of this kind.
    pub code: &'a str,
    /// A line that says what is wrong.
    pub message: &'a str,
    /// What it means and how to mend it, in lines.
    pub advice: &'a [u8],
}

/// The members of the object, in their order.
#[derive(Drop, Serialize)]
struct Object<'a> {
    file: Option<&'a str>,
    line: Option<usize>,
    column: Option<usize>,
    kind: &'a str,
    code: &'a str,
    message: &'a str,
    advice: &'a str,
}

/// The line of an object.
fn line_of(alloc: Global, object: &Object<'_>) -> Result<String, AllocError> {
    let Ok(mut line) = to_string(alloc, object) else {
        return Err(AllocError);
    };
    line.push_str("\n")?;
    Ok(line)
}

impl Report<'_> {
    /// The object with this advice.
    fn object<'a>(&'a self, advice: &'a str) -> Object<'a> {
        let (file, line, column) = match self.place {
            Some((file, place)) => (Some(file), Some(place.line), Some(place.column)),
            None => (None, None, None),
        };
        let kind = match self.kind {
            Kind::Error => "error",
            Kind::Warning => "warning",
        };
        Object {
            file,
            line,
            column,
            kind,
            code: self.code,
            message: self.message,
            advice,
        }
    }

    /// The line of a report.
    pub fn to_line(&self, alloc: Global) -> Result<String, AllocError> {
        let advice = String::from_utf8_lossy(alloc, self.advice.trim_ascii_end())?;
        line_of(alloc, &self.object(advice.as_str()))
    }

    /// Writes the line of a report.
    pub fn write<W: Write>(&self, alloc: Global, out: &mut W) -> io::Result<()> {
        let line = self.to_line(alloc)?;
        out.write_all(line.as_str().as_bytes())
    }
}

/// The name at the start of a refusal, as in `Syntax at 77`.
fn code_of(refusal: &str) -> &str {
    match refusal.split_once(' ') {
        Some((code, _)) => code,
        None => refusal,
    }
}

/// Writes the line of a refusal, whose text is that of `vsim`.
pub fn write_refusal<W: Write, F: Display>(
    alloc: Global,
    out: &mut W,
    place: Option<(&str, Place<'_>)>,
    refusal: &F,
    advice: &[u8],
) -> io::Result<()> {
    let message = refusal.to_string(alloc)?;
    let report = Report {
        place,
        kind: Kind::Error,
        code: code_of(message.as_str()),
        message: message.as_str(),
        advice,
    };
    report.write(alloc, out)
}
