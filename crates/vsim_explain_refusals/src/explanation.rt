//! Explanations of refusals.

use std::fmt::Display;
use std::io::{self, Write};
use vsim_explain_source::tokens::token_at;
use vsim_explain_source::{Place, Source};

/// The explanation of a refusal.
#[derive(Clone, Copy)]
pub struct Explanation {
    /// The offset of the place of the fault in bytes, if it has one.
    at: Option<usize>,
    /// Whether the token at that place is named.
    is_at_token: bool,
    /// The meaning of such a fault at its place, and how to mend it.
    text: &'static str,
    /// A remark on this fault, where more is known of it.
    hint: Option<&'static str>,
}

/// An explanation of a fault at a place.
pub(crate) fn at(place: usize, text: &'static str) -> Explanation {
    Explanation {
        at: Some(place),
        is_at_token: false,
        text,
        hint: None,
    }
}

/// An explanation of a fault at a token that cannot follow.
pub(crate) fn at_token(place: usize, text: &'static str) -> Explanation {
    Explanation {
        at: Some(place),
        is_at_token: true,
        text,
        hint: None,
    }
}

/// An explanation of a refusal without a place.
pub fn nowhere(text: &'static str) -> Explanation {
    Explanation {
        at: None,
        is_at_token: false,
        text,
        hint: None,
    }
}

/// Writes the token that cannot follow.
fn write_found<W: Write>(out: &mut W, found: &[u8]) -> io::Result<()> {
    if found.is_empty() {
        return out.write_all(b"The text ends here, but the design is not complete.\n");
    }
    out.write_all(b"Unexpected token: ")?;
    out.write_all(found)?;
    out.write_all(b"\n")
}

impl Explanation {
    /// The same explanation with a hint.
    pub(crate) fn with(self, hint: Option<&'static str>) -> Explanation {
        Explanation {
            at: self.at,
            is_at_token: self.is_at_token,
            text: self.text,
            hint,
        }
    }

    /// The offset of the place of the fault in bytes, if it has one.
    pub fn at(&self) -> Option<usize> {
        self.at
    }

    /// The file of the fault and its place in that file, if it has one.
    pub fn place<'a>(&self, source: Source<'a>) -> Option<(&'a str, Place<'a>)> {
        match self.at {
            Some(at) => Some(source.place(at)),
            None => None,
        }
    }

    /// Writes a refusal as `vsim` prints it, after its file, line and column as compilers write
    /// them and before the line itself, if it has a place.
    pub fn write_head<W: Write, F: Display>(
        &self,
        out: &mut W,
        source: Source<'_>,
        refusal: &F,
    ) -> io::Result<()> {
        let Some((name, place)) = self.place(source) else {
            return writeln!(out, "error: {refusal}");
        };
        let (line, column) = (place.line, place.column);
        writeln!(out, "{name}:{line}:{column}: error: {refusal}")?;
        place.write_marked(out)
    }

    /// Writes what such a fault means, and the hint.
    fn write_text<W: Write>(&self, out: &mut W) -> io::Result<()> {
        let text = self.text;
        writeln!(out, "{text}")?;
        match self.hint {
            Some(hint) => writeln!(out, "{hint}"),
            None => Ok(()),
        }
    }

    /// Writes the token that cannot follow, if it is named, what such a fault means, and the hint.
    pub fn write_advice<W: Write>(&self, out: &mut W, source: Source<'_>) -> io::Result<()> {
        match self.at {
            Some(at) if self.is_at_token => write_found(out, token_at(source.text, at))?,
            _ => {}
        }
        self.write_text(out)
    }
}
