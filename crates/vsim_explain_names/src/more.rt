//! What the text itself says about a fault.

use crate::names::write_meant_name;
use crate::nearest::{meant, nearest};
use crate::ports::{has_instance, write_missing, write_unknown};
use crate::words::{OTHER_WORDS, WORDS};
use sim_flat::FlatError;
use sim_text::{TextError, parse_within};
use sim_text_tree::DesignFile;
use sim_text_tree::unit::LibraryUnit;
use std::alloc::{AllocError, Global};
use std::io::{self, Write};
use std::str::from_utf8;
use vsim_explain_source::tokens::{first_word, is_one_of, last_word, without_comments};

/// The names of the entities of a file, in order.
fn entities<'a>(alloc: Global, file: &'a DesignFile) -> Result<Vec<&'a str>, AllocError> {
    let mut found = Vec::new(alloc);
    for unit in file.units() {
        if let LibraryUnit::Entity(entity) = &unit.library_unit {
            if found.push(entity.name.as_str()).is_err() {
                return Err(AllocError);
            }
        }
    }
    Ok(found)
}

/// Writes names separated by commas, with `first` in front.
fn write_names<W: Write>(out: &mut W, names: &[&str], first: &str) -> io::Result<()> {
    write!(out, "The entities in the text, nearest name first: {first}")?;
    for name in names {
        if *name != first {
            write!(out, ", {name}")?;
        }
    }
    out.write_all(b".\n")
}

/// Writes the entities of a file, the one with the name nearest to the top's first.
fn write_entities<W: Write>(
    alloc: Global,
    out: &mut W,
    file: &DesignFile,
    top: &str,
) -> io::Result<()> {
    let names = entities(alloc, file)?;
    match nearest(alloc, top, names.as_slice())? {
        Some(first) => write_names(out, names.as_slice(), first),
        None => out.write_all(b"The text has no entities.\n"),
    }
}

/// Writes what the text says about a fault of its design under this top, if anything.
pub fn write_more_of_design<W: Write>(
    alloc: Global,
    out: &mut W,
    source: &[u8],
    top: &str,
    fault: FlatError,
) -> io::Result<()> {
    let Ok(file) = parse_within(alloc, source, source.len()) else {
        return Ok(());
    };
    match fault {
        FlatError::NoTop => write_entities(alloc, out, &file, top),
        FlatError::PortMissing { at } => write_missing(alloc, out, &file, at),
        FlatError::Unknown { at } if has_instance(&file, at) => {
            write_unknown(alloc, out, &file, at)
        }
        FlatError::Unknown { at } => write_meant_name(alloc, out, source, &file, at),
        _ => Ok(()),
    }
}

/// Words that are nearly reserved ones, but were meant as others, which a hint names.
static OTHERWISE_MEANT: [&str; 4] = ["els", "import", "input", "output"];

/// Writes the reserved word that may have been meant by a word; returns whether there is one.
fn write_meant<W: Write>(alloc: Global, out: &mut W, word: &[u8]) -> io::Result<bool> {
    if is_one_of(&OTHER_WORDS, word) || is_one_of(&OTHERWISE_MEANT, word) {
        return Ok(false);
    }
    let Ok(word) = from_utf8(word) else {
        return Ok(false);
    };
    let Some(found) = meant(alloc, word, &WORDS)? else {
        return Ok(false);
    };
    writeln!(out, "{word} is not a reserved word; did you mean {found}?")?;
    Ok(true)
}

/// Writes what the text says about its own fault, if anything: a word just before a `Syntax`, or at
/// it, that is nearly a reserved one.
pub fn write_more_of_text<W: Write>(
    alloc: Global,
    out: &mut W,
    source: &[u8],
    fault: TextError,
) -> io::Result<()> {
    let TextError::Syntax { at } = fault else {
        return Ok(());
    };
    let (before, after) = source.split_at(at.min(source.len()));
    if write_meant(alloc, out, last_word(without_comments(before)))? {
        return Ok(());
    }
    write_meant(alloc, out, first_word(after))?;
    Ok(())
}
