//! Reading a text.

use crate::source::Part;
use anyhow::{Context, Result};
use std::alloc::{AllocError, Global};
use std::fs;
use std::io::{self, Read};

/// The name of standard input in place of a file's.
const STANDARD_INPUT: &str = "<stdin>";

/// Reads at most `most` bytes of standard input to the end of a text.
fn read_input(rt: &HostRuntime, most: u64, text: &mut Vec<u8>) -> io::Result<()> {
    rt.reader().take(most).read_to_end(text)?;
    Ok(())
}

/// Reads at most `most` bytes of a file to the end of a text.
fn read_file(rt: &HostRuntime, path: &str, most: u64, text: &mut Vec<u8>) -> io::Result<()> {
    fs::open(rt, path)?.take(most).read_to_end(text)?;
    Ok(())
}

/// Notes that a part of a text ends here.
fn note(alloc: Global, parts: &mut Vec<Part>, name: &str, end: usize) -> Result<(), AllocError> {
    let name = String::from_str(alloc, name)?;
    parts.push(Part { name, end })?;
    Ok(())
}

/// Reads at most `most` bytes of a file to the end of a text, and notes it.
fn read_part(
    rt: &HostRuntime,
    path: &str,
    most: u64,
    text: &mut Vec<u8>,
    parts: &mut Vec<Part>,
) -> Result<()> {
    read_file(rt, path, most, text).context(format_args!("{path}"))?;
    note(rt.alloc(), parts, path, text.len())?;
    Ok(())
}

/// Reads the files at these paths, one after another, or standard input if there are none. Of each
/// at most `most` bytes are read.
pub fn read_source(
    rt: &HostRuntime,
    paths: &[String],
    most: u64,
    text: &mut Vec<u8>,
    parts: &mut Vec<Part>,
) -> Result<()> {
    if paths.is_empty() {
        read_input(rt, most, text)?;
        note(rt.alloc(), parts, STANDARD_INPUT, text.len())?;
    }
    for path in paths {
        read_part(rt, path.as_str(), most, text, parts)?;
    }
    Ok(())
}
