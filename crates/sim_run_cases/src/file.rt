//! A file of cases.

use crate::case::Case;
use anyhow::{Result, bail};
use std::alloc::Global;

/// The mark of a line, which is its first byte, and what follows the blank after it.
fn marked(line: &[u8]) -> Option<(u8, &[u8])> {
    match line {
        [mark, b' ', rest @ ..] => Some((*mark, rest)),
        [mark] => Some((*mark, &[])),
        _ => None,
    }
}

/// Reads a line into the last of the cases.
fn put(alloc: Global, cases: &mut Vec<Case>, line: &[u8]) -> Result<bool> {
    match (marked(line), cases.last_mut()) {
        (Some((b'=', name)), _) => {
            cases.push(Case::new(alloc, name)?)?;
            Ok(true)
        }
        (Some((mark, rest)), Some(case)) => Ok(case.put(alloc, mark, rest)?),
        _ => Ok(false),
    }
}

/// The cases of a file. An empty line, or one that begins with `#`, is ignored.
pub fn cases(alloc: Global, file: &[u8]) -> Result<Vec<Case>> {
    let mut found = Vec::new(alloc);
    for (index, line) in file.split(|byte| *byte == b'\n').enumerate() {
        if line.is_empty() || line.starts_with(b"#") {
            continue;
        }
        if !put(alloc, &mut found, line)? {
            bail!("line {index} (from 0) is none of a case");
        }
    }
    Ok(found)
}
