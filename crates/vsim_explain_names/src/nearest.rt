//! The name that was probably meant.

use std::alloc::{AllocError, Global};
use strsim::osa_distance;

/// The most bytes of a name that are compared.
const MOST_COMPARED: usize = 100;

/// The number of letters of a name that may be wrong: a third, but at most two.
fn most_wrong(name: &str) -> usize {
    (name.len() / 3).min(2)
}

/// The part of a name that is compared.
fn compared(name: &str) -> &str {
    if name.len() <= MOST_COMPARED {
        return name;
    }
    match name.split_at_checked(MOST_COMPARED) {
        Some((start, _)) => start,
        None => name,
    }
}

/// The nearer of two names, with its distance; the first if both are equally near.
fn nearer<'a>(
    alloc: Global,
    name: &str,
    found: Option<(usize, &'a str)>,
    other: &'a str,
) -> Result<Option<(usize, &'a str)>, AllocError> {
    let distance = osa_distance(alloc, compared(name), compared(other))?;
    match found {
        Some((least, _)) if least <= distance => Ok(found),
        _ => Ok(Some((distance, other))),
    }
}

/// The nearest of some names, however far away; `None` if there are no names. A missing letter, an
/// extra letter, a wrong letter and two letters exchanged count one each.
pub fn nearest<'a>(
    alloc: Global,
    name: &str,
    names: &[&'a str],
) -> Result<Option<&'a str>, AllocError> {
    let mut found = None;
    for other in names {
        found = nearer(alloc, name, found, other)?;
    }
    match found {
        Some((_distance, name)) => Ok(Some(name)),
        None => Ok(None),
    }
}

/// The one of some names that was probably meant: the nearest, if few letters are wrong.
pub fn meant<'a>(
    alloc: Global,
    name: &str,
    names: &[&'a str],
) -> Result<Option<&'a str>, AllocError> {
    let Some(found) = nearest(alloc, name, names)? else {
        return Ok(None);
    };
    let distance = osa_distance(alloc, compared(name), compared(found))?;
    Ok(if 0 < distance && distance <= most_wrong(name) {
        Some(found)
    } else {
        None
    })
}
