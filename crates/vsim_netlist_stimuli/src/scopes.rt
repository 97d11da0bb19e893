//! The scope of a VCD with the inputs of a design.

use crate::changes::{Bits, Input, find};
use crate::header::{Header, Scope, Variable};
use std::alloc::{AllocError, Global};
use vsim_netlist_design::{Draft, Fault, empty_lists, push};

/// An input that a variable of a VCD stands for: its index, its bits, and the code of the variable.
#[derive(Clone, Copy)]
pub(crate) struct Match<'a> {
    input: usize,
    pub(crate) bits: Bits,
    pub(crate) code: &'a str,
}

/// The input that has the name and the number of bits of a variable.
fn input_of<'a>(inputs: &[Input], variable: &Variable<'a>) -> Option<Match<'a>> {
    match find(inputs, variable.name) {
        Some((input, bits)) if bits.width == variable.width => Some(Match {
            input,
            bits,
            code: variable.code,
        }),
        _ => None,
    }
}

/// Adds the input that a variable stands for, if there is one.
fn add_variable<'a>(
    found: &mut Vec<Vec<Match<'a>>>,
    inputs: &[Input],
    variable: &Variable<'a>,
) -> Result<(), AllocError> {
    match input_of(inputs, variable) {
        Some(new) => add(found, variable.scope, new),
        None => Ok(()),
    }
}

/// For each scope, the inputs that it has with the right number of bits.
fn matches<'a>(
    alloc: Global,
    header: &Header<'a>,
    inputs: &[Input],
) -> Result<Vec<Vec<Match<'a>>>, AllocError> {
    let mut found = empty_lists(alloc, header.scopes.len())?;
    for variable in header.variables.iter() {
        add_variable(&mut found, inputs, variable)?;
    }
    Ok(found)
}

/// Adds an input to those of a scope, unless it is among them.
fn add<'a>(
    found: &mut Vec<Vec<Match<'a>>>,
    scope: usize,
    new: Match<'a>,
) -> Result<(), AllocError> {
    match found.get_mut(scope) {
        Some(list) if !has(list.as_slice(), new.input) => push(list, new),
        _ => Ok(()),
    }
}

/// Whether an input is among some.
fn has(list: &[Match<'_>], input: usize) -> bool {
    for each in list {
        if each.input == input {
            return true;
        }
    }
    false
}

/// Whether the scope at an index has this number of inputs.
fn has_count(found: &[Vec<Match<'_>>], place: usize, count: usize) -> bool {
    match found.get(place) {
        Some(list) => list.len() == count,
        None => false,
    }
}

/// The index of the deepest scope that has this number of inputs; the first, if there are several.
fn deepest(scopes: &[Scope], found: &[Vec<Match<'_>>], count: usize) -> Option<usize> {
    let (mut best, mut deepest) = (None, 0usize);
    for (place, scope) in scopes.iter().enumerate() {
        let is_deeper = best.is_none() || deepest < scope.depth;
        if is_deeper && has_count(found, place, count) {
            best = Some(place);
            deepest = scope.depth;
        }
    }
    best
}

/// The index of the scope with a path.
fn at_path(scopes: &[Scope], path: &str) -> Option<usize> {
    for (place, scope) in scopes.iter().enumerate() {
        if scope.path.as_str() == path {
            return Some(place);
        }
    }
    None
}

/// The number of inputs that the scope at an index has.
fn count_at(found: &[Vec<Match<'_>>], place: usize) -> usize {
    match found.get(place) {
        Some(list) => list.len(),
        None => 0,
    }
}

/// The index of the scope that has most inputs; of several the deepest, and of these the first.
fn nearest(scopes: &[Scope], found: &[Vec<Match<'_>>]) -> Option<usize> {
    let (mut best, mut most) = (None, (0usize, 0usize));
    for (place, scope) in scopes.iter().enumerate() {
        let now = (count_at(found, place), scope.depth);
        if best.is_none() || most < now {
            best = Some(place);
            most = now;
        }
    }
    best
}

/// The number of bits that a variable has in a scope.
fn width_in(header: &Header<'_>, scope: usize, name: &str) -> Option<usize> {
    for variable in header.variables.iter() {
        if variable.scope == scope && variable.name == name {
            return Some(variable.width);
        }
    }
    None
}

/// The most inputs that are named as missing.
const MOST_NAMED: usize = 4;

/// Adds an input that a scope lacks: its name and, if that is there with another number of bits,
/// both numbers.
fn push_missing(text: &mut Draft, input: &Input, width: Option<usize>) {
    text.push(input.name.as_str());
    if let Some(width) = width {
        text.push(" of ");
        text.push_shown(&input.width);
        text.push(if input.width == 1 {
            " bit, not "
        } else {
            " bits, not "
        });
        text.push_shown(&width);
    }
}

/// Adds the inputs that a scope lacks. Returns whether it lacks one.
fn push_all_missing(
    text: &mut Draft,
    header: &Header<'_>,
    inputs: &[Input],
    list: &[Match<'_>],
    scope: usize,
) -> bool {
    let mut count = 0usize;
    for (place, input) in inputs.iter().enumerate() {
        if has(list, place) {
            continue;
        }
        if count < MOST_NAMED {
            text.push(if count == 0 { "" } else { ", " });
            push_missing(text, input, width_in(header, scope, input.name.as_str()));
        }
        count = count.saturating_add(1);
    }
    push_rest(text, count);
    count > 0
}

/// Adds how many more are missing than are named.
fn push_rest(text: &mut Draft, count: usize) {
    if count > MOST_NAMED {
        text.push(" and ");
        text.push_shown(&count.saturating_sub(MOST_NAMED));
        text.push(" more");
    }
}

/// The inputs that a scope lacks, after its path; `None` if it has all.
fn lacks(
    alloc: Global,
    header: &Header<'_>,
    inputs: &[Input],
    list: &[Match<'_>],
    scope: usize,
) -> Option<Draft> {
    let mut text = Draft::new(alloc);
    if let Some(it) = header.scopes.get(scope) {
        text.push_all(&[it.path.as_str(), " lacks "]);
    }
    if push_all_missing(&mut text, header, inputs, list, scope) {
        Some(text)
    } else {
        None
    }
}

/// The refusal of a VCD of which no scope has all inputs.
fn no_scope(
    alloc: Global,
    header: &Header<'_>,
    inputs: &[Input],
    found: &[Vec<Match<'_>>],
) -> Fault {
    let mut text = Draft::of(alloc, "no scope has all inputs, each with its width");
    let Some(place) = nearest(header.scopes.as_slice(), found) else {
        return Fault::of_draft(text);
    };
    let Some(list) = found.get(place) else {
        return Fault::of_draft(text);
    };
    if let Some(told) = lacks(alloc, header, inputs, list.as_slice(), place) {
        text.push("; the nearest: ");
        text.push_draft(&told);
    }
    text.push("; --scope names one");
    Fault::of_draft(text)
}

/// The index of the scope with a path, which has to be there.
fn requested(alloc: Global, scopes: &[Scope], path: &str) -> Result<usize, Fault> {
    match at_path(scopes, path) {
        Some(place) => Ok(place),
        None => Err(Fault::of(alloc, &["there is no scope ", path])),
    }
}

/// The index of the requested scope, or of the deepest one that has all inputs.
fn place(
    alloc: Global,
    header: &Header<'_>,
    inputs: &[Input],
    found: &[Vec<Match<'_>>],
    path: Option<&str>,
) -> Result<usize, Fault> {
    let scopes = header.scopes.as_slice();
    if let Some(path) = path {
        return requested(alloc, scopes, path);
    }
    match deepest(scopes, found, inputs.len()) {
        Some(place) => Ok(place),
        None => Err(no_scope(alloc, header, inputs, found)),
    }
}

/// Takes the inputs of the scope at an index, which has to have all.
fn chosen<'a>(
    alloc: Global,
    header: &Header<'_>,
    found: &mut Vec<Vec<Match<'a>>>,
    place: usize,
    inputs: &[Input],
) -> Result<Vec<Match<'a>>, Fault> {
    let Some(list) = found.get_mut(place) else {
        return Ok(Vec::new(alloc));
    };
    match lacks(alloc, header, inputs, list.as_slice(), place) {
        Some(told) => Err(Fault::of_draft(told)),
        None => Ok(std::mem::replace(list, Vec::new(alloc))),
    }
}

/// The variables of inputs, from one scope.
pub(crate) fn choose<'a>(
    alloc: Global,
    header: &Header<'a>,
    inputs: &[Input],
    path: Option<&str>,
) -> Result<Vec<Match<'a>>, Fault> {
    let mut found = matches(alloc, header, inputs)?;
    let place = place(alloc, header, inputs, found.as_slice(), path)?;
    chosen(alloc, header, &mut found, place, inputs)
}
