//! The statement or process around a place.

use vsim_explain_source::tokens::{
    behind_word, first_statement, first_word, has_word, is_one_of, last_statement,
};

/// The words that a statement may follow, apart from a semicolon and `else`.
static OPENING: [&str; 2] = ["begin", "then"];

/// Whether words may contain this byte.
fn is_of_word(byte: u8) -> bool {
    byte.is_ascii_alphanumeric() || byte == b'_'
}

/// The number of bytes behind the last word that a statement may follow; of all, if there is none.
fn behind_opening(text: &[u8]) -> usize {
    let mut behind = 0usize;
    for word in text.rsplit(|byte| !is_of_word(*byte)) {
        if is_one_of(&OPENING, word) {
            return behind;
        }
        behind = behind.saturating_add(word.len()).saturating_add(1);
    }
    text.len()
}

/// Whether a text is an assignment or an instance, and not the beginning of another statement.
fn is_statement(text: &[u8]) -> bool {
    let is_one = text.windows(2).any(|pair| pair == b"<=".as_slice())
        || has_word(text, "map")
        || behind_word(text).starts_with(b":=");
    is_one && !has_word(text, "if") && !has_word(text, "process")
}

/// A text without the word `else` at its start.
fn behind_else(text: &[u8]) -> &[u8] {
    let text = text.trim_ascii_start();
    if is_one_of(&["else"], first_word(text)) {
        behind_word(text)
    } else {
        text
    }
}

/// The places in a text without comments where the statement around a place begins and ends, if
/// there is an assignment or instance.
fn statement_around(text: &[u8], at: usize) -> Option<(usize, usize)> {
    let (before, after) = text.split_at(at.min(text.len()));
    let start = at.saturating_sub(behind_opening(last_statement(before)));
    let end = at
        .saturating_add(first_statement(after).len())
        .saturating_add(1);
    let statement = behind_else(text.get(start..end)?);
    if is_statement(statement) {
        Some((end.saturating_sub(statement.len()), end))
    } else {
        None
    }
}

/// Whether a word, or the word `postponed` behind it, is `end`.
fn is_end(was_end: bool, word: &[u8]) -> bool {
    is_one_of(&["end"], word) || was_end && (word.is_empty() || is_one_of(&["postponed"], word))
}

/// The place of the word that begins the process that is open at the end of a text.
fn open_process(text: &[u8]) -> Option<usize> {
    let (mut found, mut place, mut was_end) = (None, 0usize, false);
    for word in text.split(|byte| !is_of_word(*byte)) {
        if is_one_of(&["process"], word) {
            found = if was_end { None } else { Some(place) };
        }
        was_end = is_end(was_end, word);
        place = place.saturating_add(word.len()).saturating_add(1);
    }
    found
}

/// The place of the word that ends the process that is open at the start of a text.
fn closed_process(text: &[u8]) -> Option<usize> {
    let (mut place, mut was_end) = (0usize, false);
    for word in text.split(|byte| !is_of_word(*byte)) {
        if was_end && is_one_of(&["process"], word) {
            return Some(place);
        }
        was_end = is_end(was_end, word);
        place = place.saturating_add(word.len()).saturating_add(1);
    }
    None
}

/// The number of bytes up to the end of the process that is open at the start of a text.
fn rest_of_process(text: &[u8]) -> Option<usize> {
    let place = closed_process(text)?;
    let (_, last) = text.split_at(place.min(text.len()));
    Some(
        place
            .saturating_add(first_statement(last).len())
            .saturating_add(1),
    )
}

/// The places in a text without comments where the process around a place begins and ends, if there
/// is one.
fn process_around(text: &[u8], at: usize) -> Option<(usize, usize)> {
    let (_, after) = text.split_at(at.min(text.len()));
    let next = at.saturating_add(first_statement(after).len());
    let (before, rest) = text.split_at(next.min(text.len()));
    let begun = open_process(before)?;
    let (before, _) = before.split_at(begun.min(before.len()));
    let start = begun.saturating_sub(behind_opening(last_statement(before)));
    Some((start, next.saturating_add(rest_of_process(rest)?)))
}

/// The places where the assignment, the instance or else the process around a place begins and ends.
fn part_around(text: &[u8], at: usize) -> Option<(usize, usize)> {
    match statement_around(text, at) {
        Some(found) => Some(found),
        None => process_around(text, at),
    }
}

/// Puts blanks in place of the assignment, the instance or else the process around a place of a
/// text without comments; returns whether there is one.
pub fn take_out(text: &mut Vec<u8>, at: usize) -> bool {
    let Some((start, end)) = part_around(text.as_slice(), at) else {
        return false;
    };
    for place in start..end {
        if let Some(byte) = text.get_mut(place) {
            *byte = b' ';
        }
    }
    true
}
