//! Words, signs and lines around a place in a text.

/// The most comments in a row that are skipped.
const MOST_COMMENTS: usize = 100;

/// The signs of two bytes.
static SIGNS: [&[u8]; 6] = [b"<=", b"=>", b":=", b"/=", b"??", b"**"];

/// Whether words may contain this byte.
fn is_of_word(byte: u8) -> bool {
    byte.is_ascii_alphanumeric() || byte == b'_'
}

/// Whether two words are equal, in any case.
fn is_same(word: &[u8], other: &str) -> bool {
    word.len() == other.len()
        && word
            .iter()
            .zip(other.bytes())
            .all(|(a, b)| a.to_ascii_lowercase() == b)
}

/// Whether a word is one of these.
pub fn is_one_of(words: &[&str], word: &[u8]) -> bool {
    for it in words {
        if is_same(word, it) {
            return true;
        }
    }
    false
}

/// The entry of a word in a table.
pub fn find(table: &[(&'static str, &'static str)], word: &[u8]) -> Option<&'static str> {
    for (name, text) in table {
        if is_same(word, name) {
            return Some(text);
        }
    }
    None
}

/// The word at the start of a text; empty if there is none.
pub fn first_word(text: &[u8]) -> &[u8] {
    match text.split(|byte| !is_of_word(*byte)).next() {
        Some(word) => word,
        None => text,
    }
}

/// The word at the end of a text; empty if there is none.
pub fn last_word(text: &[u8]) -> &[u8] {
    match text.rsplit(|byte| !is_of_word(*byte)).next() {
        Some(word) => word,
        None => text,
    }
}

/// The word before the last one.
pub fn word_before_last(text: &[u8]) -> &[u8] {
    let start = text.len().saturating_sub(last_word(text).len());
    let (before, _) = text.split_at(start.min(text.len()));
    last_word(before.trim_ascii_end())
}

/// The text after the last semicolon.
pub fn last_statement(text: &[u8]) -> &[u8] {
    match text.rsplit(|byte| *byte == b';').next() {
        Some(statement) => statement,
        None => text,
    }
}

/// Whether a text contains a word.
pub fn has_word(text: &[u8], word: &str) -> bool {
    for it in text.split(|byte| !is_of_word(*byte)) {
        if is_same(it, word) {
            return true;
        }
    }
    false
}

/// Whether a text contains one of these words after the last of others.
pub fn has_one_since(text: &[u8], words: &[&str], since: &[&str]) -> bool {
    let mut found = false;
    for it in text.split(|byte| !is_of_word(*byte)) {
        found = (found && !is_one_of(since, it)) || is_one_of(words, it);
    }
    found
}

/// Whether a component declaration is open at the end of a text.
pub fn is_in_component(text: &[u8]) -> bool {
    let (mut is_open, mut is_end) = (false, false);
    for it in text.split(|byte| !is_of_word(*byte)) {
        if !it.is_empty() {
            is_open = if is_same(it, "component") {
                !is_end
            } else {
                is_open && !is_same(it, "begin")
            };
            is_end = is_same(it, "end");
        }
    }
    is_open
}

/// Whether a statement of a process waits for an edge, up to the first end.
pub fn waits_for_edge(text: &[u8]) -> bool {
    let (mut is_wait, mut is_until) = (false, false);
    for it in text.split(|byte| !is_of_word(*byte)) {
        if is_same(it, "end") {
            return false;
        }
        if is_until && is_one_of(&["rising_edge", "falling_edge"], it) {
            return true;
        }
        if !it.is_empty() {
            is_until = is_wait && is_same(it, "until");
            is_wait = is_same(it, "wait");
        }
    }
    false
}

/// Whether as many if statements have ended as have begun since the last process began.
pub fn are_ifs_closed(text: &[u8]) -> bool {
    let (mut open, mut is_end) = (0usize, false);
    for it in text.split(|byte| !is_of_word(*byte)) {
        if is_same(it, "process") {
            open = 0;
        } else if is_same(it, "if") && is_end {
            open = open.saturating_sub(1);
        } else if is_same(it, "if") {
            open = open.saturating_add(1);
        }
        if !it.is_empty() {
            is_end = is_same(it, "end");
        }
    }
    open == 0
}

/// Whether a text contains `=` that is a sign by itself.
pub fn has_comparison(text: &[u8]) -> bool {
    let mut before = b' ';
    for (place, byte) in text.iter().enumerate() {
        let after = text.get(place.saturating_add(1)).copied().unwrap_or(b' ');
        let is_part = matches!(before, b'<' | b'>' | b':' | b'/' | b'?') || after == b'>';
        if *byte == b'=' && !is_part {
            return true;
        }
        before = *byte;
    }
    false
}

/// The text before the first semicolon.
pub fn first_statement(text: &[u8]) -> &[u8] {
    match text.split(|byte| *byte == b';').next() {
        Some(statement) => statement,
        None => text,
    }
}

/// The text behind its first word, without blanks before it.
pub fn behind_word(text: &[u8]) -> &[u8] {
    let (_, rest) = text.split_at(first_word(text).len().min(text.len()));
    rest.trim_ascii_start()
}

/// Whether `word` is followed by `next` after the last occurrence of `since`.
pub fn has_pair_since(text: &[u8], since: &str, word: &str, next: &str) -> bool {
    let (mut found, mut is_behind) = (false, false);
    for it in text.split(|byte| !is_of_word(*byte)) {
        if !it.is_empty() {
            found = !is_same(it, since) && (found || is_behind && is_same(it, next));
            is_behind = is_same(it, word);
        }
    }
    found
}

/// The text after the last line feed.
pub fn last_line(text: &[u8]) -> &[u8] {
    match text.rsplit(|byte| *byte == b'\n').next() {
        Some(line) => line,
        None => text,
    }
}

/// The text before the first line feed.
pub fn first_line(text: &[u8]) -> &[u8] {
    match text.split(|byte| *byte == b'\n').next() {
        Some(line) => line,
        None => text,
    }
}

/// Whether the end of a text is at the start of a line, apart from blanks.
pub fn is_at_line_start(text: &[u8]) -> bool {
    last_line(text).trim_ascii().is_empty()
}

/// The start of a comment in the last line of a text, if there is one.
fn comment_start(text: &[u8]) -> Option<usize> {
    let line = last_line(text);
    let at = line.windows(2).position(|pair| pair == b"--".as_slice())?;
    Some(text.len().saturating_sub(line.len()).saturating_add(at))
}

/// A text without blanks and comments at its end.
pub fn without_comments(text: &[u8]) -> &[u8] {
    let mut text = text.trim_ascii_end();
    for _turn in 0..MOST_COMMENTS {
        let Some(start) = comment_start(text) else {
            break;
        };
        let (before, _) = text.split_at(start.min(text.len()));
        text = before.trim_ascii_end();
    }
    text
}

/// The rest of a text behind a comment `/* .. */` at its start.
fn behind_comment(text: &[u8]) -> Option<&[u8]> {
    if !text.starts_with(b"/*") {
        return None;
    }
    let (_, inside) = text.split_at(2.min(text.len()));
    let end = inside.windows(2).position(|pair| pair == b"*/".as_slice())?;
    inside.get(end.saturating_add(2)..)
}

/// A text without blanks and comments at its start, as Verilog or a netlist has them.
pub fn behind_foreign_comments(text: &[u8]) -> &[u8] {
    let mut text = behind_comments(text);
    for _turn in 0..MOST_COMMENTS {
        if !text.starts_with(b"//") && !text.starts_with(b"#") {
            break;
        }
        let (_, after) = text.split_at(first_line(text).len().min(text.len()));
        text = behind_comments(after);
    }
    text
}

/// A text without blanks and comments `/* .. */` at its start.
pub fn behind_comments(text: &[u8]) -> &[u8] {
    let mut text = text.trim_ascii_start();
    for _turn in 0..MOST_COMMENTS {
        let Some(after) = behind_comment(text) else {
            break;
        };
        text = after.trim_ascii_start();
    }
    text
}

/// The number of bytes of the sign at the start of a text.
fn sign_length(text: &[u8]) -> usize {
    for sign in &SIGNS {
        if text.starts_with(sign) {
            return 2;
        }
    }
    if text.first() == Some(&b'\'') { 3 } else { 1 }
}

/// The token after this many bytes; empty at the end.
pub fn token_at(source: &[u8], at: usize) -> &[u8] {
    let (_, after) = source.split_at(at.min(source.len()));
    first_token(after)
}

/// The token at the start of a text; empty if there is none.
pub fn first_token(text: &[u8]) -> &[u8] {
    let word = first_word(text);
    if !word.is_empty() {
        return word;
    }
    let (token, _) = text.split_at(sign_length(text).min(text.len()));
    token
}
