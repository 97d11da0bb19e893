//! Hints on a fault, from the words and signs at its place.

use crate::left_out::{
    self, ARITHMETIC, ASSERTION, BASED, CALL, CONFIGURATION, EXTENDED, FILES, JOINING, NAMES,
    ORDER, STRING, TICK, WAIT_EDGE,
};
use crate::missing::of_missing;
use crate::slips::{
    self, ACTUAL, ALL_SIGNALS, ALWAYS, AND_MISSING, ARROW, ASSIGNMENT, BEGIN, BRACES, CHAINED,
    CHOICE, CLOSING_NAME, COMMA, COMMENT, COMPARISON, COMPONENT_END, DELAY, EDGE_OF, ELSE, ELSE_IF,
    END_TOO_MANY, KINDS, LABEL, LAST_PORT, LINE_BEFORE, LOGICAL, MAP_MISSING, MIXED, NAMES_APART,
    NOT_ASCII, NUMBER, OF_SIGNAL, OF_VARIABLE, OPEN, OPERATORS, POSITIONAL, SIGNAL,
    SIGNAL_ASSIGNMENT, UNDERSCORE, UNEQUAL, UNIT_OF_TIME, WHEN,
};
use vsim_explain_source::tokens::{
    are_ifs_closed, behind_foreign_comments, behind_word, find, first_statement, first_token,
    first_word, has_comparison, has_one_since, has_pair_since, has_word, is_at_line_start,
    is_in_component, is_one_of, last_statement, last_word, waits_for_edge, without_comments,
    word_before_last,
};

/// Whether the last line of a text may be complete.
fn is_complete(before: &[u8]) -> bool {
    match before.last() {
        None | Some(b';' | b'(' | b',') => true,
        Some(_) => is_one_of(&OPEN, last_word(before)),
    }
}

/// The hint on a word that begins with a digit just before a `Syntax`.
fn of_number(before: &[u8]) -> Option<&'static str> {
    match last_word(before).first() {
        Some(b'0'..=b'9') => Some(UNIT_OF_TIME),
        _ => None,
    }
}

/// Whether a text ends with a tick, which is an apostrophe that does not end a literal.
fn ends_by_tick(text: &[u8]) -> bool {
    match text {
        [.., b'\'', _, b'\''] => false,
        [.., last] => *last == b'\'',
        [] => false,
    }
}

/// Whether a text ends with the label and the unit of an instance.
fn is_instance(before: &[u8]) -> bool {
    let statement = last_statement(before);
    statement.contains(&b':')
        && !statement.contains(&b'=')
        && !has_word(statement, "signal")
        && !has_word(statement, "variable")
        && !has_word(statement, "port")
}

/// The hint on the sign at the place of a `Syntax` and the byte before it.
fn of_signs(before: &[u8], after: &[u8]) -> Option<&'static str> {
    match (before.last(), first_token(after)) {
        (Some(b';'), b")") => Some(LAST_PORT),
        (Some(b'('), [b'0'..=b'9', ..]) => Some(CALL),
        (_, b"<=") => Some(SIGNAL_ASSIGNMENT),
        (_, b"=>") => Some(ARROW),
        (_, b"??") => Some(MIXED),
        (_, b"=") => Some(COMPARISON),
        (_, b":=") => Some(ASSIGNMENT),
        (_, b",") => Some(COMMA),
        (_, b"(") if is_instance(before) => Some(MAP_MISSING),
        (_, b"(") => Some(CALL),
        (_, [b'0'..=b'9', ..]) => Some(NUMBER),
        _ => None,
    }
}

/// The hint on the end of the line before.
fn of_line(before: &[u8], is_first: bool) -> Option<&'static str> {
    if is_first && !is_complete(before) {
        Some(LINE_BEFORE)
    } else {
        None
    }
}

/// The hint on a declaration where a process should begin.
fn of_head(before: &[u8], after: &[u8]) -> Option<&'static str> {
    if before.ends_with(b")") && is_one_of(&["signal"], first_word(after)) {
        Some(SIGNAL)
    } else {
        None
    }
}

/// The hint on what the subset leaves out, by the words around a `Syntax`.
fn of_left_out(before: &[u8], after: &[u8]) -> Option<&'static str> {
    find(&left_out::AT, first_word(after)).or(find(&left_out::AFTER, last_word(before)))
}

/// The hint on a slip, by the words and signs around a `Syntax`.
fn of_slips(before: &[u8], after: &[u8]) -> Option<&'static str> {
    if let Some(text) = find(&slips::AFTER, last_word(before)) {
        return Some(text);
    }
    if let Some(text) = find(&slips::AT, first_word(after)) {
        return Some(text);
    }
    if ends_by_tick(before) {
        return Some(TICK);
    }
    of_number(before).or(of_signs(before, after))
}

/// The hint on an operator in a port map.
fn of_actual(before: &[u8], after: &[u8]) -> Option<&'static str> {
    if is_one_of(&OPERATORS, first_word(after)) && has_word(last_statement(before), "map") {
        Some(ACTUAL)
    } else {
        None
    }
}

/// The hint on `else if` in a process without a proper end.
fn of_else_if(before: &[u8]) -> Option<&'static str> {
    if is_one_of(&["end"], last_word(before)) && has_pair_since(before, "process", "else", "if") {
        Some(ELSE_IF)
    } else {
        None
    }
}

/// Whether a text begins like Verilog or a netlist, apart from comments.
pub fn is_foreign(source: &[u8]) -> bool {
    let text = behind_foreign_comments(source);
    is_one_of(&["module"], first_word(text))
        || text.starts_with(b"`")
        || text.starts_with(b"{")
        || text.starts_with(b"(")
        || text.starts_with(b".")
}

/// The hint on a word or sign in a condition or a conditional assignment.
fn of_condition(before: &[u8], after: &[u8]) -> Option<&'static str> {
    let statement = last_statement(before);
    let is_open = has_one_since(statement, &["if", "elsif", "when"], &["then", "else"]);
    match first_token(after) {
        b":=" if is_open => Some(COMPARISON),
        b"=" if is_open && has_comparison(statement) && !statement.ends_with(b"=") => Some(CHAINED),
        b"," if has_one_since(statement, &["when"], &["else", "map"]) => Some(ELSE),
        _ if statement.ends_with(b"'event") || statement.ends_with(b"'EVENT") => Some(AND_MISSING),
        _ => None,
    }
}

/// The hint on a word that stands in an assignment where another one or none belongs.
fn of_assignment(before: &[u8], after: &[u8], is_first: bool) -> Option<&'static str> {
    let is_if = is_one_of(&["if"], first_word(after));
    let is_assigned = last_statement(before)
        .windows(2)
        .any(|pair| pair == b"<=".as_slice());
    if is_if && is_assigned && !is_first {
        return Some(WHEN);
    }
    None
}

/// The hint on a port map or an instance that is not complete.
fn of_instance(before: &[u8], after: &[u8]) -> Option<&'static str> {
    let statement = last_statement(before);
    let (has_map, word) = (has_word(statement, "map"), first_word(after));
    let has_colon = statement.contains(&b':');
    let is_map = is_one_of(&["port"], word) && is_one_of(&["map"], first_word(behind_word(after)));
    match first_token(after) {
        b"," | b")" if !has_map && has_word(statement, "work") => Some(MAP_MISSING),
        b"," | b")" if has_map && statement.windows(2).any(|pair| pair == b"=>".as_slice()) => {
            Some(POSITIONAL)
        }
        _ if is_map && !has_colon => Some(LABEL),
        _ if is_one_of(&["entity"], word) && has_word(first_statement(after), "work") => {
            if has_colon { None } else { Some(LABEL) }
        }
        _ => None,
    }
}

/// The hint on a declaration whose names are apart, or on a component that does not end.
fn of_declaration(before: &[u8], after: &[u8]) -> Option<&'static str> {
    let is_object = is_one_of(&["signal", "variable"], word_before_last(before));
    let is_name = !first_word(after).is_empty() && !is_one_of(&slips::TYPES, first_word(after));
    if is_object && (is_name || after.starts_with(b";")) {
        return Some(NAMES_APART);
    }
    let may_end = before.ends_with(b");") || is_one_of(&["end"], last_word(before));
    if may_end && is_in_component(before) {
        return Some(COMPONENT_END);
    }
    if is_one_of(&["for"], first_word(after)) && has_word(first_statement(after), "use") {
        return Some(CONFIGURATION);
    }
    None
}

/// Whether a text ends with the parenthesis that begins the operand of an edge function.
fn is_edge(before: &[u8]) -> bool {
    match before.strip_suffix(b"(") {
        Some(text) => is_one_of(
            &["rising_edge", "falling_edge"],
            last_word(text.trim_ascii_end()),
        ),
        None => false,
    }
}

/// Whether the first statement of a process waits for an event.
fn waits_for_event(after: &[u8]) -> bool {
    let statement = first_statement(after);
    has_word(statement, "until") && has_word(statement, "event")
}

/// The hint on one `end if` too many, or on a wait for an edge.
fn of_statement(before: &[u8], after: &[u8]) -> Option<&'static str> {
    let (last, first) = (last_word(before), first_word(after));
    if is_one_of(&["end"], last) && is_one_of(&["if"], first) && are_ifs_closed(before) {
        return Some(END_TOO_MANY);
    }
    if is_one_of(&["wait"], last) && is_one_of(&["until"], first)
        || is_one_of(&["process"], last) && (waits_for_edge(after) || waits_for_event(after))
    {
        return Some(WAIT_EDGE);
    }
    if is_edge(before) {
        return Some(EDGE_OF);
    }
    None
}

/// The hint on what is known of a `Syntax` by more than the words beside it.
fn of_context(before: &[u8], after: &[u8], is_first: bool) -> Option<&'static str> {
    of_statement(before, after)
        .or(of_declaration(before, after))
        .or(of_condition(before, after))
        .or(of_assignment(before, after, is_first))
        .or(of_instance(before, after))
}

/// The hint on a `Syntax` between the text before it and the text after it.
fn of_place(before: &[u8], after: &[u8], is_first: bool) -> Option<&'static str> {
    if let Some(text) = of_context(before, after, is_first) {
        return Some(text);
    }
    if is_one_of(&["end"], word_before_last(before)) {
        return of_line(before, is_first).or(Some(CLOSING_NAME));
    }
    of_else_if(before)
        .or(of_actual(before, after))
        .or(of_left_out(before, after))
        .or(of_head(before, after))
        .or(of_line(before, is_first))
        .or(of_slips(before, after))
        .or(of_missing(before, after))
        .or(if is_first { Some(BEGIN) } else { None })
}

/// The hint on a `Syntax` at this place.
pub fn of_syntax(source: &[u8], at: usize) -> Option<&'static str> {
    let (before, after) = source.split_at(at.min(source.len()));
    if after.is_empty() {
        return None;
    }
    of_place(without_comments(before), after, is_at_line_start(before))
}

/// The hint on a string after this text.
fn of_string(before: &[u8]) -> &'static str {
    if is_one_of(&["report"], last_word(without_comments(before))) {
        ASSERTION
    } else if has_word(last_statement(before), "file") {
        FILES
    } else {
        STRING
    }
}

/// Whether a text ends inside the parentheses of a sensitivity list that is empty so far.
fn is_sensitivity(before: &[u8]) -> bool {
    match without_comments(before).strip_suffix(b"(") {
        Some(text) => is_one_of(&["process"], last_word(text.trim_ascii_end())),
        None => false,
    }
}

/// The hint on a sign of other languages.
fn of_other_language(before: &[u8], after: &[u8]) -> Option<&'static str> {
    match (before.last().copied(), after) {
        (_, [b'/', b'/', ..]) => Some(COMMENT),
        (Some(b'0'..=b'9'), [b'#', ..]) => Some(BASED),
        (_, [b'#', b'0'..=b'9', ..]) => Some(DELAY),
        (_, [b'#', ..]) => Some(COMMENT),
        (_, [b'@', ..]) => Some(ALWAYS),
        (_, [b'{' | b'}', ..]) => Some(BRACES),
        (_, [b'&', b'&', ..] | [b'|' | b'~' | b'^', ..]) => Some(LOGICAL),
        (_, [b'?', b'=' | b'/' | b'<' | b'>', ..]) => Some(ORDER),
        (_, [b'?', ..]) => Some(CHOICE),
        (_, [b'*', ..]) if is_sensitivity(before) => Some(ALL_SIGNALS),
        _ => None,
    }
}

/// The hint on a `BadByte` at this place.
pub fn of_byte(source: &[u8], at: usize) -> Option<&'static str> {
    let (before, after) = source.split_at(at.min(source.len()));
    if let Some(text) = of_other_language(before, after) {
        return Some(text);
    }
    match after.first().copied()? {
        b'"' => Some(of_string(before)),
        b'\\' => Some(EXTENDED),
        b'<' | b'>' => Some(ORDER),
        b'+' | b'-' | b'*' | b'/' => Some(ARITHMETIC),
        b'&' => Some(JOINING),
        b'!' => Some(UNEQUAL),
        b'_' => Some(UNDERSCORE),
        128.. => Some(NOT_ASCII),
        _ => None,
    }
}

/// The hint on an `Unknown` at this place.
pub fn of_name(source: &[u8], at: usize) -> Option<&'static str> {
    find(&NAMES, first_word(source.get(at..)?))
}

/// The hint on a `WrongKind` at this place.
pub fn of_kind(source: &[u8], at: usize) -> Option<&'static str> {
    let after = source.get(at..)?;
    match first_token(behind_word(after)) {
        b"<=" => Some(OF_VARIABLE),
        b":=" => Some(OF_SIGNAL),
        _ => find(&KINDS, first_word(after)),
    }
}
