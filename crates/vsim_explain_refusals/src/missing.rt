//! Hints on words and signs that are missing before a `Syntax`.

use crate::slips::OPERATORS;
use vsim_explain_source::tokens::{
    behind_word, first_token, first_word, has_one_since, has_word, is_one_of, last_statement,
    last_word,
};

pub const THEN: &str = "\
    then is missing after the condition, as in if s = '1' then. See Processes in docs/LANGUAGE.md.";

pub const FIRST_BEGIN: &str = "\
    begin is missing before the first statement of a process or an architecture.\n\
    See Processes in docs/LANGUAGE.md.";

pub const ARCHITECTURE: &str = "\
    An architecture begins with its name and that of its entity, as in architecture a of t is.\n\
    See Grammar in docs/REFERENCE.md.";

pub const PORT_LIST: &str = "\
    Ports are in parentheses, as in port (i : in std_logic; o : out std_logic);\n\
    See docs/INSTANCES.md.";

pub const MODE_FIRST: &str = "\
    The mode comes between the colon and the type, as in i : in std_logic.\n\
    See docs/INSTANCES.md.";

pub const OPERAND: &str = "\
    An operand is missing after the operator. See Expressions in docs/LANGUAGE.md.";

pub const EDGE_CALL: &str = "\
    The signal of an edge is in parentheses, as in rising_edge(clk).\n\
    See Edges in docs/LANGUAGE.md.";

/// Whether a text begins with the target of an assignment.
fn is_target(after: &[u8]) -> bool {
    !first_word(after).is_empty() && matches!(first_token(behind_word(after)), b"<=" | b":=")
}

/// Whether a text ends with an operand.
fn is_operand(before: &[u8]) -> bool {
    match before.last() {
        Some(b')' | b'\'') => true,
        Some(_) => !last_word(before).is_empty() && !is_one_of(&OPERATORS, last_word(before)),
        None => false,
    }
}

/// The hint on a condition without its then.
fn of_condition(before: &[u8], after: &[u8]) -> Option<&'static str> {
    let is_open = has_one_since(last_statement(before), &["if", "elsif"], &["then", "end"]);
    let word = first_word(after);
    let is_word = !word.is_empty() && !is_one_of(&OPERATORS, word) && !is_one_of(&["then"], word);
    if is_one_of(&["rising_edge", "falling_edge"], last_word(before)) && is_word {
        return Some(EDGE_CALL);
    }
    if is_open && is_word && is_operand(before) && !is_one_of(&["if"], last_word(before)) {
        return Some(THEN);
    }
    None
}

/// The hint on the head of a process or an architecture that is not complete.
fn of_head(before: &[u8], after: &[u8]) -> Option<&'static str> {
    let statement = last_statement(before);
    let is_architecture = has_word(statement, "architecture") && !has_word(statement, "end");
    if is_architecture && !has_word(statement, "is") {
        return Some(ARCHITECTURE);
    }
    let is_process = has_word(statement, "process") && before.ends_with(b")");
    let is_whole = is_architecture && is_one_of(&["is"], last_word(before));
    if (is_process || is_whole) && is_target(after) {
        return Some(FIRST_BEGIN);
    }
    None
}

/// The hint on ports without parentheses, or with the mode before the name.
fn of_ports(before: &[u8], after: &[u8]) -> Option<&'static str> {
    let word = first_word(after);
    if is_one_of(&["port"], last_word(before)) && !word.is_empty() && !is_one_of(&["map"], word) {
        return Some(PORT_LIST);
    }
    if is_one_of(&["in", "out", "inout"], word) && matches!(before.last(), Some(b'(' | b';')) {
        return Some(MODE_FIRST);
    }
    None
}

/// The hint on an operator without its second operand.
fn of_expression(before: &[u8], after: &[u8]) -> Option<&'static str> {
    let is_end = matches!(
        first_token(after),
        b";" | b")" | b"then" | b"else" | b"after"
    );
    if is_end && is_one_of(&OPERATORS, last_word(before)) {
        Some(OPERAND)
    } else {
        None
    }
}

/// The hint on what is missing before a `Syntax`.
pub fn of_missing(before: &[u8], after: &[u8]) -> Option<&'static str> {
    of_expression(before, after)
        .or(of_condition(before, after))
        .or(of_head(before, after))
        .or(of_ports(before, after))
}
