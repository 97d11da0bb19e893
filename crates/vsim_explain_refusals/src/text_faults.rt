//! Explanations of the faults of a text.

use crate::explanation::{Explanation, at, at_token, nowhere};
use crate::hints;
use crate::left_out::FOREIGN;
use sim_text::TextError;

const MEMORY: &str = "\
    There is not enough memory to read the text.";

const TOO_LONG: &str = "\
    A text may have at most 1,048,576 bytes. Leave out units that the top does not need.\n\
    With --large it may have 268,435,456.\n\
    See Limits in docs/REFERENCE.md.";

const BAD_BYTE: &str = "\
    No token of the subset begins with this character. Replace or remove it, or comment out\n\
    what it belongs to. See Tokens in docs/REFERENCE.md.";

const OPEN_COMMENT: &str = "\
    A comment that begins with /* ends at the next */, which is missing here. Write it where\n\
    the comment should end. See Text in docs/LANGUAGE.md.";

const BAD_LITERAL: &str = "\
    An apostrophe begins one of the nine values, in upper case: 'U' 'X' '0' '1' 'Z' 'W' 'L'\n\
    'H' '-'. This is not one of them. After a name an apostrophe is a tick, as in s'event.\n\
    See Signals and their values in docs/LANGUAGE.md.";

const TIME_RANGE: &str = "\
    The largest time is 4,611,686,018,427,387,903 fs, almost 77 minutes. Write a shorter\n\
    one. See Time and cycles in docs/LANGUAGE.md.";

const TOO_DEEP: &str = "\
    64 parentheses of this expression, or 64 if statements of this process, are already open\n\
    here, which is the limit. Move an inner part to a signal or variable of its own.\n\
    See Limits in docs/REFERENCE.md.";

const SYNTAX: &str = "\
    Look also at what comes just before: a ; or ) or end may be missing there, or there may\n\
    be a word too many. See Grammar in docs/REFERENCE.md.";

const UNFINISHED: &str = "\
    Every if, process, architecture and entity is closed by end and a semicolon, and one of\n\
    these is missing; or the text has neither entities nor architectures.\n\
    See Grammar in docs/REFERENCE.md.";

/// The explanation of a `Syntax` at this place.
fn explain_syntax(source: &[u8], place: usize) -> Explanation {
    if place >= source.len() {
        return at_token(place, UNFINISHED);
    }
    match hints::of_syntax(source, place) {
        Some(text) => at_token(place, text),
        None => at_token(place, SYNTAX),
    }
}

/// The explanation of a fault of a text that is not VHDL.
fn explain_foreign(fault: TextError) -> Explanation {
    match fault {
        TextError::Memory => nowhere(MEMORY),
        TextError::TooLong => nowhere(FOREIGN),
        TextError::BadByte { at: place }
        | TextError::OpenComment { at: place }
        | TextError::BadLiteral { at: place }
        | TextError::TimeRange { at: place }
        | TextError::TooDeep { at: place }
        | TextError::Syntax { at: place } => at(place, FOREIGN),
    }
}

/// The explanation of a fault of the text.
pub fn explain_text(source: &[u8], fault: TextError) -> Explanation {
    if hints::is_foreign(source) {
        return explain_foreign(fault);
    }
    match fault {
        TextError::Memory => nowhere(MEMORY),
        TextError::TooLong => nowhere(TOO_LONG),
        TextError::BadByte { at: place } => at(place, BAD_BYTE).with(hints::of_byte(source, place)),
        TextError::OpenComment { at: place } => at(place, OPEN_COMMENT),
        TextError::BadLiteral { at: place } => at(place, BAD_LITERAL),
        TextError::TimeRange { at: place } => at(place, TIME_RANGE),
        TextError::TooDeep { at: place } => at(place, TOO_DEEP),
        TextError::Syntax { at: place } => explain_syntax(source, place),
    }
}
