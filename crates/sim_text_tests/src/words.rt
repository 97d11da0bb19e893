//! Tokens by kind, text and place, and the faults of texts without tokens.

use sim_text::{Kind, TextError, Token, tokens};
use std::alloc::Global;
use std::test::Fail;

/// Kind, text, start and end of a token.
type Row<'a> = (Kind, &'a [u8], usize, usize);

static TOKENS: [Row<'_>; 21] = [
    (Kind::Word, b"s", 0, 1),
    (Kind::SignalAssign, b"", 1, 3),
    (Kind::Literal, b"1", 3, 6),
    (Kind::Semicolon, b"", 6, 7),
    (Kind::Word, b"s", 8, 9),
    (Kind::Tick, b"", 9, 10),
    (Kind::Word, b"event", 10, 15),
    (Kind::Number, b"5", 16, 17),
    (Kind::Word, b"ns", 17, 19),
    (Kind::Number, b"1000", 20, 25),
    (Kind::End, b"", 26, 29),
    (Kind::Word, b"q_1", 30, 33),
    (Kind::Is, b"", 34, 36),
    (Kind::And, b"", 37, 40),
    (Kind::Literal, b"1", 40, 43),
    (Kind::Word, b"a", 44, 45),
    (Kind::Word, b"c", 49, 50),
    (Kind::Word, b"e", 54, 55),
    (Kind::Word, b"f", 59, 60),
    (Kind::Tick, b"", 65, 66),
    (Kind::Word, b"h", 66, 67),
];

/// Whether a token has the kind, the text and the places of a row.
fn is_row(token: &Token, row: &Row<'_>) -> bool {
    token.kind() == row.0 && token.text() == row.1 && token.start() == row.2 && token.end() == row.3
}

/// Whether the tokens agree with the rows.
fn are_alike(found: &[Token], rows: &[Row<'_>]) -> bool {
    for (token, row) in found.iter().zip(rows) {
        if !is_row(token, row) {
            return false;
        }
    }
    found.len() == rows.len()
}

#[test]
fn tokens_have_their_text_and_place(rt: HostRuntime) -> Result<(), Fail> {
    let text = b"s<='1'; s'event 5ns 1_000 END Q_1 IS\x0band'1' a--b\x0bc--d\x0ce/**/f/*g*/'h--i";
    let found = tokens(rt.alloc(), text)?;
    assert!(rt; are_alike(found.as_slice(), TOKENS.as_slice()));
    Ok(())
}

/// Whether a text is a single token of this kind.
fn is_one(alloc: Global, text: &str, kind: Kind) -> Result<bool, TextError> {
    match tokens(alloc, text.as_bytes())?.as_slice() {
        [token] => Ok(token.kind() == kind && token.start() == 0 && token.end() == text.len()),
        _ => Ok(false),
    }
}

static KINDS: [(&str, Kind); 53] = [
    ("(", Kind::LeftParen),
    (")", Kind::RightParen),
    (";", Kind::Semicolon),
    (":", Kind::Colon),
    (",", Kind::Comma),
    (".", Kind::Dot),
    ("<=", Kind::SignalAssign),
    (":=", Kind::VariableAssign),
    ("=>", Kind::Arrow),
    ("=", Kind::Equal),
    ("/=", Kind::Unequal),
    ("??", Kind::Condition),
    ("after", Kind::After),
    ("all", Kind::All),
    ("and", Kind::And),
    ("ARCHITECTURE", Kind::Architecture),
    ("begin", Kind::Begin),
    ("component", Kind::Component),
    ("else", Kind::Else),
    ("elsif", Kind::Elsif),
    ("End", Kind::End),
    ("entity", Kind::Entity),
    ("if", Kind::If),
    ("in", Kind::In),
    ("inertial", Kind::Inertial),
    ("inout", Kind::Inout),
    ("is", Kind::Is),
    ("library", Kind::Library),
    ("map", Kind::Map),
    ("nand", Kind::Nand),
    ("nor", Kind::Nor),
    ("not", Kind::Not),
    ("null", Kind::Null),
    ("of", Kind::Of),
    ("open", Kind::Open),
    ("or", Kind::Or),
    ("out", Kind::Out),
    ("port", Kind::Port),
    ("postponed", Kind::Postponed),
    ("process", Kind::Process),
    ("reject", Kind::Reject),
    ("signal", Kind::Signal),
    ("then", Kind::Then),
    ("transport", Kind::Transport),
    ("use", Kind::Use),
    ("variable", Kind::Variable),
    ("when", Kind::When),
    ("xnor", Kind::Xnor),
    ("xor", Kind::Xor),
    ("event", Kind::Word),
    ("ns", Kind::Word),
    ("wait", Kind::Word),
    ("buffer", Kind::Word),
];

#[test]
fn reserved_words_and_delimiters_have_their_kinds(rt: HostRuntime) -> Result<(), Fail> {
    for row in KINDS.iter() {
        assert!(rt; is_one(rt.alloc(), row.0, row.1)?, "{}", row.0);
    }
    Ok(())
}

static FAULTS: [(&[u8], TextError); 10] = [
    (b"entity t is /* x", TextError::OpenComment { at: 12 }),
    (b"/*/", TextError::OpenComment { at: 0 }),
    (b"1 ns '1'", TextError::BadLiteral { at: 7 }),
    (b"'2'", TextError::BadLiteral { at: 0 }),
    (b"not 'x'", TextError::BadLiteral { at: 4 }),
    (b"a__b", TextError::BadByte { at: 1 }),
    (b"a_ b", TextError::BadByte { at: 1 }),
    (b"a - b", TextError::BadByte { at: 2 }),
    (b"a / b", TextError::BadByte { at: 2 }),
    (b"a ? \xff", TextError::BadByte { at: 2 }),
];

#[test]
fn a_fault_is_the_leftmost(rt: HostRuntime) {
    for row in FAULTS.iter() {
        assert_eq!(rt; tokens(rt.alloc(), row.0).err(), Some(row.1));
    }
}

/// Whether a text has neither a token nor a fault.
fn is_blank(alloc: Global, text: &[u8]) -> bool {
    matches!(tokens(alloc, text), Ok(found) if found.is_empty())
}

/// Whether a text is refused because of its length.
fn is_too_long(alloc: Global, text: &[u8]) -> bool {
    matches!(tokens(alloc, text), Err(TextError::TooLong))
}

#[test]
fn the_limit_is_2_to_20_bytes(rt: HostRuntime) -> Result<(), Fail> {
    let mut blanks = vec![in rt.alloc(); b' '; 1_048_576]?;
    assert!(rt; is_blank(rt.alloc(), &blanks));
    blanks.push(b' ')?;
    assert!(rt; is_too_long(rt.alloc(), &blanks));
    Ok(())
}
