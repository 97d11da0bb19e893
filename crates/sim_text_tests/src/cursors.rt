//! The cursor over tokens.

use crate::line::Line;
use crate::written::waveforms::unit_name;
use sim_text::{Kind, MOST_BYTES, lexemes_within};
use sim_text_grammar::ParseError;
use sim_text_reader::Cursor;
use std::alloc::Global;
use std::test::Fail;

/// A call of a cursor.
#[derive(Clone, Copy)]
enum Step {
    Word,
    Number,
    Literal,
    Unit,
    Event,
    Repeat(&'static str),
    Expect(Kind),
    Eat(Kind),
    Take,
    /// Whether a token of this kind comes next; `EndOfText` at the end.
    Shows(Kind),
}

/// Texts, calls of a cursor at their front, and the answers.
static CALLS: [(&str, &[Step], &str); 18] = [
    (" Ab_C;", &[Step::Word], "ab_c@1,"),
    (" 01_2;", &[Step::Number], "012@1,"),
    ("'U' fs", &[Step::Literal, Step::Unit], "'U'@0, fs,"),
    ("'X' PS", &[Step::Literal, Step::Unit], "'X'@0, ps,"),
    ("'0' Ns", &[Step::Literal, Step::Unit], "'0'@0, ns,"),
    ("'1' us", &[Step::Literal, Step::Unit], "'1'@0, us,"),
    ("'Z' ms", &[Step::Literal, Step::Unit], "'Z'@0, ms,"),
    ("'W' sec", &[Step::Literal, Step::Unit], "'W'@0, sec,"),
    ("'L' min", &[Step::Literal, Step::Unit], "'L'@0, min,"),
    ("'H' hr", &[Step::Literal, Step::Unit], "'H'@0, hr,"),
    ("'-' hr", &[Step::Literal, Step::Unit], "'-'@0, hr,"),
    (
        "Event ABC",
        &[
            Step::Event,
            Step::Repeat("ab"),
            Step::Repeat("abc"),
            Step::Shows(Kind::EndOfText),
        ],
        "passed,Syntax with 1 left,passed,true,",
    ),
    (
        " (;and",
        &[
            Step::Expect(Kind::LeftParen),
            Step::Eat(Kind::Comma),
            Step::Eat(Kind::Semicolon),
            Step::Take,
            Step::Take,
        ],
        "1,false,true,3,0,",
    ),
    ("and", &[Step::Shows(Kind::And)], "true,"),
    ("or and", &[Step::Shows(Kind::And)], "false,"),
    ("--", &[Step::Shows(Kind::EndOfText)], "true,"),
    ("and", &[Step::Shows(Kind::EndOfText)], "false,"),
    (
        "(",
        &[
            Step::Word,
            Step::Number,
            Step::Literal,
            Step::Unit,
            Step::Event,
            Step::Expect(Kind::RightParen),
        ],
        "Syntax with 1 left,Syntax with 1 left,Syntax with 1 left,Syntax with 1 left,Syntax with 1 left,Syntax with 1 left,",
    ),
];

/// Appends the name that the cursor reads, or its error.
fn put_word(line: &mut Line, tokens: &mut Cursor<'_>) {
    match tokens.word() {
        Ok(name) => line.put_name(&name),
        Err(error) => line.put_refusal(error),
    }
}

/// Appends the digits that the cursor reads, or its error.
fn put_number(line: &mut Line, tokens: &mut Cursor<'_>) {
    match tokens.number() {
        Ok((digits, at)) => line.put_digits(digits.as_slice(), at),
        Err(error) => line.put_refusal(error),
    }
}

/// Appends the literal that the cursor reads, or its error.
fn put_literal(line: &mut Line, tokens: &mut Cursor<'_>) {
    match tokens.literal() {
        Ok((value, at)) => line.put_literal(value, at),
        Err(error) => line.put_refusal(error),
    }
}

/// Appends the unit of time that the cursor reads, or its error.
fn put_unit(line: &mut Line, tokens: &mut Cursor<'_>) {
    match tokens.unit() {
        Ok(unit) => line.put(unit_name(unit)),
        Err(error) => line.put_refusal(error),
    }
}

/// Appends that something was consumed, or the error.
fn put_passed(line: &mut Line, answer: Result<(), ParseError>) {
    match answer {
        Ok(()) => line.put("passed"),
        Err(error) => line.put_refusal(error),
    }
}

/// Appends the offset of the expected token, or the error.
fn put_expected(line: &mut Line, answer: Result<usize, ParseError>) {
    match answer {
        Ok(at) => line.put_number(at),
        Err(error) => line.put_refusal(error),
    }
}

/// Whether everything the cursor says of the next token agrees with this kind.
fn shows(tokens: &Cursor<'_>, kind: Kind) -> bool {
    let is_end = kind == Kind::EndOfText;
    tokens.peek() == kind && tokens.sees(kind) && tokens.is_empty() == is_end
}

/// Makes one call of a cursor, and appends its answer.
fn put_step(line: &mut Line, tokens: &mut Cursor<'_>, step: Step) {
    match step {
        Step::Word => put_word(line, tokens),
        Step::Number => put_number(line, tokens),
        Step::Literal => put_literal(line, tokens),
        Step::Unit => put_unit(line, tokens),
        Step::Event => put_passed(line, tokens.event()),
        Step::Repeat(word) => put_passed(line, tokens.repeat(word.as_bytes())),
        Step::Expect(kind) => put_expected(line, tokens.expect(kind)),
        Step::Eat(kind) => line.put_truth(tokens.eat(kind)),
        Step::Take => line.put_number(tokens.take()),
        Step::Shows(kind) => line.put_truth(shows(tokens, kind)),
    }
}

/// The answers of these calls at the front of a text.
fn answers(alloc: Global, text: &str, steps: &[Step]) -> Result<String, Fail> {
    let source = text.as_bytes();
    let lexemes = lexemes_within(alloc, source, MOST_BYTES)?;
    let mut tokens = Cursor::new(alloc, source, lexemes.as_slice());
    let mut line = Line::new(alloc);
    for step in steps {
        put_step(&mut line, &mut tokens, *step);
        line.put(",");
    }
    Ok(line.whole()?)
}

#[test]
fn a_cursor_reads_what_comes_next_and_leaves_what_it_refuses(rt: HostRuntime) -> Result<(), Fail> {
    for row in CALLS.iter() {
        assert_eq!(rt; answers(rt.alloc(), row.0, row.1)?.as_str(), row.2);
    }
    Ok(())
}
