//! Readers of parts of a text: the tree that each reads, as a line, and the number of tokens left.

use crate::line::Line;
use crate::written::declarations::{put_declarations, put_ports, put_variables};
use crate::written::expressions::put_expression;
use crate::written::statements::put_statements;
use crate::written::waveforms::{put_assignment, put_delay, put_time, put_waveform};
use sim_text::{MOST_BYTES, lexemes_within};
use sim_text_grammar::ParseError;
use sim_text_reader::Cursor;
use sim_text_reader::declarations::{declarations, names, ports, repeated, variables};
use sim_text_reader::expressions::expression;
use sim_text_reader::statements::{label_again, statements};
use sim_text_reader::waveforms::{assigned, delay, time, waveform};
use sim_text_tree::name::Name;
use std::alloc::Global;
use std::test::Fail;

/// A part of a text that has a reader.
#[derive(Clone, Copy)]
enum Part {
    Expression,
    /// Where an expression starts.
    Start,
    Waveform,
    Time,
    Delay,
    /// An assignment with its target.
    Assigned,
    Names,
    Ports,
    Variables,
    Declarations,
    Statements,
    /// Whether the name `t` is repeated.
    Repeated,
    /// Whether the first word is repeated, as a label.
    Label,
    /// Whether a label that does not exist is repeated.
    NoLabel,
}

static PARTS: [(Part, &str, &str, usize); 48] = [
    (
        Part::Expression,
        "A and b and not c and d",
        "a@0 and@2 b@6 and@8 not@12 c@16 and@18 d@22",
        0,
    ),
    (Part::Expression, "a nand b nand c", "a@0 nand@2 b@7", 2),
    (Part::Expression, "a and b or c", "a@0 and@2 b@6", 2),
    (
        Part::Expression,
        "(a xor '1')xnor(not b)",
        "(@0 a@1 xor@3 '1'@7) xnor@11 (@15 not@16 b@20)",
        0,
    ),
    (
        Part::Expression,
        "a = b or c /= '-' or(d nor e) = not f'event",
        "a@0 =@2 b@4 or@6 c@9 /=@11 '-'@14 or@18 (@20 d@21 nor@23 e@27) =@30 not@32 f@36'event",
        0,
    ),
    (
        Part::Expression,
        "not Rising_Edge(CLK);",
        "not@0 rising_edge@4(clk@16)",
        1,
    ),
    (
        Part::Expression,
        "?? (a and (?? b)) and c",
        "??@0 (@3 a@4 and@6 (@10 ??@11 b@14))",
        2,
    ),
    (Part::Expression, "?? not a", "Syntax with 2 left", 2),
    (Part::Start, " '0'", "1", 0),
    (Part::Start, "s", "0", 0),
    (Part::Start, "  s'event", "2", 0),
    (Part::Start, " rising_edge(c)", "1", 0),
    (Part::Start, " (a)", "1", 0),
    (Part::Start, "  not a", "2", 0),
    (Part::Start, "  ?? a", "2", 0),
    (Part::Start, " a = b", "1", 0),
    (Part::Start, "  a = b and c", "2", 0),
    (
        Part::Waveform,
        "'0', a after 1_0 ps, b after 007 NS when",
        "'0'@0,a@5 after 10@13 ps,b@21 after 007@29 ns",
        1,
    ),
    (Part::Time, "1fs", "1@0 fs", 0),
    (Part::Time, " 2 PS", "2@1 ps", 0),
    (Part::Time, "3 ns", "3@0 ns", 0),
    (Part::Time, "4 us", "4@0 us", 0),
    (Part::Time, "5 ms", "5@0 ms", 0),
    (Part::Time, "0_6 sec", "06@0 sec", 0),
    (Part::Time, "7 min", "7@0 min", 0),
    (Part::Time, "1 Hr", "1@0 hr", 0),
    (Part::Delay, "a", "", 1),
    (Part::Delay, "transport a", "transport ", 1),
    (Part::Delay, "inertial a", "inertial ", 1),
    (
        Part::Delay,
        "reject 2 ns inertial a",
        "reject 2@7 ns inertial ",
        1,
    ),
    (
        Part::Assigned,
        "S <= transport a;",
        "s@0<=transport a@15;",
        0,
    ),
    (Part::Assigned, "s <= a when b;", "s@0<=a@5 when b@12;", 0),
    (
        Part::Assigned,
        "s <= inertial a when b else c, d when e else '1' after 1 hr;",
        "s@0<=inertial a@14 when b@21 else c@28,d@31 when e@38 else '1'@45 after 1@55 hr;",
        0,
    ),
    (Part::Names, "a, B , c;", "a@0,b@3,c@7", 1),
    (Part::Ports, "end", "", 1),
    (
        Part::Ports,
        "port (signal A, b : in Std_Logic := '1'; c : std_ulogic; d : out std_logic; f : inout std_logic := True); end",
        "port(signal a@13,b@16:in std_logic@23:='1'@36;c@41:std_ulogic@45;d@57:out std_logic@65;f@76:inout std_logic@86:=true@99);",
        1,
    ),
    (
        Part::Variables,
        "variable v, w : std_logic := 'L'; variable b : boolean; begin",
        "variable v@9,w@12:std_logic@16:='L'@29;variable b@43:boolean@47;",
        1,
    ),
    (
        Part::Declarations,
        "signal s, Q_1 : std_logic := 'Z'; component c is port (i : in std_logic); end component C; component d end component; begin",
        "signal s@7,q_1@10:std_logic@16:='Z'@29;component c@44 is port(i@55:in std_logic@62);end component again;component d@101 end component;",
        1,
    ),
    (
        Part::Statements,
        "l:v := a; w := not b; n:null; null; m:q <= inertial '0'; q <= transport v after 5 fs, w; end",
        "l@0:v@2:=a@7;w@10:=not@15 b@19;n@22:null;null;m@36:q@38<=inertial '0'@52;q@57<=transport v@72 after 5@80 fs,w@86;",
        1,
    ),
    (
        Part::Statements,
        "i:if a then null; elsif b then q <= v; elsif c then else end if; if d then j:if e then end if J; else null; end if; end",
        "i@0:if a@5 then null;elsif b@24 then q@31<=v@36;elsif c@45 then else end if;if d@68 then j@75:if e@80 then end if again;else null;end if;",
        1,
    ),
    (Part::Repeated, "T;", "true", 1),
    (Part::Repeated, ";", "false", 1),
    (Part::Repeated, "x;", "Syntax with 2 left", 2),
    (Part::Label, "l L;", "true", 1),
    (Part::Label, "l ;", "false", 1),
    (Part::Label, "l m;", "Syntax with 2 left", 2),
    (Part::NoLabel, ";", "false", 1),
    (Part::NoLabel, "l;", "Syntax with 2 left", 2),
];

/// Appends the expression that is read, or the error.
fn put_expression_read(line: &mut Line, alloc: Global, tokens: &mut Cursor<'_>) {
    match expression(alloc, tokens) {
        Ok(tree) => put_expression(line, &tree),
        Err(error) => line.put_refusal(error),
    }
}

/// Appends the offset of the expression that is read, or the error.
fn put_start(line: &mut Line, alloc: Global, tokens: &mut Cursor<'_>) {
    match expression(alloc, tokens) {
        Ok(tree) => line.put_number(tree.start()),
        Err(error) => line.put_refusal(error),
    }
}

/// Appends the waveform that is read, or the error.
fn put_waveform_read(line: &mut Line, alloc: Global, tokens: &mut Cursor<'_>) {
    match waveform(alloc, tokens) {
        Ok(tree) => put_waveform(line, tree.as_slice()),
        Err(error) => line.put_refusal(error),
    }
}

/// Appends the time that is read, or the error.
fn put_time_read(line: &mut Line, tokens: &mut Cursor<'_>) {
    match time(tokens) {
        Ok(tree) => put_time(line, &tree),
        Err(error) => line.put_refusal(error),
    }
}

/// Appends the delay mechanism that is read, or the error.
fn put_delay_read(line: &mut Line, tokens: &mut Cursor<'_>) {
    match delay(tokens) {
        Ok(tree) => put_delay(line, &tree),
        Err(error) => line.put_refusal(error),
    }
}

/// Appends the assignment that is read after its target, or the error.
fn put_assigned(line: &mut Line, alloc: Global, tokens: &mut Cursor<'_>, target: Name) {
    match assigned(alloc, tokens, None, false, target) {
        Ok(tree) => put_assignment(line, &tree),
        Err(error) => line.put_refusal(error),
    }
}

/// Appends the names that are read, or the error.
fn put_names_read(line: &mut Line, alloc: Global, tokens: &mut Cursor<'_>) {
    match names(alloc, tokens) {
        Ok(tree) => line.put_names(tree.as_slice()),
        Err(error) => line.put_refusal(error),
    }
}

/// Appends the port clause that is read, or the error.
fn put_ports_read(line: &mut Line, alloc: Global, tokens: &mut Cursor<'_>) {
    match ports(alloc, tokens) {
        Ok(tree) => put_ports(line, tree.as_slice()),
        Err(error) => line.put_refusal(error),
    }
}

/// Appends the variable declarations that are read, or the error.
fn put_variables_read(line: &mut Line, alloc: Global, tokens: &mut Cursor<'_>) {
    match variables(alloc, tokens) {
        Ok(tree) => put_variables(line, tree.as_slice()),
        Err(error) => line.put_refusal(error),
    }
}

/// Appends the declarations that are read, or the error.
fn put_declarations_read(line: &mut Line, alloc: Global, tokens: &mut Cursor<'_>) {
    match declarations(alloc, tokens) {
        Ok(tree) => put_declarations(line, tree.as_slice()),
        Err(error) => line.put_refusal(error),
    }
}

/// Appends the sequential statements that are read, or the error.
fn put_statements_read(line: &mut Line, alloc: Global, tokens: &mut Cursor<'_>) {
    match statements(alloc, tokens) {
        Ok(tree) => put_statements(line, tree.as_slice()),
        Err(error) => line.put_refusal(error),
    }
}

/// Appends whether something was read, or the error.
fn put_answer(line: &mut Line, answer: Result<bool, ParseError>) {
    match answer {
        Ok(found) => line.put_truth(found),
        Err(error) => line.put_refusal(error),
    }
}

/// Reads a part that begins with a name.
fn put_named(line: &mut Line, alloc: Global, tokens: &mut Cursor<'_>, part: Part) {
    match tokens.word() {
        Ok(name) => match part {
            Part::Assigned => put_assigned(line, alloc, tokens, name),
            _ => put_answer(line, label_again(tokens, &Some(name))),
        },
        Err(error) => line.put_refusal(error),
    }
}

/// Reads a part of a text, and appends the result.
fn put_part(line: &mut Line, alloc: Global, tokens: &mut Cursor<'_>, part: Part) {
    match part {
        Part::Expression => put_expression_read(line, alloc, tokens),
        Part::Start => put_start(line, alloc, tokens),
        Part::Waveform => put_waveform_read(line, alloc, tokens),
        Part::Time => put_time_read(line, tokens),
        Part::Delay => put_delay_read(line, tokens),
        Part::Names => put_names_read(line, alloc, tokens),
        Part::Ports => put_ports_read(line, alloc, tokens),
        Part::Variables => put_variables_read(line, alloc, tokens),
        Part::Declarations => put_declarations_read(line, alloc, tokens),
        Part::Statements => put_statements_read(line, alloc, tokens),
        Part::Repeated => put_answer(line, repeated(tokens, b"t".as_slice())),
        Part::NoLabel => put_answer(line, label_again(tokens, &None)),
        Part::Assigned | Part::Label => put_named(line, alloc, tokens, part),
    }
}

/// The result at the front of a text, and the number of tokens left.
fn read(alloc: Global, text: &str, part: Part) -> Result<(String, usize), Fail> {
    let source = text.as_bytes();
    let lexemes = lexemes_within(alloc, source, MOST_BYTES)?;
    let mut tokens = Cursor::new(alloc, source, lexemes.as_slice());
    let mut line = Line::new(alloc);
    put_part(&mut line, alloc, &mut tokens, part);
    Ok((line.whole()?, tokens.left()))
}

#[test]
fn parts_keep_their_words_and_places(rt: HostRuntime) -> Result<(), Fail> {
    for row in PARTS.iter() {
        let found = read(rt.alloc(), row.1, row.0)?;
        assert_eq!(rt; found.0.as_str(), row.2);
        assert_eq!(rt; found.1, row.3, "{}", row.1);
    }
    Ok(())
}
