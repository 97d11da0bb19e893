//! The statements of a Liberty file: attributes and groups.

use crate::tokens::{Token, Tokens};
use std::alloc::Global;
use vsim_netlist_design::{Draft, Fault, fault_at, line_of};

/// The forms of statements.
#[derive(Clone, Copy, PartialEq, Eq)]
pub enum Form {
    /// `NAME : VALUE ;` or `NAME (VALUES) ;`.
    Attribute,
    /// `NAME (VALUES) {`, up to and with the brace.
    Group,
    /// The brace that ends a group.
    End,
    EndOfFile,
}

/// A statement, with the number of its line.
#[derive(Clone, Copy)]
pub struct Statement<'a> {
    pub form: Form,
    pub name: &'a str,
    pub value: &'a str,
    pub line: usize,
}

/// A token, as a refusal names it.
fn shown<'a>(token: Token<'a>) -> &'a str {
    match token {
        Token::Text(text) => text,
        Token::Open => "(",
        Token::Close => ")",
        Token::Begin => "{",
        Token::End => "}",
        Token::Colon => ":",
        Token::Semicolon => ";",
        Token::Comma => ",",
        Token::EndOfFile => "the end of the file",
        Token::Broken(told) => told,
    }
}

/// The refusal of the present token.
pub fn unexpected(alloc: Global, tokens: &Tokens<'_>, wanted: &str) -> Fault {
    let line = tokens.token_line;
    match tokens.token {
        Token::Broken(told) => fault_at(alloc, line, &[told]),
        Token::EndOfFile => fault_at(
            alloc,
            line,
            &["the file ends, where ", wanted, " is wanted"],
        ),
        token => misplaced(alloc, line, shown(token), wanted),
    }
}

/// The refusal of a token that stands where another is wanted.
fn misplaced(alloc: Global, line: usize, token: &str, wanted: &str) -> Fault {
    let token = line_of(alloc, token);
    let mut text = Draft::new(alloc);
    text.push_shown(&line);
    text.push(": '");
    text.push_draft(&token);
    text.push_all(&["' stands where ", wanted, " is wanted"]);
    Fault::of_draft(text)
}

/// Whether the value of an attribute goes on with the present token.
fn goes_on(tokens: &Tokens<'_>) -> bool {
    match tokens.token {
        Token::Text(_) | Token::Open | Token::Close | Token::Comma | Token::Colon => {
            !tokens.is_first
        }
        _ => false,
    }
}

/// Takes the rest of a value of several tokens, and returns where it ends.
fn take_rest(tokens: &mut Tokens<'_>, end: usize) -> usize {
    let mut end = end;
    for _ in 0..u64::MAX {
        if !goes_on(tokens) {
            break;
        }
        end = tokens.end;
        tokens.advance();
    }
    end
}

/// Takes a value: what stands between quotation marks, or all up to a semicolon or the end of the
/// line.
fn take_value<'a>(tokens: &mut Tokens<'a>) -> &'a str {
    let (start, end, first) = (tokens.start, tokens.end, tokens.token);
    tokens.advance();
    if !goes_on(tokens) {
        return match first {
            Token::Text(text) => text,
            _ => "",
        };
    }
    let end = take_rest(tokens, end);
    tokens.between(start, end)
}

/// Reads an attribute from its colon on.
fn read_attribute<'a>(
    alloc: Global,
    tokens: &mut Tokens<'a>,
    name: &'a str,
    line: usize,
) -> Result<Statement<'a>, Fault> {
    tokens.advance();
    match tokens.token {
        Token::Text(_) | Token::Open => {
            let value = take_value(tokens);
            Ok(Statement {
                form: Form::Attribute,
                name,
                value,
                line,
            })
        }
        _ => Err(unexpected(alloc, tokens, "a value")),
    }
}

/// Whether the present token may stand between parentheses.
fn is_inside(token: Token<'_>) -> bool {
    matches!(token, Token::Text(_) | Token::Comma | Token::Colon)
}

/// Takes the tokens up to a closing parenthesis.
fn take_inside(tokens: &mut Tokens<'_>) {
    for _ in 0..u64::MAX {
        if !is_inside(tokens.token) {
            break;
        }
        tokens.advance();
    }
}

/// Takes the form of a statement after its parentheses.
fn take_form(tokens: &mut Tokens<'_>) -> Form {
    if tokens.token == Token::Begin {
        tokens.advance();
        return Form::Group;
    }
    Form::Attribute
}

/// Reads a statement from its opening parenthesis on.
fn read_values<'a>(
    alloc: Global,
    tokens: &mut Tokens<'a>,
    name: &'a str,
    line: usize,
) -> Result<Statement<'a>, Fault> {
    let start = tokens.end;
    tokens.advance();
    take_inside(tokens);
    let end = tokens.start;
    if tokens.token != Token::Close {
        return Err(unexpected(alloc, tokens, "a closing parenthesis"));
    }
    tokens.advance();
    let form = take_form(tokens);
    Ok(Statement {
        form,
        name,
        value: tokens.between(start, end),
        line,
    })
}

/// Reads a statement from its name on.
fn read_named<'a>(
    alloc: Global,
    tokens: &mut Tokens<'a>,
    name: &'a str,
) -> Result<Statement<'a>, Fault> {
    let line = tokens.token_line;
    tokens.advance();
    match tokens.token {
        Token::Colon => read_attribute(alloc, tokens, name, line),
        Token::Open => read_values(alloc, tokens, name, line),
        _ => Err(unexpected(alloc, tokens, "a colon or a parenthesis")),
    }
}

/// The end of a group or of the file.
fn ending<'a>(form: Form, line: usize) -> Statement<'a> {
    Statement {
        form,
        name: "",
        value: "",
        line,
    }
}

/// Goes past semicolons.
fn pass_semicolons(tokens: &mut Tokens<'_>) {
    for _ in 0..u64::MAX {
        if tokens.token != Token::Semicolon {
            break;
        }
        tokens.advance();
    }
}

/// Reads the next statement.
pub fn read_statement<'a>(alloc: Global, tokens: &mut Tokens<'a>) -> Result<Statement<'a>, Fault> {
    pass_semicolons(tokens);
    let line = tokens.token_line;
    match tokens.token {
        Token::Text(name) => read_named(alloc, tokens, name),
        Token::End => {
            tokens.advance();
            Ok(ending(Form::End, line))
        }
        Token::EndOfFile => Ok(ending(Form::EndOfFile, line)),
        _ => Err(unexpected(alloc, tokens, "a statement")),
    }
}

/// The depth of groups after a token.
fn deeper(depth: usize, token: Token<'_>) -> usize {
    match token {
        Token::Begin => depth.saturating_add(1),
        Token::End => depth.saturating_sub(1),
        _ => depth,
    }
}

/// Goes past the rest of a group, whose statements are not read.
pub fn skip_group(alloc: Global, tokens: &mut Tokens<'_>) -> Result<(), Fault> {
    let mut depth = 1usize;
    for _ in 0..u64::MAX {
        if matches!(tokens.token, Token::EndOfFile | Token::Broken(_)) {
            break;
        }
        depth = deeper(depth, tokens.token);
        tokens.advance();
        if depth == 0 {
            return Ok(());
        }
    }
    Err(unexpected(alloc, tokens, "a closing brace"))
}
