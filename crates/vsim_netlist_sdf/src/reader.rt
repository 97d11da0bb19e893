//! A file that is being read: groups between parentheses, each with a keyword.

use std::alloc::{AllocError, Global};
use std::collections::HashMap;
use vsim_netlist_design::{CheckList, Delays, Draft, Fault, fault_at, line_of};
use vsim_netlist_sdf_text::{Token, Tokens, parts_of, tokens_of};

/// Which of three values counts.
#[derive(Clone, Copy, PartialEq, Eq)]
pub enum Corner {
    Minimum,
    Typical,
    Maximum,
}

/// What the delays of the present cell are of.
#[derive(Clone, Copy, PartialEq, Eq)]
pub(crate) enum Target {
    Nothing,
    Instance(usize),
    /// All cells of a kind.
    Kind(usize),
}

/// A file, as far as it has been read.
#[derive(Drop)]
pub(crate) struct Reader<'a> {
    pub(crate) alloc: Global,
    pub(crate) tokens: Tokens<'a>,
    pub(crate) corner: Corner,
    pub(crate) divider: char,
    /// The unit of times, as a power of ten of femtoseconds.
    pub(crate) scale: i64,
    pub(crate) delays: Box<Delays>,
    pub(crate) checks: CheckList,
    /// The indices of conditions by their texts.
    pub(crate) conditions: HashMap<String, usize>,
    /// The kind and the instance of the present cell.
    pub(crate) kind: &'a str,
    pub(crate) instance: String,
    pub(crate) target: Target,
    pub(crate) is_increment: bool,
    /// The keyword of the present group, and its line.
    pub(crate) keyword: &'a str,
    pub(crate) line: usize,
    /// The number of entries so far.
    pub(crate) entries: usize,
}

/// A token, as a refusal names it.
fn shown<'a>(token: Token<'a>) -> &'a str {
    match token {
        Token::Word(text) | Token::Quoted(text) => text,
        Token::Open => "(",
        Token::Close => ")",
        Token::EndOfFile => "the end of the file",
        Token::Broken(told) => told,
    }
}

/// The refusal of a token that stands where another is wanted.
fn misplaced(alloc: Global, line: usize, token: &str, wanted: &str) -> Fault {
    let token = line_of(alloc, token);
    let mut text = Draft::new(alloc);
    text.push_shown(&line);
    text.push(": '");
    text.push_draft(&token);
    text.push_all(&["' stands where ", wanted, " is wanted"]);
    Fault::of_draft(text)
}

/// Whether a word is a name as it stands.
fn is_plain(word: &str, divider: char) -> bool {
    for character in word.chars() {
        if character == '\\' || character == divider {
            return false;
        }
    }
    true
}

/// The depth of groups after a token.
pub(crate) fn deeper(depth: usize, token: Token<'_>) -> usize {
    match token {
        Token::Open => depth.saturating_add(1),
        Token::Close => depth.saturating_sub(1),
        _ => depth,
    }
}

impl<'a> Reader<'a> {
    /// A file of which nothing has been read, whose delays are added to these.
    pub(crate) fn new(
        alloc: Global,
        text: &'a [u8],
        corner: Corner,
        delays: Box<Delays>,
    ) -> Reader<'a> {
        Reader {
            alloc,
            tokens: tokens_of(text),
            corner,
            divider: '.',
            scale: 6,
            delays,
            checks: CheckList::new(alloc),
            conditions: HashMap::new(alloc),
            kind: "",
            instance: String::new(alloc),
            target: Target::Nothing,
            is_increment: false,
            keyword: "",
            line: 1,
            entries: 0,
        }
    }

    /// The delays and checks that have been read.
    pub(crate) fn into_parts(self) -> (Box<Delays>, CheckList) {
        let Reader {
            alloc: _,
            tokens: _,
            corner: _,
            divider: _,
            scale: _,
            delays,
            checks,
            conditions: _conditions,
            kind: _,
            instance: _instance,
            target: _,
            is_increment: _,
            keyword: _,
            line: _,
            entries: _,
        } = self;
        (delays, checks)
    }

    /// A fault on the line of the present keyword.
    pub(crate) fn fault(&self, parts: &[&str]) -> Fault {
        fault_at(self.alloc, self.line, parts)
    }

    /// A fault on a line, whose text was put together.
    pub(crate) fn fault_of(&self, line: usize, told: Draft) -> Fault {
        match told.finish() {
            Ok(told) => fault_at(self.alloc, line, &[told.as_str()]),
            Err(_lack) => Fault::Memory,
        }
    }

    /// The refusal of the present keyword.
    pub(crate) fn unsupported(&self) -> Fault {
        let mut told = Draft::of(self.alloc, "'");
        told.push_draft(&line_of(self.alloc, self.keyword));
        told.push("' is not supported here");
        self.fault_of(self.line, told)
    }

    /// The refusal of the present token.
    pub(crate) fn unexpected(&self, wanted: &str) -> Fault {
        let (alloc, line) = (self.alloc, self.tokens.token_line);
        match self.tokens.token {
            Token::Broken(told) => fault_at(alloc, line, &[told]),
            Token::EndOfFile => {
                fault_at(
                    alloc,
                    line,
                    &["the file ends, where ", wanted, " is wanted"],
                )
            }
            token => misplaced(alloc, line, shown(token), wanted),
        }
    }

    /// Takes the keyword of a group.
    fn take_keyword(&mut self) -> Result<(), Fault> {
        let Token::Word(word) = self.tokens.token else {
            return Err(self.unexpected("a keyword"));
        };
        self.keyword = word;
        self.line = self.tokens.token_line;
        self.tokens.advance();
        Ok(())
    }

    /// Takes the head of the next group, or returns `false` at the end of the one around it.
    pub(crate) fn enter(&mut self) -> Result<bool, Fault> {
        match self.tokens.token {
            Token::Close => {
                self.tokens.advance();
                Ok(false)
            }
            Token::Open => {
                self.tokens.advance();
                self.take_keyword()?;
                Ok(true)
            }
            _ => Err(self.unexpected("a parenthesis")),
        }
    }

    /// Takes the end of a group.
    pub(crate) fn close(&mut self) -> Result<(), Fault> {
        if self.tokens.token != Token::Close {
            return Err(self.unexpected("a closing parenthesis"));
        }
        self.tokens.advance();
        Ok(())
    }

    /// Goes past the rest of a group.
    pub(crate) fn skip(&mut self) -> Result<(), Fault> {
        let mut depth = 1usize;
        for _ in 0..u64::MAX {
            if matches!(self.tokens.token, Token::EndOfFile | Token::Broken(_)) {
                break;
            }
            depth = deeper(depth, self.tokens.token);
            self.tokens.advance();
            if depth == 0 {
                return Ok(());
            }
        }
        Err(self.unexpected("a closing parenthesis"))
    }

    /// Goes past the rest of a group that has no effect, and counts it.
    pub(crate) fn pass(&mut self, name: &'static str) -> Result<(), Fault> {
        self.delays.pass(name)?;
        self.skip()
    }

    /// Whether the present token is this word.
    pub(crate) fn is_at(&self, word: &str) -> bool {
        match self.tokens.token {
            Token::Word(found) => found == word,
            _ => false,
        }
    }

    /// Takes a word.
    pub(crate) fn word(&mut self, wanted: &str) -> Result<&'a str, Fault> {
        let Token::Word(word) = self.tokens.token else {
            return Err(self.unexpected(wanted));
        };
        self.tokens.advance();
        Ok(word)
    }

    /// The index of a pin.
    fn place_of_pin(&mut self, word: &str) -> Result<usize, AllocError> {
        if is_plain(word, self.divider) {
            return self.delays.pins.place(self.alloc, word);
        }
        let name = parts_of(self.alloc, word, self.divider).whole().finish()?;
        self.delays.pins.place(self.alloc, name.as_str())
    }

    /// Takes a pin of the present cell.
    pub(crate) fn pin(&mut self) -> Result<usize, Fault> {
        let word = self.word("a pin")?;
        Ok(self.place_of_pin(word)?)
    }
}
