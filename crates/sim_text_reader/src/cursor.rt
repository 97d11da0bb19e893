//! A cursor over the tokens of a text.

ghost use Rattle.std.specs.Prelude.{◌≡◌, Ok, Err, IfOk, IfErr};
ghost use Rattle.sim_text_tree.specs.Input as input;
ghost use Rattle.sim_text_grammar.specs.Readers as spec;
ghost use Rattle.sim_text_grammar.specs.Readers.{Reads};

use sim_logic::{Logic, Unit};
use sim_text_grammar::ParseError;
use sim_text_tokens::{Kind, Lexeme, Token};
use sim_text_tree::name::Name;
use sqlite_items::Items;
use std::alloc::Global;
use std::marker::Model;

/// The remaining tokens of a text. A token gets a text of its own when it is read.
#[derive(Drop)]
pub struct Cursor<'t> {
    alloc: Global,
    source: &'t [u8],
    rest: &'t [Lexeme],
}

impl<'t> Model for Cursor<'t> {
    ghost use Rattle.sim_text_tokens.specs.Lexemes.{tokens_at};
    ghost use Rattle.sim_text_tree.specs.Input.{Input};
    ghost use Rattle.sim_text_reader.specs.Cursors.{AreSpelled};

    ghost Value = { Input };

    ghost view = { λ c. tokens_at c.source.now c.rest.now };

    ghost invariant = { λ c. AreSpelled (tokens_at c.source.now c.rest.now) };
}

impl<'t> Cursor<'t> {
    ghost use Rattle.std.specs.Prelude.{◌≡◌, Ok, Err, List, [], ◌∷◌, ◌↔◌, true, false, IsTrue, IfNone, IfSome, IfOk, IfErr};
    ghost use Rattle.sim_text_tokens.specs.Cutting.{AreTokens};
    ghost use Rattle.sim_text_tokens.specs.Lexemes.{tokens_at};
    ghost use Rattle.sim_text_tokens.specs.Token.{Token};

    /// A cursor at the first token of a text, whose tokens these are.
    pub fn new(alloc: Global, source: &'t [u8], lexemes: &'t [Lexeme]) -> Cursor<'t>
        requires { AreTokens source.now (tokens_at source.now lexemes.now) }
        ensures { result ≡ tokens_at source.now lexemes.now }
    {
        Cursor {
            alloc,
            source,
            rest: lexemes,
        }
    }

    /// The number of remaining tokens.
    #[tactic(auto, unfolding(sim_text_grammar::specs::Readers::left))]
    pub fn left(&self) -> usize
        ensures { result ≡ spec.left self.now }
    {
        self.rest.len()
    }

    /// Whether no token remains.
    pub fn is_empty(&self) -> bool
        ensures { IsTrue result ↔ (self.now ≡ []) }
    {
        self.rest.is_empty()
    }

    /// The kind of the next token.
    #[tactic(auto, unfolding(sim_text_tree::specs::Input::kind))]
    pub fn peek(&self) -> Kind
        ensures { result ≡ input.kind self.now }
    {
        match self.rest {
            [lexeme, ..] => lexeme.kind(),
            [] => Kind::EndOfText,
        }
    }

    /// Consumes the next token and returns its offset.
    #[tactic(auto, unfolding(sim_text_tree::specs::Input::next, sim_text_tree::specs::Input::place))]
    pub fn take(&mut self) -> usize
        ensures place { result ≡ input.place self.old }
        ensures next { self.new ≡ input.next self.old }
    {
        match self.rest {
            [lexeme, rest @ ..] => {
                self.rest = rest;
                lexeme.start()
            }
            [] => 0,
        }
    }

    /// Whether the next token is of this kind.
    #[tactic(auto, unfolding(sim_text_grammar::specs::Readers::sees))]
    pub fn sees(&self, kind: Kind) -> bool
        ensures { result ≡ spec.sees kind self.now }
    {
        same_kind(self.peek(), kind)
    }

    /// Consumes the next token if it is of this kind, and returns whether it was.
    #[tactic(auto, unfolding(sim_text_grammar::specs::Readers::eat))]
    pub fn eat(&mut self, kind: Kind) -> bool
        ensures { spec.eat kind self.old ≡ Ok (result, self.new) }
    {
        let found = self.sees(kind);
        if found {
            self.take();
        }
        found
    }

    /// Consumes a token of this kind and returns its offset. `Syntax` if another token is next.
    #[tactic(auto, unfolding(sim_text_grammar::specs::Readers::expect, sim_text_grammar::specs::Readers::left))]
    pub fn expect(&mut self, kind: Kind) -> Result<usize, ParseError>
        ensures { Reads (spec.expect kind self.old) result self.new }
    {
        if self.sees(kind) {
            Ok(self.take())
        } else {
            Err(ParseError::Syntax(self.left()))
        }
    }

    /// Consumes a token of the first kind and one of the second, and returns the offset of the
    /// second. `Syntax` if another token is next.
    pub fn expect_both(&mut self, first: Kind, second: Kind) -> Result<usize, ParseError>
        ensures { Reads (spec.and_then (spec.expect first self.old) (λ _. spec.expect second)) result self.new }
    {
        self.expect(first)?;
        self.expect(second)
    }

    /// Consumes a token of this kind and returns `found`, which was read before it. `Syntax` if
    /// another token is next.
    pub fn past<T: Drop>(&mut self, kind: Kind, found: T) -> Result<T, ParseError>
        ensures { Reads (spec.and_then (spec.expect kind self.old) (λ _. spec.pure found)) result self.new }
    {
        self.expect(kind)?;
        Ok(found)
    }

    /// Consumes a token of this kind and reads the name after it. `Syntax` if another token is
    /// next.
    pub fn word_after(&mut self, kind: Kind) -> Result<Name, ParseError>
        ensures { Reads (spec.and_then (spec.expect kind self.old) (λ _. spec.word)) result self.new }
    {
        self.expect(kind)?;
        self.word()
    }

    /// The next token with its text, if it is of this kind.
    #[tactic(auto, unfolding(sim_text_tree::specs::Input::place))]
    fn next_of(&self, kind: Kind) -> Result<Option<Token>, ParseError>
        ensures some { IfOk result (λ o. IfSome o (λ t. (rest : List Token) × (self.now ≡ t ∷ rest) × (spec.same_kind t.kind kind ≡ true))) }
        ensures place { IfOk result (λ o. IfSome o (λ t. t.start ≡ input.place self.now)) }
        ensures none { IfOk result (λ o. IfNone o ((t : Token) (rest : List Token) → self.now ≡ t ∷ rest → spec.same_kind t.kind kind ≡ false)) }
        ensures err { IfErr result (λ e. e ≡ ParseError.OutOfMemory) }
    {
        match self.rest {
            [lexeme, ..] if same_kind(lexeme.kind(), kind) => {
                let token = lexeme.to_token(self.alloc, self.source)?;
                Ok(Some(token))
            }
            _ => Ok(None),
        }
    }

    /// Reads a name. `Syntax` if no name is next.
    #[tactic(auto, unfolding(sim_text_grammar::specs::Readers::word, sim_text_grammar::specs::Readers::left, sim_text_tree::specs::Input::next))]
    pub fn word(&mut self) -> Result<Name, ParseError>
        ensures { Reads (spec.word self.old) result self.new }
    {
        let Some(token) = self.next_of(Kind::Word)? else {
            return Err(ParseError::Syntax(self.left()));
        };
        self.take();
        Ok(Name::of(token))
    }

    /// Reads a character literal; also returns its offset. `Syntax` if none is next.
    #[tactic(auto, unfolding(sim_text_grammar::specs::Readers::literal, sim_text_grammar::specs::Readers::left, sim_text_tree::specs::Input::next))]
    pub fn literal(&mut self) -> Result<(Logic, usize), ParseError>
        ensures { Reads (spec.literal self.old) result self.new }
    {
        let Some(token) = self.next_of(Kind::Literal)? else {
            return Err(ParseError::Syntax(self.left()));
        };
        let Some(value) = logic_of(token.text()) else {
            return Err(ParseError::Syntax(self.left()));
        };
        Ok((value, self.take()))
    }

    /// Reads a number; returns its digits and its offset. `Syntax` if none is next.
    #[tactic(auto, unfolding(sim_text_grammar::specs::Readers::number, sim_text_grammar::specs::Readers::left, sim_text_tree::specs::Input::next))]
    pub fn number(&mut self) -> Result<(Items<u8>, usize), ParseError>
        ensures { Reads (spec.number self.old) result self.new }
    {
        let Some(token) = self.next_of(Kind::Number)? else {
            return Err(ParseError::Syntax(self.left()));
        };
        let at = self.take();
        Ok((token.into_text(), at))
    }

    /// Reads a unit of time (5.2.4). `Syntax` if the next token is none.
    #[tactic(auto, unfolding(sim_text_grammar::specs::Readers::unit, sim_text_grammar::specs::Readers::left, sim_text_tree::specs::Input::next))]
    pub fn unit(&mut self) -> Result<Unit, ParseError>
        ensures { Reads (spec.unit self.old) result self.new }
    {
        let Some(token) = self.next_of(Kind::Word)? else {
            return Err(ParseError::Syntax(self.left()));
        };
        let Some(unit) = unit_in(token.text()) else {
            return Err(ParseError::Syntax(self.left()));
        };
        self.take();
        Ok(unit)
    }

    /// Consumes this word. `Syntax` if another token is next.
    #[tactic(auto, unfolding(sim_text_grammar::specs::Readers::repeat, sim_text_grammar::specs::Readers::left, sim_text_tree::specs::Input::next))]
    pub fn repeat(&mut self, text: &[u8]) -> Result<(), ParseError>
        ensures { Reads (spec.repeat text.now self.old) result self.new }
    {
        let Some(token) = self.next_of(Kind::Word)? else {
            return Err(ParseError::Syntax(self.left()));
        };
        if token.text() != text {
            return Err(ParseError::Syntax(self.left()));
        }
        self.take();
        Ok(())
    }

    /// Consumes the word `event`. `Syntax` if another token is next.
    #[tactic(auto, unfolding(sim_text_grammar::specs::Readers::event, sim_text_grammar::specs::Readers::repeat))]
    pub fn event(&mut self) -> Result<(), ParseError>
        ensures { Reads (spec.event self.old) result self.new }
    {
        self.repeat(b"event".as_slice())
    }
}

/// The first result with the second, or the fault of the second.
pub fn both<A: Drop, B: Drop>(first: A, second: Result<B, ParseError>) -> Result<(A, B), ParseError>
    ensures ok { IfOk result (λ found. (found.0 ≡ first) × (second ≡ Ok found.1)) }
    ensures err { IfErr result (λ e. second ≡ Err e) }
{
    match second {
        Ok(second) => Ok((first, second)),
        Err(error) => Err(error),
    }
}

/// Equality of kinds, as the grammar's readers define it.
#[tactic(auto, unfolding(sim_text_grammar::specs::Readers::same_kind))]
fn same_kind(a: Kind, b: Kind) -> bool
    ensures { result ≡ spec.same_kind a b }
{
    a == b
}

/// The value of a character literal's text.
fn logic_of(text: &[u8]) -> Option<Logic>
    ensures { result ≡ spec.logic_of text.now }
{
    match text {
        b"U" => Some(Logic::U),
        b"X" => Some(Logic::X),
        b"0" => Some(Logic::Zero),
        b"1" => Some(Logic::One),
        b"Z" => Some(Logic::Z),
        b"W" => Some(Logic::W),
        b"L" => Some(Logic::L),
        b"H" => Some(Logic::H),
        b"-" => Some(Logic::Dash),
        _ => None,
    }
}

/// The unit with this name (5.2.4.2).
fn unit_in(text: &[u8]) -> Option<Unit>
    ensures { result ≡ spec.unit_in text.now }
{
    match text {
        b"fs" => Some(Unit::Fs),
        b"ps" => Some(Unit::Ps),
        b"ns" => Some(Unit::Ns),
        b"us" => Some(Unit::Us),
        b"ms" => Some(Unit::Ms),
        b"sec" => Some(Unit::Sec),
        b"min" => Some(Unit::Min),
        b"hr" => Some(Unit::Hr),
        _ => None,
    }
}
