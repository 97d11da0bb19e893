//! Declarations (IEEE 1076-2008, 6).

ghost use Rattle.std.specs.Prelude.{◌≡◌, Ok};
ghost use Rattle.sim_text_grammar.specs.Declarations as spec;
ghost use Rattle.sim_text_tokens.specs.declared.kind.Kind.TheVariants as k;
ghost use Rattle.sim_text_grammar.specs.Readers.{Reads, and_then, pure, expect};

use crate::cursor::Cursor;
use crate::lists::{add, first_of, push};
use sim_text_grammar::ParseError;
use sim_text_tokens::Kind;
use sim_text_tree::declaration::{
    ComponentDeclaration, Declaration, Initial, Mode, ObjectDeclaration, PortDeclaration,
};
use sim_text_tree::list::{NonEmpty, fitted};
use sim_text_tree::name::Name;
use sqlite_items::Items;
use std::alloc::Global;

/// Reads one or more names, separated by commas.
#[tactic(auto, using(sim_text_grammar::proofs::Parts::halves), unfolding(sim_text_grammar::specs::Declarations::names))]
pub fn names(alloc: Global, tokens: &mut Cursor<'_>) -> Result<NonEmpty<Name>, ParseError>
    ensures { Reads (spec.names tokens.old) result tokens.new }
{
    let first = tokens.word();
    let mut found = first_of(alloc, first)?;
    for _turn in 0..tokens.left() {
        if !tokens.sees(Kind::Comma) {
            return Ok(found.fitted());
        }
        tokens.take();
        let next = tokens.word();
        add(&mut found, next)?;
    }
    Ok(found.fitted())
}

/// Reads the repeated name if a word is next, and returns whether one was. `Syntax` at a different
/// word.
#[tactic(auto, unfolding(sim_text_grammar::specs::Declarations::repeated))]
pub fn repeated(tokens: &mut Cursor<'_>, text: &[u8]) -> Result<bool, ParseError>
    ensures { Reads (spec.repeated text.now tokens.old) result tokens.new }
{
    if tokens.sees(Kind::Word) {
        tokens.repeat(text)?;
        Ok(true)
    } else {
        Ok(false)
    }
}

/// `[init]`, with `init = := (lit | id)`
#[tactic(auto, unfolding(sim_text_grammar::specs::Declarations::initial))]
fn initial(tokens: &mut Cursor<'_>) -> Result<Option<Initial>, ParseError>
    ensures { Reads (spec.initial tokens.old) result tokens.new }
{
    if !tokens.eat(Kind::VariableAssign) {
        return Ok(None);
    }
    match tokens.peek() {
        Kind::Literal => {
            let (value, at) = tokens.literal()?;
            Ok(Some(Initial::Literal { value, at }))
        }
        _ => Ok(Some(Initial::Named(tokens.word()?))),
    }
}

/// `[in | out | inout]`
#[tactic(auto, unfolding(sim_text_grammar::specs::Declarations::mode))]
fn mode(tokens: &mut Cursor<'_>) -> Option<Mode>
    ensures { spec.mode tokens.old ≡ Ok (result, tokens.new) }
{
    match tokens.peek() {
        Kind::In => {
            tokens.take();
            Some(Mode::In)
        }
        Kind::Out => {
            tokens.take();
            Some(Mode::Out)
        }
        Kind::Inout => {
            tokens.take();
            Some(Mode::Inout)
        }
        _ => None,
    }
}

/// `[in | out | inout] id [init]`, after the names and the colon.
#[tactic(auto, unfolding(sim_text_grammar::specs::Declarations::port_of))]
fn port_of(
    tokens: &mut Cursor<'_>,
    signal: bool,
    names: NonEmpty<Name>,
) -> Result<PortDeclaration, ParseError>
    ensures { Reads (spec.port_of signal names tokens.old) result tokens.new }
{
    tokens.expect(Kind::Colon)?;
    let mode = mode(tokens);
    let mark = tokens.word()?;
    let initial = initial(tokens)?;
    Ok(PortDeclaration {
        signal,
        names,
        mode,
        mark,
        initial,
    })
}

/// `port1 = [signal] id {, id} : [in | out | inout] id [init]`
#[tactic(auto, unfolding(sim_text_grammar::specs::Declarations::port))]
fn port(alloc: Global, tokens: &mut Cursor<'_>) -> Result<PortDeclaration, ParseError>
    ensures { Reads (spec.port tokens.old) result tokens.new }
{
    let signal = tokens.eat(Kind::Signal);
    let names = names(alloc, tokens)?;
    port_of(tokens, signal, names)
}

/// `port1 {; port1}`
#[tactic(auto, using(sim_text_grammar::proofs::Parts::halves), unfolding(sim_text_grammar::specs::Declarations::port_list))]
fn port_list(alloc: Global, tokens: &mut Cursor<'_>) -> Result<Items<PortDeclaration>, ParseError>
    ensures { Reads (spec.port_list tokens.old) result tokens.new }
{
    let first = port(alloc, tokens);
    let mut found = Vec::new(alloc);
    push(&mut found, first)?;
    for _turn in 0..tokens.left() {
        if !tokens.sees(Kind::Semicolon) {
            return Ok(fitted(found));
        }
        tokens.take();
        let next = port(alloc, tokens);
        push(&mut found, next)?;
    }
    Ok(fitted(found))
}

/// Reads a port clause, if one is written (IEEE 1076-2008, 6.5.6.3). Without one there are no
/// ports.
pub fn ports(alloc: Global, tokens: &mut Cursor<'_>) -> Result<Items<PortDeclaration>, ParseError>
    ensures { Reads (spec.ports tokens.old) result tokens.new }
{
    if !tokens.eat(Kind::Port) {
        return Ok(Items::new(alloc));
    }
    tokens.expect(Kind::LeftParen)?;
    let found = port_list(alloc, tokens)?;
    tokens.expect_both(Kind::RightParen, Kind::Semicolon)?;
    Ok(found)
}

/// Reads an initial value, if one is written, and the semicolon after it.
fn initial_ended(tokens: &mut Cursor<'_>) -> Result<Option<Initial>, ParseError>
    ensures { Reads (and_then (spec.initial tokens.old) (λ first i. and_then (expect k.Semicolon i) (λ _. pure first))) result tokens.new }
{
    let initial = initial(tokens)?;
    tokens.past(Kind::Semicolon, initial)
}

/// `id {, id} : id [init] ;`, after `signal` or `variable`.
fn object(alloc: Global, tokens: &mut Cursor<'_>) -> Result<ObjectDeclaration, ParseError>
    ensures { Reads (spec.object tokens.old) result tokens.new }
{
    let names = names(alloc, tokens)?;
    let mark = tokens.word_after(Kind::Colon)?;
    let initial = initial_ended(tokens)?;
    Ok(ObjectDeclaration {
        names,
        mark,
        initial,
    })
}

/// Reads the variable declarations of a process (IEEE 1076-2008, 6.4.2.4).
#[tactic(auto, unfolding(sim_text_grammar::specs::Declarations::variables, sim_text_grammar::specs::Readers::many))]
pub fn variables(
    alloc: Global,
    tokens: &mut Cursor<'_>,
) -> Result<Items<ObjectDeclaration>, ParseError>
    ensures { Reads (spec.variables tokens.old) result tokens.new }
{
    let mut found = Vec::new(alloc);
    for _turn in 0..tokens.left() {
        if !tokens.sees(Kind::Variable) {
            return Ok(fitted(found));
        }
        tokens.take();
        let variable = object(alloc, tokens);
        push(&mut found, variable)?;
    }
    Ok(fitted(found))
}

/// Reads the repeated name, if a word is next, and the semicolon after it; returns whether the name
/// was repeated.
fn name_ended(tokens: &mut Cursor<'_>, text: &[u8]) -> Result<bool, ParseError>
    ensures { Reads (and_then (spec.repeated text.now tokens.old) (λ again i. and_then (expect k.Semicolon i) (λ _. pure again)))
        result tokens.new }
{
    let name_repeated = repeated(tokens, text)?;
    tokens.past(Kind::Semicolon, name_repeated)
}

/// `end component [NAME] ;`
fn component_end(
    tokens: &mut Cursor<'_>,
    name: Name,
    is: bool,
    ports: Items<PortDeclaration>,
) -> Result<ComponentDeclaration, ParseError>
    ensures { Reads (spec.component_end name is ports tokens.old) result tokens.new }
{
    tokens.expect_both(Kind::End, Kind::Component)?;
    let name_repeated = name_ended(tokens, name.text())?;
    Ok(ComponentDeclaration {
        name,
        is,
        ports,
        name_repeated,
    })
}

/// `component id [is] [ports] end component [NAME] ;`
#[tactic(auto, using(crate::proofs::UnitParts::component_in_parts))]
fn component(alloc: Global, tokens: &mut Cursor<'_>) -> Result<ComponentDeclaration, ParseError>
    ensures { Reads (spec.component tokens.old) result tokens.new }
{
    let name = tokens.word_after(Kind::Component)?;
    let is = tokens.eat(Kind::Is);
    let ports = ports(alloc, tokens)?;
    component_end(tokens, name, is, ports)
}

/// Whether a token of this kind can begin `decl`.
fn begins_declaration(kind: Kind) -> bool
    ensures { result ≡ spec.begins_declaration kind }
{
    matches!(kind, Kind::Signal | Kind::Component)
}

/// `decl = signal id {, id} : id [init] ; | component id [is] [ports] end component [NAME] ;`
#[tactic(auto, unfolding(sim_text_grammar::specs::Declarations::declaration))]
fn declaration(alloc: Global, tokens: &mut Cursor<'_>) -> Result<Declaration, ParseError>
    ensures { Reads (spec.declaration tokens.old) result tokens.new }
{
    match tokens.peek() {
        Kind::Signal => {
            tokens.take();
            object(alloc, tokens).map(Declaration::Signal)
        }
        _ => component(alloc, tokens).map(Declaration::Component),
    }
}

/// Reads the declarations of an architecture (IEEE 1076-2008, 3.3.2).
#[tactic(auto, unfolding(sim_text_grammar::specs::Declarations::declarations, sim_text_grammar::specs::Readers::many))]
pub fn declarations(
    alloc: Global,
    tokens: &mut Cursor<'_>,
) -> Result<Items<Declaration>, ParseError>
    ensures { Reads (spec.declarations tokens.old) result tokens.new }
{
    let mut found = Vec::new(alloc);
    for _turn in 0..tokens.left() {
        if !begins_declaration(tokens.peek()) {
            return Ok(fitted(found));
        }
        let declaration = declaration(alloc, tokens);
        push(&mut found, declaration)?;
    }
    Ok(fitted(found))
}
