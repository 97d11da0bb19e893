//! Design units and files (IEEE 1076-2008, 13.1).

ghost use Rattle.std.specs.Prelude.{◌≡◌};
ghost use Rattle.sim_text_tokens.specs.declared.kind.Kind.TheVariants as k;
ghost use Rattle.sim_text_grammar.specs.Units as spec;
ghost use Rattle.sim_text_grammar.specs.Declarations.{declarations, names, ports, repeated};
ghost use Rattle.sim_text_grammar.specs.Concurrents.{concurrents};
ghost use Rattle.sim_text_grammar.specs.Readers.{Reads, and_then, pure, eat, expect};

use crate::concurrents::concurrents;
use crate::cursor::Cursor;
use crate::declarations::{declarations, names, ports, repeated};
use crate::lists::{add, first_of, push};
use sim_text_grammar::ParseError;
use sim_text_tokens::Kind;
use sim_text_tree::DesignFile;
use sim_text_tree::declaration::{Declaration, PortDeclaration};
use sim_text_tree::list::{NonEmpty, fitted};
use sim_text_tree::name::Name;
use sim_text_tree::unit::{
    Architecture, Concurrent, ContextItem, DesignUnit, Entity, LibraryUnit, SelectedName,
};
use sqlite_items::Items;
use std::alloc::Global;

/// `{. id} . (id | all)`, and whether it ends in `all`.
#[tactic(auto, unfolding(sim_text_grammar::specs::Units::suffixes, sim_text_grammar::specs::Readers::left))]
fn suffixes(alloc: Global, tokens: &mut Cursor<'_>) -> Result<(Items<Name>, bool), ParseError>
    ensures { Reads (spec.suffixes tokens.old) result tokens.new }
{
    let mut found = Vec::new(alloc);
    for _turn in 0..tokens.left() {
        tokens.expect(Kind::Dot)?;
        if tokens.eat(Kind::All) {
            return Ok((fitted(found), true));
        }
        let name = tokens.word();
        push(&mut found, name)?;
        if !tokens.sees(Kind::Dot) {
            return Ok((fitted(found), false));
        }
    }
    Err(ParseError::Syntax(tokens.left()))
}

/// `sel = id {. id} . (id | all)`
#[tactic(auto, unfolding(sim_text_grammar::specs::Units::selected))]
fn selected(alloc: Global, tokens: &mut Cursor<'_>) -> Result<SelectedName, ParseError>
    ensures { Reads (spec.selected tokens.old) result tokens.new }
{
    let prefix = tokens.word()?;
    let (suffixes, all) = suffixes(alloc, tokens)?;
    Ok(SelectedName {
        prefix,
        suffixes,
        all,
    })
}

/// `sel {, sel}`
#[tactic(auto, using(sim_text_grammar::proofs::Parts::halves), unfolding(sim_text_grammar::specs::Units::selected_names))]
fn selected_names(
    alloc: Global,
    tokens: &mut Cursor<'_>,
) -> Result<NonEmpty<SelectedName>, ParseError>
    ensures { Reads (spec.selected_names tokens.old) result tokens.new }
{
    let first = selected(alloc, tokens);
    let mut found = first_of(alloc, first)?;
    for _turn in 0..tokens.left() {
        if !tokens.sees(Kind::Comma) {
            return Ok(found.fitted());
        }
        tokens.take();
        let next = selected(alloc, tokens);
        add(&mut found, next)?;
    }
    Ok(found.fitted())
}

/// Reads the names of a library clause, and the semicolon after them.
fn library_names(alloc: Global, tokens: &mut Cursor<'_>) -> Result<NonEmpty<Name>, ParseError>
    ensures { Reads (and_then (names tokens.old) (λ found i. and_then (expect k.Semicolon i) (λ _. pure found))) result tokens.new }
{
    let names = names(alloc, tokens)?;
    tokens.past(Kind::Semicolon, names)
}

/// Reads the names of a use clause, and the semicolon after them.
fn used_names(alloc: Global, tokens: &mut Cursor<'_>) -> Result<NonEmpty<SelectedName>, ParseError>
    ensures { Reads (and_then (spec.selected_names tokens.old) (λ found i. and_then (expect k.Semicolon i) (λ _. pure found))) result tokens.new }
{
    let names = selected_names(alloc, tokens)?;
    tokens.past(Kind::Semicolon, names)
}

/// `context = library id {, id} ; | use sel {, sel} ;`
#[tactic(auto, using(crate::proofs::UnitParts::context_in_parts), unfolding(sim_text_grammar::specs::Units::context_item))]
fn context_item(alloc: Global, tokens: &mut Cursor<'_>) -> Result<ContextItem, ParseError>
    ensures { Reads (spec.context_item tokens.old) result tokens.new }
{
    match tokens.peek() {
        Kind::Library => {
            tokens.take();
            let names = library_names(alloc, tokens)?;
            Ok(ContextItem::Library(names))
        }
        _ => {
            tokens.expect(Kind::Use)?;
            let names = used_names(alloc, tokens)?;
            Ok(ContextItem::Use(names))
        }
    }
}

/// Whether a token of this kind can begin `context`.
fn begins_context(kind: Kind) -> bool
    ensures { result ≡ spec.begins_context kind }
{
    matches!(kind, Kind::Library | Kind::Use)
}

/// `{context}`
#[tactic(auto, unfolding(sim_text_grammar::specs::Units::context, sim_text_grammar::specs::Readers::many))]
fn context(alloc: Global, tokens: &mut Cursor<'_>) -> Result<Items<ContextItem>, ParseError>
    ensures { Reads (spec.context tokens.old) result tokens.new }
{
    let mut found = Vec::new(alloc);
    for _turn in 0..tokens.left() {
        if !begins_context(tokens.peek()) {
            return Ok(fitted(found));
        }
        let item = context_item(alloc, tokens);
        push(&mut found, item)?;
    }
    Ok(fitted(found))
}

/// `is [ports]`
fn entity_ports(
    alloc: Global,
    tokens: &mut Cursor<'_>,
) -> Result<Items<PortDeclaration>, ParseError>
    ensures { Reads (and_then (expect k.Is tokens.old) (λ _. ports)) result tokens.new }
{
    tokens.expect(Kind::Is)?;
    ports(alloc, tokens)
}

/// Reads the end of a unit: whether its word is repeated, and whether its name is.
fn unit_end(tokens: &mut Cursor<'_>, word: Kind, name: &[u8]) -> Result<(bool, bool), ParseError>
    ensures { Reads (and_then (expect k.End tokens.old) (λ _ i. and_then (eat word i) (λ with_word i. and_then (repeated name.now i) (λ again i.
        and_then (expect k.Semicolon i) (λ _. pure (with_word, again)))))) result tokens.new }
{
    tokens.expect(Kind::End)?;
    let word_repeated = tokens.eat(word);
    let name_repeated = repeated(tokens, name)?;
    tokens.past(Kind::Semicolon, (word_repeated, name_repeated))
}

/// `entity = entity id is [ports] end [entity] [NAME] ;`
fn entity(alloc: Global, tokens: &mut Cursor<'_>) -> Result<Entity, ParseError>
    ensures { Reads (spec.entity tokens.old) result tokens.new }
{
    let name = tokens.word_after(Kind::Entity)?;
    let ports = entity_ports(alloc, tokens)?;
    let (word_repeated, name_repeated) = unit_end(tokens, Kind::Entity, name.text())?;
    Ok(Entity {
        name,
        ports,
        word_repeated,
        name_repeated,
    })
}

/// `begin {conc}`
fn architecture_statements(
    alloc: Global,
    tokens: &mut Cursor<'_>,
) -> Result<Items<Concurrent>, ParseError>
    ensures { Reads (and_then (expect k.Begin tokens.old) (λ _. concurrents)) result tokens.new }
{
    tokens.expect(Kind::Begin)?;
    concurrents(alloc, tokens)
}

/// `begin {conc} end [architecture] [NAME] ;`
fn architecture_body(
    alloc: Global,
    tokens: &mut Cursor<'_>,
    name: Name,
    entity: Name,
    declarations: Items<Declaration>,
) -> Result<Architecture, ParseError>
    ensures { Reads (spec.architecture_body name entity declarations tokens.old) result tokens.new }
{
    let statements = architecture_statements(alloc, tokens)?;
    let (word_repeated, name_repeated) = unit_end(tokens, Kind::Architecture, name.text())?;
    Ok(Architecture {
        name,
        entity,
        declarations,
        statements,
        word_repeated,
        name_repeated,
    })
}

/// `is {decl}`
fn architecture_declarations(
    alloc: Global,
    tokens: &mut Cursor<'_>,
) -> Result<Items<Declaration>, ParseError>
    ensures { Reads (and_then (expect k.Is tokens.old) (λ _. declarations)) result tokens.new }
{
    tokens.expect(Kind::Is)?;
    declarations(alloc, tokens)
}

/// `arch = architecture id of id is {decl} begin {conc} end [architecture] [NAME] ;`
fn architecture(alloc: Global, tokens: &mut Cursor<'_>) -> Result<Architecture, ParseError>
    ensures { Reads (spec.architecture tokens.old) result tokens.new }
{
    let name = tokens.word_after(Kind::Architecture)?;
    let entity = tokens.word_after(Kind::Of)?;
    let declarations = architecture_declarations(alloc, tokens)?;
    architecture_body(alloc, tokens, name, entity, declarations)
}

/// `entity | arch`
#[tactic(auto, unfolding(sim_text_grammar::specs::Units::library_unit))]
fn library_unit(alloc: Global, tokens: &mut Cursor<'_>) -> Result<LibraryUnit, ParseError>
    ensures { Reads (spec.library_unit tokens.old) result tokens.new }
{
    match tokens.peek() {
        Kind::Architecture => architecture(alloc, tokens).map(LibraryUnit::Architecture),
        _ => entity(alloc, tokens).map(LibraryUnit::Entity),
    }
}

/// `unit = {context} (entity | arch)`
#[tactic(auto, unfolding(sim_text_grammar::specs::Units::unit))]
fn unit(alloc: Global, tokens: &mut Cursor<'_>) -> Result<DesignUnit, ParseError>
    ensures { Reads (spec.unit tokens.old) result tokens.new }
{
    let context = context(alloc, tokens)?;
    let library_unit = library_unit(alloc, tokens)?;
    Ok(DesignUnit {
        context,
        library_unit,
    })
}

/// `unit {unit}`, up to the end of the text.
#[tactic(auto, using(crate::proofs::UnitParts::units_in_parts))]
fn units_of(alloc: Global, tokens: &mut Cursor<'_>) -> Result<NonEmpty<DesignUnit>, ParseError>
    ensures { Reads (spec.units_of tokens.old) result tokens.new }
{
    let first = unit(alloc, tokens);
    let mut found = first_of(alloc, first)?;
    for _turn in 0..tokens.left() {
        if tokens.sees(Kind::EndOfText) {
            return Ok(found.fitted());
        }
        let next = unit(alloc, tokens);
        add(&mut found, next)?;
    }
    Ok(found.fitted())
}

/// The end of the text.
#[tactic(auto, unfolding(sim_text_grammar::specs::Units::finish, sim_text_grammar::specs::Readers::left))]
fn finish(tokens: &mut Cursor<'_>) -> Result<(), ParseError>
    ensures { Reads (spec.finish tokens.old) result tokens.new }
{
    if tokens.is_empty() {
        Ok(())
    } else {
        Err(ParseError::Syntax(tokens.left()))
    }
}

/// Reads a file (IEEE 1076-2008, 13.1). No token may remain after its units.
#[tactic(auto, unfolding(sim_text_grammar::specs::Units::file))]
pub fn file(alloc: Global, tokens: &mut Cursor<'_>) -> Result<DesignFile, ParseError>
    ensures { Reads (spec.file tokens.old) result tokens.new }
{
    let units = units_of(alloc, tokens)?;
    finish(tokens)?;
    Ok(DesignFile::new(units))
}
