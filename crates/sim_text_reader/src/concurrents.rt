//! Concurrent statements (IEEE 1076-2008, 11).

ghost use Rattle.std.specs.Prelude.{◌≡◌, Ok};
ghost use Rattle.sim_text_grammar.specs.Concurrents as spec;
ghost use Rattle.sim_text_tree.specs.Grammar.{is_named};
ghost use Rattle.sim_text_tree.specs.Input.{kind};
ghost use Rattle.sim_text_tokens.specs.declared.kind.Kind.TheVariants as k;
ghost use Rattle.sim_text_grammar.specs.Statements.{statements};
ghost use Rattle.sim_text_grammar.specs.Readers.{Reads, and_then, pure, expect};

use crate::cursor::{Cursor, both};
use crate::declarations::{names, variables};
use crate::lists::push;
use crate::statements::{label_ended, statements};
use crate::waveforms::assigned;
use sim_text_grammar::ParseError;
use sim_text_tokens::Kind;
use sim_text_tree::declaration::ObjectDeclaration;
use sim_text_tree::list::fitted;
use sim_text_tree::name::Name;
use sim_text_tree::sequential::Sequential;
use sim_text_tree::unit::{
    Actual, Association, Concurrent, Instance, Instantiated, Process, Sensitivity,
};
use sqlite_items::Items;
use std::alloc::Global;

/// `sens = all | id {, id}`
#[tactic(auto, unfolding(sim_text_grammar::specs::Concurrents::sensitivity))]
fn sensitivity(alloc: Global, tokens: &mut Cursor<'_>) -> Result<Sensitivity, ParseError>
    ensures { Reads (spec.sensitivity tokens.old) result tokens.new }
{
    if tokens.eat(Kind::All) {
        return Ok(Sensitivity::All);
    }
    let names = names(alloc, tokens)?;
    Ok(Sensitivity::Names(names))
}

/// `begin {seq}`
fn process_statements(
    alloc: Global,
    tokens: &mut Cursor<'_>,
) -> Result<Items<Sequential>, ParseError>
    ensures { Reads (and_then (expect k.Begin tokens.old) (λ _. statements)) result tokens.new }
{
    tokens.expect(Kind::Begin)?;
    statements(alloc, tokens)
}

/// `[postponed]` at the end of a process; only a postponed process can have it.
fn postponed_again(tokens: &mut Cursor<'_>, postponed: bool) -> bool
    ensures { spec.postponed_again postponed tokens.old ≡ Ok (result, tokens.new) }
{
    if !postponed {
        return false;
    }
    tokens.eat(Kind::Postponed)
}

/// `end [postponed] process`
fn process_ended(tokens: &mut Cursor<'_>, postponed: bool) -> Result<bool, ParseError>
    ensures { Reads (and_then (expect k.End tokens.old) (λ _ i. and_then (spec.postponed_again postponed i) (λ again i.
        and_then (expect k.Process i) (λ _. pure again)))) result tokens.new }
{
    tokens.expect(Kind::End)?;
    let again = postponed_again(tokens, postponed);
    tokens.past(Kind::Process, again)
}

/// `begin {seq} end [postponed] process [NAME] ;`
fn process_body(
    alloc: Global,
    tokens: &mut Cursor<'_>,
    label: Option<Name>,
    postponed: bool,
    sensitivity: Sensitivity,
    is: bool,
    variables: Items<ObjectDeclaration>,
) -> Result<Process, ParseError>
    ensures { Reads (spec.process_body label postponed sensitivity is variables tokens.old) result tokens.new }
{
    let statements = process_statements(alloc, tokens)?;
    let postponed_repeated = process_ended(tokens, postponed)?;
    let label_repeated = label_ended(tokens, &label)?;
    Ok(Process {
        label,
        postponed,
        sensitivity,
        is,
        variables,
        statements,
        postponed_repeated,
        label_repeated,
    })
}

/// Reads a sensitivity list and the parenthesis after it.
fn sensitivity_closed(alloc: Global, tokens: &mut Cursor<'_>) -> Result<Sensitivity, ParseError>
    ensures { Reads (and_then (spec.sensitivity tokens.old) (λ found i. and_then (expect k.RightParen i) (λ _. pure found))) result tokens.new }
{
    let sensitivity = sensitivity(alloc, tokens)?;
    tokens.past(Kind::RightParen, sensitivity)
}

/// `process ( sens ) [is] {var} begin {seq} end [postponed] process [NAME] ;`
fn process(
    alloc: Global,
    tokens: &mut Cursor<'_>,
    label: Option<Name>,
    postponed: bool,
) -> Result<Process, ParseError>
    ensures { Reads (spec.process label postponed tokens.old) result tokens.new }
{
    tokens.expect_both(Kind::Process, Kind::LeftParen)?;
    let sensitivity = sensitivity_closed(alloc, tokens)?;
    let is = tokens.eat(Kind::Is);
    let variables = variables(alloc, tokens)?;
    process_body(alloc, tokens, label, postponed, sensitivity, is, variables)
}

/// `actual = id | lit | open`
#[tactic(auto, unfolding(sim_text_grammar::specs::Concurrents::actual))]
fn actual(tokens: &mut Cursor<'_>) -> Result<Actual, ParseError>
    ensures { Reads (spec.actual tokens.old) result tokens.new }
{
    match tokens.peek() {
        Kind::Literal => {
            let (value, at) = tokens.literal()?;
            Ok(Actual::Literal { value, at })
        }
        Kind::Open => Ok(Actual::Open { at: tokens.take() }),
        _ => Ok(Actual::Named(tokens.word()?)),
    }
}

/// `actual`, after the formal and its `=>`.
#[tactic(auto, unfolding(sim_text_grammar::specs::Concurrents::associated))]
fn associated(tokens: &mut Cursor<'_>, formal: Name) -> Result<Association, ParseError>
    ensures { Reads (spec.associated formal tokens.old) result tokens.new }
{
    let actual = actual(tokens)?;
    Ok(Association {
        formal: Some(formal),
        actual,
    })
}

/// `id => actual`
#[tactic(auto, unfolding(sim_text_grammar::specs::Concurrents::named_association))]
fn named_association(tokens: &mut Cursor<'_>) -> Result<Association, ParseError>
    ensures { Reads (spec.named_association tokens.old) result tokens.new }
{
    let formal = tokens.word()?;
    tokens.expect(Kind::Arrow)?;
    associated(tokens, formal)
}

/// `actual | id => actual`
#[tactic(auto, unfolding(sim_text_grammar::specs::Concurrents::free_association))]
fn free_association(tokens: &mut Cursor<'_>) -> Result<Association, ParseError>
    ensures { Reads (spec.free_association tokens.old) result tokens.new }
{
    match tokens.peek() {
        Kind::Word => {
            let name = tokens.word()?;
            if tokens.eat(Kind::Arrow) {
                associated(tokens, name)
            } else {
                Ok(Association {
                    formal: None,
                    actual: Actual::Named(name),
                })
            }
        }
        _ => {
            let actual = actual(tokens)?;
            Ok(Association {
                formal: None,
                actual,
            })
        }
    }
}

/// `id => actual` after an association with a formal; otherwise either form.
#[tactic(auto, unfolding(sim_text_grammar::specs::Concurrents::association))]
fn association(tokens: &mut Cursor<'_>, named: bool) -> Result<Association, ParseError>
    ensures { Reads (spec.association named tokens.old) result tokens.new }
{
    if named {
        named_association(tokens)
    } else {
        free_association(tokens)
    }
}

/// Whether an association has a formal.
fn is_named(formal: &Option<Name>) -> bool
    ensures { result ≡ is_named formal.now }
{
    match formal {
        Some(_) => true,
        None => false,
    }
}

/// `assocs = actual {, actual} {, id => actual} | id => actual {, id => actual}`
#[tactic(auto, unfolding(sim_text_grammar::specs::Concurrents::associations))]
fn associations(alloc: Global, tokens: &mut Cursor<'_>) -> Result<Items<Association>, ParseError>
    ensures { Reads (spec.associations tokens.old) result tokens.new }
{
    let mut found = Vec::new(alloc);
    let mut named = false;
    for _turn in 0..tokens.left() {
        let association = association(tokens, named)?;
        named = named || is_named(&association.formal);
        found.push(association)?;
        if !tokens.eat(Kind::Comma) {
            return Ok(fitted(found));
        }
    }
    Err(ParseError::Syntax(tokens.left()))
}

/// `[port map ( assocs )]`; without it there are no associations.
fn port_map(alloc: Global, tokens: &mut Cursor<'_>) -> Result<Items<Association>, ParseError>
    ensures { Reads (spec.port_map tokens.old) result tokens.new }
{
    if !tokens.eat(Kind::Port) {
        return Ok(Items::new(alloc));
    }
    tokens.expect_both(Kind::Map, Kind::LeftParen)?;
    let found = associations(alloc, tokens)?;
    tokens.past(Kind::RightParen, found)
}

/// Reads a port map, if one is written, and the semicolon after it.
fn port_map_ended(alloc: Global, tokens: &mut Cursor<'_>) -> Result<Items<Association>, ParseError>
    ensures { Reads (and_then (spec.port_map tokens.old) (λ found i. and_then (expect k.Semicolon i) (λ _. pure found))) result tokens.new }
{
    let associations = port_map(alloc, tokens)?;
    tokens.past(Kind::Semicolon, associations)
}

/// `[pmap] ;`, after the label and the component or entity.
fn instance(
    alloc: Global,
    tokens: &mut Cursor<'_>,
    label: Name,
    unit: Instantiated,
) -> Result<Concurrent, ParseError>
    ensures { Reads (spec.instance label unit tokens.old) result tokens.new }
{
    let (unit, associations) = both(unit, port_map_ended(alloc, tokens))?;
    Ok(Concurrent::Instance(Instance {
        label,
        unit,
        associations,
    }))
}

/// `[( id )]`: the architecture of an instantiated entity.
#[tactic(auto, unfolding(sim_text_grammar::specs::Concurrents::chosen))]
fn chosen(tokens: &mut Cursor<'_>) -> Result<Option<Name>, ParseError>
    ensures { Reads (spec.chosen tokens.old) result tokens.new }
{
    if !tokens.eat(Kind::LeftParen) {
        return Ok(None);
    }
    let name = tokens.word()?;
    tokens.past(Kind::RightParen, Some(name))
}

/// `entity id . id [( id )]`
fn entity_named(tokens: &mut Cursor<'_>) -> Result<Instantiated, ParseError>
    ensures { Reads (spec.entity_named tokens.old) result tokens.new }
{
    tokens.take();
    let library = tokens.word()?;
    let entity = tokens.word_after(Kind::Dot)?;
    let architecture = chosen(tokens)?;
    Ok(Instantiated::Entity {
        library,
        entity,
        architecture,
    })
}

/// `<= [delay] conds ;`, after the target.
#[tactic(auto, unfolding(sim_text_grammar::specs::Concurrents::concurrent_assigned))]
fn concurrent_assigned(
    alloc: Global,
    tokens: &mut Cursor<'_>,
    label: Option<Name>,
    postponed: bool,
    target: Name,
) -> Result<Concurrent, ParseError>
    ensures { Reads (spec.concurrent_assigned label postponed target tokens.old) result tokens.new }
{
    let found = assigned(alloc, tokens, label, postponed, target)?;
    Ok(Concurrent::Assignment(found))
}

/// `process ( sens ) [is] {var} begin {seq} end [postponed] process [NAME] ;`, after the label and
/// `postponed`.
#[tactic(auto, unfolding(sim_text_grammar::specs::Concurrents::concurrent_process))]
fn concurrent_process(
    alloc: Global,
    tokens: &mut Cursor<'_>,
    label: Option<Name>,
    postponed: bool,
) -> Result<Concurrent, ParseError>
    ensures { Reads (spec.concurrent_process label postponed tokens.old) result tokens.new }
{
    let found = process(alloc, tokens, label, postponed)?;
    Ok(Concurrent::Process(found))
}

/// `postponed`, and the process or assignment after it.
#[tactic(auto, unfolding(sim_text_grammar::specs::Concurrents::postponed))]
fn postponed(
    alloc: Global,
    tokens: &mut Cursor<'_>,
    label: Option<Name>,
) -> Result<Concurrent, ParseError>
    ensures { Reads (spec.postponed label tokens.old) result tokens.new }
{
    tokens.take();
    match tokens.peek() {
        Kind::Process => concurrent_process(alloc, tokens, label, true),
        _ => {
            let name = tokens.word()?;
            concurrent_assigned(alloc, tokens, label, true, name)
        }
    }
}

/// Reads an assignment to this name, or an instance of the component with this name.
fn after_name(
    alloc: Global,
    tokens: &mut Cursor<'_>,
    label: Name,
    name: Name,
) -> Result<Concurrent, ParseError>
    ensures { Reads (spec.target_by label name (kind tokens.old) tokens.old) result tokens.new }
{
    match tokens.peek() {
        Kind::SignalAssign => concurrent_assigned(alloc, tokens, Some(label), false, name),
        _ => instance(
            alloc,
            tokens,
            label,
            Instantiated::Component {
                word_written: false,
                component: name,
            },
        ),
    }
}

/// `conc`, after its label and the colon.
#[tactic(auto, unfolding(sim_text_grammar::specs::Concurrents::labelled))]
fn labelled(alloc: Global, tokens: &mut Cursor<'_>, label: Name) -> Result<Concurrent, ParseError>
    ensures { Reads (spec.labelled label tokens.old) result tokens.new }
{
    match tokens.peek() {
        Kind::Process => concurrent_process(alloc, tokens, Some(label), false),
        Kind::Postponed => postponed(alloc, tokens, Some(label)),
        Kind::Component => {
            tokens.take();
            let name = tokens.word()?;
            instance(
                alloc,
                tokens,
                label,
                Instantiated::Component {
                    word_written: true,
                    component: name,
                },
            )
        }
        Kind::Entity => {
            let unit = entity_named(tokens)?;
            instance(alloc, tokens, label, unit)
        }
        _ => {
            let name = tokens.word()?;
            after_name(alloc, tokens, label, name)
        }
    }
}

/// Reads an assignment to this name, or a statement with this label.
fn after_first(
    alloc: Global,
    tokens: &mut Cursor<'_>,
    first: Name,
) -> Result<Concurrent, ParseError>
    ensures { Reads (spec.first_by first (kind tokens.old) tokens.old) result tokens.new }
{
    match tokens.peek() {
        Kind::SignalAssign => concurrent_assigned(alloc, tokens, None, false, first),
        _ => {
            tokens.expect(Kind::Colon)?;
            labelled(alloc, tokens, first)
        }
    }
}

/// `conc`: an assignment, a process or an instance.
#[tactic(auto, unfolding(sim_text_grammar::specs::Concurrents::concurrent))]
fn concurrent(alloc: Global, tokens: &mut Cursor<'_>) -> Result<Concurrent, ParseError>
    ensures { Reads (spec.concurrent tokens.old) result tokens.new }
{
    match tokens.peek() {
        Kind::Process => concurrent_process(alloc, tokens, None, false),
        Kind::Postponed => postponed(alloc, tokens, None),
        _ => {
            let first = tokens.word()?;
            after_first(alloc, tokens, first)
        }
    }
}

/// Whether a token of this kind can begin `conc`.
fn begins_concurrent(kind: Kind) -> bool
    ensures { result ≡ spec.begins_concurrent kind }
{
    matches!(kind, Kind::Word | Kind::Process | Kind::Postponed)
}

/// Reads the statements of an architecture (IEEE 1076-2008, 11.1).
#[tactic(auto, unfolding(sim_text_grammar::specs::Concurrents::concurrents, sim_text_grammar::specs::Readers::many))]
pub fn concurrents(alloc: Global, tokens: &mut Cursor<'_>) -> Result<Items<Concurrent>, ParseError>
    ensures { Reads (spec.concurrents tokens.old) result tokens.new }
{
    let mut found = Vec::new(alloc);
    for _turn in 0..tokens.left() {
        if !begins_concurrent(tokens.peek()) {
            return Ok(fitted(found));
        }
        let statement = concurrent(alloc, tokens);
        push(&mut found, statement)?;
    }
    Ok(fitted(found))
}
