//! Sequential statements (IEEE 1076-2008, 10).

ghost use Rattle.std.specs.Prelude.{◌≡◌, Ok, Err, None, IfOk, IfErr};
ghost use Rattle.sim_text_grammar.specs.Statements as spec;
ghost use Rattle.sim_text_grammar.specs.Statements.{condition};
ghost use Rattle.sim_text_tokens.specs.declared.kind.Kind.TheVariants as k;
ghost use Rattle.sim_text_grammar.specs.Waveforms.{waveform};
ghost use Rattle.sim_text_grammar.specs.Readers.{Reads, and_then, pure, expect};

use crate::Cursor;
use crate::cursor::both;
use crate::expressions::expression;
use crate::lists::push;
use crate::waveforms::{assigned_after, waveform};
use sim_text_grammar::ParseError;
use sim_text_tokens::Kind;
use sim_text_tree::expression::Expression;
use sim_text_tree::list::fitted;
use sim_text_tree::name::Name;
use sim_text_tree::sequential::{
    Branch, Sequential, SignalAssignment, Statement, VariableAssignment,
};
use sim_text_tree::waveform::Waveform;
use sqlite_items::Items;
use std::alloc::Global;

/// The largest number of open ifs in a process.
const MOST_IFS: usize = 64;

/// Reads the repeated label if a word is next, and returns whether one was. `Syntax` at a different
/// word, or at any word if there is no label.
#[tactic(auto, unfolding(sim_text_grammar::specs::Statements::label_again, sim_text_grammar::specs::Readers::left))]
pub fn label_again(tokens: &mut Cursor<'_>, label: &Option<Name>) -> Result<bool, ParseError>
    ensures { Reads (spec.label_again label.now tokens.old) result tokens.new }
{
    if !tokens.sees(Kind::Word) {
        return Ok(false);
    }
    match label {
        Some(name) => {
            tokens.repeat(name.text())?;
            Ok(true)
        }
        None => Err(ParseError::Syntax(tokens.left())),
    }
}

/// Reads the repeated label, if a word is next, and the semicolon after it; returns whether the
/// label was repeated.
pub fn label_ended(tokens: &mut Cursor<'_>, label: &Option<Name>) -> Result<bool, ParseError>
    ensures { Reads (and_then (spec.label_again label.now tokens.old) (λ again i. and_then (expect k.Semicolon i) (λ _. pure again)))
        result tokens.new }
{
    let label_repeated = label_again(tokens, label)?;
    tokens.past(Kind::Semicolon, label_repeated)
}

/// `:= expr ;`, after the target.
#[tactic(auto, unfolding(sim_text_grammar::specs::Statements::variable_assigned))]
fn variable_assigned(
    alloc: Global,
    tokens: &mut Cursor<'_>,
    target: Name,
) -> Result<Statement, ParseError>
    ensures { Reads (spec.variable_assigned target tokens.old) result tokens.new }
{
    tokens.take();
    let value = expression(alloc, tokens)?;
    let value = tokens.past(Kind::Semicolon, value)?;
    Ok(Statement::Variable(VariableAssignment { target, value }))
}

/// Reads a waveform, and the semicolon after it.
fn waveform_ended(alloc: Global, tokens: &mut Cursor<'_>) -> Result<Waveform, ParseError>
    ensures { Reads (and_then (waveform tokens.old) (λ found i. and_then (expect k.Semicolon i) (λ _. pure found))) result tokens.new }
{
    let waveform = waveform(alloc, tokens)?;
    tokens.past(Kind::Semicolon, waveform)
}

/// `<= [delay] wave ;`, after the target.
fn signal_assigned(
    alloc: Global,
    tokens: &mut Cursor<'_>,
    target: Name,
) -> Result<Statement, ParseError>
    ensures { Reads (spec.signal_assigned target tokens.old) result tokens.new }
{
    let mechanism = assigned_after(tokens)?;
    let (delay, waveform) = both(mechanism, waveform_ended(alloc, tokens))?;
    Ok(Statement::Signal(SignalAssignment {
        target,
        delay,
        waveform,
    }))
}

/// `<= [delay] wave ; | := expr ;`, after the target.
#[tactic(auto, unfolding(sim_text_grammar::specs::Statements::assigned))]
fn assigned(alloc: Global, tokens: &mut Cursor<'_>, target: Name) -> Result<Statement, ParseError>
    ensures { Reads (spec.assigned target tokens.old) result tokens.new }
{
    match tokens.peek() {
        Kind::VariableAssign => variable_assigned(alloc, tokens, target),
        _ => signal_assigned(alloc, tokens, target),
    }
}

/// `null ;`
#[tactic(auto, unfolding(sim_text_grammar::specs::Statements::null))]
fn null(tokens: &mut Cursor<'_>) -> Result<Statement, ParseError>
    ensures { Reads (spec.null tokens.old) result tokens.new }
{
    tokens.take();
    tokens.expect(Kind::Semicolon)?;
    Ok(Statement::Null)
}

/// Whether a token of this kind can begin `seq`.
fn begins_statement(kind: Kind) -> bool
    ensures { result ≡ spec.begins_statement kind }
{
    matches!(kind, Kind::Word | Kind::If | Kind::Null)
}

/// Reads a statement after its label, or an unlabelled one that begins with no name.
#[cycle(statement)]
#[tactic(auto, unfolding(sim_text_grammar::specs::Statements::labelled))]
fn labelled(
    alloc: Global,
    tokens: &mut Cursor<'_>,
    depth: usize,
    label: &Option<Name>,
) -> Result<Statement, ParseError>
    ensures { Reads (spec.labelled (spec.if_statement depth) label.now tokens.old) result tokens.new }
{
    match tokens.peek() {
        Kind::If => if_statement(alloc, tokens, depth, label),
        Kind::Null => null(tokens),
        _ => {
            let target = tokens.word()?;
            assigned(alloc, tokens, target)
        }
    }
}

/// The statement that was read, without a label.
fn unlabelled(read: Result<Statement, ParseError>) -> Result<Sequential, ParseError>
    ensures ok { IfOk result (λ found. (statement : _) × (read ≡ Ok statement) × (found ≡ record { label = None; statement = statement })) }
    ensures err { IfErr result (λ e. read ≡ Err e) }
{
    let statement = read?;
    Ok(Sequential {
        label: None,
        statement,
    })
}

/// Reads a statement after its first name, which is its label or the target of an assignment.
#[cycle(statement)]
fn named(
    alloc: Global,
    tokens: &mut Cursor<'_>,
    depth: usize,
    first: Name,
) -> Result<Sequential, ParseError>
    ensures { Reads (spec.named_by (spec.if_statement depth) first tokens.old) result tokens.new }
{
    if tokens.eat(Kind::Colon) {
        let label = Some(first);
        let statement = labelled(alloc, tokens, depth, &label)?;
        Ok(Sequential { label, statement })
    } else {
        let statement = assigned(alloc, tokens, first);
        unlabelled(statement)
    }
}

/// `seq`, in which this many more ifs may be open.
#[cycle(statement)]
#[tactic(auto, unfolding(sim_text_grammar::specs::Statements::statement))]
fn statement(alloc: Global, tokens: &mut Cursor<'_>, depth: usize) -> Result<Sequential, ParseError>
    ensures { Reads (spec.statement (spec.if_statement depth) tokens.old) result tokens.new }
{
    match tokens.peek() {
        Kind::If => {
            let statement = if_statement(alloc, tokens, depth, &None);
            unlabelled(statement)
        }
        Kind::Null => {
            let statement = null(tokens);
            unlabelled(statement)
        }
        _ => {
            let first = tokens.word()?;
            named(alloc, tokens, depth, first)
        }
    }
}

/// `{seq}`, in which this many more ifs may be open.
#[cycle(statement)]
#[tactic(auto, unfolding(sim_text_grammar::specs::Statements::sequence, sim_text_grammar::specs::Readers::many))]
fn sequence(
    alloc: Global,
    tokens: &mut Cursor<'_>,
    depth: usize,
) -> Result<Items<Sequential>, ParseError>
    ensures { Reads (spec.sequence (spec.if_statement depth) tokens.old) result tokens.new }
{
    let mut found = Vec::new(alloc);
    for _turn in 0..tokens.left() {
        if !begins_statement(tokens.peek()) {
            return Ok(fitted(found));
        }
        let next = statement(alloc, tokens, depth);
        push(&mut found, next)?;
    }
    Ok(fitted(found))
}

/// `expr then`
#[tactic(auto, unfolding(sim_text_grammar::specs::Statements::condition))]
fn condition(alloc: Global, tokens: &mut Cursor<'_>) -> Result<Expression, ParseError>
    ensures { Reads (condition tokens.old) result tokens.new }
{
    let condition = expression(alloc, tokens)?;
    tokens.past(Kind::Then, condition)
}

/// `expr then {seq}`
#[cycle(statement)]
#[tactic(auto, unfolding(sim_text_grammar::specs::Statements::branch, sim_text_grammar::specs::Statements::condition))]
fn branch(alloc: Global, tokens: &mut Cursor<'_>, depth: usize) -> Result<Branch, ParseError>
    ensures { Reads (spec.branch (spec.if_statement depth) tokens.old) result tokens.new }
{
    let condition = condition(alloc, tokens)?;
    let (condition, statements) = both(condition, sequence(alloc, tokens, depth))?;
    Ok(Branch {
        condition,
        statements,
    })
}

/// `expr then {seq} {elsif expr then {seq}}`
#[cycle(statement)]
#[tactic(auto, using(sim_text_grammar::proofs::Parts::halves), unfolding(sim_text_grammar::specs::Statements::branches))]
fn branches(
    alloc: Global,
    tokens: &mut Cursor<'_>,
    depth: usize,
) -> Result<Items<Branch>, ParseError>
    ensures { Reads (spec.branches (spec.if_statement depth) tokens.old) result tokens.new }
{
    let first = branch(alloc, tokens, depth);
    let mut found = Vec::new(alloc);
    push(&mut found, first)?;
    for _turn in 0..tokens.left() {
        if !tokens.sees(Kind::Elsif) {
            return Ok(fitted(found));
        }
        tokens.take();
        let next = branch(alloc, tokens, depth);
        push(&mut found, next)?;
    }
    Ok(fitted(found))
}

/// `[else {seq}]`
#[cycle(statement)]
#[tactic(auto, unfolding(sim_text_grammar::specs::Statements::otherwise))]
fn otherwise(
    alloc: Global,
    tokens: &mut Cursor<'_>,
    depth: usize,
) -> Result<Option<Items<Sequential>>, ParseError>
    ensures { Reads (spec.otherwise (spec.if_statement depth) tokens.old) result tokens.new }
{
    if !tokens.eat(Kind::Else) {
        return Ok(None);
    }
    let statements = sequence(alloc, tokens, depth)?;
    Ok(Some(statements))
}

/// `end if [NAME] ;`
fn if_end(
    tokens: &mut Cursor<'_>,
    label: &Option<Name>,
    branches: Items<Branch>,
    otherwise: Option<Items<Sequential>>,
) -> Result<Statement, ParseError>
    ensures { Reads (spec.if_end label.now branches otherwise tokens.old) result tokens.new }
{
    tokens.expect_both(Kind::End, Kind::If)?;
    let label_repeated = label_ended(tokens, label)?;
    Ok(Statement::If {
        branches,
        otherwise,
        label_repeated,
    })
}

/// `if expr then {seq} {elsif expr then {seq}} [else {seq}] end if [NAME] ;`; `TooDeep` if no more
/// ifs may be open.
#[cycle(statement)]
#[tactic(auto, unfolding(sim_text_grammar::specs::Statements::if_statement, sim_text_grammar::specs::Readers::left))]
fn if_statement(
    alloc: Global,
    tokens: &mut Cursor<'_>,
    depth: usize,
    label: &Option<Name>,
) -> Result<Statement, ParseError>
    ensures { Reads (spec.if_statement depth label.now tokens.old) result tokens.new }
{
    if depth == 0 {
        return Err(ParseError::TooDeep(tokens.left()));
    }
    tokens.take();
    let branches = branches(alloc, tokens, depth - 1)?;
    let otherwise = otherwise(alloc, tokens, depth - 1)?;
    if_end(tokens, label, branches, otherwise)
}

/// Reads the statements of a process (IEEE 1076-2008, 10.1). `TooDeep` at an `if` inside 64 others.
#[tactic(auto, unfolding(sim_text_grammar::specs::Statements::statements))]
pub fn statements(alloc: Global, tokens: &mut Cursor<'_>) -> Result<Items<Sequential>, ParseError>
    ensures { Reads (spec.statements tokens.old) result tokens.new }
{
    sequence(alloc, tokens, MOST_IFS)
}
