//! Waveforms and delays (IEEE 1076-2008, 10.5).

ghost use Rattle.sim_text_grammar.specs.Waveforms as spec;
ghost use Rattle.sim_text_tokens.specs.declared.kind.Kind.TheVariants as k;
ghost use Rattle.sim_text_grammar.specs.Readers.{Reads, and_then, pure, expect};

use crate::cursor::{Cursor, both};
use crate::expressions::expression;
use crate::lists::{add, first_of, push};
use sim_text_grammar::ParseError;
use sim_text_tokens::Kind;
use sim_text_tree::list::fitted;
use sim_text_tree::name::Name;
use sim_text_tree::time::TimeLiteral;
use sim_text_tree::waveform::{
    ConcurrentSignalAssignment, ConditionalWaveform, ConditionalWaveforms, DelayMechanism, Element,
    Waveform,
};
use std::alloc::Global;

/// `num (fs | ps | ns | us | ms | sec | min | hr)`; `left` is the place of a `TimeRange` fault.
#[tactic(auto, unfolding(sim_text_grammar::specs::Waveforms::time_from, sim_text_tree::specs::Times::is_time))]
fn time_from(tokens: &mut Cursor<'_>, left: usize) -> Result<TimeLiteral, ParseError>
    ensures { Reads (spec.time_from left tokens.old) result tokens.new }
{
    let (digits, at) = tokens.number()?;
    let unit = tokens.unit()?;
    match TimeLiteral::of(digits, at, unit) {
        Some(literal) => Ok(literal),
        None => Err(ParseError::TimeRange(left)),
    }
}

/// Reads a time: a number and a unit (IEEE 1076-2008, 5.2.4). `TimeRange` at the number if the time
/// is larger than the largest.
#[tactic(auto, unfolding(sim_text_grammar::specs::Waveforms::time))]
pub fn time(tokens: &mut Cursor<'_>) -> Result<TimeLiteral, ParseError>
    ensures { Reads (spec.time tokens.old) result tokens.new }
{
    let left = tokens.left();
    time_from(tokens, left)
}

/// `elem = expr [after time]`
#[tactic(auto, unfolding(sim_text_grammar::specs::Waveforms::element))]
fn element(alloc: Global, tokens: &mut Cursor<'_>) -> Result<Element, ParseError>
    ensures { Reads (spec.element tokens.old) result tokens.new }
{
    let value = expression(alloc, tokens)?;
    if tokens.eat(Kind::After) {
        let (value, after) = both(value, time(tokens))?;
        Ok(Element {
            value,
            after: Some(after),
        })
    } else {
        Ok(Element { value, after: None })
    }
}

/// Reads a waveform (IEEE 1076-2008, 10.5.2.1).
#[tactic(auto, using(sim_text_grammar::proofs::Parts::halves), unfolding(sim_text_grammar::specs::Waveforms::waveform, sim_text_grammar::specs::Readers::sees))]
pub fn waveform(alloc: Global, tokens: &mut Cursor<'_>) -> Result<Waveform, ParseError>
    ensures { Reads (spec.waveform tokens.old) result tokens.new }
{
    let first = element(alloc, tokens);
    let mut found = first_of(alloc, first)?;
    for _turn in 0..tokens.left() {
        if !tokens.sees(Kind::Comma) {
            return Ok(found.fitted());
        }
        tokens.take();
        let next = element(alloc, tokens);
        add(&mut found, next)?;
    }
    Ok(found.fitted())
}

/// Reads a delay mechanism, if one is written (IEEE 1076-2008, 10.5.2.1).
#[tactic(auto, unfolding(sim_text_grammar::specs::Waveforms::delay))]
pub fn delay(tokens: &mut Cursor<'_>) -> Result<DelayMechanism, ParseError>
    ensures { Reads (spec.delay tokens.old) result tokens.new }
{
    match tokens.peek() {
        Kind::Transport => {
            tokens.take();
            Ok(DelayMechanism::Transport)
        }
        Kind::Inertial => {
            tokens.take();
            Ok(DelayMechanism::Inertial)
        }
        Kind::Reject => {
            tokens.take();
            let limit = time(tokens)?;
            tokens.past(Kind::Inertial, DelayMechanism::Reject(limit))
        }
        _ => Ok(DelayMechanism::Unwritten),
    }
}

/// `<= [delay]`, the first part of an assignment after its target.
pub fn assigned_after(tokens: &mut Cursor<'_>) -> Result<DelayMechanism, ParseError>
    ensures { Reads (and_then (expect k.SignalAssign tokens.old) (λ _. spec.delay)) result tokens.new }
{
    tokens.expect(Kind::SignalAssign)?;
    delay(tokens)
}

/// Reads the condition of a waveform.
#[tactic(auto, unfolding(sim_text_grammar::specs::Waveforms::condition))]
fn condition(
    alloc: Global,
    tokens: &mut Cursor<'_>,
    waveform: Waveform,
) -> Result<ConditionalWaveform, ParseError>
    ensures { Reads (spec.condition waveform tokens.old) result tokens.new }
{
    let condition = expression(alloc, tokens)?;
    Ok(ConditionalWaveform {
        waveform,
        condition,
    })
}

/// `conds = wave | wave when expr {else wave when expr} [else wave]`
#[tactic(auto, unfolding(sim_text_grammar::specs::Waveforms::waveforms, sim_text_grammar::specs::Readers::left))]
fn waveforms(alloc: Global, tokens: &mut Cursor<'_>) -> Result<ConditionalWaveforms, ParseError>
    ensures { Reads (spec.waveforms tokens.old) result tokens.new }
{
    let mut conditional = Vec::new(alloc);
    for _turn in 0..tokens.left() {
        let waveform = waveform(alloc, tokens)?;
        if !tokens.eat(Kind::When) {
            return Ok(ConditionalWaveforms {
                conditional: fitted(conditional),
                otherwise: Some(waveform),
            });
        }
        let next = condition(alloc, tokens, waveform);
        push(&mut conditional, next)?;
        if !tokens.eat(Kind::Else) {
            return Ok(ConditionalWaveforms {
                conditional: fitted(conditional),
                otherwise: None,
            });
        }
    }
    Err(ParseError::Syntax(tokens.left()))
}

/// Reads conditional waveforms, and the semicolon after them.
fn waveforms_ended(
    alloc: Global,
    tokens: &mut Cursor<'_>,
) -> Result<ConditionalWaveforms, ParseError>
    ensures { Reads (and_then (spec.waveforms tokens.old) (λ found i. and_then (expect k.Semicolon i) (λ _. pure found))) result tokens.new }
{
    let waveforms = waveforms(alloc, tokens)?;
    tokens.past(Kind::Semicolon, waveforms)
}

/// Reads a concurrent assignment after its target, up to and including its semicolon (IEEE
/// 1076-2008, 11.6).
pub fn assigned(
    alloc: Global,
    tokens: &mut Cursor<'_>,
    label: Option<Name>,
    postponed: bool,
    target: Name,
) -> Result<ConcurrentSignalAssignment, ParseError>
    ensures { Reads (spec.assigned label postponed target tokens.old) result tokens.new }
{
    let mechanism = assigned_after(tokens)?;
    let (delay, waveforms) = both(mechanism, waveforms_ended(alloc, tokens))?;
    Ok(ConcurrentSignalAssignment {
        label,
        postponed,
        target,
        delay,
        waveforms,
    })
}
