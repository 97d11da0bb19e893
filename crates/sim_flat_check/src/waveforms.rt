//! Faults of values, conditions, waveforms and delays (IEEE 1076-2008, 10.5).

ghost use Rattle.std.specs.Prelude.{◌≡◌, None};
ghost use Rattle.sim_flat_scope.specs.Faults.{earliest};
ghost use Rattle.sim_flat_scope.specs.Scopes.{means};
ghost use Rattle.sim_flat_check.specs.Waveforms as spec;

use crate::types::{common, expression};
use sim_flat_scope::fault::note;
use sim_flat_scope::{Fault, Kind, Scope, Type};
use sim_text_tree::expression::Expression;
use sim_text_tree::time::TimeLiteral;
use sim_text_tree::waveform::{ConditionalWaveform, ConditionalWaveforms, DelayMechanism, Element};

/// The largest number of elements in a waveform.
const MOST_ELEMENTS: usize = 16;

/// The delay of an element in femtoseconds.
fn delay_after(after: &Option<TimeLiteral>) -> u64
    ensures { result ≡ spec.delay_after after.now }
{
    match after {
        None => 0,
        Some(time) => time.time().fs(),
    }
}

/// Records a fault if the delay of an element is not greater than that of the one before it.
#[tactic(auto, unfolding(sim_flat_scope::specs::Faults::earliest))]
fn above(before: Option<u64>, element: &Element, first: &mut Option<Fault>)
    ensures { first.new ≡ earliest first.old (spec.not_above before element.now) }
{
    if let Some(before) = before {
        if delay_after(&element.after) <= before {
            note(first, Kind::NotAscending, element.value.start());
        }
    }
}

/// Records the faults of elements whose delays do not ascend.
#[tactic(auto, using(sim_flat_scope::proofs::Faults::of_both), unfolding(crate::specs::Waveforms::not_rising, sim_flat_scope::specs::Faults::earliest))]
fn rising(waveform: &[Element], first: &mut Option<Fault>)
    ensures { first.new ≡ earliest first.old (spec.not_rising None waveform.now) }
{
    let mut before = None;
    for element in waveform {
        above(before, element, first);
        before = Some(delay_after(&element.after));
    }
}

/// Records the first element in excess of the limit as a fault.
#[tactic(auto, unfolding(crate::specs::Waveforms::too_many, sim_flat_scope::specs::Faults::earliest))]
fn count(waveform: &[Element], first: &mut Option<Fault>)
    ensures { first.new ≡ earliest first.old (spec.too_many waveform.now) }
{
    if let Some(element) = waveform.get(MOST_ELEMENTS) {
        note(first, Kind::TooMany, element.value.start());
    }
}

/// Records a fault if the rejection limit is greater than the first delay of the waveform.
#[tactic(auto, unfolding(crate::specs::Waveforms::delay_faults, sim_flat_scope::specs::Faults::earliest))]
fn delay(mechanism: &DelayMechanism, waveform: &[Element], first: &mut Option<Fault>)
    ensures { first.new ≡ earliest first.old (spec.delay_faults mechanism.now waveform.now) }
{
    if let DelayMechanism::Reject(limit) = mechanism {
        if let [element, ..] = waveform {
            if delay_after(&element.after) < limit.time().fs() {
                note(first, Kind::RejectTooLong, limit.at());
            }
        }
    }
}

/// Records the faults of a condition.
#[tactic(auto, using(sim_flat_scope::proofs::Faults::of_both), unfolding(crate::specs::Waveforms::condition_faults, sim_flat_scope::specs::Faults::earliest))]
pub(crate) fn condition(
    inner: &Scope<'_>,
    outer: &Scope<'_>,
    condition: &Expression,
    first: &mut Option<Fault>,
)
    ensures { first.new ≡ earliest first.old (spec.condition_faults (means inner.now outer.now) condition.now) }
{
    let judgement = expression(inner, outer, condition, first);
    if let Some(Type::Logic) = judgement.type_ {
        if !judgement.named {
            note(first, Kind::Ambiguous, condition.start());
        }
    }
}

/// Records the faults of a value that is assigned to a target of this type.
#[tactic(auto, using(sim_flat_scope::proofs::Faults::of_both), unfolding(crate::specs::Waveforms::value_faults))]
pub(crate) fn value(
    inner: &Scope<'_>,
    outer: &Scope<'_>,
    target: Option<Type>,
    value: &Expression,
    first: &mut Option<Fault>,
)
    ensures { first.new ≡ earliest first.old (spec.value_faults (means inner.now outer.now) target value.now) }
{
    let judgement = expression(inner, outer, value, first);
    common(target, judgement.type_, value.start(), first);
}

/// Records the faults of the values of elements.
#[tactic(auto, using(sim_flat_scope::proofs::Faults::of_both), unfolding(crate::specs::Waveforms::values_faults, sim_flat_scope::specs::Faults::earliest))]
fn values(
    inner: &Scope<'_>,
    outer: &Scope<'_>,
    target: Option<Type>,
    waveform: &[Element],
    first: &mut Option<Fault>,
)
    ensures { first.new ≡ earliest first.old (spec.values_faults (means inner.now outer.now) target waveform.now) }
{
    for element in waveform {
        value(inner, outer, target, &element.value, first);
    }
}

/// Records the faults of a waveform after a delay mechanism.
#[tactic(auto, using(sim_flat_scope::proofs::Faults::of_both), unfolding(crate::specs::Waveforms::waveform_faults))]
pub(crate) fn waveform(
    inner: &Scope<'_>,
    outer: &Scope<'_>,
    mechanism: &DelayMechanism,
    target: Option<Type>,
    waveform: &[Element],
    first: &mut Option<Fault>,
)
    ensures { first.new ≡ earliest first.old (spec.waveform_faults (means inner.now outer.now) mechanism.now target waveform.now) }
{
    delay(mechanism, waveform, first);
    rising(waveform, first);
    count(waveform, first);
    values(inner, outer, target, waveform, first);
}

/// Records the faults of waveforms with their conditions.
#[tactic(auto, unfolding(crate::specs::Waveforms::conditional_faults, sim_flat_scope::specs::Faults::earliest))]
fn conditional(
    inner: &Scope<'_>,
    outer: &Scope<'_>,
    mechanism: &DelayMechanism,
    target: Option<Type>,
    alternatives: &[ConditionalWaveform],
    first: &mut Option<Fault>,
)
    ensures { first.new ≡ earliest first.old (spec.conditional_faults (means inner.now outer.now) mechanism.now target alternatives.now) }
{
    for each in alternatives {
        let elements = each.waveform.as_slice();
        waveform(inner, outer, mechanism, target, elements, first);
        condition(inner, outer, &each.condition, first);
    }
}

/// Records the faults of the waveforms of a concurrent assignment.
#[tactic(auto, using(sim_flat_scope::proofs::Faults::of_both), unfolding(crate::specs::Waveforms::waveforms_faults, sim_flat_scope::specs::Faults::earliest))]
pub(crate) fn waveforms(
    inner: &Scope<'_>,
    outer: &Scope<'_>,
    mechanism: &DelayMechanism,
    target: Option<Type>,
    waveforms: &ConditionalWaveforms,
    first: &mut Option<Fault>,
)
    ensures { first.new ≡ earliest first.old (spec.waveforms_faults (means inner.now outer.now) mechanism.now target waveforms.now) }
{
    conditional(
        inner,
        outer,
        mechanism,
        target,
        waveforms.conditional.as_slice(),
        first,
    );
    if let Some(otherwise) = &waveforms.otherwise {
        waveform(inner, outer, mechanism, target, otherwise.as_slice(), first);
    }
}
