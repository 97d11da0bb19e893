//! Whether the delays of waveforms are in order (IEEE 1076-2008, 10.5.2).

ghost use Rattle.std.specs.Prelude.{◌≡◌, ◌∷◌};
ghost use Rattle.std.specs.List.{list_all};
ghost use Rattle.sim_flat_bodies.specs.Timed as spec;

use sim_logic::{Time, Unit};
use sim_text_tree::time::TimeLiteral;
use sim_text_tree::waveform::{
    ConcurrentSignalAssignment, ConditionalWaveform, DelayMechanism, Element, Waveform,
};

/// The delay zero.
fn at_once() -> Time
    ensures { result ≡ 0 }
{
    match Time::of(0, Unit::Fs) {
        Some(time) => time,
        None => unreachable!(),
    }
}

/// The delay of an element; zero if none is written.
#[tactic(auto, unfolding(crate::specs::Timed::after_of))]
pub fn after(written: &Option<TimeLiteral>) -> Time
    ensures { result ≡ spec.after_of written.now }
{
    match written {
        Some(literal) => literal.time(),
        None => at_once(),
    }
}

/// Whether each element has a longer delay than the one before it, and the first a longer one than
/// this.
#[tactic(auto, unfolding(crate::specs::Timed::rises_from))]
fn rises_from(time: Time, elements: &[Element]) -> bool
    ensures { result ≡ spec.rises_from time elements.now }
{
    let mut before = time.fs();
    for element in elements {
        let next = after(&element.after).fs();
        if next <= before {
            return false;
        }
        before = next;
    }
    true
}

/// Whether a rejection limit is at most the first delay of a waveform.
#[tactic(auto, unfolding(crate::specs::Timed::rejects_within))]
fn rejects_within(delay: &DelayMechanism, first: &Element, rest: &[Element]) -> bool
    ensures { result ≡ spec.rejects_within delay.now (first.now ∷ rest.now) }
{
    match delay {
        DelayMechanism::Reject(limit) => limit.time().fs() <= after(&first.after).fs(),
        _ => true,
    }
}

/// Whether a waveform is in order, given its delay mechanism.
#[tactic(auto, unfolding(crate::specs::Timed::waveform_timed, crate::specs::Timed::rises, crate::specs::Timed::rejects_within))]
pub fn waveform_timed(delay: &DelayMechanism, elements: &[Element]) -> bool
    ensures { result ≡ spec.waveform_timed delay.now elements.now }
{
    match elements {
        [] => false,
        [first, rest @ ..] => {
            rises_from(after(&first.after), rest) && rejects_within(delay, first, rest)
        }
    }
}

/// Whether each waveform with a condition is in order.
#[tactic(auto, unfolding(crate::specs::Timed::conditional_timed))]
fn conditionals_timed(delay: &DelayMechanism, list: &[ConditionalWaveform]) -> bool
    ensures { result ≡ list_all (spec.conditional_timed delay.now) list.now }
{
    for each in list {
        if !waveform_timed(delay, each.waveform.as_slice()) {
            return false;
        }
    }
    true
}

/// Whether the waveform without a condition is in order.
#[tactic(auto, unfolding(crate::specs::Timed::last_timed))]
fn last_timed(delay: &DelayMechanism, written: &Option<Waveform>) -> bool
    ensures { result ≡ spec.last_timed delay.now written.now }
{
    match written {
        Some(waveform) => waveform_timed(delay, waveform.as_slice()),
        None => true,
    }
}

/// Whether the waveforms of a concurrent assignment are in order.
#[tactic(auto, unfolding(crate::specs::Timed::concurrent_timed))]
pub fn concurrent_timed(assignment: &ConcurrentSignalAssignment) -> bool
    ensures { result ≡ spec.concurrent_timed assignment.now }
{
    let waveforms = &assignment.waveforms;
    let delay = &assignment.delay;
    conditionals_timed(delay, waveforms.conditional.as_slice())
        && last_timed(delay, &waveforms.otherwise)
}
