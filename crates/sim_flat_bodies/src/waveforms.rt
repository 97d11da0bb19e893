//! Waveforms and signal assignments (IEEE 1076-2008, 10.5).

ghost use Rattle.std.specs.Prelude.{◌≡◌, true, IfOk, IfSome, ◌<◌, length, map};
ghost use Rattle.std.specs.List.{All};
ghost use Rattle.sim_flat_scope.specs.Scopes.{means};
ghost use Rattle.sim_flat_design.specs.Bodies.{conditional_fits, last_fits, logic_fits, waveform_fits};
ghost use Rattle.sim_flat_bodies.specs.Statements as spec;
ghost use Rattle.sim_flat_bodies.specs.Timed.{conditional_timed, last_timed, waveform_timed};
ghost use Rattle.sim_flat_bodies.specs.Within.{AreWithin};

use crate::expressions::{condition, logic};
use crate::names::Names;
use crate::targets::Targets;
use crate::timed::after;
use sim_flat_design::statement::{ConditionalWaveform, Delay};
use sim_flat_design::waveform::{Element, Waveform};
use sim_flat_scope::Meaning;
use sim_text_tree::waveform as tree;
use sqlite_items::Items;
use std::alloc::{AllocError, Global};

/// A delay mechanism.
#[tactic(auto, unfolding(crate::specs::Statements::delay_of))]
pub fn delay(mechanism: &tree::DelayMechanism) -> Delay
    ensures { result ≡ spec.delay_of mechanism.now }
{
    match mechanism {
        tree::DelayMechanism::Transport => Delay::Transport,
        tree::DelayMechanism::Unwritten => Delay::Inertial,
        tree::DelayMechanism::Inertial => Delay::Inertial,
        tree::DelayMechanism::Reject(limit) => Delay::Reject(limit.time()),
    }
}

/// An element with its delay, zero if none is written.
#[tactic(auto, unfolding(crate::specs::Statements::element_of))]
fn element(
    alloc: Global,
    names: &Names<'_, '_>,
    element: &tree::Element,
) -> Result<Element, AllocError>
    requires within { AreWithin (means names.now.process.now names.now.architecture.now) names.now.objects names.now.variables.now }
    ensures value { IfOk result (λ r. r ≡ spec.element_of (means names.now.process.now names.now.architecture.now) element.now) }
    ensures fits { IfOk result (λ r. logic_fits names.now.objects names.now.variables.now r.value ≡ true) }
{
    let after = after(&element.after);
    let value = logic(alloc, names, &element.value)?;
    Ok(Element { value, after })
}

/// The elements of a waveform.
#[tactic(auto, unfolding(crate::specs::Statements::waveform_of))]
fn elements(
    alloc: Global,
    names: &Names<'_, '_>,
    elements: &[tree::Element],
) -> Result<Items<Element>, AllocError>
    requires within { AreWithin (means names.now.process.now names.now.architecture.now) names.now.objects names.now.variables.now }
    ensures value { IfOk result (λ r. r ≡ spec.waveform_of (means names.now.process.now names.now.architecture.now) elements.now) }
    ensures fits { IfOk result (λ r. All (λ x. logic_fits names.now.objects names.now.variables.now x.value ≡ true) r) }
{
    let mut found = Vec::with_capacity(alloc, elements.len())?;
    for each in elements {
        found.push(element(alloc, names, each)?)?;
    }
    Ok(Items::from_vec(found))
}

/// A waveform, given its delay mechanism.
#[tactic(auto, using(crate::proofs::WaveformTimes::timed))]
pub fn waveform(
    alloc: Global,
    names: &Names<'_, '_>,
    mechanism: &tree::DelayMechanism,
    waveform: &tree::Waveform,
) -> Result<Waveform, AllocError>
    requires within { AreWithin (means names.now.process.now names.now.architecture.now) names.now.objects names.now.variables.now }
    requires timed { waveform_timed mechanism.now waveform.now ≡ true }
    ensures value { IfOk result (λ r. r ≡ spec.waveform_of (means names.now.process.now names.now.architecture.now) waveform.now) }
    ensures fits { IfOk result (λ r. waveform_fits names.now.objects names.now.variables.now (spec.delay_of mechanism.now) r ≡ true) }
{
    let elements = elements(alloc, names, waveform.as_slice())?;
    Ok(Waveform::new(elements))
}

/// A waveform and its condition (10.5.3).
#[tactic(auto, unfolding(crate::specs::Statements::conditional_of, crate::specs::Timed::conditional_timed))]
fn conditional(
    alloc: Global,
    names: &Names<'_, '_>,
    mechanism: &tree::DelayMechanism,
    each: &tree::ConditionalWaveform,
) -> Result<ConditionalWaveform, AllocError>
    requires within { AreWithin (means names.now.process.now names.now.architecture.now) names.now.objects names.now.variables.now }
    requires timed { conditional_timed mechanism.now each.now ≡ true }
    ensures value { IfOk result (λ r. r ≡ spec.conditional_of (means names.now.process.now names.now.architecture.now) each.now) }
    ensures fits { IfOk result (λ r. conditional_fits names.now.objects names.now.variables.now (spec.delay_of mechanism.now) r ≡ true) }
{
    let waveform = waveform(alloc, names, mechanism, &each.waveform)?;
    let condition = condition(alloc, names, &each.condition)?;
    Ok(ConditionalWaveform {
        waveform,
        condition,
    })
}

/// The conditional waveforms of an assignment.
pub fn conditionals(
    alloc: Global,
    names: &Names<'_, '_>,
    mechanism: &tree::DelayMechanism,
    list: &[tree::ConditionalWaveform],
) -> Result<Items<ConditionalWaveform>, AllocError>
    requires within { AreWithin (means names.now.process.now names.now.architecture.now) names.now.objects names.now.variables.now }
    requires timed { All (λ x. conditional_timed mechanism.now x ≡ true) list.now }
    ensures value { IfOk result (λ r. r ≡ map (spec.conditional_of (means names.now.process.now names.now.architecture.now)) list.now) }
    ensures fits { IfOk result (λ r. All (λ x. conditional_fits names.now.objects names.now.variables.now (spec.delay_of mechanism.now) x ≡ true) r) }
{
    let mut found = Vec::with_capacity(alloc, list.len())?;
    for each in list {
        found.push(conditional(alloc, names, mechanism, each)?)?;
    }
    Ok(Items::from_vec(found))
}

/// The waveform without a condition, if there is one.
#[tactic(auto, unfolding(crate::specs::Statements::last_of, crate::specs::Timed::last_timed))]
pub fn last(
    alloc: Global,
    names: &Names<'_, '_>,
    mechanism: &tree::DelayMechanism,
    written: &Option<tree::Waveform>,
) -> Result<Option<Waveform>, AllocError>
    requires within { AreWithin (means names.now.process.now names.now.architecture.now) names.now.objects names.now.variables.now }
    requires timed { last_timed mechanism.now written.now ≡ true }
    ensures value { IfOk result (λ r. r ≡ spec.last_of (means names.now.process.now names.now.architecture.now) written.now) }
    ensures fits { IfOk result (λ r. last_fits names.now.objects names.now.variables.now (spec.delay_of mechanism.now) r ≡ true) }
{
    match written {
        Some(written) => {
            let waveform = waveform(alloc, names, mechanism, written)?;
            Ok(Some(waveform))
        }
        None => Ok(None),
    }
}

/// The position of the driver of a target.
#[tactic(auto, unfolding(crate::specs::Statements::driver_of))]
pub fn driver(targets: &Targets, meaning: Option<Meaning>) -> Option<usize>
    ensures value { result ≡ spec.driver_of targets.now meaning }
    ensures bound { IfSome result (λ p. p < length targets.now) }
{
    match meaning {
        Some(Meaning::Port { object, .. }) => targets.place(object),
        Some(Meaning::Signal { object, .. }) => targets.place(object),
        _ => None,
    }
}
