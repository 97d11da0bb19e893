//! Assignments to signals (IEEE 1076-2008, 10.5) and variables (10.6).

ghost use Rattle.std.specs.Prelude.{◌≡◌, ◌≤◌, true, length, map, slice_get, slice_set, option_copied, IfOk, IfSome, OnOk, OnErr};
ghost use Rattle.std.specs.List.{All};
ghost use Rattle.sim_logic.specs.Time.{largest_time};
ghost use Rattle.sim_flat_design.specs.Waveforms.{IsWaveform, IsRejected};
ghost use Rattle.sim_flat_design.specs.Bodies.{assignment_fits, is_bit, is_truth};
ghost use Rattle.sim_standard.specs.Drivers.{Transaction as transaction};
ghost use Rattle.sim_flat_design.specs.declared.held.Held as held;
ghost use Rattle.sim_exec_statements.specs.Ready.{holds_bit};
ghost use Rattle.sim_standard.specs.State.{driver_values};
ghost use Rattle.sim_standard.specs.Statements as spec;
ghost use Rattle.sim_standard.specs.Expressions as values;
ghost use Rattle.sim_wave.specs.Rising.{RisesFrom};

use crate::values::{boolean_value, logic_value};
use crate::view::Nets;
use sim_flat_design::statement::{self, SignalAssignment};
use sim_flat_design::waveform::Element;
use sim_flat_design::{Body, Held};
use sim_logic::Logic;
use sim_wave::{Delay, Driver, Transaction};
use smallvec::SmallVec;
use std::alloc::{AllocError, Global};

/// The number of elements of a waveform that are assigned without an allocation.
const IN_PLACE: usize = 16;

/// The delay mechanism with its rejection limit, which is the delay of the first element unless
/// `reject` gives another (10.5.2.1).
fn delay(mechanism: statement::Delay, first: u64) -> Delay
    ensures { result ≡ spec.delay_of mechanism first }
{
    match mechanism {
        statement::Delay::Transport => Delay::Transport,
        statement::Delay::Inertial => Delay::Inertial { reject: first },
        statement::Delay::Reject(limit) => Delay::Inertial { reject: limit.fs() },
    }
}

/// An element, evaluated: its delay and its value.
fn element_value<N: Nets>(nets: &N, variables: &[Held], element: &Element) -> Transaction
    ensures value { result ≡ (element.now.after, values.logic_value (N.look nets.now) variables.now element.now.value) }
    ensures bound { result.0 ≤ largest_time }
{
    (
        element.after.fs(),
        logic_value(nets, variables, &element.value),
    )
}

/// The elements of a waveform, evaluated.
#[tactic(auto, using(crate::proofs::Elements::element_values_rise))]
fn element_values<N: Nets>(
    alloc: Global,
    nets: &N,
    variables: &[Held],
    elements: &[Element],
) -> Result<SmallVec<Transaction, IN_PLACE>, AllocError>
    requires waveform { IsWaveform elements.now }
    ensures value { IfOk result (λ found. found.items ≡ values.element_values (N.look nets.now) variables.now elements.now) }
    ensures rises { IfOk result (λ found. RisesFrom 0 found.items) }
    ensures bound { IfOk result (λ found. All (λ (x : transaction). x.0 ≤ largest_time) found.items) }
{
    let mut found = SmallVec::new(alloc);
    for element in elements {
        found.push(element_value(nets, variables, element))?;
    }
    Ok(found)
}

/// The waveform to be assigned: the first whose condition holds, else the one without a condition,
/// if there is one (10.5.3).
#[tactic(auto, using(crate::proofs::Fits::all_rejected, crate::proofs::Fits::last_rejected), unfolding(sim_standard::specs::Expressions::taken_waveform))]
fn taken_waveform<'a, N: Nets>(
    nets: &N,
    body: &Body,
    variables: &[Held],
    assignment: &'a SignalAssignment,
) -> Option<&'a [Element]>
    requires fits { assignment_fits body.now.objects body.now.drivers body.now.variables assignment.now ≡ true }
    ensures value { option_copied result
        ≡ values.taken_waveform (N.look nets.now) variables.now assignment.now.conditional assignment.now.otherwise }
    ensures waveform { IfSome result (λ w. IsWaveform w.now × IsRejected assignment.now.delay w.now) }
{
    for conditional in assignment.conditional.as_slice() {
        if boolean_value(nets, variables, &conditional.condition) {
            return Some(conditional.waveform.elements());
        }
    }
    match &assignment.otherwise {
        Some(waveform) => Some(waveform.elements()),
        None => None,
    }
}

/// Assigns a waveform of any number of elements to a driver (10.5.2.2).
#[inline(never)]
fn assign<N: Nets>(
    alloc: Global,
    nets: &N,
    now: u64,
    mechanism: statement::Delay,
    elements: &[Element],
    variables: &[Held],
    driver: &mut Driver,
) -> Result<(), AllocError>
    requires waveform { IsWaveform elements.now }
    requires rejected { IsRejected mechanism elements.now }
    requires now { now ≤ largest_time }
    requires pending { RisesFrom now driver.old.pending }
    ensures ok { OnOk result (driver.new
        ≡ spec.assigned now mechanism (values.element_values (N.look nets.now) variables.now elements.now) driver.old) }
    ensures err { OnErr result (driver.new ≡ driver.old) }
    ensures pending { RisesFrom now driver.new.pending }
    ensures value { driver.new.value ≡ driver.old.value }
{
    let found = element_values(alloc, nets, variables, elements)?;
    let first = elements[0].after.fs();
    driver.edit(now, delay(mechanism, first), found.as_slice())
}

/// Carries out a signal assignment (10.5.2).
#[tactic(auto, using(crate::proofs::Fits::driver_within))]
pub(crate) fn assign_signal<N: Nets>(
    alloc: Global,
    nets: &N,
    now: u64,
    body: &Body,
    assignment: &SignalAssignment,
    drivers: &mut [Driver],
    variables: &[Held],
) -> Result<(), AllocError>
    requires fits { assignment_fits body.now.objects body.now.drivers body.now.variables assignment.now ≡ true }
    requires drivers { length drivers.old ≡ body.now.drivers }
    requires now { now ≤ largest_time }
    requires pending { All (λ d. RisesFrom now d.pending) drivers.old }
    ensures ok { OnOk result (record { drivers = drivers.new; variables = variables.now }
        ≡ (spec.own_steps (N.look nets.now) now).signal assignment.now (record { drivers = drivers.old; variables = variables.now })) }
    ensures drivers { length drivers.new ≡ length drivers.old }
    ensures pending { All (λ d. RisesFrom now d.pending) drivers.new }
    ensures values { driver_values drivers.new ≡ driver_values drivers.old }
{
    let Some(elements) = taken_waveform(nets, body, variables, assignment) else {
        return Ok(());
    };
    let mechanism = assignment.delay;
    let driver = &mut drivers[assignment.driver];
    if let [only] = elements {
        let element = element_value(nets, variables, only);
        driver.edit(now, delay(mechanism, element.0), &[element])?;
        return Ok(());
    }
    assign(alloc, nets, now, mechanism, elements, variables, driver)
}

#[tactic(auto, using(crate::proofs::Fits::bit_kept))]
/// Assigns a value to the variable at a position, which is of type std_ulogic (10.6).
pub(crate) fn set_bit(body: &Body, variables: &mut [Held], place: usize, value: Logic)
    requires fits { is_bit (slice_get body.now.variables place) ≡ true }
    requires variables { map holds_bit variables.old ≡ map holds_bit body.now.variables }
    ensures value { variables.new ≡ slice_set variables.old place (held.Held.Bit value) }
    ensures variables { map holds_bit variables.new ≡ map holds_bit body.now.variables }
{
    variables[place] = Held::Bit(value);
}

#[tactic(auto, using(crate::proofs::Fits::truth_kept))]
/// Assigns a value to the variable at a position, which is of type boolean (10.6).
pub(crate) fn set_truth(body: &Body, variables: &mut [Held], place: usize, value: bool)
    requires fits { is_truth (slice_get body.now.variables place) ≡ true }
    requires variables { map holds_bit variables.old ≡ map holds_bit body.now.variables }
    ensures value { variables.new ≡ slice_set variables.old place (held.Held.Truth value) }
    ensures variables { map holds_bit variables.new ≡ map holds_bit body.now.variables }
{
    variables[place] = Held::Truth(value);
}
