//! The initial values of the variables of a process (IEEE 1076-2008, 6.4.2.4, 11.3).

ghost use Rattle.std.specs.Prelude.{◌≡◌, ◌++◌, IfOk, OnOk, true};
ghost use Rattle.sim_flat_scope.specs.Scopes.{means};
ghost use Rattle.sim_flat_blocks.specs.FirstValues as spec;

use sim_flat_design::Held;
use sim_flat_scope::Names;
use sim_flat_scope::region::{labels, type_marked};
use sim_flat_scope::scope::{Meaning, Scope, Type, look_up};
use sim_logic::Logic;
use sim_text_tree::declaration::{Initial, ObjectDeclaration};
use sim_text_tree::name::Name;
use sim_text_tree::unit::Process;
use sqlite_items::Items;
use std::alloc::{AllocError, Global};

/// The boolean value that a name denotes.
#[tactic(auto, unfolding(crate::specs::FirstValues::truth_named))]
fn truth_named(meaning: Option<Meaning>) -> bool
    ensures { result ≡ spec.truth_named meaning }
{
    match meaning {
        Some(Meaning::Truth(value)) => value,
        _ => false,
    }
}

/// An initial value of type boolean.
#[tactic(auto, unfolding(crate::specs::FirstValues::first_truth))]
fn first_truth(inner: &Scope<'_>, outer: &Scope<'_>, initial: &Option<Initial>) -> Held
    ensures { result ≡ spec.first_truth (means inner.now outer.now) initial.now }
{
    match initial {
        Some(Initial::Named(name)) => Held::Truth(truth_named(look_up(inner, outer, name.text()))),
        _ => Held::Truth(false),
    }
}

/// An initial value of type std_ulogic.
#[tactic(auto, unfolding(crate::specs::FirstValues::first_bit))]
fn first_bit(initial: &Option<Initial>) -> Held
    ensures { result ≡ spec.first_bit initial.now }
{
    match initial {
        Some(Initial::Literal { value, .. }) => Held::Bit(*value),
        _ => Held::Bit(Logic::U),
    }
}

/// An initial value, by the type of its variable.
#[tactic(auto, unfolding(crate::specs::FirstValues::first_value))]
fn first_value(
    inner: &Scope<'_>,
    outer: &Scope<'_>,
    type_: Option<Type>,
    initial: &Option<Initial>,
) -> Held
    ensures { result ≡ spec.first_value (means inner.now outer.now) type_ initial.now }
{
    match type_ {
        Some(Type::Boolean) => first_truth(inner, outer, initial),
        _ => first_bit(initial),
    }
}

/// Adds the same value for each of these names.
#[tactic(auto, unfolding(crate::specs::FirstValues::value_of_each))]
fn add_each(value: Held, names: &[Name], found: &mut Vec<Held>) -> Result<(), AllocError>
    ensures { OnOk result (found.new.items ≡ found.old.items ++ spec.value_of_each value names.now) }
{
    for _name in names {
        found.push(value)?;
    }
    Ok(())
}

/// Adds the initial values of the variables of one declaration.
fn add_declared(
    inner: &Scope<'_>,
    outer: &Scope<'_>,
    variable: &ObjectDeclaration,
    found: &mut Vec<Held>,
) -> Result<(), AllocError>
    ensures { OnOk result (found.new.items ≡ found.old.items ++ spec.values_declared (means inner.now outer.now) variable.now) }
{
    let type_ = type_marked(true, look_up(inner, outer, variable.mark.text()));
    let value = first_value(inner, outer, type_, &variable.initial);
    add_each(value, variable.names.as_slice(), found)
}

/// The initial values of variables.
#[tactic(auto, unfolding(crate::specs::FirstValues::values_of))]
fn values_of(
    alloc: Global,
    inner: &Scope<'_>,
    outer: &Scope<'_>,
    variables: &[ObjectDeclaration],
) -> Result<Items<Held>, AllocError>
    ensures { IfOk result (λ r. r ≡ spec.values_of (means inner.now outer.now) variables.now) }
{
    let mut found = Vec::new(alloc);
    for variable in variables {
        add_declared(inner, outer, variable, &mut found)?;
    }
    Ok(Items::from_vec(found))
}

/// The initial values of the variables of a process in its architecture, by position.
#[tactic(auto, unfolding(crate::specs::FirstValues::first_values))]
pub fn first_values(
    alloc: Global,
    architecture: &Scope<'_>,
    process: &Process,
) -> Result<Items<Held>, AllocError>
    ensures { IfOk result (λ r. r ≡ spec.first_values architecture.now process.now) }
{
    let names = Names::of_process(alloc, process)?;
    let own = Scope::of(labels(alloc, &names)?);
    values_of(alloc, &own, architecture, process.variables.as_slice())
}
