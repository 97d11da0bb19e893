//! The faults of type marks and of initial values.

ghost use Rattle.std.specs.Prelude.{◌≡◌};
ghost use Rattle.sim_flat_scope.specs.Faults.{earliest};
ghost use Rattle.sim_flat_scope.specs.Scopes.{means};
ghost use Rattle.sim_flat_scope.specs.DeclarationFaults as spec;

use crate::fault::{Fault, Kind, note};
use crate::region::type_marked;
use crate::scope::{Meaning, Scope, Type, look_up};
use sim_text_tree::declaration::Initial;
use sim_text_tree::name::Name;

/// Records a fault if a mark is not declared, or denotes no type that the object may have.
#[tactic(auto, unfolding(crate::specs::Faults::earliest))]
fn check_mark(may_be_boolean: bool, at: usize, meaning: Option<Meaning>, first: &mut Option<Fault>)
    ensures { first.new ≡ earliest first.old (spec.mark_faults may_be_boolean at meaning) }
{
    if meaning.is_none() {
        note(first, Kind::Unknown, at);
        return;
    }
    if type_marked(may_be_boolean, meaning).is_none() {
        note(first, Kind::WrongKind, at);
    }
}

/// Records a fault if the object of a literal is boolean.
#[tactic(auto, unfolding(crate::specs::Faults::earliest))]
fn check_literal(type_: Option<Type>, at: usize, first: &mut Option<Fault>)
    ensures { first.new ≡ earliest first.old (spec.literal_faults type_ at) }
{
    match type_ {
        Some(Type::Boolean) => note(first, Kind::TypeClash, at),
        Some(Type::Logic) | None => {}
    }
}

/// Records a fault if the object of `true` or `false` is not boolean.
#[tactic(auto, unfolding(crate::specs::Faults::earliest))]
fn check_truth(type_: Option<Type>, at: usize, first: &mut Option<Fault>)
    ensures { first.new ≡ earliest first.old (spec.truth_faults type_ at) }
{
    match type_ {
        Some(Type::Logic) => note(first, Kind::TypeClash, at),
        Some(Type::Boolean) | None => {}
    }
}

/// Records a fault if a name is not a valid initial value of an object.
#[tactic(auto, unfolding(crate::specs::Faults::earliest))]
fn check_value(type_: Option<Type>, at: usize, meaning: Option<Meaning>, first: &mut Option<Fault>)
    ensures { first.new ≡ earliest first.old (spec.value_faults type_ at meaning) }
{
    match meaning {
        None => note(first, Kind::Unknown, at),
        Some(Meaning::Truth(_)) => check_truth(type_, at, first),
        Some(_) => note(first, Kind::WrongKind, at),
    }
}

/// Records the faults of an initial value, if there is one.
#[tactic(auto, unfolding(crate::specs::Faults::earliest))]
fn check_initial(
    inner: &Scope<'_>,
    outer: &Scope<'_>,
    type_: Option<Type>,
    initial: &Option<Initial>,
    first: &mut Option<Fault>,
)
    ensures { first.new ≡ earliest first.old (spec.initial_faults (means inner.now outer.now) type_ initial.now) }
{
    match initial {
        None => {}
        Some(Initial::Literal { at, .. }) => check_literal(type_, *at, first),
        Some(Initial::Named(name)) => {
            check_value(type_, name.at(), look_up(inner, outer, name.text()), first);
        }
    }
}

/// Records the faults of the mark and the initial value of objects, in nested regions.
#[tactic(auto, using(crate::proofs::Faults::of_both), unfolding(crate::specs::DeclarationFaults::object_faults))]
pub fn check_object(
    inner: &Scope<'_>,
    outer: &Scope<'_>,
    may_be_boolean: bool,
    mark: &Name,
    initial: &Option<Initial>,
    first: &mut Option<Fault>,
)
    ensures { first.new ≡ earliest first.old (spec.object_faults (means inner.now outer.now) may_be_boolean mark.now initial.now) }
{
    let meaning = look_up(inner, outer, mark.text());
    check_mark(may_be_boolean, mark.at(), meaning, first);
    check_initial(
        inner,
        outer,
        type_marked(may_be_boolean, meaning),
        initial,
        first,
    );
}
