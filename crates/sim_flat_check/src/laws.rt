//! Laws of statements and expressions without faults.

ghost use Rattle.std.specs.Prelude.{◌≡◌, ◌⊎◌, List, [], true, Option, Some, is_some};
ghost use Rattle.sim_flat_scope.specs.Scopes.{Lookup};
ghost use Rattle.sim_flat_scope.specs.declared.scope.Type as ty;
ghost use Rattle.sim_flat_scope.specs.declared.scope.Type.TheVariants.{Boolean, Logic};
ghost use Rattle.sim_text_tree.specs.declared.waveform.DelayMechanism.{DelayMechanism};
ghost use Rattle.sim_text_tree.specs.declared.waveform.Element.{Element};
ghost use Rattle.sim_text_tree.specs.declared.expression.Expression.{Expression};
ghost use Rattle.sim_flat_check.specs.Laws.{AllTyped, IsSound};
ghost use Rattle.sim_flat_check.specs.Types.{judged};
ghost use Rattle.sim_flat_check.specs.Waveforms.{condition_faults, value_faults, waveform_faults};

/// A waveform without faults has at most the allowed number of elements, its delays ascend
/// strictly, and a rejection limit before it is at most its first delay.
pub fn a_waveform_without_faults_is_sound()
    ensures { (look : Lookup) (mechanism : DelayMechanism) (target : Option ty.Type) (w : List Element) →
        waveform_faults look mechanism target w ≡ [] → IsSound mechanism w }
{}

/// An expression without faults has a type, provided no type mark of a declaration is at fault.
pub fn an_expression_without_faults_has_a_type()
    ensures { (look : Lookup) (x : Expression) → AllTyped look → (judged look x).faults ≡ [] → is_some (judged look x).type ≡ true }
{}

/// A condition without faults is of type boolean, or `??` is applied to it: it is of type
/// std_ulogic and contains a name.
pub fn a_condition_without_faults_is_boolean_or_the_condition_operator_applies()
    ensures { (look : Lookup) (x : Expression) → AllTyped look → condition_faults look x ≡ [] →
        ((judged look x).type ≡ Some Boolean) ⊎ (((judged look x).type ≡ Some Logic) × ((judged look x).named ≡ true)) }
{}

/// A value without faults has the type of its target.
pub fn a_value_without_faults_has_the_type_of_its_target()
    ensures { (look : Lookup) (target : ty.Type) (x : Expression) →
        AllTyped look → value_faults look (Some target) x ≡ [] → (judged look x).type ≡ Some target }
{}
