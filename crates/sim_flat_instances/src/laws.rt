//! A law of the faults of instances.

ghost use Rattle.std.specs.Prelude.{◌≡◌, List, []};
ghost use Rattle.sim_text_tree.specs.declared.unit.Instance.{Instance};
ghost use Rattle.sim_flat_instances.specs.declared.component.Component.{Component};
ghost use Rattle.sim_flat_scope.specs.Scopes.{Lookup};
ghost use Rattle.sim_flat_instances.specs.Libraries.{Library};
ghost use Rattle.sim_flat_instances.specs.Instances.{instance_faults};
ghost use Rattle.sim_flat_instances.specs.Laws.{IsBound};

/// An instance without faults is bound to an existing architecture; each port of mode in without a
/// default expression has an actual, and each actual fits its port.
pub fn an_instance_without_faults_is_bound()
    ensures { (l : Library) (look : Lookup) (components : List Component) (i : Instance) →
        instance_faults l look components i ≡ [] → IsBound l look i }
{}
