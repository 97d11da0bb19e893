//! The prefix of the names of nets: the labels of the enclosing instances, each followed by `.`.

ghost use Rattle.std.specs.Prelude.{◌≡◌, IfOk};
ghost use Rattle.sim_flat_blocks.specs.Blocks as spec;

use sim_flat_design::InstancePath;
use sim_text_tree::name::Name;
use std::alloc::{AllocError, Global};

/// The prefix of the names in an instance.
#[tactic(auto, unfolding(sim_flat_blocks::specs::Blocks::below))]
pub fn below(alloc: Global, prefix: &InstancePath, label: &Name) -> Result<InstancePath, AllocError>
    ensures { IfOk result (λ r. r ≡ spec.below prefix.now label.now.text) }
{
    prefix.below(alloc, label.as_str())
}
