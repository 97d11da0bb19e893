//! The meanings of names in an architecture (IEEE 1076-2008, 12.3).

ghost use Rattle.std.specs.Prelude.{◌≡◌};
ghost use Rattle.sim_flat_blocks.specs.Plans as spec;

use sim_flat_scope::predefined::predefined;
use sim_flat_scope::{Meaning, Scope};

/// The meaning of a name in an architecture with this region.
#[tactic(auto, unfolding(sim_flat_scope::specs::Scopes::means, sim_flat_scope::specs::Scopes::found))]
pub fn meaning(region: &Scope<'_>, name: &[u8]) -> Option<Meaning>
    ensures { result ≡ spec.seen region.now name.now }
{
    match region.find(name) {
        Some(meaning) => Some(meaning),
        None => predefined(name),
    }
}
