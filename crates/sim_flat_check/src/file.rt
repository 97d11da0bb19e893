//! The first fault of a design file (IEEE 1076-2008, 13.1).

ghost use Rattle.std.specs.Prelude.{◌≡◌, None, IfOk};
ghost use Rattle.sim_flat_scope.specs.Faults.{earliest};
ghost use Rattle.sim_flat_check.specs.Files as spec;

use crate::architectures::check_architectures;
use crate::entities::check_entities;
use sim_flat_instances::Library;
use sim_flat_scope::Fault;
use std::alloc::{AllocError, Global};

/// The fault that is reported for the units of a design file, if there is one: the first by place,
/// and of several at one place the first by kind. All units are checked, elaborated or not (13.1).
#[tactic(auto, using(sim_flat_scope::proofs::Faults::of_both), unfolding(crate::specs::Files::file_faults))]
pub fn analyze(alloc: Global, library: &Library<'_>) -> Result<Option<Fault>, AllocError>
    ensures { IfOk result (λ found. found ≡ earliest None (spec.file_faults library.now)) }
{
    let mut first = None;
    check_entities(alloc, library.entities(), &mut first)?;
    check_architectures(alloc, library, library.architectures(), &mut first)?;
    Ok(first)
}
