//! The top: the entity that is elaborated, and its architecture (IEEE 1076-2008, 7.3.3, 14.1).

ghost use Rattle.std.specs.Prelude.{MatchResult};
ghost use Rattle.sim_flat.specs.Tops as spec;

use crate::error::FlatError;
use crate::folding::folded;
use sim_flat_instances::Library;
use std::alloc::Global;

/// The number of the block of the top, and the offset of its entity's name.
#[derive(Clone, Copy)]
pub struct Top {
    pub block: usize,
    pub at: usize,
}

/// The top with this name, which is compared without regard to case, with the last architecture of
/// its entity. `NoTop` if no entity has the name, such as one with a character beyond ASCII;
/// `NoArchitecture` if the entity has no architecture.
pub fn top_of(alloc: Global, library: &Library<'_>, name: &str) -> Result<Top, FlatError>
    ensures { MatchResult result (λ top. spec.IsTop library.now name.now top) (λ e. spec.IsMissing library.now name.now e) }
{
    let Some(small) = folded(alloc, name)? else {
        return Err(FlatError::NoTop);
    };
    let Some(entity) = library.entity(small.as_bytes()) else {
        return Err(FlatError::NoTop);
    };
    let at = entity.name.at();
    match library.last_architecture(small.as_bytes()) {
        None => Err(FlatError::NoArchitecture { at }),
        Some(block) => Ok(Top { block, at }),
    }
}
