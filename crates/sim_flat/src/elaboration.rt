//! The flat design of a file and its top.

ghost use Rattle.std.specs.Prelude.{◌≡◌, None, MatchResult};
ghost use Rattle.sim_flat_instances.specs.Libraries.{library_of};
ghost use Rattle.sim_flat.specs.Elaboration as spec;

use crate::error::{FlatError, refusal_of};
use crate::hierarchy::expand_top;
use crate::top::top_of;
use sim_flat_blocks::blocks;
use sim_flat_check::analyze;
use sim_flat_design::{Design, Limits};
use sim_flat_instances::Library;
use sim_text_tree::DesignFile;
use std::alloc::Global;

/// The flat design under the top, in a library whose units have no fault.
fn elaborate(
    alloc: Global,
    library: &Library<'_>,
    top: &str,
    limits: Limits,
) -> Result<Design, FlatError>
    requires checked { spec.first_fault library.now ≡ None }
    ensures { MatchResult result (λ d. spec.IsDesignWithin limits library.now top.now d) (λ e. spec.IsRefusalWithin limits library.now top.now e) }
{
    let found = top_of(alloc, library, top)?;
    let plan = blocks(alloc, library)?;
    expand_top(alloc, plan.as_slice(), found, limits)
}

/// The flat design under the top, or the first fault; those of units come first.
fn checked(
    alloc: Global,
    library: &Library<'_>,
    top: &str,
    limits: Limits,
) -> Result<Design, FlatError>
    ensures { MatchResult result (λ d. spec.IsDesignWithin limits library.now top.now d) (λ e. spec.IsRefusalWithin limits library.now top.now e) }
{
    if let Some(fault) = analyze(alloc, library)? {
        return Err(refusal_of(fault));
    }
    elaborate(alloc, library, top, limits)
}

/// The flat design of a file under the entity `top`, whose name is compared without regard to case.
///
/// The refusals, in order of precedence: the first fault of any unit of the file, reached from the
/// top or not (by position, and of two at one position the one listed first in `FlatError`);
/// `NoTop` if no entity has the name; `NoArchitecture`, at its name, if the top has none;
/// `Recursive`, at the first instance that contains itself; `TooMany`, at the name of the top, if
/// the flat design would exceed a limit; `ManySources`, at the first signal or port of type
/// std_ulogic with more than one source. `Memory` is possible at any time.
pub fn flatten_within(
    alloc: Global,
    file: &DesignFile,
    top: &str,
    limits: Limits,
) -> Result<Design, FlatError>
    ensures { MatchResult result (λ d. spec.IsDesignWithin limits (library_of file.now.units) top.now d)
        (λ e. spec.IsRefusalWithin limits (library_of file.now.units) top.now e) }
{
    let library = Library::of(alloc, file)?;
    checked(alloc, &library, top, limits)
}

/// The flat design within 65,536 nets, processes and drivers, and 16,384 instances; refusals as those
/// of `flatten_within`.
pub fn flatten(alloc: Global, file: &DesignFile, top: &str) -> Result<Design, FlatError>
    ensures { MatchResult result (λ d. spec.IsDesign (library_of file.now.units) top.now d)
        (λ e. spec.IsRefusal (library_of file.now.units) top.now e) }
{
    flatten_within(alloc, file, top, Limits::standard())
}
