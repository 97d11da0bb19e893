//! The hierarchy of blocks under the top (IEEE 1076-2008, 14).

ghost use Rattle.std.specs.Prelude.{◌<◌, MatchResult, OnOk, length};
ghost use Rattle.std.specs.List.{All};
ghost use Rattle.sim_flat_blocks.specs.Blocks.{IsBlock, IsWithinLimits};
ghost use Rattle.sim_flat_expansion.specs.Flat.{flat};
ghost use Rattle.sim_flat_expansion.specs.Limits.{Fits};
ghost use Rattle.sim_flat.specs.Hierarchies as spec;

use crate::error::FlatError;
use crate::top::Top;
use sim_flat_blocks::Block;
use sim_flat_design::{Design, Limits};
use sim_flat_expansion::expand;
use sim_flat_expansion::limits::fits;
use sim_flat_graph::{first_recursive, first_with_many_sources};
use std::alloc::Global;

/// Refuses a hierarchy with a fault. The order is `Recursive` if an instance contains itself,
/// `TooMany` if a limit is exceeded, `ManySources`.
fn check(alloc: Global, blocks: &[Block], top: Top, limits: Limits) -> Result<(), FlatError>
    requires known { All (IsBlock blocks.now) blocks.now }
    requires top { top.block < length blocks.now }
    ensures found { MatchResult result (λ found. spec.IsFinite blocks.now top.block × Fits limits blocks.now top.block × spec.IsResolved blocks.now top.block)
        (λ e. spec.IsFault limits blocks.now top e) }
    ensures within { OnOk result (IsWithinLimits (flat blocks.now top.block)) }
{
    if let Some(at) = first_recursive(alloc, blocks, top.block)? {
        return Err(FlatError::Recursive { at });
    }
    if !fits(alloc, blocks, top.block, limits)? {
        return Err(FlatError::TooMany { at: top.at });
    }
    if let Some(at) = first_with_many_sources(alloc, blocks, top.block)? {
        return Err(FlatError::ManySources { at });
    }
    Ok(())
}

/// The flat design of the hierarchy under the top, or its first fault.
pub fn expand_top(
    alloc: Global,
    blocks: &[Block],
    top: Top,
    limits: Limits,
) -> Result<Design, FlatError>
    requires known { All (IsBlock blocks.now) blocks.now }
    requires top { top.block < length blocks.now }
    ensures { MatchResult result (λ d. spec.IsFlat limits blocks.now top d) (λ e. spec.IsFault limits blocks.now top e) }
{
    check(alloc, blocks, top, limits)?;
    let design = expand(alloc, blocks, top.block)?;
    Ok(design)
}
