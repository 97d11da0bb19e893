//! Whether a hierarchy is within the limits of a design, found without expanding it.

ghost use Rattle.std.specs.Prelude.{◌≡◌, ◌<◌, ◌≤◌, true, IfOk, Decides, length};
ghost use Rattle.std.specs.List.{All};
ghost use Rattle.sim_flat_design.specs.Designs.{most};
ghost use Rattle.sim_flat_blocks.specs.Blocks.{IsBlock, IsWithinLimits};
ghost use Rattle.sim_flat_expansion.specs.Limits as spec;
ghost use Rattle.sim_flat_expansion.specs.Counts.{number};
ghost use Rattle.sim_flat_expansion.specs.Flat.{flat};

use crate::counts::{Kind, count};
use crate::depth::is_too_deep;
use sim_flat_blocks::parts::Block;
use sim_flat_design::Limits;
use std::alloc::{AllocError, Global};

/// Whether the number of a kind is within this limit.
#[tactic(auto, using(crate::proofs::Within::is_within))]
fn is_within(
    alloc: Global,
    blocks: &[Block],
    top: usize,
    kind: Kind,
    limit: usize,
) -> Result<bool, AllocError>
    requires known { All (IsBlock blocks.now) blocks.now }
    requires top { top < length blocks.now }
    requires limit { limit ≤ most }
    ensures { IfOk result (λ b. Decides b (number kind blocks.now top ≤ limit)) }
{
    let number = count(alloc, blocks, top, kind)?;
    let found = number <= limit;
    Ok(found)
}

/// Whether the numbers of nets, processes and drivers of the flat design are at most this.
fn design_fits(
    alloc: Global,
    blocks: &[Block],
    top: usize,
    objects: usize,
) -> Result<bool, AllocError>
    requires known { All (IsBlock blocks.now) blocks.now }
    requires top { top < length blocks.now }
    requires objects { objects ≤ most }
    ensures { IfOk result (λ b. Decides b (spec.HasAtMost objects (flat blocks.now top))) }
{
    let nets = is_within(alloc, blocks, top, Kind::Nets, objects)?;
    let processes = is_within(alloc, blocks, top, Kind::Processes, objects)?;
    let drivers = is_within(alloc, blocks, top, Kind::Drivers, objects)?;
    Ok(all(nets, processes, drivers))
}

/// Whether the flat design, the number of instances and their depth are within the limits.
pub fn fits(alloc: Global, blocks: &[Block], top: usize, limits: Limits) -> Result<bool, AllocError>
    requires known { All (IsBlock blocks.now) blocks.now }
    requires top { top < length blocks.now }
    ensures fits { IfOk result (λ b. Decides b (spec.Fits limits blocks.now top)) }
    ensures within { IfOk result (λ b. b ≡ true → IsWithinLimits (flat blocks.now top)) }
{
    let deep = is_too_deep(alloc, blocks, top)?;
    let instances = is_within(alloc, blocks, top, Kind::Instances, limits.instances())?;
    let design = design_fits(alloc, blocks, top, limits.objects())?;
    Ok(all(!deep, instances, design))
}

/// Conjunction that evaluates all of its parts.
fn all(first: bool, second: bool, third: bool) -> bool
    ensures { result ≡ spec.all first second third }
{
    first && second && third
}
