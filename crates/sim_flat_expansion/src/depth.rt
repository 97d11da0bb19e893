//! How deeply instances are nested, found level by level without expanding them.

ghost use Rattle.std.specs.Prelude.{◌≡◌, ◌<◌, IfOk, length, slice_index_or};
ghost use Rattle.std.specs.List.{All};
ghost use Rattle.sim_flat_blocks.specs.Blocks.{IsBlock, no_block};
ghost use Rattle.sim_flat_expansion.specs.Depth as spec;

use sim_flat_blocks::parts::{Block, Instance};
use sqlite_items::Items;
use std::alloc::{AllocError, Global};

/// One more level than allowed below the top.
const TOO_DEEP: usize = 33;

/// Whether the block at a position has a chain; past the last block, none does.
fn chain_at(table: &[bool], at: usize) -> bool
    ensures { result ≡ spec.chain_at table.now at }
{
    match table.get(at) {
        Some(found) => *found,
        None => false,
    }
}

/// Whether the block of one of these instances has a chain.
#[tactic(auto, unfolding(crate::specs::Depth::any_at))]
fn any(table: &[bool], instances: &[Instance]) -> bool
    ensures { result ≡ spec.any_at table.now instances.now }
{
    for instance in instances {
        if chain_at(table, instance.block) {
            return true;
        }
    }
    false
}

/// Each block has a chain of zero instances.
#[tactic(auto, unfolding(crate::specs::Depth::first_table))]
fn first(alloc: Global, blocks: &[Block]) -> Result<Items<bool>, AllocError>
    ensures { IfOk result (λ r. r ≡ spec.first_table blocks.now) }
{
    let mut table = Items::new(alloc);
    for _block in blocks {
        table.push(true)?;
    }
    Ok(table)
}

/// Whether each block has a chain of one more instance.
#[tactic(auto, unfolding(crate::specs::Depth::next_table))]
fn next(alloc: Global, table: &[bool], blocks: &[Block]) -> Result<Items<bool>, AllocError>
    ensures { IfOk result (λ r. r ≡ spec.next_table table.now blocks.now) }
{
    let mut rows = Items::new(alloc);
    for block in blocks {
        rows.push(any(table, block.instances.as_slice()))?;
    }
    Ok(rows)
}

/// Whether each block has a chain of this many instances below it. Once a level changes nothing,
/// further levels do not either.
fn tables(alloc: Global, blocks: &[Block], levels: usize) -> Result<Items<bool>, AllocError>
    ensures { IfOk result (λ r. r ≡ spec.table_at blocks.now levels) }
{
    let mut table = first(alloc, blocks)?;
    for _turn in 0..levels {
        let rows = next(alloc, table.as_slice(), blocks)?;
        if rows.as_slice() == table.as_slice() {
            return Ok(table);
        }
        table = rows;
    }
    Ok(table)
}

/// Whether there is a chain of 33 instances below the top, each in the block of the previous one.
pub fn is_too_deep(alloc: Global, blocks: &[Block], top: usize) -> Result<bool, AllocError>
    requires known { All (IsBlock blocks.now) blocks.now }
    requires top { top < length blocks.now }
    ensures { IfOk result (λ r. r ≡ spec.has_chain blocks.now 33 (slice_index_or blocks.now top no_block)) }
{
    let table = tables(alloc, blocks, TOO_DEEP)?;
    Ok(chain_at(table.as_slice(), top))
}
