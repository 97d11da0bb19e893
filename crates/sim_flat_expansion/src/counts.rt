//! Numbers of nets, processes, drivers and instances below a block, found without expanding it.

ghost use Rattle.std.specs.Prelude.{◌≡◌, ◌<◌, IfOk, length};
ghost use Rattle.std.specs.List.{All};
ghost use Rattle.sim_flat_blocks.specs.Blocks.{IsBlock};
ghost use Rattle.sim_flat_expansion.specs.Counts as spec;

use crate::object_nets::net_at;
use sim_flat_blocks::parts::{Block, BlockProcess, Instance};
use sqlite_items::Items;
use std::alloc::{AllocError, Global};

/// The kind that is counted.
#[derive(Clone, Copy)]
pub enum Kind {
    Nets,
    Processes,
    Drivers,
    /// The top is not one of them.
    Instances,
}

/// One more than the largest number that any limits allow.
const ABOVE: usize = 1_000_001;

/// The number of levels of instances below the top.
const LEVELS: usize = 32;

/// The smaller of a number and `ABOVE`.
fn capped(number: usize) -> usize
    ensures { result ≡ spec.capped number }
{
    number.min(ABOVE)
}

/// A sum, at most `ABOVE`.
fn sum(left: usize, right: usize) -> usize
    ensures { result ≡ spec.sum left right }
{
    capped(capped(left) + capped(right))
}

/// The number of drivers of the processes.
#[tactic(auto, unfolding(crate::specs::Counts::targets_counted))]
fn targets(block_processes: &[BlockProcess]) -> usize
    ensures { result ≡ spec.targets_counted block_processes.now 0 }
{
    let mut number = 0;
    for block_process in block_processes {
        number = sum(number, block_process.targets.as_slice().len());
    }
    number
}

/// The number that a block has by itself.
fn own(kind: Kind, block: &Block) -> usize
    ensures { result ≡ spec.own_counted kind block.now }
{
    match kind {
        Kind::Nets => capped(block.signals.as_slice().len()),
        Kind::Processes => capped(block.processes.as_slice().len()),
        Kind::Drivers => targets(block.processes.as_slice()),
        Kind::Instances => 0,
    }
}

/// The number that an instance adds to its block.
fn step(kind: Kind, instance: &Instance) -> usize
    ensures { result ≡ spec.step_counted kind instance.now }
{
    match kind {
        Kind::Nets => capped(instance.links.unlinked()),
        Kind::Processes | Kind::Drivers => 0,
        Kind::Instances => 1,
    }
}

/// A number, plus what each of these instances adds to its block.
#[tactic(auto, unfolding(crate::specs::Counts::steps_counted))]
fn steps(kind: Kind, instances: &[Instance], own: usize) -> usize
    ensures { result ≡ spec.steps_counted kind instances.now own }
{
    let mut number = own;
    for instance in instances {
        number = sum(number, step(kind, instance));
    }
    number
}

/// A number, plus those that the table has for the blocks of these instances.
#[tactic(auto, unfolding(crate::specs::Counts::blocks_counted))]
fn row(table: &[usize], instances: &[Instance], alone: usize) -> usize
    ensures { result ≡ spec.blocks_counted table.now instances.now alone }
{
    let mut number = alone;
    for instance in instances {
        number = sum(number, net_at(table, instance.block));
    }
    number
}

/// The number of each block alone, without any level below it.
#[tactic(auto, unfolding(crate::specs::Counts::first_table))]
fn first(alloc: Global, kind: Kind, blocks: &[Block]) -> Result<Items<usize>, AllocError>
    ensures { IfOk result (λ r. r ≡ spec.first_table kind blocks.now) }
{
    let mut table = Items::new(alloc);
    for block in blocks {
        table.push(own(kind, block))?;
    }
    Ok(table)
}

/// The number of each block, without the blocks of its instances.
#[tactic(auto, unfolding(crate::specs::Counts::alone))]
fn alone(alloc: Global, kind: Kind, blocks: &[Block]) -> Result<Items<usize>, AllocError>
    ensures { IfOk result (λ r. r ≡ spec.alone kind blocks.now) }
{
    let mut numbers = Items::new(alloc);
    for block in blocks {
        numbers.push(steps(kind, block.instances.as_slice(), own(kind, block)))?;
    }
    Ok(numbers)
}

/// The number of each block, with one more level below it.
#[tactic(auto, unfolding(crate::specs::Counts::level_counted))]
fn next(
    alloc: Global,
    table: &[usize],
    alone: &[usize],
    blocks: &[Block],
) -> Result<Items<usize>, AllocError>
    ensures { IfOk result (λ r. r ≡ spec.level_counted table.now alone.now 0 blocks.now) }
{
    let mut rows = Items::new(alloc);
    for (at, block) in blocks.iter().enumerate() {
        rows.push(row(table, block.instances.as_slice(), net_at(alone, at)))?;
    }
    Ok(rows)
}

/// The number of each block with this many levels below it. Once a level changes nothing, further
/// levels do not either.
fn tables(
    alloc: Global,
    kind: Kind,
    blocks: &[Block],
    levels: usize,
) -> Result<Items<usize>, AllocError>
    ensures { IfOk result (λ r. r ≡ spec.table_at kind blocks.now levels) }
{
    let alone = alone(alloc, kind, blocks)?;
    let mut table = first(alloc, kind, blocks)?;
    for _turn in 0..levels {
        let rows = next(alloc, table.as_slice(), alone.as_slice(), blocks)?;
        if rows.as_slice() == table.as_slice() {
            return Ok(table);
        }
        table = rows;
    }
    Ok(table)
}

/// The number that the top adds: each of its ports is a net.
fn top_added(kind: Kind, block: &Block) -> usize
    ensures { result ≡ spec.top_counted kind block.now }
{
    match kind {
        Kind::Nets => capped(block.ports.as_slice().len()),
        Kind::Processes | Kind::Drivers | Kind::Instances => 0,
    }
}

/// The number of nets, processes, drivers or instances of the flat design; 65,537 if it is above
/// that.
pub fn count(alloc: Global, blocks: &[Block], top: usize, kind: Kind) -> Result<usize, AllocError>
    requires known { All (IsBlock blocks.now) blocks.now }
    requires top { top < length blocks.now }
    ensures { IfOk result (λ n. n ≡ spec.capped (spec.number kind blocks.now top)) }
{
    let table = tables(alloc, kind, blocks, LEVELS)?;
    let number = net_at(table.as_slice(), top);
    Ok(sum(number, top_added(kind, &blocks[top])))
}
