//! The graph of blocks: the blocks of the instances in each block, and the reverse.

ghost use Rattle.std.specs.Prelude.{◌≡◌, ◌<◌, ◌++◌, ℕ, IfOk, OnOk, [], length};
ghost use Rattle.std.specs.List.{All};
ghost use Rattle.sim_flat_graph.specs.Graph as spec;

use sim_flat_blocks::parts::{Block, Instance};
use sqlite_items::Items;
use std::alloc::{AllocError, Global};

/// The blocks of instances.
#[tactic(auto, unfolding(crate::specs::Graph::blocks_of))]
fn blocks_of(alloc: Global, instances: &[Instance]) -> Result<Items<usize>, AllocError>
    ensures { IfOk result (λ r. r ≡ spec.blocks_of instances.now) }
{
    let mut found = Items::new(alloc);
    for instance in instances {
        found.push(instance.block)?;
    }
    Ok(found)
}

/// For each block, the blocks of its instances.
#[tactic(auto, unfolding(crate::specs::Graph::graph_of))]
pub fn graph_of(alloc: Global, blocks: &[Block]) -> Result<Items<Items<usize>>, AllocError>
    ensures { IfOk result (λ r. r ≡ spec.graph_of blocks.now) }
{
    let mut rows = Items::new(alloc);
    for block in blocks {
        rows.push(blocks_of(alloc, block.instances.as_slice())?)?;
    }
    Ok(rows)
}

/// An empty row for each block.
fn empty_rows(alloc: Global, count: usize) -> Result<Vec<Items<usize>>, AllocError>
    ensures length { IfOk result (λ r. length r.items ≡ count) }
    ensures rows { IfOk result (λ r. (n : ℕ) → spec.successors r.items n ≡ []) }
{
    let mut rows = Vec::new(alloc);
    for _row in 0..count {
        rows.push(Items::new(alloc))?;
    }
    Ok(rows)
}

/// Records that a block leads to these.
#[tactic(auto, unfolding(crate::specs::Graph::each_time))]
fn note_leads(
    rows: &mut Vec<Items<usize>>,
    from: usize,
    targets: &[usize],
) -> Result<(), AllocError>
    requires { All (λ n. n < length rows.old.items) targets.now }
    ensures length { length rows.new.items ≡ length rows.old.items }
    ensures rows { OnOk result ((n : ℕ) → spec.successors rows.new.items n ≡ spec.successors rows.old.items n ++ spec.each_time from n targets.now) }
{
    for target in targets {
        rows[*target].push(from)?;
    }
    Ok(())
}

/// For each block, the blocks that lead to it.
#[tactic(auto, unfolding(crate::specs::Graph::leading))]
pub fn reversed(alloc: Global, graph: &[Items<usize>]) -> Result<Vec<Items<usize>>, AllocError>
    requires { spec.IsWhole graph.now }
    ensures length { IfOk result (λ r. length r.items ≡ length graph.now) }
    ensures rows { IfOk result (λ r. (n : ℕ) → spec.successors r.items n ≡ spec.leading n 0 graph.now) }
    ensures whole { IfOk result (λ r. spec.IsWhole r.items) }
{
    let mut rows = empty_rows(alloc, graph.len())?;
    for (from, targets) in graph.iter().enumerate() {
        note_leads(&mut rows, from, targets.as_slice())?;
    }
    Ok(rows)
}
