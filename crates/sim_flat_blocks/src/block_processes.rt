//! The processes of an architecture (IEEE 1076-2008, 11.3, 11.6).

ghost use Rattle.std.specs.Prelude.{◌≡◌, ◌∷◌, ◌++◌, [], IfOk, OnOk};
ghost use Rattle.std.specs.List.{All};
ghost use Rattle.sim_flat_blocks.specs.Below.{AreBelow};
ghost use Rattle.sim_flat_blocks.specs.BlockProcesses.{FitsBlocks, translated_assignment, translated_process};
ghost use Rattle.sim_flat_blocks.specs.Plans as spec;

use crate::BlockProcess;
use crate::block_process::{translated_assignment, translated_process};
use sim_flat_scope::Scope;
use sim_text_tree::unit::{Concurrent, Process};
use sim_text_tree::waveform::ConcurrentSignalAssignment;
use sqlite_items::Items;
use std::alloc::{AllocError, Global};

/// Adds the process of a concurrent signal assignment.
fn add_assignment(
    alloc: Global,
    region: &Scope<'_>,
    objects: usize,
    assignment: &ConcurrentSignalAssignment,
    found: &mut Vec<BlockProcess>,
) -> Result<(), AllocError>
    requires below { AreBelow objects region.now }
    requires fits { All (FitsBlocks objects) found.old.items }
    ensures value { OnOk result (found.new.items ≡ found.old.items ++ translated_assignment region.now objects assignment.now ∷ []) }
    ensures fits { OnOk result (All (FitsBlocks objects) found.new.items) }
{
    let block_process = translated_assignment(alloc, region, objects, assignment)?;
    found.push(block_process)?;
    Ok(())
}

/// Adds the process of a process statement.
fn add_process(
    alloc: Global,
    region: &Scope<'_>,
    objects: usize,
    process: &Process,
    found: &mut Vec<BlockProcess>,
) -> Result<(), AllocError>
    requires below { AreBelow objects region.now }
    requires fits { All (FitsBlocks objects) found.old.items }
    ensures value { OnOk result (found.new.items ≡ found.old.items ++ translated_process region.now objects process.now ∷ []) }
    ensures fits { OnOk result (All (FitsBlocks objects) found.new.items) }
{
    let block_process = translated_process(alloc, region, objects, process)?;
    found.push(block_process)?;
    Ok(())
}

/// Adds the process of a concurrent statement, if it has one.
fn add_block_process(
    alloc: Global,
    region: &Scope<'_>,
    objects: usize,
    statement: &Concurrent,
    found: &mut Vec<BlockProcess>,
) -> Result<(), AllocError>
    requires below { AreBelow objects region.now }
    requires fits { All (FitsBlocks objects) found.old.items }
    ensures value { OnOk result (found.new.items ≡ found.old.items ++ spec.block_process_in region.now objects statement.now) }
    ensures fits { OnOk result (All (FitsBlocks objects) found.new.items) }
{
    match statement {
        Concurrent::Assignment(assignment) => {
            add_assignment(alloc, region, objects, assignment, found)
        }
        Concurrent::Process(process) => { add_process(alloc, region, objects, process, found) }
        Concurrent::Instance(_) => Ok(()),
    }
}

/// The processes of an architecture with this number of ports and signals, in textual order.
#[tactic(auto, unfolding(crate::specs::Plans::block_processes_of))]
pub fn block_processes(
    alloc: Global,
    region: &Scope<'_>,
    objects: usize,
    statements: &[Concurrent],
) -> Result<Items<BlockProcess>, AllocError>
    requires below { AreBelow objects region.now }
    ensures value { IfOk result (λ r. r ≡ spec.block_processes_of region.now objects statements.now) }
    ensures fits { IfOk result (λ r. All (FitsBlocks objects) r) }
{
    let mut found = Vec::new(alloc);
    for each in statements {
        add_block_process(alloc, region, objects, each, &mut found)?;
    }
    Ok(Items::from_vec(found))
}
