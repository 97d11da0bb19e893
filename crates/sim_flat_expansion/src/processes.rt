//! The processes of an instance and their drivers.

ghost use Rattle.std.specs.Prelude.{◌≡◌, IfOk, OnOk, length};
ghost use Rattle.std.specs.List.{All};
ghost use Rattle.sim_flat_design.specs.Bodies.{objects_of};
ghost use Rattle.sim_flat_design.specs.Processes.{nets_of, rising};
ghost use Rattle.sim_flat_blocks.specs.Blocks.{IsBlockProcess, default_at, process_of, size};
ghost use Rattle.sim_flat_expansion.specs.Expanding as spec;

use crate::flat_sources::add;
use crate::object_nets::{net_at, nets_of};
use sim_flat_blocks::parts::{Block, BlockProcess};
use sim_flat_design::process::ObjectNets;
use sim_flat_design::{DriverOf, Process, Source};
use sim_logic::Logic;
use sqlite_items::Items;
use std::alloc::{AllocError, Global};

/// The number of nets so far, the processes, and their drivers.
#[derive(Drop)]
pub struct PartialDesign {
    pub nets: usize,
    pub processes: Items<Process>,
    pub drivers: Items<DriverOf>,
}

/// The default value of the port or signal at this position.
fn default(block: &Block, at: usize) -> Logic
    ensures { result ≡ default_at block.now at }
{
    let ports = block.ports.as_slice();
    if let Some(port) = ports.get(at) {
        return port.object.default;
    }
    match block.signals.as_slice().get(at - ports.len()) {
        Some(signal) => signal.default,
        None => Logic::U,
    }
}

/// The drivers of a process, each also added as a flat source of its target.
#[tactic(auto, unfolding(crate::specs::Expanding::targets_expanded))]
fn targets(
    object_nets: &[usize],
    block: &Block,
    process: usize,
    targets: &[usize],
    flat_sources: &mut [Items<Source>],
    drivers: &mut Items<DriverOf>,
) -> Result<(), AllocError>
    ensures { OnOk result ((flat_sources.new, drivers.new) ≡ spec.targets_expanded object_nets.now block.now process targets.now flat_sources.old drivers.old) }
{
    for target in targets {
        let number = drivers.len();
        let driver = DriverOf {
            process,
            net: net_at(object_nets, *target),
            first: default(block, *target),
        };
        drivers.push(driver)?;
        add(flat_sources, *target, Source::Driver(number))?;
    }
    Ok(())
}

/// The nets of a process: those that it is sensitive to, and those that it reads.
fn nets_seen(
    alloc: Global,
    object_nets: &[usize],
    block_process: &BlockProcess,
) -> Result<(Items<usize>, Items<usize>), AllocError>
    ensures sensitivity { IfOk result (λ r. r.0 ≡ rising (nets_of object_nets.now block_process.now.sensitivity)) }
    ensures reads { IfOk result (λ r. r.1 ≡ rising (nets_of object_nets.now block_process.now.reads)) }
{
    let sensitivity = nets_of(alloc, object_nets, block_process.sensitivity.as_slice())?;
    let reads = nets_of(alloc, object_nets, block_process.reads.as_slice())?;
    Ok((sensitivity, reads))
}

/// A process of an instance.
fn process(
    alloc: Global,
    object_nets: &ObjectNets,
    first_driver: usize,
    block_process: &BlockProcess,
) -> Result<Process, AllocError>
    requires placed { length object_nets.now ≡ block_process.now.body.objects }
    requires reads { block_process.now.reads ≡ rising (objects_of block_process.now.body.statements) }
    ensures { IfOk result (λ p. p ≡ process_of object_nets.now first_driver block_process.now) }
{
    let (sensitivity, reads) = nets_seen(alloc, object_nets.as_slice(), block_process)?;
    Process::new(
        alloc,
        sensitivity,
        reads,
        object_nets.try_copy()?,
        first_driver,
        block_process.postponed,
        block_process.body.try_copy()?,
    )
}

/// The processes of an instance and their drivers.
#[tactic(auto, unfolding(crate::specs::Expanding::processes_expanded))]
pub fn processes(
    alloc: Global,
    object_nets: &ObjectNets,
    block: &Block,
    block_processes: &[BlockProcess],
    flat_sources: &mut [Items<Source>],
    flat: &mut PartialDesign,
) -> Result<(), AllocError>
    requires placed { length object_nets.now ≡ size block.now }
    requires block_processes { All (IsBlockProcess block.now) block_processes.now }
    ensures { OnOk result ((flat_sources.new, flat.new) ≡ spec.processes_expanded object_nets.now block.now block_processes.now flat_sources.old flat.old) }
{
    for block_process in block_processes {
        let number = flat.processes.len();
        let first = flat.drivers.len();
        targets(
            object_nets.as_slice(),
            block,
            number,
            block_process.targets.as_slice(),
            flat_sources,
            &mut flat.drivers,
        )?;
        flat.processes
            .push(process(alloc, object_nets, first, block_process)?)?;
    }
    Ok(())
}
