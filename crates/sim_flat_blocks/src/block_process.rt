//! The processes of an architecture, each translated once for all instances (IEEE 1076-2008, 11.3,
//! 11.6, 14.7.2).

ghost use Rattle.std.specs.Prelude.{◌≡◌, ◌∷◌, ◌++◌, [], None, true, IfOk, OnOk, length, map};
ghost use Rattle.std.specs.List.{All};
ghost use Rattle.sim_flat_scope.specs.Scopes.{means};
ghost use Rattle.sim_flat_design.specs.Bodies.{objects_of, statement_fits};
ghost use Rattle.sim_flat_design.specs.Processes.{rising};
ghost use Rattle.sim_flat_bodies.specs.Statements.{concurrent_of, gathered, sequential_of, target_of, targets_of};
ghost use Rattle.sim_flat_bodies.specs.Within.{AreWithin};
ghost use Rattle.sim_flat_blocks.specs.Below.{AreBelow};
ghost use Rattle.sim_flat_blocks.specs.BlockProcesses as spec;
ghost use Rattle.sim_flat_blocks.specs.BlockProcesses.{AreListed, AreThere, FitsBlocks};

use crate::BlockProcess;
use crate::reads::reads;
use crate::variables::first_values;
use sim_flat_bodies::assigned::{add_sequence, add_target};
use sim_flat_bodies::statements::{concurrent, sequence};
use sim_flat_bodies::{Names, Targets};
use sim_flat_design::statement::Statement;
use sim_flat_design::{Body, Held};
use sim_flat_scope::region;
use sim_flat_scope::scope::{Meaning, Scope};
use sim_text_tree::list::one;
use sim_text_tree::name::Name;
use sim_text_tree::unit::{Process, Sensitivity};
use sim_text_tree::waveform::ConcurrentSignalAssignment;
use sqlite_items::Items;
use std::alloc::{AllocError, Global};

/// Adds the signal or port of a name, if it is one.
#[tactic(auto, unfolding(sim_flat_bodies::specs::Statements::target_of))]
fn add_object(meaning: Option<Meaning>, found: &mut Vec<usize>) -> Result<(), AllocError>
    ensures { OnOk result (found.new.items ≡ found.old.items ++ target_of meaning) }
{
    match meaning {
        Some(Meaning::Port { object, .. }) => {
            found.push(object)?;
            Ok(())
        }
        Some(Meaning::Signal { object, .. }) => {
            found.push(object)?;
            Ok(())
        }
        _ => Ok(()),
    }
}

/// The signals and ports of these names, in order.
#[tactic(auto, unfolding(crate::specs::BlockProcesses::named_objects))]
fn named_objects(
    alloc: Global,
    names: &Names<'_, '_>,
    list: &[Name],
) -> Result<Items<usize>, AllocError>
    ensures { IfOk result (λ r. r ≡ spec.named_objects (means names.now.process.now names.now.architecture.now) list.now) }
{
    let mut found = Vec::with_capacity(alloc, list.len())?;
    for name in list {
        add_object(names.look_up(name.text()), &mut found)?;
    }
    Ok(Items::from_vec(found))
}

/// The signals and ports of a sensitivity list; `None` for `all`.
#[tactic(auto, unfolding(crate::specs::BlockProcesses::listed))]
fn listed(
    alloc: Global,
    names: &Names<'_, '_>,
    sensitivity: &Sensitivity,
) -> Result<Option<Items<usize>>, AllocError>
    ensures { IfOk result (λ r. r ≡ spec.listed (means names.now.process.now names.now.architecture.now) sensitivity.now) }
{
    match sensitivity {
        Sensitivity::All => Ok(None),
        Sensitivity::Names(list) => {
            let places = named_objects(alloc, names, list.as_slice())?;
            Ok(Some(places))
        }
    }
}

/// The sensitivity of a process: the listed signals and ports, or all that it reads.
fn sensitivity_of(
    alloc: Global,
    listed: Option<Items<usize>>,
    reads: &[usize],
) -> Result<Items<usize>, AllocError>
    ensures { IfOk result (λ r. r ≡ spec.sensitivity_of listed reads.now) }
{
    match listed {
        Some(places) => Ok(places),
        None => { Items::from_slice(alloc, reads) }
    }
}

/// The sensitivity of a process, and the signals and ports that it reads.
#[derive(Drop)]
struct SensitivityAndReads {
    sensitivity: Items<usize>,
    reads: Items<usize>,
}

/// The sensitivity of a process with these statements, and the signals and ports that it reads.
fn sensitivity_and_reads(
    alloc: Global,
    listed: Option<Items<usize>>,
    statements: &[Statement],
) -> Result<SensitivityAndReads, AllocError>
    ensures sensitivity { IfOk result (λ w. w.sensitivity ≡ spec.sensitivity_of listed (rising (objects_of statements.now))) }
    ensures reads { IfOk result (λ w. w.reads ≡ rising (objects_of statements.now)) }
{
    let reads = reads(alloc, statements)?;
    let sensitivity = sensitivity_of(alloc, listed, reads.as_slice())?;
    Ok(SensitivityAndReads { sensitivity, reads })
}

/// A process from its parts.
fn block_process(
    alloc: Global,
    objects: usize,
    postponed: bool,
    listed: Option<Items<usize>>,
    targets: &Targets,
    variables: Items<Held>,
    statements: Items<Statement>,
) -> Result<BlockProcess, AllocError>
    requires fits { All (λ x. statement_fits objects (length targets.now) variables x ≡ true) statements }
    requires targets { AreThere objects targets.now }
    requires listed { AreListed objects listed }
    ensures value { IfOk result (λ t. t ≡ spec.block_process objects postponed listed targets.now variables statements) }
    ensures blocks { IfOk result (λ t. FitsBlocks objects t) }
{
    let sensitivity_and_reads = sensitivity_and_reads(alloc, listed, statements.as_slice())?;
    let drivers = targets.as_slice().len();
    let body = Body::new(alloc, objects, drivers, variables, statements)?;
    let targets = Items::from_slice(alloc, targets.as_slice())?;
    Ok(BlockProcess {
        sensitivity: sensitivity_and_reads.sensitivity,
        reads: sensitivity_and_reads.reads,
        targets,
        postponed,
        body,
    })
}

/// The translated parts of a process.
#[derive(Drop)]
struct Parts {
    /// The signals and ports of its sensitivity list, unless it is `all`.
    listed: Option<Items<usize>>,
    targets: Targets,
    statements: Items<Statement>,
}

/// The translated parts of a process statement.
#[tactic(auto, unfolding(sim_flat_bodies::specs::Statements::targets_of))]
fn process_parts(
    alloc: Global,
    names: &Names<'_, '_>,
    process: &Process,
) -> Result<Parts, AllocError>
    requires within { AreWithin (means names.now.process.now names.now.architecture.now) names.now.objects names.now.variables.now }
    ensures listed { IfOk result (λ p. p.listed ≡ spec.listed (means names.now.process.now names.now.architecture.now) process.now.sensitivity) }
    ensures targets { IfOk result (λ p. p.targets ≡ targets_of (means names.now.process.now names.now.architecture.now) process.now.statements) }
    ensures statements { IfOk result (λ p. p.statements ≡
        map (sequential_of (means names.now.process.now names.now.architecture.now) p.targets) process.now.statements) }
    ensures fits { IfOk result (λ p. All (λ x. statement_fits names.now.objects (length p.targets) names.now.variables.now x ≡ true) p.statements) }
{
    let mut targets = Targets::new(alloc);
    add_sequence(names, process.statements.as_slice(), &mut targets)?;
    let listed = listed(alloc, names, &process.sensitivity)?;
    let statements = sequence(alloc, names, &targets, process.statements.as_slice())?;
    Ok(Parts {
        listed,
        targets,
        statements,
    })
}

/// The translated parts of a concurrent signal assignment.
fn assignment_parts(
    alloc: Global,
    names: &Names<'_, '_>,
    assignment: &ConcurrentSignalAssignment,
) -> Result<Parts, AllocError>
    requires within { AreWithin (means names.now.process.now names.now.architecture.now) names.now.objects names.now.variables.now }
    ensures listed { IfOk result (λ p. p.listed ≡ None) }
    ensures targets { IfOk result (λ p. p.targets ≡
        gathered [] (target_of (means names.now.process.now names.now.architecture.now assignment.now.target.text))) }
    ensures statements { IfOk result (λ p. p.statements ≡
        concurrent_of (means names.now.process.now names.now.architecture.now) p.targets assignment.now ∷ []) }
    ensures fits { IfOk result (λ p. All (λ x. statement_fits names.now.objects (length p.targets) names.now.variables.now x ≡ true) p.statements) }
{
    let mut targets = Targets::new(alloc);
    add_target(names.look_up(assignment.target.text()), &mut targets)?;
    let statement = concurrent(alloc, names, &targets, assignment)?;
    let statements = one(alloc, statement)?;
    Ok(Parts {
        listed: None,
        targets,
        statements: Items::from_vec(statements),
    })
}

/// A process statement of an architecture with this number of ports and signals.
#[tactic(auto, unfolding(crate::specs::BlockProcesses::translated_process))]
pub fn translated_process(
    alloc: Global,
    architecture: &Scope<'_>,
    objects: usize,
    process: &Process,
) -> Result<BlockProcess, AllocError>
    requires { AreBelow objects architecture.now }
    ensures value { IfOk result (λ t. t ≡ spec.translated_process architecture.now objects process.now) }
    ensures blocks { IfOk result (λ t. FitsBlocks objects t) }
{
    let region = region::process(alloc, architecture, process)?;
    let variables = first_values(alloc, architecture, process)?;
    let names = Names {
        process: &region,
        architecture,
        objects,
        variables: variables.as_slice(),
    };
    let made = process_parts(alloc, &names, process);
    let Names {
        process: _region,
        architecture: _outer,
        objects: _count,
        variables: _values,
    } = names;
    let Parts {
        listed,
        targets,
        statements,
    } = made?;
    block_process(
        alloc,
        objects,
        process.postponed,
        listed,
        &targets,
        variables,
        statements,
    )
}

/// A concurrent signal assignment of an architecture with this number of ports and signals. It is
/// sensitive to all that it reads.
#[tactic(auto, unfolding(crate::specs::BlockProcesses::translated_assignment))]
pub fn translated_assignment(
    alloc: Global,
    architecture: &Scope<'_>,
    objects: usize,
    assignment: &ConcurrentSignalAssignment,
) -> Result<BlockProcess, AllocError>
    requires { AreBelow objects architecture.now }
    ensures value { IfOk result (λ t. t ≡ spec.translated_assignment architecture.now objects assignment.now) }
    ensures blocks { IfOk result (λ t. FitsBlocks objects t) }
{
    let region = Scope::new(alloc);
    let names = Names {
        process: &region,
        architecture,
        objects,
        variables: &[],
    };
    let made = assignment_parts(alloc, &names, assignment);
    let Names {
        process: _region,
        architecture: _outer,
        objects: _count,
        variables: _values,
    } = names;
    let Parts {
        listed,
        targets,
        statements,
    } = made?;
    block_process(
        alloc,
        objects,
        assignment.postponed,
        listed,
        &targets,
        Items::new(alloc),
        statements,
    )
}
