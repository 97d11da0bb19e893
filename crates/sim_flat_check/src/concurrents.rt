//! The faults of the statements of an architecture (IEEE 1076-2008, 11).

ghost use Rattle.std.specs.Prelude.{◌≡◌, OnOk};
ghost use Rattle.sim_flat_scope.specs.Faults.{earliest};
ghost use Rattle.sim_flat_scope.specs.Scopes.{means};
ghost use Rattle.sim_flat_check.specs.Concurrents as spec;

use crate::{concurrent_assignment, sensitivity, sequence};
use sim_flat_instances::{Component, Library, check_instance};
use sim_flat_scope::check::check_process;
use sim_flat_scope::{Fault, Scope, region};
use sim_text_tree::unit::{Concurrent, Process};
use std::alloc::{AllocError, Global};

/// Records the faults of the sensitivity list and of the statements of a process.
#[tactic(auto, using(sim_flat_scope::proofs::Faults::of_both))]
fn check_execution(
    inner: &Scope<'_>,
    outer: &Scope<'_>,
    process: &Process,
    first: &mut Option<Fault>,
)
    ensures { first.new ≡ earliest first.old (spec.execution_faults (means inner.now outer.now) process.now) }
{
    sensitivity(inner, outer, &process.sensitivity, first);
    sequence(inner, outer, process.statements.as_slice(), first);
}

/// Records the faults of a process in the region of its architecture.
#[tactic(auto, using(sim_flat_scope::proofs::Faults::of_both), unfolding(crate::specs::Concurrents::process_statement_faults))]
fn check_process_statement(
    alloc: Global,
    region: &Scope<'_>,
    process: &Process,
    first: &mut Option<Fault>,
) -> Result<(), AllocError>
    ensures { OnOk result (first.new ≡ earliest first.old (spec.process_statement_faults region.now process.now)) }
{
    let own = region::process(alloc, region, process)?;
    check_process(alloc, &own, region, process, first)?;
    check_execution(&own, region, process, first);
    Ok(())
}

/// Records the faults of a statement in the region of an architecture with these components.
#[tactic(auto, unfolding(crate::specs::Concurrents::statement_faults))]
fn check_statement(
    alloc: Global,
    library: &Library<'_>,
    region: &Scope<'_>,
    components: &[Component],
    statement: &Concurrent,
    first: &mut Option<Fault>,
) -> Result<(), AllocError>
    ensures { OnOk result (first.new ≡ earliest first.old (spec.statement_faults library.now region.now components.now statement.now)) }
{
    match statement {
        Concurrent::Assignment(assignment) => {
            let nothing = Scope::new(alloc);
            concurrent_assignment(region, &nothing, assignment, first);
            Ok(())
        }
        Concurrent::Process(process) => { check_process_statement(alloc, region, process, first) }
        Concurrent::Instance(instance) => {
            check_instance(alloc, library, region, components, instance, first)
        }
    }
}

/// Records the faults of the statements (11) of an architecture with these components.
#[tactic(auto, unfolding(crate::specs::Concurrents::statements_faults, sim_flat_scope::specs::Faults::earliest))]
pub fn check_statements(
    alloc: Global,
    library: &Library<'_>,
    region: &Scope<'_>,
    components: &[Component],
    statements: &[Concurrent],
    first: &mut Option<Fault>,
) -> Result<(), AllocError>
    ensures { OnOk result (first.new ≡ earliest first.old (spec.statements_faults library.now region.now components.now statements.now)) }
{
    for statement in statements {
        check_statement(alloc, library, region, components, statement, first)?;
    }
    Ok(())
}
