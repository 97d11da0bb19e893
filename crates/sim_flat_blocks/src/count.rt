//! The number of ports and signals of an architecture (IEEE 1076-2008, 3.3, 6.4.2.3, 6.5.2).

ghost use Rattle.std.specs.Prelude.{◌≡◌, ◌+◌, IfOk, List, length};
ghost use Rattle.sim_text_tree.specs.declared.unit.Concurrent.{Concurrent};
ghost use Rattle.sim_flat_scope.specs.Regions.{architecture_region};
ghost use Rattle.sim_flat_blocks.specs.Below as spec;
ghost use Rattle.sim_flat_blocks.specs.Below.{AreBelow};

use sim_flat_scope::EntityPorts;
use sim_text_tree::declaration::Declaration;
use std::alloc::AllocError;

/// The sum of two counts, which cannot overflow: each name takes memory.
fn more(count: usize, names: usize) -> Result<usize, AllocError>
    ensures { IfOk result (λ n. n ≡ count + names) }
{
    count.checked_add(names).ok_or(AllocError)
}

/// The number of signals that a declaration declares.
fn signals_declared(declaration: &Declaration) -> usize
    ensures { result ≡ length (spec.signals_declared declaration.now) }
{
    match declaration {
        Declaration::Signal(signals) => signals.names.as_slice().len(),
        Declaration::Component(_) => 0,
    }
}

/// The number of signals that declarations declare.
#[tactic(auto, unfolding(crate::specs::Below::signal_names))]
fn signal_count(declarations: &[Declaration]) -> Result<usize, AllocError>
    ensures { IfOk result (λ n. n ≡ length (spec.signal_names declarations.now)) }
{
    let mut count = 0;
    for declaration in declarations {
        count = more(count, signals_declared(declaration))?;
    }
    Ok(count)
}

/// The number of ports and signals of an architecture. Its names refer to no others.
#[tactic(auto, unfolding(crate::specs::Below::object_count))]
pub fn object_count(
    ports: &EntityPorts<'_>,
    declarations: &[Declaration],
) -> Result<usize, AllocError>
    ensures count { IfOk result (λ n. n ≡ spec.object_count ports.now declarations.now) }
    ensures below { (cs : List Concurrent) → IfOk result (λ n. AreBelow n (architecture_region ports.now declarations.now cs)) }
{
    let signals = signal_count(declarations)?;
    let count = more(ports.count(), signals)?;
    Ok(count)
}
