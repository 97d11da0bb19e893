//! One worker.

ghost use Rattle.std.specs.Prelude.{◌≡◌};
ghost use Rattle.sim_run_claims.specs.Seats.{IsOf, balance};
ghost use Rattle.sim_run_workers.specs.Workers.{meaning_of};

use crate::gate::Gate;
use crate::round::Round;
use sim_exec::{Done, Job};
use sim_run_claims::ClaimSeat;
use sim_store::{StoreError, WaveStore};
use std::alloc::Global;
use std::sync::{Mutex, Wait};

/// Why workers gave up.
#[derive(Clone, Copy)]
pub enum Fault {
    /// The store under the lock is not the one from which a job was taken.
    Stranger,
    /// Memory ran out.
    Memory,
}

/// The meaning of a store's refusal to a worker. If other threads have executed the process, or
/// carried on the run, there is nothing left to do.
fn fault_of(refusal: StoreError) -> Result<(), Fault>
    ensures { result ≡ meaning_of refusal }
{
    match refusal {
        StoreError::Foreign => Err(Fault::Stranger),
        StoreError::Memory => Err(Fault::Memory),
        _ => Ok(()),
    }
}

/// Executes a job, and takes the lock to give back its result.
fn carry_out<R: Wait>(
    rt: &R,
    alloc: Global,
    store: &Mutex<WaveStore>,
    job: Job,
) -> Result<(), Fault> {
    let Ok(done) = Done::run(alloc, job) else {
        return Err(Fault::Memory);
    };
    match store.lock(rt).deposit(done) {
        Ok(()) => Ok(()),
        Err((refusal, _done)) => fault_of(refusal),
    }
}

/// Executes a process, if it is due and has not been executed since the last cycle. The lock is
/// taken for its job and for its result; it is free during the report to the gate and the
/// execution.
fn execute<R: Wait, G: Gate>(
    rt: &R,
    alloc: Global,
    store: &Mutex<WaveStore>,
    gate: &G,
    process: usize,
) -> Result<(), Fault> {
    let job = store.lock(rt).job(alloc, process);
    match job {
        Ok(job) => {
            gate.before(process);
            carry_out(rt, alloc, store, job)
        }
        Err(refusal) => fault_of(refusal),
    }
}

/// Draws processes and executes them, until none is left.
pub fn work<R: Wait, G: Gate>(
    rt: &R,
    alloc: Global,
    store: &Mutex<WaveStore>,
    gate: &G,
    round: &Round,
    seat: &mut ClaimSeat,
) -> Result<(), Fault>
    requires { IsOf round.now.claims seat.old }
    ensures of { IsOf round.now.claims seat.new }
    ensures balance { balance seat.new ≡ balance seat.old }
{
    for _ in rt.forever() {
        let Some(process) = round.draw(seat) else {
            break;
        };
        execute(rt, alloc, store, gate, process)?;
    }
    Ok(())
}
