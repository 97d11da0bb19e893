//! The workers of one cycle.

ghost use Rattle.std.specs.Prelude.{◌≡◌, ◌≤◌, ◌↔◌, ◌⊎◌, Ok, Err, vec_len};
ghost use Rattle.std.specs.Thread.{IsSync};
ghost use Rattle.sim_run_claims.specs.Seats.{IsOf, balance};
ghost use Rattle.sim_flat_design.specs.Designs.{most};
ghost use Rattle.sim_run_workers.specs.declared.worker.Fault.TheVariants as fault;

use crate::gate::Gate;
use crate::round::Round;
use crate::worker::{Fault, work};
use sim_run_claims::ClaimSeat;
use sim_store::WaveStore;
use std::alloc::Global;
use std::sync::{Mutex, Wait};
use std::thread::{Threads, join};

/// The result of two workers. `Stranger` takes precedence over `Memory`.
fn both(one: Result<(), Fault>, other: Result<(), Fault>) -> Result<(), Fault>
    ensures stranger { (result ≡ Err fault.Stranger) ↔ ((one ≡ Err fault.Stranger) ⊎ (other ≡ Err fault.Stranger)) }
    ensures executed { (result ≡ Ok tt) ↔ ((one ≡ Ok tt) × (other ≡ Ok tt)) }
{
    match (one, other) {
        (Ok(()), fault) => fault,
        (Err(Fault::Stranger), _) | (_, Err(Fault::Stranger)) => Err(Fault::Stranger),
        _ => Err(Fault::Memory),
    }
}

/// The work of this many workers, each with a seat that is split off; all seats come back as one.
/// Threads are forked by halves.
fn share<R: Threads + Wait + Sync, G: Gate + Sync>(
    rt: &R,
    alloc: Global,
    store: &Mutex<WaveStore>,
    gate: &G,
    round: &Round,
    mut seat: ClaimSeat,
    workers: usize,
) -> (ClaimSeat, Result<(), Fault>)
    requires { IsOf round.now.claims seat }
    ensures of { IsOf round.now.claims result.0 }
    ensures balance { balance result.0 ≡ balance seat }
{
    if workers <= 1 {
        let done = work(rt, alloc, store, gate, round, &mut seat);
        return (seat, done);
    }
    let Ok(other) = round.split(alloc, &mut seat) else {
        return (seat, Err(Fault::Memory));
    };
    let half = workers / 2;
    let rest = workers - half;
    let ((mut seat, one), (joining, another)) = join(
        rt,
        move || -> (ClaimSeat, Result<(), Fault>)
            requires { IsSync R.row × IsSync G.row × IsOf round.now.claims seat }
            ensures { IsOf round.entry.now.claims result.0 × (balance result.0 ≡ balance seat) }
        { share(rt, alloc, store, gate, round, seat, rest) },
        move || -> (ClaimSeat, Result<(), Fault>)
            requires { IsSync R.row × IsSync G.row × IsOf round.now.claims other }
            ensures { IsOf round.entry.now.claims result.0 × (balance result.0 ≡ balance other) }
        { share(rt, alloc, store, gate, round, other, half) },
    );
    round.join(&mut seat, joining);
    (seat, both(one, another))
}

/// Executes these processes, each drawn by one of the workers. There are no more threads than
/// processes.
pub fn execute_all<R: Threads + Wait + Sync, G: Gate + Sync>(
    rt: &R,
    alloc: Global,
    store: &Mutex<WaveStore>,
    gate: &G,
    due: Vec<usize>,
    workers: usize,
) -> Result<(), Fault>
    requires { vec_len due ≤ most }
{
    let workers = workers.min(due.len());
    let Ok((round, seat)) = Round::new(alloc, due) else {
        return Err(Fault::Memory);
    };
    let (seat, executed) = share(rt, alloc, store, gate, &round, seat, workers);
    let _drawn = round.close(seat);
    executed
}
