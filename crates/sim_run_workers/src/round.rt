//! The processes of one cycle, to be drawn.

ghost use Rattle.std.specs.Prelude.{◌≡◌, vec_len};
ghost use Rattle.sim_run_claims.specs.Seats.{count_of};

use sim_run_claims::{ClaimSeat, Claims};
use std::alloc::{AllocError, Global};

/// The processes that resume in a cycle. Each is drawn by one worker.
#[derive(Drop)]
pub struct Round {
    due: Vec<usize>,
    claims: Claims,
    ghost places: { count_of claims ≡ vec_len due },
}

impl Round {
    ghost use Rattle.std.specs.Prelude.{◌≡◌, ◌<◌, ◌≤◌, ◌+◌, vec_len, None, IfOk, OnErr};
    ghost use Rattle.sim_run_claims.specs.Seats.{IsOf, balance, seen};
    ghost use Rattle.sim_flat_design.specs.Designs.{most};
    ghost use Rattle.sim_run_workers.specs.Workers.{DrawsProcess};

    /// The round of these processes, and its first seat, which has the whole allowance.
    pub fn new(alloc: Global, due: Vec<usize>) -> Result<(Round, ClaimSeat), AllocError>
        requires { vec_len due ≤ most }
        ensures due { IfOk result (λ made. made.0.due ≡ due) }
        ensures of { IfOk result (λ made. IsOf made.0.claims made.1) }
        ensures whole { IfOk result (λ made. balance made.1 ≡ 64) }
    {
        let (claims, seat) = Claims::new(alloc, due.len())?;
        Ok((Round { due, claims }, seat))
    }

    /// The number of a process that no other worker draws: the seat draws an index into the list of
    /// those that are due. `None` if all are drawn, or the seat has no allowance.
    pub fn draw(&self, seat: &mut ClaimSeat) -> Option<usize>
        requires { IsOf self.now.claims seat.old }
        ensures of { IsOf self.now.claims seat.new }
        ensures drawn { 0 < (seen seat.old).allowance → DrawsProcess self.now.due.items (seen seat.old) result (seen seat.new) }
        ensures no_allowance { (seen seat.old).allowance ≡ 0 → (result ≡ None) × (seen seat.new ≡ seen seat.old) }
        ensures balance { balance seat.new ≡ balance seat.old }
    {
        let place = self.claims.draw(seat)?;
        Some(self.due[place])
    }

    /// A seat for another worker, with half of the allowance.
    pub fn split(&self, alloc: Global, seat: &mut ClaimSeat) -> Result<ClaimSeat, AllocError>
        requires { IsOf self.now.claims seat.old }
        ensures of { IsOf self.now.claims seat.new }
        ensures err { OnErr result (balance seat.new ≡ balance seat.old) }
        ensures ok { IfOk result (λ other. IsOf self.now.claims other × (balance seat.new + balance other ≡ balance seat.old)) }
    {
        self.claims.split(alloc, seat)
    }

    /// Takes over the seat of another worker.
    pub fn join(&self, seat: &mut ClaimSeat, other: ClaimSeat)
        requires seat { IsOf self.now.claims seat.old }
        requires other { IsOf self.now.claims other }
        ensures of { IsOf self.now.claims seat.new }
        ensures balance { balance seat.new ≡ balance seat.old + balance other }
    {
        self.claims.join(seat, other)
    }

    /// The number of processes that were drawn, once all seats are joined in one.
    pub fn close(self, seat: ClaimSeat) -> usize
        requires of { IsOf self.claims seat }
        requires whole { balance seat ≡ 64 }
        ensures { result ≤ vec_len self.due }
    {
        let Round { due: _due, claims } = self;
        claims.close(seat)
    }
}
