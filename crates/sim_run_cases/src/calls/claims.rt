//! Rows of calls of claims, from which two threads draw. A call that finds no memory is made once
//! more, with the same seat.

ghost use Rattle.std.specs.Prelude.{◌≡◌, ◌+◌, IfOk, OnOk};
ghost use Rattle.sim_run_claims.specs.Seats.{IsOf, balance, count_of, seen};
ghost use Rattle.sim_run_claims.specs.Views.{first_view, kept_half, handed_half};

use sim_run_claims::{ClaimSeat, Claims};
use std::alloc::{AllocError, Global};
use std::thread::{Threads, join};

/// The results of four draws.
type Drawn = [Option<usize>; 4];

/// Claims on three numbers.
fn new(alloc: Global) -> Result<(Claims, ClaimSeat), AllocError>
    ensures seat { IfOk result (λ made. IsOf made.0 made.1 × (seen made.1 ≡ first_view 3)) }
{
    match Claims::new(alloc, 3) {
        Err(_refused) => Claims::new(alloc, 3),
        made => made,
    }
}

/// A new seat with half of the allowance of a seat.
fn split(alloc: Global, claims: &Claims, seat: &mut ClaimSeat) -> Result<ClaimSeat, AllocError>
    requires { IsOf claims.now seat.old }
    ensures of { IsOf claims.now seat.new }
    ensures kept { OnOk result (seen seat.new ≡ kept_half (seen seat.old)) }
    ensures handed { IfOk result (λ new. IsOf claims.now new × (seen new ≡ handed_half (seen seat.old))) }
{
    match claims.split(alloc, seat) {
        Err(_refused) => claims.split(alloc, seat),
        made => made,
    }
}

/// The results of four draws by a seat.
fn draw_four(claims: &Claims, seat: &mut ClaimSeat) -> Drawn
    requires { IsOf claims.now seat.old }
    ensures of { IsOf claims.now seat.new }
    ensures balance { balance seat.new ≡ balance seat.old }
{
    let first = claims.draw(seat);
    let second = claims.draw(seat);
    let third = claims.draw(seat);
    let last = claims.draw(seat);
    [first, second, third, last]
}

/// Draws in two threads, and returns both seats as one, and what they drew.
fn draw_in_two_threads<R: Threads + Sync>(
    rt: &R,
    claims: &Claims,
    seat: ClaimSeat,
    other: ClaimSeat,
) -> (ClaimSeat, Drawn, Drawn)
    requires seat { IsOf claims.now seat }
    requires other { IsOf claims.now other }
    ensures of { IsOf claims.now result.0 }
    ensures balance { balance result.0 ≡ balance seat + balance other }
{
    let (one, two) = join(
        rt,
        move || -> (ClaimSeat, Drawn)
            requires { IsOf claims.now seat }
            ensures { IsOf claims.entry.now result.0 × (balance result.0 ≡ balance seat) }
        {
            let mut seat = seat;
            let drawn = draw_four(claims, &mut seat);
            (seat, drawn)
        },
        move || -> (ClaimSeat, Drawn)
            requires { IsOf claims.now other }
            ensures { IsOf claims.entry.now result.0 × (balance result.0 ≡ balance other) }
        {
            let mut seat = other;
            let drawn = draw_four(claims, &mut seat);
            (seat, drawn)
        },
    );
    let (mut seat, drawn) = one;
    let (other, drawn_too) = two;
    claims.join(&mut seat, other);
    (seat, drawn, drawn_too)
}

/// How often both threads together drew this.
fn times(drawn: &Drawn, drawn_too: &Drawn, wanted: Option<usize>) -> usize {
    let drawn = drawn.iter().filter(|it| **it == wanted).count();
    drawn + drawn_too.iter().filter(|it| **it == wanted).count()
}

/// Each result of draws from three numbers, and how often it comes in eight draws.
static EACH: [(Option<usize>, usize); 4] = [(None, 5), (Some(0), 1), (Some(1), 1), (Some(2), 1)];

/// Whether two threads draw three numbers, each once.
pub fn are_claimed<R: Threads + Sync>(rt: &R, alloc: Global) -> Result<bool, AllocError> {
    let (claims, mut seat) = new(alloc)?;
    let other = split(alloc, &claims, &mut seat)?;
    let (seat, drawn, drawn_too) = draw_in_two_threads(rt, &claims, seat, other);
    let is_each = EACH
        .iter()
        .all(|row| times(&drawn, &drawn_too, row.0) == row.1);
    Ok(claims.close(seat) == 3 && is_each)
}
