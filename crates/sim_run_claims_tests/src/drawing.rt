//! Threads that draw: which numbers come, and in which order, which no contract says.

ghost use Rattle.std.specs.Prelude.{◌≡◌, ◌+◌, OnOk};
ghost use Rattle.sim_run_claims.specs.Seats.{IsOf, balance};

use sim_run_claims::{ClaimSeat, Claims};
use std::alloc::{AllocError, Global};
use std::test::Fail;
use std::thread::{Threads, join};

/// Draws this many times, and returns the results.
fn draw_times(
    alloc: Global,
    claims: &Claims,
    seat: &mut ClaimSeat,
    times: u32,
) -> Result<Vec<Option<usize>>, AllocError>
    requires { IsOf claims.now seat.old }
    ensures of { IsOf claims.now seat.new }
    ensures balance { balance seat.new ≡ balance seat.old }
{
    let mut drawn = Vec::new(alloc);
    for _turn in 0..times {
        drawn.push(claims.draw(seat))?;
    }
    Ok(drawn)
}

/// Splits a seat this many times, draws by the last new seat and then by the seat, and joins all
/// again.
fn draw_after_splits(
    alloc: Global,
    claims: &Claims,
    seat: &mut ClaimSeat,
    splits: u32,
) -> Result<(Option<usize>, Option<usize>), AllocError>
    requires { IsOf claims.now seat.old }
    ensures of { IsOf claims.now seat.new }
    ensures balance { OnOk result (balance seat.new ≡ balance seat.old) }
{
    let mut new = claims.split(alloc, seat)?;
    let drawn = if splits <= 1 {
        (claims.draw(&mut new), claims.draw(seat))
    } else {
        draw_after_splits(alloc, claims, seat, splits - 1)?
    };
    claims.join(seat, new);
    Ok(drawn)
}

/// Draws in two threads, and returns both seats as one.
fn draw_in_two_threads<R: Threads + Sync>(
    rt: &R,
    alloc: Global,
    claims: &Claims,
    seat: ClaimSeat,
    other: ClaimSeat,
) -> (ClaimSeat, Result<Vec<Option<usize>>, AllocError>)
    requires seat { IsOf claims.now seat }
    requires other { IsOf claims.now other }
    ensures of { IsOf claims.now result.0 }
    ensures balance { balance result.0 ≡ balance seat + balance other }
{
    let ((mut seat, drawn), (other, drawn_too)) = join(
        rt,
        move || -> (ClaimSeat, Result<Vec<Option<usize>>, AllocError>)
            requires { IsOf claims.now seat }
            ensures { IsOf claims.entry.now result.0 × (balance result.0 ≡ balance seat) }
        {
            let mut seat = seat;
            let drawn = draw_times(alloc, claims, &mut seat, 4);
            (seat, drawn)
        },
        move || -> (ClaimSeat, Result<Vec<Option<usize>>, AllocError>)
            requires { IsOf claims.now other }
            ensures { IsOf claims.entry.now result.0 × (balance result.0 ≡ balance other) }
        {
            let mut seat = other;
            let drawn = draw_times(alloc, claims, &mut seat, 4);
            (seat, drawn)
        },
    );
    claims.join(&mut seat, other);
    (seat, both(drawn, drawn_too))
}

/// The numbers that one thread drew, followed by those that the other drew.
fn appended(
    drawn: Result<Vec<Option<usize>>, AllocError>,
    drawn_too: Result<Vec<Option<usize>>, AllocError>,
) -> Result<Vec<Option<usize>>, AllocError> {
    let mut drawn = drawn?;
    let mut drawn_too = drawn_too?;
    drawn.append(&mut drawn_too)?;
    Ok(drawn)
}

/// The numbers that both threads drew, sorted.
fn both(
    drawn: Result<Vec<Option<usize>>, AllocError>,
    drawn_too: Result<Vec<Option<usize>>, AllocError>,
) -> Result<Vec<Option<usize>>, AllocError> {
    let mut drawn = appended(drawn, drawn_too)?;
    drawn.sort()?;
    Ok(drawn)
}

/// The number of numbers, and the number of draws.
static DRAWS: [(u8, u32); 4] = [(100, 165), (3, 3), (1, 2), (0, 1)];

/// Whether these are the numbers below a count in order, and then none.
fn are_in_order(drawn: &[Option<usize>], count: usize) -> bool {
    for turn in 0..drawn.len() {
        let expected = if turn < count { Some(turn) } else { None };
        if drawn[turn] != expected {
            return false;
        }
    }
    true
}

/// Whether this many draws give the numbers below a count in order, and then none.
fn gives_each_in_order(alloc: Global, count: u8, times: u32) -> Result<bool, AllocError> {
    let count = usize::from(count);
    let (claims, mut seat) = Claims::new(alloc, count)?;
    let drawn = draw_times(alloc, &claims, &mut seat, times)?;
    Ok(claims.close(seat) == count && are_in_order(drawn.as_slice(), count))
}

/// The place of the first row whose draws give other numbers.
fn first_other_draws(alloc: Global) -> Result<Option<usize>, AllocError> {
    for place in 0..DRAWS.len() {
        let (count, times) = DRAWS[place];
        if !gives_each_in_order(alloc, count, times)? {
            return Ok(Some(place));
        }
    }
    Ok(None)
}

#[test]
fn numbers_are_drawn_in_order_and_then_none(rt: HostRuntime) -> Result<(), Fail> {
    assert_eq!(rt; first_other_draws(rt.alloc())?, None);
    Ok(())
}

/// The number of numbers that are drawn of three, and what the last seat and the first one draw after
/// seven splits.
fn draws_after_seven_splits(
    alloc: Global,
) -> Result<(usize, Option<usize>, Option<usize>), AllocError> {
    let (claims, mut seat) = Claims::new(alloc, 3)?;
    let (last, first) = draw_after_splits(alloc, &claims, &mut seat, 7)?;
    Ok((claims.close(seat), last, first))
}

/// Whether the last seat draws nothing and the first one the number 0.
fn is_alone_in_drawing(alloc: Global) -> Result<bool, AllocError> {
    let (count, last, first) = draws_after_seven_splits(alloc)?;
    Ok(count == 1 && last.is_none() && first == Some(0))
}

#[test]
fn a_seat_with_no_allowance_makes_no_step(rt: HostRuntime) -> Result<(), Fail> {
    assert!(rt; is_alone_in_drawing(rt.alloc())?);
    Ok(())
}

/// Draws four times in each of two threads, of three numbers. Returns how many were drawn, and the
/// results, sorted.
fn draws_in_two_threads<R: Threads + Sync>(
    rt: &R,
    alloc: Global,
) -> Result<(usize, Vec<Option<usize>>), AllocError> {
    let (claims, mut seat) = Claims::new(alloc, 3)?;
    let other = claims.split(alloc, &mut seat)?;
    let (seat, drawn) = draw_in_two_threads(rt, alloc, &claims, seat, other);
    let count = claims.close(seat);
    Ok((count, drawn?))
}

/// The results of eight draws of three numbers, sorted.
static EIGHT: [Option<usize>; 8] = [None, None, None, None, None, Some(0), Some(1), Some(2)];

/// Whether each number is drawn once by two threads.
fn is_each_drawn_once<R: Threads + Sync>(rt: &R, alloc: Global) -> Result<bool, AllocError> {
    let (count, drawn) = draws_in_two_threads(rt, alloc)?;
    Ok(count == 3 && drawn.as_slice() == EIGHT.as_slice())
}

#[test]
fn two_threads_draw_each_number_once(rt: HostRuntime) -> Result<(), Fail> {
    assert!(rt; is_each_drawn_once(&rt, rt.alloc())?);
    Ok(())
}
