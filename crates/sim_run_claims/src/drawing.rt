//! Claims: the numbers below a count, which threads draw by their seats.

ghost use Rattle.std.specs.Prelude.{◌≡◌, ◌<◌, ◌≤◌, [], length, None, IfOk, OnOk, OnErr};

use crate::table_rule::{Draws, EachOnce, Halves, Looks};
use crate::view::SeatView;
use atomic_table::{Seat, Table};
use std::alloc::{AllocError, Global};

/// The number of draws in vain that all seats together may make.
const ALLOWANCE: u32 = 64;

/// The numbers below a count. Each draw takes the next one. Any number of threads may draw at the
/// same time.
#[derive(Drop)]
pub struct Claims {
    table: Table<u8, SeatView, usize, EachOnce, Global>,
    count: usize,
    ghost keyed: { count ≡ table.shared.key },
    ghost one_word: { table.shared.table_id.words ≡ 1 },
    ghost no_slots: { table.shared.table_id.slots ≡ 0 },
    ghost few: { count ≤ 1000000 },
}

/// The right to draw, and a share of the allowance of draws in vain.
#[derive(Drop)]
pub struct ClaimSeat {
    seat: Seat<u8, SeatView>,
    allowance: u32,
    ghost known: { allowance ≡ seat.me.0.allowance },
    ghost holds_no_slot: { seat.me.1 ≡ [] },
    ghost bounded: { allowance ≤ 64 },
}

impl Claims {
    ghost use Rattle.sim_run_claims.specs.Lawful.{AreThoseBelow};
    ghost use Rattle.sim_run_claims.specs.Views.{Draw, first_view, kept_half, handed_half, joined};
    ghost use Rattle.sim_run_claims.specs.Seats.{IsOf, balance, count_of, seen};

    /// Claims on the numbers below `count`, and the first seat, which has the whole allowance.
    pub fn new(alloc: Global, count: usize) -> Result<(Claims, ClaimSeat), AllocError>
        requires { count ≤ 1000000 }
        ensures count { IfOk result (λ made. count_of made.0 ≡ count) }
        ensures seat { IfOk result (λ made. IsOf made.0 made.1 × (seen made.1 ≡ first_view count)) }
    {
        let (table, seat) = Table::of_words(alloc, &[0], &count)?;
        let seat = ClaimSeat {
            seat,
            allowance: ALLOWANCE,
        };
        Ok((Claims { table, count }, seat))
    }

    /// The next number, or `None` if all are drawn, which uses up one of the allowance. A seat
    /// without allowance draws nothing, and leaves the word alone.
    pub fn draw(&self, seat: &mut ClaimSeat) -> Option<usize>
        requires { IsOf self.now seat.old }
        ensures of { IsOf self.now seat.new }
        ensures allowed { 0 < (seen seat.old).allowance → Draw (count_of self.now) (seen seat.old) result (seen seat.new) }
        ensures no_allowance { (seen seat.old).allowance ≡ 0 → (result ≡ None) × (seen seat.new ≡ seen seat.old) }
    {
        if seat.allowance == 0 {
            return None;
        }
        let ClaimSeat {
            seat,
            allowance,
            ..
        } = seat;
        let found = self.table.shared.fetch_add::<Draws>(seat, 0, 1);
        if found < self.count as u64 {
            Some(found as usize)
        } else {
            *allowance -= 1;
            None
        }
    }

    /// A new seat with half of this one's allowance, rounded down, and nothing drawn.
    pub fn split(&self, _alloc: Global, seat: &mut ClaimSeat) -> Result<ClaimSeat, AllocError>
        requires { IsOf self.now seat.old }
        ensures of { IsOf self.now seat.new }
        ensures kept { OnOk result (seen seat.new ≡ kept_half (seen seat.old)) }
        ensures handed { IfOk result (λ new. IsOf self.now new × (seen new ≡ handed_half (seen seat.old))) }
        ensures err { OnErr result (seen seat.new ≡ seen seat.old) }
    {
        let half = seat.allowance / 2;
        let ClaimSeat {
            seat,
            allowance,
            ..
        } = seat;
        let other = self.table.shared.split_seat::<Halves>(seat);
        *allowance -= half;
        Ok(ClaimSeat {
            seat: other,
            allowance: half,
        })
    }

    /// Takes over another seat: what it has drawn, its allowance and its overdraws.
    pub fn join(&self, seat: &mut ClaimSeat, other: ClaimSeat)
        requires seat { IsOf self.now seat.old }
        requires other { IsOf self.now other }
        ensures of { IsOf self.now seat.new }
        ensures joined { seen seat.new ≡ joined (seen seat.old) (seen other) }
    {
        let ClaimSeat {
            seat: joining,
            allowance: gained,
        } = other;
        let ClaimSeat {
            seat,
            allowance,
            ..
        } = seat;
        self.table.shared.join_seat::<Halves>(seat, joining);
        // Joining says nothing about the sum; looking at the word does, by the rule.
        self.table.shared.load::<Looks>(seat, 0);
        *allowance += gained;
    }

    /// The number of draws that gave a number. The seat must have the whole allowance, used or not.
    pub fn close(self, seat: ClaimSeat) -> usize
        requires of { IsOf self seat }
        requires whole { balance seat ≡ 64 }
        ensures within { result ≤ count_of self }
        ensures each_once { AreThoseBelow result (seen seat).drawn }
        ensures all { result ≡ length (seen seat).drawn }
        ensures overdrawn { 0 < (seen seat).overdraws → result ≡ count_of self }
    {
        let Claims { table, count } = self;
        let ClaimSeat { seat, allowance: _ } = seat;
        let closed = table.close_with(seat);
        let word = closed.word(0) as usize;
        closed.free();
        word.min(count)
    }
}
