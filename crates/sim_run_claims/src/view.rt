//! The view of a seat.

ghost use Rattle.std.specs.Prelude.{ℕ, List};
ghost use Rattle.std.specs.Borrow.{ftrue};

use std::marker::Model;

/// The numbers that a seat has drawn, how many draws in vain it has left, how many it has made, and
/// the number below which all draws are. It exists in proofs alone: no value of it is made.
pub struct SeatView {
    pub ghost drawn: { List ℕ },
    pub ghost allowance: { ℕ },
    pub ghost overdraws: { ℕ },
    pub ghost limit: { ℕ },
}

impl Model for SeatView {
    ghost also_owns = { λ _. ftrue };
}
