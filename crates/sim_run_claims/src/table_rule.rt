//! The rule of the table with the word, and the names of its steps.

ghost use Rattle.sim_run_claims.specs.Rule.{Holds, Drew, Looked};
ghost use Rattle.sim_run_claims.specs.Views.{first_view, kept_half, handed_half, joined, spent_view};

use crate::view::SeatView;
use atomic_table::{Join, Play, Split, TableRule};

/// The numbers drawn are those below some number, each drawn once and by one seat.
pub struct EachOnce;

impl TableRule<u8, SeatView, usize> for EachOnce {
    ghost holds = { Holds };

    ghost first = { first_view };
}

/// The word is incremented; the number found there is drawn.
pub struct Draws;

impl Play<u8, SeatView> for Draws {
    ghost then = { Drew };
}

/// The word is read, and nothing changes.
pub struct Looks;

impl Play<u8, SeatView> for Looks {
    ghost then = { Looked };
}

/// Half of an allowance goes to a new seat, or all of a seat to another.
pub struct Halves;

impl Split<SeatView> for Halves {
    ghost left = { kept_half };

    ghost right = { handed_half };
}

impl Join<SeatView> for Halves {
    ghost both = { joined };

    ghost spent = { spent_view };
}
