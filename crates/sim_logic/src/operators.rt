//! The logical operators of std_logic_1164, its strength stripper and its edge functions.

ghost use Rattle.std.specs.Prelude.{◌≡◌};
ghost use Rattle.sim_logic.specs.Edge as edge;
ghost use Rattle.sim_logic.specs.Tables.{and_table, not_table, or_table, to_x01, xor_table};

use crate::logic::Logic::{self, One, U, X, Zero};

/// IEEE 1164, `and_table`.
static AND_TABLE: [[Logic; 9]; 9] = [
    [U, U, Zero, U, U, U, Zero, U, U],
    [U, X, Zero, X, X, X, Zero, X, X],
    [Zero, Zero, Zero, Zero, Zero, Zero, Zero, Zero, Zero],
    [U, X, Zero, One, X, X, Zero, One, X],
    [U, X, Zero, X, X, X, Zero, X, X],
    [U, X, Zero, X, X, X, Zero, X, X],
    [Zero, Zero, Zero, Zero, Zero, Zero, Zero, Zero, Zero],
    [U, X, Zero, One, X, X, Zero, One, X],
    [U, X, Zero, X, X, X, Zero, X, X],
];

/// IEEE 1164, `or_table`.
static OR_TABLE: [[Logic; 9]; 9] = [
    [U, U, U, One, U, U, U, One, U],
    [U, X, X, One, X, X, X, One, X],
    [U, X, Zero, One, X, X, Zero, One, X],
    [One, One, One, One, One, One, One, One, One],
    [U, X, X, One, X, X, X, One, X],
    [U, X, X, One, X, X, X, One, X],
    [U, X, Zero, One, X, X, Zero, One, X],
    [One, One, One, One, One, One, One, One, One],
    [U, X, X, One, X, X, X, One, X],
];

/// IEEE 1164, `xor_table`.
static XOR_TABLE: [[Logic; 9]; 9] = [
    [U, U, U, U, U, U, U, U, U],
    [U, X, X, X, X, X, X, X, X],
    [U, X, Zero, One, X, X, Zero, One, X],
    [U, X, One, Zero, X, X, One, Zero, X],
    [U, X, X, X, X, X, X, X, X],
    [U, X, X, X, X, X, X, X, X],
    [U, X, Zero, One, X, X, Zero, One, X],
    [U, X, One, Zero, X, X, One, Zero, X],
    [U, X, X, X, X, X, X, X, X],
];

/// IEEE 1164, `not_table`.
static NOT_TABLE: [Logic; 9] = [U, X, One, Zero, X, X, One, Zero, X];

/// IEEE 1164, `cvt_to_x01`.
static TO_X01: [Logic; 9] = [X, X, Zero, One, X, X, Zero, One, X];

impl Logic {
    /// The operator `and`.
    pub fn and(self, other: Logic) -> Logic
        ensures { result ≡ and_table self other }
    {
        AND_TABLE[self as usize][other as usize]
    }

    /// The operator `or`.
    pub fn or(self, other: Logic) -> Logic
        ensures { result ≡ or_table self other }
    {
        OR_TABLE[self as usize][other as usize]
    }

    /// The operator `xor`.
    pub fn xor(self, other: Logic) -> Logic
        ensures { result ≡ xor_table self other }
    {
        XOR_TABLE[self as usize][other as usize]
    }

    /// The operator `nand`.
    pub fn nand(self, other: Logic) -> Logic
        ensures { result ≡ not_table (and_table self other) }
    {
        self.and(other).not()
    }

    /// The operator `nor`.
    pub fn nor(self, other: Logic) -> Logic
        ensures { result ≡ not_table (or_table self other) }
    {
        self.or(other).not()
    }

    /// The operator `xnor`.
    pub fn xnor(self, other: Logic) -> Logic
        ensures { result ≡ not_table (xor_table self other) }
    {
        self.xor(other).not()
    }

    /// The operator `not`.
    pub fn not(self) -> Logic
        ensures { result ≡ not_table self }
    {
        NOT_TABLE[self as usize]
    }

    /// `To_X01`: `'0'` for `'0'` and `'L'`, `'1'` for `'1'` and `'H'`, otherwise `'X'`.
    pub fn to_x01(self) -> Logic
        ensures { result ≡ to_x01 self }
    {
        TO_X01[self as usize]
    }

    /// Whether a change from `old` to `new` is a rising edge (function `rising_edge`).
    pub fn rises(old: Logic, new: Logic) -> bool
        ensures { result ≡ edge.rises old new }
    {
        old.to_x01() == Zero && new.to_x01() == One
    }

    /// Whether a change from `old` to `new` is a falling edge (function `falling_edge`).
    pub fn falls(old: Logic, new: Logic) -> bool
        ensures { result ≡ edge.falls old new }
    {
        old.to_x01() == One && new.to_x01() == Zero
    }
}
