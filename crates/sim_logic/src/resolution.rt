//! The resolution function of std_logic.

ghost use Rattle.std.specs.Prelude.{◌≡◌, fold};
ghost use Rattle.sim_logic.specs.Resolution.{resolved};
ghost use Rattle.sim_logic.specs.Tables.{resolution_table};

use crate::logic::Logic::{self, Dash, H, L, One, U, W, X, Z, Zero};

/// Row: first value; column: second value (IEEE 1164, `resolution_table`).
static RESOLUTION_TABLE: [[Logic; 9]; 9] = [
    [U, U, U, U, U, U, U, U, U],
    [U, X, X, X, X, X, X, X, X],
    [U, X, Zero, X, Zero, Zero, Zero, Zero, X],
    [U, X, X, One, One, One, One, One, X],
    [U, X, Zero, One, Z, W, L, H, X],
    [U, X, Zero, One, W, W, W, W, X],
    [U, X, Zero, One, L, W, L, W, X],
    [U, X, Zero, One, H, W, W, H, X],
    [U, X, X, X, X, X, X, X, X],
];

/// The resolution of two values (IEEE 1164, `resolution_table`). A caller can resolve two or more
/// sources with it, one after another from `'Z'`, without a list of their values; a single source
/// keeps its value.
pub fn resolve_two(first: Logic, second: Logic) -> Logic
    ensures { result ≡ resolution_table first second }
{
    RESOLUTION_TABLE[first as usize][second as usize]
}

/// The values of the drivers, resolved from left to right.
fn merge(drivers: &[Logic]) -> Logic
    ensures { result ≡ fold resolution_table Logic.Z drivers.now }
{
    drivers.iter().copied().fold(Z, resolve_two)
}

/// The value of a signal of type std_logic whose sources have these values (IEEE 1164, function
/// `resolved`). A single value is returned unchanged; no values give `'Z'`, as in the standard.
pub fn resolve(drivers: &[Logic]) -> Logic
    ensures { result ≡ resolved drivers.now }
{
    match drivers {
        [only] => *only,
        _ => merge(drivers),
    }
}
