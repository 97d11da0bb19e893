//! Strictly ascending lists of numbers.

ghost use Rattle.std.specs.Prelude.{◌≡◌};
ghost use Rattle.sim_flat_design.specs.Processes.{rising};

use sqlite_items::Items;

/// The numbers of a list without repetitions, in ascending order.
pub fn rising(mut numbers: Vec<usize>) -> Items<usize>
    ensures { result ≡ rising numbers.items }
{
    numbers.sort_unstable();
    numbers.dedup();
    Items::from_vec(numbers)
}
