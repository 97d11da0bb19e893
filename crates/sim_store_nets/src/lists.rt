//! Lists of numbers under construction.

ghost use Rattle.std.specs.Prelude.{ℕ, ◌≡◌, ◌<◌, ◌||◌, ◌&&◌, ◌==◌, [], List, length, slice_index_or, IfOk, OnOk};
ghost use Rattle.std.specs.List.{All};
ghost use Rattle.sim_standard.specs.Orders.{is_among};

use sim_containers::RowArray;
use sqlite_items::Items;
use std::alloc::{AllocError, Global};

/// Adds a number to the list at a place, if there is such a place.
pub fn add(lists: &mut [Items<usize>], place: usize, number: usize) -> Result<(), AllocError>
    ensures { OnOk result ((n p : ℕ) → n < length lists.old
        → is_among (slice_index_or lists.new n []) p ≡ (is_among (slice_index_or lists.old n []) p || ((place == n) && (number == p)))) }
{
    if place < lists.len() {
        lists[place].push(number)?;
    }
    Ok(())
}

/// Empty lists.
pub fn empty_lists(alloc: Global, count: usize) -> Result<Vec<Items<usize>>, AllocError>
    ensures empty { IfOk result (λ v. All (λ (list : List ℕ). list ≡ []) v.items) }
    ensures count { IfOk result (λ v. length v.items ≡ count) }
{
    let mut lists = Vec::with_capacity(alloc, count)?;
    for _number in 0..count {
        lists.push(Items::new(alloc))?;
    }
    Ok(lists)
}

/// Lists as the rows of an array.
pub fn in_rows(alloc: Global, lists: &[Items<usize>]) -> Result<RowArray<usize>, AllocError>
    ensures { IfOk result (λ r. r ≡ lists.now) }
{
    let mut rows = RowArray::new(alloc)?;
    for list in lists {
        rows.push_row(list.as_slice())?;
    }
    Ok(rows)
}
