//! Lists of numbers, of which it is known which rise.

ghost use Rattle.std.specs.Prelude.{◌≡◌, ◌<◌, [], true, length, slice_index_or, IfOk};
ghost use Rattle.sim_containers.specs.Numbers.{AreRising, RiseWithin};

use crate::number_list::rise_below;
use crate::row_array::RowArray;
use std::alloc::{AllocError, Global};
use std::marker::Model;

/// Lists of numbers. For each it is known whether it rises and is below a bound, so that it can
/// become the list of a set without a look at its numbers. To its user they are the lists.
pub struct RisingRows {
    rows: RowArray<usize>,
    bound: usize,
    /// For each list, whether it rises and is below the bound.
    rises: Vec<bool>,
}

/// Written by hand so that code which drops it needs no proof about its contents.
impl Drop for RisingRows {
    fn drop(self) {
        let RisingRows {
            rows,
            bound: _,
            rises,
        } = self;
        drop(rows);
        drop(rises);
    }
}

impl Model for RisingRows {
    ghost use Rattle.std.specs.Prelude.{List, ℕ};
    ghost use Rattle.sim_containers.specs.Numbers.{AreRising};

    ghost Value = { List (List ℕ) };

    ghost view = { λ r. r.rows };

    ghost invariant = { λ r. AreRising r.rows r.bound r.rises.items };
}

impl RisingRows {
    /// These lists. Each number is looked at once, to see which lists rise and are below `bound`.
    pub fn of(alloc: Global, rows: RowArray<usize>, bound: usize) -> Result<RisingRows, AllocError>
        ensures { IfOk result (λ r. r ≡ rows) }
    {
        let rises = rising(alloc, &rows, bound)?;
        Ok(RisingRows { rows, bound, rises })
    }

    /// The lists.
    pub fn rows(&self) -> &RowArray<usize>
        ensures { result.now ≡ self.now }
    {
        &self.rows
    }

    /// Whether the list with this number is known to rise and to be below a bound.
    #[inline(always)]
    pub fn rises(&self, number: usize, bound: usize) -> bool
        ensures { result ≡ true → RiseWithin 0 bound (slice_index_or self.now number []) }
    {
        if bound != self.bound {
            return false;
        }
        match self.rises.get(number) {
            Some(rises) => *rises,
            None => false,
        }
    }

    /// The list with a number; empty if there is no such list.
    #[inline(always)]
    pub fn row(&self, number: usize) -> &[usize]
        ensures { result.now ≡ slice_index_or self.now number [] }
    {
        if number >= self.rows.len() {
            return &[];
        }
        self.rows.row(number)
    }
}

/// For each list, whether it rises and is below a bound.
fn rising(alloc: Global, rows: &RowArray<usize>, bound: usize) -> Result<Vec<bool>, AllocError>
    ensures { IfOk result (λ v. AreRising rows.now bound v.items) }
{
    let mut rises = Vec::with_capacity(alloc, rows.len())?;
    for number in 0..rows.len() {
        rises.push(rise_below(rows.row(number), bound))?;
    }
    Ok(rises)
}
