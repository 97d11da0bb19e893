//! Lists of lists, held flat: one list of all items, and the index at which each list starts.
#![tactic(auto)]

ghost use Rattle.std.specs.Prelude.{◌≡◌, ◌<◌, ◌≤◌, ◌+◌, ◌-◌, ◌++◌, ◌∷◌, [], List, length, map, slice_index_or, slice_set, slice_index, slice_range, take};
ghost use Rattle.std.specs.Prelude.{drop, IfOk, OnOk, OnErr};
ghost use Rattle.sim_containers.specs.RowArray.{joined};

use std::alloc::{AllocError, Global};
use std::marker::Model;

/// Lists, one after another in one flat list. Code that works on one of them in place uses its
/// bounds, and must leave the others unchanged.
pub struct RowArray<T> {
    pub starts: Vec<usize>,
    pub flat: Vec<T>,
}

/// Written by hand so that code which drops it needs no proof about its contents.
impl<T: Drop> Drop for RowArray<T> {
    fn drop(self) {
        let RowArray { starts, flat } = self;
        drop(starts);
        drop(flat);
    }
}

impl<T> Model for RowArray<T> {
    ghost use Rattle.std.specs.Prelude.{List};
    ghost use Rattle.sim_containers.specs.RowArray.{rows, IsFlat};

    ghost Value = { List (List T) };

    ghost view = { λ r. rows r.starts.items r.flat.items };

    ghost invariant = { λ r. IsFlat (rows r.starts.items r.flat.items) r.starts.items r.flat.items };
}

impl<T> RowArray<T> {
    /// No lists.
    pub fn new(alloc: Global) -> Result<RowArray<T>, AllocError>
        ensures { IfOk result (λ r. r ≡ []) }
    {
        let mut starts = Vec::new(alloc);
        starts.push(0)?;
        Ok(RowArray {
            starts,
            flat: Vec::new(alloc),
        })
    }

    /// Copies a list to the end. If allocation fails, nothing changes.
    pub fn push_row(&mut self, row: &[T]) -> Result<(), AllocError>
    where
        T: Copy,
        ensures ok { OnOk result (self.new ≡ self.old ++ row.now ∷ []) }
        ensures err { OnErr result (self.new ≡ self.old) }
    {
        self.starts.reserve(1)?;
        self.flat.extend_from_slice(row)?;
        self.starts.push_reserved(self.flat.len());
        Ok(())
    }

    /// Moves a list to the end. If allocation fails, nothing changes.
    pub fn append(&mut self, row: Vec<T>) -> Result<(), AllocError>
    where
        T: Drop,
        ensures ok { OnOk result (self.new ≡ self.old ++ row.items ∷ []) }
        ensures err { OnErr result (self.new ≡ self.old) }
    {
        let mut row = row;
        self.starts.reserve(1)?;
        self.flat.append(&mut row)?;
        self.starts.push_reserved(self.flat.len());
        Ok(())
    }

    /// The number of lists.
    pub fn len(&self) -> usize
        ensures { result ≡ length self.now }
    {
        self.starts.len() - 1
    }

    /// The list at an index.
    pub fn row(&self, place: usize) -> &[T]
        requires { place < length self.now }
        ensures { result.now ≡ slice_index_or self.now place [] }
    {
        let (start, end) = bounds(self.starts.as_slice(), place);
        part(self.flat.as_slice(), start, end)
    }

    /// Exchanges the list at an index for another of the same length. It takes no memory.
    pub fn put(&mut self, place: usize, row: &mut [T])
        requires at { place < length self.old }
        requires long { length row.old ≡ length (slice_index_or self.old place []) }
        ensures new { self.new ≡ slice_set self.old place row.old }
        ensures row { row.new ≡ slice_index_or self.old place [] }
    {
        let (start, _end) = bounds(self.starts.as_slice(), place);
        replace(self.flat.as_mut_slice(), start, row);
    }

    /// The start and the end of the list at an index, among all items.
    pub fn row_bounds(&self, place: usize) -> (usize, usize)
        requires { place < length self.now }
        ensures start { result.0 ≡ length (joined (take place self.now)) }
        ensures end { result.1 ≡ result.0 + length (slice_index_or self.now place []) }
    {
        bounds(self.starts.as_slice(), place)
    }

    /// Moves the lists from an index on to a row array of their own. If allocation fails, nothing
    /// changes.
    pub fn split_off(&mut self, alloc: Global, place: usize) -> Result<RowArray<T>, AllocError>
        requires { place ≤ length self.old }
        ensures front { OnOk result (self.new ≡ take place self.old) }
        ensures back { IfOk result (λ back. back ≡ drop place self.old) }
        ensures err { OnErr result (self.new ≡ self.old) }
    {
        let start = start_at(self.starts.as_slice(), place);
        let starts = starts_after(alloc, self.starts.as_slice(), place)?;
        let flat = self.flat.split_off(start)?;
        self.starts.truncate(place + 1);
        Ok(RowArray { starts, flat })
    }

    /// The items of all lists, in order.
    pub fn flat(&self) -> &[T]
        ensures { result.now ≡ joined self.now }
    {
        self.flat.as_slice()
    }
}

/// The start and the end of the list at an index.
pub fn bounds(starts: &[usize], place: usize) -> (usize, usize)
    requires { place + 1 < length starts.now }
    ensures start { result.0 ≡ slice_index starts.now place }
    ensures end { result.1 ≡ slice_index starts.now (place + 1) }
{
    (starts[place], starts[place + 1])
}

/// The start of the list at an index, or the end of the last one.
fn start_at(starts: &[usize], place: usize) -> usize
    requires { place < length starts.now }
    ensures { result ≡ slice_index starts.now place }
{
    starts[place]
}

/// The starts from an index on, counted from the first of them.
fn starts_after(alloc: Global, starts: &[usize], place: usize) -> Result<Vec<usize>, AllocError>
    requires { place < length starts.now }
    ensures { IfOk result (λ v. v.items ≡ map (λ s. s - slice_index starts.now place) (drop place starts.now)) }
{
    starts_less(alloc, &starts[place..], starts[place])
}

/// The starts, counted from one of them.
fn starts_less(alloc: Global, starts: &[usize], from: usize) -> Result<Vec<usize>, AllocError>
    ensures { IfOk result (λ v. v.items ≡ map (λ s. s - from) starts.now) }
{
    starts
        .iter()
        .map(|start| start.saturating_sub(from))
        .collect(alloc)
}

/// A part of a list.
fn part<T>(flat: &[T], start: usize, end: usize) -> &[T]
    requires order { start ≤ end }
    requires within { end ≤ length flat.now }
    ensures { result.now ≡ slice_range flat.now start end }
{
    &flat[start..end]
}

/// Exchanges items of a list for others.
fn replace<T>(flat: &mut [T], start: usize, row: &mut [T])
    requires { start + length row.old ≤ length flat.old }
    ensures new { flat.new ≡ take start flat.old ++ row.old ++ drop (start + length row.old) flat.old }
    ensures row { row.new ≡ take (length row.old) (drop start flat.old) }
{
    let end = start + row.len();
    flat[start..end].swap_with_slice(row);
}
