//! Sets of numbers below a bound, by a stamp for each number.

ghost use Rattle.std.specs.Prelude.{◌≡◌, ◌<◌, ◌≤◌, length, true, false, replicate, slice_set, IfOk};
ghost use Rattle.sim_containers.specs.Numbers.{is_in};

use std::alloc::{AllocError, Global};
use std::marker::Model;

/// A set of numbers below a bound: the members are those with the current stamp. To clear the set
/// is to take a new stamp.
pub struct Stamps {
    stamps: Vec<u32>,
    stamp: u32,
}

/// Written by hand so that code which drops it needs no proof about its contents.
impl Drop for Stamps {
    fn drop(self) {
        let Stamps { stamps, stamp: _ } = self;
        drop(stamps);
    }
}

impl Model for Stamps {
    ghost use Rattle.std.specs.Prelude.{Bool, List};
    ghost use Rattle.sim_containers.specs.Numbers.{stamped, AreStamps};

    ghost Value = { List Bool };

    ghost view = { λ set. stamped set.stamp set.stamps.items };

    ghost invariant = { λ set. AreStamps set.stamp set.stamps.items };
}

/// This number of stamps, none of which was ever current.
fn no_stamps(alloc: Global, count: usize) -> Result<Vec<u32>, AllocError>
    ensures { IfOk result (λ v. v.items ≡ replicate count 0) }
{
    let stamps = Vec::from_elem(alloc, 0, count)?;
    Ok(stamps)
}

/// Resets all stamps.
#[inline(never)]
fn take_back(stamps: &mut Vec<u32>)
    ensures { stamps.new.items ≡ replicate (length stamps.old.items) 0 }
{
    stamps.as_mut_slice().fill(0);
}

impl Stamps {
    /// The empty set of numbers below `count`.
    pub fn new(alloc: Global, count: usize) -> Result<Stamps, AllocError>
        ensures { IfOk result (λ set. set ≡ replicate count false) }
    {
        let stamps = no_stamps(alloc, count)?;
        Ok(Stamps { stamps, stamp: 1 })
    }

    /// The bound.
    pub fn len(&self) -> usize
        ensures { result ≡ length self.now }
    {
        self.stamps.len()
    }

    /// Whether a number is a member. Numbers beyond the bound are not.
    pub fn contains(&self, number: usize) -> bool
        ensures { result ≡ is_in self.now number }
    {
        number < self.stamps.len() && self.stamps[number] == self.stamp
    }

    /// Adds a number.
    pub fn insert(&mut self, number: usize)
        requires { number < length self.old }
        ensures { self.new ≡ slice_set self.old number true }
    {
        self.stamps[number] = self.stamp;
    }

    /// Removes a number.
    pub fn remove(&mut self, number: usize)
        requires { number < length self.old }
        ensures { self.new ≡ slice_set self.old number false }
    {
        self.stamps[number] = 0;
    }

    /// Removes all members.
    pub fn clear(&mut self)
        ensures { self.new ≡ replicate (length self.old) false }
    {
        if self.stamp == u32::MAX {
            take_back(&mut self.stamps);
            self.stamp = 1;
            return;
        }
        self.stamp += 1;
    }
}
