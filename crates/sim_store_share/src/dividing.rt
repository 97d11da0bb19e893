//! A share is divided into several.

ghost use Rattle.std.specs.Prelude.{◌≡◌, ◌<◌, ◌≤◌, ◌++◌, ◌∷◌, [], length, take, drop, IfOk, OnOk};
ghost use Rattle.sim_store_share.specs.Dividing.{AreDivided};
ghost use Rattle.sim_store_share.specs.Shares.{owned_lists};

use crate::share::Share;
use sim_containers::RowArray;
use sim_flat_design::Held;
use sim_wave::Driver;
use std::alloc::{AllocError, Global};
use std::mem;

/// The first `count` of these processes become a share. The others stay.
fn split(
    alloc: Global,
    drivers: &mut RowArray<Driver>,
    variables: &mut RowArray<Held>,
    count: usize,
) -> Result<Share, AllocError>
    requires owned { length drivers.old ≡ length variables.old }
    requires some { count ≤ length drivers.old }
    ensures share { IfOk result (λ s. s ≡ owned_lists (take count drivers.old) (take count variables.old)) }
    ensures drivers { OnOk result (drivers.new ≡ drop count drivers.old) }
    ensures variables { OnOk result (variables.new ≡ drop count variables.old) }
{
    let other_drivers = drivers.split_off(alloc, count)?;
    let other_variables = variables.split_off(alloc, count)?;
    let own = mem::replace(drivers, other_drivers);
    let held = mem::replace(variables, other_variables);
    Share::of(alloc, own, held)
}

/// These shares, and one more of the processes that own these drivers and variables.
fn with_last(
    alloc: Global,
    shares: Vec<Share>,
    drivers: RowArray<Driver>,
    variables: RowArray<Held>,
) -> Result<Vec<Share>, AllocError>
    requires { length drivers ≡ length variables }
    ensures { IfOk result (λ v. v.items ≡ shares.items ++ owned_lists drivers variables ∷ []) }
{
    let mut shares = shares;
    let last = Share::of(alloc, drivers, variables)?;
    shares.push(last)?;
    Ok(shares)
}

/// The shares of these processes, with `each` of them in a share; the last may have fewer.
fn divided(
    alloc: Global,
    drivers: RowArray<Driver>,
    variables: RowArray<Held>,
    each: usize,
) -> Result<Vec<Share>, AllocError>
    requires each { 0 < each }
    requires owned { length drivers ≡ length variables }
    ensures { IfOk result (λ v. AreDivided each (owned_lists drivers variables) v.items) }
{
    let mut drivers = drivers;
    let mut variables = variables;
    let mut shares = Vec::new(alloc);
    while drivers.len() > each {
        let share = split(alloc, &mut drivers, &mut variables, each)?;
        shares.push(share)?;
    }
    with_last(alloc, shares, drivers, variables)
}

impl Share {
    /// The same processes in shares of `each` of them; the last may have fewer. Their drivers and
    /// variables are moved, not copied.
    pub fn divide(self, alloc: Global, each: usize) -> Result<Vec<Share>, AllocError>
        requires { 0 < each }
        ensures { IfOk result (λ v. AreDivided each self v.items) }
    {
        let (drivers, variables) = self.into_lists();
        divided(alloc, drivers, variables, each)
    }
}
