//! The values of all nets (IEEE 1076-2008, 14.7.3).

ghost use Rattle.std.specs.Prelude.{◌≡◌, ◌≢◌, ◌<◌, length, map, slice_set, IfOk, MatchOption};
ghost use Rattle.sim_store_nets.specs.Lists.{net_from};
ghost use Rattle.sim_store_nets.specs.Nets.{AreTouched, row_from, sources_of, value_at};

use crate::nets::{ByNumber, end_events, net_value};
use crate::update_lists::UpdateLists;
use sim_flat_design::Net;
use sim_logic::Logic;
use std::alloc::{AllocError, Global};
use std::marker::Model;

/// The value of each net, and its value before the cycle: there is an event if they differ.
pub struct Values {
    present: Vec<Logic>,
    before: Vec<Logic>,
}

/// Written by hand so that code which drops it needs no proof about its contents.
impl Drop for Values {
    fn drop(self) {
        let Values { present, before } = self;
        drop(present);
        drop(before);
    }
}

impl Model for Values {
    ghost use Rattle.std.specs.Prelude.{◌≡◌, length};
    ghost use Rattle.sim_store_nets.specs.Lists.{NetValues};

    ghost Value = { NetValues };

    ghost view = { λ v. record { present = v.present.items; before = v.before.items } };

    ghost invariant = { λ v. length v.present.items ≡ length v.before.items };
}

/// The value of each net, given the values of the drivers.
fn first_values(alloc: Global, nets: &[Net], driving: &[Logic]) -> Result<Vec<Logic>, AllocError>
    ensures { IfOk result (λ v. v.items ≡ map (row_from driving.now) (sources_of nets.now)) }
{
    let mut values = Vec::with_capacity(alloc, nets.len())?;
    for net in nets {
        values.push(net_value(net.sources(), driving))?;
    }
    Ok(values)
}

impl Values {
    /// The values of nets, given those of the drivers, with no event.
    pub fn first(alloc: Global, nets: &[Net], driving: &[Logic]) -> Result<Values, AllocError>
        ensures values { IfOk result (λ v. v.present ≡ map (row_from driving.now) (sources_of nets.now)) }
        ensures before { IfOk result (λ v. v.before ≡ v.present) }
    {
        let present = first_values(alloc, nets, driving)?;
        let before = Vec::from_slice(alloc, present.as_slice())?;
        Ok(Values { present, before })
    }

    /// The number of nets.
    #[inline(always)]
    pub fn len(&self) -> usize
        ensures { result ≡ length self.now.present }
    {
        self.present.len()
    }

    /// The values as they are read.
    #[inline(always)]
    pub fn seen(&self) -> ByNumber<'_>
        ensures values { result.values.now ≡ self.now.present }
        ensures before { result.values_before.now ≡ self.now.before }
    {
        ByNumber {
            values: self.present.as_slice(),
            values_before: self.before.as_slice(),
        }
    }

    /// The values before the cycle of the nets that may have an event become their values; those of
    /// other nets are already equal.
    #[inline(always)]
    pub fn end_events(&mut self, lists: &UpdateLists)
        requires { AreTouched self.old.present self.old.before lists.now.touched }
        ensures values { self.new.present ≡ self.old.present }
        ensures before { self.new.before ≡ self.old.present }
    {
        end_events(
            self.before.as_mut_slice(),
            self.present.as_slice(),
            &lists.touched,
        );
    }

    /// A net takes the value of its sources (14.7.5.3 d). Returns that if it is a new one.
    #[inline(always)]
    pub fn resolve(&mut self, lists: &UpdateLists, net: usize) -> Option<Logic>
        requires at { net < length self.old.present }
        requires sized { length self.old.present ≡ length lists.now.sources }
        ensures values { self.new ≡ record self.old { present = slice_set self.old.present net (net_from lists.now net) } }
        ensures changed { MatchOption result (net_from lists.now net ≡ value_at self.old.present net)
            (λ v. (v ≡ net_from lists.now net) × (v ≢ value_at self.old.present net)) }
    {
        let value = lists.net_value(net);
        let before = self.present[net];
        self.present[net] = value;
        if value == before { None } else { Some(value) }
    }
}
