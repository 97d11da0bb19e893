//! The names of architectures, each with the name of its entity.

ghost use Rattle.std.specs.Prelude.{◌≡◌, [], not, IfOk, OnOk};
ghost use Rattle.sim_flat_check.specs.BodyNames as spec;

use indexmap::IndexSet;
use std::alloc::{AllocError, Global};
use std::marker::Model;

/// Names of architectures, each with the name of its entity.
#[derive(Drop)]
pub struct BodyNames<'a> {
    names: IndexSet<(&'a [u8], &'a [u8])>,
}

impl<'a> Model for BodyNames<'a> {
    ghost use Rattle.std.specs.Prelude.{map};
    ghost use Rattle.sim_flat_check.specs.BodyNames as spec;

    ghost Value = { spec.BodyNames };

    ghost view = { λ s. map (λ k. (k.0.now, k.1.now)) s.names.keys };
}

impl<'a> BodyNames<'a> {
    /// An empty set.
    pub fn new(alloc: Global) -> BodyNames<'a>
        ensures { result ≡ [] }
    {
        BodyNames {
            names: IndexSet::new(alloc),
        }
    }

    /// Adds the name of an architecture, unless it is known for its entity, and returns whether it
    /// is new.
    pub fn insert(&mut self, entity: &'a [u8], name: &'a [u8]) -> Result<bool, AllocError>
        ensures is_new { IfOk result (λ b. b ≡ not (spec.is_known self.old entity.now name.now)) }
        ensures names { OnOk result (self.new ≡ spec.with_name self.old entity.now name.now) }
    {
        let is_new = self.names.insert((entity, name))?;
        Ok(is_new)
    }
}
