//! The signals and ports that a process assigns.

use indexmap::IndexSet;
use std::alloc::{AllocError, Global};
use std::marker::Model;

/// Signals and ports, by position in the architecture, without repetitions, in the order in which
/// they were added.
#[derive(Drop)]
pub struct Targets {
    objects: IndexSet<usize>,
}

impl Model for Targets {
    ghost use Rattle.std.specs.Prelude.{ℕ, List};

    ghost Value = { List ℕ };

    ghost view = { λ t. t.objects.keys };
}

impl Targets {
    ghost use Rattle.std.specs.Prelude.{◌≡◌, ◌<◌, [], OnOk, IfSome, length};
    ghost use Rattle.sim_flat_bodies.specs.Statements.{place_of, with_new};

    /// An empty list.
    pub fn new(alloc: Global) -> Targets
        ensures { result ≡ [] }
    {
        Targets {
            objects: IndexSet::new(alloc),
        }
    }

    /// Adds a signal or port, unless it is already there.
    #[tactic(auto, unfolding(crate::specs::Statements::with_new))]
    pub fn add(&mut self, object: usize) -> Result<(), AllocError>
        ensures { OnOk result (self.new ≡ with_new self.old object) }
    {
        self.objects.insert(object)?;
        Ok(())
    }

    /// The position of a signal or port in the list, if it is there.
    #[tactic(auto, unfolding(crate::specs::Statements::place_of))]
    pub fn place(&self, object: usize) -> Option<usize>
        ensures place { result ≡ place_of self.now object }
        ensures bound { IfSome result (λ p. p < length self.now) }
    {
        self.objects.get_index_of(&object)
    }

    /// All of them.
    pub fn as_slice(&self) -> &[usize]
        ensures { result.now ≡ self.now }
    {
        self.objects.as_slice()
    }
}
