//! Code that is written from its end to its beginning.

use crate::operation::Operation;
use std::alloc::{AllocError, Global};
use std::marker::Model;

/// Operations, written from last to first: so the length of a jump is known when it is written.
#[derive(Drop)]
pub struct Backward {
    operations: Vec<Operation>,
}

impl Model for Backward {
    ghost use Rattle.std.specs.Prelude.{List, reverse};
    ghost use Rattle.sim_exec_code.specs.declared.operation.Operation.{Operation};

    ghost Value = { List Operation };

    ghost view = { λ b. reverse b.operations.items };
}

impl Backward {
    ghost use Rattle.std.specs.Prelude.{◌≡◌, ◌∷◌, [], length, OnOk};

    /// No code.
    pub fn new(alloc: Global) -> Backward
        ensures { result ≡ [] }
    {
        Backward {
            operations: Vec::new(alloc),
        }
    }

    /// Puts an operation in front of the others.
    #[tactic(auto, using(crate::proofs::FromTheEnd::reverse_more))]
    pub fn push(&mut self, operation: Operation) -> Result<(), AllocError>
        ensures { OnOk result (self.new ≡ operation ∷ self.old) }
    {
        self.operations.push(operation)?;
        Ok(())
    }

    /// The number of operations.
    #[tactic(auto, using(crate::proofs::FromTheEnd::reverse_long))]
    pub fn len(&self) -> usize
        ensures { result ≡ length self.now }
    {
        self.operations.len()
    }

    /// The operations, in order.
    pub fn into_vec(self) -> Vec<Operation>
        ensures { result.items ≡ self }
    {
        let mut operations = self.operations;
        operations.as_mut_slice().reverse();
        operations
    }
}
