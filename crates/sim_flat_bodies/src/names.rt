//! The meanings of the names in a process.

use sim_flat_design::Held;
use sim_flat_scope::scope::look_up;
use sim_flat_scope::{Meaning, Scope};

/// The regions visible in a process, and the ports, signals and variables that its names may refer
/// to.
pub struct Names<'s, 'a> {
    /// The region of the process; empty for a concurrent assignment.
    pub process: &'s Scope<'a>,
    pub architecture: &'s Scope<'a>,
    /// The number of ports and signals of the architecture.
    pub objects: usize,
    /// The initial values of the variables.
    pub variables: &'s [Held],
}

impl<'s, 'a> Names<'s, 'a> {
    ghost use Rattle.std.specs.Prelude.{◌≡◌};
    ghost use Rattle.sim_flat_scope.specs.Scopes.{means};

    /// The meaning of a name.
    pub fn look_up(&self, name: &[u8]) -> Option<Meaning>
        ensures { result ≡ means self.now.process.now self.now.architecture.now name.now }
    {
        look_up(self.process, self.architecture, name)
    }
}
