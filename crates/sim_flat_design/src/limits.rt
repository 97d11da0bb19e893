//! How large a flat design may be.

ghost use Rattle.std.specs.Prelude.{◌≡◌, ◌≤◌};
ghost use Rattle.sim_flat_design.specs.Limits.{AreBounded, large, standard};

use std::marker::Model;

/// The largest numbers of objects and of instances of a flat design.
#[derive(Clone, Copy)]
pub struct Limits {
    objects: usize,
    instances: usize,
}

impl Model for Limits {
    ghost use Rattle.sim_flat_design.specs.Limits as spec;

    ghost Value = { spec.Limits };

    ghost view = { λ s. record { objects = s.objects; instances = s.instances } };

    ghost inverse = { λ v. record { objects = v.objects; instances = v.instances } };

    ghost invariant = { λ s. spec.AreBounded (record { objects = s.objects; instances = s.instances }) };
}

impl Limits {
    /// 65,536 nets, processes and drivers, and 16,384 instances.
    pub fn standard() -> Limits
        ensures { result ≡ standard }
    {
        Limits {
            objects: 65_536,
            instances: 16_384,
        }
    }

    /// 1,000,000 of each.
    pub fn large() -> Limits
        ensures { result ≡ large }
    {
        Limits {
            objects: 1_000_000,
            instances: 1_000_000,
        }
    }

    /// The largest number of nets, of processes and of drivers.
    pub fn objects(self) -> usize
        ensures value { result ≡ self.objects }
        ensures bounded { AreBounded self }
    {
        self.objects
    }

    /// The largest number of instances.
    pub fn instances(self) -> usize
        ensures value { result ≡ self.instances }
        ensures bounded { AreBounded self }
    {
        self.instances
    }
}
