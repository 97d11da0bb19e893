//! The design of a run, named by a type.

use std::marker::Brand;

/// A name of a design. Each run has its own, so that no test is needed for what its type says.
pub trait DesignType {
    ghost use Rattle.sim_flat_design.specs.Designs.{Design};

    ghost design: { Design };
}

impl DesignType for Brand {
    ghost use Rattle.std.specs.Prelude.{[]};

    ghost design = { record { nets = []; drivers = []; processes = [] } };
}
