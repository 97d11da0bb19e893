//! Laws of the state of a design: each is what an empty function ensures.

ghost use Rattle.std.specs.Prelude.{◌≡◌, [], map, length};
ghost use Rattle.sim_flat_design.specs.declared.design.DriverOf.{DriverOf as driver_of};
ghost use Rattle.sim_flat_design.specs.Designs.{AreOwned, Design};
ghost use Rattle.sim_standard.specs.Initialization.{first_owned};
ghost use Rattle.sim_standard.specs.State.{all_drivers};

/// The drivers that the processes own, one process after another, are those of the design by
/// number, each initially idle at its first value.
pub fn the_initial_drivers_are_those_of_the_design()
    ensures { (design : Design) → AreOwned (length design.nets) 0 0 design.processes design.drivers
        → all_drivers (map (first_owned design.drivers) design.processes)
        ≡ map (λ (d : driver_of). record { value = d.first; pending = [] }) design.drivers }
{}
