//! Laws of runs: each is what an empty function ensures.

ghost use Rattle.std.specs.Prelude.{◌≡◌, ℕ, List, length, sum_by};
ghost use Rattle.std.specs.List.{All, AllZip, range_with_len};
ghost use Rattle.sim_flat_design.specs.Designs.{Design};
ghost use Rattle.sim_flat_design.specs.Limits.{Limits};
ghost use Rattle.sim_flat_blocks.specs.declared.parts.Block.{Block};
ghost use Rattle.sim_flat_design.specs.Processes.{IsProcess};
ghost use Rattle.sim_standard.specs.Agreement.{total_of};
ghost use Rattle.sim_standard.specs.Drivers.{DriverState};
ghost use Rattle.sim_standard.specs.Records.{event_count, records_to};
ghost use Rattle.sim_flat.specs.declared.top.Top.{Top};
ghost use Rattle.sim_flat.specs.Hierarchies.{IsFlat};
ghost use Rattle.sim_flat.specs.Laws.{trees};
ghost use Rattle.sim_run.specs.Laws.{HasNestedValue};

/// In each cycle of a design without faults, a net has the value of its source tree, in which each
/// associated port is resolved by itself, whatever the values of its drivers
/// (IEEE 1076-2008, 14.7.3).
pub fn cycles_give_nets_the_values_of_their_source_trees()
    ensures { (limits : Limits) (blocks : List Block) (top : Top) (design : Design) (drivers : List DriverState) →
        IsFlat limits blocks top design → AllZip (HasNestedValue drivers) (trees blocks top.block) design.nets }
{}

/// The number of events in the last line of a listing is the sum of the totals of all nets.
pub fn the_events_are_those_of_all_nets()
    ensures { (design : Design) (cycles : ℕ) → All IsProcess design.processes
        → sum_by (total_of (records_to design cycles)) (range_with_len 0 (length design.nets)) ≡ event_count (records_to design cycles) }
{}
