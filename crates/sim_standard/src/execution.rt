//! Laws of the execution of a process: each is what an empty function ensures.

ghost use Rattle.std.specs.Prelude.{ℕ, List, ◌≡◌, ◌<◌, length, slice_set};
ghost use Rattle.sim_flat_design.specs.Processes.{Process, IsProcess};
ghost use Rattle.sim_flat_design.specs.declared.statement.Statement.{Statement};
ghost use Rattle.sim_standard.specs.declared.net_view.NetView.{NetView};
ghost use Rattle.sim_standard.specs.State.{State, Owned, driver_values};
ghost use Rattle.sim_standard.specs.Processes.{meaning, part, owned_after};
ghost use Rattle.sim_standard.specs.Statements.{executed};

/// A process executed on the whole state changes only its own drivers and variables, and leaves in
/// these what it leaves in them when it is executed on its part: the time, the nets that it reads,
/// and what it owns.
pub fn a_process_reads_and_changes_only_its_part()
    ensures { (p : Process) (number : ℕ) (s : State) → IsProcess p → number < length s.owned
        → meaning p number s ≡ record s { owned = slice_set s.owned number (owned_after p (part p number s)) } }
{}

/// Executing statements changes the current value of no driver: only a simulation cycle does (IEEE
/// 1076-2008, 14.7.2).
pub fn execution_leaves_current_values_unchanged()
    ensures { (look : ℕ → NetView) (now : ℕ) (statements : List Statement) (own : Owned)
        → driver_values (executed look now statements own).drivers ≡ driver_values own.drivers }
{}
