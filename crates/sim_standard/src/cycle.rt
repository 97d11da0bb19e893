//! Laws of the simulation cycle: each is what an empty function ensures.

ghost use Rattle.std.specs.Prelude.{ℕ, suc, Bool, false, List, [], Some, ◌≡◌, ◌<◌, ◌↔◌, if◌then◌else◌, length, option_map};
ghost use Rattle.std.specs.List.{All};
ghost use Rattle.sim_flat_design.specs.Processes.{Process, IsProcess};
ghost use Rattle.sim_standard.specs.State.{State, net_at};
ghost use Rattle.sim_standard.specs.Orders.{is_among, one_by_one, NoRepeats};
ghost use Rattle.sim_standard.specs.Together.{together, parallel};
ghost use Rattle.sim_flat_design.specs.Designs.{Design};
ghost use Rattle.sim_standard.specs.Agreement.{total_of, value_by};
ghost use Rattle.sim_standard.specs.Records.{records_to};
ghost use Rattle.sim_standard.specs.Cycle.{cycle_end, ended, following, is_resumed, next_in, processes_where};
ghost use Rattle.sim_standard.specs.Midway.{updated_in};
ghost use Rattle.sim_standard.specs.Interleaving.{Interleaved, bodies};

/// Processes executed one after another, in any order, each once, leave the state that they leave
/// together, each on its own part of the state before.
pub fn any_order_leaves_the_same_state()
    ensures { (processes : List Process) (order : List ℕ) (s : State) → All IsProcess processes → length s.owned ≡ length processes
        → NoRepeats order → All (λ p. p < length s.owned) order → one_by_one processes order s ≡ together processes (is_among order) s }
{}

/// Some interleaving of the statements of a set of processes leads from one state to another
/// exactly if that is the state which the processes leave together, each on its own part: no
/// interleaving makes a difference.
pub fn any_interleaving_leaves_the_same_state()
    ensures { (processes : List Process) (set : ℕ → Bool) (s t : State) → All IsProcess processes → length s.owned ≡ length processes
        → Interleaved processes s (bodies set 0 processes) t ↔ (t ≡ together processes set s) }
{}

/// The states reached by executing the processes of each cycle together, each on its own part, are
/// those of the standard's cycle, which executes them one after another on the whole state.
pub fn parallel_cycles_reach_the_states_of_the_standard()
    ensures { (design : Design) (cycles : ℕ) → All IsProcess design.processes → parallel design cycles ≡ ended design cycles }
{}

/// In a design without postponed processes, a cycle executes the processes that it resumes, and
/// nothing else.
pub fn without_postponed_processes_a_cycle_executes_the_resumed_ones()
    ensures { (design : Design) (cycles : ℕ) (s : State) → All IsProcess design.processes → All (λ p. p.postponed ≡ false) design.processes
        → length s.owned ≡ length design.processes → s.waiting ≡ []
        → cycle_end design cycles s ≡ one_by_one design.processes (processes_where design (is_resumed design cycles s)) s }
{}

/// A state of `updated_in` is in the middle of a cycle, after its update and before its processes
/// are executed. Carried on, it is the state at the end of that cycle, and says what follows it
/// (IEEE 1076-2008, 14.7.5.3).
pub fn a_cycle_ends_as_its_update_is_carried_on()
    ensures ends { (design : Design) (cycles : ℕ) → ended design cycles ≡ option_map (cycle_end design cycles) (updated_in design cycles) }
    ensures next { (design : Design) (cycles : ℕ) → next_in design cycles ≡ option_map (following design cycles) (updated_in design cycles) }
{}

/// After each cycle, each net has the value of its last change in the records up to that cycle.
pub fn the_records_determine_the_values()
    ensures { (design : Design) (cycles net : ℕ) (s : State) → All IsProcess design.processes → ended design cycles ≡ Some s → net < length design.nets
        → value_by (records_to design cycles) net ≡ Some (net_at s.nets net).value }
{}

/// The number of changes of a net in the records after the first is its number of events: none at
/// first, and one more with each cycle in which the net has an event.
pub fn the_totals_count_the_events()
    ensures first { (design : Design) (net : ℕ) → total_of (records_to design 0) net ≡ 0 }
    ensures more { (design : Design) (cycles net : ℕ) (s : State) → All IsProcess design.processes → ended design (suc cycles) ≡ Some s
        → net < length design.nets → total_of (records_to design (suc cycles)) net
        ≡ (if (net_at s.nets net).event then suc (total_of (records_to design cycles) net) else total_of (records_to design cycles) net) }
{}
