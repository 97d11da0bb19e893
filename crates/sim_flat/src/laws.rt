//! Laws of flat designs.

ghost use Rattle.std.specs.Prelude.{◌≡◌, ◌≤◌, ℕ, List, Some};
ghost use Rattle.std.specs.List.{All, AllZip};
ghost use Rattle.sim_logic.specs.Sources.{IsResolvable};
ghost use Rattle.sim_flat_design.specs.Designs.{Design};
ghost use Rattle.sim_flat_design.specs.Limits.{Limits};
ghost use Rattle.sim_text_tree.specs.declared.unit.Architecture.{Architecture};
ghost use Rattle.sim_flat_instances.specs.Libraries.{Library};
ghost use Rattle.sim_flat_blocks.specs.Plans.{block_of, seen};
ghost use Rattle.sim_flat_blocks.specs.declared.parts.Block.{Block};
ghost use Rattle.sim_flat_blocks.specs.Blocks.{levels};
ghost use Rattle.sim_flat.specs.declared.top.Top.{Top};
ghost use Rattle.sim_flat.specs.Hierarchies.{IsFlat};
ghost use Rattle.sim_flat.specs.Laws.{HasValueOf, flat_to, name_at, place_of, region_of, trees, trees_to};

/// In the source tree of each net of a design without faults, no port or signal of type std_ulogic
/// has more than one source, in any instance (IEEE 1076-2008, 6.4.2.3).
pub fn unresolved_signals_have_at_most_one_source()
    ensures { (limits : Limits) (blocks : List Block) (top : Top) (design : Design) →
        IsFlat limits blocks top design → All IsResolvable (trees blocks top.block) }
{}

/// In a design without faults, the flat sources of each net, resolved as one list, give the value
/// of its source tree, in which each associated port is resolved by itself, for all values of the
/// drivers (IEEE 1076-2008, 14.7.3).
pub fn nets_have_the_values_of_their_source_trees()
    ensures { (limits : Limits) (blocks : List Block) (top : Top) (design : Design) →
        IsFlat limits blocks top design → AllZip HasValueOf (trees blocks top.block) design.nets }
{}

/// A design without faults is that of the whole hierarchy, and so are the source trees of its nets:
/// the limit on the levels of instances cuts nothing off, since any larger number of levels gives
/// the same.
pub fn the_limit_on_levels_cuts_nothing_off()
    ensures trees { (limits : Limits) (blocks : List Block) (top : Top) (design : Design) →
        IsFlat limits blocks top design → (n : ℕ) → levels ≤ n → trees_to n blocks top.block ≡ trees blocks top.block }
    ensures design { (limits : Limits) (blocks : List Block) (top : Top) (design : Design) →
        IsFlat limits blocks top design → (n : ℕ) → levels ≤ n → flat_to n blocks top.block ≡ design }
{}

/// If an architecture's region gives a name the position of a port or signal, then the port or
/// signal at this position of its block has that name.
pub fn names_are_at_their_positions()
    ensures { (l : Library) (a : Architecture) (name : List ℕ) (place : ℕ) →
        place_of (seen (region_of l a) name) ≡ Some place → name_at (block_of l a) place ≡ Some name }
{}
