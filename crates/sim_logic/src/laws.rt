//! Laws of resolution. Each law is the contract of an empty function.

ghost use Rattle.std.specs.Prelude.{◌≡◌, ◌<◌, ℕ, List, [], ◌∷◌, fold, length, map};
ghost use Rattle.sim_logic.specs.declared.logic.Logic as logic;
ghost use Rattle.sim_logic.specs.Resolution.{resolved};
ghost use Rattle.sim_logic.specs.Sources.{SourceTree, IsResolvable, flat_source_value, flat_sources, nested};
ghost use Rattle.sim_logic.specs.Tables.{resolution_table};

/// Values may be resolved in any grouping.
pub fn resolution_is_associative()
    ensures { (a : logic.Logic) (b : logic.Logic) (c : logic.Logic)
        → resolution_table (resolution_table a b) c ≡ resolution_table a (resolution_table b c) }
{}

/// Values may be resolved in any order.
pub fn resolution_is_commutative()
    ensures { (a : logic.Logic) (b : logic.Logic) → resolution_table a b ≡ resolution_table b a }
{}

/// A single value resolves to itself.
pub fn a_single_value_resolves_to_itself()
    ensures { (value : logic.Logic) → resolved (value ∷ []) ≡ value }
{}

/// Two or more values are resolved one after another, starting from `'Z'`.
pub fn several_values_are_resolved_from_left_to_right()
    ensures { (values : List logic.Logic) → 1 < length values
        → resolved values ≡ fold resolution_table logic.Logic.Z values }
{}

/// Resolving the flat sources of a source tree as one list gives the value of the tree, in which
/// each port is resolved by itself.
pub fn flat_sources_have_the_value_of_their_source_tree()
    ensures { (driving : ℕ → logic.Logic) (tree : SourceTree) → IsResolvable tree
        → resolved (map (flat_source_value driving) (flat_sources tree)) ≡ nested driving tree }
{}
