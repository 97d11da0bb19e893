//! Laws of editing: each is what an empty function ensures.

ghost use Rattle.std.specs.Prelude.{ℕ, Bool, true, List, ◌+◌, ◌-◌, ◌≡◌, ◌<◌, ◌↔◌, ◌∷◌, ◌++◌, length, map};
ghost use Rattle.sim_standard.specs.Drivers.{Transaction};
ghost use Rattle.sim_standard.specs.declared.delay.Delay as delay;
ghost use Rattle.sim_standard.specs.Editing.{at_places, before, edited, is_marked_at, marked_of, Marked};

/// The test of a place, `is_marked_at`, decides the least set of marked places.
pub fn the_marked_places_are_the_least_set()
    ensures { (limit : ℕ) (old : List Transaction) (first : Transaction) (others : List Transaction)
        (place : ℕ) → place < length old
        → (is_marked_at limit old first.1 place ≡ true) ↔ Marked limit old (first ∷ others) place }
{}

/// An inertial delay keeps the old transactions at the places of the least set, whichever test
/// decides it.
pub fn the_kept_transactions_are_the_marked_ones()
    ensures { (limit : ℕ) (old : List Transaction) (first : Transaction) (others : List Transaction)
        (test : ℕ → Bool)
        → ((place : ℕ) → place < length old
        → (test place ≡ true) ↔ Marked limit old (first ∷ others) place)
        → marked_of limit first.1 old ≡ at_places test 0 old }
{}

/// An inertial assignment leaves the marked transactions: among the old ones before the first new
/// one, followed by the new ones, those at the places of the least set, whichever test decides it
/// (IEEE 1076-2008, 10.5.2.2).
pub fn an_inertial_edit_leaves_the_marked_transactions()
    ensures { (old : List Transaction) (now : ℕ) (reject : ℕ) (element : Transaction) (elements : List Transaction)
        (test : ℕ → Bool)
        → let first = now + element.0 in
        let new = map (λ (e : Transaction). (now + e.0, e.1)) (element ∷ elements) in
        let all = before first old ++ new in
        ((place : ℕ) → place < length all
        → (test place ≡ true) ↔ Marked (first - reject) (before first old) new place)
        → edited old now (delay.Delay.Inertial reject) (element ∷ elements) ≡ at_places test 0 all }
{}
