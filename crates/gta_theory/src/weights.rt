//! Laws of weights.

ghost use Rattle.std.specs.Prelude.{◌≡◌, ℕ, ◌≤◌, ◌↔◌, IsTrue, List, Contains, Some, None};
ghost use Rattle.gta_theory.specs.Assignments.{Assignment, PositionSet, Covers, replace, no_positions};
ghost use Rattle.gta_theory.specs.Guides.{Spaces, IsGuide, IsSpace};
ghost use Rattle.gta_theory.specs.Automata.{Automaton, IsStable, Accepts, IsValue};
ghost use Rattle.gta_theory.specs.Weights.{weight, IsWithinOn, IsLeastWeight, WeightTable, IsRelaxed, IsLightest};

/// An assignment weighs the same to any two depths that cover it.
pub fn weight_is_free_of_the_depth()
    ensures { (tracks : List ℕ) (n m : ℕ) (a : Assignment) → Covers n a → Covers m a →
        weight tracks n a ≡ weight tracks m a }
{}

/// Fewer positions on the listed tracks weigh no more: a track that is emptied never adds weight, and one that isn't
/// listed may have any set.
pub fn fewer_positions_weigh_no_more()
    ensures no_more { (tracks : List ℕ) (n : ℕ) (a b : Assignment) → IsWithinOn tracks a b →
        weight tracks n a ≤ weight tracks n b }
    ensures emptied { (tracks : List ℕ) (n t : ℕ) (a : Assignment) →
        weight tracks n (replace a t no_positions) ≤ weight tracks n a }
    ensures unlisted { (tracks : List ℕ) (n t : ℕ) (a : Assignment) (set : PositionSet) → (¬ Contains tracks t) →
        weight tracks n (replace a t set) ≡ weight tracks n a }
{}

/// The table of a search which has ended has exactly the least weights, and none for a state that is no value.
pub fn relaxed_weights_are_least()
    ensures least { (g : Spaces) (A : Automaton ℕ) (tracks : List ℕ) (weights : WeightTable ℕ) (rank : ℕ → ℕ → ℕ) →
        IsGuide g → IsStable g A → IsRelaxed g A tracks weights rank →
        (s q w : ℕ) → IsSpace g s → (weights s q ≡ Some w) ↔ IsLeastWeight g A tracks s q w }
    ensures none { (g : Spaces) (A : Automaton ℕ) (tracks : List ℕ) (weights : WeightTable ℕ) (rank : ℕ → ℕ → ℕ) →
        IsGuide g → IsStable g A → IsRelaxed g A tracks weights rank →
        (s q : ℕ) → IsSpace g s → (weights s q ≡ None) ↔ (¬ IsValue g A s q) }
{}

/// The lightest accepted assignment weighs as much as the lightest accepting state of space 0; where no accepting state
/// has a weight, nothing is accepted.
pub fn lightest_accepted_is_a_lightest_accepting_state()
    ensures some { (g : Spaces) (A : Automaton ℕ) (tracks : List ℕ) (weights : WeightTable ℕ) (rank : ℕ → ℕ → ℕ) →
        IsGuide g → IsStable g A → IsRelaxed g A tracks weights rank →
        (q w : ℕ) → IsTrue (A.accepting q) → weights 0 q ≡ Some w →
        ((p u : ℕ) → IsTrue (A.accepting p) → weights 0 p ≡ Some u → w ≤ u) → IsLightest g A tracks w }
    ensures none { (g : Spaces) (A : Automaton ℕ) (tracks : List ℕ) (weights : WeightTable ℕ) (rank : ℕ → ℕ → ℕ) →
        IsGuide g → IsStable g A → IsRelaxed g A tracks weights rank →
        ((q w : ℕ) → weights 0 q ≡ Some w → ¬ IsTrue (A.accepting q)) → (a : Assignment) → ¬ Accepts g A a }
{}
