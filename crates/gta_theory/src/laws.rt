//! Laws of values, complements, products and subset automata.

ghost use Rattle.std.specs.Prelude.{◌≡◌, ℕ, Bool, ◌↔◌, IsTrue};
ghost use Rattle.gta_theory.specs.Assignments.{Assignment, PositionSet, IsFiniteSet, Covers, replace};
ghost use Rattle.gta_theory.specs.Guides.{Spaces, IsGuide, IsSpace};
ghost use Rattle.gta_theory.specs.Automata.{Automaton, value, IsStable, Accepts, Has};
ghost use Rattle.gta_theory.specs.Constructions.{complement, IsClosed, IsNaming, IsProduct, IsSubset};
ghost use Rattle.gta_theory.specs.Minimal.{AreAlike};

/// A stable automaton has the same value at any two depths that cover the assignment.
pub fn value_is_free_of_the_depth()
    ensures { (g : Spaces) (A : Automaton ℕ) → IsGuide g → IsStable g A →
        (s n m : ℕ) (a : Assignment) → IsSpace g s → Covers n a → Covers m a →
        value g A s n a ≡ value g A s m a }
{}

/// The complement of a stable automaton is stable, and accepts exactly what was not accepted.
pub fn complement_accepts_the_others()
    ensures stable { (g : Spaces) (A : Automaton ℕ) → IsStable g A → IsStable g (complement A) }
    ensures accepts { (g : Spaces) (A : Automaton ℕ) → IsGuide g → IsStable g A →
        (n : ℕ) (a : Assignment) → Covers n a →
        Accepts g (complement A) a ↔ (¬ Accepts g A a) }
{}

/// A product of stable automata is stable.
pub fn product_is_stable()
    ensures { (g : Spaces) (A B C : Automaton ℕ) (states : ℕ → ℕ → Bool) (pair : ℕ → ℕ → ℕ × ℕ) →
        IsGuide g → IsStable g A → IsStable g B → IsProduct g A B C (Has states) pair → IsStable g C }
{}

/// A product accepts exactly what both accept.
pub fn product_accepts_what_both_accept()
    ensures { (g : Spaces) (A B C : Automaton ℕ) (states : ℕ → ℕ → Bool) (pair : ℕ → ℕ → ℕ × ℕ) →
        IsGuide g → IsStable g A → IsStable g B → IsProduct g A B C (Has states) pair →
        (a : Assignment) → Accepts g C a ↔ (Accepts g A a × Accepts g B a) }
{}

/// An automaton whose states are names of another one's, with the steps along, accepts the same.
pub fn names_keep_acceptance()
    ensures { (g : Spaces) (A B : Automaton ℕ) (states : ℕ → ℕ → Bool) (name : ℕ → ℕ → ℕ) →
        IsGuide g → IsClosed g A (Has states) → IsNaming g A (Has states) B name →
        (a : Assignment) → Accepts g A a ↔ Accepts g B a }
{}

/// The subset automaton of a stable one is stable.
pub fn subset_is_stable()
    ensures { (g : Spaces) (A B : Automaton ℕ) (t : ℕ) (states : ℕ → ℕ → Bool) (member : ℕ → ℕ → ℕ → Bool) →
        IsGuide g → IsStable g A → IsSubset g A t B (Has states) (λ s x q. IsTrue (member s x q)) →
        IsStable g B }
{}

/// The subset automaton accepts exactly where some finite set for the dropped track is accepted.
pub fn subset_drops_a_track()
    ensures { (g : Spaces) (A B : Automaton ℕ) (t : ℕ) (states : ℕ → ℕ → Bool) (member : ℕ → ℕ → ℕ → Bool) →
        IsGuide g → IsStable g A → IsSubset g A t B (Has states) (λ s x q. IsTrue (member s x q)) →
        (n : ℕ) (a : Assignment) → Covers n a →
        Accepts g B a ↔ ((set : PositionSet) × IsFiniteSet set × Accepts g A (replace a t set)) }
{}

/// Two products of the same automata have states one to one in each space.
pub fn products_are_alike()
    ensures { (g : Spaces) (A B C D : Automaton ℕ) (states_C states_D : ℕ → ℕ → Bool) (pair_C pair_D : ℕ → ℕ → ℕ × ℕ) →
        IsGuide g → IsStable g A → IsStable g B →
        IsProduct g A B C (Has states_C) pair_C → IsProduct g A B D (Has states_D) pair_D →
        AreAlike g C (Has states_C) D (Has states_D) }
{}

/// Two subset automata of the same automaton and track have states one to one in each space.
pub fn subsets_are_alike()
    ensures { (g : Spaces) (A C D : Automaton ℕ) (t : ℕ) (states_C states_D : ℕ → ℕ → Bool)
        (member_C member_D : ℕ → ℕ → ℕ → Bool) →
        IsGuide g → IsStable g A →
        IsSubset g A t C (Has states_C) (λ s x q. IsTrue (member_C s x q)) →
        IsSubset g A t D (Has states_D) (λ s x q. IsTrue (member_D s x q)) →
        AreAlike g C (Has states_C) D (Has states_D) }
{}
