//! Laws of automata that are alike: one can stand for the other.

ghost use Rattle.std.specs.Prelude.{ℕ, Bool, IsTrue};
ghost use Rattle.gta_theory.specs.Guides.{Spaces, IsGuide};
ghost use Rattle.gta_theory.specs.Automata.{Automaton, IsStable, Has};
ghost use Rattle.gta_theory.specs.Constructions.{complement, IsReached, IsProduct, IsSubset};
ghost use Rattle.gta_theory.specs.Minimal.{AreAlike};

/// A stable automaton with its reached states is alike to itself.
pub fn reached_states_are_alike_to_themselves()
    ensures { (g : Spaces) (A : Automaton ℕ) (states : ℕ → ℕ → Bool) → IsGuide g → IsStable g A →
        IsReached g A (Has states) → AreAlike g A (Has states) A (Has states) }
{}

/// Where A is alike to B, B is alike to A.
pub fn alike_goes_both_ways()
    ensures { (g : Spaces) (A B : Automaton ℕ) (states_A states_B : ℕ → ℕ → Bool) →
        AreAlike g A (Has states_A) B (Has states_B) → AreAlike g B (Has states_B) A (Has states_A) }
{}

/// Where A is alike to B and B to C, A is alike to C.
pub fn alike_goes_on()
    ensures { (g : Spaces) (A B C : Automaton ℕ) (states_A states_B states_C : ℕ → ℕ → Bool) →
        AreAlike g A (Has states_A) B (Has states_B) → AreAlike g B (Has states_B) C (Has states_C) →
        AreAlike g A (Has states_A) C (Has states_C) }
{}

/// Complements of alike automata are alike.
pub fn complements_of_alike_are_alike()
    ensures { (g : Spaces) (A B : Automaton ℕ) (states_A states_B : ℕ → ℕ → Bool) → IsGuide g →
        IsStable g A → IsStable g B → AreAlike g A (Has states_A) B (Has states_B) →
        AreAlike g (complement A) (Has states_A) (complement B) (Has states_B) }
{}

/// Products of alike automata are alike.
pub fn products_of_alike_are_alike()
    ensures { (g : Spaces) (A D B E C F : Automaton ℕ)
        (states_A states_D states_B states_E states_C states_F : ℕ → ℕ → Bool) (pair other_pair : ℕ → ℕ → ℕ × ℕ) →
        IsGuide g → IsStable g A → IsStable g D → IsStable g B → IsStable g E →
        AreAlike g A (Has states_A) D (Has states_D) → AreAlike g B (Has states_B) E (Has states_E) →
        IsProduct g A B C (Has states_C) pair → IsProduct g D E F (Has states_F) other_pair →
        AreAlike g C (Has states_C) F (Has states_F) }
{}

/// Subset automata of alike automata that drop the same track are alike.
pub fn subsets_of_alike_are_alike()
    ensures { (g : Spaces) (A D C F : Automaton ℕ) (t : ℕ)
        (states_A states_D states_C states_F : ℕ → ℕ → Bool) (member other_member : ℕ → ℕ → ℕ → Bool) →
        IsGuide g → IsStable g A → IsStable g D → AreAlike g A (Has states_A) D (Has states_D) →
        IsSubset g A t C (Has states_C) (λ s x q. IsTrue (member s x q)) →
        IsSubset g D t F (Has states_F) (λ s x q. IsTrue (other_member s x q)) →
        AreAlike g C (Has states_C) F (Has states_F) }
{}
