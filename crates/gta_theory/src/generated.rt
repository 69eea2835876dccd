//! Laws of worklists: states that are closed under steps and generated.

ghost use Rattle.std.specs.Prelude.{ℕ, Bool, IsTrue};
ghost use Rattle.gta_theory.specs.Guides.{Spaces, IsGuide};
ghost use Rattle.gta_theory.specs.Automata.{Automaton, IsStable, Has};
ghost use Rattle.gta_theory.specs.Constructions.{pairs, IsReached, IsClosed, IsNaming, IsOnce, IsProduct, IsSubset};
ghost use Rattle.gta_theory.specs.Generated.{IsGenerated, IsNamingSets};

/// In a stable automaton, states that are closed under steps and generated are the reached ones.
pub fn generated_states_are_reached()
    ensures { (g : Spaces) (A : Automaton ℕ) (states : ℕ → ℕ → Bool) → IsGuide g → IsStable g A →
        IsClosed g A (Has states) → IsGenerated g A (Has states) → IsReached g A (Has states) }
{}

/// Closed states that name, each once, those of a stable automaton, with the steps along, are those of a stable one;
/// where they are generated they are the reached ones.
pub fn closed_names_are_stable()
    ensures stable { (g : Spaces) (A B : Automaton ℕ) (states : ℕ → ℕ → Bool) (name : ℕ → ℕ → ℕ) → IsGuide g →
        IsClosed g A (Has states) → IsNaming g A (Has states) B name → IsOnce g (Has states) name →
        IsStable g B → IsStable g A }
    ensures reached { (g : Spaces) (A B : Automaton ℕ) (states : ℕ → ℕ → Bool) (name : ℕ → ℕ → ℕ) → IsGuide g →
        IsClosed g A (Has states) → IsNaming g A (Has states) B name → IsOnce g (Has states) name →
        IsStable g B → IsGenerated g A (Has states) → IsReached g A (Has states) }
{}

/// Closed names of pairs, each once, are those of a stable automaton, and of the product where they are generated.
pub fn generated_pairs_are_the_product()
    ensures stable { (g : Spaces) (A B C : Automaton ℕ) (states : ℕ → ℕ → Bool) (pair : ℕ → ℕ → ℕ × ℕ) →
        IsGuide g → IsStable g A → IsStable g B → IsClosed g C (Has states) →
        IsNaming g C (Has states) (pairs A B) pair → IsOnce g (Has states) pair → IsStable g C }
    ensures product { (g : Spaces) (A B C : Automaton ℕ) (states : ℕ → ℕ → Bool) (pair : ℕ → ℕ → ℕ × ℕ) →
        IsGuide g → IsStable g A → IsStable g B → IsClosed g C (Has states) → IsGenerated g C (Has states) →
        IsNaming g C (Has states) (pairs A B) pair → IsOnce g (Has states) pair →
        IsProduct g A B C (Has states) pair }
{}

/// Closed names of sets, each once, are those of a stable automaton, and of the subset automaton where they are
/// generated.
pub fn generated_sets_are_the_subset_automaton()
    ensures stable { (g : Spaces) (A B : Automaton ℕ) (t : ℕ) (states : ℕ → ℕ → Bool) (member : ℕ → ℕ → ℕ → Bool) →
        IsGuide g → IsStable g A → IsClosed g B (Has states) →
        IsNamingSets g A t B (Has states) (λ s x q. IsTrue (member s x q)) → IsStable g B }
    ensures subset { (g : Spaces) (A B : Automaton ℕ) (t : ℕ) (states : ℕ → ℕ → Bool) (member : ℕ → ℕ → ℕ → Bool) →
        IsGuide g → IsStable g A → IsClosed g B (Has states) → IsGenerated g B (Has states) →
        IsNamingSets g A t B (Has states) (λ s x q. IsTrue (member s x q)) →
        IsSubset g A t B (Has states) (λ s x q. IsTrue (member s x q)) }
{}
