//! Laws of numbering: constructions with numbered states exist.

ghost use Rattle.std.specs.Prelude.{ℕ, Bool, ◌↔◌, IsTrue};
ghost use Rattle.gta_theory.specs.Assignments.{Assignment};
ghost use Rattle.gta_theory.specs.Guides.{Spaces, IsGuide};
ghost use Rattle.gta_theory.specs.Automata.{Automaton, IsStable, Accepts};
ghost use Rattle.gta_theory.specs.Constructions.{IsClosed, IsProduct, IsSubset};
ghost use Rattle.gta_theory.specs.Minimal.{IsMinimal};
ghost use Rattle.gta_theory.specs.Sizes.{LooksBelow};
ghost use Rattle.gta_theory.specs.Numbered.{Below, IsNumbered};

/// A stable automaton whose states are closed under steps, the numbers below a count in each space, and whose steps
/// look at the tracks below some number alone, has an automaton that numbers its values.
pub fn finite_automata_can_be_numbered()
    ensures { (g : Spaces) (A : Automaton ℕ) (count : ℕ → ℕ) (k : ℕ) → IsGuide g → IsStable g A →
        IsClosed g A (Below count) → LooksBelow g A (Below count) k →
        (B : Automaton ℕ) × (counts : ℕ → ℕ) × (name : ℕ → ℕ → ℕ) × IsNumbered g A B counts name }
{}

/// Two such automata have a product whose states are the numbers below a count in each space.
pub fn products_exist()
    ensures { (g : Spaces) (A B : Automaton ℕ) (count_A count_B : ℕ → ℕ) (k : ℕ) → IsGuide g →
        IsStable g A → IsClosed g A (Below count_A) → LooksBelow g A (Below count_A) k →
        IsStable g B → IsClosed g B (Below count_B) → LooksBelow g B (Below count_B) k →
        (C : Automaton ℕ) × (count : ℕ → ℕ) × (pair : ℕ → ℕ → ℕ × ℕ) × IsProduct g A B C (Below count) pair }
{}

/// One such automaton has, for each track, a subset automaton that drops it, whose states are the numbers below a count
/// in each space.
pub fn subsets_exist()
    ensures { (g : Spaces) (A : Automaton ℕ) (count : ℕ → ℕ) (k t : ℕ) → IsGuide g →
        IsStable g A → IsClosed g A (Below count) → LooksBelow g A (Below count) k →
        (B : Automaton ℕ) × (counts : ℕ → ℕ) × (member : ℕ → ℕ → ℕ → Bool)
        × IsSubset g A t B (Below counts) (λ s x q. IsTrue (member s x q)) }
{}

/// One such automaton has a minimal one that accepts the same, whose states are the numbers below a count in each
/// space, and whose steps look at the same tracks alone.
pub fn minimal_automata_exist()
    ensures { (g : Spaces) (A : Automaton ℕ) (count : ℕ → ℕ) (k : ℕ) → IsGuide g →
        IsStable g A → IsClosed g A (Below count) → LooksBelow g A (Below count) k →
        (M : Automaton ℕ) × (counts : ℕ → ℕ) × IsMinimal g M (Below counts)
        × ((a : Assignment) → Accepts g A a ↔ Accepts g M a) × LooksBelow g M (Below counts) k }
{}
