//! Laws of minimal automata.

ghost use Rattle.std.specs.Prelude.{◌≡◌, ◌≢◌, ℕ, Bool, ◌↔◌, nat_lt};
ghost use Rattle.gta_theory.specs.Assignments.{Assignment, Covers};
ghost use Rattle.gta_theory.specs.Guides.{Spaces, IsGuide, IsSpace};
ghost use Rattle.gta_theory.specs.Automata.{Automaton, IsStable, Accepts, Has};
ghost use Rattle.gta_theory.specs.Constructions.{complement, IsReached, IsNaming};
ghost use Rattle.gta_theory.specs.Minimal.{AreSeparated, AreToldApart, IsMinimal, AreAlike};

/// Two states that steps keep apart are told apart by a tree with a hole.
pub fn separated_states_are_told_apart()
    ensures { (g : Spaces) (A : Automaton ℕ) → IsGuide g → IsStable g A →
        (s p q : ℕ) → AreSeparated g A s p q → AreToldApart g A s p q }
{}

/// An automaton of classes of reached states, where steps keep the states of different classes apart, is minimal.
pub fn separated_classes_are_minimal()
    ensures { (g : Spaces) (A M : Automaton ℕ) (states classes : ℕ → ℕ → Bool) (class_of : ℕ → ℕ → ℕ) →
        IsGuide g → IsStable g A → IsReached g A (Has states) → IsNaming g A (Has states) M class_of →
        ((s x : ℕ) → IsSpace g s → Has classes s x ↔ ((q : ℕ) × Has states s q × (class_of s q ≡ x))) →
        ((s p q : ℕ) → IsSpace g s → Has states s p → Has states s q → class_of s p ≢ class_of s q →
        AreSeparated g A s p q) →
        IsMinimal g M (Has classes) }
{}

/// Two minimal automata under one guide that accept the same have states one to one in each space, by the
/// assignments whose values they are, and their steps and their accepting states go along.
pub fn minimal_automata_are_alike()
    ensures { (g : Spaces) (A B : Automaton ℕ) (states_A states_B : ℕ → ℕ → Bool) → IsGuide g →
        IsMinimal g A (Has states_A) → IsMinimal g B (Has states_B) →
        ((n : ℕ) (a : Assignment) → Covers n a → Accepts g A a ↔ Accepts g B a) →
        AreAlike g A (Has states_A) B (Has states_B) }
{}

/// The complement of a minimal automaton is minimal, with the same states.
pub fn complement_stays_minimal()
    ensures { (g : Spaces) (A : Automaton ℕ) (states : ℕ → ℕ → Bool) → IsGuide g →
        IsMinimal g A (Has states) → IsMinimal g (complement A) (Has states) }
{}

/// Alike automata, whose states are the numbers below a count, have the same count in each space.
pub fn alike_automata_have_as_many_states()
    ensures { (g : Spaces) (A B : Automaton ℕ) (count_A count_B : ℕ → ℕ) →
        AreAlike g A (Has (λ s q. nat_lt q (count_A s))) B (Has (λ s q. nat_lt q (count_B s))) →
        (s : ℕ) → IsSpace g s → count_A s ≡ count_B s }
{}
