//! Laws of Sizes.

ghost use Rattle.std.specs.Prelude.{◌≡◌, ◌≢◌, ℕ, ◌+◌, ◌≤◌, Bool, ◌↔◌, IsTrue, List, length, All, AllPairs};
ghost use Rattle.labels.specs.Labels.{Label};
ghost use Rattle.gta_theory.specs.Assignments.{Assignment, Covers};
ghost use Rattle.gta_theory.specs.Guides.{Spaces, IsGuide, IsSpace};
ghost use Rattle.gta_theory.specs.Automata.{Automaton, IsStable, Accepts, Has};
ghost use Rattle.gta_theory.specs.Constructions.{IsReached, IsNaming, IsProduct, IsSubset};
ghost use Rattle.gta_theory.specs.Minimal.{IsMinimal, AreAlike};
ghost use Rattle.gta_theory.specs.Sizes.{AreDifferent, IsPart, IsChildPair, SizeIn, sum_below, SizeOf, LooksBelow};
ghost use Rattle.gta_theory.specs.Numbered.{Below};

/// An automaton has one size at most in each space, and one Size.
pub fn sizes_are_unique()
    ensures in_space { (g : Spaces) (A : Automaton ℕ) (states : ℕ → ℕ → Bool) → IsGuide g →
        (s n m : ℕ) → IsSpace g s → SizeIn g A (Has states) s n → SizeIn g A (Has states) s m → n ≡ m }
    ensures whole { (g : Spaces) (A : Automaton ℕ) (states : ℕ → ℕ → Bool) → IsGuide g →
        (n m : ℕ) → SizeOf g A (Has states) n → SizeOf g A (Has states) m → n ≡ m }
{}

/// Alike automata have equal sizes in each space, and equal Sizes.
pub fn alike_automata_have_equal_sizes()
    ensures in_space { (g : Spaces) (A B : Automaton ℕ) (states_A states_B : ℕ → ℕ → Bool) → IsGuide g →
        AreAlike g A (Has states_A) B (Has states_B) →
        (s n m : ℕ) → IsSpace g s → SizeIn g A (Has states_A) s n → SizeIn g B (Has states_B) s m → n ≡ m }
    ensures whole { (g : Spaces) (A B : Automaton ℕ) (states_A states_B : ℕ → ℕ → Bool) → IsGuide g →
        AreAlike g A (Has states_A) B (Has states_B) →
        (n m : ℕ) → SizeOf g A (Has states_A) n → SizeOf g B (Has states_B) m → n ≡ m }
{}

/// Two minimal automata under one guide that accept the same have equal sizes in each space, and equal Sizes.
pub fn minimal_automata_have_equal_sizes()
    ensures in_space { (g : Spaces) (A B : Automaton ℕ) (states_A states_B : ℕ → ℕ → Bool) → IsGuide g →
        IsMinimal g A (Has states_A) → IsMinimal g B (Has states_B) →
        ((n : ℕ) (a : Assignment) → Covers n a → Accepts g A a ↔ Accepts g B a) →
        (s n m : ℕ) → IsSpace g s → SizeIn g A (Has states_A) s n → SizeIn g B (Has states_B) s m → n ≡ m }
    ensures whole { (g : Spaces) (A B : Automaton ℕ) (states_A states_B : ℕ → ℕ → Bool) → IsGuide g →
        IsMinimal g A (Has states_A) → IsMinimal g B (Has states_B) →
        ((n : ℕ) (a : Assignment) → Covers n a → Accepts g A a ↔ Accepts g B a) →
        (n m : ℕ) → SizeOf g A (Has states_A) n → SizeOf g B (Has states_B) m → n ≡ m }
{}

/// An automaton whose states are the numbers below a count in each space, and whose steps look at the tracks below
/// some number alone, has a size in each space, and a Size.
pub fn sizes_exist()
    ensures in_space { (g : Spaces) (A : Automaton ℕ) (count : ℕ → ℕ) (k : ℕ) →
        LooksBelow g A (Below count) k →
        (s : ℕ) → IsSpace g s → (n : ℕ) × SizeIn g A (Below count) s n }
    ensures whole { (g : Spaces) (A : Automaton ℕ) (count : ℕ → ℕ) (k : ℕ) →
        LooksBelow g A (Below count) k →
        (n : ℕ) × SizeOf g A (Below count) n }
{}

/// Child pairs and parts of a table that are listed, each once, are no more than the size in their space; listed in
/// each space they are no more than the Size.
pub fn listed_pairs_and_parts_fit_in_the_size()
    ensures in_space { (g : Spaces) (A : Automaton ℕ) (states : ℕ → ℕ → Bool) (s n : ℕ)
        (pairs : List (ℕ × ℕ)) (parts : List (Label → ℕ)) →
        AllPairs (λ x y. x ≢ y) pairs → All (IsChildPair g (Has states) s) pairs →
        AllPairs AreDifferent parts → All (IsPart g A (Has states) s) parts →
        SizeIn g A (Has states) s n → length pairs + length parts ≤ n }
    ensures whole { (g : Spaces) (A : Automaton ℕ) (states : ℕ → ℕ → Bool) (n : ℕ)
        (pairs : ℕ → List (ℕ × ℕ)) (parts : ℕ → List (Label → ℕ)) →
        ((s : ℕ) → IsSpace g s → AllPairs (λ x y. x ≢ y) (pairs s) × All (IsChildPair g (Has states) s) (pairs s)) →
        ((s : ℕ) → IsSpace g s → AllPairs AreDifferent (parts s) × All (IsPart g A (Has states) s) (parts s)) →
        SizeOf g A (Has states) n → sum_below (λ s. length (pairs s) + length (parts s)) (length g) ≤ n }
{}

/// Where steps look at the tracks below some number alone, so do those of products, of subset automata, and of
/// automata of classes.
pub fn constructions_look_no_further()
    ensures product { (g : Spaces) (A B C : Automaton ℕ) (states_A states_B states_C : ℕ → ℕ → Bool)
        (pair : ℕ → ℕ → ℕ × ℕ) (k : ℕ) → IsGuide g →
        IsStable g A → IsReached g A (Has states_A) → IsStable g B → IsReached g B (Has states_B) →
        IsProduct g A B C (Has states_C) pair →
        LooksBelow g A (Has states_A) k → LooksBelow g B (Has states_B) k → LooksBelow g C (Has states_C) k }
    ensures subset { (g : Spaces) (A B : Automaton ℕ) (t : ℕ) (states_A states_B : ℕ → ℕ → Bool)
        (member : ℕ → ℕ → ℕ → Bool) (k : ℕ) → IsGuide g → IsStable g A → IsReached g A (Has states_A) →
        IsSubset g A t B (Has states_B) (λ s x q. IsTrue (member s x q)) →
        LooksBelow g A (Has states_A) k → LooksBelow g B (Has states_B) k }
    ensures classes { (g : Spaces) (A M : Automaton ℕ) (states classes : ℕ → ℕ → Bool) (class_of : ℕ → ℕ → ℕ) (k : ℕ) →
        IsGuide g → IsNaming g A (Has states) M class_of →
        ((s x : ℕ) → IsSpace g s → Has classes s x ↔ ((q : ℕ) × Has states s q × (class_of s q ≡ x))) →
        LooksBelow g A (Has states) k → LooksBelow g M (Has classes) k }
{}
