//! Laws of automata with their tracks renamed in order.

ghost use Rattle.std.specs.Prelude.{ℕ, Bool, ◌↔◌, IsTrue};
ghost use Rattle.gta_theory.specs.Assignments.{Assignment, Covers};
ghost use Rattle.gta_theory.specs.Guides.{Spaces, IsGuide};
ghost use Rattle.gta_theory.specs.Automata.{Automaton, IsStable, Accepts, Has};
ghost use Rattle.gta_theory.specs.Constructions.{IsProduct, IsSubset};
ghost use Rattle.gta_theory.specs.Minimal.{IsMinimal};
ghost use Rattle.gta_theory.specs.Sizes.{SizeIn, SizeOf};
ghost use Rattle.gta_theory.specs.Renamed.{IsIncreasing, renamed_tracks};

/// A stable automaton with its tracks renamed accepts an assignment exactly where it accepts the sets of the tracks'
/// new numbers; where it was minimal it still is, with the same states.
pub fn renamed_tracks_keep_what_is_accepted()
    ensures accepts { (g : Spaces) (A : Automaton ℕ) (r : ℕ → ℕ) → IsGuide g → IsIncreasing r → IsStable g A →
        (n : ℕ) (a : Assignment) → Covers n a → Accepts g (renamed_tracks r A) a ↔ Accepts g A (λ t. a (r t)) }
    ensures minimal { (g : Spaces) (A : Automaton ℕ) (states : ℕ → ℕ → Bool) (r : ℕ → ℕ) → IsIncreasing r →
        IsMinimal g A (Has states) → IsMinimal g (renamed_tracks r A) (Has states) }
{}

/// Products and subset automata go along when tracks are renamed in order.
pub fn constructions_go_along_with_renamed_tracks()
    ensures product { (g : Spaces) (A B C : Automaton ℕ) (states : ℕ → ℕ → Bool) (pair : ℕ → ℕ → ℕ × ℕ) (r : ℕ → ℕ) →
        IsIncreasing r → IsProduct g A B C (Has states) pair →
        IsProduct g (renamed_tracks r A) (renamed_tracks r B) (renamed_tracks r C) (Has states) pair }
    ensures subset { (g : Spaces) (A C : Automaton ℕ) (t : ℕ) (states : ℕ → ℕ → Bool) (member : ℕ → ℕ → ℕ → Bool)
        (r : ℕ → ℕ) → IsIncreasing r → IsSubset g A t C (Has states) (λ s x q. IsTrue (member s x q)) →
        IsSubset g (renamed_tracks r A) (r t) (renamed_tracks r C) (Has states) (λ s x q. IsTrue (member s x q)) }
{}

/// An automaton with its tracks renamed in order has the same size in each space, and the same Size.
pub fn renamed_tracks_keep_sizes()
    ensures in_space { (g : Spaces) (A : Automaton ℕ) (states : ℕ → ℕ → Bool) (r : ℕ → ℕ) → IsIncreasing r →
        (s n : ℕ) → SizeIn g A (Has states) s n → SizeIn g (renamed_tracks r A) (Has states) s n }
    ensures whole { (g : Spaces) (A : Automaton ℕ) (states : ℕ → ℕ → Bool) (r : ℕ → ℕ) → IsIncreasing r →
        (n : ℕ) → SizeOf g A (Has states) n → SizeOf g (renamed_tracks r A) (Has states) n }
{}
