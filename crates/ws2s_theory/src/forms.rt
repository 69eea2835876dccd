//! Every formula has a minimal automaton with numbered states.

ghost use Rattle.std.specs.Prelude.{◌≡◌, ℕ};
ghost use Rattle.gta_theory.specs.Guides.{Spaces, IsGuide};
ghost use Rattle.gta_theory.specs.Automata.{Automaton};
ghost use Rattle.gta_theory.specs.Sizes.{LooksBelow};
ghost use Rattle.gta_theory.specs.Numbered.{Below};
ghost use Rattle.ws2s_core.specs.declared.track.Track.{Track};
ghost use Rattle.ws2s_core.specs.declared.formula.Formula.{Formula};
ghost use Rattle.ws2s_core.specs.Recognising.{IsMinimalOf};
ghost use Rattle.ws2s_theory.specs.Peaks.{HasMinimalSize, HasProductSize, HasSubsetSize};

/// Under every guide each formula has a minimal automaton whose states are the numbers below a count in each space, and
/// whose steps look at the tracks below some number alone.
pub fn formulas_have_minimal_automata()
    ensures { (g : Spaces) (f : Formula) → IsGuide g →
        (M : Automaton ℕ) × (count : ℕ → ℕ) × (k : ℕ) × IsMinimalOf g M (Below count) f
        × LooksBelow g M (Below count) k }
{}

/// The Sizes of a formula's minimal automaton, of products of two formulas' minimal automata, and of subset automata of
/// a formula's minimal automaton exist and are each one number.
pub fn formulas_have_sizes()
    ensures minimal { (g : Spaces) (f : Formula) → IsGuide g → (n : ℕ) × HasMinimalSize g f n }
    ensures product { (g : Spaces) (f h : Formula) → IsGuide g → (n : ℕ) × HasProductSize g f h n }
    ensures subset { (g : Spaces) (t : Track) (f : Formula) → IsGuide g → (n : ℕ) × HasSubsetSize g t f n }
    ensures one_minimal { (g : Spaces) (f : Formula) (n m : ℕ) → IsGuide g →
        HasMinimalSize g f n → HasMinimalSize g f m → n ≡ m }
    ensures one_product { (g : Spaces) (f h : Formula) (n m : ℕ) → IsGuide g →
        HasProductSize g f h n → HasProductSize g f h m → n ≡ m }
    ensures one_subset { (g : Spaces) (t : Track) (f : Formula) (n m : ℕ) → IsGuide g →
        HasSubsetSize g t f n → HasSubsetSize g t f m → n ≡ m }
{}
