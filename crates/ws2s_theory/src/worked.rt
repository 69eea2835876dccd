//! Worked Sizes and Peaks, under the plain guide.

ghost use Rattle.std.specs.Prelude.{ℕ, suc};
ghost use Rattle.ws2s_core.specs.declared.formula.Formula.TheVariants.{Sub, Single, Root, And, Not, Ex2};
ghost use Rattle.ws2s_core.specs.Examples.{track, has_root};
ghost use Rattle.ws2s_theory.specs.Peaks.{HasMinimalSize, HasProductSize, HasSubsetSize, HasPeak};
ghost use Rattle.ws2s_theory.specs.Worked.{plain, some_each, root_on_each};

/// The Sizes of atoms' minimal automata.
pub fn sizes_of_atoms()
    ensures single { (t : ℕ) → HasMinimalSize plain (Single (track t)) 11 }
    ensures root { HasMinimalSize plain (Root (track 1)) 10 }
    ensures sub { HasMinimalSize plain (Sub (track 1) (track 0)) 6 }
{}

/// The Sizes on the way to "some set, which is the root alone, is within the set of track 0": of the product, of its
/// minimal automaton, of the subset automaton, and of the result.
pub fn sizes_of_a_root_within()
    ensures product { HasProductSize plain (Root (track 1)) (Sub (track 1) (track 0)) 30 }
    ensures conjunction { HasMinimalSize plain (And (Root (track 1)) (Sub (track 1) (track 0))) 12 }
    ensures subset { HasSubsetSize plain (track 1) (And (Root (track 1)) (Sub (track 1) (track 0))) 5 }
    ensures result { HasMinimalSize plain has_root 5 }
{}

/// The Peak of that formula, of the part under its quantifier, and of its negation.
pub fn peak_of_a_root_within()
    ensures conjunction { HasPeak plain (And (Root (track 1)) (Sub (track 1) (track 0))) 58 }
    ensures quantified { HasPeak plain has_root 58 }
    ensures negated { HasPeak plain (Not has_root) 58 }
{}

/// The Peak of "some set has one position", and of such formulas of several tracks together.
pub fn peaks_of_one_position()
    ensures one { (t : ℕ) → HasPeak plain (Ex2 (track t) (Single (track t))) 13 }
    ensures several { (n : ℕ) → HasPeak plain (some_each (suc n)) 14 }
{}

/// The Peak of "the root is in the set of each of tracks 0 to 3", joined from the left, and of its negation; and the Size
/// of the minimal automaton of the first three, beside which the Peak of the fourth counts.
pub fn peak_of_four_roots_within()
    ensures three { HasMinimalSize plain (root_on_each 4 2) 7 }
    ensures four { HasPeak plain (root_on_each 4 3) 65 }
    ensures negated { HasPeak plain (Not (root_on_each 4 3)) 65 }
{}
