//! When an assignment satisfies a formula.

ghost use Rattle.std.specs.Prelude.{◌≡◌, ℕ, ◌<◌, ◌≤◌, ◌↔◌, Bool, true, false, IsTrue, List, [], ◌∷◌, ◌++◌, Some, slice_get};
ghost use Rattle.gta_theory.specs.Assignments.{Position, PositionSet, Assignment, IsFiniteSet, IsFinite, IsOnly, Covers, replace, only_below};
ghost use Rattle.ws2s_core.specs.declared.track.Track.{Track};
ghost use Rattle.ws2s_core.specs.declared.formula.Formula.{Formula};
ghost use Rattle.ws2s_core.specs.declared.formula.Formula.TheVariants.{Sub, Single, Succ0, Succ1, Root, And, Not, Ex2};
ghost use Rattle.ws2s_core.specs.Satisfaction.{WSat, Same};
ghost use Rattle.ws2s_core.specs.Tracks.{IsFree, track_bound, renamed, IsInjective, exchanged};
ghost use Rattle.ws2s_core.specs.Nodes.{IsOnceEach};

/// Satisfaction goes by the form of the formula.
pub fn satisfaction_goes_by_cases()
    ensures sub { (x y : Track) (a : Assignment) →
        WSat (Sub x y) a ↔ ((p : Position) → IsTrue (a x.0 p) → IsTrue (a y.0 p)) }
    ensures single { (x : Track) (a : Assignment) → WSat (Single x) a ↔ ((u : Position) × IsOnly (a x.0) u) }
    ensures succ0 { (x y : Track) (a : Assignment) →
        WSat (Succ0 x y) a ↔ ((u : Position) × IsOnly (a x.0) u × IsOnly (a y.0) (u ++ false ∷ [])) }
    ensures succ1 { (x y : Track) (a : Assignment) →
        WSat (Succ1 x y) a ↔ ((u : Position) × IsOnly (a x.0) u × IsOnly (a y.0) (u ++ true ∷ [])) }
    ensures root { (x : Track) (a : Assignment) → WSat (Root x) a ↔ IsOnly (a x.0) [] }
    ensures conjunction { (f g : Formula) (a : Assignment) → WSat (And f g) a ↔ (WSat f a × WSat g a) }
    ensures negation { (f : Formula) (a : Assignment) → WSat (Not f) a ↔ (¬ WSat f a) }
    ensures quantifier { (t : Track) (f : Formula) (a : Assignment) →
        WSat (Ex2 t f) a ↔ ((set : PositionSet) × IsFiniteSet set × WSat f (replace a t.0 set)) }
{}

/// Satisfaction looks at the members of the free tracks alone.
pub fn satisfaction_looks_at_free_tracks()
    ensures { (f : Formula) (a b : Assignment) →
        ((t : ℕ) → IsFree t f → (p : Position) → a t p ≡ b t p) → WSat f a ↔ WSat f b }
{}

/// A formula with its tracks renamed, no two to one number, says of an assignment what the formula says of the
/// renamed assignment.
pub fn satisfaction_goes_along_with_names()
    ensures { (f : Formula) (r : ℕ → ℕ) (a : Assignment) → IsInjective r →
        WSat (renamed r f) a ↔ WSat f (λ t. a (r t)) }
{}

/// The number of a bound track doesn't matter, as long as it isn't free under its quantifier.
pub fn bound_tracks_have_any_number()
    ensures { (t u : Track) (f : Formula) (a : Assignment) → (¬ IsFree u.0 f) →
        WSat (Ex2 t f) a ↔ WSat (Ex2 u (renamed (exchanged t.0 u.0) f)) a }
{}

/// A free track is below the bound of the formula, and an assignment of finite sets, cut down to the tracks below
/// it, is covered by some depth and satisfies the formula exactly where the whole assignment does.
pub fn covered_assignments_suffice()
    ensures below { (f : Formula) (t : ℕ) → IsFree t f → t < track_bound f }
    ensures covered { (k : ℕ) (a : Assignment) → IsFinite a → (n : ℕ) × Covers n (only_below k a) }
    ensures satisfied { (f : Formula) (a : Assignment) → WSat f a ↔ WSat f (only_below (track_bound f) a) }
{}

/// In a list of formulas that has none twice, equal places are exactly those of equal formulas.
pub fn ids_are_equal_exactly_for_equal_formulas()
    ensures { (formulas : List Formula) (i j : ℕ) (f g : Formula) → IsOnceEach formulas →
        slice_get formulas i ≡ Some f → slice_get formulas j ≡ Some g → (i ≡ j) ↔ (f ≡ g) }
{}
