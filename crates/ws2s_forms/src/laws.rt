//! What the abbreviations mean. The assignments are of finite sets where a meaning is told both ways by a test.

ghost use Rattle.std.specs.Prelude.{◌≡◌, ◌≢◌, ◌⊎◌, ℕ, ◌<◌, ◌↔◌, false, IsTrue, List, [], All, Contains};
ghost use Rattle.gta_theory.specs.Assignments.{Position, PositionSet, Assignment, IsFinite, IsFiniteSet, IsOnly, replace};
ghost use Rattle.ws2s_core.specs.declared.formula.Formula.{Formula};
ghost use Rattle.ws2s_core.specs.declared.formula.Formula.TheVariants.{Sub};
ghost use Rattle.ws2s_core.specs.Satisfaction.{WSat};
ghost use Rattle.ws2s_forms.specs.Forms.{track, false_at, true_at, and_list, or_list, or, imp, iff, ex1, all1, all2, empty_at, equal, flag, go, child, slot};
ghost use Rattle.ws2s_forms.specs.Places.{with_position, child_of, slot_of};

/// Truth values and connectives mean what they say.
pub fn connectives_mean_what_they_say()
    ensures never { (next : ℕ) (a : Assignment) → ¬ WSat (false_at next) a }
    ensures always { (next : ℕ) (a : Assignment) → WSat (true_at next) a }
    ensures or { (f g : Formula) (a : Assignment) → IsFinite a → WSat (or f g) a ↔ (WSat f a ⊎ WSat g a) }
    ensures imp { (f g : Formula) (a : Assignment) → IsFinite a → WSat (imp f g) a ↔ (WSat f a → WSat g a) }
    ensures iff { (f g : Formula) (a : Assignment) → IsFinite a → WSat (iff f g) a ↔ (WSat f a ↔ WSat g a) }
    ensures and_list { (next : ℕ) (fs : List Formula) (a : Assignment) →
        WSat (and_list next fs) a ↔ All (λ f. WSat f a) fs }
    ensures or_list { (next : ℕ) (fs : List Formula) (a : Assignment) → IsFinite a →
        WSat (or_list next fs) a ↔ ((f : Formula) × Contains fs f × WSat f a) }
{}

/// Quantifiers range over positions and over finite sets.
pub fn quantifiers_range_over_positions_and_sets()
    ensures ex1 { (next : ℕ) (f : Formula) (a : Assignment) →
        WSat (ex1 next f) a ↔ ((u : Position) × WSat f (with_position a next u)) }
    ensures all1 { (next : ℕ) (f : Formula) (a : Assignment) → IsFinite a →
        WSat (all1 next f) a ↔ ((u : Position) → WSat f (with_position a next u)) }
    ensures all2 { (next : ℕ) (f : Formula) (a : Assignment) → IsFinite a →
        WSat (all2 next f) a ↔ ((set : PositionSet) → IsFiniteSet set → WSat f (replace a next set)) }
{}

/// A track with one position has that position alone and leaves the other tracks; any set of one position does for it.
pub fn tracks_have_one_position()
    ensures here { (a : Assignment) (t : ℕ) (u : Position) → IsOnly (with_position a t u t) u }
    ensures elsewhere { (a : Assignment) (t x : ℕ) (u : Position) → x ≢ t → with_position a t u x ≡ a x }
    ensures finite { (a : Assignment) (t : ℕ) (u : Position) → IsFinite a → IsFinite (with_position a t u) }
    ensures same { (f : Formula) (a : Assignment) (t : ℕ) (set : PositionSet) (u : Position) → IsOnly set u →
        WSat f (replace a t set) ↔ WSat f (with_position a t u) }
{}

/// Sets are empty, equal or hold the root; one position is in a set or isn't.
pub fn sets_are_compared()
    ensures empty { (next x : ℕ) (a : Assignment) → x < next →
        WSat (empty_at next x) a ↔ ((p : Position) → a x p ≡ false) }
    ensures equal { (x y : ℕ) (a : Assignment) → WSat (equal x y) a ↔ ((p : Position) → a x p ≡ a y p) }
    ensures flag { (next x : ℕ) (a : Assignment) → x < next → WSat (flag next x) a ↔ IsTrue (a x []) }
    ensures member { (x y : ℕ) (a : Assignment) (u : Position) → IsOnly (a x) u →
        WSat (Sub (track x) (track y)) a ↔ IsTrue (a y u) }
{}

/// `go` and `child` hold exactly on one position u and the one position u 1^n 0, and `slot` exactly on the one position
/// 1^i 0.
pub fn slots_and_children_are_positions()
    ensures go { (next n from to : ℕ) (a : Assignment) → from < next → to < next →
        WSat (go next n from to) a ↔ ((u : Position) × IsOnly (a from) u × IsOnly (a to) (child_of n u)) }
    ensures child { (next j from to : ℕ) (a : Assignment) → from < next → to < next →
        WSat (child next j from to) a ↔ ((u : Position) × IsOnly (a from) u × IsOnly (a to) (child_of j u)) }
    ensures slot { (next i to : ℕ) (a : Assignment) → to < next →
        WSat (slot next i to) a ↔ IsOnly (a to) (slot_of i) }
{}
