//! The formulas of sites mean failing.

ghost use Rattle.std.specs.Prelude.{◌≡◌, ◌↔◌, ℕ, List, slice_get, Some};
ghost use Rattle.gta_theory.specs.Assignments.{Assignment, IsFinite};
ghost use Rattle.store_core.specs.Tables.{TypeEntry, VarEntry};
ghost use Rattle.store_core.specs.Stores.{StoreMap};
ghost use Rattle.store_exec.specs.declared.cause.Cause.{Cause};
ghost use Rattle.store_exec.specs.declared.triple.Triple.{Triple};
ghost use Rattle.store_exec.specs.Failing.{StartHolds, Meets, Fails};
ghost use Rattle.site_list.specs.States.{Check};
ghost use Rattle.site_list.specs.Triples.{walked, first_bound};
ghost use Rattle.triple_meaning.specs.Sites.Places.{Comes};
ghost use Rattle.triple_meaning.specs.Sites.Seeing.{IsOver, AreDefined};
ghost use Rattle.triple_meaning.specs.Tracks.Defining.{IsWithMade};
ghost use Rattle.triple_meaning.specs.Failing.Satisfying.{IsPosed, IsSatisfiedAt, IsFirstSatisfied};

/// An assignment of finite sets that satisfies the formula of a site is the tree of some well-formed store. (Klarlund and Schwartzbach
/// 1993.)
pub fn satisfied_sites_have_well_formed_stores()
    ensures { (types : List TypeEntry) (vars : List VarEntry) (t : Triple) (a : Assignment) (site : ℕ) → IsPosed types vars t → IsFinite a →
        IsSatisfiedAt types vars t a site → (s : StoreMap) × IsOver types vars a s }
{}

/// On the tree of a well-formed store the formula of a site holds exactly where the start of the triple holds of the store and, with
/// some values that define the tracks that the walk made, the site's place is reached and its condition holds.
pub fn sites_are_told()
    ensures { (types : List TypeEntry) (vars : List VarEntry) (t : Triple) (a : Assignment) (s : StoreMap) (site : ℕ) (c : Check) → IsPosed types vars t →
        IsOver types vars a s → slice_get (walked types vars t).checks site ≡ Some c →
        IsSatisfiedAt types vars t a site
        ↔ (StartHolds types vars t.start s × ((b : Assignment) × IsWithMade types vars (walked types vars t) a b
        × AreDefined (first_bound types vars (walked types vars t)) b (walked types vars t) × Comes (first_bound types vars (walked types vars t)) b c)) }
{}

/// On the tree of a well-formed store the formula of some site is satisfied exactly where the store meets the triple and fails, and the
/// first site whose formula is has the cause and the line with which it fails. (Møller and Schwartzbach, PLDI 2001.)
pub fn sites_mean_failing()
    ensures fails { (types : List TypeEntry) (vars : List VarEntry) (t : Triple) (a : Assignment) (s : StoreMap) (why : Cause) (line : ℕ) →
        IsPosed types vars t → IsOver types vars a s → Meets types vars t s → Fails types vars t s why line →
        IsFirstSatisfied types vars t a why line }
    ensures meets { (types : List TypeEntry) (vars : List VarEntry) (t : Triple) (a : Assignment) (s : StoreMap) (site : ℕ) → IsPosed types vars t →
        IsOver types vars a s → IsSatisfiedAt types vars t a site → Meets types vars t s }
    ensures some { (types : List TypeEntry) (vars : List VarEntry) (t : Triple) (a : Assignment) (s : StoreMap) (site : ℕ) → IsPosed types vars t →
        IsOver types vars a s → IsSatisfiedAt types vars t a site → (why : Cause) × (line : ℕ) × Fails types vars t s why line }
    ensures first { (types : List TypeEntry) (vars : List VarEntry) (t : Triple) (a : Assignment) (s : StoreMap) (why : Cause) (line : ℕ) →
        IsPosed types vars t → IsOver types vars a s → IsFirstSatisfied types vars t a why line → Fails types vars t s why line }
{}
