//! Laws of claims.

ghost use Rattle.std.specs.Prelude.{List, IfSome, Contains};
ghost use Rattle.store_core.specs.declared.ids.VarId.{VarId};
ghost use Rattle.store_core.specs.Tables.{TypeEntry, VarEntry, var_at};
ghost use Rattle.store_logic.specs.declared.term.Base.{Base};
ghost use Rattle.store_logic.specs.declared.term.Base.TheVariants as base;
ghost use Rattle.store_logic.specs.declared.assertion.Assertion.{Assertion};
ghost use Rattle.store_logic.specs.Sorts.{var_sort};
ghost use Rattle.store_logic.specs.Filling.{Filling, filled};
ghost use Rattle.store_logic.specs.Fits.{AssertionFits};
ghost use Rattle.claim_laws.specs.Claims.{StatedFits, FillingFits};

/// A claim of one procedure fits the variables of another where something of its sort is put in for each variable that it may name:
/// so do `pre` and `post` of a procedure where it is called.
pub fn claims_with_actuals_put_in_fit()
    ensures { (types : List TypeEntry) (theirs vars : List VarEntry) (among : List VarId) (put : Base → Filling) (claim : Assertion) →
        StatedFits types theirs (Contains among) claim →
        ((v : VarId) → Contains among v → IfSome (var_at theirs v) (λ entry. FillingFits types vars (put (base.Var v)) (var_sort entry.kind))) →
        AssertionFits types vars (filled put claim 0) }
{}
