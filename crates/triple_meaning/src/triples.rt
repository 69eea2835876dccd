//! What the formulas of assertions and of cuts mean on the stores that the walk sees, and how triples fail by it.

ghost use Rattle.std.specs.Prelude.{◌≡◌, ℕ, List, slice_get, Some, None};
ghost use Rattle.gta_theory.specs.Assignments.{Assignment};
ghost use Rattle.store_core.specs.Tables.{TypeEntry, VarEntry};
ghost use Rattle.store_core.specs.Stores.{StoreMap};
ghost use Rattle.store_exec.specs.declared.cause.Cause.{Cause};
ghost use Rattle.store_exec.specs.declared.outcome.Outcome.TheVariants as outcome;
ghost use Rattle.store_exec.specs.declared.triple.Cut.{Cut};
ghost use Rattle.store_exec.specs.declared.triple.Triple.{Triple};
ghost use Rattle.store_exec.specs.Cuts.{AtCut};
ghost use Rattle.store_exec.specs.Failing.{Fails};
ghost use Rattle.store_exec.specs.Fits.{CutFits, TripleFits};
ghost use Rattle.store_exec.specs.Runs.{RunsCode};
ghost use Rattle.site_list.specs.Triples.{walked};
ghost use Rattle.triple_meaning.specs.Sites.Places.{NoneComes, ComesFirst};
ghost use Rattle.triple_meaning.specs.Sites.Seeing.{IsOver, HasRoom, AreDefined};
ghost use Rattle.triple_meaning.specs.Sites.Doing.{AreAssertionsMeant};
ghost use Rattle.triple_meaning.specs.Sites.Ending.{IsSettled, AreConditionsMeant, AreClaimsMeant, AreCutsMeant};
ghost use Rattle.triple_meaning.specs.Triples.Parted.{IsParted, AreParted};

/// On the stores that the walk sees, the formulas of assertions mean them, and so do those of the conditions of cuts; and where a cut
/// fits and its claims speak of all cells, or of its part or the rest, the formulas of its claims and of its pointers do.
pub fn formulas_are_meant()
    ensures assertions { (types : List TypeEntry) (vars : List VarEntry) → AreAssertionsMeant types vars }
    ensures conditions { (types : List TypeEntry) (vars : List VarEntry) → AreConditionsMeant types vars }
    ensures claims { (types : List TypeEntry) (vars : List VarEntry) (cut : Cut) → CutFits types vars cut → IsParted cut → AreClaimsMeant types vars cut }
    ensures cuts { (types : List TypeEntry) (vars : List VarEntry) (t : Triple) → TripleFits types vars t → AreParted t → AreCutsMeant types vars t.cuts }
{}

/// On the tree of a well-formed store, with what defines it on each track that was made, the first cause that comes on the walk over
/// the code of a triple that fits is the one with which the triple fails; none comes where the code ends at a cut without a cause; and
/// what comes first is what the triple fails with, where it is settled how its code ends. (Møller and Schwartzbach, PLDI 2001.)
pub fn triples_fail_by_the_first_cause()
    ensures fails { (types : List TypeEntry) (vars : List VarEntry) (t : Triple) (a : Assignment) (first : StoreMap) (next : ℕ) (why : Cause) (line : ℕ) →
        TripleFits types vars t → AreParted t → IsOver types vars a first → HasRoom types vars next (walked types vars t) →
        AreDefined next a (walked types vars t) → Fails types vars t first why line → ComesFirst next a (walked types vars t).checks why line }
    ensures passes { (types : List TypeEntry) (vars : List VarEntry) (t : Triple) (a : Assignment) (first : StoreMap) (next : ℕ) (place : ℕ)
        (last : StoreMap) (cut : Cut) → TripleFits types vars t → AreParted t → IsOver types vars a first →
        HasRoom types vars next (walked types vars t) → AreDefined next a (walked types vars t) →
        RunsCode types t.code first (outcome.End place last) → slice_get t.cuts place ≡ Some cut → AtCut types vars cut last None →
        NoneComes next a (walked types vars t).checks }
    ensures comes { (types : List TypeEntry) (vars : List VarEntry) (t : Triple) (a : Assignment) (first : StoreMap) (next : ℕ) (why : Cause) (line : ℕ) →
        TripleFits types vars t → AreParted t → IsOver types vars a first → HasRoom types vars next (walked types vars t) →
        AreDefined next a (walked types vars t) → IsSettled types vars t first → ComesFirst next a (walked types vars t).checks why line →
        Fails types vars t first why line }
{}
