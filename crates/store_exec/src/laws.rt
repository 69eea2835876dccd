//! What holds of execution, each law the contract of a function that does nothing.

ghost use Rattle.std.specs.Prelude.{◌≡◌, ◌↔◌, ◌+◌, ◌≤◌, ℕ, Result, Ok, Option, None, List};
ghost use Rattle.store_core.specs.Tables.{TypeEntry, VarEntry};
ghost use Rattle.store_core.specs.Stores.{StoreMap, Fits, IsFresh};
ghost use Rattle.routing_walks.specs.WellFormed.{IsWellFormed};
ghost use Rattle.store_logic.specs.declared.act.Act.{Act};
ghost use Rattle.store_logic.specs.FitsCode.{ActFits};
ghost use Rattle.store_logic.specs.declared.cond.Cond.{Cond};
ghost use Rattle.store_exec.specs.declared.cause.Cause.{Cause};
ghost use Rattle.store_exec.specs.declared.code.Item.{Item};
ghost use Rattle.store_exec.specs.declared.code.Item.TheVariants as item;
ghost use Rattle.store_exec.specs.declared.code.Code.{Code};
ghost use Rattle.store_exec.specs.declared.code.Tail.TheVariants as tail;
ghost use Rattle.store_exec.specs.declared.outcome.Outcome.{Outcome};
ghost use Rattle.store_exec.specs.declared.outcome.Outcome.TheVariants as outcome;
ghost use Rattle.store_exec.specs.declared.triple.Cut.{Cut};
ghost use Rattle.store_exec.specs.declared.triple.Triple.{Triple};
ghost use Rattle.store_exec.specs.Steps.{truth_of, Step};
ghost use Rattle.store_exec.specs.Runs.{Ending, Does, ByTruth, RunsItem, RunsItems, Follows, Branches, RunsCode};
ghost use Rattle.store_exec.specs.Cuts.{AtCut};
ghost use Rattle.store_exec.specs.Failing.{Meets, Fails};
ghost use Rattle.store_exec.specs.Fits.{CodeFits, news_of_code, TripleFits};
ghost use Rattle.store_exec.specs.Restricted.{restricted};

/// An act that fits its tables keeps a store fitting them and fresh.
pub fn acts_keep_stores_fitting()
    ensures { (types : List TypeEntry) (vars : List VarEntry) (s t : StoreMap) (a : Act) → Fits types vars s → IsFresh s →
        ActFits types vars a → Step types s a (Ok t) → Fits types vars t × IsFresh t }
{}

/// A code that fits its tables leads from a store that fits them and is fresh to one that does so too, with a new cell for each
/// `new` that stands in the code at most.
pub fn codes_keep_stores_fitting()
    ensures { (types : List TypeEntry) (vars : List VarEntry) (code : Code) (s t : StoreMap) (place : ℕ) → Fits types vars s → IsFresh s →
        CodeFits types vars code → RunsCode types code s (outcome.End place t) →
        Fits types vars t × IsFresh t × (t.next ≤ s.next + news_of_code code) }
{}

/// A store that fits its tables and is at a cut without a cause is well-formed once its logic sets are restricted to the live cells.
/// Such is a store at which a triple that fits the tables arrives without a cause, from one that meets it.
pub fn cuts_leave_well_formed_stores()
    ensures cut { (types : List TypeEntry) (vars : List VarEntry) (cut : Cut) (s : StoreMap) → Fits types vars s → AtCut types vars cut s None →
        IsWellFormed types vars (restricted s) }
    ensures run { (types : List TypeEntry) (vars : List VarEntry) (triple : Triple) (s t : StoreMap) (place : ℕ) (cut : Cut) →
        TripleFits types vars triple → Meets types vars triple s → RunsCode types triple.code s (outcome.End place t) →
        AtCut types vars cut t None → IsWellFormed types vars (restricted t) }
{}

/// Items and codes end by the cases of their forms.
pub fn runs_go_by_cases()
    ensures acts { (types : List TypeEntry) (line : ℕ) (a : Act) (s : StoreMap) (end : Ending) →
        RunsItem types (item.Do line a) s end ↔ Does types line s a end }
    ensures ifs { (types : List TypeEntry) (line : ℕ) (c : Cond) (taken other : List Item) (s : StoreMap) (end : Ending) →
        RunsItem types (item.If line c taken other) s end ↔ ByTruth line (truth_of s c) (RunsItems types taken s) (RunsItems types other s) end }
    ensures cuts { (types : List TypeEntry) (code : Code) (place : ℕ) (s : StoreMap) (out : Outcome) → code.tail ≡ tail.Cut place →
        RunsCode types code s out ↔ Follows (RunsItems types code.items s) (λ t o. o ≡ outcome.End place t) out }
    ensures branches { (types : List TypeEntry) (code taken other : Code) (line : ℕ) (c : Cond) (s : StoreMap) (out : Outcome) →
        code.tail ≡ tail.Branch line c taken other → RunsCode types code s out ↔ Follows (RunsItems types code.items s)
        (λ t. Branches line (truth_of t c) (RunsCode types taken t) (RunsCode types other t)) out }
{}

/// An act leads from a store to one end only, a code to one outcome, a cut has one first cause, or none, and a triple fails with one
/// cause at one line.
pub fn runs_have_one_end()
    ensures steps { (types : List TypeEntry) (s : StoreMap) (a : Act) (r q : Result StoreMap Cause) → Step types s a r → Step types s a q → r ≡ q }
    ensures codes { (types : List TypeEntry) (code : Code) (s : StoreMap) (out other : Outcome) →
        RunsCode types code s out → RunsCode types code s other → out ≡ other }
    ensures cuts { (types : List TypeEntry) (vars : List VarEntry) (cut : Cut) (s : StoreMap) (why other : Option Cause) →
        AtCut types vars cut s why → AtCut types vars cut s other → why ≡ other }
    ensures triples { (types : List TypeEntry) (vars : List VarEntry) (triple : Triple) (s : StoreMap) (why other : Cause) (line at : ℕ) →
        Fails types vars triple s why line → Fails types vars triple s other at → (why ≡ other) × (line ≡ at) }
{}
