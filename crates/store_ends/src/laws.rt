//! What is decided of execution.

ghost use Rattle.std.specs.Prelude.{◌<◌, ℕ, List, [], Option};
ghost use Rattle.std.specs.List.{AllByRecursion};
ghost use Rattle.store_core.specs.Tables.{TypeEntry, VarEntry};
ghost use Rattle.store_core.specs.Stores.{StoreMap, Fits};
ghost use Rattle.routing_walks.specs.Deciding.{Decided};
ghost use Rattle.store_logic.specs.declared.assertion.Assertion.{Assertion};
ghost use Rattle.store_logic.specs.declared.region.Region.{Region};
ghost use Rattle.store_logic.specs.Terms.{Environment};
ghost use Rattle.store_logic.specs.Satisfaction.{Sat};
ghost use Rattle.store_exec.specs.declared.cause.Cause.{Cause};
ghost use Rattle.store_exec.specs.declared.code.Code.{Code};
ghost use Rattle.store_exec.specs.declared.outcome.Outcome.{Outcome};
ghost use Rattle.store_exec.specs.declared.outcome.Outcome.TheVariants as outcome;
ghost use Rattle.store_exec.specs.declared.triple.Cut.{Cut};
ghost use Rattle.store_exec.specs.Runs.{RunsCode};
ghost use Rattle.store_exec.specs.Cuts.{AtCut};
ghost use Rattle.store_ends.specs.Places.{places_of};

/// A store has finitely many cells, so whether it satisfies an assertion without predicates is decided, also on a region.
pub fn assertions_are_decided()
    ensures { (types : List TypeEntry) (vars : List VarEntry) (s : StoreMap) (on : Region) (e : Environment) (a : Assertion) →
        Decided (Sat types vars [] s on e a) }
{}

/// From each store a code leads to a cut with a store, or to a cause at its line.
pub fn codes_lead_somewhere()
    ensures { (types : List TypeEntry) (code : Code) (s : StoreMap) → (out : Outcome) × RunsCode types code s out }
{}

/// A code ends at one of the cuts that its tails name.
pub fn codes_end_at_cuts_that_they_name()
    ensures { (types : List TypeEntry) (code : Code) (s t : StoreMap) (place n : ℕ) → AllByRecursion (λ place. place < n) (places_of code) →
        RunsCode types code s (outcome.End place t) → place < n }
{}

/// On a store that fits its tables a cut has a first cause, or none.
pub fn cuts_have_a_first_cause_or_none()
    ensures { (types : List TypeEntry) (vars : List VarEntry) (cut : Cut) (s : StoreMap) → Fits types vars s →
        (why : Option Cause) × AtCut types vars cut s why }
{}
