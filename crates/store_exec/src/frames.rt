//! What execution leaves as it was: laws, each the contract of a function that does nothing.

ghost use Rattle.std.specs.Prelude.{◌≡◌, ℕ, Ok, List};
ghost use Rattle.store_core.specs.Tables.{TypeEntry};
ghost use Rattle.store_core.specs.Stores.{StoreMap, IsAbove};
ghost use Rattle.store_logic.specs.declared.act.Act.{Act};
ghost use Rattle.store_exec.specs.declared.code.Code.{Code};
ghost use Rattle.store_exec.specs.declared.outcome.Outcome.TheVariants as outcome;
ghost use Rattle.store_exec.specs.Steps.{Step};
ghost use Rattle.store_exec.specs.Runs.{RunsCode};
ghost use Rattle.store_exec.specs.Frames.{ActsOfRun, Leave};

/// An act leaves each cell that it doesn't free live, each field and variable that it doesn't write as it was, and each cell's variant;
/// no number that was used gets a new cell.
pub fn acts_leave_the_rest()
    ensures { (types : List TypeEntry) (s t : StoreMap) (a : Act) → IsAbove s → Step types s a (Ok t) → Leave (λ u b. (u ≡ s) × (b ≡ a)) s t }
{}

/// The same of a code that ends at a cut, by all the acts that it executes on the way.
pub fn runs_leave_the_rest()
    ensures { (types : List TypeEntry) (code : Code) (s t : StoreMap) (place : ℕ) → IsAbove s → RunsCode types code s (outcome.End place t) →
        Leave (ActsOfRun types code s) s t }
{}
